// The calls: format, write, read and span.
ghost use Rattle.std.specs.Prelude.{◌≡◌, ◌+◌, ◌^◌, ◌<◌, ◌≤◌, length};
ghost use Rattle.kind.specs.Answers.{told, kept};
ghost use Rattle.volume.specs.Calls.{emptied, changed_to, cleared, formatted, wrote, written, looked, state_read, measured, change_between, steps_of, change_of};
ghost use Rattle.volume.specs.Memory.{held, KeepsLoans};

use crate::Volume;
use crate::parts::{fill_with, log_change};
use crate::refusal::Refusal;
use crate::sizes::check_sizes;
use kind::Kind;

impl<K: Kind> Volume<'_, '_, '_, '_, K> {
    // Sets every cell to the origin, every head and the count to zero.
    pub(crate) fn empty(&mut self)
        ensures after { held self.new ≡ emptied K.Kind.model (held self.old) }
        ensures loans { KeepsLoans self.old self.new }
    {
        fill_with(self.cells, K::origin());
        self.heads.fill(0);
        *self.count = 0;
    }

    // Sets every cell to the origin and forgets the log. Refusals 1 to 3.
    #[tactic(auto, unfolding(crate::specs::Calls::formatted))]
    pub fn format(&mut self) -> Result<(), Refusal>
        ensures answer { result ≡ told tt (formatted K.Kind.model (held self.old)) }
        ensures after { held self.new ≡ kept (held self.old) (formatted K.Kind.model (held self.old)) }
        ensures loans { KeepsLoans self.old self.new }
    {
        check_sizes(self.cells.len(), self.heads.len(), self.records.len())?;
        self.empty();
        Ok(())
    }

    // Logs the change of a cell and puts `state` in its place, and answers the new count. A change that is not logged changes nothing.
    #[inline(always)]
    pub(crate) fn put(
        &mut self,
        i: usize,
        change: &K::Change,
        state: &K::State,
    ) -> Result<u32, Refusal>
        requires there { i < length self.old.cells.now }
        requires paired { length self.old.heads.now ≡ length self.old.cells.now }
        requires narrow { i < 2 ^ 16 }
        requires low { self.old.count.now ≤ 65535 }
        ensures answer { result ≡ told ((held self.old).count + 1) (changed_to K.Kind.model (held self.old) i change.now state.now) }
        ensures after { held self.new ≡ kept (held self.old) (changed_to K.Kind.model (held self.old) i change.now state.now) }
        ensures loans { KeepsLoans self.old self.new }
    {
        let head = self.heads[i];
        let count = *self.count;
        log_change::<K>(self.records, count, head, i as u16, change)?;
        self.cells[i] = *state;
        self.heads[i] = count + 1;
        *self.count = count + 1;
        Ok(count + 1)
    }

    // Logs the difference from the cell's state to `state`, puts `state` in its place and answers the new count. Refusals 1 to 4, 13, 18, 19.
    #[tactic(auto, unfolding(crate::specs::Calls::written))]
    #[inline(always)]
    pub fn write(&mut self, cell: u32, state: &K::State) -> Result<u32, Refusal>
        ensures answer { result ≡ told ((held self.old).count + 1) (written K.Kind.model (held self.old) cell state.now) }
        ensures after { held self.new ≡ kept (held self.old) (written K.Kind.model (held self.old) cell state.now) }
        ensures loans { KeepsLoans self.old self.new }
    {
        self.check_memory()?;
        let i = cell as usize;
        if i >= self.cells.len() {
            return Err(Refusal::Cell);
        }
        let change = K::difference(&self.cells[i], state);
        self.put(i, &change, state)
    }

    // Copies the state of a cell to `place`. Refusals 1 to 4, 13.
    #[tactic(auto, unfolding(crate::specs::Calls::state_read))]
    #[inline(always)]
    pub fn read(&self, cell: u32, place: &mut K::State) -> Result<(), Refusal>
        ensures answer { result ≡ told tt (state_read K.Kind.model (held self.now) cell) }
        ensures put { place.new ≡ kept place.old (state_read K.Kind.model (held self.now) cell) }
    {
        self.check_memory()?;
        let i = cell as usize;
        if i >= self.cells.len() {
            return Err(Refusal::Cell);
        }
        *place = self.view().state(i);
        Ok(())
    }

    // Puts the change of a cell from moment `a` to moment `b` into `place` and answers the steps that it took. Refusals 1 to 4, 13, 14, 18.
    // Two moments and no interval, since either may be the later one; the place is the caller's.
    #[tactic(auto, unfolding(crate::specs::Calls::change_between))]
    #[inline(always)]
    pub fn span(&self, cell: u32, a: u32, b: u32, place: &mut K::Change) -> Result<u32, Refusal>
        ensures answer { result ≡ steps_of (change_between K.Kind.model (held self.now) cell a b) }
        ensures put { place.new ≡ change_of place.old (change_between K.Kind.model (held self.now) cell a b) }
    {
        self.check_memory()?;
        let i = cell as usize;
        if i >= self.cells.len() {
            return Err(Refusal::Cell);
        }
        let count = *self.count;
        if a > count || b > count {
            return Err(Refusal::Moment);
        }
        let found = self.view().chain(i).span(count, a, b)?;
        *place = found.change;
        Ok(found.steps)
    }
}
