// Revert: the cells are written back to how they stood at a moment.
ghost use Rattle.std.specs.Prelude.{◌≡◌, ◌<◌, ◌≤◌, length, IfOk};
ghost use Rattle.kind.specs.Answers.{kept};
ghost use Rattle.volume.specs.Memory.{held, seen, KeepsLoans};
ghost use Rattle.volume.specs.Reverts.{held_state, earlier_state, alike, needed, all_needed, put_back, put_all_back, taken_back, reverted, count_of};

use crate::Volume;
use crate::refusal::Refusal;
use crate::tested::Tested;
use kind::Kind;

impl<K: Kind> Tested<'_, K> {
    // The state of a cell as its span from moment `from`, the count at the call, to moment `to` leaves it.
    fn earlier(&self, from: u32, to: u32, i: usize) -> Result<K::State, Refusal>
        requires there { i < length self.now.cells.now }
        ensures { result ≡ earlier_state K.Kind.model from to (seen self.now) i }
    {
        let found = self.chain(i).span(from, from, to)?;
        let state = self.state(i);
        Ok(K::act(&found.change, &state))
    }

    // Whether a cell has this state already.
    fn stands(&self, i: usize, state: &K::State) -> bool
        requires there { i < length self.now.cells.now }
        ensures { result ≡ alike K.Kind.model (held_state K.Kind.model (seen self.now) i) state.now }
    {
        K::same_state(&self.state(i), state)
    }

    // How many writes a cell needs, none or one; the tests of the write are tried.
    fn needs(&self, from: u32, to: u32, i: usize) -> Result<u32, Refusal>
        requires there { i < length self.now.cells.now }
        requires low { from ≤ 65535 }
        ensures answer { result ≡ needed K.Kind.model from to (seen self.now) i }
        ensures low { IfOk result (λ n. n ≤ 1) }
    {
        let target = self.earlier(from, to, i)?;
        let state = self.state(i);
        if K::same_state(&state, &target) {
            return Ok(0);
        }
        let change = K::difference(&state, &target);
        self.chain(i).next_record(from + 1, &change)?;
        Ok(1)
    }

    // How many writes all cells need. By the cell's number, which is that of its state, its head and its links.
    #[tactic(auto, using(crate::proofs::Restores::needed_more))]
    fn all_need(&self, from: u32, to: u32) -> Result<u32, Refusal>
        requires low { from ≤ 65535 }
        ensures answer { result ≡ all_needed K.Kind.model from to (seen self.now) (length self.now.cells.now) }
        ensures low { IfOk result (λ n. n ≤ 4096) }
    {
        let mut writes = 0;
        let cells = self.cells;
        for i in 0..cells.len() {
            writes += self.needs(from, to, i)?;
        }
        Ok(writes)
    }
}

impl<K: Kind> Volume<'_, '_, '_, '_, K> {
    // Writes a cell back where it stands otherwise. A refusal would leave it as it is; where every cell was tried before, none comes.
    fn restore(&mut self, from: u32, to: u32, i: usize)
        requires there { i < length self.old.cells.now }
        requires few { length self.old.cells.now ≤ 4096 }
        requires paired { length self.old.heads.now ≡ length self.old.cells.now }
        ensures after { held self.new ≡ put_back K.Kind.model from to (held self.old) i }
        ensures loans { KeepsLoans self.old self.new }
    {
        let Ok(target) = self.view().earlier(from, to, i) else {
            return;
        };
        if self.view().stands(i, &target) {
            return;
        }
        let _ = self.write(i as u32, &target);
    }

    // Writes every cell back, in order. By the cell's number, since each write changes the rows.
    #[tactic(auto, using(crate::proofs::Loans::along, crate::proofs::Restores::one_more_back))]
    fn restore_all(&mut self, from: u32, to: u32)
        requires few { length self.old.cells.now ≤ 4096 }
        requires paired { length self.old.heads.now ≡ length self.old.cells.now }
        ensures after { held self.new ≡ put_all_back K.Kind.model from to (held self.old) (length self.old.cells.now) }
        ensures loans { KeepsLoans self.old self.new }
    {
        for i in 0..self.cells.len() {
            self.restore(from, to, i);
        }
    }

    // Writes every cell that stands otherwise than at `moment` back to how it stood then, and answers the new count.
    // Every cell, and then the space, is tried before anything changes. Refusals 1 to 4, 14, 18, 19.
    #[tactic(auto, unfolding(crate::specs::Reverts::reverted))]
    pub fn revert(&mut self, moment: u32) -> Result<u32, Refusal>
        ensures answer { result ≡ count_of (reverted K.Kind.model (held self.old) moment) }
        ensures after { held self.new ≡ kept (held self.old) (reverted K.Kind.model (held self.old) moment) }
        ensures loans { KeepsLoans self.old self.new }
    {
        self.check_memory()?;
        let count = *self.count;
        if moment > count {
            return Err(Refusal::Moment);
        }
        let writes = self.view().all_need(count, moment)?;
        if (count + writes) as usize > self.records.len() {
            return Err(Refusal::Full);
        }
        self.restore_all(count, moment);
        Ok(*self.count)
    }
}
