// The log over memory that is lent.
ghost use Rattle.std.specs.Prelude.{◌≡◌, length, nat_lt, slice_set};
ghost use Rattle.journal.specs.Appends.{planned};
ghost use Rattle.journal.specs.Spans.{spanned};

use crate::faults::LadderFault;
use crate::record::{Record, place_of};
use crate::walk::{Chain, Stretch};
use kind::Kind;

// The records of a volume, with changes of type C. How many are written, the caller knows.
#[derive(Drop)]
pub struct Log<'a, C> {
    records: &'a mut [Record<C>],
}

impl<'a, C: Copy> Log<'a, C> {
    pub fn new(records: &'a mut [Record<C>]) -> Log<'a, C>
        ensures holds { result.records.now ≡ records.old }
        ensures same { result.records.ghost_name ≡ records.entry.ghost_name }
    {
        Log { records }
    }

    // How many records the log can hold.
    pub fn capacity(&self) -> usize
        ensures { result ≡ length self.now.records.now }
    {
        self.records.len()
    }

    // The records, linked for a cell with this head.
    pub fn chain<K: Kind<Change = C>>(&self, cell: u16, head: u32) -> Chain<'_, K>
        ensures records { result.records.now ≡ self.now.records.now }
        ensures cell { result.cell ≡ cell }
        ensures head { result.head ≡ head }
    {
        Chain {
            records: self.records,
            cell,
            head,
        }
    }

    // The change of a cell from moment `a` to moment `b`, and the steps that were taken; for a caller that has numbers, and no chain.
    pub fn span<K: Kind<Change = C>>(
        &self,
        count: u32,
        head: u32,
        cell: u16,
        a: u32,
        b: u32,
    ) -> Result<Stretch<C>, LadderFault>
        ensures { result ≡ spanned K.Kind.model self.now.records.now count head cell a b }
    {
        self.chain::<K>(cell, head).span(count, a, b)
    }

    // Record `number`, which logs the change of a cell with this head; it is not yet written. By numbers too.
    #[inline(always)]
    pub fn next_record<K: Kind<Change = C>>(
        &self,
        number: u32,
        head: u32,
        cell: u16,
        change: &C,
    ) -> Result<Record<C>, LadderFault>
        ensures { result ≡ planned K.Kind.model self.now.records.now number head cell change.now }
    {
        self.chain::<K>(cell, head).next_record(number, change)
    }

    // Lays `r` down as record `count` + 1, and answers whether it fits; where it does not, nothing changes. In this crate and in
    // `volume` nothing else writes a record. A `bool`, no plainer as an error: whether it fits is a value that clauses name.
    #[inline(always)]
    pub fn append(&mut self, count: u32, r: Record<C>) -> bool
        ensures answer { result ≡ nat_lt count (length self.old.records.now) }
        ensures after { self.new.records.now ≡ slice_set self.old.records.now count r }
        ensures same { self.new.records.ghost_name ≡ self.old.records.ghost_name }
    {
        let place = place_of(count as usize + 1);
        if place >= self.capacity() {
            return false;
        }
        self.records[place] = r;
        true
    }
}
