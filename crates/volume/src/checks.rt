// Check: whether the memory is what writes after a format leave.
ghost use Rattle.std.specs.Prelude.{◌≡◌, ◌<◌, ◌≤◌, length, if◌then◌else◌, Ok, slice_set};
ghost use Rattle.kind.specs.Answers.{and_then, each_below, kept};
ghost use Rattle.journal.specs.Appends.{planned};
ghost use Rattle.journal.specs.Links.{numbered};
ghost use Rattle.volume.specs.Checks.{as_planned, right_record, record_right, head_right, newest_to, before_wrong, as_changed, cell_right, judged, noted, examined, workable, checked, work_after};
ghost use Rattle.volume.specs.Memory.{held, seen};
ghost use Rattle.volume.specs.Reverts.{held_state};
ghost use Rattle.volume.specs.Rolls.{across};
ghost use Rattle.volume.specs.declared.refusal.Refusal.TheVariants.{Unsound};

use crate::Volume;
use crate::refusal::{Refusal, Wrong};
use crate::sizes::check_sizes;
use crate::tested::Tested;
use journal::record::{Record, cell_of, place_of};
use journal::walk::Chain;
use kind::Kind;

// By hand, since clauses read what it gives.
impl From<Wrong> for Refusal {
    ghost from_gives = { λ w r. r ≡ Unsound w };

    fn from(wrong: Wrong) -> Refusal {
        Refusal::Unsound(wrong)
    }
}

// Whether `r` is as the record `planned`; folds are compared as what they are taken for.
fn is_like<K: Kind>(r: &Record<K::Change>, planned: &Record<K::Change>) -> bool
    ensures { result ≡ as_planned K.Kind.model r.now (Ok planned.now) }
{
    r.next == planned.next
        && r.skip == planned.skip
        && r.length == planned.length
        && r.foot == planned.foot
        && K::same_change(&r.fold, &planned.fold)
}

// The lowest cell whose head is not its newest record.
fn check_heads<K: Kind>(heads: &[u32], newest: &[u32]) -> Result<(), Wrong>
    requires { (length heads.now ≡ length newest.now) × (length heads.now ≤ 4096) }
    ensures { result ≡ each_below (head_right K.Kind.model newest.now heads.now) (length heads.now) }
{
    for (i, (head, last)) in heads.iter().zip(newest).enumerate() {
        if head != last {
            return Err(Wrong::Head(i as u32));
        }
    }
    Ok(())
}

impl<K: Kind> Tested<'_, K> {
    // Whether record `number` is the one that its cell, its change and the records before it make.
    fn is_right_record(&self, number: u32, newest: u32) -> bool
        requires { (0 < number) × (number ≤ length self.now.records.now) }
        ensures { result ≡ as_planned K.Kind.model (numbered K.Kind.model self.now.records.now number) (planned K.Kind.model self.now.records.now number newest (numbered K.Kind.model self.now.records.now number).cell (numbered K.Kind.model self.now.records.now number).change) }
    {
        let records = self.records;
        let r = &records[place_of(number as usize)];
        let chain = Chain::<K> {
            records,
            cell: cell_of(r),
            head: newest,
        };
        chain
            .next_record(number, &r.change)
            .is_ok_and(|planned| is_like::<K>(r, &planned))
    }

    // Whether record `number` is right, `work` having each cell's newest record before it; if so, `work` takes it in. A bool and no
    // Result: the clause on `work` takes it as a value.
    fn take_in(&self, number: u32, work: &mut [u32]) -> bool
        requires { (0 < number) × (number ≤ length self.now.records.now) }
        ensures answer { result ≡ right_record K.Kind.model (length work.old) self.now.records.now work.old number (numbered K.Kind.model self.now.records.now number) }
        ensures after { work.new ≡ (if result then slice_set work.old (numbered K.Kind.model self.now.records.now number).cell number else work.old) }
    {
        let records = self.records;
        let cell = cell_of(&records[place_of(number as usize)]) as usize;
        if cell >= work.len() {
            return false;
        }
        if !self.is_right_record(number, work[cell]) {
            return false;
        }
        work[cell] = number;
        true
    }

    // The lowest wrong record; `work` gets each cell's newest record among those before it. By the record's number: the record is held
    // against all below it.
    fn check_records(&self, work: &mut [u32]) -> Result<(), Wrong>
        requires { self.now.count ≤ length self.now.records.now }
        ensures answer { result ≡ each_below (record_right K.Kind.model (length work.old) self.now.records.now) self.now.count }
        ensures after { work.new ≡ newest_to K.Kind.model (length work.old) self.now.records.now (before_wrong K.Kind.model self.now.count result) }
    {
        work.fill(0);
        let count = self.count;
        for i in 0..count {
            if !self.take_in(i + 1, work) {
                return Err(Wrong::Record(i + 1));
            }
        }
        Ok(())
    }

    // Whether the state of a cell is what all its changes make of the origin.
    fn is_right_cell(&self, i: usize) -> bool
        requires { i < length self.now.cells.now }
        ensures { result ≡ as_changed K.Kind.model (held_state K.Kind.model (seen self.now) i) (across K.Kind.model (seen self.now) 0 self.now.count i) }
    {
        let state = self.state(i);
        self.cell_span(i, 0, self.count).is_ok_and(|found| K::same_state(
            &state,
            &K::act(&found.change, &K::origin()),
        ))
    }

    // The lowest wrong cell. By the cell's number, which is that of its state, its head and its links.
    fn check_cells(&self) -> Result<(), Wrong>
        ensures { result ≡ each_below (cell_right K.Kind.model (seen self.now)) (length self.now.cells.now) }
    {
        let cells = self.cells;
        for i in 0..cells.len() {
            if !self.is_right_cell(i) {
                return Err(Wrong::Cell(i as u32));
            }
        }
        Ok(())
    }

    // Records, then heads, then cells.
    #[tactic(auto, using(crate::proofs::Examined::judged_heads, crate::proofs::Examined::judged_cells, crate::proofs::Examined::noted_all))]
    fn judge(&self, work: &mut [u32]) -> Result<(), Wrong>
        requires row { length work.old ≡ length self.now.cells.now }
        requires within { self.now.count ≤ length self.now.records.now }
        ensures answer { result ≡ judged K.Kind.model (seen self.now) }
        ensures after { work.new ≡ noted K.Kind.model (seen self.now) }
    {
        self.check_records(work)?;
        check_heads::<K>(self.heads, work)?;
        self.check_cells()
    }
}

impl<K: Kind> Volume<'_, '_, '_, '_, K> {
    // Whether cells, heads, count and the records written are what some writes after a format leave. The work row, as long as
    // the heads, then holds each cell's newest record among those before the lowest wrong one. Refusals 1 to 4, 20.
    #[tactic(auto, unfolding(crate::specs::Checks::checked, crate::specs::Checks::work_after))]
    pub fn check(&self, work: &mut [u32]) -> Result<(), Refusal>
        ensures answer { result ≡ checked K.Kind.model (held self.now) work.old }
        ensures after { work.new ≡ work_after K.Kind.model (held self.now) work.old }
    {
        check_sizes(self.cells.len(), work.len(), 0)?;
        self.check_memory()?;
        self.view().judge(work)?;
        Ok(())
    }
}
