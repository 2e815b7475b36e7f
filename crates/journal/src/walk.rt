// Walks along the links of a cell, and the change between two moments.
ghost use Rattle.std.specs.Prelude.{◌≡◌, ◌+◌, ◌-◌, ◌^◌, ◌<◌, ◌≤◌, length, IfOk};
ghost use Rattle.journal.specs.Links.{newest, good, numbered, follow};
ghost use Rattle.journal.specs.Spans.{way, taking, started, step, reach, ascent, spanned, stop_of};

use crate::faults::LadderFault;
use crate::record::{Record, cell_of, place_of};
use kind::Kind;

// How far a walk has come: the record that it stands at, what it took, and in how many steps.
#[derive(Clone, Copy, Debug, PartialEq, Eq)]
pub struct Walked<C> {
    pub place: u32,
    pub taken: C,
    pub steps: u32,
}

// Where a walk stops, and in how many steps it came there.
#[derive(Clone, Copy, Debug, PartialEq, Eq)]
struct Stop {
    place: u32,
    steps: u32,
}

// What is composed from a cell's records between two moments, and in how many steps it was found.
#[derive(Clone, Copy, Debug, PartialEq, Eq)]
pub struct Stretch<C> {
    pub change: C,
    pub steps: u32,
}

// The highest number that a record can have where `count` are said to be written.
pub(crate) fn newest_number<C>(records: &[Record<C>], count: u32) -> u32
    ensures { result ≡ newest records.now count }
{
    (count as usize).min(records.len()) as u32
}

// The link that a walk to `end` follows from a record.
fn link_toward<C>(r: &Record<C>, end: u32) -> u32
    ensures { result ≡ way end r.now }
{
    if r.foot > end { r.skip } else { r.next }
}

// What a walk to `end` takes at a record.
fn taken_at<C>(r: &Record<C>, end: u32) -> &C
    ensures { result.now ≡ taking end r.now }
{
    if r.foot > end { &r.fold } else { &r.change }
}

// The records of a volume, as they are linked for one cell; `head` is its newest record, or zero. Any numbers may stand here: what
// is found wrong along the links is answered as a fault.
#[derive_where(Clone, Copy)]
pub struct Chain<'a, K: Kind> {
    pub records: &'a [Record<K::Change>],
    pub cell: u16,
    pub head: u32,
}

impl<'a, K: Kind> Chain<'a, K> {
    // Record `number`, from 1.
    pub(crate) fn record(&self, number: u32) -> &'a Record<K::Change>
        requires from_one { 0 < number }
        requires there { number ≤ length self.now.records.now }
        ensures { result.now ≡ numbered K.Kind.model self.now.records.now number }
    {
        &self.records[place_of(number as usize)]
    }

    // Whether a link is zero or names a record of the cell, not above the limit.
    fn is_good(&self, limit: u32, link: u32) -> bool
        requires { limit ≤ length self.now.records.now }
        ensures { result ≡ good K.Kind.model self.now.records.now self.now.cell limit link }
    {
        link == 0 || (link <= limit && cell_of(self.record(link)) == self.cell)
    }

    // The record that a link leads to; `holder` is the record that holds it, zero for a head. The only following of a link.
    pub(crate) fn follow_link(&self, limit: u32, holder: u32, link: u32) -> Result<u32, LadderFault>
        requires { limit ≤ length self.now.records.now }
        ensures answer { result ≡ follow K.Kind.model self.now.records.now self.now.cell limit holder link }
        ensures low { IfOk result (λ n. n ≤ limit) }
    {
        if !self.is_good(limit, link) {
            return Err(LadderFault::Link {
                cell: self.cell,
                record: holder,
            });
        }
        Ok(link)
    }

    // The record that a walk to `end` goes on to from record `place`.
    fn next_place(&self, end: u32, place: u32) -> Result<u32, LadderFault>
        requires { (0 < place) × (place ≤ length self.now.records.now) }
        ensures answer { result ≡ follow K.Kind.model self.now.records.now self.now.cell (place - 1) place (way end (numbered K.Kind.model self.now.records.now place)) }
        ensures low { IfOk result (λ n. n < place) }
    {
        let link = link_toward(self.record(place), end);
        self.follow_link(place - 1, place, link)
    }

    // One step of a walk to `end`, from the record that it stands at.
    fn step_down(
        &self,
        end: u32,
        from: &Walked<K::Change>,
    ) -> Result<Walked<K::Change>, LadderFault>
        requires { (0 < from.now.place) × ((from.now.place ≤ length self.now.records.now) × (from.now.steps < 2 ^ 32 - 1)) }
        ensures answer { result ≡ step K.Kind.model self.now.records.now self.now.cell end from.now }
        ensures low { IfOk result (λ w. (w.place < from.now.place) × (w.steps ≡ from.now.steps + 1)) }
    {
        let place = self.next_place(end, from.place)?;
        let here = self.record(from.place);
        Ok(Walked {
            place,
            taken: K::then(taken_at(here, end), &from.taken),
            steps: from.steps + 1,
        })
    }

    // From record `start` down to zero or a record not above `end`. By `while`, as `descend`: where the next record lies only the record
    // itself says.
    #[tactic(auto, using(crate::proofs::Walks::reach_done, crate::proofs::Walks::reach_fault, crate::proofs::Walks::reach_step))]
    fn walk(&self, start: u32, end: u32) -> Result<Walked<K::Change>, LadderFault>
        requires { start ≤ length self.now.records.now }
        ensures answer { result ≡ reach K.Kind.model self.now.records.now self.now.cell end (started K.Kind.model start) }
        ensures low { IfOk result (λ w. w.steps + w.place ≤ start) }
    {
        let mut at = Walked {
            place: start,
            taken: K::unit(),
            steps: 0,
        };
        while at.place > end {
            at = self.step_down(end, &at)?;
        }
        Ok(at)
    }

    // Where a walk from record `start` down to `end` stops. Beside `walk`, since what a span's first walk takes is not used, and composing
    // it is most of a walk's work.
    #[tactic(auto, using(crate::proofs::Walks::reach_done, crate::proofs::Walks::stops_on, crate::proofs::Walks::stops_fault))]
    fn descend(&self, start: u32, end: u32) -> Result<Stop, LadderFault>
        requires { start ≤ length self.now.records.now }
        ensures answer { result ≡ stop_of (reach K.Kind.model self.now.records.now self.now.cell end (started K.Kind.model start)) }
        ensures low { IfOk result (λ s. s.steps + s.place ≤ start) }
    {
        let mut place = start;
        let mut steps = 0;
        while place > end {
            place = self.next_place(end, place)?;
            steps += 1;
        }
        Ok(Stop { place, steps })
    }

    // The changes after moment `low` up to moment `high`: from the head to `high`, then on to `low`.
    #[inline(always)]
    fn climb(&self, count: u32, low: u32, high: u32) -> Result<Stretch<K::Change>, LadderFault>
        ensures { result ≡ ascent K.Kind.model self.now.records.now count self.now.head self.now.cell low high }
    {
        let newest = newest_number(self.records, count);
        let start = self.follow_link(newest, 0, self.head)?;
        let top = self.descend(start, high)?;
        let rest = self.walk(top.place, low)?;
        Ok(Stretch {
            change: rest.taken,
            steps: top.steps + rest.steps,
        })
    }

    // The change of a cell from moment `a` to moment `b`, and the steps that were taken; backwards it is the inverse.
    #[inline(always)]
    pub fn span(&self, count: u32, a: u32, b: u32) -> Result<Stretch<K::Change>, LadderFault>
        ensures { result ≡ spanned K.Kind.model self.now.records.now count self.now.head self.now.cell a b }
    {
        if a <= b {
            return self.climb(count, a, b);
        }
        let back = self.climb(count, b, a)?;
        Ok(Stretch {
            change: K::inverse(&back.change),
            steps: back.steps,
        })
    }
}
