// The record that logs one more change of a cell.
ghost use Rattle.std.specs.Prelude.{◌≡◌, ◌<◌, ◌≤◌, length};
ghost use Rattle.journal.specs.Appends.{lone, joined, over, planned};

use crate::faults::LadderFault;
use crate::record::Record;
use crate::walk::{Chain, newest_number};
use kind::Kind;

// The highest length that a record may have.
const LENGTH_LIMIT: u64 = 65535;

// A record that reaches over itself alone.
#[inline(always)]
fn lone_record<C: Copy>(cell: u16, number: u32, next: u32, change: &C) -> Record<C>
    ensures { result ≡ lone cell number next change.now }
{
    Record {
        cell,
        next,
        skip: next,
        length: 1,
        foot: number,
        change: *change,
        fold: *change,
    }
}

impl<'a, K: Kind> Chain<'a, K> {
    // A record that reaches over p, which is record `next`, and over q, which p skips to: parts that come together here alone.
    #[inline(always)]
    fn joined_record(
        &self,
        next: u32,
        p: &Record<K::Change>,
        q: &Record<K::Change>,
        change: &K::Change,
    ) -> Result<Record<K::Change>, LadderFault>
        ensures { result ≡ joined K.Kind.model self.now.cell next p.now q.now change.now }
    {
        let length = 1 + p.length as u64 + q.length as u64;
        if length > LENGTH_LIMIT {
            return Err(LadderFault::Length {
                cell: self.cell,
                record: next,
            });
        }
        Ok(Record {
            cell: self.cell,
            next,
            skip: q.skip,
            length: length as u32,
            foot: q.foot,
            change: *change,
            fold: K::then(&K::then(&q.fold, &p.fold), change),
        })
    }

    // Record `number`, on top of record `next`: joined to p and q where their lengths are equal.
    #[inline(always)]
    fn record_over(
        &self,
        number: u32,
        next: u32,
        change: &K::Change,
    ) -> Result<Record<K::Change>, LadderFault>
        requires { (0 < next) × (next ≤ length self.now.records.now) }
        ensures { result ≡ over K.Kind.model self.now.records.now number next self.now.cell change.now }
    {
        let p = self.record(next);
        let second = self.follow_link(next - 1, next, p.skip)?;
        if second == 0 {
            return Ok(lone_record(self.cell, number, next, change));
        }
        let q = self.record(second);
        if p.length != q.length {
            return Ok(lone_record(self.cell, number, next, change));
        }
        self.joined_record(next, p, q, change)
    }

    // Record `number`, which logs the change of a cell with this head; the records below it are those that are written.
    #[inline(always)]
    pub fn next_record(
        &self,
        number: u32,
        change: &K::Change,
    ) -> Result<Record<K::Change>, LadderFault>
        ensures { result ≡ planned K.Kind.model self.now.records.now number self.now.head self.now.cell change.now }
    {
        let newest = newest_number(self.records, number.saturating_sub(1));
        let next = self.follow_link(newest, 0, self.head)?;
        if next == 0 {
            return Ok(lone_record(self.cell, number, next, change));
        }
        self.record_over(number, next, change)
    }
}
