// What the calls do to one part of the memory each.
ghost use Rattle.std.specs.Prelude.{◌≡◌, ◌+◌, ◌≤◌, length, replicate};
ghost use Rattle.kind.specs.Answers.{told, kept};
ghost use Rattle.volume.specs.Calls.{logged};

use crate::refusal::Refusal;
use journal::log::Log;
use journal::record::Record;
use kind::Kind;

// Sets each element. Not by `fill`, which asks that cloning an element never fails, which no law of a kind says.
#[tactic(auto, using(crate::proofs::Fills::filling_more, crate::proofs::Fills::filling_all))]
pub(crate) fn fill_with<T: Copy>(slice: &mut [T], value: T)
    ensures { slice.new ≡ replicate (length slice.old) value }
{
    for x in slice.iter_mut() {
        *x = value;
    }
}

// Logs a change as the record after `count` of them. Over the records alone: a method that makes a log over a field knows nothing of
// that field afterwards.
#[inline(always)]
#[tactic(auto, unfolding(crate::specs::Calls::logged))]
pub(crate) fn log_change<K: Kind>(
    records: &mut [Record<K::Change>],
    count: u32,
    head: u32,
    cell: u16,
    change: &K::Change,
) -> Result<(), Refusal>
    requires { count ≤ 65535 }
    ensures answer { result ≡ told tt (logged K.Kind.model records.old count (count + 1) head cell change.now) }
    ensures after { records.new ≡ kept records.old (logged K.Kind.model records.old count (count + 1) head cell change.now) }
{
    let mut log = Log::new(records);
    let record = log.next_record::<K>(count + 1, head, cell, change)?;
    if !log.append(count, record) {
        return Err(Refusal::Full);
    }
    Ok(())
}
