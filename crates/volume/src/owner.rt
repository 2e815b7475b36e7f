// What an owner of memory knows of it after calls on a volume that it was lent to.
ghost use Rattle.std.specs.Prelude.{◌≡◌};
ghost use Rattle.kind.specs.Tallies.{tally};
ghost use Rattle.volume.specs.Memory.{memory};
ghost use Rattle.volume.specs.Owner.{after_two};

use crate::Volume;
use journal::record::Record;
use kind::tally::Tally;

// Writes `first` and then `second` to a cell of tallies, refused or not. The owner's four parts then hold what the two writes, by
// their definition, make of them. Of tallies, since cells and heads are both numbers there, and could be taken
// for one another. The parts come one by one, as they are lent.
pub fn write_two(
    cells: &mut [i32],
    heads: &mut [u32],
    records: &mut [Record<i32>],
    count: &mut u32,
    cell: u32,
    first: &i32,
    second: &i32,
)
    ensures { memory cells.new heads.new records.new count.new ≡ after_two tally (memory cells.old heads.old records.old count.old) cell first.now second.now }
{
    let mut volume = Volume::<Tally>::over(cells, heads, records, count);
    let _answer = volume.write(cell, first);
    let _last = volume.write(cell, second);
}
