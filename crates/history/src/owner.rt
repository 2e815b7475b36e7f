// What an owner of memory knows of it after each of the ten calls on a volume that it was lent to.
ghost use Rattle.std.specs.Prelude.{◌≡◌, [], ◌∷◌, length};
ghost use Rattle.kind.specs.Answers.{kept};
ghost use Rattle.kind.specs.Tallies.{tally};
ghost use Rattle.volume.specs.Areas.{area_after};
ghost use Rattle.volume.specs.Calls.{state_read, change_between, change_of};
ghost use Rattle.volume.specs.Checks.{work_after};
ghost use Rattle.volume.specs.Memory.{memory};
ghost use Rattle.volume.specs.Replays.{replayed};
ghost use Rattle.volume.specs.Saves.{saved};
ghost use Rattle.history.specs.Calls.{run_all, format, write, read, span, roll, replay, revert, check, save, load};
ghost use Rattle.history.specs.Owner.{after_write, after_revert, after_roll};

use journal::record::Record;
use kind::Kind;
use kind::tally::Tally;
use volume::Volume;

// Makes each of the ten calls once, in the order in which the first clause names them, refused or not: the state is written from its place and
// read back to it, the image is rolled and then replayed, and what was saved to the area is loaded from it. The owner's parts are then what
// the calls, by their definitions, make of them. The parts come one by one, as they are lent.
pub fn make_all_calls<K: Kind>(
    cells: &mut [K::State],
    heads: &mut [u32],
    records: &mut [Record<K::Change>],
    count: &mut u32,
    image: &mut [K::State],
    work: &mut [u32],
    area: &mut [u8],
    state: &mut K::State,
    change: &mut K::Change,
    cell: u32,
    a: u32,
    b: u32,
)
    ensures lent { memory cells.new heads.new records.new count.new ≡ run_all K.Kind.model (memory cells.old heads.old records.old count.old) (format ∷ write cell state.old ∷ read cell ∷ span cell a b ∷ roll image.old a b ∷ replay (after_roll K.Kind.model (memory cells.old heads.old records.old count.old) cell state.old image.old a b) b ∷ revert a ∷ check work.old ∷ save (length area.old) ∷ load area.new ∷ []) }
    ensures state { state.new ≡ kept state.old (state_read K.Kind.model (after_write K.Kind.model (memory cells.old heads.old records.old count.old) cell state.old) cell) }
    ensures change { change.new ≡ change_of change.old (change_between K.Kind.model (after_write K.Kind.model (memory cells.old heads.old records.old count.old) cell state.old) cell a b) }
    ensures image { image.new ≡ kept (after_roll K.Kind.model (memory cells.old heads.old records.old count.old) cell state.old image.old a b) (replayed K.Kind.model (after_write K.Kind.model (memory cells.old heads.old records.old count.old) cell state.old) (after_roll K.Kind.model (memory cells.old heads.old records.old count.old) cell state.old image.old a b) b) }
    ensures work { work.new ≡ work_after K.Kind.model (after_revert K.Kind.model (memory cells.old heads.old records.old count.old) cell state.old a) work.old }
    ensures area { area.new ≡ area_after area.old (saved K.Kind.model (after_revert K.Kind.model (memory cells.old heads.old records.old count.old) cell state.old a) (length area.old)) }
{
    let mut volume = Volume::<K>::over(cells, heads, records, count);
    let _formatted = volume.format();
    let _count = volume.write(cell, state);
    let _read = volume.read(cell, state);
    let _steps = volume.span(cell, a, b, change);
    let _rolled = volume.roll(image, a, b);
    let _replayed = volume.replay(image, b);
    let _reverted = volume.revert(a);
    let _right = volume.check(work);
    let _length = volume.save(area);
    let _loaded = volume.load(area);
}

// The same on tallies, in full: their cells and heads are both numbers, so that lent parts which a volume tied together would show here,
// and not where the type of the cells is open.
pub fn make_all_tally_calls(
    cells: &mut [i32],
    heads: &mut [u32],
    records: &mut [Record<i32>],
    count: &mut u32,
    image: &mut [i32],
    work: &mut [u32],
    area: &mut [u8],
    state: &mut i32,
    change: &mut i32,
    cell: u32,
    a: u32,
    b: u32,
)
    ensures lent { memory cells.new heads.new records.new count.new ≡ run_all tally (memory cells.old heads.old records.old count.old) (format ∷ write cell state.old ∷ read cell ∷ span cell a b ∷ roll image.old a b ∷ replay (after_roll tally (memory cells.old heads.old records.old count.old) cell state.old image.old a b) b ∷ revert a ∷ check work.old ∷ save (length area.old) ∷ load area.new ∷ []) }
    ensures state { state.new ≡ kept state.old (state_read tally (after_write tally (memory cells.old heads.old records.old count.old) cell state.old) cell) }
    ensures change { change.new ≡ change_of change.old (change_between tally (after_write tally (memory cells.old heads.old records.old count.old) cell state.old) cell a b) }
    ensures image { image.new ≡ kept (after_roll tally (memory cells.old heads.old records.old count.old) cell state.old image.old a b) (replayed tally (after_write tally (memory cells.old heads.old records.old count.old) cell state.old) (after_roll tally (memory cells.old heads.old records.old count.old) cell state.old image.old a b) b) }
    ensures work { work.new ≡ work_after tally (after_revert tally (memory cells.old heads.old records.old count.old) cell state.old a) work.old }
    ensures area { area.new ≡ area_after area.old (saved tally (after_revert tally (memory cells.old heads.old records.old count.old) cell state.old a) (length area.old)) }
{
    let mut tallies = Volume::<Tally>::over(cells, heads, records, count);
    let _formatted = tallies.format();
    let _count = tallies.write(cell, state);
    let _read = tallies.read(cell, state);
    let _steps = tallies.span(cell, a, b, change);
    let _rolled = tallies.roll(image, a, b);
    let _replayed = tallies.replay(image, b);
    let _reverted = tallies.revert(a);
    let _right = tallies.check(work);
    let _length = tallies.save(area);
    let _loaded = tallies.load(area);
}
