// The state of one cell, from a file alone.
ghost use Rattle.std.specs.Prelude.{◌≡◌, min};
ghost use Rattle.std.specs.Result.{result_map_both};
ghost use Rattle.std.specs.Option.{option_map as mapped_some};
ghost use Rattle.file.specs.Records.{parts_seen};
ghost use Rattle.file.specs.States.{change_for, replayed, state_after};
ghost use Rattle.file.specs.Told.{Recalls, Lasts};

use crate::changes::read_change_at;
use crate::faults::FileFault;
use crate::records::SavedRecord;
use crate::saved::SavedFile;
use kind::Kind;

// What record `n` says of the cell: its change, or nothing where it is another cell's. Five parameters that come together here alone.
fn change_for<K: Kind>(
    saved: SavedRecord<'_>,
    cells: u16,
    cell: u32,
    n: u32,
    last: u32,
) -> Result<Option<K::Change>, FileFault>
    ensures { result_map_both (mapped_some K.Kind.model.change) (λ e. e) result ≡ change_for K.Kind.model cells cell n last (parts_seen saved.entry) }
{
    if saved.cell >= cells {
        return Err(FileFault::Cell(n));
    }
    if saved.cell as u32 != cell {
        return Ok(None);
    }
    if saved.next != last {
        return Err(FileFault::Next(n));
    }
    read_change_at::<K>(n, saved.change).map(Some)
}

// The cell's state after the first `moment` records, or after all where there are fewer.
fn replayed<K: Kind>(file: SavedFile<'_>, cell: u32, moment: u32) -> Result<K::State, FileFault>
    requires of_kind { file.width ≡ K.Kind.model.width }
    ensures { result ≡ result_map_both K.Kind.model.plain_state (λ e. e) (replayed K.Kind.model file.entry.bytes.now cell (min moment file.entry.header.count)) }
{
    let cells = file.header.cells;
    let mut state = K::origin();
    let mut last = 0;
    for (n, saved) in file.records_to(moment) {
        if let Some(change) = change_for::<K>(saved, cells, cell, n, last)? {
            state = K::act(&change, &state);
            last = n;
        }
    }
    Ok(state)
}

// The cell's state after the first `moment` records of a file of the kind K, or after all where there are fewer.
// Refusals 5 to 10; then record by record 15, and for the cell's own records 16 and 17.
pub fn state_after<K: Kind>(file: &[u8], cell: u32, moment: u32) -> Result<K::State, FileFault>
    ensures { result ≡ result_map_both K.Kind.model.plain_state (λ e. e) (state_after K.Kind.model file.now cell moment) }
{
    replayed::<K>(SavedFile::open::<K>(file, None)?, cell, moment)
}

// The state is the origin acted on by the cell's changes in order, and a record's next is held to the greatest lower
// number of its cell.
pub fn states_stand<K: Kind>()
    ensures recalls { Recalls K.Kind.model }
    ensures lasts { Lasts K.Kind.model }
{}
