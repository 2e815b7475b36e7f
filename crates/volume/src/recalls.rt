// Recall: the state of a cell at a moment, from a file alone.
ghost use Rattle.std.specs.Prelude.{◌≡◌, length};
ghost use Rattle.kind.specs.Answers.{told};
ghost use Rattle.volume.specs.Areas.{area_after};
ghost use Rattle.volume.specs.Recalls.{recalled, any_recalled};

use crate::refusal::Refusal;
use file::faults::FileFault;
use file::header::{HEADER, read_header};
use file::letters::BoardKind;
use file::states::state_after;
use kind::Kind;
use kind::bank_map::BankMap;
use kind::block::Block;
use kind::tally::Tally;

// Writes the form of a cell's state at a moment to the front of `out`. Only records up to that moment are looked at; the
// header is read once more with them. Refusals 5 to 11, 13 to 17.
#[tactic(auto, unfolding(crate::specs::Recalls::recalled))]
pub fn recall<K: Kind>(file: &[u8], cell: u32, moment: u32, out: &mut [u8]) -> Result<(), Refusal>
    ensures answer { result ≡ told tt (recalled K.Kind.model file.now cell moment (length out.old)) }
    ensures area { out.new ≡ area_after out.old (recalled K.Kind.model file.now cell moment (length out.old)) }
{
    let header = read_header::<K>(file)?;
    if out.len() < K::width() {
        return Err(Refusal::Area);
    }
    if cell >= header.cells as u32 {
        return Err(Refusal::Cell);
    }
    if moment > header.count {
        return Err(Refusal::Moment);
    }
    let state = state_after::<K>(file, cell, moment)?;
    let _ = K::write_state(&state, out);
    Ok(())
}

// Recall from a file of any kind on board, by the letter that opens it. Refusals 5 to 11, 13 to 17, which leave `out` as it was.
pub fn recall_any(file: &[u8], cell: u32, moment: u32, out: &mut [u8]) -> Result<(), Refusal>
    ensures answer { result ≡ told tt (any_recalled file.now cell moment (length out.old)) }
    ensures area { out.new ≡ area_after out.old (any_recalled file.now cell moment (length out.old)) }
{
    if file.len() < HEADER {
        return Err(Refusal::File(FileFault::Short));
    }
    match BoardKind::try_from(file[0] as char)? {
        BoardKind::Block => recall::<Block>(file, cell, moment, out),
        BoardKind::Tally => recall::<Tally>(file, cell, moment, out),
        BoardKind::BankMap => recall::<BankMap>(file, cell, moment, out),
    }
}
