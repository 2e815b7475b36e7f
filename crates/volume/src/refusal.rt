// Why a call is refused.
ghost use Rattle.std.specs.Prelude.{◌≡◌};
ghost use Rattle.volume.specs.Numbers.{refusal_number};
ghost use Rattle.volume.specs.declared.refusal.Refusal.TheVariants.{File, Ladder};

use file::faults::FileFault;
use journal::faults::LadderFault;
use std::fmt;
use thiserror::Error;

// What a check found first: the lowest wrong record, else the lowest cell with a wrong head, else the lowest wrong cell.
#[derive(Clone, Copy, Debug, PartialEq, Eq, Error)]
pub enum Wrong {
    #[error("record {0}")]
    Record(u32),
    #[error("head of cell {0}")]
    Head(u32),
    #[error("cell {0}")]
    Cell(u32),
}

// A refused call changes nothing, but that a check refused by 20 leaves its work row, and a load refused by 15 to 17 a formatted volume. Each has a number, by which documents, scripts and C know it.
#[derive(Clone, Copy, Debug, PartialEq, Eq, Error)]
pub enum Refusal {
    // 1: there is no cell, or more than 4,096
    #[error("refused {} ({})", self.number(), "no cell, or more than 4096")]
    Cells,
    // 2: the heads, or the work row, are not as many as the cells
    #[error("refused {} ({})", self.number(), "heads or work row not as many as cells")]
    Heads,
    // 3: the log has space for more than 65,535 records
    #[error("refused {} ({})", self.number(), "log above 65535 records")]
    Capacity,
    // 4: the count is above the log's capacity
    #[error("refused {} ({})", self.number(), "count above the log")]
    Count,
    // 5 to 10, 15 to 17: what is wrong with a file
    #[error(transparent)]
    File(FileFault),
    // 11: the area to be written is shorter than what goes into it
    #[error("refused {} ({})", self.number(), "area too short")]
    Area,
    // 12: the image is not as many states as there are cells
    #[error("refused {} ({})", self.number(), "image not as many as cells")]
    Image,
    // 13: there is no such cell
    #[error("refused {} ({})", self.number(), "no such cell")]
    Cell,
    // 14: a moment is above the count
    #[error("refused {} ({})", self.number(), "moment above the count")]
    Moment,
    // 18: a link that was followed is not good, a length would pass 65,535, or a record's cell number is too high
    #[error(fmt = write_ladder)]
    Ladder(LadderFault),
    // 19: the log has no space for the records that are needed
    #[error("refused {} ({})", self.number(), "log full")]
    Full,
    // 20: a check found what no writes leave
    #[error(fmt = write_unsound)]
    Unsound(Wrong),
}

// The messages of 18 and 20, by cases: what a fault is called stands in one piece with the colon, and its meaning is a piece of its own.
fn write_ladder<W: fmt::Write>(fault: &LadderFault, f: &mut fmt::Formatter<W>) -> fmt::Result {
    let n = Refusal::Ladder(*fault).number();
    match fault {
        LadderFault::Link { cell, record } => {
            write!(
                f,
                "refused {n}: cell {cell}, record {record} ({})",
                "bad link"
            )
        }
        LadderFault::Length { cell, record } => {
            write!(
                f,
                "refused {n}: cell {cell}, length at record {record} ({})",
                "length above 65535"
            )
        }
        LadderFault::Cell { record } => {
            write!(
                f,
                "refused {n}: cell number at record {record} ({})",
                "cell number too high"
            )
        }
    }
}

fn write_unsound<W: fmt::Write>(wrong: &Wrong, f: &mut fmt::Formatter<W>) -> fmt::Result {
    let n = Refusal::Unsound(*wrong).number();
    let why = "not what writes leave";
    match wrong {
        Wrong::Record(record) => write!(f, "refused {n}: record {record} ({why})"),
        Wrong::Head(cell) => write!(f, "refused {n}: head of cell {cell} ({why})"),
        Wrong::Cell(cell) => write!(f, "refused {n}: cell {cell} ({why})"),
    }
}

// By hand, as the next one, since clauses name what it gives, and a derived one says nothing.
impl From<LadderFault> for Refusal {
    ghost from_gives = { λ f r. r ≡ Ladder f };

    fn from(fault: LadderFault) -> Refusal {
        Refusal::Ladder(fault)
    }
}

impl From<FileFault> for Refusal {
    ghost from_gives = { λ f r. r ≡ File f };

    fn from(fault: FileFault) -> Refusal {
        Refusal::File(fault)
    }
}

impl Refusal {
    pub fn number(self) -> u8
        ensures { result ≡ refusal_number self }
    {
        match self {
            Refusal::Cells => 1,
            Refusal::Heads => 2,
            Refusal::Capacity => 3,
            Refusal::Count => 4,
            Refusal::File(fault) => fault.number(),
            Refusal::Area => 11,
            Refusal::Image => 12,
            Refusal::Cell => 13,
            Refusal::Moment => 14,
            Refusal::Ladder(_) => 18,
            Refusal::Full => 19,
            Refusal::Unsound(_) => 20,
        }
    }
}
