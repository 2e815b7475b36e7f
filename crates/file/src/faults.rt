// Why a file is refused.
ghost use Rattle.std.specs.Prelude.{◌≡◌};
ghost use Rattle.file.specs.Faults.{fault_number, change_at};

use kind::KindFault;
use thiserror::Error;

// A record goes by its number, from 1. The meaning of each is a piece of its message: the pieces in which a line is printed decide how
// much of it the output's buffer takes, and they stay what they were.
#[derive(Clone, Copy, Debug, PartialEq, Eq, Error)]
pub enum FileFault {
    #[error("refused {} ({})", self.number(), "shorter than a header")]
    Short,
    #[error("refused {} ({})", self.number(), "not the letter")]
    Letter,
    #[error("refused {} ({})", self.number(), "not version 1")]
    Version,
    #[error("refused {} ({})", self.number(), "not the number of cells")]
    Cells,
    #[error("refused {} ({})", self.number(), "count too high")]
    Count,
    #[error("refused {} ({})", self.number(), "not the length")]
    Length,
    #[error("refused {}: record {} ({})", self.number(), .0, "cell number too high")]
    Cell(u32),
    #[error("refused {}: record {} ({})", self.number(), .0, "not the record before")]
    Next(u32),
    #[error("refused {}: record {n} ({fault})", self.number(), n = .0, fault = .1)]
    Change(u32, KindFault),
}

// A kind's fault, at a record.
#[derive(Clone, Copy, Debug, PartialEq, Eq, Error)]
#[error("record {number} ({fault})")]
pub struct AtRecord {
    pub number: u32,
    pub fault: KindFault,
}

// By hand, since clauses name what it gives, and a derived one says nothing.
impl From<AtRecord> for FileFault {
    ghost from_gives = { λ a r. r ≡ change_at a };

    fn from(a: AtRecord) -> FileFault {
        FileFault::Change(a.number, a.fault)
    }
}

impl FileFault {
    // The number by which documents, scripts and C know the refusal.
    pub fn number(self) -> u8
        ensures { result ≡ fault_number self }
    {
        match self {
            FileFault::Short => 5,
            FileFault::Letter => 6,
            FileFault::Version => 7,
            FileFault::Cells => 8,
            FileFault::Count => 9,
            FileFault::Length => 10,
            FileFault::Cell(_) => 15,
            FileFault::Next(_) => 16,
            FileFault::Change(_, KindFault::NotAChange) => 17,
        }
    }
}
