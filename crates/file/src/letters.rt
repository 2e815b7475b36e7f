// The kinds on board, by the letter that opens a file.
ghost use Rattle.std.specs.Prelude.{◌≡◌, ok_or};
ghost use Rattle.file.specs.declared.faults.FileFault.TheVariants.{Letter};
ghost use Rattle.file.specs.Letters.{kind_of, width_of, LettersKnown};

use crate::faults::FileFault;
use kind::Kind;
use kind::bank_map::BankMap;
use kind::block::Block;
use kind::tally::Tally;

#[derive(Clone, Copy, Debug, PartialEq, Eq)]
pub enum BoardKind {
    Block,
    Tally,
    BankMap,
}

// The kind whose files begin with this letter, or refusal 6. Beside it, a kind's own reader compares with that kind's letter.
impl TryFrom<char> for BoardKind {
    type Error = FileFault;

    ghost try_from_gives = { λ letter r. r ≡ ok_or (kind_of letter) Letter };

    fn try_from(letter: char) -> Result<BoardKind, FileFault> {
        match letter {
            'B' => Ok(BoardKind::Block),
            'T' => Ok(BoardKind::Tally),
            'M' => Ok(BoardKind::BankMap),
            _ => Err(FileFault::Letter),
        }
    }
}

impl BoardKind {
    // How many bytes a change of this kind has. By cases, here and where else kinds are told apart: a kind is a type, and which one a
    // file has is known only when it is read.
    pub fn width(self) -> usize
        ensures { result ≡ width_of self }
    {
        match self {
            BoardKind::Block => Block::width(),
            BoardKind::Tally => Tally::width(),
            BoardKind::BankMap => BankMap::width(),
        }
    }
}

// A letter is known just where it is that of a kind on board.
pub fn letters_stand()
    ensures { LettersKnown }
{}
