// A file's header and records, one at a time.
ghost use Rattle.std.specs.Prelude.{◌≡◌};
ghost use Rattle.file.specs.Items.{item, seen, after, Borrowed, answer, Again, InTurn};

use crate::faults::FileFault;
use crate::header::Header;
use crate::records::SavedRecord;
use crate::saved::SavedFile;

// What comes from a file in turn.
#[derive(Clone, Copy, Debug, PartialEq, Eq)]
pub enum Item<'a> {
    Header(Header),
    Record(SavedRecord<'a>),
    End,
}

// A file, and how many of its items have been given.
#[derive(Clone, Debug, Drop)]
pub struct Items<'a> {
    file: &'a [u8],
    given: u32,
}

impl<'a> Items<'a> {
    pub fn new(file: &'a [u8]) -> Items<'a>
        ensures file { result.file ≡ file.entry }
        ensures given { result.given ≡ 0 }
    {
        Items { file, given: 0 }
    }

    // The header, then each record, then the end; or a refusal. An end or a refusal is given again, so this is no iterator, and the file
    // is opened anew each time, since `new` refuses none.
    pub fn next_item(&mut self) -> Result<Item<'a>, FileFault>
        ensures item { seen result ≡ item self.old.file.now self.old.given }
        ensures place { Borrowed self.old.file self.old.given result }
        ensures file { self.new.file ≡ self.old.file }
        ensures given { self.new.given ≡ after (seen result) self.old.given }
    {
        let file = SavedFile::open_any(self.file)?;
        let given = self.given;
        if given == 0 {
            self.given = 1;
            return Ok(Item::Header(file.header));
        }
        if given > file.header.count {
            return Ok(Item::End);
        }
        let found = file.record(given);
        if found.cell >= file.header.cells {
            return Err(FileFault::Cell(given));
        }
        self.given = given + 1;
        Ok(Item::Record(found))
    }
}

// What call number `n` of `next_item` answers, from 0.
pub fn nth_answer(file: &[u8], n: u32) -> Result<Item<'_>, FileFault>
    ensures { seen result ≡ answer file.now n }
{
    let mut items = Items::new(file);
    for _ in 0..n {
        let _ = items.next_item();
    }
    items.next_item()
}

// An end or a refusal is given again, and before it the items come in turn.
pub fn items_stand()
    ensures again { Again }
    ensures in_turn { InTurn }
{}
