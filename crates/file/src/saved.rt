// A file whose header was accepted.
ghost use Rattle.std.specs.Prelude.{◌≡◌, ◌+◌, ◌-◌, ◌*◌, ◌≤◌, length, min, IfOk};
ghost use Rattle.std.specs.Iterator.{YieldsFirstBy, item_count};
ghost use Rattle.std.specs.Result.{result_map_both};
ghost use Rattle.file.specs.Header.{after_letter, header_of, any_header, width_at, Fits};
ghost use Rattle.file.specs.Records.{record_start, record_bytes, parts_of, parts_seen, numbered, Lies};

use crate::faults::FileFault;
use crate::header::{HEADER, Handed, Header, MOST_CELLS, MOST_RECORDS, VERSION};
use crate::letters::BoardKind;
use crate::records::{RECORD, SavedRecord, saved_at, start_of};
use byteorder::{ByteOrder, LittleEndian};
use kind::Kind;

// A file whose header was accepted: it is as long as its count says. A change of its kind has `width` bytes.
#[derive(Clone, Copy, Debug, PartialEq, Eq)]
pub struct SavedFile<'a> {
    bytes: &'a [u8],
    width: usize,
    pub header: Header,
    ghost fits: { Fits header width bytes.now },
}

impl<'a> SavedFile<'a> {
    // Refusals 7 to 10, or the file.
    fn after_letter(
        bytes: &'a [u8],
        width: usize,
        handed: Option<Handed>,
    ) -> Result<SavedFile<'a>, FileFault>
        requires { (8 ≤ length bytes.now) × (width ≤ 256) }
        ensures value { result_map_both (λ s. s.header) (λ e. e) result ≡ after_letter width handed bytes.now }
        ensures bytes { IfOk result (λ s. s.bytes ≡ bytes.entry) }
        ensures width { IfOk result (λ s. s.width ≡ width) }
    {
        if bytes[1] != VERSION {
            return Err(FileFault::Version);
        }
        let cells = LittleEndian::read_u16(&bytes[2..]);
        if cells == 0 || cells > MOST_CELLS || handed.is_some_and(|h| h.cells != cells as usize) {
            return Err(FileFault::Cells);
        }
        let count = LittleEndian::read_u32(&bytes[4..]);
        if count > MOST_RECORDS || handed.is_some_and(|h| h.room < count as usize) {
            return Err(FileFault::Count);
        }
        if bytes.len() != HEADER + count as usize * (RECORD + width) {
            return Err(FileFault::Length);
        }
        let letter = bytes[0] as char;
        Ok(SavedFile {
            bytes,
            width,
            header: Header {
                letter,
                cells,
                count,
            },
        })
    }

    // Refusals 5 to 10, or the file, of the kind K. A load says what it is handed: then other cells are refused too (8), and too
    // little room (9).
    pub fn open<K: Kind>(
        bytes: &'a [u8],
        handed: Option<Handed>,
    ) -> Result<SavedFile<'a>, FileFault>
        ensures value { result_map_both (λ s. s.header) (λ e. e) result ≡ header_of K.Kind.model handed bytes.now }
        ensures bytes { IfOk result (λ s. s.bytes ≡ bytes.entry) }
        ensures width { IfOk result (λ s. s.width ≡ K.Kind.model.width) }
    {
        if bytes.len() < HEADER {
            return Err(FileFault::Short);
        }
        if bytes[0] as char != K::LETTER {
            return Err(FileFault::Letter);
        }
        SavedFile::after_letter(bytes, K::width(), handed)
    }

    // Refusals 5 to 10, or the file, of any kind on board.
    pub fn open_any(bytes: &'a [u8]) -> Result<SavedFile<'a>, FileFault>
        ensures value { result_map_both (λ s. s.header) (λ e. e) result ≡ any_header bytes.now }
        ensures bytes { IfOk result (λ s. s.bytes ≡ bytes.entry) }
        ensures width { IfOk result (λ s. s.width ≡ width_at bytes.now) }
    {
        if bytes.len() < HEADER {
            return Err(FileFault::Short);
        }
        let kind = BoardKind::try_from(bytes[0] as char)?;
        SavedFile::after_letter(bytes, kind.width(), None)
    }

    // Record `n`.
    pub(crate) fn record(&self, n: u32) -> SavedRecord<'a>
        requires counted { 1 ≤ n }
        requires there { n ≤ self.now.header.count }
        ensures value { parts_seen result ≡ parts_of (record_bytes self.now.width self.now.bytes.now n) }
        ensures place { Lies self.now.bytes (6 + record_start self.now.width n) result.change }
    {
        saved_at(self.bytes, start_of(self.width, n), self.width)
    }

    // The records in order, each with its number, from 1.
    pub fn records(&self) -> Records<'a>
        ensures file { result.file ≡ self.now }
        ensures given { result.given ≡ 0 }
        ensures last { result.last ≡ self.now.header.count }
    {
        self.records_to(self.header.count)
    }

    // The first `n` records in order, or all where there are fewer. Not `records().take(n)`, which counts each record twice.
    pub fn records_to(&self, n: u32) -> Records<'a>
        ensures file { result.file ≡ self.now }
        ensures given { result.given ≡ 0 }
        ensures last { result.last ≡ min n self.now.header.count }
    {
        Records {
            file: *self,
            given: 0,
            last: n.min(self.header.count),
        }
    }
}

// The records of a file that have not been given, up to record `last`.
#[derive(Clone, Copy, Debug)]
pub struct Records<'a> {
    file: SavedFile<'a>,
    given: u32,
    last: u32,
    ghost within: { given ≤ last },
    ghost there: { last ≤ file.header.count },
}

impl<'a> Iterator for Records<'a> {
    type Item = (u32, SavedRecord<'a>);

    ghost next_gives = { YieldsFirstBy (λ r. (r.0, parts_seen r.1)) (λ s. numbered s.file.width s.file.bytes.now s.given (s.last - s.given)) };

    ghost remaining = { item_count (λ s. numbered s.file.width s.file.bytes.now s.given (s.last - s.given)) };

    #[tactic(auto, using(crate::proofs::Numbered::numbered_more))]
    fn next(&mut self) -> Option<(u32, SavedRecord<'a>)> {
        if self.given == self.last {
            return None;
        }
        let number = self.given + 1;
        self.given = number;
        Some((number, self.file.record(number)))
    }
}
