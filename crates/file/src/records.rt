// The records of a file.
ghost use Rattle.std.specs.Prelude.{◌≡◌, ◌+◌, ◌-◌, ◌*◌, ◌≤◌, length, take, drop, IfOk};
ghost use Rattle.std.specs.Result.{result_map_both};
ghost use Rattle.file.specs.Header.{file_length};
ghost use Rattle.file.specs.Records.{record_start, parts_of, parts_seen, record_at, RecordsThere, Lies};

use crate::faults::FileFault;
use crate::header::HEADER;
use byteorder::{ByteOrder, LittleEndian};
use kind::Kind;

// The bytes of a record before its change.
pub const RECORD: usize = 6;

// No kind has a wider change.
pub const WIDEST: usize = 256;

// A record as it lies in a file; `change` is the file's own stretch.
#[derive(Clone, Copy, Debug, PartialEq, Eq)]
pub struct SavedRecord<'a> {
    pub next: u32,
    pub cell: u16,
    pub change: &'a [u8],
}

// Where record `n` begins, from 1: nothing else says where a record lies.
pub(crate) fn start_of(width: usize, n: u32) -> usize
    requires { width ≤ 256 }
    ensures { result ≡ record_start width n }
{
    HEADER + n.saturating_sub(1) as usize * (RECORD + width)
}

// How many bytes a file of so many records has.
pub fn file_length<K: Kind>(count: u32) -> usize
    ensures { result ≡ file_length K.Kind.model.width count }
{
    HEADER + count as usize * (RECORD + K::width())
}

// The record in the bytes from `start` on.
pub(crate) fn saved_at(file: &[u8], start: usize, width: usize) -> SavedRecord<'_>
    requires { start + (6 + width) ≤ length file.now }
    ensures value { parts_seen result ≡ parts_of (take (6 + width) (drop start file.now)) }
    ensures place { Lies file.entry (6 + start) result.change }
{
    let bytes = &file[start..start + RECORD + width];
    SavedRecord {
        next: LittleEndian::read_u32(bytes),
        cell: LittleEndian::read_u16(&bytes[4..]),
        change: &bytes[RECORD..],
    }
}

// Record `n`, or refusal 10 where the file is too short to have it.
pub fn record_at(file: &[u8], width: usize, n: u32) -> Result<SavedRecord<'_>, FileFault>
    ensures value { result_map_both parts_seen (λ e. e) result ≡ record_at width file.now n }
    ensures place { IfOk result (λ s. Lies file.entry (6 + record_start width n) s.change) }
{
    // Tested here, and not by `get`, which does not tell where in the file its answer lies.
    if width > WIDEST || n == 0 || file.len() < HEADER + n as usize * (RECORD + width) {
        return Err(FileFault::Length);
    }
    Ok(saved_at(file, start_of(width, n), width))
}

// A file that is as long as its count says has each of its records.
pub fn records_there()
    ensures { RecordsThere }
{}
