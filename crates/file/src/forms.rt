// Writes a file's header and its records. A write answers a bool, since its clauses choose by that value.
ghost use Rattle.std.specs.Prelude.{◌≡◌, ◌+◌, ◌≤◌, ◌&&◌, ◌++◌, length, take, drop, if◌then◌else◌, nat_le, nat_lt};
ghost use Rattle.file.specs.Back.{AnyHeaderBack, HeaderBack, RecordBack, ChangeBack, Placed, Long, WrittenInTurn};
ghost use Rattle.file.specs.Forms.{le16_form, le32_form, header_form, record_form, laid_at, record_laid};
ghost use Rattle.file.specs.Records.{record_start};

use crate::header::VERSION;
use crate::records::{RECORD, start_of};
use kind::Kind;
use kind::forms::put;

// The eight bytes of a header, from its parts: `byteorder` would want an area to write them into.
fn header_bytes(letter: u8, cells: u16, count: u32) -> [u8; 8]
    ensures { result ≡ header_form letter cells count }
{
    let [c0, c1] = cells.to_le_bytes();
    let [n0, n1, n2, n3] = count.to_le_bytes();
    [letter, VERSION, c0, c1, n0, n1, n2, n3]
}

// Writes a header to the front of `out`. False, and nothing written, where `out` is shorter than that or the letter is no
// byte.
pub fn write_header(letter: char, cells: u16, count: u32, out: &mut [u8]) -> bool
    ensures done { result ≡ nat_lt letter 256 && nat_le 8 (length out.old) }
    ensures area { out.new ≡ (if result then header_form letter cells count ++ drop 8 out.old else out.old) }
{
    let Ok(code) = u8::try_from(letter) else {
        return false;
    };
    put(&header_bytes(code, cells, count), out)
}

// The six bytes of a record before its change.
fn record_head(next: u32, cell: u16) -> [u8; 6]
    ensures { result ≡ le32_form next ++ le16_form cell }
{
    let [n0, n1, n2, n3] = next.to_le_bytes();
    let [c0, c1] = cell.to_le_bytes();
    [n0, n1, n2, n3, c0, c1]
}

// Writes a record of these parts to the front of `out`. False, and nothing written, where `out` is shorter than that. The parts come
// one by one, here and below, since no caller has them as one value.
pub fn write_record<K: Kind>(next: u32, cell: u16, change: &K::Change, out: &mut [u8]) -> bool
    ensures done { result ≡ nat_le (6 + K.Kind.model.width) (length out.old) }
    ensures area { out.new ≡ (if result then record_form K.Kind.model (record { next = next; cell = cell; change = K.Kind.model.change change.now }) ++ drop (6 + K.Kind.model.width) out.old else out.old) }
{
    if out.len() < RECORD + K::width() {
        return false;
    }
    let _ = put(&record_head(next, cell), out);
    let _ = K::write_change(change, &mut out[RECORD..]);
    true
}

// Writes record `n` of a file to its place in `out`. False, and nothing written, where `out` ends before it does.
pub fn write_record_at<K: Kind>(
    n: u32,
    next: u32,
    cell: u16,
    change: &K::Change,
    out: &mut [u8],
) -> bool
    ensures done { result ≡ nat_le (record_start K.Kind.model.width n + (6 + K.Kind.model.width)) (length out.old) }
    ensures area { out.new ≡ (if result then record_laid K.Kind.model n (record { next = next; cell = cell; change = K.Kind.model.change change.now }) out.old else out.old) }
{
    let start = start_of(K::width(), n);
    if start > out.len() {
        return false;
    }
    write_record::<K>(next, cell, change, &mut out[start..])
}

// Header and records, written in turn, make a file, and reading gives back what was written.
pub fn files_read_back<K: Kind>()
    ensures any_header { AnyHeaderBack }
    ensures header { HeaderBack K.Kind.model }
    ensures parts { RecordBack K.Kind.model }
    ensures change { ChangeBack K.Kind.model }
    ensures placed { Placed K.Kind.model }
    ensures long { Long K.Kind.model }
    ensures in_turn { WrittenInTurn K.Kind.model }
{}
