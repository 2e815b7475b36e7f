// The header of a file.
ghost use Rattle.std.specs.Prelude.{◌≡◌, ◌+◌, ◌*◌, ◌≤◌, length, IfOk, Some, None};
ghost use Rattle.file.specs.Header.{header_of, any_header, width_at, HeadersAgree, Fits};

use crate::faults::FileFault;
use crate::saved::SavedFile;
use kind::Kind;

pub const HEADER: usize = 8;

pub const VERSION: u8 = 1;

pub const MOST_CELLS: u16 = 4096;

pub const MOST_RECORDS: u32 = 65535;

// What a file's first eight bytes say.
#[derive(Clone, Copy, Debug, PartialEq, Eq)]
pub struct Header {
    pub letter: char,
    pub cells: u16,
    pub count: u32,
}

// The memory that a load is handed: so many cells, and room for so many records.
#[derive(Clone, Copy, Debug, PartialEq, Eq)]
pub struct Handed {
    pub cells: usize,
    pub room: usize,
}

// Refusals 5 to 10, or the header of a file of the kind K.
pub fn read_header<K: Kind>(file: &[u8]) -> Result<Header, FileFault>
    ensures value { result ≡ header_of K.Kind.model None file.now }
    ensures fits { IfOk result (λ h. Fits h K.Kind.model.width file.now) }
{
    Ok(SavedFile::open::<K>(file, None)?.header)
}

// The same for a load, which also asks for as many cells as it is handed (8) and for enough room (9).
pub fn load_header<K: Kind>(file: &[u8], handed: Handed) -> Result<Header, FileFault>
    ensures value { result ≡ header_of K.Kind.model (Some handed) file.now }
    ensures fits { IfOk result (λ h. Fits h K.Kind.model.width file.now) }
{
    Ok(SavedFile::open::<K>(file, Some(handed))?.header)
}

// Refusals 5 to 10, or the header of a file of any kind on board.
pub fn any_header(file: &[u8]) -> Result<Header, FileFault>
    ensures value { result ≡ any_header file.now }
    ensures fits { IfOk result (λ h. Fits h (width_at file.now) file.now) }
{
    Ok(SavedFile::open_any(file)?.header)
}

// A file is read by its letter as it is by that letter's kind.
pub fn headers_agree()
    ensures { HeadersAgree }
{}
