// Save: the file of a volume.
ghost use Rattle.std.specs.Prelude.{◌≡◌, ◌+◌, ◌≤◌, length};
ghost use Rattle.file.specs.Forms.{record_laid, written};
ghost use Rattle.file.specs.Header.{file_length};
ghost use Rattle.file.specs.Records.{record_start};
ghost use Rattle.volume.specs.Areas.{length_of, area_after};
ghost use Rattle.volume.specs.Memory.{held};
ghost use Rattle.volume.specs.Saves.{line_of, lines_of, laid_down, saved};

use crate::Volume;
use crate::refusal::Refusal;
use crate::replays::try_records;
use file::forms::{write_header, write_record_at};
use file::records::file_length;
use journal::record::{Record, cell_of, first_records};
use kind::Kind;

// Writes one record to its place as record `n` of the file.
fn put_record<K: Kind>(r: &Record<K::Change>, n: u32, area: &mut [u8])
    requires { record_start K.Kind.model.width n + (6 + K.Kind.model.width) ≤ length area.old }
    ensures { area.new ≡ record_laid K.Kind.model n (line_of K.Kind.model r.now) area.old }
{
    let _ = write_record_at::<K>(n, r.next, cell_of(r), &r.change, area);
}

// Writes the header and then the first `count` records.
fn put_file<K: Kind>(cells: u16, records: &[Record<K::Change>], count: u32, area: &mut [u8])
    requires there { count ≤ length records.now }
    requires few { count ≤ 65535 }
    requires room { file_length K.Kind.model.width count ≤ length area.old }
    ensures { area.new ≡ written K.Kind.model cells count (lines_of K.Kind.model records.now count) area.old }
{
    let _ = write_header(K::LETTER, cells, count, area);
    for (i, r) in first_records(records, count).iter().enumerate() {
        put_record::<K>(r, i as u32 + 1, area);
    }
}

impl<K: Kind> Volume<'_, '_, '_, '_, K> {
    // Writes the volume's file to the front of `area` and answers its length. Refusals 1 to 4, 11, 18.
    #[tactic(auto, unfolding(crate::specs::Saves::saved))]
    pub fn save(&self, area: &mut [u8]) -> Result<usize, Refusal>
        ensures answer { result ≡ length_of (saved K.Kind.model (held self.now) (length area.old)) }
        ensures after { area.new ≡ area_after area.old (saved K.Kind.model (held self.now) (length area.old)) }
    {
        self.check_memory()?;
        let cells = self.cells.len();
        let count = *self.count;
        let length = file_length::<K>(count);
        if area.len() < length {
            return Err(Refusal::Area);
        }
        try_records::<K>(self.records, cells, count)?;
        put_file::<K>(cells as u16, self.records, count, area);
        Ok(length)
    }
}
