// Load: a volume is filled from a file.
ghost use Rattle.std.specs.Result.{result_map_both};
ghost use Rattle.std.specs.Prelude.{◌≡◌, ◌<◌, ◌≤◌, length, IfOk, OnOk};
ghost use Rattle.kind.specs.Answers.{told, kept};
ghost use Rattle.file.specs.Records.{parts_seen};
ghost use Rattle.volume.specs.Calls.{emptied};
ghost use Rattle.volume.specs.Loads.{entered, took_parts, took_to, reached, headed, filled, settled, left, loaded, load_leaves};
ghost use Rattle.volume.specs.Memory.{held, KeepsLoans};
ghost use Rattle.volume.specs.Reverts.{count_of};

use crate::Volume;
use crate::refusal::Refusal;
use crate::sizes::check_sizes;
use file::changes::read_change_at;
use file::faults::FileFault;
use file::header::Handed;
use file::records::SavedRecord;
use file::saved::SavedFile;
use kind::Kind;

impl<K: Kind> Volume<'_, '_, '_, '_, K> {
    // Acts on a cell with a change and logs it. The sizes are asked for here and below, and not held by a view, since the volume is
    // written between.
    fn enter(&mut self, cell: u16, change: &K::Change) -> Result<(), Refusal>
        requires there { cell < length self.old.cells.now }
        requires paired { length self.old.heads.now ≡ length self.old.cells.now }
        requires low { self.old.count.now ≤ 65535 }
        ensures answer { result ≡ told tt (entered K.Kind.model (held self.old) cell change.now) }
        ensures after { held self.new ≡ kept (held self.old) (entered K.Kind.model (held self.old) cell change.now) }
        ensures loans { KeepsLoans self.old self.new }
    {
        let i = cell as usize;
        let state = K::act(change, &self.cells[i]);
        self.put(i, change, &state)?;
        Ok(())
    }

    // Takes in record `n`, of these parts.
    fn take_parts(&mut self, saved: SavedRecord<'_>, n: u32) -> Result<(), Refusal>
        requires paired { length self.old.heads.now ≡ length self.old.cells.now }
        requires low { self.old.count.now ≤ 65535 }
        ensures answer { result ≡ told tt (took_parts K.Kind.model (held self.old) n (parts_seen saved.entry)) }
        ensures after { held self.new ≡ kept (held self.old) (took_parts K.Kind.model (held self.old) n (parts_seen saved.entry)) }
        ensures loans { KeepsLoans self.old self.new }
    {
        let i = saved.cell as usize;
        if i >= self.cells.len() {
            return Err(Refusal::File(FileFault::Cell(n)));
        }
        if saved.next != self.heads[i] {
            return Err(Refusal::File(FileFault::Next(n)));
        }
        let change = read_change_at::<K>(n, saved.change)?;
        self.enter(saved.cell, &change)
    }

    // Takes in the records of a file of this kind in order, up to the first that is refused.
    fn take_records(&mut self, file: SavedFile<'_>) -> Result<(), Refusal>
        requires paired { length self.old.heads.now ≡ length self.old.cells.now }
        requires blank { self.old.count.now ≡ 0 }
        requires of_kind { file.width ≡ K.Kind.model.width }
        ensures answer { result ≡ told tt (took_to K.Kind.model file.entry.bytes.now (held self.old) file.entry.header.count) }
        ensures after { held self.new ≡ reached K.Kind.model file.entry.bytes.now (held self.old) file.entry.header.count }
        ensures loans { KeepsLoans self.old self.new }
    {
        for (n, saved) in file.records() {
            self.take_parts(saved, n)?;
        }
        Ok(())
    }

    // Empties the volume and takes in the records of a file of this kind; a refused one leaves it empty. By cases, since in both something
    // is done.
    fn refill(&mut self, file: SavedFile<'_>) -> Result<u32, Refusal>
        requires paired { length self.old.heads.now ≡ length self.old.cells.now }
        requires of_kind { file.width ≡ K.Kind.model.width }
        ensures answer { result ≡ count_of (took_to K.Kind.model file.entry.bytes.now (emptied K.Kind.model (held self.old)) file.entry.header.count) }
        ensures after { held self.new ≡ settled K.Kind.model (reached K.Kind.model file.entry.bytes.now (emptied K.Kind.model (held self.old)) file.entry.header.count) (took_to K.Kind.model file.entry.bytes.now (emptied K.Kind.model (held self.old)) file.entry.header.count) }
        ensures loans { KeepsLoans self.old self.new }
    {
        self.empty();
        match self.take_records(file) {
            Ok(()) => Ok(*self.count),
            Err(refusal) => {
                self.empty();
                Err(refusal)
            }
        }
    }

    // The file, where its header goes with this memory.
    fn open_file<'a>(&self, bytes: &'a [u8]) -> Result<SavedFile<'a>, Refusal>
        ensures answer { result_map_both (λ s. s.header) (λ e. e) result ≡ headed K.Kind.model (held self.now) bytes.now }
        ensures bytes { IfOk result (λ s. s.bytes ≡ bytes.entry) }
        ensures of_kind { IfOk result (λ s. s.width ≡ K.Kind.model.width) }
        ensures paired { OnOk result (length self.now.heads.now ≡ length self.now.cells.now) }
    {
        let cells = self.cells.len();
        let room = self.records.len();
        check_sizes(cells, self.heads.len(), room)?;
        Ok(SavedFile::open::<K>(bytes, Some(Handed { cells, room }))?)
    }

    // Fills the volume from a file of its kind, rebuilds the links and answers the count. Refusals 1 to 3 and 5 to 10 change
    // nothing. 15 to 17, tried record by record, leave a formatted volume with the records before the faulty one in its log; so
    // would 18 and 19, should logging refuse.
    #[tactic(auto, unfolding(crate::specs::Loads::loaded, crate::specs::Loads::load_leaves))]
    pub fn load(&mut self, file: &[u8]) -> Result<u32, Refusal>
        ensures answer { result ≡ count_of (loaded K.Kind.model (held self.old) file.now) }
        ensures after { held self.new ≡ load_leaves K.Kind.model (held self.old) file.now }
        ensures loans { KeepsLoans self.old self.new }
    {
        self.refill(self.open_file(file)?)
    }
}
