// The sizes that a volume can have.
ghost use Rattle.std.specs.Prelude.{◌≡◌, length};
ghost use Rattle.volume.specs.Sizes.{sized, sound};

use crate::Volume;
use crate::refusal::Refusal;
use file::header::{MOST_CELLS, MOST_RECORDS};
use kind::Kind;

// Refusals 1 to 3.
pub(crate) fn check_sizes(cells: usize, heads: usize, capacity: usize) -> Result<(), Refusal>
    ensures { result ≡ sized cells heads capacity }
{
    if cells == 0 || cells > MOST_CELLS as usize {
        return Err(Refusal::Cells);
    }
    if heads != cells {
        return Err(Refusal::Heads);
    }
    if capacity > MOST_RECORDS as usize {
        return Err(Refusal::Capacity);
    }
    Ok(())
}

impl<K: Kind> Volume<'_, '_, '_, '_, K> {
    // Refusals 1 to 4.
    pub(crate) fn check_memory(&self) -> Result<(), Refusal>
        ensures { result ≡ sound (length self.now.cells.now) (length self.now.heads.now) (length self.now.records.now) self.now.count.now }
    {
        check_sizes(self.cells.len(), self.heads.len(), self.records.len())?;
        if *self.count as usize > self.records.len() {
            return Err(Refusal::Count);
        }
        Ok(())
    }
}
