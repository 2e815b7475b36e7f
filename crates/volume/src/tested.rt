// A volume to be read, its sizes tested.
ghost use Rattle.std.specs.Prelude.{◌≡◌, ◌≤◌, length};

use crate::Volume;
use journal::faults::LadderFault;
use journal::record::Record;
use journal::walk::{Chain, Stretch};
use kind::Kind;

// The parts of a volume that has not too many cells, and a head for each.
#[derive(Drop)]
pub(crate) struct Tested<'v, K: Kind> {
    pub(crate) cells: &'v [K::State],
    pub(crate) heads: &'v [u32],
    pub(crate) records: &'v [Record<K::Change>],
    pub(crate) count: u32,
    ghost few: { length cells.now ≤ 4096 },
    ghost paired: { length heads.now ≡ length cells.now },
}

impl<K: Kind> Volume<'_, '_, '_, '_, K> {
    // The volume, to be read. It asks for the sizes and does not test them: a call tests them first among its own refusals.
    #[inline(always)]
    pub(crate) fn view(&self) -> Tested<'_, K>
        requires few { length self.now.cells.now ≤ 4096 }
        requires paired { length self.now.heads.now ≡ length self.now.cells.now }
        ensures cells { result.cells.now ≡ self.now.cells.now }
        ensures heads { result.heads.now ≡ self.now.heads.now }
        ensures records { result.records.now ≡ self.now.records.now }
        ensures count { result.count ≡ self.now.count.now }
    {
        Tested {
            cells: self.cells,
            heads: self.heads,
            records: self.records,
            count: *self.count,
        }
    }
}

impl<'v, K: Kind> Tested<'v, K> {
    ghost use Rattle.std.specs.Prelude.{◌<◌, slice_index};
    ghost use Rattle.volume.specs.Memory.{seen};
    ghost use Rattle.volume.specs.Reverts.{held_state};
    ghost use Rattle.volume.specs.Rolls.{across};

    // The records, linked for cell `i`.
    #[inline(always)]
    pub(crate) fn chain(&self, i: usize) -> Chain<'v, K>
        requires { i < length self.now.cells.now }
        ensures records { result.records.now ≡ self.now.records.now }
        ensures cell { result.cell ≡ i }
        ensures head { result.head ≡ slice_index self.now.heads.now i }
    {
        Chain {
            records: self.records,
            cell: i as u16,
            head: self.heads[i],
        }
    }

    // The change of cell `i` from moment `a` to moment `b`.
    pub(crate) fn cell_span(
        &self,
        i: usize,
        a: u32,
        b: u32,
    ) -> Result<Stretch<K::Change>, LadderFault>
        requires { i < length self.now.cells.now }
        ensures { result ≡ across K.Kind.model (seen self.now) a b i }
    {
        self.chain(i).span(self.count, a, b)
    }

    // A copy of the state of cell `i`.
    #[inline(always)]
    pub(crate) fn state(&self, i: usize) -> K::State
        requires { i < length self.now.cells.now }
        ensures { result ≡ held_state K.Kind.model (seen self.now) i }
    {
        let cells = self.cells;
        cells[i]
    }
}
