// A volume: cells with the log of their changes, in memory that the caller lends.
#![tactic(auto)]

mod calls;
mod checks;
mod loads;
pub mod owner;
mod parts;
pub mod recalls;
pub mod refusal;
mod replays;
mod reverts;
mod rolls;
mod saves;
mod sizes;
mod tested;

ghost use Rattle.std.specs.Prelude.{◌≡◌};
ghost use Rattle.volume.specs.Memory.{memory, held};

use journal::record::Record;
use kind::Kind;

// The memory may hold anything: each call tests what it needs.
#[derive(Drop)]
pub struct Volume<'c, 'h, 'r, 'n, K: Kind> {
    cells: &'c mut [K::State],
    // the number of each cell's newest record, or zero
    heads: &'h mut [u32],
    records: &'r mut [Record<K::Change>],
    // how many records are written
    count: &'n mut u32,
}

impl<'c, 'h, 'r, 'n, K: Kind> Volume<'c, 'h, 'r, 'n, K> {
    pub fn over(
        cells: &'c mut [K::State],
        heads: &'h mut [u32],
        records: &'r mut [Record<K::Change>],
        count: &'n mut u32,
    ) -> Volume<'c, 'h, 'r, 'n, K>
        ensures holds { held result ≡ memory cells.old heads.old records.old count.old }
        ensures cells_same { result.cells.ghost_name ≡ cells.entry.ghost_name }
        ensures heads_same { result.heads.ghost_name ≡ heads.entry.ghost_name }
        ensures records_same { result.records.ghost_name ≡ records.entry.ghost_name }
        ensures count_same { result.count.ghost_name ≡ count.entry.ghost_name }
    {
        Volume {
            cells,
            heads,
            records,
            count,
        }
    }
}
