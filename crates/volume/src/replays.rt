// Replay: an image made from the records up to a moment.
ghost use Rattle.std.specs.Prelude.{◌≡◌, ◌<◌, ◌≤◌, length, Ok};
ghost use Rattle.kind.specs.Answers.{each_below, told, kept};
ghost use Rattle.volume.specs.Memory.{held};
ghost use Rattle.volume.specs.Replays.{cell_known, played, played_to, remade, replayed};

use crate::Volume;
use crate::parts::fill_with;
use crate::refusal::Refusal;
use journal::faults::LadderFault;
use journal::record::{Record, cell_of, first_records};
use kind::Kind;

// Tries records 1 to `moment`; the lowest that is of no cell is the fault.
pub(crate) fn try_records<K: Kind>(
    records: &[Record<K::Change>],
    cells: usize,
    moment: u32,
) -> Result<(), LadderFault>
    requires { moment ≤ length records.now }
    ensures { result ≡ each_below (cell_known K.Kind.model cells records.now) moment }
{
    for (i, r) in first_records(records, moment).iter().enumerate() {
        if cell_of(r) as usize >= cells {
            return Err(LadderFault::Cell {
                record: i as u32 + 1,
            });
        }
    }
    Ok(())
}

// Acts with the change of one record, which was tried.
fn play_record<K: Kind>(image: &mut [K::State], r: &Record<K::Change>)
    requires { r.now.cell < length image.old }
    ensures { image.new ≡ played K.Kind.model image.old r.now }
{
    let i = cell_of(r) as usize;
    image[i] = K::act(&r.change, &image[i]);
}

// Acts on origins with records 1 to `moment`, each of which was tried.
fn play_records<K: Kind>(image: &mut [K::State], records: &[Record<K::Change>], moment: u32)
    requires { (moment ≤ length records.now) × (each_below (cell_known K.Kind.model (length image.old) records.now) moment ≡ Ok tt) }
    ensures { image.new ≡ played_to K.Kind.model (length image.old) records.now moment }
{
    fill_with(image, K::origin());
    for r in first_records(records, moment) {
        play_record::<K>(image, r);
    }
}

impl<K: Kind> Volume<'_, '_, '_, '_, K> {
    // Sets the image to origins and acts on it with records 1 to `moment` in order. Refusals 1 to 4, 12, 14, 18.
    #[tactic(auto, unfolding(crate::specs::Replays::replayed))]
    pub fn replay(&self, image: &mut [K::State], moment: u32) -> Result<(), Refusal>
        ensures answer { result ≡ told tt (replayed K.Kind.model (held self.now) image.old moment) }
        ensures put { image.new ≡ kept image.old (replayed K.Kind.model (held self.now) image.old moment) }
    {
        self.check_memory()?;
        if image.len() != self.cells.len() {
            return Err(Refusal::Image);
        }
        if moment > *self.count {
            return Err(Refusal::Moment);
        }
        try_records::<K>(self.records, image.len(), moment)?;
        play_records::<K>(image, self.records, moment);
        Ok(())
    }
}
