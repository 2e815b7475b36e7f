// Roll: an image, moved from one moment to another.
ghost use Rattle.std.specs.Prelude.{◌≡◌, ◌<◌, map, length, slice_index_or};
ghost use Rattle.std.specs.List.{range_with_len};
ghost use Rattle.kind.specs.Answers.{each_below, told, kept};
ghost use Rattle.volume.specs.Calls.{origin};
ghost use Rattle.volume.specs.Memory.{held, seen};
ghost use Rattle.volume.specs.Rolls.{across, swept, moved, rolled};

use crate::Volume;
use crate::refusal::Refusal;
use crate::tested::Tested;
use journal::faults::LadderFault;
use kind::Kind;

impl<K: Kind> Tested<'_, K> {
    // Tries the span of each cell; the fault of the lowest that has one. By the cell's number, which its links have.
    #[tactic(auto, using(crate::proofs::Tries::tries_stop, crate::proofs::Tries::tries_more, crate::proofs::Tries::tries_all))]
    fn try_cells(&self, a: u32, b: u32) -> Result<(), LadderFault>
        ensures { result ≡ each_below (across K.Kind.model (seen self.now) a b) (length self.now.cells.now) }
    {
        let cells = self.cells;
        for i in 0..cells.len() {
            self.cell_span(i, a, b)?;
        }
        Ok(())
    }

    // Acts on `state`, which is that of cell `i`, with the span of the cell; no fault comes where every cell was tried.
    fn sweep_cell(&self, state: &mut K::State, i: usize, a: u32, b: u32)
        requires { i < length self.now.cells.now }
        ensures { state.new ≡ swept K.Kind.model (across K.Kind.model (seen self.now) a b i) state.old }
    {
        if let Ok(found) = self.cell_span(i, a, b) {
            *state = K::act(&found.change, state);
        }
    }

    // Acts on each state with its cell's span.
    #[tactic(auto, using(crate::proofs::Sweeps::swept_more))]
    fn sweep(&self, image: &mut [K::State], a: u32, b: u32)
        requires { length image.old ≡ length self.now.cells.now }
        ensures { image.new ≡ map (λ c. swept K.Kind.model (across K.Kind.model (seen self.now) a b c) (slice_index_or image.old c (origin K.Kind.model))) (range_with_len 0 (length image.old)) }
    {
        for (i, state) in image.iter_mut().enumerate() {
            self.sweep_cell(state, i, a, b);
        }
    }
}

impl<K: Kind> Volume<'_, '_, '_, '_, K> {
    // Acts on each state of the image with its cell's change from moment `a` to moment `b`. Refusals 1 to 4, 12, 14, 18.
    #[tactic(auto, unfolding(crate::specs::Rolls::rolled))]
    pub fn roll(&self, image: &mut [K::State], a: u32, b: u32) -> Result<(), Refusal>
        ensures answer { result ≡ told tt (rolled K.Kind.model (held self.now) image.old a b) }
        ensures put { image.new ≡ kept image.old (rolled K.Kind.model (held self.now) image.old a b) }
    {
        self.check_memory()?;
        if image.len() != self.cells.len() {
            return Err(Refusal::Image);
        }
        let count = *self.count;
        if a > count || b > count {
            return Err(Refusal::Moment);
        }
        let tested = self.view();
        tested.try_cells(a, b)?;
        tested.sweep(image, a, b);
        Ok(())
    }
}
