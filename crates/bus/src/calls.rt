// The calls that C can make.
ghost use Rattle.std.specs.Prelude.{◌≡◌, length};
ghost use Rattle.volume.specs.Areas.{area_after};
ghost use Rattle.volume.specs.Recalls.{any_recalled};
ghost use Rattle.bus.specs.Calls.{code};

use volume::recalls::recall_any;

// Writes the form of a cell's state at a moment to the front of `out`. Answers 0, or the number of the refusal (5 to 11, 13 to
// 17), which leaves `out` as it was: C is given a number alone.
#[unsafe(no_mangle)]
pub extern "C" fn zeldrupt_recall(file: &[u8], cell: u32, moment: u32, out: &mut [u8]) -> u32
    ensures answer { result ≡ code (any_recalled file.now cell moment (length out.old)) }
    ensures area { out.new ≡ area_after out.old (any_recalled file.now cell moment (length out.old)) }
{
    match recall_any(file, cell, moment, out) {
        Ok(()) => 0,
        Err(refusal) => refusal.number() as u32,
    }
}
