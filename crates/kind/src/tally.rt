// The tally: a signed number of 32 bits, which changes by sums modulo 2 ^ 32.
ghost use Rattle.std.specs.Prelude.{refl};
ghost use Rattle.kind.specs.Tallies.{tally};
ghost use Rattle.kind.specs.Laws.Tallies.{tally_laws};

use crate::forms::put;
use crate::{Kind, KindFault};

#[derive(Clone, Copy, Debug, PartialEq, Eq)]
pub struct Tally;

impl Kind for Tally {
    type State = i32;

    type Change = i32;

    ghost model = { tally };

    ghost laws = { tally_laws };

    ghost LETTER = { 84 };

    ghost letter_is = { refl };

    const LETTER: char = 'T';

    fn width() -> usize {
        4
    }

    fn origin() -> i32 {
        0
    }

    fn unit() -> i32 {
        0
    }

    fn then(f: &i32, g: &i32) -> i32 {
        f.wrapping_add(*g)
    }

    fn inverse(f: &i32) -> i32 {
        f.wrapping_neg()
    }

    fn act(f: &i32, s: &i32) -> i32 {
        s.wrapping_add(*f)
    }

    fn difference(s: &i32, t: &i32) -> i32 {
        t.wrapping_sub(*s)
    }

    fn same_state(s: &i32, t: &i32) -> bool {
        *s == *t
    }

    fn same_change(f: &i32, g: &i32) -> bool {
        *f == *g
    }

    fn write_state(s: &i32, out: &mut [u8]) -> bool {
        put(&s.to_le_bytes(), out)
    }

    fn write_change(f: &i32, out: &mut [u8]) -> bool {
        put(&f.to_le_bytes(), out)
    }

    fn read_change(bytes: &[u8]) -> Result<i32, KindFault> {
        let [a, b, c, d] = bytes else {
            return Err(KindFault::NotAChange);
        };
        Ok(i32::from_le_bytes([*a, *b, *c, *d]))
    }
}
