// The block: 128 bytes, which change by XOR of equal places.
#![tactic(auto, using(crate::specs::Laws::Xors::block_from_get_or))]

ghost use Rattle.std.specs.Prelude.{◌≡◌, refl};
ghost use Rattle.kind.specs.Blocks.{block, zeros};
ghost use Rattle.kind.specs.Laws.Blocks.{block_laws};
ghost use Rattle.kind.specs.Passing.{taken};
ghost use Rattle.kind.specs.Xors.{xors};

use crate::forms::put;
use crate::{Kind, KindFault};
use std::array;

#[derive(Clone, Copy, Debug, PartialEq, Eq)]
pub struct Block;

// The xor of equal places.
fn xor(f: &[u8; 128], g: &[u8; 128]) -> [u8; 128]
    ensures { result ≡ xors (taken zeros f.now).list (taken zeros g.now).list }
{
    array::from_fn(|i| f[i] ^ g[i])
}

impl Kind for Block {
    type State = [u8; 128];

    type Change = [u8; 128];

    ghost model = { block };

    ghost laws = { block_laws };

    ghost LETTER = { 66 };

    ghost letter_is = { refl };

    const LETTER: char = 'B';

    fn width() -> usize {
        128
    }

    fn origin() -> [u8; 128] {
        [0; 128]
    }

    fn unit() -> [u8; 128] {
        [0; 128]
    }

    fn then(f: &[u8; 128], g: &[u8; 128]) -> [u8; 128] {
        xor(f, g)
    }

    // `_bytes` is for the proof alone: an array behind a reference is known for bytes only once it is lent as a slice.
    fn inverse(f: &[u8; 128]) -> [u8; 128] {
        let _bytes = f.as_slice();
        *f
    }

    fn act(f: &[u8; 128], s: &[u8; 128]) -> [u8; 128] {
        xor(s, f)
    }

    fn difference(s: &[u8; 128], t: &[u8; 128]) -> [u8; 128] {
        xor(s, t)
    }

    fn same_state(s: &[u8; 128], t: &[u8; 128]) -> bool {
        s[..] == t[..]
    }

    fn same_change(f: &[u8; 128], g: &[u8; 128]) -> bool {
        f[..] == g[..]
    }

    fn write_state(s: &[u8; 128], out: &mut [u8]) -> bool {
        put(s, out)
    }

    fn write_change(f: &[u8; 128], out: &mut [u8]) -> bool {
        put(f, out)
    }

    fn read_change(bytes: &[u8]) -> Result<[u8; 128], KindFault> {
        <[u8; 128]>::try_from(bytes).map_err(|_| KindFault::NotAChange)
    }
}
