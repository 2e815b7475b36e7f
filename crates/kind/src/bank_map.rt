// The bank map: an arrangement of 16 page numbers, which changes by arrangements. It lies in memory as 16 plain bytes, from
// which the arrangement is made at each use; bytes that are none are taken for the one in order.
ghost use Rattle.std.specs.Prelude.{refl};
ghost use Rattle.kind.specs.BankMaps.{bank_map};
ghost use Rattle.kind.specs.Laws.BankMaps.{bank_map_laws};

use crate::arrangement::{Arrangement, is_arrangement};
use crate::forms::put;
use crate::{Kind, KindFault};

#[derive(Clone, Copy, Debug, PartialEq, Eq)]
pub struct BankMap;

impl Kind for BankMap {
    type State = [u8; 16];

    type Change = [u8; 16];

    ghost model = { bank_map };

    ghost laws = { bank_map_laws };

    ghost LETTER = { 77 };

    ghost letter_is = { refl };

    const LETTER: char = 'M';

    fn width() -> usize {
        16
    }

    fn origin() -> [u8; 16] {
        Arrangement::in_order().pages()
    }

    fn unit() -> [u8; 16] {
        Arrangement::in_order().pages()
    }

    fn then(f: &[u8; 16], g: &[u8; 16]) -> [u8; 16] {
        let f = Arrangement::taken(f);
        let g = Arrangement::taken(g);
        f.then(&g).pages()
    }

    fn inverse(f: &[u8; 16]) -> [u8; 16] {
        Arrangement::taken(f).inverse().pages()
    }

    fn act(f: &[u8; 16], s: &[u8; 16]) -> [u8; 16] {
        let f = Arrangement::taken(f);
        let s = Arrangement::taken(s);
        f.act(&s).pages()
    }

    fn difference(s: &[u8; 16], t: &[u8; 16]) -> [u8; 16] {
        let s = Arrangement::taken(s);
        let t = Arrangement::taken(t);
        s.inverse().then(&t).pages()
    }

    fn same_state(s: &[u8; 16], t: &[u8; 16]) -> bool {
        Arrangement::taken(s) == Arrangement::taken(t)
    }

    fn same_change(f: &[u8; 16], g: &[u8; 16]) -> bool {
        Arrangement::taken(f) == Arrangement::taken(g)
    }

    fn write_state(s: &[u8; 16], out: &mut [u8]) -> bool {
        put(&Arrangement::taken(s).pages(), out)
    }

    fn write_change(f: &[u8; 16], out: &mut [u8]) -> bool {
        put(&Arrangement::taken(f).pages(), out)
    }

    #[tactic(auto, using(crate::proofs::ArrangementLoops::other_length))]
    fn read_change(bytes: &[u8]) -> Result<[u8; 16], KindFault> {
        let pages = <[u8; 16]>::try_from(bytes).map_err(|_| KindFault::NotAChange)?;
        if is_arrangement(&pages) {
            Ok(pages)
        } else {
            Err(KindFault::NotAChange)
        }
    }
}
