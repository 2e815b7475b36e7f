// Kinds of cell: what their states and changes are, and the three kinds on board.
#![tactic(auto)]

pub mod arrangement;
pub mod bank_map;
pub mod block;
pub mod forms;
pub mod statements;
pub mod tally;

ghost use Rattle.std.specs.Prelude.{◌≡◌, ℕ, ◌++◌, length, drop, if◌then◌else◌, nat_le};
ghost use Rattle.kind.specs.Calls.{first_state, no_change, acted, composed, reversed, between};
ghost use Rattle.kind.specs.Model.{Model, Laws};
ghost use Rattle.std.specs.Result.{result_map_both};

use thiserror::Error;

// Why a kind turns bytes down.
#[derive(Clone, Copy, Debug, PartialEq, Eq, Error)]
pub enum KindFault {
    #[error("no change of the kind")]
    NotAChange,
}

// A kind of cell. Its states and changes lie in memory as plain values; `model` says what each is taken for, and what the
// calls answer. No call refuses, but for the reading of bytes that are no change.
// No trait of groups stands below it: the changes of a kind need not be of one type with its states, as those on board are.
pub trait Kind {
    // The plain type of a state.
    type State: Copy;

    // The plain type of a change.
    type Change: Copy;

    ghost model: { Model Self.State Self.Change };

    ghost laws: { Laws model };

    // `LETTER` as clauses name it.
    ghost LETTER: { ℕ };

    // Stands for the kind in a file.
    const LETTER: char;

    // How many bytes the form of a state or a change has. A function: a kind made of two kinds works it out from theirs.
    fn width() -> usize
        ensures { result ≡ model.width };

    // The state of a cell that was never written.
    fn origin() -> Self::State
        ensures { result ≡ first_state model };

    // The change that leaves every state as it is.
    fn unit() -> Self::Change
        ensures { result ≡ no_change model };

    // `f` followed by `g`.
    fn then(f: &Self::Change, g: &Self::Change) -> Self::Change
        ensures { result ≡ composed model f.now g.now };

    // The change that undoes `f`.
    fn inverse(f: &Self::Change) -> Self::Change
        ensures { result ≡ reversed model f.now };

    // What `f` makes of `s`.
    fn act(f: &Self::Change, s: &Self::State) -> Self::State
        ensures { result ≡ acted model f.now s.now };

    // The change that makes `t` of `s`.
    fn difference(s: &Self::State, t: &Self::State) -> Self::Change
        ensures { result ≡ between model s.now t.now };

    // Whether both are taken for one state.
    fn same_state(s: &Self::State, t: &Self::State) -> bool
        ensures { result ≡ model.same_state (model.state s.now) (model.state t.now) };

    // Whether both are taken for one change.
    fn same_change(f: &Self::Change, g: &Self::Change) -> bool
        ensures { result ≡ model.same_change (model.change f.now) (model.change g.now) };

    // Writes the form to the front of `out`. False where `out` is too short; it then stays as it is. A bool, here and below, and no
    // Result: clauses take it as a value.
    fn write_state(s: &Self::State, out: &mut [u8]) -> bool
        ensures { (result ≡ nat_le model.width (length out.old)) × (out.new ≡ (if result then model.state_form (model.state s.now) ++ drop model.width out.old else out.old)) };

    // Writes the form to the front of `out`. False where `out` is too short; it then stays as it is.
    fn write_change(f: &Self::Change, out: &mut [u8]) -> bool
        ensures { (result ≡ nat_le model.width (length out.old)) × (out.new ≡ (if result then model.change_form (model.change f.now) ++ drop model.width out.old else out.old)) };

    // The change whose form is `bytes`, all of them.
    fn read_change(bytes: &[u8]) -> Result<Self::Change, KindFault>
        ensures { result ≡ result_map_both model.plain_change (λ e. e) (model.read_form bytes.now) };

    ghost letter_is: { LETTER ≡ model.letter };
}
