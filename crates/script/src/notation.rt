// How a script writes the states and changes of each kind: tallies in decimal, the others in hexadecimal.
ghost use Rattle.std.specs.Prelude.{◌≡◌, ℕ, Bool, List, replicate, pos, IfOk, IfErr, string_bytes, Result};
ghost use Rattle.std.specs.Fn.{FnOnceReturnsAtMut};
ghost use Rattle.kind.specs.Blocks.{block};
ghost use Rattle.kind.specs.BankMaps.{bank_map};
ghost use Rattle.std.specs.Fmt.{signed_decimal};
ghost use Rattle.std.specs.Str.Parse.{ParsesSigned};
ghost use Rattle.script.specs.declared.error.ScriptError.{ScriptError};
ghost use Rattle.script.specs.declared.error.ScriptError.TheVariants.{Hex, Number};
ghost use Rattle.std.specs.Int.{w32};
ghost use Rattle.script.specs.Hex.{hex_of};
ghost use Rattle.script.specs.Notations.{state_hex, change_hex, ReadsHex};

use crate::error::ScriptError;
use crate::{arguments, hexadecimal};
use kind::Kind;
use kind::bank_map::BankMap;
use kind::block::Block;
use kind::tally::Tally;
use std::alloc::{AllocError, Global};

pub trait Notation: Kind {
    // what is written of a state, and of a change
    ghost stated: { Self.State → List ℕ };

    ghost changed: { Self.Change → List ℕ };

    fn show_state(heap: Global, s: &Self::State) -> Result<String, AllocError>
        ensures { IfOk result (λ t. string_bytes t ≡ stated s.now) };

    fn show_change(heap: Global, f: &Self::Change) -> Result<String, AllocError>
        ensures { IfOk result (λ t. string_bytes t ≡ changed f.now) };

    // what a word is read as
    ghost reads_state: { List ℕ → Result Self.State ScriptError → Type 0 };

    ghost reads_change: { List ℕ → Result Self.Change ScriptError → Type 0 };

    // the errors of a word that is read as none
    ghost misread: { ScriptError → Type 0 };

    fn parse_state(word: &str) -> Result<Self::State, ScriptError>
        ensures read { reads_state word.now result }
        ensures refused { IfErr result misread };

    fn parse_change(word: &str) -> Result<Self::Change, ScriptError>
        ensures read { reads_change word.now result }
        ensures refused { IfErr result misread };

    // plain values of zero bytes alone
    ghost state_of_zeros: { Self.State };

    ghost change_of_zeros: { Self.Change };

    fn zero_state() -> Self::State
        ensures { result ≡ state_of_zeros };

    fn zero_change() -> Self::Change
        ensures { result ≡ change_of_zeros };
}

// The N bytes that a word writes in hexadecimal.
fn plain_bytes<const N: usize>(word: &str) -> Result<[u8; N], ScriptError>
    ensures read { ReadsHex N word.now result }
    ensures refused { IfErr result (λ e. e ≡ Hex) }
{
    let mut bytes = [0; N];
    hexadecimal::read_exact(word, &mut bytes)?;
    Ok(bytes)
}

// The `width` bytes that `write` lays down, in hexadecimal.
fn hex_form<F: FnOnce(&mut [u8]) -> bool>(
    heap: Global,
    width: usize,
    write: F,
) -> Result<String, AllocError>
    requires { F.IsAlwaysCallable write }
    ensures { IfOk result (λ t. (form : List ℕ) × (whole : Bool) × FnOnceReturnsAtMut F.FnOnce write (replicate width 0) whole form × (string_bytes t ≡ hex_of form)) }
{
    let mut form = vec![in heap; 0u8; width]?;
    let _whole = write(&mut form);
    hexadecimal::render(heap, &form)
}

// Two functions of one line: which of the two forms is written is all that each says.
fn hex_state<K: Kind>(heap: Global, s: &K::State) -> Result<String, AllocError>
    ensures { IfOk result (λ t. string_bytes t ≡ state_hex K.Kind.model s.now) }
{
    hex_form(heap, K::width(), |form| K::write_state(s, form))
}

fn hex_change<K: Kind>(heap: Global, f: &K::Change) -> Result<String, AllocError>
    ensures { IfOk result (λ t. string_bytes t ≡ change_hex K.Kind.model f.now) }
{
    hex_form(heap, K::width(), |form| K::write_change(f, form))
}

// Blocks and bank maps differ in a type and a length alone, and a line that names its own is all that is in each method.
impl Notation for Block {
    ghost stated = { state_hex block };

    ghost changed = { change_hex block };

    fn show_state(heap: Global, s: &[u8; 128]) -> Result<String, AllocError> {
        hex_state::<Block>(heap, s)
    }

    fn show_change(heap: Global, f: &[u8; 128]) -> Result<String, AllocError> {
        hex_change::<Block>(heap, f)
    }

    ghost reads_state = { ReadsHex 128 };

    ghost reads_change = { ReadsHex 128 };

    ghost misread = { λ e. e ≡ Hex };

    fn parse_state(word: &str) -> Result<[u8; 128], ScriptError> {
        plain_bytes(word)
    }

    fn parse_change(word: &str) -> Result<[u8; 128], ScriptError> {
        plain_bytes(word)
    }

    ghost state_of_zeros = { replicate 128 0 };

    ghost change_of_zeros = { replicate 128 0 };

    fn zero_state() -> [u8; 128] {
        [0; 128]
    }

    fn zero_change() -> [u8; 128] {
        [0; 128]
    }
}

impl Notation for Tally {
    ghost stated = { signed_decimal };

    ghost changed = { signed_decimal };

    fn show_state(heap: Global, s: &i32) -> Result<String, AllocError> {
        s.to_string(heap)
    }

    fn show_change(heap: Global, f: &i32) -> Result<String, AllocError> {
        f.to_string(heap)
    }

    ghost reads_state = { ParsesSigned w32 10 };

    ghost reads_change = { ParsesSigned w32 10 };

    ghost misread = { λ e. e ≡ Number };

    fn parse_state(word: &str) -> Result<i32, ScriptError> {
        arguments::signed(word)
    }

    fn parse_change(word: &str) -> Result<i32, ScriptError> {
        arguments::signed(word)
    }

    ghost state_of_zeros = { pos 0 };

    ghost change_of_zeros = { pos 0 };

    fn zero_state() -> i32 {
        0
    }

    fn zero_change() -> i32 {
        0
    }
}

impl Notation for BankMap {
    ghost stated = { state_hex bank_map };

    ghost changed = { change_hex bank_map };

    fn show_state(heap: Global, s: &[u8; 16]) -> Result<String, AllocError> {
        hex_state::<BankMap>(heap, s)
    }

    fn show_change(heap: Global, f: &[u8; 16]) -> Result<String, AllocError> {
        hex_change::<BankMap>(heap, f)
    }

    ghost reads_state = { ReadsHex 16 };

    ghost reads_change = { ReadsHex 16 };

    ghost misread = { λ e. e ≡ Hex };

    fn parse_state(word: &str) -> Result<[u8; 16], ScriptError> {
        plain_bytes(word)
    }

    fn parse_change(word: &str) -> Result<[u8; 16], ScriptError> {
        plain_bytes(word)
    }

    ghost state_of_zeros = { replicate 16 0 };

    ghost change_of_zeros = { replicate 16 0 };

    fn zero_state() -> [u8; 16] {
        [0; 16]
    }

    fn zero_change() -> [u8; 16] {
        [0; 16]
    }
}
