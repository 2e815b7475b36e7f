// Bytes as hexadecimal text.
ghost use Rattle.std.specs.Prelude.{◌≡◌, ◌<◌, true, length, IfOk, IfErr, string_bytes, MatchResult, OnOk, OnErr};
ghost use Rattle.std.specs.Char.{digit_char};
ghost use Rattle.script.specs.Hex.{hex_of, digit?, digits?, NoHex};
ghost use Rattle.script.specs.declared.error.ScriptError.TheVariants.{Hex};

use crate::error::ScriptError;
use std::alloc::{AllocError, Global};

// Whether `b` is a digit, where letters are lowercase.
fn is_digit(b: u8) -> bool
    ensures { result ≡ digit? b }
{
    matches!(b, b'0'..=b'9' | b'a'..=b'f')
}

// Not by `all`: a way out at the first other byte makes text that is right, the most there is, twice as dear.
fn all_digits(text: &[u8]) -> bool
    ensures { result ≡ digits? text.now }
{
    text.iter().fold(true, |all, b| all & is_digit(*b))
}

// The value of a digit.
fn value(b: u8) -> u8
    requires { digit? b ≡ true }
    ensures below { result < 16 }
    ensures is { digit_char result ≡ b }
{
    if b <= b'9' { b - b'0' } else { b - b'a' + 10 }
}

// Two lowercase digits for each byte.
pub fn render(heap: Global, bytes: &[u8]) -> Result<String, AllocError>
    ensures { IfOk result (λ s. string_bytes s ≡ hex_of bytes.now) }
{
    hex::encode(heap, bytes)
}

// Fills `out` from just as many bytes of hexadecimal text, whose letters are lowercase. Where the text is no such, `out`
// stays as it was.
pub fn read_exact(text: &str, out: &mut [u8]) -> Result<(), ScriptError>
    ensures read { MatchResult result (λ _. hex_of out.new ≡ text.now) (λ _. NoHex (length out.old) text.now) }
    ensures refused { IfErr result (λ e. e ≡ Hex) }
    ensures kept { OnErr result (out.new ≡ out.old) }
{
    // not the kit's `hex::decode_to_slice`, which takes uppercase letters too
    let t = text.as_bytes();
    if t.len() % 2 != 0 || t.len() / 2 != out.len() || !all_digits(t) {
        return Err(ScriptError::Hex);
    }
    // by an index: with `zip` or `enumerate` over `chunks_exact` it did not prove what the loop writes
    for i in 0..out.len() {
        out[i] = value(t[2 * i]) * 16 + value(t[2 * i + 1]);
    }
    Ok(())
}

// What is rendered reads back as the same bytes, into a place of the same length.
pub fn round_trip(heap: Global, bytes: &[u8], out: &mut [u8]) -> Result<(), AllocError>
    ensures { OnOk result (length bytes.now ≡ length out.old → out.new ≡ bytes.now) }
{
    let text = render(heap, bytes)?;
    let _read = read_exact(text.as_str(), out);
    Ok(())
}
