// What the kinds share in reading and writing byte forms.
ghost use Rattle.std.specs.Prelude.{◌≡◌, ◌++◌, length, drop, if◌then◌else◌, nat_le};

// Writes `form` to the front of `out`. False where `out` is shorter than that; `out` then stays as it is.
// A bool and no Result: the clauses of what is written take it as a value.
pub fn put(form: &[u8], out: &mut [u8]) -> bool
    ensures done { result ≡ nat_le (length form.now) (length out.old) }
    ensures area { out.new ≡ (if result then form.now ++ drop (length form.now) out.old else out.old) }
{
    let n = form.len();
    if n <= out.len() {
        out[0..n].copy_from_slice(form);
        true
    } else {
        false
    }
}
