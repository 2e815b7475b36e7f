// The change of a record: nothing else turns a kind's fault into a file's.
ghost use Rattle.std.specs.Prelude.{◌≡◌};
ghost use Rattle.std.specs.Result.{result_map_both};
ghost use Rattle.file.specs.Changes.{change_read};

use crate::faults::{AtRecord, FileFault};
use kind::Kind;

// The change of record `n`, whose form is `bytes`, or refusal 17 with the kind's fault.
pub fn read_change_at<K: Kind>(n: u32, bytes: &[u8]) -> Result<K::Change, FileFault>
    ensures { result ≡ result_map_both K.Kind.model.plain_change (λ e. e) (change_read K.Kind.model n bytes.now) }
{
    let change = K::read_change(bytes).map_err(|fault| AtRecord { number: n, fault })?;
    Ok(change)
}
