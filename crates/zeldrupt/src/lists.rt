// Rows as text.
use std::alloc::{AllocError, Global};

// Each item as `show` writes it, or none.
pub(crate) fn list<T, F: Fn(&T) -> Result<String, AllocError>>(
    heap: Global,
    row: &[T],
    show: F,
) -> Result<String, AllocError>
    requires { F.IsAlwaysCallable show }
{
    if row.is_empty() {
        return String::from_str(heap, "none");
    }
    let mut text = String::new(heap);
    for item in row {
        if !text.is_empty() {
            text.push_str(", ")?;
        }
        text.push_str(show(item)?.as_str())?;
    }
    Ok(text)
}
