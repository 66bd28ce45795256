ghost use Rattle.std.specs.Prelude.{◌≡◌, IfOk, option_map, string_bytes};

use std::alloc::{AllocError, Global};

/// A copy of a text, where there is one.
///
/// # Errors
///
/// Out of memory.
pub fn copy_text(alloc: Global, text: Option<&str>) -> Result<Option<String>, AllocError>
    ensures { IfOk result (λ copy. option_map string_bytes copy ≡ option_map (λ text. text.now) text.entry) }
{
    match text {
        Some(text) => Ok(Some(String::from_str(alloc, text)?)),
        None => Ok(None),
    }
}
