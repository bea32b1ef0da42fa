//! A text for tests.

ghost use Rattle.std.specs.Prelude.{◌≡◌, IfOk, length};

use std::alloc::{AllocError, Global};

/// A text of so many bytes, each of which tells where it stands.
pub fn text_of(alloc: Global, len: usize) -> Result<Vec<u8>, AllocError>
    ensures { IfOk result (λ text. length text.items ≡ len) }
{
    let mut text = Vec::new(alloc);
    for i in 0..len {
        text.push((i % 251) as u8)?;
    }
    Ok(text)
}
