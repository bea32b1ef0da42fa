//! Values in boxes. Who owns one gives back a single pointer, whatever the value is made of.

ghost use Rattle.std.specs.Prelude.{◌≡◌, IfOk};

use std::alloc::{AllocError, Global};

/// The value in a box.
pub fn boxed<T: Drop>(alloc: Global, value: T) -> Result<Box<T>, AllocError>
    ensures { IfOk result (λ boxed. boxed.value ≡ value) }
{
    let boxed = Box::new(alloc, value)?;
    Ok(boxed)
}
