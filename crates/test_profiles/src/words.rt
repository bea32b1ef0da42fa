//! Words, as a command line gives them.

use std::alloc::{AllocError, Global};

/// These texts, each as a `String`.
pub fn strings_of(alloc: Global, texts: &[&str]) -> Result<Vec<String>, AllocError> {
    let mut strings = Vec::new(alloc);
    for text in texts {
        strings.push(String::from_str(alloc, text)?)?;
    }
    Ok(strings)
}
