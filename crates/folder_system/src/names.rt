//! Names of files and folders.

ghost use Rattle.std.specs.Prelude.{◌≡◌, ◌++◌, codes, decimal, string_bytes, IfOk};
ghost use Rattle.folder_system.specs.Names.{folder_of, numbered};

use std::alloc::{AllocError, Global};

/// The folder that a name is in.
pub fn folder_of(name: &str) -> &str
    ensures { result.now ≡ folder_of name.now }
{
    match name.rsplit_once('/') {
        None => ".",
        Some((folder, _)) => { if folder.is_empty() { "/" } else { folder } }
    }
}

/// A name beside a name: in the same folder, with a dot before it, so that few patterns match it, and a number
/// behind it.
pub(crate) fn own_name(alloc: Global, name: &str, n: u32) -> Result<String, AllocError>
    ensures { IfOk result (λ own. string_bytes own ≡ numbered name.now n) }
{
    match name.rsplit_once('/') {
        None => with_number(alloc, String::from_str(alloc, ".")?, name, n),
        Some((folder, last)) => {
            let mut own = String::from_str(alloc, folder)?;
            own.push_str("/.")?;
            with_number(alloc, own, last, n)
        }
    }
}

fn with_number(alloc: Global, front: String, last: &str, n: u32) -> Result<String, AllocError>
    ensures { IfOk result (λ own. string_bytes own ≡ string_bytes front ++ last.now ++ codes ".rvgprof-" ++ decimal n) }
{
    let mut own = front;
    own.push_str(last)?;
    own.push_str(".rvgprof-")?;
    own.push_str(n.to_string(alloc)?.as_str())?;
    Ok(own)
}
