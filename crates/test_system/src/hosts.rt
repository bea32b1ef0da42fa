//! Hosts that tests begin with.

ghost use Rattle.std.specs.Prelude.{◌≡◌, false, IfOk};
ghost use Rattle.system_host.specs.Seen.{outside_of};

use std::alloc::{AllocError, Global};
use system_host::{OneFile, SystemHost};

/// A host over one file, which isn't being written.
pub fn host_of(alloc: Global, name: &str, bytes: &[u8]) -> Result<SystemHost<OneFile>, AllocError>
    ensures { IfOk result (λ host. (outside_of host).is_writing ≡ false) }
{
    let name = String::from_str(alloc, name)?;
    let bytes = Vec::from_slice(alloc, bytes)?;
    Ok(SystemHost::new(OneFile::new(alloc, name, bytes)))
}
