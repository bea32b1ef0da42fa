//! What the kinds of errors say.

ghost use Rattle.std.specs.Prelude.{◌≡◌};
ghost use Rattle.folder_system.specs.Kinds.{is_barring, is_taken, is_no_sync, is_held};

use std::io::ErrorKind;

/// Whether an error of this kind says that no file can be made beside another, or not one like it. Want of
/// memory or room isn't such a kind.
pub fn bars(kind: ErrorKind) -> bool
    ensures { result ≡ is_barring kind }
{
    match kind {
        ErrorKind::PermissionDenied
        | ErrorKind::ReadOnlyFilesystem
        | ErrorKind::InvalidFilename
        | ErrorKind::InvalidInput
        | ErrorKind::Unsupported => true,
        _ => false,
    }
}

/// Whether an error of this kind says that something has the name already.
pub fn is_taken(kind: ErrorKind) -> bool
    ensures { result ≡ is_taken kind }
{
    match kind {
        ErrorKind::AlreadyExists => true,
        _ => false,
    }
}

/// Whether an error of this kind says that there is nothing to sync, as for a pipe or a terminal.
pub fn cannot_sync(kind: ErrorKind) -> bool
    ensures { result ≡ is_no_sync kind }
{
    match kind {
        ErrorKind::InvalidInput | ErrorKind::Unsupported => true,
        _ => false,
    }
}

/// Whether an error of this kind says that no other file can have a name: a mount of its own stands there, or
/// another's file in a folder of which each may take away only their own.
pub fn holds_name(kind: ErrorKind) -> bool
    ensures { result ≡ is_held kind }
{
    match kind {
        ErrorKind::ResourceBusy | ErrorKind::CrossesDevices | ErrorKind::PermissionDenied => true,
        _ => false,
    }
}
