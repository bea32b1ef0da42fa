//! Where an output stands until it is closed: beside the file whose place it takes, or in its place.

ghost use Rattle.std.specs.Prelude.{◌≡◌, [], string_bytes, IfErr, IfOk, IfSome, MatchOption, OnErr, OnOk, ⊤};
ghost use Rattle.std.specs.IoError.{error_kind};
ghost use Rattle.system_host.specs.Told.{bytes_of};
ghost use Rattle.folder_system.specs.Events.{Follows};
ghost use Rattle.folder_system.specs.Place.{IsQuiet, IsOpened, IsIn, IsMade, IsUnmade, IsBegun, IsBarred, IsGivenUp, IsPlaced, IsStanding, HasCause, is_beside, mode_for};

use crate::beside::Beside;
use crate::folder::{Attributes, Folder, Found, attributes_of, is_in_the_way, is_like, is_owned};
use crate::kinds::{bars, is_taken};
use crate::names::own_name;
use std::alloc::Global;
use std::io;

/// How many names beside are tried.
const TRIES: u32 = 1000;

/// The mode of an output that takes no file's place, less what the process masks.
const NEW_MODE: u32 = 0o666;

/// The mode of an output beside a file that may give one user or one group what it doesn't give others.
const OWN_MODE: u32 = 0o600;

/// The bits of permission of a mode, and those of the group and of the others.
const PERMISSION_BITS: u32 = 0o777;

const GROUP_BITS: u32 = 0o070;

const OTHER_BITS: u32 = 0o007;

/// Where an output stands.
pub enum Place {
    Beside(Beside),
    /// In place of the file of this name.
    In(String),
}

impl Place {
    /// Whether the output stands beside.
    pub fn is_beside(&self) -> bool
        ensures { result ≡ is_beside self.now }
    {
        match self {
            Place::Beside(_) => true,
            Place::In(_) => false,
        }
    }
}

/// Begins an output of this name. It stands beside a regular file that its owner may write and that has one
/// name and no special bit, or where there is none; and in place where something else stands there, or a new file
/// can't be made beside it or has another owner.
pub fn begin<F: Folder>(alloc: Global, folder: &mut F, name: &str) -> io::Result<(F::Output, Place)>
    ensures placed { IfOk result (λ begun. Follows (IsPlaced name.now begun.1) (F.history folder.old) (F.history folder.new)) }
    ensures empty { IfOk result (λ begun. IfSome (F.history folder.new)
        (λ _. bytes_of (F.Output.contents begun.0) ≡ [])) }
    ensures given_up { OnErr result (Follows (IsGivenUp name.now) (F.history folder.old) (F.history folder.new)) }
    ensures cause { IfErr result (λ e. HasCause (error_kind e) (F.history folder.old) (F.history folder.new)) }
{
    let found = folder.look(name)?;
    if is_in_the_way(found) {
        return begin_in_place(alloc, folder, name);
    }
    begin_beside(alloc, folder, name, attributes_of(found))
}

fn begin_beside<F: Folder>(
    alloc: Global,
    folder: &mut F,
    name: &str,
    old: Option<Attributes>,
) -> io::Result<(F::Output, Place)>
    ensures placed { IfOk result (λ begun. Follows (IsStanding name.now old begun.1) (F.history folder.old) (F.history folder.new)) }
    ensures empty { IfOk result (λ begun. IfSome (F.history folder.new)
        (λ _. bytes_of (F.Output.contents begun.0) ≡ [])) }
    ensures given_up { OnErr result (Follows (IsGivenUp name.now) (F.history folder.old) (F.history folder.new)) }
    ensures cause { IfErr result (λ e. HasCause (error_kind e) (F.history folder.old) (F.history folder.new)) }
{
    let kept_name = String::from_str(alloc, name)?;
    match make_like(alloc, folder, name, old)? {
        Some((output, own, takes)) => {
            Ok((
                output,
                Place::Beside(Beside::new(own, kept_name, old, takes)),
            ))
        }
        None => begin_in_place(alloc, folder, name),
    }
}

fn begin_in_place<F: Folder>(
    alloc: Global,
    folder: &mut F,
    name: &str,
) -> io::Result<(F::Output, Place)>
    ensures place { IfOk result (λ begun. IsIn name.now begun.1) }
    ensures opened { OnOk result (Follows (IsOpened name.now) (F.history folder.old) (F.history folder.new)) }
    ensures empty { IfOk result (λ begun. IfSome (F.history folder.new)
        (λ _. bytes_of (F.Output.contents begun.0) ≡ [])) }
    ensures not_opened { OnErr result (Follows (IsQuiet name.now) (F.history folder.old) (F.history folder.new)) }
    ensures cause { IfErr result (λ e. HasCause (error_kind e) (F.history folder.old) (F.history folder.new)) }
{
    let kept_name = String::from_str(alloc, name)?;
    let output = folder.open_over(name)?;
    Ok((output, Place::In(kept_name)))
}

/// Makes a file beside the named one, and answers whether it is like the old one. None where that is barred, or the
/// new file has another owner: then nothing is left. It is given nothing but the mode that it is made with.
fn make_like<F: Folder>(
    alloc: Global,
    folder: &mut F,
    name: &str,
    old: Option<Attributes>,
) -> io::Result<Option<(F::Output, String, bool)>>
    ensures barred { IfOk result (λ made. MatchOption made
        (Follows (IsBarred name.now old) (F.history folder.old) (F.history folder.new)) (λ _. ⊤)) }
    ensures begun { IfOk result (λ made. IfSome made (λ m.
        Follows (IsBegun name.now (string_bytes m.1) old m.2) (F.history folder.old) (F.history folder.new))) }
    ensures empty { IfOk result (λ made. IfSome made (λ m. IfSome (F.history folder.new)
        (λ _. bytes_of (F.Output.contents m.0) ≡ []))) }
    ensures given_up { OnErr result (Follows (IsGivenUp name.now) (F.history folder.old) (F.history folder.new)) }
    ensures cause { IfErr result (λ e. HasCause (error_kind e) (F.history folder.old) (F.history folder.new)) }
{
    let Some((output, own)) = make(alloc, folder, name, mode_for(old))? else {
        return Ok(None);
    };
    let Some(old) = old else {
        return Ok(Some((output, own, true)));
    };
    let seen = folder.look_at(&output).unwrap_or(Found::Other);
    if is_owned(seen, old) {
        return Ok(Some((output, own, is_like(seen, old))));
    }
    folder.remove(own.as_str())?;
    Ok(None)
}

/// The mode that an output is made with. The bits of a group may be the mask of a list of users and groups, which the
/// new file doesn't have: they are given where all others have them too.
fn mode_for(old: Option<Attributes>) -> u32
    ensures { result ≡ mode_for old }
{
    match old {
        None => NEW_MODE,
        Some(old) => {
            if (old.mode & GROUP_BITS) / 8 == old.mode & OTHER_BITS {
                old.mode & PERMISSION_BITS
            } else {
                OWN_MODE
            }
        }
    }
}

/// Makes a file beside the named one, by the first name that isn't taken. None where that is barred, or all are.
fn make<F: Folder>(
    alloc: Global,
    folder: &mut F,
    name: &str,
    mode: u32,
) -> io::Result<Option<(F::Output, String)>>
    ensures barred { IfOk result (λ made. MatchOption made
        (Follows (IsUnmade name.now mode) (F.history folder.old) (F.history folder.new)) (λ _. ⊤)) }
    ensures begun { IfOk result (λ made. IfSome made (λ m.
        Follows (IsMade name.now (string_bytes m.1) mode []) (F.history folder.old) (F.history folder.new))) }
    ensures empty { IfOk result (λ made. IfSome made (λ m. IfSome (F.history folder.new)
        (λ _. bytes_of (F.Output.contents m.0) ≡ []))) }
    ensures given_up { OnErr result (Follows (IsGivenUp name.now) (F.history folder.old) (F.history folder.new)) }
    ensures cause { IfErr result (λ e. HasCause (error_kind e) (F.history folder.old) (F.history folder.new)) }
{
    for n in 0..TRIES {
        let own = own_name(alloc, name, n)?;
        match folder.create_new(own.as_str(), mode) {
            Ok(output) => return Ok(Some((output, own))),
            Err(e) if bars(e.kind()) => return Ok(None),
            Err(e) if is_taken(e.kind()) => {}
            Err(e) => return Err(e),
        }
    }
    Ok(None)
}
