//! An output that stands beside the file whose place it takes.

ghost use Rattle.std.specs.Prelude.{◌≡◌, string_bytes, true, false, IfOk, OnErr, OnOk};
ghost use Rattle.system_host.specs.Told.{bytes_of};
ghost use Rattle.folder_system.specs.Events.{Follows};
ghost use Rattle.folder_system.specs.Place.{IsAway, IsHalf, IsHalted, IsLost, IsNotStored, IsOver, IsPut, IsSettling, IsStored, IsTaken};

use crate::folder::{Attributes, Folder, is_still};
use crate::kinds::{cannot_sync, holds_name};
use crate::names::folder_of;
use std::io;

/// The names of an output that stands beside the file whose place it takes. It isn't dropped: it takes the
/// place or is taken away.
pub struct Beside {
    own: String,
    name: String,
    // What stood at the name before.
    old: Option<Attributes>,
    // Whether the output is like what stood there, or nothing did.
    takes: bool,
}

/// How the named file came to have what was written.
#[derive(Clone, Copy)]
pub enum Taken {
    /// The file beside has the name.
    ByName,
    /// The name is held, and its file was written in place.
    ByCopy,
}

/// Whether the file beside has the name.
#[derive(Clone, Copy)]
enum Naming {
    Done,
    /// The file beside isn't like the old one, or what stands there isn't what was found before, or no other file can
    /// have the name.
    Held,
}

impl Beside {
    pub(crate) fn new(own: String, name: String, old: Option<Attributes>, takes: bool) -> Beside
        ensures own { string_bytes result.own ≡ string_bytes own }
        ensures name { string_bytes result.name ≡ string_bytes name }
        ensures old { result.old ≡ old }
        ensures takes { result.takes ≡ takes }
    {
        Beside {
            own,
            name,
            old,
            takes,
        }
    }

    /// Takes the place of the file of its name. Where that is held, or not what was found before, or unlike the file
    /// beside, what stands there is written in place, once what was written stands on the disk. After an error nothing
    /// is left beside, unless it can't be taken away.
    pub fn take_place<F: Folder>(self, folder: &mut F, output: &F::Output) -> io::Result<Taken>
        ensures taken { IfOk result (λ taken. Follows (IsTaken self.old self.takes (string_bytes self.own) (string_bytes self.name)
            (bytes_of (F.Output.contents output.now)) taken) (F.history folder.old) (F.history folder.new)) }
        ensures lost { OnErr result (Follows (IsLost self.old self.takes (string_bytes self.own) (string_bytes self.name)
            (bytes_of (F.Output.contents output.now))) (F.history folder.old) (F.history folder.new)) }
    {
        let Beside {
            own,
            name,
            old,
            takes,
        } = self;
        match put(folder, output, own.as_str(), name.as_str(), old, takes) {
            Ok(Naming::Done) => {
                settle(folder, name.as_str())?;
                Ok(Taken::ByName)
            }
            Ok(Naming::Held) => match copy_over(folder, output, name.as_str()) {
                Ok(()) => {
                    let _ = folder.remove(own.as_str());
                    Ok(Taken::ByCopy)
                }
                Err(e) => {
                    let _ = folder.remove(own.as_str());
                    Err(e)
                }
            },
            Err(e) => {
                let _ = folder.remove(own.as_str());
                Err(e)
            }
        }
    }

    /// Takes the output away.
    pub fn remove<F: Folder>(self, folder: &mut F)
        ensures { Follows (IsAway (string_bytes self.own)) (F.history folder.old) (F.history folder.new) }
    {
        let Beside {
            own,
            name: _name,
            old: _old,
            takes: _takes,
        } = self;
        let _ = folder.remove(own.as_str());
    }
}

/// Stores the output and gives it the name, if it takes the name and what was found before stands there.
fn put<F: Folder>(
    folder: &mut F,
    output: &F::Output,
    own: &str,
    name: &str,
    old: Option<Attributes>,
    takes: bool,
) -> io::Result<Naming>
    ensures put { IfOk result (λ put. Follows (IsPut old takes own.now name.now
        (bytes_of (F.Output.contents output.now)) put) (F.history folder.old) (F.history folder.new)) }
    ensures halted { OnErr result (Follows (IsHalted old takes own.now name.now
        (bytes_of (F.Output.contents output.now))) (F.history folder.old) (F.history folder.new)) }
{
    store(folder, own, output)?;
    if !takes {
        return Ok(Naming::Held);
    }
    let seen = folder.look(name)?;
    if !is_still(seen, old) {
        return Ok(Naming::Held);
    }
    match folder.rename(own, name) {
        Ok(()) => Ok(Naming::Done),
        Err(e) if holds_name(e.kind()) => Ok(Naming::Held),
        Err(e) => Err(e),
    }
}

/// Writes what stands at the name in place with what was written to the new file.
fn copy_over<F: Folder>(folder: &mut F, new: &F::Output, name: &str) -> io::Result<()>
    ensures over { OnOk result (Follows (IsOver name.now (bytes_of (F.Output.contents new.now)))
        (F.history folder.old) (F.history folder.new)) }
    ensures not_over { OnErr result (Follows (IsHalf name.now (bytes_of (F.Output.contents new.now)))
        (F.history folder.old) (F.history folder.new)) }
{
    let mut output = folder.open_over(name)?;
    folder.copy(new, &mut output)?;
    store(folder, name, &output)
}

/// Puts an output on the disk, where there is anything to sync.
pub fn store<F: Folder>(folder: &mut F, name: &str, output: &F::Output) -> io::Result<()>
    ensures stored { OnOk result (Follows (IsStored name.now (bytes_of (F.Output.contents output.now)))
        (F.history folder.old) (F.history folder.new)) }
    ensures not_stored { OnErr result (Follows (IsNotStored name.now (bytes_of (F.Output.contents output.now)))
        (F.history folder.old) (F.history folder.new)) }
{
    match folder.sync(name, output) {
        Ok(()) => Ok(()),
        Err(e) if cannot_sync(e.kind()) => Ok(()),
        Err(e) => Err(e),
    }
}

/// Puts on the disk that the file has the name, where the folder can be opened and there is anything to sync.
fn settle<F: Folder>(folder: &mut F, name: &str) -> io::Result<()>
    ensures settled { OnOk result (Follows (IsSettling name.now true) (F.history folder.old) (F.history folder.new)) }
    ensures failed { OnErr result (Follows (IsSettling name.now false) (F.history folder.old) (F.history folder.new)) }
{
    let names = folder_of(name);
    match folder.open_folder(names) {
        Ok(handle) => match folder.sync_names(names, &handle) {
            Ok(()) => Ok(()),
            Err(e) if cannot_sync(e.kind()) => Ok(()),
            Err(e) => Err(e),
        },
        Err(_) => Ok(()),
    }
}
