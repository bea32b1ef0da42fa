//! What is asked of a folder: each method is one call.

ghost use Rattle.std.specs.Prelude.{◌≡◌, ℕ, List, [], ◌∷◌, ◌++◌, Option, Some, true, false, is_some, IfOk, IfSome, OnOk};
ghost use Rattle.host_port.specs.Act.{file_content, has_file};
ghost use Rattle.host_port.specs.Outside.{Becomes};
ghost use Rattle.system_host.specs.Told.{bytes_of};
ghost use Rattle.folder_system.specs.Found.{bars_found, attributes_found, is_owned, is_like, is_still, IsFoundFrom, IsFoundIn};
ghost use Rattle.folder_system.specs.Events.{History, Answer, Looked, Made, LookedAt, Opened, Copied, Synced, Renamed, Removed, FolderOpened, NamesSynced, after, answer_of, found_by};

use std::fs::Metadata;
use std::io;
use std::io::{ErrorKind, Read, Write};
use std::os::unix::fs::MetadataExt;

/// What stands at a name.
#[derive(Clone, Copy)]
pub enum Found {
    Nothing,
    /// A regular file.
    File(Attributes),
    /// A link, a folder, a device, a pipe.
    Other,
}

/// Which file it is, and what a file that takes its place has to have too; and how many names it has.
#[derive(Clone, Copy)]
pub struct Attributes {
    pub device: u64,
    pub inode: u64,
    pub mode: u32,
    pub owner: u32,
    pub group: u32,
    pub links: u64,
}

/// The bits of a mode above those of permission: set-user-ID, set-group-ID and sticky.
const SPECIAL_BITS: u32 = 0o7000;

/// The bit of a mode by which the owner may write.
const OWNER_WRITES: u32 = 0o200;

/// Whether what was found bars an output from standing beside it: it is no regular file, or has several names
/// or a special bit, or its owner mayn't write it.
pub fn is_in_the_way(found: Found) -> bool
    ensures { result ≡ bars_found found }
{
    match found {
        Found::Nothing => false,
        Found::File(attributes) => {
            attributes.links > 1
                || attributes.mode & SPECIAL_BITS > 0
                || attributes.mode & OWNER_WRITES == 0
        }
        Found::Other => true,
    }
}

/// The attributes of the file that was found.
pub fn attributes_of(found: Found) -> Option<Attributes>
    ensures { result ≡ attributes_found found }
{
    match found {
        Found::File(attributes) => Some(attributes),
        _ => None,
    }
}

/// Whether a file has the owner of the old one.
pub fn is_owned(seen: Found, old: Attributes) -> bool
    ensures { result ≡ is_owned seen old }
{
    match seen {
        Found::File(new) => new.owner == old.owner,
        _ => false,
    }
}

/// Whether a file has the device, the owner, the group and the mode of the old one.
pub fn is_like(seen: Found, old: Attributes) -> bool
    ensures { result ≡ is_like seen old }
{
    match seen {
        Found::File(new) => {
            new.device == old.device
                && new.owner == old.owner
                && new.group == old.group
                && new.mode == old.mode
        }
        _ => false,
    }
}

/// Whether there stands what was found before: the old file, as it was, or nothing.
pub fn is_still(seen: Found, old: Option<Attributes>) -> bool
    ensures { result ≡ is_still seen old }
{
    match (seen, old) {
        (Found::Nothing, None) => true,
        (Found::File(now), Some(old)) => {
            now.inode == old.inode && now.links == old.links && is_like(seen, old)
        }
        _ => false,
    }
}

/// What a look found: where nothing stands, the system's error says so.
pub fn found_from(looked: io::Result<Metadata>) -> io::Result<Found>
    ensures { IsFoundFrom looked result }
{
    match looked {
        Ok(known) => Ok(found_in(&known)),
        Err(e) if e.kind() == ErrorKind::NotFound => Ok(Found::Nothing),
        Err(e) => Err(e),
    }
}

/// A regular file with what is known of it, or something else.
fn found_in(known: &Metadata) -> Found
    ensures { IsFoundIn known.now result }
{
    if !known.is_file() {
        return Found::Other;
    }
    Found::File(Attributes {
        device: known.dev(),
        inode: known.ino(),
        mode: known.mode(),
        owner: known.uid(),
        group: known.gid(),
        links: known.nlink(),
    })
}

/// A folder, as far as an output needs it.
///
/// Somebody else may be able to change the folder, or one above it, so that a name means another file at each call. Only
/// an open file stays the same one: `look_at`, `copy` and `sync` take it, and no name. The other calls take names, since
/// std has none of them for an open folder. What they allow somebody who changes names between them:
///
/// - `open_over` may write to another file, through a link or another folder. So does `>`.
/// - `create_new` may make an empty file in another folder, and `remove` take one away there, but only by the name
///   `.NAME.rvgprof-N`. A file that is made belongs to the user who runs the program, and `>` makes files there too.
/// - `rename` may act in another folder, if `create_new` did and the look between them doesn't see it: the names are
///   exchanged three times, each time between two calls. Then what was written stands at the name there, as after
///   `>`, but in a new file of the same user. Its permissions are then those of the file that was found, or of a new
///   one, where `>` leaves those of the file that it writes over.
/// - `open` may read another file, as any program's does.
///
/// No call takes an owner or a group, or the mode of a file that exists, so none can give a file or rights to a file
/// away. And no output gets other bytes than those that were written to it.
///
/// Contracts see what it tells: its regular files, and the calls so far with their answers. It may stop
/// telling at any call, and then never tells again: where a call that failed may have changed a name, where
/// two names are of one file, where a link or a device is opened. The bytes that were written to an output are
/// in its file once it is synced, or where there is nothing to sync.
pub trait Folder {
    type Input: Read + Drop;

    type Output: Write + Drop;

    /// An open folder.
    type Handle: Drop;

    ghost history: { Self → Option History };

    /// That opening a name to be read is answered so. Only a call tells it.
    ghost answers: { Self → List ℕ → Answer → Type 0 };

    /// Opens the named file to be read from its beginning.
    fn open(&self, name: &str) -> io::Result<Self::Input>
        ensures content { IfOk result (λ input. IfSome (history self.now)
            (λ h. bytes_of (Self.Input.remaining input) ≡ file_content name.now h.files)) }
        ensures answered { answers self.now name.now (answer_of result) };

    /// Looks up what stands at a name.
    fn look(&mut self, name: &str) -> io::Result<Found>
        ensures { Becomes (after (Looked name.now (found_by result))) (history self.old) (history self.new) };

    /// Makes a new file with this mode, less what the process masks, and opens it to be written, and to be read
    /// again.
    fn create_new(&mut self, name: &str, mode: u32) -> io::Result<Self::Output>
        ensures done { Becomes (after (Made name.now mode (answer_of result))) (history self.old) (history self.new) }
        ensures fresh { OnOk result (IfSome (history self.old) (λ h. has_file name.now h.files ≡ false)) }
        ensures empty { IfOk result (λ output. IfSome (history self.new)
            (λ _. bytes_of (Self.Output.contents output) ≡ [])) };

    /// Looks at an open file, by no name.
    fn look_at(&mut self, output: &Self::Output) -> io::Result<Found>
        ensures { Becomes (after (LookedAt (found_by result))) (history self.old) (history self.new) };

    /// Makes what stands at a name empty, or a new file, and opens it to be written.
    fn open_over(&mut self, name: &str) -> io::Result<Self::Output>
        ensures done { Becomes (after (Opened name.now (answer_of result))) (history self.old) (history self.new) }
        ensures empty { IfOk result (λ output. IfSome (history self.new)
            (λ _. bytes_of (Self.Output.contents output) ≡ [])) };

    /// Writes to an output all that was written to a new file, which is read by no name. How much of it was
    /// written before an error isn't said.
    fn copy(&mut self, new: &Self::Output, output: &mut Self::Output) -> io::Result<u64>
        ensures done { Becomes (after (Copied (answer_of result))) (history self.old) (history self.new) }
        ensures all { OnOk result (IfSome (history self.new) (λ _. bytes_of (Self.Output.contents output.new)
            ≡ bytes_of (Self.Output.contents output.old) ++ bytes_of (Self.Output.contents new.now))) };

    /// Puts on the disk what was written to the output that was opened by this name.
    fn sync(&mut self, name: &str, output: &Self::Output) -> io::Result<()>
        ensures { Becomes
            (after (Synced name.now (bytes_of (Self.Output.contents output.now)) (answer_of result)))
            (history self.old) (history self.new) };

    /// Gives a file another name, in place of what stands there.
    fn rename(&mut self, from: &str, to: &str) -> io::Result<()>
        ensures { Becomes (after (Renamed from.now to.now (answer_of result))) (history self.old) (history self.new) };

    /// Takes a name away.
    fn remove(&mut self, name: &str) -> io::Result<()>
        ensures { Becomes (after (Removed name.now (answer_of result))) (history self.old) (history self.new) };

    /// Opens a folder.
    fn open_folder(&mut self, folder: &str) -> io::Result<Self::Handle>
        ensures { Becomes (after (FolderOpened folder.now (answer_of result))) (history self.old) (history self.new) };

    /// Puts on the disk which names the folder has that was opened by this name.
    fn sync_names(&mut self, folder: &str, handle: &Self::Handle) -> io::Result<()>
        ensures { Becomes (after (NamesSynced folder.now (answer_of result))) (history self.old) (history self.new) };

    /// What is left of an input is told where the folder tells.
    ghost told_inputs: { (f : Self) (input : Self.Input) → is_some (history f) ≡ true →
        is_some (Self.Input.remaining input) ≡ true };

    /// What was written to an output is told where the folder tells.
    ghost told_outputs: { (f : Self) (output : Self.Output) → is_some (history f) ≡ true →
        is_some (Self.Output.contents output) ≡ true };
}
