//! The system for a host over a folder.

ghost use Rattle.std.specs.Prelude.{◌≡◌, ◌&&◌, ◌⊎◌, ℕ, List, Option, None, true, is_none, is_some, is_ok, is_err, [], ◌∷◌, option_map, IfErr, IfOk, IfSome, MatchOption, OnErr, OnOk};
ghost use Rattle.std.specs.Io.{WritesAtMost};
ghost use Rattle.std.specs.IoError.{error_kind};
ghost use Rattle.host_port.specs.Act.{Create, Write as Put, Close, disk_after, file_content};
ghost use Rattle.host_port.specs.Outside.{Becomes};
ghost use Rattle.system_host.specs.Told.{bytes_of, Prints};
ghost use Rattle.folder_system.specs.Disk.{shown, input_told};
ghost use Rattle.folder_system.specs.Events.{Follows, answer_of};
ghost use Rattle.folder_system.specs.Place.{HasCause, IsAfterLetGo, IsAnyPlaced, IsEnded, IsGivenUp, IsLetGo, IsWrittenInPlace, stands_beside};

use crate::beside::{Taken, store};
use crate::folder::Folder;
use crate::place::{Place, begin};
use std::alloc::Global;
use std::io::ErrorKind;
use std::{io, mem};
use system_host::System;

/// The output and the error output.
pub trait Printer {
    ghost printed: { Self → Option (List ℕ) };

    ghost complained: { Self → Option (List ℕ) };

    /// Prints a prefix of `piece` on the output, and answers how many bytes.
    fn out(&mut self, piece: &[u8]) -> io::Result<usize>
        ensures bound { WritesAtMost result piece.now }
        ensures out { Prints (printed self.old) (printed self.new) piece.now result }
        ensures err { complained self.new ≡ complained self.old };

    /// Prints a prefix of `piece` on the error output, and answers how many bytes.
    fn err(&mut self, piece: &[u8]) -> io::Result<usize>
        ensures bound { WritesAtMost result piece.now }
        ensures out { printed self.new ≡ printed self.old }
        ensures err { Prints (complained self.old) (complained self.new) piece.now result };
}

/// The system of a folder and a printer. It tells the folder's files, until an output is written in place or
/// a call fails that makes or closes one. It isn't dropped but ended, and an output that isn't closed then is
/// taken away.
pub struct FolderSystem<F: Folder, P: Printer> {
    alloc: Global,
    folder: F,
    printer: P,
    // Where the output stands that isn't closed yet.
    place: Option<Place>,
    tells: bool,
}

impl<F: Folder, P: Printer + Drop> FolderSystem<F, P> {
    pub fn new(alloc: Global, folder: F, printer: P) -> FolderSystem<F, P>
        ensures folder { result.folder ≡ folder }
        ensures printer { result.printer ≡ printer }
        ensures none { result.place ≡ None }
        ensures tells { result.tells ≡ true }
    {
        FolderSystem {
            alloc,
            folder,
            printer,
            place: None,
            tells: true,
        }
    }

    /// Takes away an output that isn't closed.
    pub fn end(self) -> (F, P)
        ensures gone { Follows (IsLetGo self.place) (F.history self.folder) (F.history result.0) }
        ensures printer { result.1 ≡ self.printer }
    {
        let FolderSystem {
            alloc: _alloc,
            mut folder,
            printer,
            place,
            tells: _tells,
        } = self;
        let_go(&mut folder, place);
        (folder, printer)
    }

    /// Takes away an output that isn't closed, and then tells no more.
    fn clear(&mut self)
        ensures none { self.new.place ≡ None }
        ensures gone { Follows (IsLetGo self.old.place) (F.history self.old.folder) (F.history self.new.folder) }
        ensures told { Becomes (disk_after []) (shown F.history self.old.tells self.old.place self.old.folder)
            (shown F.history self.new.tells self.new.place self.new.folder) }
        ensures tells { self.new.tells ≡ (self.old.tells && is_none self.old.place) }
        ensures same { self.new.printer ≡ self.old.printer }
    {
        let place = self.place.take();
        self.tells &= place.is_none();
        let_go(&mut self.folder, place);
    }
}

/// Takes away an output that stands beside.
fn let_go<F: Folder>(folder: &mut F, place: Option<Place>)
    ensures { Follows (IsLetGo place) (F.history folder.old) (F.history folder.new) }
{
    match place {
        Some(Place::Beside(beside)) => beside.remove(folder),
        Some(Place::In(_name)) => {}
        None => {}
    }
}

impl<F: Folder, P: Printer + Drop> System for FolderSystem<F, P> {
    type Input = F::Input;

    type Output = F::Output;

    ghost disk = { λ s. shown F.history s.tells s.place s.folder };

    ghost printed = { λ s. P.printed s.printer };

    ghost complained = { λ s. P.complained s.printer };

    ghost changes = { λ _. None };

    ghost told_inputs = { λ s input told. F.told_inputs s.folder input (input_told s.tells s.place (F.history s.folder) told) };

    ghost told_outputs = { λ s output told. F.told_outputs s.folder output (input_told s.tells s.place (F.history s.folder) told) };

    /// No file is opened while an output isn't closed.
    fn open(&self, name: &str) -> io::Result<F::Input>
        ensures told { IfOk result (λ input. IfSome
            (shown F.history self.now.tells self.now.place self.now.folder)
            (λ d. bytes_of (F.Input.remaining input) ≡ file_content name.now d.files)) }
        ensures content { IfOk result (λ input. IfSome (F.history self.now.folder)
            (λ h. bytes_of (F.Input.remaining input) ≡ file_content name.now h.files)) }
        ensures answered { MatchOption self.now.place
            (F.answers self.now.folder name.now (answer_of result)) (λ _. is_err result ≡ true) }
    {
        match &self.place {
            None => self.folder.open(name),
            Some(_) => Err(io::Error::from(ErrorKind::ResourceBusy)),
        }
    }

    /// An output that isn't closed is taken away first.
    fn create(&mut self, name: &str) -> io::Result<F::Output>
        ensures done { OnOk result (Becomes (disk_after (Create name.now ∷ []))
            (shown F.history self.old.tells self.old.place self.old.folder)
            (shown F.history self.new.tells self.new.place self.new.folder)) }
        ensures failed { OnErr result (Becomes (disk_after [])
            (shown F.history self.old.tells self.old.place self.old.folder)
            (shown F.history self.new.tells self.new.place self.new.folder)) }
        ensures empty { IfOk result (λ output. IfSome
            (shown F.history self.new.tells self.new.place self.new.folder)
            (λ _. bytes_of (F.Output.contents output) ≡ [])) }
        ensures out { P.printed self.new.printer ≡ P.printed self.old.printer }
        ensures err { P.complained self.new.printer ≡ P.complained self.old.printer }
        ensures begun { OnOk result (Follows (IsAfterLetGo self.old.place (IsAnyPlaced name.now self.new.place))
            (F.history self.old.folder) (F.history self.new.folder)) }
        ensures given_up { OnErr result (Follows (IsAfterLetGo self.old.place (IsGivenUp name.now))
            (F.history self.old.folder) (F.history self.new.folder)) }
        ensures none { OnErr result (self.new.place ≡ None) }
        ensures tells { OnOk result (self.new.tells
            ≡ ((self.old.tells && is_none self.old.place) && stands_beside self.new.place)) }
        ensures cause { IfErr result (λ e. HasCause (error_kind e) (F.history self.old.folder) (F.history self.new.folder)) }
    {
        self.clear();
        match begin(self.alloc, &mut self.folder, name) {
            Ok((output, place)) => {
                self.tells &= place.is_beside();
                let none = mem::replace(&mut self.place, Some(place));
                let_go(&mut self.folder, none);
                Ok(output)
            }
            Err(e) => {
                self.tells = false;
                Err(e)
            }
        }
    }

    fn close(&mut self, output: F::Output) -> io::Result<()>
        ensures done { Becomes (disk_after (Put (bytes_of (F.Output.contents output)) ∷ Close ∷ []))
            (shown F.history self.old.tells self.old.place self.old.folder)
            (shown F.history self.new.tells self.new.place self.new.folder) }
        ensures out { P.printed self.new.printer ≡ P.printed self.old.printer }
        ensures err { P.complained self.new.printer ≡ P.complained self.old.printer }
        ensures ended { Follows (IsEnded self.old.place (bytes_of (F.Output.contents output)) (is_ok result))
            (F.history self.old.folder) (F.history self.new.folder) }
        ensures none { self.new.place ≡ None }
        ensures tells { OnOk result ((self.new.tells ≡ self.old.tells)
            ⊎ Follows (IsWrittenInPlace self.old.place) (F.history self.old.folder) (F.history self.new.folder)) }
    {
        match self.place.take() {
            Some(Place::Beside(beside)) => match beside.take_place(&mut self.folder, &output) {
                Ok(Taken::ByName) => Ok(()),
                Ok(Taken::ByCopy) => {
                    self.tells = false;
                    Ok(())
                }
                Err(e) => {
                    self.tells = false;
                    Err(e)
                }
            },
            Some(Place::In(name)) => {
                self.tells = false;
                store(&mut self.folder, name.as_str(), &output)
            }
            None => Ok(()),
        }
    }

    fn out(&mut self, piece: &[u8]) -> io::Result<usize>
        ensures bound { WritesAtMost result piece.now }
        ensures out { Prints (P.printed self.old.printer) (P.printed self.new.printer) piece.now result }
        ensures err { P.complained self.new.printer ≡ P.complained self.old.printer }
        ensures disk { shown F.history self.new.tells self.new.place self.new.folder
            ≡ shown F.history self.old.tells self.old.place self.old.folder }
        ensures same { self.new.folder ≡ self.old.folder }
        ensures place { self.new.place ≡ self.old.place }
    {
        self.printer.out(piece)
    }

    fn err(&mut self, piece: &[u8]) -> io::Result<usize>
        ensures bound { WritesAtMost result piece.now }
        ensures out { P.printed self.new.printer ≡ P.printed self.old.printer }
        ensures err { Prints (P.complained self.old.printer) (P.complained self.new.printer) piece.now result }
        ensures disk { shown F.history self.new.tells self.new.place self.new.folder
            ≡ shown F.history self.old.tells self.old.place self.old.folder }
        ensures same { self.new.folder ≡ self.old.folder }
        ensures place { self.new.place ≡ self.old.place }
    {
        self.printer.err(piece)
    }
}
