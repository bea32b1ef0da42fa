//! The folders and the outputs of the system: each method is one call of std, but `copy`, which begins at the file's
//! beginning. Where std keeps names or what it copies in the frame, it isn't inlined.

ghost use Rattle.std.specs.Prelude.{None, ⊤};
ghost use Rattle.std.specs.Io.{WritesAtMost};

use folder_system::folder::found_from;
use folder_system::{Folder, FolderSystem, Found, Printer};
use std::alloc::AllocError;
use std::fs::{File, OpenOptions};
use std::io::{Seek, Write};
use std::os::unix::fs::OpenOptionsExt;
use std::{fs, io};

/// The system.
pub type RealSystem = FolderSystem<RealFolder, RealPrinter>;

pub fn real_system(rt: HostRuntime) -> Result<RealSystem, AllocError> {
    let printer = RealPrinter { rt: rt.clone()? };
    Ok(FolderSystem::new(rt.alloc(), RealFolder { rt }, printer))
}

/// The files of the system. It tells nothing.
#[derive(Drop)]
pub struct RealFolder {
    rt: HostRuntime,
}

impl Folder for RealFolder {
    type Input = File;

    type Output = File;

    type Handle = File;

    ghost history = { λ _. None };

    ghost answers = { λ _ _ _. ⊤ };

    ghost told_inputs = { λ f input told. Prim.cc };

    ghost told_outputs = { λ f output told. Prim.cc };

    fn open(&self, name: &str) -> io::Result<File> {
        fs::open(&self.rt, name)
    }

    #[inline(never)]
    fn look(&mut self, name: &str) -> io::Result<Found> {
        found_from(fs::symlink_metadata(&self.rt, name))
    }

    fn create_new(&mut self, name: &str, mode: u32) -> io::Result<File> {
        OpenOptions::new()
            .read(true)
            .write(true)
            .create_new(true)
            .mode(mode)
            .open(&self.rt, name)
    }

    #[inline(never)]
    fn look_at(&mut self, output: &File) -> io::Result<Found> {
        found_from(output.metadata())
    }

    fn open_over(&mut self, name: &str) -> io::Result<File> {
        fs::create(&self.rt, name)
    }

    #[inline(never)]
    fn copy(&mut self, new: &File, output: &mut File) -> io::Result<u64> {
        let mut new = new;
        new.rewind()?;
        io::copy(&mut new, output)
    }

    fn sync(&mut self, _name: &str, output: &File) -> io::Result<()> {
        output.sync_all()
    }

    #[inline(never)]
    fn rename(&mut self, from: &str, to: &str) -> io::Result<()> {
        fs::rename(&self.rt, from, to)
    }

    #[inline(never)]
    fn remove(&mut self, name: &str) -> io::Result<()> {
        fs::remove_file(&self.rt, name)
    }

    fn open_folder(&mut self, folder: &str) -> io::Result<File> {
        fs::open(&self.rt, folder)
    }

    fn sync_names(&mut self, _folder: &str, handle: &File) -> io::Result<()> {
        handle.sync_all()
    }
}

/// Both outputs of the system. It tells nothing.
#[derive(Drop)]
pub struct RealPrinter {
    rt: HostRuntime,
}

impl Printer for RealPrinter {
    ghost printed = { λ _. None };

    ghost complained = { λ _. None };

    fn out(&mut self, piece: &[u8]) -> io::Result<usize> {
        self.rt.stdout().write(piece)
    }

    fn err(&mut self, piece: &[u8]) -> io::Result<usize> {
        self.rt.stderr().write(piece)
    }
}
