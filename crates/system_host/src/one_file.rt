//! A system in memory.

ghost use Rattle.std.specs.Prelude.{◌≡◌, [], ◌∷◌, Option, Some, None, option_map, is_ok, is_some, refl, string_bytes, IfOk, IfSome, OnOk, OnErr, false, true};
ghost use Rattle.std.specs.Io.{WritesAtMost};
ghost use Rattle.host_port.specs.Act.{Create, Write as Put, Close, disk_after, file_content};
ghost use Rattle.host_port.specs.Outside.{Becomes};
ghost use Rattle.system_host.specs.Told.{bytes_of, Prints};
ghost use Rattle.system_host.specs.OneFile.{disk_of};
ghost use Rattle.std.specs.Io.Cursor.{cursor_remaining};

use crate::system::System;
use std::alloc::Global;
use std::io;
use std::io::{Cursor, ErrorKind, Write};
use std::marker::Model;

/// A system of one file in memory, which tells all contents. Another file is missing and can't be made.
#[derive(Drop)]
pub struct OneFile {
    alloc: Global,
    name: String,
    bytes: Vec<u8>,
    is_writing: bool,
    out: Vec<u8>,
    err: Vec<u8>,
}

impl Model for OneFile {
    ghost use Rattle.std.specs.Prelude.{◌≡◌, true, [], string_bytes};
    ghost use Rattle.system_host.specs.OneFile.{Held};

    ghost Value = { Held };

    ghost view = { λ a. record {
      name = string_bytes a.name;
      bytes = a.bytes.items;
      is_writing = a.is_writing;
      out = a.out.items;
      err = a.err.items;
    } };

    ghost invariant = { λ a. a.is_writing ≡ true → a.bytes.items ≡ [] };
}

impl OneFile {
    /// A system whose file has these bytes.
    pub fn new(alloc: Global, name: String, bytes: Vec<u8>) -> OneFile
        ensures { result ≡ record {
          name = string_bytes name;
          bytes = bytes.items;
          is_writing =
              false;
          out = [];
          err = [];
        } }
    {
        OneFile {
            alloc,
            name,
            bytes,
            is_writing: false,
            out: Vec::new(alloc),
            err: Vec::new(alloc),
        }
    }

    /// What was printed on the output.
    pub fn printed(&self) -> &[u8]
        ensures { result.now ≡ self.now.out }
    {
        self.out.as_slice()
    }

    /// What was printed on the error output.
    pub fn errors(&self) -> &[u8]
        ensures { result.now ≡ self.now.err }
    {
        self.err.as_slice()
    }
}

impl System for OneFile {
    type Input = Cursor<Vec<u8>>;

    type Output = Vec<u8>;

    ghost disk = { λ s. Some (disk_of s) };

    ghost printed = { λ s. Some s.out };

    ghost complained = { λ s. Some s.err };

    ghost changes = { λ _. None };

    ghost told_inputs = { λ s input told. refl };

    ghost told_outputs = { λ s output told. refl };

    fn open(&self, name: &str) -> io::Result<Cursor<Vec<u8>>> {
        if self.name.as_str() != name {
            return Err(io::Error::from(ErrorKind::NotFound));
        }
        Ok(Cursor::new(Vec::from_slice(self.alloc, self.bytes.as_slice())?))
    }

    fn create(&mut self, name: &str) -> io::Result<Vec<u8>> {
        if self.name.as_str() != name {
            return Err(io::Error::from(ErrorKind::PermissionDenied));
        }
        self.bytes = Vec::new(self.alloc);
        self.is_writing = true;
        Ok(Vec::new(self.alloc))
    }

    fn close(&mut self, output: Vec<u8>) -> io::Result<()>
        ensures done { Becomes (disk_after (Put (bytes_of (Some output.items)) ∷ Close ∷ []))
            (Some (disk_of self.old)) (Some (disk_of self.new)) }
        ensures ok { is_ok result ≡ true }
        ensures out { Some self.new.out ≡ Some self.old.out }
        ensures err { Some self.new.err ≡ Some self.old.err }
    {
        if self.is_writing {
            self.bytes = output;
            self.is_writing = false;
        }
        Ok(())
    }

    fn out(&mut self, piece: &[u8]) -> io::Result<usize> {
        self.out.write(piece)
    }

    fn err(&mut self, piece: &[u8]) -> io::Result<usize> {
        self.err.write(piece)
    }
}
