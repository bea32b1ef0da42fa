//! A host that never fails.

ghost use Rattle.std.specs.Prelude.{◌≡◌, ◌==◌, ◌<◌, [], true, false, length, min, drop, unwrap_or, option_map, Some, None, IsOk, IfOk, IfSome, OnOk, OnErr};
ghost use Rattle.host_port.specs.Act.{Write, Out, Err as Complain, file_content, next_count, with_file};
ghost use Rattle.host_port.specs.Host.{Came, Opens, Moves, Creates, Takes, Closes, Reads, Writes, Complains};
ghost use Rattle.host_port.specs.Never.{outside_of, is_consistent};

use crate::files;
use crate::files::{Entry, Place};
use crate::host::{Failed, Host};
use std::alloc::{AllocError, Global};
use std::marker::Model;

/// Input files in memory. A missing file reads as an empty one, what is written or printed is dropped,
/// and no call fails. It tells its files until its first `create_output`, and no output. The seven
/// calls of the trait take no memory.
#[derive(Drop)]
pub struct NeverFails {
    alloc: Global,
    entries: Vec<Entry>,
    input: Option<Place>,
    at_end: bool,
    tells: bool,
    is_writing: bool,
    opened: u64,
    file_changes: u64,
}

impl Model for NeverFails {
    ghost use Rattle.host_port.specs.Never.{Never, rest_in};
    ghost use Rattle.host_port.specs.Entries.{files_of};

    ghost Value = { Never };

    ghost view = { λ a. record {
      files = files_of a.entries.items;
      rest = rest_in (files_of a.entries.items) a.input;
      at_end = a.at_end;
      tells = a.tells;
      is_writing = a.is_writing;
      opened = a.opened;
      file_changes = a.file_changes;
    } };
}

impl NeverFails {
    /// A host with no files, which takes no memory yet.
    pub fn new(alloc: Global) -> NeverFails
        ensures { result ≡ record {
          files = [];
          rest = None;
          at_end = false;
          tells = true;
          is_writing = false;
          opened = 0;
          file_changes = 0;
        } }
    {
        NeverFails {
            alloc,
            entries: Vec::new(alloc),
            input: None,
            at_end: false,
            tells: true,
            is_writing: false,
            opened: 0,
            file_changes: 0,
        }
    }

    /// Gives the named file these bytes. An input that is open is closed.
    pub fn put(&mut self, name: &str, bytes: &[u8]) -> Result<(), AllocError>
        ensures done { OnOk result
            (self.new ≡ record self.old {
              files = with_file name.now bytes.now
                  self.old.files;
              rest = None;
            }) }
        ensures unchanged { OnErr result (self.new ≡ self.old) }
    {
        let bytes = Vec::from_slice(self.alloc, bytes)?;
        files::set(self.alloc, &mut self.entries, name, bytes)?;
        self.input = None;
        Ok(())
    }
}

impl Host for NeverFails {
    ghost outside = { outside_of };

    ghost consistent = { is_consistent };

    fn open_input(&mut self, name: &str) -> Result<(), Failed>
        requires { (outside_of self.old).is_writing ≡ false }
        ensures opens { Opens name.now (outside_of self.old) (outside_of self.new) result }
        ensures counts { Reads (outside_of self.old) (outside_of self.new) result }
        ensures succeeds { IsOk result }
        ensures after { self.new ≡ record self.old {
          rest = Some (file_content name.now self.old.files);
          at_end = false;
          opened = next_count self.old.opened;
        } }
    {
        self.opened = self.opened.saturating_add(1);
        self.input = Some(files::start_of(self.entries.as_slice(), name));
        self.at_end = false;
        Ok(())
    }

    fn read(&mut self, buf: &mut [u8]) -> Result<usize, Failed>
        requires is_open { (outside_of self.old).is_open ≡ true }
        requires going { (outside_of self.old).at_end ≡ false }
        requires some_room { 0 < length buf.old }
        ensures moves { Moves buf.old buf.new (outside_of self.old) (outside_of self.new) result }
        ensures counts { Reads (outside_of self.old) (outside_of self.new) result }
        ensures succeeds { IsOk result }
        ensures whole { IfOk result (λ n. n ≡ min (length buf.old)
            (length (unwrap_or self.old.rest []))) }
        ensures came { IfOk result (λ n. IfSome self.old.rest (λ rest. Came n rest buf.new)) }
        ensures after { IfOk result (λ n. self.new ≡ record self.old {
          rest = option_map (drop n) self.old.rest;
          at_end = n == 0;
        }) }
    {
        let n = match &mut self.input {
            Some(place) => files::read_from(self.entries.as_slice(), place, buf),
            None => 0,
        };
        self.at_end = n == 0;
        Ok(n)
    }

    fn create_output(&mut self, _name: &str) -> Result<(), Failed>
        requires { (outside_of self.old).is_writing ≡ false }
        ensures creates { Creates _name.now (outside_of self.old) (outside_of self.new) result }
        ensures counts { Writes (outside_of self.old) (outside_of self.new) result }
        ensures succeeds { IsOk result }
        ensures after { self.new ≡ record self.old {
          rest = None;
          tells = false;
          is_writing = true;
          file_changes = next_count self.old.file_changes;
        } }
    {
        self.input = None;
        self.tells = false;
        self.is_writing = true;
        self.file_changes = self.file_changes.saturating_add(1);
        Ok(())
    }

    fn write(&mut self, piece: &[u8]) -> Result<usize, Failed>
        requires is_writing { (outside_of self.old).is_writing ≡ true }
        requires some_bytes { 0 < length piece.now }
        ensures takes { Takes Write piece.now (outside_of self.old) (outside_of self.new) result }
        ensures counts { Writes (outside_of self.old) (outside_of self.new) result }
        ensures succeeds { result ≡ Ok (length piece.now) }
        ensures after { self.new ≡ self.old }
    {
        Ok(piece.len())
    }

    fn close_output(&mut self) -> Result<(), Failed>
        ensures closes { Closes (outside_of self.old) (outside_of self.new) }
        ensures counts { Writes (outside_of self.old) (outside_of self.new) result }
        ensures succeeds { IsOk result }
        ensures after { self.new ≡ record self.old
            { is_writing = false; file_changes = next_count self.old.file_changes } }
    {
        self.is_writing = false;
        self.file_changes = self.file_changes.saturating_add(1);
        Ok(())
    }

    fn out(&mut self, piece: &[u8]) -> Result<usize, Failed>
        requires { 0 < length piece.now }
        ensures takes { Takes Out piece.now (outside_of self.old) (outside_of self.new) result }
        ensures counts { Writes (outside_of self.old) (outside_of self.new) result }
        ensures succeeds { result ≡ Ok (length piece.now) }
        ensures after { self.new ≡ self.old }
    {
        Ok(piece.len())
    }

    fn err(&mut self, piece: &[u8]) -> Result<usize, Failed>
        requires { 0 < length piece.now }
        ensures takes { Takes Complain piece.now (outside_of self.old)
            (outside_of self.new) result }
        ensures counts { Complains (outside_of self.old) (outside_of self.new) result }
        ensures last { (outside_of self.new).last_failed ≡ (outside_of self.old).last_failed }
        ensures succeeds { result ≡ Ok (length piece.now) }
        ensures after { self.new ≡ self.old }
    {
        Ok(piece.len())
    }
}
