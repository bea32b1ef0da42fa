//! The host over a system.

ghost use Rattle.std.specs.Prelude.{◌≡◌, ◌<◌, true, false, [], ◌∷◌, ◌++◌, length, Some, None, is_ok, IfSome, MatchOption, OnErr};
ghost use Rattle.host_port.specs.Act.{Write, Out, Err as Complain, next_count};
ghost use Rattle.host_port.specs.Outside.{Becomes, Rose};
ghost use Rattle.host_port.specs.Host.{Opens, Moves, Creates, Takes, Closes, Reads, Writes, Complains};
ghost use Rattle.system_host.specs.Told.{Created, Closed};
ghost use Rattle.system_host.specs.Seen.{outside_of, is_consistent};

use crate::parts::{moved, some_taken, written};
use crate::system::System;
use host_port::{Failed, Host};
use std::marker::Model;

/// A system with one input and one output open. It loops over nothing and counts each error. A write of
/// no bytes is an error. Once a write failed it tells the files no more: what stands in the file that was
/// being written is the system's business.
#[derive(Drop)]
pub struct SystemHost<S: System> {
    system: S,
    input: Option<S::Input>,
    // A read has come to the end of the input.
    at_end: bool,
    output: Option<S::Output>,
    read_faults: u64,
    write_faults: u64,
    err_faults: u64,
    opened: u64,
    file_changes: u64,
    // Whether the last call failed that doesn't complain.
    last_failed: bool,
    // No write failed.
    tells: bool,
}

impl<S: System> Model for SystemHost<S> {
    ghost use Rattle.std.specs.Prelude.{option_map, None, if◌then◌else◌};
    ghost use Rattle.system_host.specs.Told.{bytes_of};
    ghost use Rattle.system_host.specs.Seen.{Seen};

    ghost Value = { Seen };

    ghost view = { λ a. record {
      disk = if a.tells then S.disk a.system else None;
      out = S.printed a.system;
      err = S.complained a.system;
      changes = S.changes a.system;
      input = option_map (λ i. bytes_of (S.Input.remaining i)) a.input;
      at_end = a.at_end;
      output = option_map (λ o. bytes_of (S.Output.contents o)) a.output;
      read_faults = a.read_faults;
      write_faults = a.write_faults;
      err_faults = a.err_faults;
      opened = a.opened;
      file_changes = a.file_changes;
      last_failed = a.last_failed;
    } };
}

impl<S: System> SystemHost<S> {
    /// A host with nothing open.
    pub fn new(system: S) -> SystemHost<S>
        ensures { result ≡ record {
          disk = S.disk system;
          out = S.printed system;
          err =
              S.complained system;
          changes = S.changes system;
          input = None;
          at_end = false;
          output = None;
          read_faults = 0;
          write_faults = 0;
          err_faults = 0;
          opened = 0;
          file_changes = 0;
          last_failed = false;
        } }
    {
        SystemHost {
            system,
            input: None,
            at_end: false,
            output: None,
            read_faults: 0,
            write_faults: 0,
            err_faults: 0,
            opened: 0,
            file_changes: 0,
            last_failed: false,
            tells: true,
        }
    }

    /// The system as it is, once the input and the output are let go.
    pub fn end(self) -> S
        ensures disk { IfSome self.disk (λ d. S.disk result ≡ Some d) }
        ensures out { S.printed result ≡ self.out }
        ensures err { S.complained result ≡ self.err }
        ensures changes { S.changes result ≡ self.changes }
    {
        let SystemHost {
            system,
            input: _input,
            at_end: _,
            output: _output,
            read_faults: _,
            write_faults: _,
            err_faults: _,
            opened: _,
            file_changes: _,
            last_failed: _,
            tells: _,
        } = self;
        system
    }

    fn read_failed(&mut self) -> Failed
        ensures counted { self.new ≡ record self.old
            { read_faults = next_count self.old.read_faults; last_failed = true } }
        ensures rose { Rose self.old.read_faults self.new.read_faults }
    {
        self.read_faults = self.read_faults.saturating_add(1);
        self.last_failed = true;
        Failed
    }

    fn write_failed(&mut self) -> Failed
        ensures counted { self.new ≡ record self.old
            { write_faults = next_count self.old.write_faults; last_failed = true } }
        ensures rose { Rose self.old.write_faults self.new.write_faults }
    {
        self.write_faults = self.write_faults.saturating_add(1);
        self.last_failed = true;
        Failed
    }

    fn err_failed(&mut self) -> Failed
        ensures counted { self.new ≡ record self.old
            { err_faults = next_count self.old.err_faults } }
        ensures rose { Rose self.old.err_faults self.new.err_faults }
    {
        self.err_faults = self.err_faults.saturating_add(1);
        Failed
    }
}

impl<S: System> Host for SystemHost<S> {
    ghost outside = { outside_of };

    ghost consistent = { is_consistent };

    fn open_input(&mut self, name: &str) -> Result<(), Failed>
        requires { (outside_of self.old).is_writing ≡ false }
        ensures opens { Opens name.now (outside_of self.old) (outside_of self.new) result }
        ensures counts { Reads (outside_of self.old) (outside_of self.new) result }
        ensures same { self.new.changes ≡ self.old.changes }
    {
        self.input = None;
        self.at_end = false;
        self.opened = self.opened.saturating_add(1);
        self.last_failed = false;
        match self.system.open(name) {
            Ok(input) => {
                self.input = Some(input);
                Ok(())
            }
            Err(_) => Err(self.read_failed()),
        }
    }

    fn read(&mut self, buf: &mut [u8]) -> Result<usize, Failed>
        requires is_open { (outside_of self.old).is_open ≡ true }
        requires going { (outside_of self.old).at_end ≡ false }
        requires some_room { 0 < length buf.old }
        ensures moves { Moves buf.old buf.new (outside_of self.old) (outside_of self.new) result }
        ensures counts { Reads (outside_of self.old) (outside_of self.new) result }
        ensures same { self.new.changes ≡ self.old.changes }
    {
        self.last_failed = false;
        match moved(&mut self.input, buf) {
            Some(n) => {
                self.at_end = n == 0;
                Ok(n)
            }
            None => Err(self.read_failed()),
        }
    }

    fn create_output(&mut self, name: &str) -> Result<(), Failed>
        requires { (outside_of self.old).is_writing ≡ false }
        ensures creates { Creates name.now (outside_of self.old) (outside_of self.new) result }
        ensures counts { Writes (outside_of self.old) (outside_of self.new) result }
        ensures changed { Becomes (λ changes. changes ++ Created name.now (is_ok result) ∷ [])
            self.old.changes self.new.changes }
    {
        self.input = None;
        self.output = None;
        self.last_failed = false;
        match self.system.create(name) {
            Ok(output) => {
                self.output = Some(output);
                self.file_changes = self.file_changes.saturating_add(1);
                Ok(())
            }
            Err(_) => Err(self.write_failed()),
        }
    }

    fn write(&mut self, piece: &[u8]) -> Result<usize, Failed>
        requires is_writing { (outside_of self.old).is_writing ≡ true }
        requires some_bytes { 0 < length piece.now }
        ensures takes { Takes Write piece.now (outside_of self.old) (outside_of self.new) result }
        ensures counts { Writes (outside_of self.old) (outside_of self.new) result }
        ensures stops { OnErr result ((outside_of self.new).disk ≡ None) }
        ensures same { self.new.changes ≡ self.old.changes }
    {
        self.last_failed = false;
        match written(&mut self.output, piece) {
            Some(n) => Ok(n),
            None => {
                self.tells = false;
                Err(self.write_failed())
            }
        }
    }

    fn close_output(&mut self) -> Result<(), Failed>
        ensures closes { Closes (outside_of self.old) (outside_of self.new) }
        ensures counts { Writes (outside_of self.old) (outside_of self.new) result }
        ensures changed { MatchOption self.old.output
            (self.new.changes ≡ self.old.changes)
            (λ bytes. Becomes (λ changes. changes ++ Closed bytes (is_ok result) ∷ [])
            self.old.changes self.new.changes) }
        ensures idle { self.old.output ≡ None → is_ok result ≡ true }
    {
        self.last_failed = false;
        self.file_changes = self.file_changes.saturating_add(1);
        let is_closed = match self.output.take() {
            Some(output) => self.system.close(output).is_ok(),
            None => true,
        };
        if is_closed {
            Ok(())
        } else {
            Err(self.write_failed())
        }
    }

    fn out(&mut self, piece: &[u8]) -> Result<usize, Failed>
        requires { 0 < length piece.now }
        ensures takes { Takes Out piece.now (outside_of self.old) (outside_of self.new) result }
        ensures counts { Writes (outside_of self.old) (outside_of self.new) result }
        ensures same { self.new.changes ≡ self.old.changes }
    {
        self.last_failed = false;
        match some_taken(self.system.out(piece)) {
            Some(n) => Ok(n),
            None => Err(self.write_failed()),
        }
    }

    fn err(&mut self, piece: &[u8]) -> Result<usize, Failed>
        requires { 0 < length piece.now }
        ensures takes { Takes Complain piece.now (outside_of self.old) (outside_of self.new) result }
        ensures counts { Complains (outside_of self.old) (outside_of self.new) result }
        ensures last { (outside_of self.new).last_failed ≡ (outside_of self.old).last_failed }
        ensures same { self.new.changes ≡ self.old.changes }
    {
        match some_taken(self.system.err(piece)) {
            Some(n) => Ok(n),
            None => Err(self.err_failed()),
        }
    }
}
