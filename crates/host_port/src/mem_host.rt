//! A host in memory.

ghost use Rattle.std.specs.Prelude.{◌≡◌, ◌+◌, ◌-◌, ◌^◌, ◌<◌, ◌≤◌, ◌↔◌, ◌⊎◌, [], ◌∷◌, ◌++◌, true, false, length, min, take, drop, Some, None, unwrap_or, option_map, if◌then◌else◌, Contains, IsErr, IfOk, IfSome, IsTrue, OnOk, OnErr, MatchOption};
ghost use Rattle.host_port.specs.Act.{Write, Out, Err as Complain, file_content, has_file, with_file, files_with, next_count};
ghost use Rattle.host_port.specs.Outside.{Rose};
ghost use Rattle.host_port.specs.Host.{Came, Opens, Moves, Creates, Takes, Closes, Reads, Writes, Complains};
ghost use Rattle.host_port.specs.Memory.{empty_memory, first_failure, outside_of, is_consistent, IsFirstOf, IsMarked, Called, Tallies};

use crate::files;
use crate::files::{Entry, Place};
use crate::host::{Failed, Host};
use std::alloc::{AllocError, Global};
use std::marker::Model;

/// What a host does with files at the moment.
#[derive(Drop)]
pub(crate) enum Stage {
    Idle,
    Reading(Place),
    Writing(String),
}

/// A call of the trait, by its kind.
#[derive(Clone, Copy, Debug, PartialEq, Eq)]
pub enum HostCall {
    OpenInput,
    Read,
    CreateOutput,
    Write,
    CloseOutput,
    Out,
    ErrOut,
}

/// Files and outputs in memory, and a list of calls that are to fail.
///
/// Calls of the trait fail exactly where their number is on that list or the file to be opened is
/// missing, besides running out of memory, which counts as a fault of the call. `open_input`, `read` and
/// `close_output` take no memory.
#[derive(Drop)]
pub struct MemHost {
    alloc: Global,
    entries: Vec<Entry>,
    stage: Stage,
    // A read has come to the end of the input.
    at_end: bool,
    out: Vec<u8>,
    err: Vec<u8>,
    calls: u64,
    marks: Vec<u64>,
    // How many bytes a call moves at most.
    step: usize,
    first_failed: Option<HostCall>,
    read_faults: u64,
    write_faults: u64,
    err_faults: u64,
    opened: u64,
    file_changes: u64,
    last_failed: bool,
}

impl Model for MemHost {
    ghost use Rattle.host_port.specs.Memory.{Memory, rest_of, writing_of};
    ghost use Rattle.host_port.specs.Entries.{files_of};

    ghost Value = { Memory };

    ghost view = { λ a. record {
      files = files_of a.entries.items;
      rest = rest_of (files_of a.entries.items) a.stage;
      at_end = a.at_end;
      writing = writing_of a.stage;
      out = a.out.items;
      err = a.err.items;
      calls = a.calls;
      marks = a.marks.items;
      step = a.step;
      first_failed = a.first_failed;
      read_faults = a.read_faults;
      write_faults = a.write_faults;
      err_faults = a.err_faults;
      opened = a.opened;
      file_changes = a.file_changes;
      last_failed = a.last_failed;
    } };

    ghost use Rattle.std.specs.Prelude.{◌≤◌, ◌+◌};
    ghost use Rattle.host_port.specs.Memory.{IsFirstOf};

    ghost invariant = { λ a. (1 ≤ a.step) × IsFirstOf a.first_failed
        (a.read_faults + a.write_faults + a.err_faults) };
}

fn is_marked(marks: &[u64], call: u64) -> bool
    ensures { IsTrue result ↔ Contains marks.now call }
{
    marks.contains(&call)
}

impl MemHost {
    /// A host with no files, which takes no memory yet.
    pub fn new(alloc: Global) -> MemHost
        ensures { result ≡ empty_memory }
    {
        MemHost {
            alloc,
            entries: Vec::new(alloc),
            stage: Stage::Idle,
            at_end: false,
            out: Vec::new(alloc),
            err: Vec::new(alloc),
            calls: 0,
            marks: Vec::new(alloc),
            step: usize::MAX,
            first_failed: None,
            read_faults: 0,
            write_faults: 0,
            err_faults: 0,
            opened: 0,
            file_changes: 0,
            last_failed: false,
        }
    }

    /// Gives the named file these bytes. An input that is open is closed.
    pub fn put(&mut self, name: &str, bytes: &[u8]) -> Result<(), AllocError>
        ensures done { OnOk result
            (self.new ≡ record self.old {
              files = with_file name.now bytes.now
                  self.old.files;
              rest = None;
            }) }
        ensures unchanged { OnErr result (self.new ≡ self.old) }
    {
        let bytes = Vec::from_slice(self.alloc, bytes)?;
        files::set(self.alloc, &mut self.entries, name, bytes)?;
        if let Stage::Reading(_) = &self.stage {
            self.stage = Stage::Idle;
        }
        Ok(())
    }

    /// Marks a call of the trait that is to fail, by its number: all calls are counted together, from 0.
    pub fn fail_at(&mut self, call: u64) -> Result<(), AllocError>
        ensures marked { OnOk result
            (self.new ≡ record self.old { marks = self.old.marks ++ call ∷ [] }) }
        ensures unchanged { OnErr result (self.new ≡ self.old) }
    {
        self.marks.push(call)?;
        Ok(())
    }

    /// From now on `read`, `write`, `out` and `err` move at most `n` bytes each, where `n` is at least 1.
    pub fn set_step(&mut self, n: usize)
        requires { 1 ≤ n }
        ensures { self.new ≡ record self.old { step = n } }
    {
        self.step = n;
    }

    /// The kind of the first call of the trait that failed, `None` exactly where none did.
    pub fn first_failed(&self) -> Option<HostCall>
        ensures first { result ≡ self.now.first_failed }
        ensures some { IsFirstOf result (self.now.read_faults
            + self.now.write_faults + self.now.err_faults) }
    {
        self.first_failed
    }

    /// How many calls of the trait failed; it stays at 2^64 - 1.
    pub fn failures(&self) -> u64
        ensures { result ≡ min (self.now.read_faults + self.now.write_faults + self.now.err_faults)
            (2 ^ 64 - 1) }
    {
        self.read_faults
            .saturating_add(self.write_faults)
            .saturating_add(self.err_faults)
    }

    /// The bytes of the named file, `None` exactly where there is no such file.
    pub fn file(&self, name: &str) -> Option<&[u8]>
        ensures { MatchOption result
            (has_file name.now self.now.files ≡ false)
            (λ bytes. (has_file name.now self.now.files ≡ true)
            × (bytes.now ≡ file_content name.now self.now.files)) }
    {
        files::content(self.entries.as_slice(), name)
    }

    /// What was printed on the output.
    pub fn printed(&self) -> &[u8]
        ensures { result.now ≡ self.now.out }
    {
        self.out.as_slice()
    }

    /// What was printed on the error output.
    pub fn errors(&self) -> &[u8]
        ensures { result.now ≡ self.now.err }
    {
        self.err.as_slice()
    }

    /// Counts a call, and answers whether it is to fail.
    fn starts_call(&mut self) -> bool
        ensures fails { IsTrue result ↔ IsMarked self.old }
        ensures counted { self.new ≡ record self.old { calls = next_count self.old.calls } }
    {
        let fails = is_marked(self.marks.as_slice(), self.calls);
        self.calls = self.calls.saturating_add(1);
        fails
    }

    /// The same of a call that doesn't complain.
    fn starts_work(&mut self) -> bool
        ensures fails { IsTrue result ↔ IsMarked self.old }
        ensures counted { self.new ≡ record self.old
            { calls = next_count self.old.calls; last_failed = false } }
    {
        let fails = self.starts_call();
        self.last_failed = false;
        fails
    }

    fn read_failed(&mut self, call: HostCall) -> Failed
        ensures counted { self.new ≡ record self.old {
          read_faults = next_count self.old.read_faults;
          last_failed = true;
          first_failed = first_failure self.old.first_failed call;
        } }
        ensures rose { Rose self.old.read_faults self.new.read_faults }
    {
        self.read_faults = self.read_faults.saturating_add(1);
        self.last_failed = true;
        self.first_failed = self.first_failed.or(Some(call));
        Failed
    }

    fn write_failed(&mut self, call: HostCall) -> Failed
        ensures counted { self.new ≡ record self.old {
          write_faults = next_count self.old.write_faults;
          last_failed = true;
          first_failed = first_failure self.old.first_failed call;
        } }
        ensures rose { Rose self.old.write_faults self.new.write_faults }
    {
        self.write_faults = self.write_faults.saturating_add(1);
        self.last_failed = true;
        self.first_failed = self.first_failed.or(Some(call));
        Failed
    }

    fn err_failed(&mut self, call: HostCall) -> Failed
        ensures counted { self.new ≡ record self.old {
          err_faults = next_count self.old.err_faults;
          first_failed = first_failure self.old.first_failed call;
        } }
        ensures rose { Rose self.old.err_faults self.new.err_faults }
    {
        self.err_faults = self.err_faults.saturating_add(1);
        self.first_failed = self.first_failed.or(Some(call));
        Failed
    }

    /// Closes the input, if one is open.
    fn close_input(&mut self)
        ensures { self.new ≡ record self.old { rest = None } }
    {
        if let Stage::Reading(_) = &self.stage {
            self.stage = Stage::Idle;
        }
    }

    /// Opens the named file, if there is one, and answers whether there is.
    fn begin_reading(&mut self, name: &str) -> bool
        requires { self.old.writing ≡ None }
        ensures found { result ≡ has_file name.now self.old.files }
        ensures after { self.new ≡ record self.old {
          rest = if has_file name.now self.old.files then Some
              (file_content name.now self.old.files) else None;
        } }
    {
        match files::find(self.entries.as_slice(), name) {
            Some(file) => {
                self.stage = Stage::Reading(Place { file, at: 0 });
                true
            }
            None => {
                self.stage = Stage::Idle;
                false
            }
        }
    }

    /// What of a piece one call moves.
    fn front_of<'a>(&self, piece: &'a [u8]) -> &'a [u8]
        requires { 0 < length piece.now }
        ensures bytes { result.now ≡ take (length result.now) piece.now }
        ensures len { length result.now ≡ min (length piece.now) self.now.step }
        ensures some { 1 ≤ length result.now }
    {
        &piece[..piece.len().min(self.step)]
    }

    /// Moves bytes of the open input.
    fn take_rest(&mut self, buf: &mut [u8]) -> usize
        requires { 0 < length buf.old }
        ensures number { result ≡ min (min (length buf.old) self.old.step)
            (length (unwrap_or self.old.rest [])) }
        ensures came { IfSome self.old.rest (λ rest. Came result rest buf.new) }
        ensures after { self.new ≡ record self.old
            { rest = option_map (drop result) self.old.rest } }
    {
        let room = buf.len().min(self.step);
        match &mut self.stage {
            Stage::Reading(place) => {
                files::read_from(self.entries.as_slice(), place, &mut buf[..room])
            }
            _ => 0,
        }
    }

    fn begin_writing(&mut self, name: &str) -> Result<(), AllocError>
        ensures done { OnOk result (self.new ≡ record self.old {
          files = with_file name.now [] self.old.files;
          rest = None;
          writing = Some name.now;
          file_changes = next_count self.old.file_changes;
        }) }
        ensures unchanged { OnErr result (self.new ≡ self.old) }
    {
        let writing = String::from_str(self.alloc, name)?;
        files::set(self.alloc, &mut self.entries, name, Vec::new(self.alloc))?;
        self.stage = Stage::Writing(writing);
        self.file_changes = self.file_changes.saturating_add(1);
        Ok(())
    }

    fn append(&mut self, piece: &[u8]) -> Result<(), AllocError>
        ensures done { OnOk result (self.new ≡ record self.old {
          files = files_with piece.now self.old.writing self.old.files;
        }) }
        ensures unchanged { OnErr result (self.new ≡ self.old) }
    {
        match &self.stage {
            Stage::Writing(name) => files::append(&mut self.entries, name.as_str(), piece),
            _ => Ok(()),
        }
    }

    fn end_writing(&mut self)
        ensures { self.new ≡ record self.old
            { writing = None; file_changes = next_count self.old.file_changes } }
    {
        self.file_changes = self.file_changes.saturating_add(1);
        if let Stage::Writing(_) = &self.stage {
            self.stage = Stage::Idle;
        }
    }
}

impl Host for MemHost {
    ghost outside = { outside_of };

    ghost consistent = { is_consistent };

    fn open_input(&mut self, name: &str) -> Result<(), Failed>
        requires { (outside_of self.old).is_writing ≡ false }
        ensures opens { Opens name.now (outside_of self.old) (outside_of self.new) result }
        ensures counts { Reads (outside_of self.old) (outside_of self.new) result }
        ensures fails { IsErr result ↔ (IsMarked self.old
            ⊎ (has_file name.now self.old.files ≡ false)) }
        ensures called { Called HostCall.OpenInput self.old self.new result }
        ensures tally { Tallies (λ m. m.read_faults) self.old self.new result }
    {
        let fails = self.starts_work();
        self.opened = self.opened.saturating_add(1);
        self.close_input();
        self.at_end = false;
        if fails || !self.begin_reading(name) {
            return Err(self.read_failed(HostCall::OpenInput));
        }
        Ok(())
    }

    fn read(&mut self, buf: &mut [u8]) -> Result<usize, Failed>
        requires is_open { (outside_of self.old).is_open ≡ true }
        requires going { (outside_of self.old).at_end ≡ false }
        requires some_room { 0 < length buf.old }
        ensures moves { Moves buf.old buf.new (outside_of self.old) (outside_of self.new) result }
        ensures counts { Reads (outside_of self.old) (outside_of self.new) result }
        ensures fails { IsErr result ↔ IsMarked self.old }
        ensures step { IfOk result (λ n. n ≡ min (min (length buf.old) self.old.step)
            (length (unwrap_or self.old.rest []))) }
        ensures called { Called HostCall.Read self.old self.new result }
        ensures tally { Tallies (λ m. m.read_faults) self.old self.new result }
    {
        if self.starts_work() {
            return Err(self.read_failed(HostCall::Read));
        }
        let n = self.take_rest(buf);
        self.at_end = n == 0;
        Ok(n)
    }

    fn create_output(&mut self, name: &str) -> Result<(), Failed>
        requires { (outside_of self.old).is_writing ≡ false }
        ensures creates { Creates name.now (outside_of self.old) (outside_of self.new) result }
        ensures counts { Writes (outside_of self.old) (outside_of self.new) result }
        ensures fails { IsMarked self.old → IsErr result }
        ensures called { Called HostCall.CreateOutput self.old self.new result }
        ensures tally { Tallies (λ m. m.write_faults) self.old self.new result }
    {
        let fails = self.starts_work();
        self.close_input();
        if fails || self.begin_writing(name).is_err() {
            return Err(self.write_failed(HostCall::CreateOutput));
        }
        Ok(())
    }

    fn write(&mut self, piece: &[u8]) -> Result<usize, Failed>
        requires is_writing { (outside_of self.old).is_writing ≡ true }
        requires some_bytes { 0 < length piece.now }
        ensures takes { Takes Write piece.now (outside_of self.old) (outside_of self.new) result }
        ensures counts { Writes (outside_of self.old) (outside_of self.new) result }
        ensures fails { IsMarked self.old → IsErr result }
        ensures step { IfOk result (λ n. n ≡ min (length piece.now) self.old.step) }
        ensures called { Called HostCall.Write self.old self.new result }
        ensures tally { Tallies (λ m. m.write_faults) self.old self.new result }
    {
        let piece = self.front_of(piece);
        if self.starts_work() || self.append(piece).is_err() {
            return Err(self.write_failed(HostCall::Write));
        }
        Ok(piece.len())
    }

    fn close_output(&mut self) -> Result<(), Failed>
        ensures closes { Closes (outside_of self.old) (outside_of self.new) }
        ensures counts { Writes (outside_of self.old) (outside_of self.new) result }
        ensures fails { IsErr result ↔ IsMarked self.old }
        ensures called { Called HostCall.CloseOutput self.old self.new result }
        ensures tally { Tallies (λ m. m.write_faults) self.old self.new result }
    {
        let fails = self.starts_work();
        self.end_writing();
        if fails {
            return Err(self.write_failed(HostCall::CloseOutput));
        }
        Ok(())
    }

    fn out(&mut self, piece: &[u8]) -> Result<usize, Failed>
        requires { 0 < length piece.now }
        ensures takes { Takes Out piece.now (outside_of self.old) (outside_of self.new) result }
        ensures counts { Writes (outside_of self.old) (outside_of self.new) result }
        ensures fails { IsMarked self.old → IsErr result }
        ensures step { IfOk result (λ n. n ≡ min (length piece.now) self.old.step) }
        ensures called { Called HostCall.Out self.old self.new result }
        ensures tally { Tallies (λ m. m.write_faults) self.old self.new result }
    {
        let piece = self.front_of(piece);
        if self.starts_work() || self.out.extend_from_slice(piece).is_err() {
            return Err(self.write_failed(HostCall::Out));
        }
        Ok(piece.len())
    }

    fn err(&mut self, piece: &[u8]) -> Result<usize, Failed>
        requires { 0 < length piece.now }
        ensures takes { Takes Complain piece.now (outside_of self.old)
            (outside_of self.new) result }
        ensures counts { Complains (outside_of self.old) (outside_of self.new) result }
        ensures last { (outside_of self.new).last_failed ≡ (outside_of self.old).last_failed }
        ensures fails { IsMarked self.old → IsErr result }
        ensures step { IfOk result (λ n. n ≡ min (length piece.now) self.old.step) }
        ensures called { Called HostCall.ErrOut self.old self.new result }
        ensures tally { Tallies (λ m. m.err_faults) self.old self.new result }
    {
        let piece = self.front_of(piece);
        if self.starts_call() || self.err.extend_from_slice(piece).is_err() {
            return Err(self.err_failed(HostCall::ErrOut));
        }
        Ok(piece.len())
    }
}
