//! A folder in memory, which tells all that stands in it: each call can be made to fail.

ghost use Rattle.std.specs.Prelude.{◌≡◌, ◌<◌, [], ◌++◌, length, true, false, refl, string_bytes, if◌then◌else◌, IfOk, IfSome, MatchOption, OnErr, OnOk, ⊤};
ghost use Rattle.host_port.specs.Act.{file_content, has_file, with_file};
ghost use Rattle.host_port.specs.Entries.{place_of, bytes_at};
ghost use Rattle.folder_system.specs.Events.{Looked, Made, LookedAt, Opened, Copied, Synced, Renamed, Removed, FolderOpened, NamesSynced, answer_of, found_by, is_stored, without};
ghost use Rattle.folder_system.specs.Memory.{event_of, files_of, told, Noted};

use crate::folder::{Attributes, Folder, Found};
use crate::kinds::cannot_sync;
use std::alloc::{AllocError, Global};
use std::io;
use std::io::{Cursor, ErrorKind};

/// A file in memory.
#[derive(Drop)]
struct MemFile {
    name: String,
    bytes: Vec<u8>,
    attributes: Attributes,
}

/// What a new file has, beside its permissions.
const NEW: Attributes = Attributes {
    device: 0,
    inode: 0,
    mode: 0o100000,
    owner: 0,
    group: 0,
    links: 1,
};

/// The mode of a regular file without its permissions is that of `NEW`; a file that is opened over nothing has these.
const NEW_MODE: u32 = 0o666;

/// Two names, or two folders with a slash behind them, that somebody else exchanges after so many calls.
#[derive(Drop)]
struct Exchange {
    after: u64,
    one: String,
    other: String,
}

/// The file that was made or opened by a name, whatever its name is now.
#[derive(Drop)]
struct Handle {
    name: String,
    inode: u64,
}

/// A call with its answer.
#[derive(Drop)]
enum Call {
    Looked(String, Result<Found, ErrorKind>),
    Made(String, u32, Option<ErrorKind>),
    LookedAt(Result<Found, ErrorKind>),
    Opened(String, Option<ErrorKind>),
    Copied(Option<ErrorKind>),
    Synced(String, Vec<u8>, Option<ErrorKind>),
    Renamed(String, String, Option<ErrorKind>),
    Removed(String, Option<ErrorKind>),
    FolderOpened(String, Option<ErrorKind>),
    NamesSynced(String, Option<ErrorKind>),
}

/// Regular files in memory. A call fails by its number; what is written to an output is in its file once it is
/// synced. It tells its files and its calls, while there is memory to note them and nobody else changes a name.
#[derive(Drop)]
pub struct MemFolder {
    alloc: Global,
    files: Vec<MemFile>,
    // The calls so far; none where there was no memory to note one, or somebody else changed a name.
    trace: Option<Vec<Call>>,
    calls: u64,
    fail_from: u64,
    fail_until: u64,
    kind: ErrorKind,
    // What a rename is answered where names are held.
    held: Option<ErrorKind>,
    exchange: Option<Exchange>,
    handles: Vec<Handle>,
    // The number of the next file.
    next: u64,
}

impl MemFolder {
    /// An empty folder in which no call fails.
    pub fn new(alloc: Global) -> MemFolder
        ensures files { result.files.items ≡ [] }
        ensures tells { told result.files.items result.trace ≡ Some (record { files = []; events = [] }) }
    {
        MemFolder {
            alloc,
            files: Vec::new(alloc),
            trace: Some(Vec::new(alloc)),
            calls: 0,
            fail_from: 0,
            fail_until: 0,
            kind: ErrorKind::Other,
            held: None,
            exchange: None,
            handles: Vec::new(alloc),
            next: 1000,
        }
    }

    /// Puts a file there.
    pub fn put(
        &mut self,
        name: &str,
        bytes: &[u8],
        attributes: Attributes,
    ) -> Result<(), AllocError> {
        let file = mem_file(self.alloc, name, bytes, attributes)?;
        set(&mut self.files, file)
    }

    /// The calls from one number on and before another fail, with this kind of error. They are counted from 0.
    pub fn fail(&mut self, from: u64, until: u64, kind: ErrorKind) {
        self.calls = 0;
        self.fail_from = from;
        self.fail_until = until;
        self.kind = kind;
    }

    /// Names are held from now on: each rename fails with this kind of error.
    pub fn hold(&mut self, kind: ErrorKind) {
        self.held = Some(kind);
    }

    /// After so many calls, counted from now, somebody else exchanges two names, or two folders with all that they
    /// hold, which are named with a slash behind them.
    pub fn exchange(&mut self, after: u64, one: &str, other: &str) -> Result<(), AllocError> {
        self.calls = 0;
        self.exchange = Some(Exchange {
            after,
            one: String::from_str(self.alloc, one)?,
            other: String::from_str(self.alloc, other)?,
        });
        self.intrude();
        Ok(())
    }

    /// How many calls there were.
    pub fn calls(&self) -> u64 {
        self.calls
    }

    /// The bytes of a file.
    pub fn bytes(&self, name: &str) -> Option<&[u8]>
        ensures { MatchOption result
            (has_file name.now (files_of self.now.files.items) ≡ false)
            (λ bytes. bytes.now ≡ file_content name.now (files_of self.now.files.items)) }
    {
        let i = find(self.files.as_slice(), name)?;
        Some(self.files[i].bytes.as_slice())
    }

    /// How many files there are.
    pub fn len(&self) -> usize {
        self.files.len()
    }

    /// What is known of the named file.
    pub fn stands_at(&self, name: &str) -> Option<Attributes> {
        let i = find(self.files.as_slice(), name)?;
        Some(self.files[i].attributes)
    }

    /// The attributes of a file, or those of a new one.
    fn attributes(&self, name: &str) -> Attributes {
        match find(self.files.as_slice(), name) {
            Some(i) => self.files[i].attributes,
            None => NEW,
        }
    }

    /// Counts a call, and fails where it is to fail.
    fn call(&mut self) -> io::Result<()>
        ensures files { self.new.files ≡ self.old.files }
        ensures same { self.new.trace ≡ self.old.trace }
    {
        let call = self.calls;
        self.calls = self.calls.saturating_add(1);
        if self.fail_from <= call && call < self.fail_until {
            Err(io::Error::from(self.kind))
        } else {
            Ok(())
        }
    }

    /// Whether a file can have another name.
    fn lets_go(&self) -> io::Result<()> {
        match self.held {
            Some(kind) => Err(io::Error::from(kind)),
            None => Ok(()),
        }
    }

    /// Notes a call. Then somebody else may act, and no more is told.
    fn note(&mut self, call: Result<Call, AllocError>)
        ensures files { IfSome self.new.trace (λ _. self.new.files ≡ self.old.files) }
        ensures noted { Noted self.old.trace call self.new.trace }
    {
        self.trace = noted(self.trace.take(), call);
        self.intrude();
    }

    /// Exchanges two names, if that is to be done now.
    fn intrude(&mut self)
        ensures { MatchOption self.new.trace ⊤ (λ trace. (self.old.trace ≡ Some trace) × (self.new.files ≡ self.old.files)) }
    {
        if let Some(exchange) = self.exchange.take() {
            if exchange.after > self.calls {
                self.exchange = Some(exchange);
                return;
            }
            self.trace = None;
            let Exchange {
                after: _after,
                one,
                other,
            } = exchange;
            let _ = exchange_names(self.alloc, &mut self.files, one.as_str(), other.as_str());
        }
    }

    /// Keeps which file was made or opened by a name.
    fn keep(&mut self, name: &str, inode: u64) -> Result<(), AllocError>
        ensures files { self.new.files ≡ self.old.files }
        ensures same { self.new.trace ≡ self.old.trace }
    {
        let name = String::from_str(self.alloc, name)?;
        self.handles.push(Handle { name, inode })?;
        Ok(())
    }

    /// What a new file has, with these permissions.
    fn fresh(&mut self, mode: u32) -> Attributes
        ensures files { self.new.files ≡ self.old.files }
        ensures same { self.new.trace ≡ self.old.trace }
    {
        self.next = self.next.saturating_add(1);
        Attributes {
            inode: self.next,
            mode: NEW.mode | mode,
            ..NEW
        }
    }

    fn found(&mut self, name: &str) -> io::Result<Found>
        ensures files { self.new.files ≡ self.old.files }
        ensures same { self.new.trace ≡ self.old.trace }
    {
        self.call()?;
        match find(self.files.as_slice(), name) {
            Some(i) => Ok(Found::File(self.files[i].attributes)),
            None => Ok(Found::Nothing),
        }
    }

    fn made(&mut self, name: &str, mode: u32) -> io::Result<Vec<u8>>
        ensures done { OnOk result (files_of self.new.files.items ≡ with_file name.now [] (files_of self.old.files.items)) }
        ensures unchanged { OnErr result (files_of self.new.files.items ≡ files_of self.old.files.items) }
        ensures fresh { OnOk result (has_file name.now (files_of self.old.files.items) ≡ false) }
        ensures empty { IfOk result (λ output. output.items ≡ []) }
        ensures same { self.new.trace ≡ self.old.trace }
    {
        self.call()?;
        if find(self.files.as_slice(), name).is_some() {
            return Err(io::Error::from(ErrorKind::AlreadyExists));
        }
        let attributes = self.fresh(mode);
        self.keep(name, attributes.inode)?;
        let file = mem_file(self.alloc, name, b"", attributes)?;
        set(&mut self.files, file)?;
        Ok(Vec::new(self.alloc))
    }

    /// The attributes of the file that was made last, whatever its name is now.
    fn last(&mut self) -> io::Result<Found>
        ensures files { self.new.files ≡ self.old.files }
        ensures same { self.new.trace ≡ self.old.trace }
    {
        self.call()?;
        match self.handles.last() {
            Some(handle) => Ok(match find_inode(self.files.as_slice(), handle.inode) {
                Some(i) => Found::File(self.files[i].attributes),
                None => Found::Nothing,
            }),
            None => Ok(Found::Nothing),
        }
    }

    fn opened(&mut self, name: &str) -> io::Result<Vec<u8>>
        ensures done { OnOk result (files_of self.new.files.items ≡ with_file name.now [] (files_of self.old.files.items)) }
        ensures unchanged { OnErr result (files_of self.new.files.items ≡ files_of self.old.files.items) }
        ensures empty { IfOk result (λ output. output.items ≡ []) }
        ensures same { self.new.trace ≡ self.old.trace }
    {
        self.call()?;
        let attributes = match self.stands_at(name) {
            Some(attributes) => attributes,
            None => self.fresh(NEW_MODE),
        };
        self.keep(name, attributes.inode)?;
        let file = mem_file(self.alloc, name, b"", attributes)?;
        set(&mut self.files, file)?;
        Ok(Vec::new(self.alloc))
    }

    fn copied(&mut self, new: &Vec<u8>, output: &mut Vec<u8>) -> io::Result<u64>
        ensures files { self.new.files ≡ self.old.files }
        ensures same { self.new.trace ≡ self.old.trace }
        ensures all { OnOk result (output.new.items ≡ output.old.items ++ new.now.items) }
    {
        self.call()?;
        output.extend_from_slice(new.as_slice())?;
        Ok(new.len() as u64)
    }

    /// What was written stands in the file, also where there is nothing to sync.
    fn synced(&mut self, name: &str, bytes: &[u8]) -> io::Result<()>
        ensures files { files_of self.new.files.items ≡ (if is_stored (answer_of result)
            then with_file name.now bytes.now (files_of self.old.files.items)
            else files_of self.old.files.items) }
        ensures same { self.new.trace ≡ self.old.trace }
    {
        match self.call() {
            Ok(()) => Ok(self.store(name, bytes)?),
            Err(e) => {
                if cannot_sync(e.kind()) {
                    self.store(name, bytes)?;
                }
                Err(e)
            }
        }
    }

    /// Where nothing is told, as once somebody else has acted, the bytes go to the file that was opened, and not to what
    /// stands at the name.
    fn synced_opened(&mut self, name: &str, bytes: &[u8]) -> io::Result<()>
        ensures same { self.new.trace ≡ self.old.trace }
    {
        self.call()?;
        let Some(inode) = inode_of(self.handles.as_slice(), name) else {
            return Ok(());
        };
        if let Some(i) = find_inode(self.files.as_slice(), inode) {
            self.files[i].bytes = Vec::from_slice(self.alloc, bytes)?;
        }
        Ok(())
    }

    fn store(&mut self, name: &str, bytes: &[u8]) -> Result<(), AllocError>
        ensures done { OnOk result (files_of self.new.files.items ≡ with_file name.now bytes.now (files_of self.old.files.items)) }
        ensures unchanged { OnErr result (files_of self.new.files.items ≡ files_of self.old.files.items) }
        ensures same { self.new.trace ≡ self.old.trace }
    {
        let file = mem_file(self.alloc, name, bytes, self.attributes(name))?;
        set(&mut self.files, file)
    }

    fn renamed(&mut self, from: &str, to: &str) -> io::Result<()>
        ensures done { OnOk result (files_of self.new.files.items
            ≡ with_file to.now (file_content from.now (files_of self.old.files.items)) (without from.now (files_of self.old.files.items))) }
        ensures unchanged { OnErr result (files_of self.new.files.items ≡ files_of self.old.files.items) }
        ensures same { self.new.trace ≡ self.old.trace }
    {
        self.call()?;
        self.lets_go()?;
        if from == to {
            return Err(io::Error::from(ErrorKind::InvalidInput));
        }
        let Some(i) = find(self.files.as_slice(), from) else {
            return Err(io::Error::from(ErrorKind::NotFound));
        };
        let old = &self.files[i];
        let file = mem_file(self.alloc, to, old.bytes.as_slice(), old.attributes)?;
        set(&mut self.files, file)?;
        forget(&mut self.files, from);
        Ok(())
    }

    fn removed(&mut self, name: &str) -> io::Result<()>
        ensures done { OnOk result (files_of self.new.files.items ≡ without name.now (files_of self.old.files.items)) }
        ensures unchanged { OnErr result (files_of self.new.files.items ≡ files_of self.old.files.items) }
        ensures same { self.new.trace ≡ self.old.trace }
    {
        self.call()?;
        if find(self.files.as_slice(), name).is_none() {
            return Err(io::Error::from(ErrorKind::NotFound));
        }
        forget(&mut self.files, name);
        Ok(())
    }
}

// ---- the files

fn mem_file(
    alloc: Global,
    name: &str,
    bytes: &[u8],
    attributes: Attributes,
) -> Result<MemFile, AllocError>
    ensures name { IfOk result (λ file. string_bytes file.name ≡ name.now) }
    ensures bytes { IfOk result (λ file. file.bytes.items ≡ bytes.now) }
{
    Ok(MemFile {
        name: String::from_str(alloc, name)?,
        bytes: Vec::from_slice(alloc, bytes)?,
        attributes,
    })
}

/// The number of the named file.
fn find(files: &[MemFile], name: &str) -> Option<usize>
    ensures place { result ≡ place_of name.now (files_of files.now) }
    ensures in_range { IfSome result (λ i. i < length files.now) }
{
    for (i, file) in files.iter().enumerate() {
        if file.name.as_str() == name {
            return Some(i);
        }
    }
    None
}

/// A file stands there, in place of the one of its name.
fn set(files: &mut Vec<MemFile>, file: MemFile) -> Result<(), AllocError>
    ensures done { OnOk result (files_of files.new.items
        ≡ with_file (string_bytes file.name) file.bytes.items (files_of files.old.items)) }
    ensures unchanged { OnErr result (files_of files.new.items ≡ files_of files.old.items) }
{
    match find(files.as_slice(), file.name.as_str()) {
        Some(i) => files[i] = file,
        None => files.push(file)?,
    }
    Ok(())
}

/// The named file is gone.
fn forget(files: &mut Vec<MemFile>, name: &str)
    ensures { files_of files.new.items ≡ without name.now (files_of files.old.items) }
{
    files.retain(|file| file.name.as_str() != name);
}

/// The number of the file of this inode.
fn find_inode(files: &[MemFile], inode: u64) -> Option<usize>
    ensures { IfSome result (λ i. i < length files.now) }
{
    for (i, file) in files.iter().enumerate() {
        if file.attributes.inode == inode {
            return Some(i);
        }
    }
    None
}

/// The inode of the file that was made or opened last by this name.
fn inode_of(handles: &[Handle], name: &str) -> Option<u64> {
    let mut inode = None;
    for handle in handles {
        if handle.name.as_str() == name {
            inode = Some(handle.inode);
        }
    }
    inode
}

/// Names that begin with one of two begin with the other then.
fn exchange_names(
    alloc: Global,
    files: &mut Vec<MemFile>,
    one: &str,
    other: &str,
) -> Result<(), AllocError> {
    for file in files.iter_mut() {
        if let Some(name) = exchanged(alloc, file.name.as_str(), one, other)? {
            file.name = name;
        }
    }
    Ok(())
}

fn exchanged(
    alloc: Global,
    name: &str,
    one: &str,
    other: &str,
) -> Result<Option<String>, AllocError> {
    if let Some(rest) = name.strip_prefix(one) {
        return Ok(Some(joined(alloc, other, rest)?));
    }
    if let Some(rest) = name.strip_prefix(other) {
        return Ok(Some(joined(alloc, one, rest)?));
    }
    Ok(None)
}

fn joined(alloc: Global, front: &str, rest: &str) -> Result<String, AllocError> {
    let mut name = String::from_str(alloc, front)?;
    name.push_str(rest)?;
    Ok(name)
}

// ---- the calls

/// The calls with one more, where there is memory for it.
fn noted(trace: Option<Vec<Call>>, call: Result<Call, AllocError>) -> Option<Vec<Call>>
    ensures { Noted trace call result }
{
    let mut calls = trace?;
    match call {
        Ok(call) => match calls.push(call) {
            Ok(()) => Some(calls),
            Err(_) => None,
        },
        Err(_) => None,
    }
}

/// Of which kind the error was.
fn answer_of<T>(done: &io::Result<T>) -> Option<ErrorKind>
    ensures { result ≡ answer_of done.now }
{
    match done {
        Ok(_) => None,
        Err(e) => Some(e.kind()),
    }
}

fn found_by(found: &io::Result<Found>) -> Result<Found, ErrorKind>
    ensures { result ≡ found_by found.now }
{
    match found {
        Ok(found) => Ok(*found),
        Err(e) => Err(e.kind()),
    }
}

impl Call {
    fn looked(
        alloc: Global,
        name: &str,
        found: Result<Found, ErrorKind>,
    ) -> Result<Call, AllocError>
        ensures { IfOk result (λ call. event_of call ≡ Looked name.now found) }
    {
        Ok(Call::Looked(String::from_str(alloc, name)?, found))
    }

    fn made(
        alloc: Global,
        name: &str,
        mode: u32,
        answer: Option<ErrorKind>,
    ) -> Result<Call, AllocError>
        ensures { IfOk result (λ call. event_of call ≡ Made name.now mode answer) }
    {
        Ok(Call::Made(String::from_str(alloc, name)?, mode, answer))
    }

    fn opened(alloc: Global, name: &str, answer: Option<ErrorKind>) -> Result<Call, AllocError>
        ensures { IfOk result (λ call. event_of call ≡ Opened name.now answer) }
    {
        Ok(Call::Opened(String::from_str(alloc, name)?, answer))
    }

    fn synced(
        alloc: Global,
        name: &str,
        bytes: &[u8],
        answer: Option<ErrorKind>,
    ) -> Result<Call, AllocError>
        ensures { IfOk result (λ call. event_of call ≡ Synced name.now bytes.now answer) }
    {
        let name = String::from_str(alloc, name)?;
        Ok(Call::Synced(name, Vec::from_slice(alloc, bytes)?, answer))
    }

    fn renamed(
        alloc: Global,
        from: &str,
        to: &str,
        answer: Option<ErrorKind>,
    ) -> Result<Call, AllocError>
        ensures { IfOk result (λ call. event_of call ≡ Renamed from.now to.now answer) }
    {
        let from = String::from_str(alloc, from)?;
        Ok(Call::Renamed(from, String::from_str(alloc, to)?, answer))
    }

    fn removed(alloc: Global, name: &str, answer: Option<ErrorKind>) -> Result<Call, AllocError>
        ensures { IfOk result (λ call. event_of call ≡ Removed name.now answer) }
    {
        Ok(Call::Removed(String::from_str(alloc, name)?, answer))
    }

    fn folder_opened(
        alloc: Global,
        folder: &str,
        answer: Option<ErrorKind>,
    ) -> Result<Call, AllocError>
        ensures { IfOk result (λ call. event_of call ≡ FolderOpened folder.now answer) }
    {
        Ok(Call::FolderOpened(String::from_str(alloc, folder)?, answer))
    }

    fn names_synced(
        alloc: Global,
        folder: &str,
        answer: Option<ErrorKind>,
    ) -> Result<Call, AllocError>
        ensures { IfOk result (λ call. event_of call ≡ NamesSynced folder.now answer) }
    {
        Ok(Call::NamesSynced(String::from_str(alloc, folder)?, answer))
    }
}

impl Folder for MemFolder {
    type Input = Cursor<Vec<u8>>;

    type Output = Vec<u8>;

    type Handle = ();

    ghost history = { λ f. told f.files.items f.trace };

    ghost answers = { λ f name answer. ⊤ };

    ghost told_inputs = { λ f input told. refl };

    ghost told_outputs = { λ f output told. refl };

    fn open(&self, name: &str) -> io::Result<Cursor<Vec<u8>>> {
        match self.bytes(name) {
            Some(bytes) => Ok(Cursor::new(Vec::from_slice(self.alloc, bytes)?)),
            None => Err(io::Error::from(ErrorKind::NotFound)),
        }
    }

    fn look(&mut self, name: &str) -> io::Result<Found> {
        let done = self.found(name);
        let call = Call::looked(self.alloc, name, found_by(&done));
        self.note(call);
        done
    }

    fn create_new(&mut self, name: &str, mode: u32) -> io::Result<Vec<u8>> {
        let done = self.made(name, mode);
        let call = Call::made(self.alloc, name, mode, answer_of(&done));
        self.note(call);
        done
    }

    fn look_at(&mut self, _output: &Vec<u8>) -> io::Result<Found> {
        let done = self.last();
        let call = Call::LookedAt(found_by(&done));
        self.note(Ok(call));
        done
    }

    fn open_over(&mut self, name: &str) -> io::Result<Vec<u8>> {
        let done = self.opened(name);
        let call = Call::opened(self.alloc, name, answer_of(&done));
        self.note(call);
        done
    }

    fn copy(&mut self, new: &Vec<u8>, output: &mut Vec<u8>) -> io::Result<u64> {
        let done = self.copied(new, output);
        let call = Call::Copied(answer_of(&done));
        self.note(Ok(call));
        done
    }

    fn sync(&mut self, name: &str, output: &Vec<u8>) -> io::Result<()> {
        if self.trace.is_none() {
            return self.synced_opened(name, output.as_slice());
        }
        let done = self.synced(name, output.as_slice());
        let call = Call::synced(self.alloc, name, output.as_slice(), answer_of(&done));
        self.note(call);
        done
    }

    fn rename(&mut self, from: &str, to: &str) -> io::Result<()> {
        let done = self.renamed(from, to);
        let call = Call::renamed(self.alloc, from, to, answer_of(&done));
        self.note(call);
        done
    }

    fn remove(&mut self, name: &str) -> io::Result<()> {
        let done = self.removed(name);
        let call = Call::removed(self.alloc, name, answer_of(&done));
        self.note(call);
        done
    }

    fn open_folder(&mut self, folder: &str) -> io::Result<()> {
        let done = self.call();
        let call = Call::folder_opened(self.alloc, folder, answer_of(&done));
        self.note(call);
        done
    }

    fn sync_names(&mut self, folder: &str, _handle: &()) -> io::Result<()> {
        let done = self.call();
        let call = Call::names_synced(self.alloc, folder, answer_of(&done));
        self.note(call);
        done
    }
}
