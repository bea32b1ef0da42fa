//! Reading a profile file in pieces; its form is told by its first four bytes.

ghost use Rattle.std.specs.Prelude.{◌≡◌, ℕ, List, [], ◌+◌, ◌^◌, ◌<◌, ◌++◌, false, length, None, Some, Err, IfErr, IfOk, IfSome, OnOk};
ghost use Rattle.gp_base.specs.Refusal.{IsRefusal};
ghost use Rattle.gmon_data.specs.Content.{conflict_of, content_of, empty_content};
ghost use Rattle.gmon_data.specs.Refusals.{IsReadRefusal};
ghost use Rattle.gmon_data.specs.declared.refusal.AddRefusal.TheVariants.{Unlike};
ghost use Rattle.gmon_data.specs.declared.refusal.ReadRefusal.TheVariants as read_refusal;
ghost use Rattle.gmon_gnu.specs.FirstHists.{conflict_among_first};
ghost use Rattle.gmon_files.specs.Forms.{file_records, file_refusal, FileSpells};
ghost use Rattle.gmon_files.specs.Viewed.{records_left};
ghost use Rattle.gmon_files.specs.FileRead.{spelled_records, FitsProfile, StandsFor, len_of, IsFed, IsReadFrom};

use crate::forms::{GNU, form_of};
use crate::views::RecordViews;
use gmon_cells::Remnant;
use gmon_data::{Profile, ReadRefusal};
use gp_base::{Form, GmonRefusal, Records};
use host_port::{Host, LoadRefusal, TakesPieces, read_all};
use std::alloc::{AllocError, Global};

/// A reader of a profile file that comes in pieces: its first bytes, while they don't tell the form yet, or
/// the form's reader.
#[derive(Drop)]
pub enum FileReader {
    Front(Remnant),
    Bsd(gmon_bsd::Reader),
    Gnu(gmon_gnu::Reader),
}

impl FileReader {
    /// A reader to which nothing was fed.
    pub fn new() -> FileReader
        ensures stands { StandsFor [] result }
        ensures len { len_of result ≡ 0 }
        ensures fed { IsFed result }
    {
        FileReader::Front(Remnant::new())
    }

    /// Takes the next piece.
    pub fn feed(self, alloc: Global, piece: &[u8]) -> Result<FileReader, AllocError>
        requires small { len_of self + length piece.now < 2 ^ 32 }
        requires fed { IsFed self }
        ensures fed { IfOk result IsFed }
        ensures stands { IfOk result (λ now. (bytes : List ℕ) → StandsFor bytes self
            → StandsFor (bytes ++ piece.now) now) }
        ensures len { IfOk result (λ now. len_of now ≡ len_of self + length piece.now) }
    {
        match self {
            FileReader::Front(mut front) => {
                if front.len() + piece.len() < GNU.len() {
                    front.put(piece);
                    return Ok(FileReader::Front(front));
                }
                let rest = front.fill(GNU.len(), piece);
                begin(alloc, front.as_slice(), rest)
            }
            FileReader::Bsd(mut reader) => {
                reader.feed(piece)?;
                Ok(FileReader::Bsd(reader))
            }
            FileReader::Gnu(mut reader) => {
                reader.feed(piece)?;
                Ok(FileReader::Gnu(reader))
            }
        }
    }

    /// What the bytes that were fed are: the records that they spell, or their first refusal. A refusal takes
    /// no memory, so that want of it doesn't stand in for one.
    pub fn finish(self) -> Result<Records, GmonRefusal>
        requires { IsFed self }
        ensures refused { (bytes : List ℕ) → StandsFor bytes self
            → IfSome (file_refusal bytes) (λ refusal. result ≡ Err refusal) }
        ensures refusal { (bytes : List ℕ) → StandsFor bytes self
            → IfErr result (λ refusal. IsRefusal refusal (file_refusal bytes)) }
        ensures accepted { (bytes : List ℕ) → StandsFor bytes self
            → OnOk result (file_refusal bytes ≡ None) }
        ensures records { (bytes : List ℕ) → StandsFor bytes self
            → IfOk result (λ records. records ≡ file_records bytes) }
        ensures spelled { (bytes : List ℕ) → StandsFor bytes self
            → IfOk result (λ records. FileSpells bytes records) }
    {
        match self {
            FileReader::Front(front) => Err(GmonRefusal::Short {
                at: front.len() as u32,
            }),
            FileReader::Bsd(reader) => reader.finish(),
            FileReader::Gnu(reader) => reader.finish(),
        }
    }

    /// The records that the bytes spell, one after the other, as the reader keeps them, or their first refusal.
    /// Takes no memory.
    pub fn records(&self) -> Result<RecordViews<'_>, GmonRefusal>
        ensures refused { (bytes : List ℕ) → StandsFor bytes self.now
            → IfErr result (λ refusal. file_refusal bytes ≡ Some refusal) }
        ensures accepted { (bytes : List ℕ) → StandsFor bytes self.now
            → OnOk result (file_refusal bytes ≡ None) }
        ensures records { (bytes : List ℕ) → StandsFor bytes self.now
            → IfOk result (λ views. records_left views ≡ file_records bytes) }
    {
        match self {
            FileReader::Front(front) => Err(GmonRefusal::Short {
                at: front.len() as u32,
            }),
            FileReader::Bsd(reader) => match reader.records() {
                Ok(views) => Ok(RecordViews::Bsd(views)),
                Err(refusal) => Err(refusal),
            },
            FileReader::Gnu(reader) => match reader.records() {
                Ok(views) => Ok(RecordViews::Gnu(views)),
                Err(refusal) => Err(refusal),
            },
        }
    }

    /// The profile of the records that the bytes spell, without a list of them. It answers the file's first refusal,
    /// before memory is taken, or else the first refusal of `Profile::add_records` in the order of the file. A
    /// conflict among the first 64 histograms with counters is told, and never want of memory.
    pub fn into_profile(self) -> Result<Profile, ReadRefusal>
        requires fed { IsFed self }
        requires fits { FitsProfile self }
        ensures accepted { (bytes : List ℕ) → StandsFor bytes self
            → OnOk result (file_refusal bytes ≡ None) }
        ensures like { (bytes : List ℕ) → StandsFor bytes self
            → OnOk result (conflict_of empty_content (spelled_records bytes) ≡ None) }
        ensures content { (bytes : List ℕ) → StandsFor bytes self
            → IfOk result (λ profile. profile ≡ content_of (spelled_records bytes)) }
        ensures refusal { (bytes : List ℕ) → StandsFor bytes self
            → IfErr result (λ refusal. IsReadRefusal refusal (file_refusal bytes)
            (conflict_of empty_content (spelled_records bytes))) }
        ensures told { (bytes : List ℕ) → StandsFor bytes self → file_refusal bytes ≡ None
            → IfSome (conflict_among_first 64 (spelled_records bytes))
            (λ unlike. result ≡ Err (read_refusal.Profile (Unlike unlike))) }
    {
        match self {
            FileReader::Front(front) => Err(ReadRefusal::File(GmonRefusal::Short {
                at: front.len() as u32,
            })),
            FileReader::Bsd(reader) => reader.into_profile(),
            FileReader::Gnu(reader) => reader.into_profile(),
        }
    }
}

/// Begins to read a file by its first four bytes, and takes what follows them.
fn begin(alloc: Global, front: &[u8], rest: &[u8]) -> Result<FileReader, AllocError>
    requires front { length front.now ≡ 4 }
    requires small { length front.now + length rest.now < 2 ^ 32 }
    ensures stands { IfOk result (StandsFor (front.now ++ rest.now)) }
    ensures len { IfOk result (λ now. len_of now ≡ length front.now + length rest.now) }
    ensures fed { IfOk result IsFed }
{
    match form_of(front) {
        Form::Bsd => {
            let mut reader = gmon_bsd::Reader::new(alloc);
            reader.feed(front)?;
            reader.feed(rest)?;
            Ok(FileReader::Bsd(reader))
        }
        Form::Gnu => {
            let mut reader = gmon_gnu::Reader::new(alloc);
            reader.feed(front)?;
            reader.feed(rest)?;
            Ok(FileReader::Gnu(reader))
        }
    }
}

/// What it takes in pieces is a profile file.
impl TakesPieces for FileReader {
    ghost holds = { StandsFor };

    fn take(self, alloc: Global, piece: &[u8]) -> Result<FileReader, AllocError> {
        self.feed(alloc, piece)
    }
}

/// Reads the named file, which has at most `limit` bytes, in pieces: a reader that stands for its bytes, and
/// how many they are. It reads no more than one byte beyond the limit.
pub fn read_pieces<H: Host>(
    alloc: Global,
    host: &mut H,
    name: &str,
    limit: u32,
) -> Result<(FileReader, u32), LoadRefusal>
    requires { (H.outside host.old).is_writing ≡ false }
    ensures read { IsReadFrom name.now limit (H.outside host.old) (H.outside host.new) result }
    ensures fed { IfOk result (λ pair. IsFed pair.0) }
{
    read_all(alloc, host, name, limit, FileReader::new())
}
