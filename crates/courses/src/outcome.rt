//! How the program ends.

ghost use Rattle.std.specs.Prelude.{◌≡◌};
ghost use Rattle.courses.specs.Statuses.{status_of};

use elf32_syms::ElfRefusal;
use gmon_data::Unlike;
use gp_base::GmonRefusal;
use prof_machine::RunSummary;
use thiserror::Error;

/// The command was carried out.
#[derive(Clone, Copy, Debug, PartialEq, Eq)]
pub struct Done {
    /// What is told of the run, where the command starts one.
    pub run: Option<RunSummary>,
}

impl Done {
    /// The exit status, 0.
    pub fn status(&self) -> u8
        ensures { result ≡ 0 }
    {
        0
    }
}

/// Why the command was not carried out. A file is named by the position of its word, from 0.
#[derive(Debug, Drop, Error)]
pub enum Fault {
    #[error("the words are not understood")]
    Usage,
    /// The refusal is never running out of memory.
    #[error("a program is refused")]
    BadElf { refusal: ElfRefusal },
    /// The refusal is never running out of memory.
    #[error("a profile file is refused")]
    BadProfile { refusal: GmonRefusal, word: u32 },
    /// A histogram of the file can't be added to those before it, of this file or of earlier ones.
    #[error("profiles can't be added up")]
    Unlike { unlike: Unlike, word: u32 },
    #[error("an input file can't be read")]
    ReadFault { word: u32 },
    #[error("an output can't be written")]
    WriteFault,
    #[error("out of memory")]
    OutOfMemory,
    /// With `--exact`, a step of the exact times doesn't fit into 128 bits: the first such one, of the component
    /// whose head is the function `head`, and of the function arc `arc`, both counted from 0.
    #[error("an exact time is too wide")]
    TooWide { head: u32, arc: u32 },
    /// The file has more than `limit` bytes.
    #[error("an input file is too large")]
    TooLarge { word: u32, limit: u32 },
    /// The program and the stacks need memory up to address `need`, and memory ends at `end`; or `end`
    /// lies above 2^32.
    #[error("a program doesn't fit into memory")]
    ProgramTooLarge { need: u64, end: u64 },
    /// The entry is no multiple of 4, or not in memory.
    #[error("a program's entry is outside of memory")]
    EntryOutside { entry: u32 },
}

impl Fault {
    /// The exit status: 1 for words that are not understood, 2 for a bad ELF file, 3 for a bad profile, 4 for
    /// profiles that can't be added up, 5 for a read fault, 6 for a write fault, 7 for running out of memory, 8
    /// for exact times that are too wide, 9 for a file that is too large, 10 for a program that is too large,
    /// 11 for an entry outside of memory.
    pub fn status(&self) -> u8
        ensures { result ≡ status_of self.now }
    {
        match self {
            Fault::Usage => 1,
            Fault::BadElf { .. } => 2,
            Fault::BadProfile { .. } => 3,
            Fault::Unlike { .. } => 4,
            Fault::ReadFault { .. } => 5,
            Fault::WriteFault => 6,
            Fault::OutOfMemory => 7,
            Fault::TooWide { .. } => 8,
            Fault::TooLarge { .. } => 9,
            Fault::ProgramTooLarge { .. } => 10,
            Fault::EntryOutside { .. } => 11,
        }
    }
}
