//! Why a file is not accepted.

ghost use Rattle.std.specs.Prelude.{◌≡◌};
ghost use Rattle.elf32_syms.specs.declared.refusal.ElfRefusal.TheVariants.{OutOfMemory};

use std::alloc::{AllocError, AllocFailed};

/// Why a file is not a program that can be run here, or that memory ran out.
#[derive(Clone, Copy, Debug, PartialEq, Eq)]
pub enum ElfRefusal {
    /// The file has fewer bytes than the 52 of an ELF header.
    Short { len: u32 },
    /// The file does not begin with 7F and the letters ELF.
    Magic,
    /// It is not of the 32-bit class, 1.
    Class { value: u32 },
    /// Its numbers do not stand with the lowest byte first, 1.
    Order { value: u32 },
    /// It is no executable file, `e_type` 2.
    Kind { value: u32 },
    /// It is not for RISC-V, `e_machine` 243.
    Machine { value: u32 },
    /// `e_flags` allows compressed instructions (1) or has sixteen registers alone (8).
    Flags { value: u32 },
    /// An entry of a table has another size than its form has, or there are more than 64 program
    /// headers.
    TableSize { value: u32 },
    /// What begins at this offset of the file does not end within it.
    OutOfFile { at: u32 },
    /// No string section stands at this section number, or the name of the symbol of this number
    /// doesn't end within it.
    Link { index: u32 },
    /// The executable sections reach from `low` to below `high`, which is nothing at all, too
    /// long, or too high.
    TextRange { low: u64, high: u64 },
    /// More symbols are kept than the limit allows.
    TooManySymbols { count: u32 },
    /// No memory was left.
    OutOfMemory,
}

impl From<AllocError> for ElfRefusal {
    ghost from_gives = { λ _ e. e ≡ OutOfMemory };

    fn from(_error: AllocError) -> ElfRefusal {
        ElfRefusal::OutOfMemory
    }
}

impl<T: Drop> From<AllocFailed<T>> for ElfRefusal {
    ghost from_gives = { λ _ e. e ≡ OutOfMemory };

    fn from(_error: AllocFailed<T>) -> ElfRefusal {
        ElfRefusal::OutOfMemory
    }
}
