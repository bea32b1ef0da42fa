//! What the refusals of the layers below are for the program.

ghost use Rattle.std.specs.Prelude.{◌≡◌};
ghost use Rattle.courses.specs.Answer.{add_fault_of, read_fault_of, exact_fault_of, fold_fault_of, load_fault_of, profile_fault_of, report_fault_of, sum_fault_of, elf_fault_of, start_fault_of};

use crate::outcome::Fault;
use elf32_syms::ElfRefusal;
use exact_flow::ExactRefusal;
use flat_report::ReportRefusal;
use folded::FoldRefusal;
use gmon_data::{AddRefusal, ReadRefusal};
use gp_base::GmonRefusal;
use host_port::LoadRefusal;
use prof_machine::StartRefusal;
use profile_sum::SumRefusal;

/// What it means that a file is not loaded.
pub fn load_fault(refusal: LoadRefusal, word: u32, limit: u32) -> Fault
    ensures { result ≡ load_fault_of refusal word limit }
{
    match refusal {
        LoadRefusal::ReadFault => Fault::ReadFault { word },
        LoadRefusal::TooLarge => Fault::TooLarge { word, limit },
        LoadRefusal::OutOfMemory => Fault::OutOfMemory,
    }
}

/// What it means that a profile file is refused.
pub fn profile_fault(refusal: GmonRefusal, word: u32) -> Fault
    ensures { result ≡ profile_fault_of refusal word }
{
    match refusal {
        GmonRefusal::OutOfMemory => Fault::OutOfMemory,
        _ => Fault::BadProfile { refusal, word },
    }
}

/// What it means that a profile file's histograms can't be added up.
pub fn add_fault(refusal: AddRefusal, word: u32) -> Fault
    ensures { result ≡ add_fault_of refusal word }
{
    match refusal {
        AddRefusal::Unlike(unlike) => Fault::Unlike { unlike, word },
        AddRefusal::OutOfMemory => Fault::OutOfMemory,
    }
}

/// What it means that what was read of a profile file can't be added up.
pub fn read_fault(refusal: ReadRefusal, word: u32) -> Fault
    ensures { result ≡ read_fault_of refusal word }
{
    match refusal {
        ReadRefusal::File(refusal) => profile_fault(refusal, word),
        ReadRefusal::Profile(refusal) => add_fault(refusal, word),
    }
}

/// What it means that they can't be added to those of earlier files.
pub fn sum_fault(refusal: SumRefusal, word: u32) -> Fault
    ensures { result ≡ sum_fault_of refusal word }
{
    match refusal {
        SumRefusal::Unlike(unlike) => Fault::Unlike { unlike, word },
        SumRefusal::OutOfMemory => Fault::OutOfMemory,
    }
}

/// What it means that a program's file is refused.
pub fn elf_fault(refusal: ElfRefusal) -> Fault
    ensures { result ≡ elf_fault_of refusal }
{
    match refusal {
        ElfRefusal::OutOfMemory => Fault::OutOfMemory,
        _ => Fault::BadElf { refusal },
    }
}

/// What it means that a run doesn't start.
pub fn start_fault(refusal: StartRefusal) -> Fault
    ensures { result ≡ start_fault_of refusal }
{
    match refusal {
        StartRefusal::ProgramTooLarge { need, end } => Fault::ProgramTooLarge { need, end },
        StartRefusal::EntryOutside { entry } => Fault::EntryOutside { entry },
        StartRefusal::OutOfMemory => Fault::OutOfMemory,
    }
}

/// What it means that a report is not printed.
pub fn report_fault(refusal: ReportRefusal) -> Fault
    ensures { result ≡ report_fault_of refusal }
{
    match refusal {
        ReportRefusal::WriteFault => Fault::WriteFault,
        ReportRefusal::OutOfMemory => Fault::OutOfMemory,
    }
}

/// What it means that a run is not folded to its end.
pub fn fold_fault(refusal: FoldRefusal) -> Fault
    ensures { result ≡ fold_fault_of refusal }
{
    match refusal {
        FoldRefusal::HostFailed => Fault::WriteFault,
        FoldRefusal::OutOfMemory => Fault::OutOfMemory,
    }
}

/// What it means that a graph's exact times are not found.
pub fn exact_fault(refusal: ExactRefusal) -> Fault
    ensures { result ≡ exact_fault_of refusal }
{
    match refusal {
        ExactRefusal::TooWide { head, arc } => Fault::TooWide { head, arc },
        ExactRefusal::OutOfMemory => Fault::OutOfMemory,
    }
}
