//! How a run ends, and why one doesn't start.

ghost use Rattle.std.specs.Prelude.{◌≡◌};
ghost use Rattle.prof_machine.specs.declared.summary.StartRefusal.TheVariants.{OutOfMemory};

use mcount_arcs::State;
use rv_step::TrapKind;
use std::alloc::AllocError;

/// How a run ended.
#[derive(Clone, Copy, Debug, PartialEq, Eq)]
pub enum End {
    /// The program ended itself with this number.
    Exit(u32),
    /// The budget is used up.
    Budget,
    /// The instruction at this address can't be executed.
    Trap(TrapKind, u32),
}

/// What a turn answers.
#[derive(Clone, Copy, Debug, PartialEq, Eq)]
pub enum Turned {
    Going,
    Ended(End),
}

/// What is told of a run that ended.
#[derive(Clone, Copy, Debug, PartialEq, Eq)]
pub struct RunSummary {
    pub end: End,
    /// Instructions that retired.
    pub retired: u32,
    /// Samples that counted, also those on a counter that was full.
    pub samples: u32,
    /// Calls that the arcs count.
    pub calls: u32,
    /// Calls that came while another was being entered.
    pub lost: u32,
    /// The state of the arc table.
    pub state: State,
}

/// Why a run didn't start.
#[derive(Clone, Copy, Debug, PartialEq, Eq)]
pub enum StartRefusal {
    /// The program and the stacks need memory up to address `need`, and memory ends at `end`; or `end`
    /// lies above 2^32.
    ProgramTooLarge { need: u64, end: u64 },
    /// The entry is no multiple of 4, or not in memory.
    EntryOutside { entry: u32 },
    OutOfMemory,
}

impl From<AllocError> for StartRefusal {
    ghost from_gives = { λ _ e. e ≡ OutOfMemory };

    fn from(_e: AllocError) -> StartRefusal {
        StartRefusal::OutOfMemory
    }
}
