//! What a step answers.

/// The answer of a step.
#[derive(Clone, Copy, Debug, PartialEq, Eq)]
pub enum Stepped {
    /// One instruction has been executed.
    Retired,
    /// The instruction at pc is `ecall`. Registers, pc and memory are as before.
    Ecall,
    /// The instruction at pc can't be executed. Registers, pc and memory are as before.
    Trap(TrapKind),
}

/// Why an instruction can't be executed. An address that is both misaligned and outside is
/// misaligned.
#[derive(Clone, Copy, Debug, PartialEq, Eq)]
pub enum TrapKind {
    /// The word at pc is no instruction of RV32I, M or Zifencei.
    Illegal,
    /// It is `ebreak`.
    Breakpoint,
    /// Not all four bytes at pc are in memory.
    FetchOutside,
    /// Not all bytes of a load are in memory.
    LoadOutside,
    /// Not all bytes of a store are in memory.
    StoreOutside,
    /// The address of a load is no multiple of its width.
    LoadMisaligned,
    /// The address of a store is no multiple of its width.
    StoreMisaligned,
    /// The target of a jump or of a taken branch is no multiple of 4.
    JumpMisaligned,
}
