//! One step.

ghost use Rattle.std.specs.Prelude.{◌≡◌, ◌⊎◌, ◌%◌, length};
ghost use Rattle.rv_step.specs.Step.{word_at_pc, outcome, step_of};

use crate::execution::execute;
use crate::memory::Ram;
use crate::registers::Regs;
use crate::stepped::{Stepped, TrapKind};
use rv_decode::decode;

/// Executes the instruction at pc, as the RISC-V unprivileged manual describes RV32I, M and Zifencei.
/// After Ecall and Trap registers, pc and memory are as before. Takes no memory.
#[inline(always)]
#[tactic(auto, using(crate::proofs::StepEnds::not_fetched, crate::proofs::StepEnds::not_decoded, crate::proofs::StepEnds::decoded, crate::proofs::KeptByStep::keeps_executed))]
pub fn step(regs: &mut Regs, ram: &mut Ram) -> Stepped
    ensures answer { result ≡ (step_of regs.old ram.old).answer }
    ensures registers { regs.new ≡ (step_of regs.old ram.old).registers }
    ensures memory { ram.new ≡ (step_of regs.old ram.old).memory }

    // What callers rely on.
    ensures unchanged { (result ≡ Stepped.Retired) ⊎ ((regs.new ≡ regs.old) × (ram.new ≡ ram.old)) }
    ensures aligned { regs.old.pc % 4 ≡ 0 → regs.new.pc % 4 ≡ 0 }
    ensures base { ram.new.base ≡ ram.old.base }
    ensures size { length ram.new.bytes ≡ length ram.old.bytes }
{
    let Some(word) = fetch(regs, ram) else {
        return Stepped::Trap(TrapKind::FetchOutside);
    };
    match &decode(word) {
        Some(instr) => execute(instr, regs, ram),
        None => Stepped::Trap(TrapKind::Illegal),
    }
}

/// The word at pc, if its four bytes are all in memory. Takes no memory.
pub fn fetch(regs: &Regs, ram: &Ram) -> Option<u32>
    ensures { result ≡ word_at_pc regs.now ram.now }
{
    let at = ram.place(regs.pc(), 4)?;
    Some(ram.word(at))
}
