//! What each instruction does. It is inlined, as all of `decode` is.

ghost use Rattle.std.specs.Prelude.{◌≡◌, ◌+◌, ◌%◌, ◌^◌, ◌<◌, ◌≤◌, length};
ghost use Rattle.rv_decode.specs.Fields.{jump_target};
ghost use Rattle.gp_base.specs.Bytes.{le};
ghost use Rattle.rv_step.specs.Alu.{extension_of, load_width, store_width};
ghost use Rattle.rv_step.specs.Memory.{Memory, value_at, write_at};
ghost use Rattle.rv_step.specs.Registers.{register, with_register};
ghost use Rattle.rv_step.specs.Step.{address_of, branches, computes, computes_with, outcome_of, with_result, gives, jumps, loads, multiplies, next_of, outcome, at_next, register_target, stores};

use crate::alu::{computed, is_taken, multiplied};
use crate::memory::Ram;
use crate::registers::Regs;
use crate::stepped::{Stepped, TrapKind};
use gp_base::{le2, le4};
use rv_decode::{Instr, Op};

/// Executes an instruction. Each has an arm of its own, so that it is told by one jump.
#[inline(always)]
#[tactic(auto, using(crate::proofs::OperationLemmas::passes_is), unfolding(crate::specs::Step::outcome_of))]
pub(crate) fn execute(instr: &Instr, regs: &mut Regs, ram: &mut Ram) -> Stepped
    ensures outcome { outcome result regs.new ram.new ≡ outcome_of instr.now.op
        instr.now regs.old ram.old }
    ensures base { ram.new.base ≡ ram.old.base }
    ensures size { length ram.new.bytes ≡ length ram.old.bytes }
{
    match instr.op {
        Op::Lui => give(instr.rd, instr.imm.cast_unsigned(), regs),
        Op::Auipc => give(instr.rd, target(regs.pc(), instr.imm), regs),
        Op::Jal => jump(instr, target(regs.pc(), instr.imm), regs),
        Op::Jalr => jump_to_register(instr, regs),
        Op::Beq => branch(Op::Beq, instr, regs),
        Op::Bne => branch(Op::Bne, instr, regs),
        Op::Blt => branch(Op::Blt, instr, regs),
        Op::Bge => branch(Op::Bge, instr, regs),
        Op::Bltu => branch(Op::Bltu, instr, regs),
        Op::Bgeu => branch(Op::Bgeu, instr, regs),
        Op::Lb => load(Op::Lb, instr, regs, ram),
        Op::Lh => load(Op::Lh, instr, regs, ram),
        Op::Lw => load(Op::Lw, instr, regs, ram),
        Op::Lbu => load(Op::Lbu, instr, regs, ram),
        Op::Lhu => load(Op::Lhu, instr, regs, ram),
        Op::Sb => store(Op::Sb, instr, regs, ram),
        Op::Sh => store(Op::Sh, instr, regs, ram),
        Op::Sw => store(Op::Sw, instr, regs, ram),
        Op::Addi => compute_with(Op::Addi, instr, regs),
        Op::Slti => compute_with(Op::Slti, instr, regs),
        Op::Sltiu => compute_with(Op::Sltiu, instr, regs),
        Op::Xori => compute_with(Op::Xori, instr, regs),
        Op::Ori => compute_with(Op::Ori, instr, regs),
        Op::Andi => compute_with(Op::Andi, instr, regs),
        Op::Slli => compute_with(Op::Slli, instr, regs),
        Op::Srli => compute_with(Op::Srli, instr, regs),
        Op::Srai => compute_with(Op::Srai, instr, regs),
        Op::Add => compute(Op::Add, instr, regs),
        Op::Sub => compute(Op::Sub, instr, regs),
        Op::Sll => compute(Op::Sll, instr, regs),
        Op::Slt => compute(Op::Slt, instr, regs),
        Op::Sltu => compute(Op::Sltu, instr, regs),
        Op::Xor => compute(Op::Xor, instr, regs),
        Op::Srl => compute(Op::Srl, instr, regs),
        Op::Sra => compute(Op::Sra, instr, regs),
        Op::Or => compute(Op::Or, instr, regs),
        Op::And => compute(Op::And, instr, regs),
        Op::Fence | Op::FenceI => pass(regs),
        Op::Ecall => Stepped::Ecall,
        Op::Ebreak => Stepped::Trap(TrapKind::Breakpoint),
        Op::Mul => multiply(Op::Mul, instr, regs),
        Op::Mulh => multiply(Op::Mulh, instr, regs),
        Op::Mulhsu => multiply(Op::Mulhsu, instr, regs),
        Op::Mulhu => multiply(Op::Mulhu, instr, regs),
        Op::Div => multiply(Op::Div, instr, regs),
        Op::Divu => multiply(Op::Divu, instr, regs),
        Op::Rem => multiply(Op::Rem, instr, regs),
        Op::Remu => multiply(Op::Remu, instr, regs),
    }
}

/// An address and a constant, modulo 2^32.
#[inline]
fn target(from: u32, imm: i32) -> u32
    ensures { result ≡ jump_target from imm }
{
    from.wrapping_add(imm.cast_unsigned())
}

#[inline]
fn pass(regs: &mut Regs) -> Stepped
    ensures { (m : Memory) → outcome result regs.new m ≡ outcome
        Stepped.Retired (at_next regs.old) m }
{
    regs.set_pc(regs.pc().wrapping_add(4));
    Stepped::Retired
}

#[inline]
fn give(rd: u32, value: u32, regs: &mut Regs) -> Stepped
    requires { rd < 32 }
    ensures { (m : Memory) → outcome result regs.new m ≡ outcome Stepped.Retired
        (with_result regs.old rd value) m }
{
    regs.set(rd, value);
    pass(regs)
}

#[tactic(auto, unfolding(crate::specs::Step::jumps))]
#[inline]
fn jump(instr: &Instr, to: u32, regs: &mut Regs) -> Stepped
    ensures { (m : Memory) → outcome result regs.new m ≡ jumps instr.now to regs.old m }
{
    if to % 4 != 0 {
        return Stepped::Trap(TrapKind::JumpMisaligned);
    }
    regs.set(instr.rd, regs.pc().wrapping_add(4));
    regs.set_pc(to);
    Stepped::Retired
}

#[inline]
fn jump_to_register(instr: &Instr, regs: &mut Regs) -> Stepped
    ensures { (m : Memory) → outcome result regs.new m ≡ jumps instr.now
        (register_target instr.now regs.old) regs.old m }
{
    let sum = address(instr, regs);
    jump(instr, sum - sum % 2, regs)
}

#[tactic(auto, unfolding(crate::specs::Step::branches))]
#[inline]
fn branch(op: Op, instr: &Instr, regs: &mut Regs) -> Stepped
    requires { instr.now.op ≡ op }
    ensures { (m : Memory) → outcome result regs.new m ≡ branches instr.now regs.old m }
{
    if !is_taken(op, regs.get(instr.rs1), regs.get(instr.rs2)) {
        return pass(regs);
    }
    let to = target(regs.pc(), instr.imm);
    if to % 4 != 0 {
        return Stepped::Trap(TrapKind::JumpMisaligned);
    }
    regs.set_pc(to);
    Stepped::Retired
}

/// The address of a load or a store.
#[inline]
fn address(instr: &Instr, regs: &Regs) -> u32
    ensures { result ≡ address_of instr.now regs.now }
{
    target(regs.get(instr.rs1), instr.imm)
}

/// How many bytes a load moves.
#[tactic(auto, unfolding(crate::specs::Alu::load_width))]
#[inline]
fn load_width(op: Op) -> u32
    ensures width { result ≡ load_width op }
    ensures positive { 0 < result }
{
    match op {
        Op::Lb | Op::Lbu => 1,
        Op::Lh | Op::Lhu => 2,
        _ => 4,
    }
}

/// How many bytes a store moves.
#[tactic(auto, unfolding(crate::specs::Alu::store_width))]
#[inline]
fn store_width(op: Op) -> u32
    ensures width { result ≡ store_width op }
    ensures positive { 0 < result }
{
    match op {
        Op::Sb => 1,
        Op::Sh => 2,
        _ => 4,
    }
}

#[tactic(auto, unfolding(crate::specs::Step::loads))]
#[inline(always)]
fn load(op: Op, instr: &Instr, regs: &mut Regs, ram: &Ram) -> Stepped
    requires { instr.now.op ≡ op }
    ensures { outcome result regs.new ram.now ≡ loads instr.now regs.old ram.now }
{
    let addr = address(instr, regs);
    let width = load_width(op);
    if addr % width != 0 {
        return Stepped::Trap(TrapKind::LoadMisaligned);
    }
    match ram.place(addr, width) {
        Some(at) => give(instr.rd, value(op, ram, at), regs),
        None => Stepped::Trap(TrapKind::LoadOutside),
    }
}

/// What a load makes of the bytes at a place.
#[tactic(auto, unfolding(crate::specs::Alu::extension_of, crate::specs::Alu::load_width))]
#[inline]
fn value(op: Op, ram: &Ram, at: usize) -> u32
    requires { at + load_width op ≤ length ram.now.bytes }
    ensures { result ≡ extension_of op (value_at ram.now (ram.now.base + at) (load_width op)) }
{
    match op {
        Op::Lb => i32::from(ram.byte(at).cast_signed()).cast_unsigned(),
        Op::Lbu => u32::from(ram.byte(at)),
        Op::Lh => i32::from(ram.half(at).cast_signed()).cast_unsigned(),
        Op::Lhu => u32::from(ram.half(at)),
        _ => ram.word(at),
    }
}

#[tactic(auto, unfolding(crate::specs::Step::stores))]
#[inline(always)]
fn store(op: Op, instr: &Instr, regs: &mut Regs, ram: &mut Ram) -> Stepped
    requires { instr.now.op ≡ op }
    ensures outcome { outcome result regs.new ram.new ≡ stores instr.now regs.old ram.old }
    ensures base { ram.new.base ≡ ram.old.base }
    ensures size { length ram.new.bytes ≡ length ram.old.bytes }
{
    let addr = address(instr, regs);
    let width = store_width(op);
    if addr % width != 0 {
        return Stepped::Trap(TrapKind::StoreMisaligned);
    }
    match ram.place(addr, width) {
        Some(at) => {
            put(op, at, regs.get(instr.rs2), ram);
            pass(regs)
        }
        None => Stepped::Trap(TrapKind::StoreOutside),
    }
}

/// Stores the low bytes of a number at a place.
#[tactic(auto, unfolding(crate::specs::Alu::store_width))]
#[inline]
fn put(op: Op, at: usize, value: u32, ram: &mut Ram)
    requires { at + store_width op ≤ length ram.old.bytes }
    ensures stored { ram.new ≡ write_at ram.old (ram.old.base + at) (le value (store_width op)) }
    ensures base { ram.new.base ≡ ram.old.base }
    ensures size { length ram.new.bytes ≡ length ram.old.bytes }
{
    match op {
        Op::Sb => ram.write(at, &[(value % 256) as u8]),
        Op::Sh => ram.write(at, &le2((value % 65536) as u16)),
        _ => ram.write(at, &le4(value)),
    }
}

#[tactic(auto, unfolding(crate::specs::Step::computes))]
#[inline]
fn compute(op: Op, instr: &Instr, regs: &mut Regs) -> Stepped
    requires { instr.now.op ≡ op }
    ensures { (m : Memory) → outcome result regs.new m ≡ computes instr.now regs.old m }
{
    let value = computed(op, regs.get(instr.rs1), regs.get(instr.rs2));
    give(instr.rd, value, regs)
}

#[tactic(auto, unfolding(crate::specs::Step::computes_with))]
#[inline]
fn compute_with(op: Op, instr: &Instr, regs: &mut Regs) -> Stepped
    requires { instr.now.op ≡ op }
    ensures { (m : Memory) → outcome result regs.new m ≡ computes_with instr.now regs.old m }
{
    let value = computed(op, regs.get(instr.rs1), instr.imm.cast_unsigned());
    give(instr.rd, value, regs)
}

#[tactic(auto, unfolding(crate::specs::Step::multiplies))]
#[inline(always)]
fn multiply(op: Op, instr: &Instr, regs: &mut Regs) -> Stepped
    requires { instr.now.op ≡ op }
    ensures { (m : Memory) → outcome result regs.new m ≡ multiplies instr.now regs.old m }
{
    let value = multiplied(op, regs.get(instr.rs1), regs.get(instr.rs2));
    give(instr.rd, value, regs)
}
