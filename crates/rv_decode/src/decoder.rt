//! From words to instructions. All of it is inlined where it is called, so that what executes an instruction knows which
//! it is from the jumps that told it, and its operands needn't go through memory.

ghost use Rattle.std.specs.Prelude.{◌≡◌, ◌<◌, bit_and};
ghost use Rattle.rv_decode.specs.Fields.{field};
ghost use Rattle.rv_decode.specs.Table.{instr_of};

use crate::fields::{bits, branch, immediate, jump, plain, register, shift, store, upper};
use crate::instruction::{Instr, Op};

/// The instruction of a word, as the RISC-V unprivileged manual lists RV32I, M and Zifencei, or None
/// where the word is none of these. A field that the instruction does not use is 0.
#[inline(always)]
pub fn decode(word: u32) -> Option<Instr>
    ensures { result ≡ instr_of word }
{
    match word & 0x7F {
        0x03 => load(word),
        0x0F => fence(word),
        0x13 => with_immediate(word),
        0x17 => Some(upper(Op::Auipc, word)),
        0x23 => stores(word),
        0x33 => with_registers(word),
        0x37 => Some(upper(Op::Lui, word)),
        0x63 => branches(word),
        0x67 => jump_to_register(word),
        0x6F => Some(jump(Op::Jal, word)),
        0x73 => system(word),
        _ => None,
    }
}

#[inline(always)]
#[tactic(auto, using(crate::proofs::RowLemmas::at_funct3), unfolding(crate::specs::Table::table))]
fn load(word: u32) -> Option<Instr>
    requires { bit_and word 0x7F ≡ 0x03 }
    ensures { result ≡ instr_of word }
{
    match funct3(word) {
        0 => Some(immediate(Op::Lb, word)),
        1 => Some(immediate(Op::Lh, word)),
        2 => Some(immediate(Op::Lw, word)),
        4 => Some(immediate(Op::Lbu, word)),
        5 => Some(immediate(Op::Lhu, word)),
        _ => None,
    }
}

#[inline(always)]
#[tactic(auto, using(crate::proofs::RowLemmas::at_funct3), unfolding(crate::specs::Table::table))]
fn stores(word: u32) -> Option<Instr>
    requires { bit_and word 0x7F ≡ 0x23 }
    ensures { result ≡ instr_of word }
{
    match funct3(word) {
        0 => Some(store(Op::Sb, word)),
        1 => Some(store(Op::Sh, word)),
        2 => Some(store(Op::Sw, word)),
        _ => None,
    }
}

#[inline(always)]
#[tactic(auto, using(crate::proofs::RowLemmas::at_funct3), unfolding(crate::specs::Table::table))]
fn branches(word: u32) -> Option<Instr>
    requires { bit_and word 0x7F ≡ 0x63 }
    ensures { result ≡ instr_of word }
{
    match funct3(word) {
        0 => Some(branch(Op::Beq, word)),
        1 => Some(branch(Op::Bne, word)),
        4 => Some(branch(Op::Blt, word)),
        5 => Some(branch(Op::Bge, word)),
        6 => Some(branch(Op::Bltu, word)),
        7 => Some(branch(Op::Bgeu, word)),
        _ => None,
    }
}

#[inline(always)]
#[tactic(auto, using(crate::proofs::RowLemmas::at_funct3), unfolding(crate::specs::Table::table))]
fn jump_to_register(word: u32) -> Option<Instr>
    requires { bit_and word 0x7F ≡ 0x67 }
    ensures { result ≡ instr_of word }
{
    match funct3(word) {
        0 => Some(immediate(Op::Jalr, word)),
        _ => None,
    }
}

#[inline(always)]
#[tactic(auto, using(crate::proofs::RowLemmas::at_funct7, crate::proofs::RowLemmas::no_left_shift, crate::proofs::RowLemmas::no_right_shift), unfolding(crate::specs::Table::table))]
fn with_immediate(word: u32) -> Option<Instr>
    requires { bit_and word 0x7F ≡ 0x13 }
    ensures { result ≡ instr_of word }
{
    match funct3(word) {
        0 => Some(immediate(Op::Addi, word)),
        1 => match funct7(word) {
            0x00 => Some(shift(Op::Slli, word)),
            _ => None,
        },
        2 => Some(immediate(Op::Slti, word)),
        3 => Some(immediate(Op::Sltiu, word)),
        4 => Some(immediate(Op::Xori, word)),
        5 => match funct7(word) {
            0x00 => Some(shift(Op::Srli, word)),
            0x20 => Some(shift(Op::Srai, word)),
            _ => None,
        },
        6 => Some(immediate(Op::Ori, word)),
        _ => Some(immediate(Op::Andi, word)),
    }
}

#[inline(always)]
fn with_registers(word: u32) -> Option<Instr>
    requires { bit_and word 0x7F ≡ 0x33 }
    ensures { result ≡ instr_of word }
{
    match funct7(word) {
        0x00 => with_registers_00(word),
        0x01 => with_registers_01(word),
        0x20 => with_registers_20(word),
        _ => None,
    }
}

#[inline(always)]
#[tactic(auto, using(crate::proofs::RowLemmas::at_funct7), unfolding(crate::specs::Table::table))]
fn with_registers_00(word: u32) -> Option<Instr>
    requires opcode { bit_and word 0x7F ≡ 0x33 }
    requires funct7 { field word 25 7 ≡ 0x00 }
    ensures { result ≡ instr_of word }
{
    match funct3(word) {
        0 => Some(register(Op::Add, word)),
        1 => Some(register(Op::Sll, word)),
        2 => Some(register(Op::Slt, word)),
        3 => Some(register(Op::Sltu, word)),
        4 => Some(register(Op::Xor, word)),
        5 => Some(register(Op::Srl, word)),
        6 => Some(register(Op::Or, word)),
        _ => Some(register(Op::And, word)),
    }
}

#[inline(always)]
#[tactic(auto, using(crate::proofs::RowLemmas::at_funct7), unfolding(crate::specs::Table::table))]
fn with_registers_20(word: u32) -> Option<Instr>
    requires opcode { bit_and word 0x7F ≡ 0x33 }
    requires funct7 { field word 25 7 ≡ 0x20 }
    ensures { result ≡ instr_of word }
{
    match funct3(word) {
        0 => Some(register(Op::Sub, word)),
        5 => Some(register(Op::Sra, word)),
        _ => None,
    }
}

#[inline(always)]
#[tactic(auto, using(crate::proofs::RowLemmas::at_funct7), unfolding(crate::specs::Table::table))]
fn with_registers_01(word: u32) -> Option<Instr>
    requires opcode { bit_and word 0x7F ≡ 0x33 }
    requires funct7 { field word 25 7 ≡ 0x01 }
    ensures { result ≡ instr_of word }
{
    match funct3(word) {
        0 => Some(register(Op::Mul, word)),
        1 => Some(register(Op::Mulh, word)),
        2 => Some(register(Op::Mulhsu, word)),
        3 => Some(register(Op::Mulhu, word)),
        4 => Some(register(Op::Div, word)),
        5 => Some(register(Op::Divu, word)),
        6 => Some(register(Op::Rem, word)),
        _ => Some(register(Op::Remu, word)),
    }
}

#[inline(always)]
#[tactic(auto, using(crate::proofs::RowLemmas::at_funct3), unfolding(crate::specs::Table::table))]
fn fence(word: u32) -> Option<Instr>
    requires { bit_and word 0x7F ≡ 0x0F }
    ensures { result ≡ instr_of word }
{
    match funct3(word) {
        0 => Some(plain(Op::Fence, word)),
        1 => Some(plain(Op::FenceI, word)),
        _ => None,
    }
}

#[inline(always)]
#[tactic(auto, unfolding(crate::specs::Table::table, crate::specs::Table::row_of, crate::specs::Table::instr_of))]
fn system(word: u32) -> Option<Instr>
    requires { bit_and word 0x7F ≡ 0x73 }
    ensures { result ≡ instr_of word }
{
    match word {
        0x0000_0073 => Some(plain(Op::Ecall, word)),
        0x0010_0073 => Some(plain(Op::Ebreak, word)),
        _ => None,
    }
}

#[inline]
fn funct3(word: u32) -> u32
    ensures funct3 { result ≡ field word 12 3 }
    ensures below { result < 8 }
{
    bits(word, 12, 3)
}

#[inline]
fn funct7(word: u32) -> u32
    ensures { result ≡ field word 25 7 }
{
    bits(word, 25, 7)
}
