//! The forms of instructions.

ghost use Rattle.std.specs.Prelude.{◌≡◌};
ghost use Rattle.rv_decode.specs.Table.{operand_form};

use crate::instruction::Op;

/// How the operands of an instruction lie in its word, and how they are spelled.
#[derive(Clone, Copy)]
pub enum Form {
    /// A register and the upper twenty bits of a number.
    Upper,
    /// A register and a target.
    Jump,
    /// Two registers and a target.
    Branch,
    /// A register, and an offset from another.
    Offset,
    /// A register that is stored, and an offset from another.
    Store,
    /// Two registers and a number.
    Immediate,
    /// Two registers and an amount from 0 to 31.
    Shift,
    /// Three registers.
    Register,
    /// No operands.
    Plain,
}

/// The form of an operation.
pub fn form_of(op: Op) -> Form
    ensures { result ≡ operand_form op }
{
    match op {
        Op::Lui | Op::Auipc => Form::Upper,
        Op::Jal => Form::Jump,
        Op::Beq | Op::Bne | Op::Blt | Op::Bge | Op::Bltu | Op::Bgeu => Form::Branch,
        Op::Jalr | Op::Lb | Op::Lh | Op::Lw | Op::Lbu | Op::Lhu => Form::Offset,
        Op::Sb | Op::Sh | Op::Sw => Form::Store,
        Op::Addi | Op::Slti | Op::Sltiu | Op::Xori | Op::Ori | Op::Andi => Form::Immediate,
        Op::Slli | Op::Srli | Op::Srai => Form::Shift,
        Op::Add
        | Op::Sub
        | Op::Sll
        | Op::Slt
        | Op::Sltu
        | Op::Xor
        | Op::Srl
        | Op::Sra
        | Op::Or
        | Op::And
        | Op::Mul
        | Op::Mulh
        | Op::Mulhsu
        | Op::Mulhu
        | Op::Div
        | Op::Divu
        | Op::Rem
        | Op::Remu => Form::Register,
        Op::Fence | Op::FenceI | Op::Ecall | Op::Ebreak => Form::Plain,
    }
}
