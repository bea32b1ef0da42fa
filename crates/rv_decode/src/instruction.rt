//! Operations and instructions.

ghost use Rattle.std.specs.Prelude.{◌<◌};

/// An operation of RV32I, M or Zifencei, named as in the RISC-V unprivileged manual.
#[derive(Clone, Copy, Debug, PartialEq, Eq)]
pub enum Op {
    Lui,
    Auipc,
    Jal,
    Jalr,
    Beq,
    Bne,
    Blt,
    Bge,
    Bltu,
    Bgeu,
    Lb,
    Lh,
    Lw,
    Lbu,
    Lhu,
    Sb,
    Sh,
    Sw,
    Addi,
    Slti,
    Sltiu,
    Xori,
    Ori,
    Andi,
    Slli,
    Srli,
    Srai,
    Add,
    Sub,
    Sll,
    Slt,
    Sltu,
    Xor,
    Srl,
    Sra,
    Or,
    And,
    Fence,
    FenceI,
    Ecall,
    Ebreak,
    Mul,
    Mulh,
    Mulhsu,
    Mulhu,
    Div,
    Divu,
    Rem,
    Remu,
}

/// An instruction. What its operation does not use is 0.
#[derive(Clone, Copy, Debug, PartialEq, Eq)]
pub struct Instr {
    pub op: Op,
    /// The register that is written, from 0 to 31.
    pub rd: u32,
    /// The first register that is read, from 0 to 31.
    pub rs1: u32,
    /// The second register that is read, from 0 to 31.
    pub rs2: u32,
    /// The immediate: of a jump or a branch the distance in bytes, of `lui` and `auipc` the number
    /// whose low twelve bits are 0, of a shift the amount from 0 to 31.
    pub imm: i32,
    ghost rd_in_range: { rd < 32 },
    ghost rs1_in_range: { rs1 < 32 },
    ghost rs2_in_range: { rs2 < 32 },
}
