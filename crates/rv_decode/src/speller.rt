//! From instructions to text.

ghost use Rattle.std.specs.Prelude.{◌≡◌, ◌+◌, ◌*◌, ◌<◌, ◌≤◌, ◌++◌, length, codes};
ghost use Rattle.std.specs.Fmt.{signed_decimal};
ghost use Rattle.rv_decode.specs.Table.{mnemonic_of, operand_form};
ghost use Rattle.rv_decode.specs.Spelling.{listed_after, offset_text, operands_of, register_text, spelling_of, target_text, upper_text};

use crate::forms::{Form, form_of};
use crate::instruction::{Instr, Op};
use text_cols::Line;

/// Adds the spelling of an instruction at `pc`: its name and, after a space, its operands, as in
/// `lw x1, 12(x2)` and `bne x5, x0, 0x00010054`. It takes at most 48 bytes.
#[tactic(auto, unfolding(crate::specs::Spelling::spelling_of))]
pub fn spell(instr: &Instr, pc: u32, line: &mut Line)
    requires { length line.old + 48 ≤ 256 }
    ensures spelling { line.new ≡ line.old ++ spelling_of instr.now pc }
    ensures short { length line.new ≤ length line.old + 48 }
{
    line.put(name(instr.op));
    put_operands(instr, pc, line);
}

fn put_operands(instr: &Instr, pc: u32, line: &mut Line)
    requires { length line.old + 40 ≤ 256 }
    ensures operands { line.new ≡ line.old ++ listed_after (codes " ")
        (operands_of (operand_form instr.now.op) instr.now pc) }
    ensures short { length line.new ≤ length line.old + 40 }
{
    match form_of(instr.op) {
        Form::Upper => {
            put_register(b" ", instr.rd, line);
            put_upper(b", ", instr.imm, line);
        }
        Form::Jump => {
            put_register(b" ", instr.rd, line);
            put_target(b", ", pc, instr.imm, line);
        }
        Form::Branch => {
            put_register(b" ", instr.rs1, line);
            put_register(b", ", instr.rs2, line);
            put_target(b", ", pc, instr.imm, line);
        }
        Form::Offset => {
            put_register(b" ", instr.rd, line);
            put_offset(b", ", instr.imm, instr.rs1, line);
        }
        Form::Store => {
            put_register(b" ", instr.rs2, line);
            put_offset(b", ", instr.imm, instr.rs1, line);
        }
        Form::Immediate | Form::Shift => {
            put_register(b" ", instr.rd, line);
            put_register(b", ", instr.rs1, line);
            put_constant(b", ", instr.imm, line);
        }
        Form::Register => {
            put_register(b" ", instr.rd, line);
            put_register(b", ", instr.rs1, line);
            put_register(b", ", instr.rs2, line);
        }
        Form::Plain => {}
    }
}

#[tactic(auto, using(crate::proofs::Texts::length_register))]
fn put_register(mark: &[u8], r: u32, line: &mut Line)
    requires register { r < 32 }
    requires room { length line.old + length mark.now + 3 ≤ 256 }
    ensures text { line.new ≡ line.old ++ (mark.now ++ register_text r) }
    ensures short { length line.new ≤ length line.old + length mark.now + 3 }
{
    line.put(mark);
    line.put(b"x");
    line.decimal(u128::from(r));
}

#[tactic(auto, using(crate::proofs::Texts::length_constant))]
fn put_constant(mark: &[u8], imm: i32, line: &mut Line)
    requires { length line.old + length mark.now + 11 ≤ 256 }
    ensures text { line.new ≡ line.old ++ (mark.now ++ signed_decimal imm) }
    ensures short { length line.new ≤ length line.old + length mark.now + 11 }
{
    line.put(mark);
    if imm < 0 {
        line.put(b"-");
    }
    line.decimal(u128::from(imm.unsigned_abs()));
}

fn put_offset(mark: &[u8], imm: i32, r: u32, line: &mut Line)
    requires register { r < 32 }
    requires room { length line.old + length mark.now + 16 ≤ 256 }
    ensures text { line.new ≡ line.old ++ (mark.now ++ offset_text imm r) }
    ensures short { length line.new ≤ length line.old + length mark.now + 16 }
{
    put_constant(mark, imm, line);
    put_register(b"(", r, line);
    line.put(b")");
}

fn put_target(mark: &[u8], pc: u32, imm: i32, line: &mut Line)
    requires { length line.old + length mark.now + 10 ≤ 256 }
    ensures text { line.new ≡ line.old ++ (mark.now ++ target_text pc imm) }
    ensures len { length line.new ≡ length line.old + length mark.now + 10 }
{
    line.put(mark);
    line.put(b"0x");
    line.hex8(pc.wrapping_add(imm.cast_unsigned()));
}

fn put_upper(mark: &[u8], imm: i32, line: &mut Line)
    requires { length line.old + length mark.now + 7 ≤ 256 }
    ensures text { line.new ≡ line.old ++ (mark.now ++ upper_text imm) }
    ensures len { length line.new ≡ length line.old + length mark.now + 7 }
{
    let mut digits = Line::new();
    digits.hex8(imm.cast_unsigned() >> 12);
    line.put(mark);
    line.put(b"0x");
    let (_, low) = digits.bytes().split_at(3);
    line.put(low);
}

fn name(op: Op) -> &'static [u8]
    ensures name { result.now ≡ mnemonic_of op }
    ensures short { length result.now ≤ 7 }
{
    match op {
        Op::Lui => b"lui",
        Op::Auipc => b"auipc",
        Op::Jal => b"jal",
        Op::Jalr => b"jalr",
        Op::Beq => b"beq",
        Op::Bne => b"bne",
        Op::Blt => b"blt",
        Op::Bge => b"bge",
        Op::Bltu => b"bltu",
        Op::Bgeu => b"bgeu",
        Op::Lb => b"lb",
        Op::Lh => b"lh",
        Op::Lw => b"lw",
        Op::Lbu => b"lbu",
        Op::Lhu => b"lhu",
        Op::Sb => b"sb",
        Op::Sh => b"sh",
        Op::Sw => b"sw",
        Op::Addi => b"addi",
        Op::Slti => b"slti",
        Op::Sltiu => b"sltiu",
        Op::Xori => b"xori",
        Op::Ori => b"ori",
        Op::Andi => b"andi",
        Op::Slli => b"slli",
        Op::Srli => b"srli",
        Op::Srai => b"srai",
        Op::Add => b"add",
        Op::Sub => b"sub",
        Op::Sll => b"sll",
        Op::Slt => b"slt",
        Op::Sltu => b"sltu",
        Op::Xor => b"xor",
        Op::Srl => b"srl",
        Op::Sra => b"sra",
        Op::Or => b"or",
        Op::And => b"and",
        Op::Fence => b"fence",
        Op::FenceI => b"fence.i",
        Op::Ecall => b"ecall",
        Op::Ebreak => b"ebreak",
        Op::Mul => b"mul",
        Op::Mulh => b"mulh",
        Op::Mulhsu => b"mulhsu",
        Op::Mulhu => b"mulhu",
        Op::Div => b"div",
        Op::Divu => b"divu",
        Op::Rem => b"rem",
        Op::Remu => b"remu",
    }
}
