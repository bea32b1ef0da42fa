//! Results of operations on numbers.

ghost use Rattle.std.specs.Prelude.{◌≡◌};
ghost use Rattle.rv_step.specs.Alu.{high_half, mul_div_of, quotient_of, remainder_of, result_of, signed_quotient_of, signed_remainder_of, taken_of};

use rv_decode::Op;

/// The result of an operation of RV32I on two registers, or on a register and a constant modulo
/// 2^32.
#[tactic(auto, unfolding(crate::specs::Alu::result_of))]
pub(crate) fn computed(op: Op, a: u32, b: u32) -> u32
    ensures { result ≡ result_of op a b }
{
    match op {
        Op::Add | Op::Addi => a.wrapping_add(b),
        Op::Sub => a.wrapping_sub(b),
        Op::Sll | Op::Slli => a.wrapping_shl(b),
        Op::Slt | Op::Slti => u32::from(a.cast_signed() < b.cast_signed()),
        Op::Sltu | Op::Sltiu => u32::from(a < b),
        Op::Xor | Op::Xori => a ^ b,
        Op::Srl | Op::Srli => a.wrapping_shr(b),
        Op::Sra | Op::Srai => a.cast_signed().wrapping_shr(b).cast_unsigned(),
        Op::Or | Op::Ori => a | b,
        _ => a & b,
    }
}

/// The result of an operation of M.
#[tactic(auto, using(crate::proofs::Products::abs_below, crate::proofs::Products::high_half_wide), unfolding(crate::specs::Alu::mul_div_of))]
pub(crate) fn multiplied(op: Op, a: u32, b: u32) -> u32
    ensures { result ≡ mul_div_of op a b }
{
    match op {
        Op::Mul => a.wrapping_mul(b),
        Op::Mulh => high_half(i64::from(a.cast_signed()) * i64::from(b.cast_signed())),
        Op::Mulhsu => high_half(i64::from(a.cast_signed()) * i64::from(b)),
        Op::Mulhu => ((u64::from(a) * u64::from(b)) >> 32) as u32,
        Op::Div => signed_quotient(a, b),
        Op::Divu => quotient(a, b),
        Op::Rem => signed_remainder(a, b),
        _ => remainder(a, b),
    }
}

/// Bits 63 to 32.
fn high_half(product: i64) -> u32
    ensures { result ≡ high_half product }
{
    (product.cast_unsigned() >> 32) as u32
}

fn signed_quotient(a: u32, b: u32) -> u32
    ensures { result ≡ signed_quotient_of a b }
{
    if b == 0 {
        u32::MAX
    } else {
        a.cast_signed()
            .wrapping_div(b.cast_signed())
            .cast_unsigned()
    }
}

fn signed_remainder(a: u32, b: u32) -> u32
    ensures { result ≡ signed_remainder_of a b }
{
    if b == 0 {
        a
    } else {
        a.cast_signed()
            .wrapping_rem(b.cast_signed())
            .cast_unsigned()
    }
}

fn quotient(a: u32, b: u32) -> u32
    ensures { result ≡ quotient_of a b }
{
    if b == 0 { u32::MAX } else { a / b }
}

fn remainder(a: u32, b: u32) -> u32
    ensures { result ≡ remainder_of a b }
{
    if b == 0 { a } else { a % b }
}

/// Whether a branch is taken.
#[tactic(auto, unfolding(crate::specs::Alu::taken_of))]
pub(crate) fn is_taken(op: Op, a: u32, b: u32) -> bool
    ensures { result ≡ taken_of op a b }
{
    match op {
        Op::Beq => a == b,
        Op::Bne => a != b,
        Op::Blt => a.cast_signed() < b.cast_signed(),
        Op::Bge => a.cast_signed() >= b.cast_signed(),
        Op::Bltu => a < b,
        _ => a >= b,
    }
}
