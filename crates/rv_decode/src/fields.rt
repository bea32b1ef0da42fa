//! Operands as they lie in a word. They are inlined, as all of `decode` is.

ghost use Rattle.std.specs.Prelude.{◌≡◌, ◌*◌, ◌^◌, ◌<◌, ◌≤◌};
ghost use Rattle.rv_decode.specs.Fields.{field, imm_b, imm_i, imm_j, imm_s, imm_u, signed_of};
ghost use Rattle.rv_decode.specs.Table.{instr_in};
ghost use Rattle.rv_decode.specs.declared.forms.Form.TheVariants.{Branch, Immediate, Jump, Plain, Register, Shift, Store, Upper};

use crate::instruction::{Instr, Op};

#[inline]
pub fn upper(op: Op, word: u32) -> Instr
    ensures { result ≡ instr_in Upper op word }
{
    Instr {
        op,
        rd: rd(word),
        rs1: 0,
        rs2: 0,
        imm: signed(bits(word, 12, 20) << 12, 1 << 31),
    }
}

#[inline]
pub fn jump(op: Op, word: u32) -> Instr
    ensures { result ≡ instr_in Jump op word }
{
    let high = (bits(word, 31, 1) << 20) + (bits(word, 12, 8) << 12);
    let low = (bits(word, 20, 1) << 11) + (bits(word, 21, 10) << 1);
    Instr {
        op,
        rd: rd(word),
        rs1: 0,
        rs2: 0,
        imm: signed(high + low, 1 << 20),
    }
}

#[inline(always)]
pub fn branch(op: Op, word: u32) -> Instr
    ensures { result ≡ instr_in Branch op word }
{
    let high = (bits(word, 31, 1) << 12) + (bits(word, 7, 1) << 11);
    let low = (bits(word, 25, 6) << 5) + (bits(word, 8, 4) << 1);
    Instr {
        op,
        rd: 0,
        rs1: rs1(word),
        rs2: rs2(word),
        imm: signed(high + low, 1 << 12),
    }
}

#[inline]
pub fn immediate(op: Op, word: u32) -> Instr
    ensures { result ≡ instr_in Immediate op word }
{
    Instr {
        op,
        rd: rd(word),
        rs1: rs1(word),
        rs2: 0,
        imm: signed(bits(word, 20, 12), 1 << 11),
    }
}

#[inline]
pub fn shift(op: Op, word: u32) -> Instr
    ensures { result ≡ instr_in Shift op word }
{
    Instr {
        op,
        rd: rd(word),
        rs1: rs1(word),
        rs2: 0,
        imm: bits(word, 20, 5) as i32,
    }
}

#[inline]
pub fn store(op: Op, word: u32) -> Instr
    ensures { result ≡ instr_in Store op word }
{
    Instr {
        op,
        rd: 0,
        rs1: rs1(word),
        rs2: rs2(word),
        imm: signed((bits(word, 25, 7) << 5) + bits(word, 7, 5), 1 << 11),
    }
}

#[inline]
pub fn register(op: Op, word: u32) -> Instr
    ensures { result ≡ instr_in Register op word }
{
    Instr {
        op,
        rd: rd(word),
        rs1: rs1(word),
        rs2: rs2(word),
        imm: 0,
    }
}

#[inline]
pub fn plain(op: Op, word: u32) -> Instr
    ensures { result ≡ instr_in Plain op word }
{
    Instr {
        op,
        rd: 0,
        rs1: 0,
        rs2: 0,
        imm: 0,
    }
}

#[inline]
fn rd(word: u32) -> u32
    ensures { result ≡ field word 7 5 }
{
    bits(word, 7, 5)
}

#[inline]
fn rs1(word: u32) -> u32
    ensures { result ≡ field word 15 5 }
{
    bits(word, 15, 5)
}

#[inline]
fn rs2(word: u32) -> u32
    ensures { result ≡ field word 20 5 }
{
    bits(word, 20, 5)
}

/// The `count` bits of the word from bit `low` on.
#[inline]
pub fn bits(word: u32, low: u32, count: u32) -> u32
    requires low { low < 32 }
    requires count { count < 32 }
    ensures { result ≡ field word low count }
{
    (word >> low) & ((1 << count) - 1)
}

/// The value in two's complement of bits whose highest counts `sign`.
#[inline]
fn signed(bits: u32, sign: u32) -> i32
    requires bits { bits < 2 * sign }
    requires sign { sign ≤ 2 ^ 31 }
    ensures { result ≡ signed_of sign bits }
{
    if bits < sign {
        bits as i32
    } else {
        (i64::from(bits) - 2 * i64::from(sign)) as i32
    }
}
