//! Looking for the first fault of a whole file. Nothing here takes memory.

ghost use Rattle.std.specs.Prelude.{◌≡◌, ◌*◌, ◌^◌, ◌<◌, ◌≤◌, length, drop, Some, IfOk, IfErr};
ghost use Rattle.gp_base.specs.declared.refusal.GmonRefusal.TheVariants.{Short};
ghost use Rattle.gmon_gnu.specs.Reading.{header_refusal, gnu_refusal, refusal_read};
ghost use Rattle.gmon_gnu.specs.Going.{records_on};

use crate::file::{HEADER, VERSION};
use crate::intake::{front_of, width_of};
use crate::state::Begun;
use gp_base::{GmonRefusal, word};

/// The first fault of a file, in the order of `read`.
#[tactic(auto, using(crate::proofs::SkipLemmas::past_header))]
pub fn fault(bytes: &[u8]) -> Option<GmonRefusal>
    requires { length bytes.now < 2 ^ 32 }
    ensures { result ≡ gnu_refusal bytes.now }
{
    match header_fault(bytes) {
        Some(refusal) => Some(refusal),
        None => records_fault(bytes.len() as u32, bytes.split_at(HEADER).1),
    }
}

/// What is wrong with the header of a file.
fn header_fault(bytes: &[u8]) -> Option<GmonRefusal>
    requires { length bytes.now < 2 ^ 32 }
    ensures { result ≡ header_refusal bytes.now }
{
    if bytes.len() < HEADER {
        return Some(GmonRefusal::Short {
            at: bytes.len() as u32,
        });
    }
    let version = word(bytes, 4);
    if version != VERSION {
        return Some(GmonRefusal::Version { value: version });
    }
    None
}

/// The first fault of the records that end a file of `len` bytes.
fn records_fault(len: u32, records: &[u8]) -> Option<GmonRefusal>
    requires { length records.now ≤ len }
    ensures { result ≡ refusal_read (records_on len records.now) }
{
    let mut rest = records;
    while !rest.is_empty() {
        match skip_record(len, rest) {
            Ok(behind) => rest = behind,
            Err(refusal) => return Some(refusal),
        }
    }
    None
}

/// What stands behind the first of the records that end a file of `len` bytes, or what is wrong with that record.
#[tactic(auto, using(crate::proofs::SkipLemmas::blocks_skipped))]
fn skip_record<'b>(len: u32, text: &'b [u8]) -> Result<&'b [u8], GmonRefusal>
    requires some { 0 < length text.now }
    requires within { length text.now ≤ len }
    ensures behind { IfOk result (λ behind. refusal_read (records_on len text.now)
        ≡ refusal_read (records_on len behind.now)) }
    ensures less { IfOk result (λ behind. length behind.now < length text.now) }
    ensures refused { IfErr result (λ refusal. refusal_read (records_on len text.now)
        ≡ Some refusal) }
{
    let width = width_of(text[0]);
    if text.len() < width {
        return Err(GmonRefusal::Short { at: len });
    }
    let (front, rest) = text.split_at(width);
    match front_of(len - text.len() as u32, front) {
        Begun::Hist { fields: _, count } => skip(len, count as usize * 2, rest),
        Begun::Arc(_) => Ok(rest),
        Begun::Blocks { count } => skip(len, count as usize * 8, rest),
        Begun::Refused(refusal) => Err(refusal),
    }
}

/// What stands behind so many bytes of a text that ends a file of `len` bytes.
fn skip<'b>(len: u32, due: usize, text: &'b [u8]) -> Result<&'b [u8], GmonRefusal>
    ensures rest { IfOk result (λ rest. rest.now ≡ drop due text.now) }
    ensures whole { IfOk result (λ rest. due ≤ length text.now) }
    ensures short { IfErr result (λ refusal. refusal ≡ Short len) }
    ensures torn { IfErr result (λ refusal. length text.now < due) }
{
    if text.len() < due {
        return Err(GmonRefusal::Short { at: len });
    }
    Ok(text.split_at(due).1)
}
