//! The segments of a program (System V ABI, "Program Header").

ghost use Rattle.std.specs.Prelude.{◌≡◌, ◌+◌, ◌≤◌, length, find, option_map, OnOk, IfOk, IfErr};
ghost use Rattle.elf32_syms.specs.declared.refusal.ElfRefusal.TheVariants.{OutOfFile};
ghost use Rattle.elf32_syms.specs.Header.{AreInFile, header_of};
ghost use Rattle.elf32_syms.specs.Segments.{segment_at as segment_at_of, segments_of, is_cut_off};
ghost use Rattle.elf32_syms.specs.Refusals.{IsRefusal, segments_refusal};

use crate::header::Header;
use crate::image::{Segment, SegmentList};
use crate::refusal::ElfRefusal;
use gp_base::word;
use std::alloc::{AllocError, Global};

/// The type of a program header whose bytes are loaded.
const LOAD: u32 = 1;

/// The segment of the program header at an offset, if its bytes are loaded and it takes memory. The
/// file gives no more bytes than the segment takes.
#[tactic(auto, unfolding(crate::specs::Segments::segment_at))]
fn segment_at(bytes: &[u8], at: usize) -> Option<Segment>
    requires { at + 32 ≤ length bytes.now }
    ensures { result ≡ segment_at_of bytes.now at }
{
    let memsz = word(bytes, at + 20);
    if word(bytes, at) == LOAD && memsz > 0 {
        return Some(Segment {
            addr: word(bytes, at + 8),
            offset: word(bytes, at + 4),
            filesz: word(bytes, at + 16).min(memsz),
            memsz,
        });
    }
    None
}

/// The segments of the program header table.
fn listed(alloc: Global, bytes: &[u8], header: &Header) -> Result<SegmentList, AllocError>
    requires header { header.now ≡ header_of bytes.now }
    requires inside { AreInFile (length bytes.now) header.now }
    ensures { IfOk result (λ segments. segments ≡ segments_of bytes.now) }
{
    let mut segments = SegmentList::new(alloc);
    for index in 0..usize::from(header.programs) {
        let at = header.programs_at as usize + 32 * index;
        match segment_at(bytes, at) {
            Some(segment) => segments.push(segment)?,
            None => {}
        }
    }
    Ok(segments)
}

/// The first segment whose bytes do not all lie in a file of `len` bytes.
fn first_cut_off(segments: &[Segment], len: u64) -> Option<ElfRefusal>
    ensures { result ≡ option_map (λ s. OutOfFile s.offset) (find (is_cut_off len) segments.now) }
{
    segments
        .iter()
        .find(|s| u64::from(s.offset) + u64::from(s.filesz) > len)
        .map(|s| ElfRefusal::OutOfFile { at: s.offset })
}

/// The segments, each of which lies in the file.
#[tactic(auto, using(crate::proofs::RefusalLemmas::refusal_is, crate::proofs::RefusalLemmas::segments_judged))]
pub(crate) fn read_segments(
    alloc: Global,
    bytes: &[u8],
    header: &Header,
) -> Result<SegmentList, ElfRefusal>
    requires header { header.now ≡ header_of bytes.now }
    requires inside { AreInFile (length bytes.now) header.now }
    ensures refusal { IfErr result (λ e. IsRefusal e (segments_refusal bytes.now)) }
    ensures accepted { OnOk result (segments_refusal bytes.now ≡ None) }
    ensures segments { IfOk result (λ segments. segments ≡ segments_of bytes.now) }
{
    let segments = listed(alloc, bytes, header)?;
    match first_cut_off(segments.as_slice(), bytes.len() as u64) {
        Some(refusal) => Err(refusal),
        None => Ok(segments),
    }
}
