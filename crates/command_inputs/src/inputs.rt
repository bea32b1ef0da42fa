//! Reading the inputs of a command.

ghost use Rattle.std.specs.Prelude.{◌≡◌, ◌+◌, ◌-◌, ◌≤◌, true, false, length, IfOk, OnOk};
ghost use Rattle.elf32_syms.specs.Image.{IsWithinLimits, image_of};
ghost use Rattle.gmon_data.specs.Content.{content_of, empty_content};
ghost use Rattle.profile_sum.specs.Sum.{sum_of};
ghost use Rattle.command_inputs.specs.Totals.{records_of, total_of};
ghost use Rattle.courses.specs.Answer.{contents_of};
ghost use Rattle.gmon_data.specs.Sizes.{IsOfBytes};
ghost use Rattle.command_inputs.specs.Reading.{HasRead, ReadsProgram, ReadsOne, AddsProfile, ReadsProfiles, IsAddedUp};
ghost use Rattle.command_words.specs.Words.{AreRising};

use command_words::Words;
use courses::Fault;
use courses::refusals::{elf_fault, load_fault, read_fault, sum_fault};
use elf32_syms::Image;
use gmon_data::Profile;
use gmon_files::read_pieces;
use gp_base::limits::{MAX_ELF_BYTES, MAX_PROFILE_BYTES};
use host_port::{Host, load};
use profile_sum::add_into;
use std::alloc::Global;
use std::mem::replace;

/// Reads the program's file that a word names: its bytes and its image.
pub fn read_program<H: Host>(
    alloc: Global,
    words: &Words<'_>,
    word: u32,
    host: &mut H,
) -> Result<(Vec<u8>, Image), Fault>
    requires { (H.outside host.old).is_writing ≡ false }
    ensures reads { ReadsProgram words.now word (H.outside host.old) (H.outside host.new) result }
    ensures still_idle { (H.outside host.new).is_writing ≡ false }
    ensures limits { IfOk result (λ read. IsWithinLimits (length read.0.items) read.1) }
    ensures image { IfOk result (λ read. read.1 ≡ image_of read.0.items) }
{
    let bytes = match load(alloc, host, words.name(word), MAX_ELF_BYTES) {
        Ok(bytes) => bytes,
        Err(refusal) => return Err(load_fault(refusal, word, MAX_ELF_BYTES)),
    };
    let image = match elf32_syms::read(alloc, bytes.as_slice()) {
        Ok(image) => image,
        Err(refusal) => return Err(elf_fault(refusal)),
    };
    Ok((bytes, image))
}

/// Reads the profile file that a word names, of at most `left` bytes: the profile of its records, and its
/// length.
fn read_profile<H: Host>(
    alloc: Global,
    words: &Words<'_>,
    word: u32,
    left: u32,
    host: &mut H,
) -> Result<(Profile, u32), Fault>
    requires idle { (H.outside host.old).is_writing ≡ false }
    requires limit { left ≤ MAX_PROFILE_BYTES }
    ensures reads { ReadsOne words.now word left (H.outside host.old) (H.outside host.new) result }
    ensures still_idle { (H.outside host.new).is_writing ≡ false }
    ensures within { IfOk result (λ read. read.1 ≤ left) }
    ensures records { IfOk result (λ read. IsAddedUp read.0) }
    ensures size { IfOk result (λ read. IsOfBytes read.1 read.0) }
    ensures told { IfOk result (λ read. HasRead (H.outside host.old) (H.outside host.new)
        (λ files. read.0 ≡ content_of (records_of (contents_of words.now files word)))) }
{
    let (reader, len) = match read_pieces(alloc, host, words.name(word), left) {
        Ok(read) => read,
        Err(refusal) => return Err(load_fault(refusal, word, left)),
    };
    match reader.into_profile() {
        Ok(profile) => Ok((profile, len)),
        Err(refusal) => Err(read_fault(refusal, word)),
    }
}

/// Reads the profile files that words name, together of at most 67,108,864 bytes, and adds them up.
pub fn read_profiles<H: Host>(
    alloc: Global,
    words: &Words<'_>,
    gmons: &[u32],
    host: &mut H,
) -> Result<Profile, Fault>
    requires idle { (H.outside host.old).is_writing ≡ false }
    requires rising { AreRising gmons.now }
    ensures reads { ReadsProfiles words.now gmons.now (H.outside host.old)
        (H.outside host.new) result }
    ensures still_idle { (H.outside host.new).is_writing ≡ false }
    ensures told { IfOk result (λ total. HasRead (H.outside host.old) (H.outside host.new)
        (λ files. total ≡ total_of (contents_of words.now files) gmons.now)) }
{
    let mut total = Profile::new(alloc);
    let mut left = MAX_PROFILE_BYTES;
    for i in 0..gmons.len() {
        left -= add_profile(alloc, words, gmons[i], left, &mut total, host)?;
    }
    Ok(total)
}

/// Reads the profile file that a word names, of at most `left` bytes, and adds it to a total: its length.
/// Where it can't be added, the total is gone.
fn add_profile<H: Host>(
    alloc: Global,
    words: &Words<'_>,
    word: u32,
    left: u32,
    total: &mut Profile,
    host: &mut H,
) -> Result<u32, Fault>
    requires idle { (H.outside host.old).is_writing ≡ false }
    requires limit { left ≤ MAX_PROFILE_BYTES }
    requires size { IsOfBytes (MAX_PROFILE_BYTES - left) total.old }
    ensures adds { AddsProfile words.now word left total.old total.new
        (H.outside host.old) (H.outside host.new) result }
    ensures still_idle { (H.outside host.new).is_writing ≡ false }
    ensures within { IfOk result (λ len. len ≤ left) }
    ensures size { IfOk result (λ len. IsOfBytes (MAX_PROFILE_BYTES - left + len) total.new) }
    ensures told { OnOk result (HasRead (H.outside host.old) (H.outside host.new)
        (λ files. total.new ≡ sum_of total.old
        (content_of (records_of (contents_of words.now files word))))) }
{
    let (more, len) = read_profile(alloc, words, word, left, host)?;
    if is_empty(total) {
        *total = more;
        return Ok(len);
    }
    let before = replace(total, Profile::new(alloc));
    match add_into(before, &more) {
        Ok(sum) => {
            *total = sum;
            Ok(len)
        }
        Err(refusal) => Err(sum_fault(refusal, word)),
    }
}

/// Whether a profile holds nothing, so that its sum with another one is that one.
fn is_empty(profile: &Profile) -> bool
    ensures { result ≡ true → profile.now ≡ empty_content }
{
    profile.hist_count() == 0 && profile.arc_count() == 0 && profile.block_count() == 0
}
