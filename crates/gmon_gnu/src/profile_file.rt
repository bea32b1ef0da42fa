//! Writing the file of a profile.

ghost use Rattle.std.specs.Prelude.{◌≡◌, ◌*◌, ◌^◌, ◌<◌, true, ◌++◌, length, map, OnOk};
ghost use Rattle.std.specs.List.{flat_map};
ghost use Rattle.host_port.specs.Buffered.{Adds};
ghost use Rattle.host_port.specs.Host.{Puts};
ghost use Rattle.host_port.specs.declared.side.Side.TheVariants.{File};
ghost use Rattle.gp_base.specs.Fields.{counter_bytes};
ghost use Rattle.gmon_gnu.specs.Grammar.{rec_bytes, hist_bytes, blocks_bytes};
ghost use Rattle.gmon_gnu.specs.ProfileText.{profile_text, IsReadBack};
ghost use Rattle.gmon_gnu.specs.Splitting.{piece as spec_piece, largest as spec_largest, hist_piece, raw_hist, hist_recs, raw_block, rounds_of};
ghost use Rattle.gmon_gnu.specs.Pieces.{hist_header, hist_pieces_text, arc_text_of};

use crate::pieces::{MOST_CALLS, MOST_SAMPLES, largest, piece, pieces};
use crate::rounds::put_rounds;
use crate::run_file::{ARC_TAG, hist_text};
use gmon_cells::put_arc;
use gmon_data::{Hist, Profile};
use gp_base::{RawArc, Unit, le2};
use host_port::{Failed, Host, OutBuf};

/// The header with its spare bytes.
const HEADER: [u8; 20] = *b"gmon\x01\0\0\0\0\0\0\0\0\0\0\0\0\0\0\0";

/// The tag of a histogram.
const HIST_TAG: u8 = 0;

/// Writes a profile to the file that is being written: the header, its histograms, its arcs and its block
/// counts, each in the profile's order. A counter above 65,535 is split over histograms of the same range,
/// calls and executions above 4,294,967,295 over several records. After `Failed` a prefix of that text was
/// written, and not the whole. The text is read back as the profile. Takes no memory.
pub fn write<H: Host>(profile: &Profile, host: &mut H) -> Result<(), Failed>
    requires { (H.outside host.old).is_writing ≡ true }
    ensures puts { Puts File (profile_text profile.now) (H.outside host.old)
        (H.outside host.new) result }
    ensures read { IsReadBack profile.now }
{
    profile.holds();
    let mut out = OutBuf::new();
    put_profile(profile, &mut out, host)?;
    out.flush(host)
}

fn put_profile<H: Host>(profile: &Profile, out: &mut OutBuf, host: &mut H) -> Result<(), Failed>
    requires { (H.outside host.old).is_writing ≡ true }
    ensures adds { Adds File (profile_text profile.now) out.old out.new (H.outside host.old)
        (H.outside host.new) result }
    ensures ready { OnOk result ((H.outside host.new).is_writing ≡ true) }
{
    out.put(host, &HEADER)?;
    put_hists(profile, out, host)?;
    put_calls(profile, out, host)?;
    put_runs(profile, out, host)
}

#[tactic(auto, using(crate::proofs::ProfileTextLemmas::hists_text))]
fn put_hists<H: Host>(profile: &Profile, out: &mut OutBuf, host: &mut H) -> Result<(), Failed>
    requires { (H.outside host.old).is_writing ≡ true }
    ensures adds { Adds File (flat_map rec_bytes (hist_recs profile.now.«unit» profile.now.hists))
        out.old out.new (H.outside host.old) (H.outside host.new) result }
    ensures ready { OnOk result ((H.outside host.new).is_writing ≡ true) }
{
    match profile.unit() {
        None => Ok(()),
        Some(unit) => put_hists_in(unit, profile, out, host),
    }
}

fn put_hists_in<H: Host>(
    unit: Unit,
    profile: &Profile,
    out: &mut OutBuf,
    host: &mut H,
) -> Result<(), Failed>
    requires { (H.outside host.old).is_writing ≡ true }
    ensures adds { Adds File (flat_map (hist_pieces_text «unit») profile.now.hists) out.old out.new
        (H.outside host.old) (H.outside host.new) result }
    ensures ready { OnOk result ((H.outside host.new).is_writing ≡ true) }
{
    for i in 0..profile.hist_count() {
        put_hist_pieces(profile.hist(i), unit, out, host)?;
    }
    Ok(())
}

/// A histogram, as many times as its largest counter has pieces.
fn put_hist_pieces<H: Host>(
    hist: &Hist,
    unit: Unit,
    out: &mut OutBuf,
    host: &mut H,
) -> Result<(), Failed>
    requires few { length hist.now.counters < 2 ^ 32 }
    requires ready { (H.outside host.old).is_writing ≡ true }
    ensures adds { Adds File (hist_pieces_text «unit» hist.now) out.old out.new (H.outside host.old)
        (H.outside host.new) result }
    ensures ready { OnOk result ((H.outside host.new).is_writing ≡ true) }
{
    for j in 0..pieces(MOST_SAMPLES, largest(hist.counters.as_slice())) {
        put_hist_piece(j, hist, unit, out, host)?;
    }
    Ok(())
}

/// A histogram with piece `j` of each counter.
fn put_hist_piece<H: Host>(
    j: u64,
    hist: &Hist,
    unit: Unit,
    out: &mut OutBuf,
    host: &mut H,
) -> Result<(), Failed>
    requires few { length hist.now.counters < 2 ^ 32 }
    requires within { j * 65535 < 2 ^ 64 }
    requires ready { (H.outside host.old).is_writing ≡ true }
    ensures adds { Adds File (hist_bytes (raw_hist «unit» (hist_piece hist.now j))) out.old out.new
        (H.outside host.old) (H.outside host.new) result }
    ensures ready { OnOk result ((H.outside host.new).is_writing ≡ true) }
{
    out.put(host, &hist_front(hist, unit))?;
    put_counters(j, hist.counters.as_slice(), out, host)
}

/// A histogram up to its counters.
fn hist_front(hist: &Hist, unit: Unit) -> [u8; 33]
    requires { length hist.now.counters < 2 ^ 32 }
    ensures { result ≡ hist_header «unit» hist.now }
{
    let counters = hist.counters.as_slice().len() as u32;
    let mut front = [HIST_TAG; 33];
    front[1..17].copy_from_slice(&hist_text(hist.low, hist.high, counters, unit.rate));
    front[17..32].copy_from_slice(&unit.dim);
    front[32] = unit.abbrev;
    front
}

/// Piece `j` of each counter.
fn put_counters<H: Host>(
    j: u64,
    counters: &[u64],
    out: &mut OutBuf,
    host: &mut H,
) -> Result<(), Failed>
    requires within { j * 65535 < 2 ^ 64 }
    requires ready { (H.outside host.old).is_writing ≡ true }
    ensures adds { Adds File (flat_map (λ n. counter_bytes (spec_piece 65535 j n)) counters.now)
        out.old out.new (H.outside host.old) (H.outside host.new) result }
    ensures ready { OnOk result ((H.outside host.new).is_writing ≡ true) }
{
    for i in 0..counters.len() {
        out.put(host, &le2(piece(MOST_SAMPLES, j, counters[i]) as u16))?;
    }
    Ok(())
}

fn put_calls<H: Host>(profile: &Profile, out: &mut OutBuf, host: &mut H) -> Result<(), Failed>
    requires { (H.outside host.old).is_writing ≡ true }
    ensures adds { Adds File (flat_map arc_text_of profile.now.arcs) out.old out.new
        (H.outside host.old) (H.outside host.new) result }
    ensures ready { OnOk result ((H.outside host.new).is_writing ≡ true) }
{
    for i in 0..profile.arc_count() {
        let (from, to, calls) = profile.arc(i);
        put_pair(from, to, calls, out, host)?;
    }
    Ok(())
}

/// The calls of a pair, in arcs of as many as four bytes hold.
fn put_pair<H: Host>(
    from: u32,
    to: u32,
    calls: u64,
    out: &mut OutBuf,
    host: &mut H,
) -> Result<(), Failed>
    requires { (H.outside host.old).is_writing ≡ true }
    ensures adds { Adds File (arc_text_of ((from, to), calls)) out.old out.new (H.outside host.old)
        (H.outside host.new) result }
    ensures ready { OnOk result ((H.outside host.new).is_writing ≡ true) }
{
    for j in 0..pieces(MOST_CALLS, calls) {
        let count = piece(MOST_CALLS, j, calls) as u32;
        put_arc(&ARC_TAG, RawArc { from, to, count }, out, host)?;
    }
    Ok(())
}

fn put_runs<H: Host>(profile: &Profile, out: &mut OutBuf, host: &mut H) -> Result<(), Failed>
    requires { (H.outside host.old).is_writing ≡ true }
    ensures adds { Adds File (flat_map (λ es. blocks_bytes (map raw_block es))
        (rounds_of profile.now.blocks)) out.old out.new (H.outside host.old)
        (H.outside host.new) result }
    ensures ready { OnOk result ((H.outside host.new).is_writing ≡ true) }
{
    if profile.block_count() == 0 {
        return Ok(());
    }
    put_rounds(pieces(MOST_CALLS, largest_run(profile)), profile, out, host)
}

/// The largest number of executions of a basic block, or 0.
#[tactic(auto, using(std::proofs::lemmas::Option::get_or_from_slice_get, crate::proofs::PieceLemmas::larger, crate::proofs::PieceLemmas::largest_entry))]
fn largest_run(profile: &Profile) -> u64
    ensures { result ≡ spec_largest (map (λ e. e.1) profile.now.blocks) }
{
    let mut most = 0;
    for i in 0..profile.block_count() {
        let (_, runs) = profile.block(i);
        most = most.max(runs);
    }
    most
}
