//! Writing the file of a run.

ghost use Rattle.std.specs.Prelude.{◌≡◌, List, true};
ghost use Rattle.host_port.specs.Host.{Puts};
ghost use Rattle.host_port.specs.declared.side.Side.TheVariants.{File};
ghost use Rattle.mcount_arcs.specs.Log.{LogEntry};
ghost use Rattle.mcount_arcs.specs.Value.{StandsFor};
ghost use Rattle.gmon_gnu.specs.Run.{gnu_run_text, runtime_text, header_of, hist_words};

use byteorder::{ByteOrder, LittleEndian};
use host_port::{Failed, Host};
use mcount_arcs::{Gmon, Sizes};

/// The header with its spare bytes, the tag of a histogram, room for its numbers, the usual dimension with
/// its padding, and its abbreviation.
const HEADER: [u8; 53] = *b"gmon\x01\0\0\0\0\0\0\0\0\0\0\0\0\0\0\0\
    \0\
    \0\0\0\0\0\0\0\0\0\0\0\0\0\0\0\0\
    seconds\0\0\0\0\0\0\0\0s";

/// The tag of an arc.
pub(crate) const ARC_TAG: [u8; 1] = [1];

/// Writes the file of a run to the file that is being written: the header, one histogram with the
/// counters and with `rate` as the samples per second, and a record for each arc, by call site in
/// ascending order, the one called latest first. After `Failed` a prefix of that text was written, and
/// not the whole. Takes no memory.
#[tactic(auto, using(crate::proofs::RunTextLemmas::text_parts, crate::proofs::RunTextLemmas::text_stands))]
pub fn write_run<H: Host>(gmon: &Gmon, rate: u32, host: &mut H) -> Result<(), Failed>
    requires { (H.outside host.old).is_writing ≡ true }
    ensures puts { Puts File (runtime_text gmon.now rate) (H.outside host.old)
        (H.outside host.new) result }
    ensures log { (log : List LogEntry) → StandsFor log gmon.now →
        runtime_text gmon.now rate ≡ gnu_run_text gmon.now.sizes log rate }
{
    gmon_cells::write_run(gmon, &header(gmon.sizes(), rate), &ARC_TAG, host)
}

/// The header, and the histogram up to its counters.
fn header(sizes: Sizes, rate: u32) -> [u8; 53]
    ensures { result ≡ header_of sizes.low sizes.high sizes.counters rate }
{
    let mut bytes = HEADER;
    bytes[21..37].copy_from_slice(&hist_text(sizes.low, sizes.high, sizes.counters, rate));
    bytes
}

/// The numbers of a histogram.
pub(crate) fn hist_text(low: u32, high: u32, counters: u32, rate: u32) -> [u8; 16]
    ensures { result ≡ hist_words low high counters rate }
{
    let mut bytes = [0; 16];
    LittleEndian::write_u32_into(&[low, high, counters, rate], &mut bytes);
    bytes
}
