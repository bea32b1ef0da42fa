//! Writing the file of a run.

ghost use Rattle.std.specs.Prelude.{◌≡◌, ◌≤◌, List, true};
ghost use Rattle.host_port.specs.Host.{Puts};
ghost use Rattle.host_port.specs.declared.side.Side.TheVariants.{File};
ghost use Rattle.mcount_arcs.specs.Log.{LogEntry};
ghost use Rattle.mcount_arcs.specs.Value.{StandsFor};
ghost use Rattle.gmon_bsd.specs.Run.{bsd_run_text, runtime_text, header_of};

use crate::file::{HEADER, VERSION};
use byteorder::{ByteOrder, LittleEndian};
use host_port::{Failed, Host};
use mcount_arcs::{Gmon, Sizes};

/// Writes the file of a run to the file that is being written, as `_mcleanup` of 4.4BSD's `gmon.c`
/// does: the header, with `rate` as the samples per second, the counters, and the arcs by call site in
/// ascending order, the one called latest first. After `Failed` a prefix of that text was written, and
/// not the whole. Takes no memory.
pub fn write_run<H: Host>(gmon: &Gmon, rate: u32, host: &mut H) -> Result<(), Failed>
    requires { (H.outside host.old).is_writing ≡ true }
    ensures puts { Puts File (runtime_text gmon.now rate) (H.outside host.old)
        (H.outside host.new) result }
    ensures log { (log : List LogEntry) → StandsFor log gmon.now →
        runtime_text gmon.now rate ≡ bsd_run_text gmon.now.sizes log rate }
{
    gmon_cells::write_run(gmon, &header(gmon.sizes(), rate), &[], host)
}

fn header(sizes: Sizes, rate: u32) -> [u8; HEADER]
    requires { sizes.counters ≤ 4194312 }
    ensures { result ≡ header_of sizes.low sizes.high sizes.counters rate }
{
    let size = HEADER as u32 + 2 * sizes.counters;
    let words = [sizes.low, sizes.high, size, VERSION, rate, 0, 0, 0];
    let mut bytes = [0; HEADER];
    LittleEndian::write_u32_into(&words, &mut bytes);
    bytes
}
