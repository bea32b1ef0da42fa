//! Writing the file of a run.

ghost use Rattle.std.specs.Prelude.{◌≡◌, true, OnOk};
ghost use Rattle.std.specs.List.{flat_map};
ghost use Rattle.host_port.specs.Buffered.{Adds};
ghost use Rattle.host_port.specs.Host.{Puts};
ghost use Rattle.host_port.specs.declared.side.Side.TheVariants.{File};
ghost use Rattle.gp_base.specs.Fields.{counters_text};
ghost use Rattle.gmon_cells.specs.FileText.{file_text, tagged_by};

use gp_base::{RawArc, arc_text, le2};
use host_port::{Failed, Host, OutBuf};
use mcount_arcs::Gmon;

/// Writes the file of a run to the file that is being written: a header, the counters, and the arcs by call
/// site in ascending order, the one called latest first, each behind a tag. After `Failed` a prefix of that
/// text was written, and not the whole. Takes no memory.
pub fn write_run<H: Host>(
    gmon: &Gmon,
    header: &[u8],
    tag: &[u8],
    host: &mut H,
) -> Result<(), Failed>
    requires { (H.outside host.old).is_writing ≡ true }
    ensures puts { Puts File (file_text header.now tag.now gmon.now.counters gmon.now.arcs)
        (H.outside host.old) (H.outside host.new) result }
{
    let mut out = OutBuf::new();
    put_run(gmon, header, tag, &mut out, host)?;
    out.flush(host)
}

fn put_run<H: Host>(
    gmon: &Gmon,
    header: &[u8],
    tag: &[u8],
    out: &mut OutBuf,
    host: &mut H,
) -> Result<(), Failed>
    requires { (H.outside host.old).is_writing ≡ true }
    ensures adds { Adds File (file_text header.now tag.now gmon.now.counters gmon.now.arcs) out.old
        out.new (H.outside host.old) (H.outside host.new) result }
    ensures ready { OnOk result ((H.outside host.new).is_writing ≡ true) }
{
    out.put(host, header)?;
    put_counters(gmon, out, host)?;
    put_arcs(gmon, tag, out, host)
}

/// Puts the counters of a run, two bytes each.
fn put_counters<H: Host>(gmon: &Gmon, out: &mut OutBuf, host: &mut H) -> Result<(), Failed>
    requires { (H.outside host.old).is_writing ≡ true }
    ensures adds { Adds File (counters_text gmon.now.counters) out.old out.new (H.outside host.old)
        (H.outside host.new) result }
    ensures ready { OnOk result ((H.outside host.new).is_writing ≡ true) }
{
    for i in 0..gmon.sizes().counters {
        out.put(host, &le2(gmon.counter(i)))?;
    }
    Ok(())
}

fn put_arcs<H: Host>(gmon: &Gmon, tag: &[u8], out: &mut OutBuf, host: &mut H) -> Result<(), Failed>
    requires { (H.outside host.old).is_writing ≡ true }
    ensures adds { Adds File (flat_map (tagged_by tag.now) gmon.now.arcs) out.old out.new
        (H.outside host.old) (H.outside host.new) result }
    ensures ready { OnOk result ((H.outside host.new).is_writing ≡ true) }
{
    for arc in gmon.arcs() {
        put_arc(tag, arc, out, host)?;
    }
    Ok(())
}

/// Puts an arc behind its tag.
pub fn put_arc<H: Host>(
    tag: &[u8],
    arc: RawArc,
    out: &mut OutBuf,
    host: &mut H,
) -> Result<(), Failed>
    requires { (H.outside host.old).is_writing ≡ true }
    ensures adds { Adds File (tagged_by tag.now arc) out.old out.new (H.outside host.old)
        (H.outside host.new) result }
    ensures ready { OnOk result ((H.outside host.new).is_writing ≡ true) }
{
    out.put(host, tag)?;
    out.put(host, &arc_text(arc))
}
