//! The lines of `show`.

ghost use Rattle.std.specs.Prelude.{◌≡◌, ◌<◌, length};
ghost use Rattle.std.specs.List.{flat_map, enumerate_from};
ghost use Rattle.host_port.specs.Buffered.{Adds};
ghost use Rattle.host_port.specs.Host.{Puts};
ghost use Rattle.host_port.specs.declared.side.Side.TheVariants.{Output};
ghost use Rattle.gmon_cells.specs.Views.{hist_viewed, rec_viewed};
ghost use Rattle.gmon_files.specs.Viewed.{recs_left, records_left};
ghost use Rattle.text_lines.specs.Lines.{show_text, form_line, rec_text, hist_text, hist_line, arc_line, blocks_text, blocks_line, block_line, counter_text, counter_address};
ghost use Rattle.text_lines.specs.Pending.{pending};

use crate::line::{HistHead, put_arc, put_block, put_blocks, put_count, put_histogram};
use crate::lines::Lines;
use gmon_cells::{HistView, RecView};
use gmon_files::RecordViews;
use gp_base::{Form, RawArc, RawBlock, RawHist, Rec, Records, quotient};
use host_port::{Failed, Host};

/// How many bytes a line takes at most, other than the first one of a histogram.
const SHORT: usize = 40;

/// How many bytes any line takes at most.
const WHOLE: usize = 256;

/// Prints the lines of records on the output, as each form has them: a line for each histogram and for
/// each of its counters that isn't 0, for each arc, and for counts of basic blocks. Takes no memory.
/// After `Failed` a prefix of the lines is printed, and not all of them.
pub fn show_records<H: Host>(records: &Records, host: &mut H) -> Result<(), Failed>
    ensures { Puts Output (show_text records.now) (H.outside host.old) (H.outside host.new) result }
{
    let mut lines = Lines::new();
    put_records(records, &mut lines, host)?;
    lines.flush(host)
}

/// Prints the lines of the records of a profile file, as `show_records` does, one after the other as the file's
/// reader keeps them. Takes no memory.
pub fn show_file<H: Host>(views: RecordViews<'_>, host: &mut H) -> Result<(), Failed>
    ensures { Puts Output (show_text (records_left views.entry)) (H.outside host.old)
        (H.outside host.new) result }
{
    let mut lines = Lines::new();
    put_file(views, &mut lines, host)?;
    lines.flush(host)
}

fn put_records<H: Host>(records: &Records, lines: &mut Lines, host: &mut H) -> Result<(), Failed>
    ensures { Adds Output (show_text records.now) (pending lines.old) (pending lines.new)
        (H.outside host.old) (H.outside host.new) result }
{
    put_form(records.form, lines, host)?;
    put_recs(records.form, records.recs.as_slice(), lines, host)
}

fn put_file<H: Host>(views: RecordViews<'_>, lines: &mut Lines, host: &mut H) -> Result<(), Failed>
    ensures { Adds Output (show_text (records_left views.entry)) (pending lines.old)
        (pending lines.new) (H.outside host.old) (H.outside host.new) result }
{
    let form = views.form();
    put_form(form, lines, host)?;
    put_views(form, views, lines, host)
}

fn put_form<H: Host>(form: Form, lines: &mut Lines, host: &mut H) -> Result<(), Failed>
    ensures { Adds Output (form_line form) (pending lines.old) (pending lines.new)
        (H.outside host.old) (H.outside host.new) result }
{
    match form {
        Form::Bsd => Ok(()),
        Form::Gnu => {
            lines.make_room(SHORT, host)?;
            lines.last.put(b"gnu\n");
            Ok(())
        }
    }
}

fn put_recs<H: Host>(
    form: Form,
    recs: &[Rec],
    lines: &mut Lines,
    host: &mut H,
) -> Result<(), Failed>
    ensures { Adds Output (flat_map (rec_text form) recs.now) (pending lines.old)
        (pending lines.new) (H.outside host.old) (H.outside host.new) result }
{
    for rec in recs {
        put_rec(form, rec, lines, host)?;
    }
    Ok(())
}

fn put_views<H: Host>(
    form: Form,
    views: RecordViews<'_>,
    lines: &mut Lines,
    host: &mut H,
) -> Result<(), Failed>
    ensures { Adds Output (flat_map (rec_text form) (recs_left views.entry)) (pending lines.old)
        (pending lines.new) (H.outside host.old) (H.outside host.new) result }
{
    let mut views = views;
    loop {
        match views.next() {
            Some(view) => put_view(form, view, lines, host)?,
            None => return Ok(()),
        }
    }
}

fn put_rec<H: Host>(form: Form, rec: &Rec, lines: &mut Lines, host: &mut H) -> Result<(), Failed>
    ensures { Adds Output (rec_text form rec.now) (pending lines.old) (pending lines.new)
        (H.outside host.old) (H.outside host.new) result }
{
    match rec {
        Rec::Hist(hist) => put_hist(form, hist, lines, host),
        Rec::Arc(arc) => put_arc_line(*arc, lines, host),
        Rec::Blocks(blocks) => put_block_list(blocks.as_slice(), lines, host),
    }
}

/// Puts the lines of the record that a view stands for.
fn put_view<H: Host>(
    form: Form,
    view: RecView<'_>,
    lines: &mut Lines,
    host: &mut H,
) -> Result<(), Failed>
    ensures { Adds Output (rec_text form (rec_viewed view.entry)) (pending lines.old)
        (pending lines.new) (H.outside host.old) (H.outside host.new) result }
{
    match view {
        RecView::Hist(hist) => put_hist_view(form, hist, lines, host),
        RecView::Arc(arc) => put_arc_line(arc, lines, host),
        RecView::Blocks(blocks) => put_block_list(blocks, lines, host),
    }
}

fn put_hist<H: Host>(
    form: Form,
    hist: &RawHist,
    lines: &mut Lines,
    host: &mut H,
) -> Result<(), Failed>
    ensures { Adds Output (hist_text form hist.now) (pending lines.old) (pending lines.new)
        (H.outside host.old) (H.outside host.new) result }
{
    let view = HistView {
        low: hist.low,
        high: hist.high,
        unit: hist.unit,
        counters: hist.counters.as_slice(),
    };
    put_hist_view(form, view, lines, host)
}

fn put_hist_view<H: Host>(
    form: Form,
    hist: HistView<'_>,
    lines: &mut Lines,
    host: &mut H,
) -> Result<(), Failed>
    ensures { Adds Output (hist_text form (hist_viewed hist.entry)) (pending lines.old)
        (pending lines.new) (H.outside host.old) (H.outside host.new) result }
{
    let head = HistHead {
        low: hist.low,
        high: hist.high,
        unit: hist.unit,
        counters: hist.counters.len(),
    };
    put_head(form, head, lines, host)?;
    put_counters(head, hist.counters, lines, host)
}

/// Puts the first line of a histogram.
fn put_head<H: Host>(
    form: Form,
    head: HistHead,
    lines: &mut Lines,
    host: &mut H,
) -> Result<(), Failed>
    ensures { Adds Output (hist_line form head) (pending lines.old) (pending lines.new)
        (H.outside host.old) (H.outside host.new) result }
{
    lines.make_room(WHOLE, host)?;
    put_histogram(&mut lines.last, form, head);
    Ok(())
}

fn put_counters<H: Host>(
    head: HistHead,
    counters: &[u16],
    lines: &mut Lines,
    host: &mut H,
) -> Result<(), Failed>
    requires { head.counters ≡ length counters.now }
    ensures { Adds Output (flat_map (counter_text head) (enumerate_from 0 counters.now))
        (pending lines.old) (pending lines.new) (H.outside host.old) (H.outside host.new) result }
{
    for (i, counter) in counters.iter().enumerate() {
        put_counter(head, i, *counter, lines, host)?;
    }
    Ok(())
}

fn put_counter<H: Host>(
    head: HistHead,
    i: usize,
    counter: u16,
    lines: &mut Lines,
    host: &mut H,
) -> Result<(), Failed>
    requires { i < head.counters }
    ensures { Adds Output (counter_text head (i, counter)) (pending lines.old) (pending lines.new)
        (H.outside host.old) (H.outside host.new) result }
{
    if counter == 0 {
        return Ok(());
    }
    lines.make_room(SHORT, host)?;
    put_count(&mut lines.last, address(head, i), counter);
    Ok(())
}

/// Where a counter begins.
fn address(head: HistHead, i: usize) -> u32
    requires { i < head.counters }
    ensures { result ≡ counter_address head i }
{
    let width = u128::from(head.high.saturating_sub(head.low));
    head.low + quotient(i as u128 * width, head.counters as u128) as u32
}

fn put_arc_line<H: Host>(arc: RawArc, lines: &mut Lines, host: &mut H) -> Result<(), Failed>
    ensures { Adds Output (arc_line arc) (pending lines.old) (pending lines.new)
        (H.outside host.old) (H.outside host.new) result }
{
    lines.make_room(SHORT, host)?;
    put_arc(&mut lines.last, arc);
    Ok(())
}

fn put_block_list<H: Host>(
    blocks: &[RawBlock],
    lines: &mut Lines,
    host: &mut H,
) -> Result<(), Failed>
    ensures { Adds Output (blocks_text blocks.now) (pending lines.old) (pending lines.new)
        (H.outside host.old) (H.outside host.new) result }
{
    put_number_of_blocks(blocks.len(), lines, host)?;
    put_block_lines(blocks, lines, host)
}

/// Puts the line that counts of so many basic blocks begin with.
fn put_number_of_blocks<H: Host>(
    blocks: usize,
    lines: &mut Lines,
    host: &mut H,
) -> Result<(), Failed>
    ensures { Adds Output (blocks_line blocks) (pending lines.old) (pending lines.new)
        (H.outside host.old) (H.outside host.new) result }
{
    lines.make_room(SHORT, host)?;
    put_blocks(&mut lines.last, blocks);
    Ok(())
}

fn put_block_lines<H: Host>(
    blocks: &[RawBlock],
    lines: &mut Lines,
    host: &mut H,
) -> Result<(), Failed>
    ensures { Adds Output (flat_map block_line blocks.now) (pending lines.old) (pending lines.new)
        (H.outside host.old) (H.outside host.new) result }
{
    for block in blocks {
        put_block_line(*block, lines, host)?;
    }
    Ok(())
}

fn put_block_line<H: Host>(block: RawBlock, lines: &mut Lines, host: &mut H) -> Result<(), Failed>
    ensures { Adds Output (block_line block) (pending lines.old) (pending lines.new)
        (H.outside host.old) (H.outside host.new) result }
{
    lines.make_room(SHORT, host)?;
    put_block(&mut lines.last, block);
    Ok(())
}
