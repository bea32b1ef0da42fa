//! Single lines of the text of an exact flow, made in place.

ghost use Rattle.std.specs.Prelude.{◌≡◌, ◌+◌, ◌<◌, ◌≤◌, ◌++◌, length};
ghost use Rattle.fraction128.specs.Values.{value_of};
ghost use Rattle.graph_report.specs.ExactText.{frac_text, component_line, exact_arc_line, total_line};

use fraction128::Frac;
use text_cols::Line;

/// Adds the two numbers of a fraction.
#[tactic(auto, using(text_cols::proofs::Lengths::lengths))]
fn put_frac(line: &mut Line, frac: &Frac)
    requires { length line.old + 79 ≤ 256 }
    ensures text { line.new ≡ line.old ++ frac_text (value_of frac.now) }
    ensures short { length line.new ≤ length line.old + 79 }
{
    line.decimal(frac.num());
    line.put(b"/");
    line.decimal(frac.den());
}

/// The line of a component.
#[tactic(auto, using(text_cols::proofs::Lengths::lengths), unfolding(crate::specs::ExactText::component_line))]
pub(crate) fn component(address: u32, self_time: u128, child_time: &Frac) -> Line
    ensures { result ≡ component_line address self_time (value_of child_time.now) }
{
    let mut line = Line::new();
    line.put(b"component ");
    line.hex8(address);
    line.put(b" self ");
    line.decimal(self_time);
    line.put(b" child ");
    put_frac(&mut line, child_time);
    line.put(b"\n");
    line
}

/// The line of an outside arc.
#[tactic(auto, using(text_cols::proofs::Lengths::lengths), unfolding(crate::specs::ExactText::exact_arc_line))]
pub(crate) fn arc(caller: u32, callee: u32, self_part: &Frac, child_part: &Frac) -> Line
    ensures { result ≡ exact_arc_line caller callee (value_of self_part.now)
        (value_of child_part.now) }
{
    let mut line = Line::new();
    line.put(b"arc ");
    line.hex8(caller);
    line.put(b" ");
    line.hex8(callee);
    line.put(b" self ");
    put_frac(&mut line, self_part);
    line.put(b" child ");
    put_frac(&mut line, child_part);
    line.put(b"\n");
    line
}

/// The last line.
#[tactic(auto, using(text_cols::proofs::Lengths::lengths), unfolding(crate::specs::ExactText::total_line))]
pub(crate) fn total(attributed: u128) -> Line
    ensures { result ≡ total_line attributed }
{
    let mut line = Line::new();
    line.put(b"attributed ");
    line.decimal(attributed);
    line.put(b"\n");
    line
}
