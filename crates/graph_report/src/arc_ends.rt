//! The ends of an arc.

ghost use Rattle.std.specs.Prelude.{◌≡◌};
ghost use Rattle.graph_report.specs.ArcLines.{function_at_end};

use call_cycles::FunArc;

/// Which end of an arc a line names.
#[derive(Clone, Copy)]
pub(crate) enum ArcEnd {
    Caller,
    Callee,
}

/// The function at an end of an arc.
pub(crate) fn function_at(arc: FunArc, end: ArcEnd) -> u32
    ensures { result ≡ function_at_end end arc }
{
    match end {
        ArcEnd::Caller => arc.caller,
        ArcEnd::Callee => arc.callee,
    }
}
