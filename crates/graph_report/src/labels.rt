//! The ends of lines that name functions.

ghost use Rattle.std.specs.Prelude.{◌≡◌, ◌<◌, ℕ, List, IfOk};
ghost use Rattle.graph_report.specs.Entries.{number_in, graph_order};
ghost use Rattle.graph_report.specs.Inputs.{sources_in};
ghost use Rattle.graph_report.specs.Labels.{AreLabels, HasLabel, label_of};
ghost use Rattle.graph_report.specs.Numbers.{AreNumbers};

use crate::inputs::Inputs;
use crate::line_ends::function_tail;
use crate::numbers::Numbers;
use std::alloc::{AllocError, Global};

/// For each function what stands at the end of a line that names it, all in one text, so that little memory
/// is touched: where each begins, and where the last one ends.
#[derive(Drop)]
pub(crate) struct Labels {
    text: Vec<u8>,
    starts: Vec<usize>,
}

impl Labels {
    /// The label of a function.
    pub fn of(&self, f: u32) -> &[u8]
        requires { HasLabel self.now f }
        ensures { (count : ℕ) (of : ℕ → List ℕ) → AreLabels count of self.now → f < count
            → result.now ≡ of f }
    {
        let f = f as usize;
        let start = self.starts[f];
        let len = self.starts[f + 1] - start;
        let (_, rest) = self.text.split_at(start);
        rest.split_at(len).0
    }
}

/// The labels of all functions, given the numbers of the entries.
pub(crate) fn function_labels(
    alloc: Global,
    inputs: &Inputs<'_>,
    numbers: &Numbers,
) -> Result<Labels, AllocError>
    requires numbers { AreNumbers (sources_in inputs.now) numbers.now }
    ensures { let s = sources_in inputs.now in
        IfOk result (AreLabels s.graph.functions (label_of s (number_in (graph_order s)))) }
{
    let mut text = Vec::new(alloc);
    let mut starts = Vec::new(alloc);
    for f in 0..inputs.sources.graph.function_count() {
        starts.push(text.len())?;
        text.extend_from_slice(inputs.name(f))?;
        text.extend_from_slice(function_tail(inputs, numbers, f).bytes())?;
    }
    starts.push(text.len())?;
    Ok(Labels { text, starts })
}
