//! What is prepared before the first line is printed.

ghost use Rattle.graph_report.specs.Entries.{number_in, graph_order};
ghost use Rattle.graph_report.specs.Inputs.{sources_in};
ghost use Rattle.graph_report.specs.Labels.{AreLabels, label_of};
ghost use Rattle.graph_report.specs.Numbers.{AreNumbers};

use crate::inputs::Inputs;
use crate::labels::Labels;
use crate::numbers::Numbers;

/// What is printed, with the numbers of the entries, and what is made of them before the first line.
#[derive(Drop)]
pub(crate) struct Report<'a> {
    pub inputs: Inputs<'a>,
    pub numbers: Numbers,
    /// What stands at the end of the lines that name each function.
    pub labels: Labels,
    ghost numbered: { AreNumbers (sources_in inputs) numbers },
    ghost labelled: { AreLabels inputs.sources.graph.now.functions
        (label_of (sources_in inputs) (number_in (graph_order (sources_in inputs)))) labels },
}

impl Report<'_> {
    ghost use Rattle.std.specs.Prelude.{◌≡◌, ◌<◌};
    ghost use Rattle.graph_report.specs.Reports.{number_of};
    ghost use Rattle.graph_report.specs.declared.subjects.Subject.TheVariants.{Cycle, Function};

    /// The number of a function's entry.
    pub fn function_number(&self, f: u32) -> usize
        requires function { f < self.now.inputs.sources.graph.now.functions }
        ensures { result ≡ number_of self.now (Function f) }
    {
        self.numbers.functions[f as usize]
    }

    /// The number of a cycle's entry, given by its head.
    pub fn cycle_number(&self, head: u32) -> usize
        requires function { head < self.now.inputs.sources.graph.now.functions }
        ensures { result ≡ number_of self.now (Cycle head) }
    {
        self.numbers.cycles[head as usize]
    }
}
