//! The numbers of entries.

ghost use Rattle.std.specs.Prelude.{◌≡◌, ◌<◌, ℕ, IfOk, length, slice_index, if◌then◌else◌};
ghost use Rattle.graph_report.specs.Entries.{first_function, is_same, graph_order};
ghost use Rattle.graph_report.specs.Inputs.{sources_in};
ghost use Rattle.graph_report.specs.Numbers.{AreNumbers};
ghost use Rattle.graph_report.specs.Rows.{entries_of_rows};
ghost use Rattle.graph_report.specs.declared.subjects.Subject.TheVariants.{Cycle, Function};

use crate::inputs::Inputs;
use crate::rows::Row;
use crate::subjects::Subject;
use std::alloc::{AllocError, Global};

/// The number of each entry, from 1 on. What has no entry has 0.
#[derive(Drop)]
pub(crate) struct Numbers {
    /// By function.
    pub functions: Vec<usize>,
    /// By the head of the cycle.
    pub cycles: Vec<usize>,
}

/// Gives the entry of a subject its number.
fn put_number(numbers: &mut Numbers, subject: Subject, number: usize)
    requires functions { first_function subject < length numbers.old.functions.items }
    requires cycles { first_function subject < length numbers.old.cycles.items }
    ensures function_count { length numbers.new.functions.items
        ≡ length numbers.old.functions.items }
    ensures cycle_count { length numbers.new.cycles.items ≡ length numbers.old.cycles.items }
    ensures functions { (f : ℕ) → f < length numbers.old.functions.items
        → slice_index numbers.new.functions.items f
        ≡ (if is_same subject (Function f) then number else slice_index numbers.old.functions.items
        f) }
    ensures cycles { (head : ℕ) → head < length numbers.old.cycles.items
        → slice_index numbers.new.cycles.items head
        ≡ (if is_same subject (Cycle head) then number else slice_index numbers.old.cycles.items
        head) }
{
    match subject {
        Subject::Cycle(head) => numbers.cycles[head as usize] = number,
        Subject::Function(f) => numbers.functions[f as usize] = number,
    }
}

/// The numbers of the entries of these rows. Of several with one subject the first counts.
pub(crate) fn entry_numbers(
    alloc: Global,
    inputs: &Inputs<'_>,
    rows: &[Row<'_>],
) -> Result<Numbers, AllocError>
    requires rows { entries_of_rows rows.now ≡ graph_order (sources_in inputs.now) }
    ensures { IfOk result (AreNumbers (sources_in inputs.now)) }
{
    let count = inputs.sources.graph.function_count() as usize;
    let mut numbers = Numbers {
        functions: vec![in alloc; 0usize; count]?,
        cycles: vec![in alloc; 0usize; count]?,
    };
    for i in (0..rows.len()).rev() {
        put_number(&mut numbers, rows[i].subject, i + 1);
    }
    Ok(numbers)
}
