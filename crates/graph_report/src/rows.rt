//! The entries, in their order.

ghost use Rattle.std.specs.Prelude.{◌≡◌, ◌<◌, ◌++◌, IfOk, OnOk};
ghost use Rattle.graph_report.specs.Entries.{graph_entry_cmp, graph_order};
ghost use Rattle.graph_report.specs.Entries.{has_entry as has};
ghost use Rattle.graph_report.specs.Inputs.{sources_in};
ghost use Rattle.graph_report.specs.Rows.{cycle_entries, entries_of_rows, entry_of_row, function_entries};

use crate::inputs::Inputs;
use crate::subjects::{Subject, first_of, rank_of};
use std::alloc::{AllocError, Global};
use std::cmp::Ordering;

/// An entry: what it is of, its grains and its name.
#[derive(Drop)]
pub(crate) struct Row<'a> {
    pub subject: Subject,
    pub total: u128,
    pub name: &'a [u8],
}

/// Which of two entries stands first: that with the greater total, then by the bytes of their names, then
/// by their addresses, and then a cycle before a function.
fn order(one: &Row<'_>, other: &Row<'_>) -> Ordering
    ensures { result ≡ graph_entry_cmp (entry_of_row one.now) (entry_of_row other.now) }
{
    let by_total = other.total.cmp(&one.total);
    if by_total != Ordering::Equal {
        return by_total;
    }
    let by_name = one.name.cmp(other.name);
    if by_name != Ordering::Equal {
        return by_name;
    }
    let by_address = first_of(one.subject).cmp(&first_of(other.subject));
    by_address.then(rank_of(one.subject).cmp(&rank_of(other.subject)))
}

/// Whether a function took time, itself or in what it calls, or calls or is called.
fn has_entry(inputs: &Inputs<'_>, f: u32) -> bool
    requires function { f < inputs.now.sources.graph.now.functions }
    ensures { result ≡ has (sources_in inputs.now) f }
{
    let called = inputs.calls_to(f);
    let calls = inputs.calls_from(f);
    let own = inputs.sources.graph.self_calls(f);
    inputs.total(f) > 0 || called > 0 || calls > 0 || own > 0
}

/// Adds the cycles, in the order of components.
#[tactic(auto, using(crate::proofs::RowLemmas::row_added, crate::proofs::RowLemmas::no_row))]
fn put_cycles<'a>(inputs: &Inputs<'a>, rows: &mut Vec<Row<'a>>) -> Result<(), AllocError>
    ensures { OnOk result (entries_of_rows rows.new.items
        ≡ entries_of_rows rows.old.items ++ cycle_entries (sources_in inputs.now)) }
{
    for c in 0..inputs.sources.graph.component_count() {
        if inputs.sources.graph.is_cycle(c) {
            rows.push(Row {
                subject: Subject::Cycle(inputs.sources.graph.head(c)),
                total: inputs.component_total(c),
                name: inputs.cycle_name(c),
            })?;
        }
    }
    Ok(())
}

/// Adds the functions that have an entry, in the order of their addresses.
#[tactic(auto, using(crate::proofs::RowLemmas::row_added, crate::proofs::RowLemmas::no_row))]
fn put_functions<'a>(inputs: &Inputs<'a>, rows: &mut Vec<Row<'a>>) -> Result<(), AllocError>
    ensures { OnOk result (entries_of_rows rows.new.items
        ≡ entries_of_rows rows.old.items ++ function_entries (sources_in inputs.now)) }
{
    for f in 0..inputs.sources.graph.function_count() {
        if has_entry(inputs, f) {
            rows.push(Row {
                subject: Subject::Function(f),
                total: inputs.total(f),
                name: inputs.name(f),
            })?;
        }
    }
    Ok(())
}

/// All entries, in their order.
pub(crate) fn rows_in_order<'a>(
    alloc: Global,
    inputs: &Inputs<'a>,
) -> Result<Vec<Row<'a>>, AllocError>
    ensures { IfOk result (λ rows. entries_of_rows rows.items
        ≡ graph_order (sources_in inputs.now)) }
{
    let mut rows = Vec::new(alloc);
    put_cycles(inputs, &mut rows)?;
    put_functions(inputs, &mut rows)?;
    rows.sort_unstable_by(|one, other| order(one, other));
    Ok(rows)
}
