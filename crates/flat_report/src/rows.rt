//! The functions that have a line, in their order.

ghost use Rattle.std.specs.Prelude.{◌≡◌, ◌<◌, ◌^◌, length, map, IfOk};
ghost use Rattle.std.specs.List.{All};
ghost use Rattle.call_cycles.specs.Graph.{all_calls};
ghost use Rattle.call_cycles.specs.Sums.{list_of};
ghost use Rattle.symbol_shares.specs.Shares.{attributed_of};
ghost use Rattle.flat_report.specs.Entries.{flat_entries, flat_entry_cmp, listed_functions, has_line};
ghost use Rattle.flat_report.specs.Rows.{FitsIn, IsRowOf, entry_of_row, entries_of_rows, sources_of};
ghost use Rattle.flat_report.specs.Sources.{AreOfOne, calls_in_all};

use crate::calls::calls_of_functions;
use crate::sources::Sources;
use elf32_syms::Symbol;
use std::alloc::{AllocError, Global};
use std::cmp::Ordering;

/// A function, and what its line shows. Times are in grains.
#[derive(Drop)]
pub(crate) struct Row<'a> {
    /// The function's number, in the order of addresses.
    pub number: u32,
    pub share: u128,
    /// The share, and what the function gets from those that it calls.
    pub total: u128,
    pub calls: u64,
    pub symbol: &'a Symbol,
}

/// Which of two functions has its line first: that with the greater share, then that with more
/// calls, then by the bytes of their names, then by their addresses.
fn order(one: &Row<'_>, other: &Row<'_>) -> Ordering
    ensures { result ≡ flat_entry_cmp (one.now.number, entry_of_row one.now)
        (other.now.number, entry_of_row other.now) }
{
    let by_share = other.share.cmp(&one.share);
    let by_numbers = by_share.then(other.calls.cmp(&one.calls));
    if by_numbers != Ordering::Equal {
        return by_numbers;
    }
    let name = one.symbol.name.as_slice();
    let by_name = name.cmp(other.symbol.name.as_slice());
    by_name.then(one.number.cmp(&other.number))
}

/// Whether a function has a line.
fn is_shown(row: &Row<'_>) -> bool
    ensures { result ≡ has_line (entry_of_row row.now) }
{
    row.share > 0 || row.calls > 0
}

/// The row of function `f`.
fn row_of<'a>(sources: &Sources<'a>, calls: &[u64], f: u32) -> Row<'a>
    requires of_one { AreOfOne (sources_of sources.now) }
    requires small { attributed_of sources.now.shares.now < 2 ^ 65 }
    requires calls { calls.now ≡ list_of sources.now.graph.now.functions
        (calls_in_all sources.now.graph.now) }
    requires inside { f < sources.now.graph.now.functions }
    ensures function { IsRowOf (sources_of sources.now) result }
    ensures number { result.number ≡ f }
{
    let share = sources.shares.of(f);
    Row {
        number: f,
        share,
        total: share + sources.flow.member_child(f),
        calls: calls[f as usize],
        symbol: &sources.symbols[f as usize],
    }
}

/// The functions with a line, in the order of the symbols.
fn rows_with_lines<'a>(
    alloc: Global,
    sources: &Sources<'a>,
    calls: &[u64],
) -> Result<Vec<Row<'a>>, AllocError>
    requires of_one { AreOfOne (sources_of sources.now) }
    requires calls { calls.now ≡ list_of sources.now.graph.now.functions
        (calls_in_all sources.now.graph.now) }
    ensures rows { IfOk result (λ rows. All (IsRowOf (sources_of sources.now)) rows.items) }
    ensures functions { IfOk result (λ rows. map (λ row. row.number) rows.items
        ≡ listed_functions (sources_of sources.now)) }
{
    sources.shares.holds();
    let mut rows = Vec::new(alloc);
    for f in 0..sources.graph.function_count() {
        let row = row_of(sources, calls, f);
        if is_shown(&row) {
            rows.push(row)?;
        }
    }
    Ok(rows)
}

/// The functions with a line, in the order of their lines.
pub(crate) fn rows_in_order<'a>(
    alloc: Global,
    sources: &Sources<'a>,
) -> Result<Vec<Row<'a>>, AllocError>
    requires of_one { AreOfOne (sources_of sources.now) }
    requires few { all_calls sources.now.graph.now < 2 ^ 59 }
    ensures entries { IfOk result (λ rows. entries_of_rows rows.items
        ≡ flat_entries (sources_of sources.now)) }
    ensures fit { IfOk result (λ rows. All (FitsIn (attributed_of sources.now.shares.now))
        (entries_of_rows rows.items)) }
{
    let calls = calls_of_functions(alloc, sources.graph)?;
    let mut rows = rows_with_lines(alloc, sources, &calls)?;
    rows.sort_unstable_by(|one, other| order(one, other));
    Ok(rows)
}
