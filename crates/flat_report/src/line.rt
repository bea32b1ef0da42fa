//! Single lines, made in place.

ghost use Rattle.std.specs.Prelude.{◌≡◌, ◌+◌, ◌*◌, ◌^◌, ◌<◌, ◌≤◌, ◌++◌, length, decimal};
ghost use Rattle.text_cols.specs.Columns.{hundredths_of, right_of};
ghost use Rattle.flat_report.specs.FlatText.{call_columns_of, columns_of, percent_of, totals_line};
ghost use Rattle.flat_report.specs.Rows.{FitsIn, entry_of_row};

use crate::rows::Row;
use symbol_shares::Shares;
use text_cols::Line;

/// Grains of a sample.
pub const GRAINS: u128 = 1_000_000;

/// The line with the grains of all functions and of none, and the rate.
#[tactic(auto, using(text_cols::proofs::Lengths::lengths), unfolding(crate::specs::FlatText::totals_line))]
pub(crate) fn totals(shares: &Shares, rate: u32) -> Line
    ensures { result ≡ totals_line shares.now rate }
{
    let mut line = Line::new();
    line.put(b"attributed ");
    line.decimal(shares.attributed());
    line.put(b", outside ");
    line.decimal(shares.outside());
    line.put(b", rate ");
    line.decimal(u128::from(rate));
    line.put(b"\n");
    line
}

/// Adds a quotient with two digits after the point, at the right of its column.
#[tactic(auto, using(text_cols::proofs::Lengths::lengths))]
pub fn put_quotient(line: &mut Line, num: u128, den: u128, width: usize)
    requires divisor { 0 < den }
    requires sum { 200 * num + den < 2 ^ 128 }
    requires double { 2 * den < 2 ^ 128 }
    requires width { width ≤ 43 }
    requires room { length line.old ≤ 213 }
    ensures text { line.new ≡ line.old ++ right_of (hundredths_of num den) width }
    ensures short { length line.new ≤ length line.old + 43 }
{
    line.right_hundredths(num, den, width);
}

/// Adds a number at the right of its column.
#[tactic(auto, using(text_cols::proofs::Lengths::lengths))]
fn put_number(line: &mut Line, n: u64, width: usize)
    requires width { width ≤ 21 }
    requires room { length line.old ≤ 235 }
    ensures text { line.new ≡ line.old ++ right_of (decimal n) width }
    ensures short { length line.new ≤ length line.old + 21 }
{
    line.right_decimal(u128::from(n), width);
}

/// Adds a part of a whole in percent, at the right of its column: `0.00` where the whole is 0.
#[tactic(auto, using(text_cols::proofs::Lengths::lengths), unfolding(crate::specs::FlatText::percent_of))]
pub fn put_percent(line: &mut Line, part: u128, whole: u128)
    requires part { part < 2 ^ 65 }
    requires whole { whole < 2 ^ 65 }
    requires room { length line.old ≤ 213 }
    ensures text { line.new ≡ line.old ++ right_of (percent_of part whole) 7 }
    ensures short { length line.new ≤ length line.old + 43 }
{
    if whole == 0 {
        line.right(b"0.00", 7);
    } else {
        put_quotient(line, 100 * part, whole, 7);
    }
}

/// Adds a function's calls, and the milliseconds of each, its own and in total. Without calls these
/// columns are empty.
#[tactic(auto, unfolding(crate::specs::FlatText::call_columns_of))]
fn put_calls(line: &mut Line, rate: u32, row: &Row<'_>)
    requires rate { 1 ≤ rate }
    requires fits { FitsIn (2 ^ 65) (entry_of_row row.now) }
    requires room { length line.old ≤ 129 }
    ensures text { line.new ≡ line.old ++ call_columns_of rate (entry_of_row row.now) }
    ensures short { length line.new ≤ length line.old + 107 }
{
    if row.calls == 0 {
        line.put(&[b' '; 40]);
        return;
    }
    put_number(line, row.calls, 11);
    let seconds = GRAINS * u128::from(rate) * u128::from(row.calls);
    put_quotient(line, 1000 * row.share, seconds, 14);
    put_quotient(line, 1000 * row.total, seconds, 15);
}

/// What stands in front of a function's name: its part of the total in percent, the seconds of the
/// lines up to its own, its own seconds, of which the rate gives the number of samples, and the
/// columns on its calls.
#[tactic(auto, unfolding(crate::specs::FlatText::columns_of))]
pub(crate) fn columns(total: u128, rate: u32, cumulative: u128, row: &Row<'_>) -> Line
    requires within { total < 2 ^ 65 }
    requires rate { 1 ≤ rate }
    requires cumulative { cumulative ≤ total }
    requires fits { FitsIn total (entry_of_row row.now) }
    ensures { result ≡ columns_of total rate cumulative (entry_of_row row.now) }
{
    let second = GRAINS * u128::from(rate);
    let mut line = Line::new();
    put_percent(&mut line, row.share, total);
    put_quotient(&mut line, cumulative, second, 13);
    put_quotient(&mut line, row.share, second, 11);
    put_calls(&mut line, rate, row);
    line.put(b"  ");
    line
}
