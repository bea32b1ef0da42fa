//! Parts of single lines, made in place.

ghost use Rattle.std.specs.Prelude.{◌≡◌, ◌+◌, ◌^◌, ◌<◌, ◌≤◌, ◌++◌, length, codes, decimal};
ghost use Rattle.text_cols.specs.Columns.{left_of, right_of};
ghost use Rattle.flat_report.specs.FlatText.{percent_of, seconds_of};
ghost use Rattle.graph_report.specs.GraphText.{bracket_text, calls_of_all, calls_with_inner, calls_with_own, untimed_columns};

use flat_report::line::{GRAINS, put_percent, put_quotient};
use text_cols::Line;

/// Adds the number of an entry.
#[tactic(auto, using(text_cols::proofs::Lengths::lengths))]
fn put_number(line: &mut Line, number: usize)
    requires room { length line.old ≤ 200 }
    ensures text { line.new ≡ line.old ++ bracket_text number }
    ensures short { length line.new ≤ length line.old + 22 }
{
    line.put(b"[");
    line.decimal(number as u128);
    line.put(b"]");
}

/// Adds the calls of an arc, and all that enter its callee's component.
#[tactic(auto, using(text_cols::proofs::Lengths::lengths), unfolding(crate::specs::GraphText::calls_of_all))]
pub(crate) fn put_calls_of_entering(line: &mut Line, count: u64, entering: u64)
    requires { length line.old ≤ 200 }
    ensures text { line.new ≡ line.old ++ right_of (calls_of_all count entering) 22 }
    ensures short { length line.new ≤ length line.old + 42 }
{
    line.right_pair(u128::from(count), b'/', u128::from(entering), 22);
}

/// Adds the calls of a function by others, and by itself where there are some. Nothing where there are none.
#[tactic(auto, using(text_cols::proofs::Lengths::lengths), unfolding(crate::specs::GraphText::calls_with_own))]
pub(crate) fn put_calls_and_own(line: &mut Line, others: u64, own: u64)
    requires { length line.old ≤ 200 }
    ensures text { line.new ≡ line.old ++ right_of (calls_with_own others own) 22 }
    ensures short { length line.new ≤ length line.old + 42 }
{
    if others == 0 && own == 0 {
        line.right(b"", 22);
        return;
    }
    if own == 0 {
        line.right_decimal(u128::from(others), 22);
        return;
    }
    line.right_pair(u128::from(others), b'+', u128::from(own), 22);
}

/// Adds the calls that enter a cycle, and those between its members.
#[tactic(auto, using(text_cols::proofs::Lengths::lengths), unfolding(crate::specs::GraphText::calls_with_inner))]
pub(crate) fn put_calls_and_inner(line: &mut Line, entering: u64, inner: u64)
    requires { length line.old ≤ 200 }
    ensures text { line.new ≡ line.old ++ right_of (calls_with_inner entering inner) 22 }
    ensures short { length line.new ≤ length line.old + 42 }
{
    line.right_pair(u128::from(entering), b'+', u128::from(inner), 22);
}

/// Adds two times in seconds, of so many samples each.
#[tactic(auto, using(text_cols::proofs::Lengths::lengths))]
pub(crate) fn put_times(line: &mut Line, rate: u32, own: u128, child: u128)
    requires rate { 1 ≤ rate }
    requires own { own < 2 ^ 65 }
    requires child { child < 2 ^ 65 }
    requires room { length line.old ≤ 100 }
    ensures text { line.new ≡ line.old
        ++ (right_of (seconds_of rate own) 12 ++ right_of (seconds_of rate child) 12) }
    ensures short { length line.new ≤ length line.old + 86 }
{
    let second = GRAINS * u128::from(rate);
    put_quotient(line, own, second, 12);
    put_quotient(line, child, second, 12);
}

/// Adds the calls of an arc inside a cycle, which has no times.
#[tactic(auto, using(text_cols::proofs::Lengths::lengths), unfolding(crate::specs::GraphText::untimed_columns))]
pub(crate) fn put_untimed(line: &mut Line, count: u64)
    requires { length line.old ≤ 100 }
    ensures text { line.new ≡ line.old ++ untimed_columns (decimal count) }
    ensures short { length line.new ≤ length line.old + 128 }
{
    line.put(&[b' '; 24]);
    line.right_decimal(u128::from(count), 22);
}

/// Adds what stands in front of the columns of an entry's subject: the number of the entry, and the part of
/// all time that is the subject's, in percent.
#[tactic(auto, using(text_cols::proofs::Lengths::lengths))]
pub(crate) fn put_index(line: &mut Line, number: usize, total: u128, all: u128)
    requires total { total < 2 ^ 65 }
    requires all { all < 2 ^ 65 }
    requires room { length line.old ≤ 10 }
    ensures text { line.new ≡ line.old
        ++ (left_of (bracket_text number) 8 ++ right_of (percent_of total all) 7) }
    ensures short { length line.new ≤ length line.old + 65 }
{
    let mut index = Line::new();
    put_number(&mut index, number);
    line.left(index.bytes(), 8);
    put_percent(line, total, all);
}

/// What stands behind a name and its cycle: the number of its entry, and the end of the line.
#[tactic(auto, using(text_cols::proofs::Lengths::lengths))]
pub(crate) fn put_tail(line: &mut Line, number: usize)
    requires { length line.old ≤ 100 }
    ensures text { line.new ≡ line.old ++ codes " " ++ bracket_text number ++ codes "\n" }
    ensures short { length line.new ≤ length line.old + 24 }
{
    line.put(b" ");
    put_number(line, number);
    line.put(b"\n");
}
