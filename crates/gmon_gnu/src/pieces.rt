//! Numbers that are split over records.

ghost use Rattle.std.specs.Prelude.{◌≡◌, ◌*◌, ◌^◌, ◌<◌};
ghost use Rattle.gmon_gnu.specs.Splitting.{piece as spec_piece, pieces_of, largest as spec_largest, has_left as spec_left};

/// The largest number of a counter.
pub(crate) const MOST_SAMPLES: u64 = 65_535;

/// The largest number of an arc's calls, and of a basic block's executions.
pub(crate) const MOST_CALLS: u64 = 4_294_967_295;

/// How many pieces of at most `most` a number takes: one at least.
pub(crate) fn pieces(most: u64, n: u64) -> u64
    requires { 1 < most }
    ensures { result ≡ pieces_of most n }
{
    n.saturating_sub(1) / most + 1
}

/// Piece `j`, from 0, of a number.
pub(crate) fn piece(most: u64, j: u64, n: u64) -> u64
    requires { j * most < 2 ^ 64 }
    ensures { result ≡ spec_piece most j n }
{
    n.saturating_sub(j * most).min(most)
}

/// Whether something of a number is left for round `j`: in round 0, which has all numbers, always.
pub(crate) fn has_left(j: u64, n: u64) -> bool
    requires { j * 4294967295 < 2 ^ 64 }
    ensures { result ≡ spec_left j n }
{
    if j == 0 {
        return true;
    }
    j * MOST_CALLS < n
}

/// The largest of some numbers, or 0.
#[tactic(auto, using(std::proofs::lemmas::List::get_or_default, crate::proofs::PieceLemmas::larger, crate::proofs::PieceLemmas::largest_more))]
pub(crate) fn largest(numbers: &[u64]) -> u64
    ensures { result ≡ spec_largest numbers.now }
{
    let mut most = 0;
    for n in numbers {
        most = most.max(*n);
    }
    most
}
