//! The table that words are read by.

ghost use Rattle.std.specs.Prelude.{ℕ, MatchOption};
ghost use Rattle.std.specs.List.{All, AllPairs, Contains};
ghost use Rattle.rv_decode.specs.Table.{Matches, row_of, table};

/// No word matches two lines of the table; the row of a word is a line that it matches, and there is
/// none only where it matches no line.
#[tactic(auto, using(crate::proofs::Laws::one_row, crate::proofs::Laws::row_tells))]
pub fn instruction_table()
    ensures one_row { (w : ℕ) → AllPairs (λ r s. ¬ (Matches w r × Matches w s)) table }
    ensures row { (w : ℕ) → MatchOption (row_of w)
        (All (λ r. ¬ (Matches w r)) table)
        (λ r. Contains table r × Matches w r) }
{}
