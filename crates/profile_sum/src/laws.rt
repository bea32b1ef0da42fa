//! What follows from the definition of a sum.

ghost use Rattle.profile_sum.specs.Laws.{AlikeAreJoined, HistsAreKept, PartsHaveSum, SumOfContents};

/// Records can be split between two profiles: where they have no conflict one after the other, what any
/// first ones add up to and what the others add up to have a sum.
pub fn parts_have_sum()
    ensures { PartsHaveSum }
{}

/// The sum of the contents of two lists of records is the content of the one list followed by the other.
pub fn sum_of_contents()
    ensures { SumOfContents }
{}

/// Each histogram of what records add up to has a range and counters, whether the records are alike or not.
pub fn hists_are_kept()
    ensures { HistsAreKept }
{}

/// Lists of records that have no conflict each, and whose contents have a sum, have none one after the other. So files
/// that are each alike with those before them have none among all their records.
pub fn alike_are_joined()
    ensures { AlikeAreJoined }
{}
