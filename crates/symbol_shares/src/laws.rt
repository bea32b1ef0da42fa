//! What follows from the definitions of shares.

ghost use Rattle.symbol_shares.specs.Laws.{AllSamplesAreShared, CoveredRangesAreAttributed, CoveredRangesLeaveNothing, PartsAtLeast, PartsAtMost, RangesFollow, SharesAreOfRanges, WholeBuckets};

/// A bucket that lies in one symbol gives it all of its grains: nothing is lost to rounding.
pub fn whole_buckets()
    ensures { WholeBuckets }
{}

/// A symbol gets of a bucket the part that lies in it, as GNU gprof has it: the share differs from
/// `1,000,000 * count * overlap / (high - low)` by less than one grain.
pub fn parts_of_buckets()
    ensures most { PartsAtMost }
    ensures least { PartsAtLeast }
{}

/// Where each address of the histograms lies in a symbol, the symbols have all samples, the last
/// symbol's included.
pub fn covered_ranges()
    ensures attributed { CoveredRangesAreAttributed }
    ensures outside { CoveredRangesLeaveNothing }
{}

/// Ranges of addresses that follow one another have together what the whole range has: no grain is
/// lost between them. And a symbol's share is what its addresses have.
pub fn ranges_add_up()
    ensures follow { RangesFollow }
    ensures share { SharesAreOfRanges }
{}

/// What the symbols get and what none of them gets are together all samples, 1,000,000 grains each.
pub fn all_samples_are_shared()
    ensures { AllSamplesAreShared }
{}
