//! What cutting calls leaves of a graph and of shares.

ghost use Rattle.arc_filter.specs.Laws.{ArcsStay, NothingIsCut, ProfilesStay, SelfCallsStay, TimesStay};

/// Of the function arcs of a profile those stay whose two names are no cut, with the same counts, and of
/// the calls of functions by themselves those of functions whose name, twice, is no cut.
pub fn calls_that_stay()
    ensures arcs { ArcsStay }
    ensures self_calls { SelfCallsStay }
{}

/// No time is cut: each share stays, what functions have together, and what is outside of them.
pub fn times_stay()
    ensures { TimesStay }
{}

/// What is left is a profile, and with no words it is the whole.
pub fn profiles_stay()
    ensures profile { ProfilesStay }
    ensures whole { NothingIsCut }
{}
