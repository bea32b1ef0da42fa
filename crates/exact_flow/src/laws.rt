//! What every solution of the exact flow's equations says, in other words.

ghost use Rattle.exact_flow.specs.FirstSteps.{HaveSameSteps, HasOneFirst, HasOneFlow, NoneIsWide, FirstIsWide};

/// The first step that does not fit into 128 bits is one and the same for every solution of the equations.
/// Where there is none all steps fit; else it does not, and each step before it does.
pub fn first_steps()
    ensures same { HaveSameSteps }
    ensures one { HasOneFirst }
    ensures none { NoneIsWide }
    ensures first { FirstIsWide }
{}

/// All solutions have the same times in lowest terms.
#[tactic(auto, using(crate::proofs::WideLemmas::one_flow))]
pub fn one_exact_flow()
    ensures { HasOneFlow }
{}
