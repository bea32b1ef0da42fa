//! One arc's step.

ghost use Rattle.std.specs.Prelude.{◌≡◌, ◌<◌, ◌↔◌, IfSome, IsSome};
ghost use Rattle.fraction128.specs.Fractions.{fraction, lowest};
ghost use Rattle.fraction128.specs.Values.{value_of};
ghost use Rattle.exact_flow.specs.Steps.{StepNumbers, FitsStep, with_both};
ghost use Rattle.exact_flow.specs.StepValues.{numbers_of};

use fraction128::Frac;

/// What goes into a step.
#[derive(Drop)]
pub(crate) struct Given {
    /// The self time of the component that the arc enters.
    pub self_time: u128,
    /// Its child time.
    pub child_time: Frac,
    /// Of the calls that enter it, those of the arc.
    pub calls: Frac,
    /// What the arcs before this one brought to the component that it leaves.
    pub before: Frac,
}

/// A whole number.
#[tactic(auto, using(fraction128::proofs::ValueLemmas::whole_lowest))]
pub(crate) fn whole(n: u128) -> Frac
    ensures { value_of result ≡ fraction n 1 }
{
    Frac::new(n, 1).unwrap()
}

/// What the component that the arc leaves has with the arc's parts of both times; `None` where one of them, or a sum, does
/// not fit.
pub(crate) fn hand_on(given: &Given) -> Option<Frac>
    ensures after { IfSome result (λ f. value_of f ≡ with_both (numbers_of given.now)) }
    ensures fits { IsSome result ↔ FitsStep (numbers_of given.now) }
{
    let arc_self = whole(given.self_time).mul(&given.calls)?;
    let arc_child = given.child_time.mul(&given.calls)?;
    given.before.add(&arc_self)?.add(&arc_child)
}
