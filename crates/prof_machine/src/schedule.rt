//! Which hart takes the next turn.

ghost use Rattle.std.specs.Prelude.{◌≡◌, ◌+◌, ◌%◌, ◌<◌, ◌≤◌, ℕ};
ghost use Rattle.settings.specs.declared.setup.Setup.{Setup as AnySetup};
ghost use Rattle.settings.specs.Setup.{IsSetup};
ghost use Rattle.prof_machine.specs.Plan.{shuffle_of as spec, taker_of};
ghost use Rattle.prof_machine.specs.Schedule.{Draws, IsRound};

use settings::{Plan, Setup};
use std::marker::Model;

/// A walk through the turns of a plan, from its first one on. Contracts see how far it has come.
#[derive(Drop)]
pub struct PlanWalk {
    plan: Plan,
    harts: u32,
    // In a round: the hart whose quantum it is, and how many turns of it are left.
    hart: u32,
    left: u32,
    // By a seed: the state that it has come to.
    state: u64,
}

impl Model for PlanWalk {
    ghost use Rattle.prof_machine.specs.Schedule.{IsWithin, PlanPlace, place_of};

    ghost Value = { PlanPlace };

    ghost view = { place_of };

    ghost invariant = { IsWithin };
}

impl PlanWalk {
    /// A walk before the first turn. Takes no memory.
    pub fn new(setup: &Setup) -> PlanWalk
        requires { IsSetup setup.now }
        ensures { Draws setup.now 0 result }
    {
        let number = match setup.plan {
            Plan::RoundRobin { quantum } => quantum,
            Plan::Seeded { seed } => seed,
        };
        PlanWalk {
            plan: setup.plan,
            harts: setup.harts,
            hart: 0,
            left: number,
            state: u64::from(number),
        }
    }

    /// The hart that takes the next turn. One hart takes every turn. Takes no memory.
    pub fn next_hart(&mut self) -> u32
        ensures taker { (setup : AnySetup) (n : ℕ) → Draws setup n self.old
            → result ≡ taker_of setup.plan setup.harts n }
        ensures draws { (setup : AnySetup) (n : ℕ) → Draws setup n self.old
            → Draws setup (n + 1) self.new }
        ensures below { result < self.old.harts }
        ensures harts { self.new.harts ≡ self.old.harts }
    {
        if self.harts == 1 {
            return 0;
        }
        match self.plan {
            Plan::RoundRobin { quantum } => self.next_in_round(quantum),
            Plan::Seeded { seed: _ } => {
                self.state = shuffled(self.state);
                (self.state % u64::from(self.harts)) as u32
            }
        }
    }

    // The hart whose quantum it is. Behind the last turn of a quantum comes the next hart's first.
    #[tactic(auto, using(crate::proofs::ScheduleLemmas::next_hart_is, crate::proofs::ScheduleLemmas::next_quantum, crate::proofs::ScheduleLemmas::same_quantum))]
    fn next_in_round(&mut self, quantum: u32) -> u32
        requires some { 1 ≤ quantum }
        ensures hart { result ≡ self.old.hart }
        ensures round { (n : ℕ) → IsRound quantum n self.old → IsRound quantum (n + 1) self.new }
        ensures others { self.new ≡ record self.old { hart = self.new.hart; left = self.new.left } }
        ensures below { result < self.old.harts }
    {
        let hart = self.hart;
        if self.left > 1 {
            self.left -= 1;
            return hart;
        }
        self.left = quantum;
        self.hart = following(hart, self.harts);
        hart
    }
}

/// The hart behind this one: behind the last one it is the first.
fn following(hart: u32, harts: u32) -> u32
    requires { hart < harts }
    ensures value { result ≡ (hart + 1) % harts }
    ensures below { result < harts }
{
    if hart + 1 == harts { 0 } else { hart + 1 }
}

/// The next state of a seeded schedule.
fn shuffled(x: u64) -> u64
    ensures { result ≡ spec x }
{
    let x = x ^ (x << 13);
    let x = x ^ (x >> 7);
    x ^ (x << 17)
}
