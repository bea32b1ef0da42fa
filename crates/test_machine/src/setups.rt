//! Setups of small runs.

ghost use Rattle.std.specs.Prelude.{◌≡◌, ◌≤◌};
ghost use Rattle.settings.specs.Setup.{IsSetup, plan_number};

use gp_base::limits::MAX_NUMBER;
use prof_machine::{Plan, Setup};

/// One turn of each hart, and again.
pub const ROUND: Plan = Plan::RoundRobin { quantum: 1 };

/// From 1 to 2,147,483,647: `n`, or the nearest.
fn number(n: u32) -> u32
    ensures least { 1 ≤ result }
    ensures most { result ≤ 2147483647 }
{
    n.max(1).min(MAX_NUMBER)
}

/// A plan whose number is one at least.
fn plan_of(plan: Plan) -> Plan
    ensures { 1 ≤ plan_number result }
{
    match plan {
        Plan::RoundRobin { quantum } => Plan::RoundRobin {
            quantum: number(quantum),
        },
        Plan::Seeded { seed } => Plan::Seeded { seed: number(seed) },
    }
}

/// A run with 4 MiB of memory, at 100 samples a second, with the fractions of 4.4BSD. In place of a number
/// that no setup has stands the nearest one.
pub fn setup_of(every: u32, budget: u32, harts: u32, plan: Plan) -> Setup
    ensures limits { IsSetup result }
    ensures harts { 1 ≤ harts → harts ≤ 8 → result.harts ≡ harts }
{
    Setup {
        every: number(every),
        budget: number(budget),
        rate: 100,
        ram_mib: 4,
        harts: harts.max(1).min(8),
        plan: plan_of(plan),
        hist: 2,
        hash: 2,
        blocks: false,
    }
}
