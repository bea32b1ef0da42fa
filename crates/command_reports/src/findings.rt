//! What is found of a profile, from which its reports are made.

ghost use Rattle.std.specs.Prelude.{◌≡◌, ◌≤◌, IfOk};
ghost use Rattle.elf32_syms.specs.Owners.{IsAscending};
ghost use Rattle.courses.specs.Reports.{profile_rate as spec_rate};
ghost use Rattle.command_reports.specs.Findings.{AreFindings};

use call_cycles::{Graph, graph};
use elf32_syms::Image;
use gmon_data::Profile;
use propagate::{Flow, flow};
use std::alloc::{AllocError, Global};
use symbol_shares::{Shares, shares};

/// Samples per second where a profile has no unit.
const USUAL_RATE: u32 = 100;

/// How the samples of a profile are shared among the symbols of a program, and how time flows over the
/// graph of its calls.
#[derive(Drop)]
pub struct Findings {
    pub shares: Shares,
    pub graph: Graph,
    pub flow: Flow,
    /// Samples per second.
    pub rate: u32,
}

/// What is found of a profile by the symbols of a program. The profile is let go before the time flows.
pub fn findings_of(alloc: Global, image: &Image, total: Profile) -> Result<Findings, AllocError>
    requires { IsAscending image.now.symbols }
    ensures { IfOk result (AreFindings image.now total) }
{
    let symbols = image.symbols.as_slice();
    let rate = rate_of(&total);
    let shares = shares(alloc, &total, symbols)?;
    let graph = graph(alloc, &total, symbols)?;
    drop(total);
    let flow = flow(alloc, &graph, &shares)?;
    Ok(Findings {
        shares,
        graph,
        flow,
        rate,
    })
}

/// The samples per second of a profile.
fn rate_of(profile: &Profile) -> u32
    ensures rate { result ≡ spec_rate profile.now }
    ensures some { 1 ≤ result }
{
    match profile.unit() {
        None => USUAL_RATE,
        Some(unit) => unit.rate,
    }
}
