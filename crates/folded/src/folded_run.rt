//! A run by its plan, folded.

ghost use Rattle.std.specs.Prelude.{◌≡◌, ℕ, ◌<◌, length, IfOk, OnOk, IfErr, MatchResult};
ghost use Rattle.elf32_syms.specs.Owners.{IsAscending};
ghost use Rattle.host_port.specs.Outside.{KeepsCounts, KeepsInput};
ghost use Rattle.settings.specs.Setup.{IsSetup};
ghost use Rattle.prof_machine.specs.Plan.{after_drive};
ghost use Rattle.prof_machine.specs.Prints.{ArePrinted};
ghost use Rattle.prof_machine.specs.Value.{IsLive, StandsFor};
ghost use Rattle.prof_machine.specs.World.{World};
ghost use Rattle.folded.specs.Folding.{HasCause, StopsShort};
ghost use Rattle.folded.specs.Stacks.{stacks_of};
ghost use Rattle.folded.specs.Tally.{Folds};
ghost use Rattle.folded.specs.Trail.{run_samples};

use crate::refusal::FoldRefusal;
use crate::tally::Folded;
use crate::tracker::Tracker;
use elf32_syms::Image;
use host_port::Host;
use prof_machine::{PlanWalk, Run, Setup, Turned};
use std::alloc::Global;

/// The turns of the plan, from its first one on, up to the end of the run, with the stacks of all samples.
/// What the program prints is printed. After a refusal the run isn't used again.
pub fn fold<H: Host>(
    alloc: Global,
    run: &mut Run,
    image: &Image,
    setup: &Setup,
    host: &mut H,
) -> Result<Folded, FoldRefusal>
    requires live { IsLive run.old }
    requires setup { run.old.machine.setup ≡ setup.now }
    requires limits { IsSetup setup.now }
    requires symbols { IsAscending image.now.symbols }
    ensures stands { OnOk result ((w : World) → StandsFor w run.old
        → StandsFor (after_drive run.old.machine w) run.new) }
    ensures folds { IfOk result (λ f. (w : World) → StandsFor w run.old
        → Folds (length image.now.symbols)
        (stacks_of image.now.symbols (run_samples run.old.machine w)) f) }
    ensures functions { IfOk result (λ f. length f.inclusive ≡ length image.now.symbols) }
    ensures live { OnOk result (IsLive run.new → ⊥) }
    ensures machine { run.new.machine ≡ run.old.machine }

    // What the outside has gained.
    ensures prints { OnOk result ((w : World) → StandsFor w run.old
        → ArePrinted w (after_drive run.old.machine w) (H.outside host.old) (H.outside host.new)) }
    ensures stops { IfErr result (λ e. (w : World) → StandsFor w run.old
        → StopsShort run.old.machine w (H.outside host.old) (H.outside host.new) e) }
    ensures counts { MatchResult result (λ _. KeepsCounts (H.outside host.old) (H.outside host.new))
        (HasCause (H.outside host.old) (H.outside host.new)) }
    ensures writing { (H.outside host.new).is_writing ≡ (H.outside host.old).is_writing }
    ensures input { KeepsInput (H.outside host.old) (H.outside host.new) }
{
    let symbols = image.symbols.as_slice();
    let mut tracker = Tracker::new(alloc, symbols, setup.harts)?;
    let mut plan = PlanWalk::new(setup);
    loop {
        let hart = plan.next_hart();
        let turned = run.turn(hart, host)?;
        tracker.follow(symbols, hart, run.last_turn())?;
        match turned {
            Turned::Going => {}
            Turned::Ended(_) => return Ok(Folded::of(alloc, tracker.tree)?),
        }
    }
}
