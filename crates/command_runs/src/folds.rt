//! Runs of programs whose samples are folded.

ghost use Rattle.std.specs.Prelude.{◌≡◌, length, IfOk};
ghost use Rattle.elf32_syms.specs.Image.{IsWithinLimits};
ghost use Rattle.settings.specs.Setup.{IsSetup};
ghost use Rattle.command_runs.specs.Folding.{FoldsProgram};
ghost use Rattle.command_runs.specs.Running.{IsRunOf};

use crate::runs::start_run;
use courses::Fault;
use courses::refusals::fold_fault;
use elf32_syms::Image;
use folded::{Folded, fold};
use host_port::Host;
use prof_machine::{Run, Setup};
use std::alloc::Global;

/// Runs a program to its end, and folds the stacks of its samples.
pub fn fold_program<H: Host>(
    alloc: Global,
    image: &Image,
    bytes: &[u8],
    setup: Setup,
    host: &mut H,
) -> Result<(Run, Folded), Fault>
    requires limits { IsWithinLimits (length bytes.now) image.now }
    requires setup { IsSetup setup }
    ensures folds { FoldsProgram image.now bytes.now setup (H.outside host.old)
        (H.outside host.new) result }
    ensures functions { IfOk result (λ done. length done.1.inclusive ≡ length image.now.symbols) }
    ensures ended { IfOk result (λ done. IsRunOf image.now bytes.now setup done.0) }
{
    let mut run = start_run(alloc, image, bytes, setup)?;
    match fold(alloc, &mut run, image, &setup, host) {
        Ok(folded) => Ok((run, folded)),
        Err(refusal) => Err(fold_fault(refusal)),
    }
}
