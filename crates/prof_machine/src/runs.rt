//! A run, from its start to its end.

ghost use Rattle.std.specs.Prelude.{◌≡◌, ◌+◌, ◌*◌, ◌^◌, ◌<◌, ◌≤◌, ◌↔◌, ℕ, length, map, None, Some, Ok, IsOk, IfOk, IfErr, OnOk, OnErr, IsSome, IfSome, IsTrue, MatchResult, [], replicate, All, if◌then◌else◌, true, false};
ghost use Rattle.std.specs.List.{range_with_len};
ghost use Rattle.elf32_syms.specs.Image.{IsWithinLimits};
ghost use Rattle.host_port.specs.Outside.{KeepsCounts, KeepsInput};
ghost use Rattle.settings.specs.Setup.{IsSetup};
ghost use Rattle.mcount_arcs.specs.Arcs.{CallFits, arcs_of};
ghost use Rattle.mcount_arcs.specs.Sizes.{AreSizes};
ghost use Rattle.mcount_arcs.specs.Value.{StandsFor as RuntimeStandsFor};
ghost use Rattle.prof_machine.specs.declared.summary.Turned.TheVariants.{Ended, Going};
ghost use Rattle.prof_machine.specs.declared.summary.End.{End};
ghost use Rattle.prof_machine.specs.Executions.{exec_counts_of, instructions_of};
ghost use Rattle.prof_machine.specs.Notes.{look_note, note_of};
ghost use Rattle.prof_machine.specs.Start.{IsRefusal, first_registers as first_registers_of, machine_of, stacks_bytes, start_of, start_refusal};
ghost use Rattle.prof_machine.specs.Turn.{turn_of};
ghost use Rattle.prof_machine.specs.Plan.{after_drive, most_turns, world_at};
ghost use Rattle.prof_machine.specs.Prints.{ArePrinted, BreaksOff, PrintFailed};
ghost use Rattle.prof_machine.specs.Stages.{Advances, LeavesFewerTurns, PrintsAs, StandsAfter};
ghost use Rattle.prof_machine.specs.Value.{IsLive, StandsFor, summary_of, turned_of, work_left};
ghost use Rattle.prof_machine.specs.World.{World};

use crate::flight::Flight;
use crate::layout::{Layout, first_registers};
use crate::machine::Machine;
use crate::notes::{KeptNote, TurnNote};
use crate::schedule::PlanWalk;
use crate::summary::{End, RunSummary, StartRefusal, Turned};
use elf32_syms::Image;
use host_port::{Failed, Host};
use mcount_arcs::{Gmon, Sizes};
use rv_step::{Ram, Regs};
use settings::Setup;
use std::alloc::{AllocError, Global};
use std::marker::Model;

/// A run of a program: harts that take turns on one memory. Contracts see its parts, and the world that
/// it stands for, which has besides all that has happened.
#[derive(Drop)]
pub struct Run {
    pub(crate) machine: Machine,
    pub(crate) harts: Vec<Regs>,
    // The call that is being entered.
    pub(crate) flight: Option<Flight>,
    pub(crate) ram: Ram,
    pub(crate) break_at: u32,
    pub(crate) retired: u32,
    // Instructions up to the next sample.
    pub(crate) due: u32,
    // Samples that counted, and calls that were lost.
    pub(crate) samples: u32,
    pub(crate) lost: u32,
    // How often each instruction of the text was executed, if that is counted.
    pub(crate) counts: Vec<u32>,
    pub(crate) ending: Option<End>,
    // It can take a turn: false also within a turn, and so after one that failed.
    pub(crate) live: bool,
    pub(crate) gmon: Gmon,
    // What the last turn did.
    pub(crate) note: KeptNote,
}

impl Model for Run {
    ghost use Rattle.prof_machine.specs.Value.{RunValue, value_of, IsHeld};

    ghost Value = { RunValue };

    ghost view = { value_of };

    ghost invariant = { IsHeld };
}

impl Run {
    /// A run of a program before its first turn. `image` is that of the file's `bytes`, and `setup` within
    /// its limits.
    ///
    /// Memory begins at the lowest address of a segment, rounded down to 4,096 bytes. It is refused, in
    /// this order, where the program and 2,097,152 bytes of stacks don't fit into it or it ends above
    /// 2^32; and where the entry is no multiple of 4 or not in it. No memory is taken before that. Only this
    /// call takes memory.
    #[tactic(auto, using(crate::proofs::ClockLemmas::first))]
    pub fn start(
        alloc: Global,
        image: &Image,
        bytes: &[u8],
        setup: Setup,
    ) -> Result<Run, StartRefusal>
        requires limits { IsWithinLimits (length bytes.now) image.now }
        requires setup { IsSetup setup }
        ensures refusal { IfErr result (λ e. IsRefusal e (start_refusal image.now setup)) }
        ensures refused { IfSome (start_refusal image.now setup) (λ e. result ≡ Err e) }
        ensures accepted { OnOk result (start_refusal image.now setup ≡ None) }
        ensures stands { IfOk result (StandsFor (start_of image.now bytes.now setup)) }
        ensures live { IfOk result IsLive }
        ensures machine { IfOk result (λ run. run.machine ≡ machine_of image.now setup) }
        ensures setup { IfOk result (λ run. run.machine.setup ≡ setup) }
        ensures note { IfOk result (λ run. run.note ≡ look_note None) }
    {
        let layout = Layout::of(image, setup)?;
        let mut ram = Ram::new(alloc, layout.base, layout.size)?;
        ram.load_image(image, bytes);
        let machine = Machine::of(image, setup, layout);
        Ok(Run {
            machine,
            harts: first_harts(alloc, image.entry, layout.end, setup.harts)?,
            flight: None,
            ram,
            break_at: machine.first_break,
            retired: 0,
            due: setup.every,
            samples: 0,
            lost: 0,
            counts: first_counts(alloc, machine.sizes, setup.blocks)?,
            ending: None,
            live: true,
            gmon: Gmon::startup(alloc, image.text, setup.hist, setup.hash)?,
            note: KeptNote::of_look(None),
        })
    }

    /// One turn of a hart: a look of its walk, or one instruction with its sample and its hook. What the
    /// program prints is printed. `Failed` comes only where this failed; then the run is as before, but for not
    /// being live. Takes no memory.
    #[tactic(auto, using(crate::proofs::DriveLemmas::ended_exactly))]
    pub fn turn<H: Host>(&mut self, hart: u32, host: &mut H) -> Result<Turned, Failed>
        requires live { IsLive self.old }
        requires hart { hart < self.old.machine.setup.harts }
        ensures stands { OnOk result ((w : World) → StandsFor w self.old
            → StandsFor (turn_of self.old.machine w hart) self.new) }
        ensures answer { IfOk result (λ turned. (end : End) → (turned ≡ Ended end)
            ↔ (self.new.ending ≡ Some end)) }
        ensures live { IsLive self.new ↔ (result ≡ Ok Going) }
        ensures machine { self.new.machine ≡ self.old.machine }
        ensures note { OnOk result ((w : World) → StandsFor w self.old
            → self.new.note ≡ note_of self.old.machine w hart) }
        ensures failed { OnErr result (self.new ≡ record self.old { live = false }) }

        // What the outside has gained.
        ensures prints { OnOk result ((w : World) → StandsFor w self.old
            → ArePrinted w (turn_of self.old.machine w hart)
            (H.outside host.old) (H.outside host.new)) }
        ensures fails { OnErr result ((w : World) → StandsFor w self.old
            → BreaksOff w (turn_of self.old.machine w hart)
            (H.outside host.old) (H.outside host.new)) }
        ensures counts { MatchResult result
            (λ _. KeepsCounts (H.outside host.old) (H.outside host.new))
            (λ _. PrintFailed (H.outside host.old) (H.outside host.new)) }
        ensures writing { (H.outside host.new).is_writing ≡ (H.outside host.old).is_writing }
        ensures input { KeepsInput (H.outside host.old) (H.outside host.new) }

        // A run has only so many turns left, and one that has ended has none.
        ensures going { self.old.ending ≡ None }
        ensures left { 0 < work_left self.old }
        ensures few { work_left self.old ≤ most_turns self.old.machine.setup }
        ensures less { IsLive self.new → work_left self.new < work_left self.old }
    {
        let note = self.advance(hart, host)?;
        self.note = note;
        Ok(self.turned())
    }

    // The same, of which the note isn't put down. It is inlined, so that who drops the note doesn't make it.
    #[inline(always)]
    fn advance<H: Host>(&mut self, hart: u32, host: &mut H) -> Result<KeptNote, Failed>
        requires live { IsLive self.old }
        requires hart { hart < self.old.machine.setup.harts }
        ensures stands { OnOk result (StandsAfter (λ w. turn_of self.old.machine w hart)
            self.old self.new) }
        ensures outside { PrintsAs (λ w. turn_of self.old.machine w hart) self.old
            (H.outside host.old) (H.outside host.new) result }
        ensures advances { Advances self.old self.new result }
        ensures fewer { LeavesFewerTurns self.old self.new }
        ensures note { IfOk result (λ note. (w : World) → StandsFor w self.old
            → note ≡ note_of self.old.machine w hart) }
    {
        self.live = false;
        let note = if self.holds_walk(hart) {
            KeptNote::of_look(self.look(hart))
        } else {
            self.instruct(hart, host)?
        };
        self.close();
        self.live = self.ending.is_none();
        Ok(note)
    }

    /// The turns of the plan, from its first one on, up to the end of the run. What the program prints is
    /// printed. `Failed` comes only where this failed; then the run is as it was before the turn that printed, but
    /// for not being live. Takes no memory.
    pub fn drive<H: Host>(&mut self, host: &mut H) -> Result<End, Failed>
        requires { IsLive self.old }
        ensures stands { OnOk result ((w : World) → StandsFor w self.old
            → StandsFor (after_drive self.old.machine w) self.new) }
        ensures answer { IfOk result (λ end. self.new.ending ≡ Some end) }
        ensures open { OnErr result (self.new.ending ≡ None) }
        ensures live { IsLive self.new → ⊥ }
        ensures machine { self.new.machine ≡ self.old.machine }
        ensures note { self.new.note ≡ self.old.note }

        // What the outside has gained. A print fails in a turn of the plan before which the run hasn't ended.
        ensures prints { OnOk result ((w : World) → StandsFor w self.old
            → ArePrinted w (after_drive self.old.machine w)
            (H.outside host.old) (H.outside host.new)) }
        ensures fails { OnErr result ((w : World) → StandsFor w self.old
            → (n : ℕ) × (n < most_turns self.old.machine.setup)
            × ((world_at self.old.machine w n).ending ≡ None)
            × BreaksOff w (world_at self.old.machine w (n + 1))
            (H.outside host.old) (H.outside host.new)
            × StandsFor (world_at self.old.machine w n) (record self.new { live = true })) }
        ensures counts { MatchResult result
            (λ _. KeepsCounts (H.outside host.old) (H.outside host.new))
            (λ _. PrintFailed (H.outside host.old) (H.outside host.new)) }
        ensures writing { (H.outside host.new).is_writing ≡ (H.outside host.old).is_writing }
        ensures input { KeepsInput (H.outside host.old) (H.outside host.new) }
    {
        let mut plan = PlanWalk::new(&self.machine.setup);
        'turns: loop {
            let hart = plan.next_hart();
            let _ = self.advance(hart, host)?;
            if let Some(end) = self.ending {
                return Ok(end);
            }
        }
    }

    /// What the last turn did that `turn` made and answered Ok. Takes no memory.
    #[inline(always)]
    pub fn last_turn(&self) -> TurnNote
        ensures { result ≡ self.now.note }
    {
        self.note.told()
    }

    /// Whether the run can take a turn: true until it has ended, or a print has failed.
    pub fn is_live(&self) -> bool
        ensures { IsTrue result ↔ IsLive self.now }
    {
        self.live
    }

    /// The profiling runtime.
    pub fn gmon(&self) -> &Gmon
        ensures value { result.now ≡ self.now.gmon }
        ensures log { (w : World) → StandsFor w self.now → RuntimeStandsFor w.log result.now }
        ensures sizes { result.now.sizes ≡ self.now.machine.sizes }
    {
        &self.gmon
    }

    /// How often each instruction of the text was executed, from the lowest on; nothing where the setup
    /// doesn't ask for it. An instruction that traps isn't executed, one that exits is.
    pub fn exec_counts(&self) -> &[u32]
        ensures value { result.now ≡ self.now.counts }
        ensures log { (w : World) → StandsFor w self.now
            → result.now ≡ exec_counts_of self.now.machine w.ran }
        ensures within { (i : ℕ) → i < length result.now
            → self.now.machine.sizes.low + 4 * i < 2 ^ 32 }
    {
        &self.counts
    }

    /// What is told of a run that has ended. Its arcs' callees and counts have four bytes each.
    pub fn summary(&self) -> RunSummary
        requires { IsSome self.now.ending }
        ensures sums_up { (w : World) → StandsFor w self.now
            → summary_of self.now.machine.sizes w ≡ Some result }
        ensures end { self.now.ending ≡ Some result.end }
        ensures retired { result.retired ≡ self.now.retired }
        ensures fits { (w : World) → StandsFor w self.now
            → All CallFits (arcs_of self.now.machine.sizes w.log) }
    {
        RunSummary {
            end: self.ending.unwrap(),
            retired: self.retired,
            samples: self.samples,
            calls: self.gmon.calls(),
            lost: self.lost,
            state: self.gmon.state(),
        }
    }

    // How the run stands between two turns.
    fn turned(&self) -> Turned
        ensures { result ≡ turned_of self.now.ending }
    {
        match self.ending {
            Some(end) => Turned::Ended(end),
            None => Turned::Going,
        }
    }
}

/// The registers of all harts, before their first turns.
fn first_harts(alloc: Global, entry: u32, end: u64, harts: u32) -> Result<Vec<Regs>, AllocError>
    requires stacks { stacks_bytes ≤ end }
    requires fits { end ≤ 2 ^ 32 }
    requires harts { harts ≤ 8 }
    ensures { IfOk result (λ list. list.items ≡ map (first_registers_of entry end harts)
        (range_with_len 0 harts)) }
{
    let mut list = Vec::new(alloc);
    for hart in 0..harts {
        list.push(first_registers(entry, end, harts, hart))?;
    }
    Ok(list)
}

/// A count for each instruction of the text, if they are asked for.
fn first_counts(alloc: Global, sizes: Sizes, asked: bool) -> Result<Vec<u32>, AllocError>
    requires { AreSizes sizes }
    ensures { IfOk result (λ counts. counts.items
        ≡ (if asked then replicate (instructions_of sizes) 0 else [])) }
{
    if asked {
        let instructions = (sizes.high - sizes.low) / 4;
        Ok(vec![in alloc; 0; instructions as usize]?)
    } else {
        Ok(Vec::new(alloc))
    }
}
