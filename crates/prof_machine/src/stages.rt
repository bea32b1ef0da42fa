//! The stages of a turn.

ghost use Rattle.std.specs.Prelude.{◌≡◌, ◌<◌, ◌≤◌, None, IfOk, OnOk, IsSome, false, MatchResult, All};
ghost use Rattle.prof_machine.specs.Executions.{with_execution};
ghost use Rattle.prof_machine.specs.Notes.{if_going, instruction_note, look_note, note_by, return_from_call, return_in, return_of, sample_in};
ghost use Rattle.prof_machine.specs.Stages.{CanExecute, CanLook, Executes, InTurn, Instructs, PrintsAs, Serves, StandsAfter, Steps, TakesLook, Ticks, answers, begin_of, holds, ran_since, retires, returns};
ghost use Rattle.prof_machine.specs.Turn.{after_ecall, after_arrival, after_mcount, after_close, after_execution, after_ordinary_turn, after_sample, after_budget, after_moncontrol, after_look, while_going};
ghost use Rattle.prof_machine.specs.Value.{StandsFor, calls_met};
ghost use Rattle.prof_machine.specs.World.{World, hart_of, looks_of_hart};

use crate::ecalls::{A0, Call, ecall_of, write};
use crate::flight::{Flight, finish_walk};
use crate::notes::KeptNote;
use crate::runs::Run;
use crate::summary::End;
use host_port::{Failed, Host};
use mcount_arcs::{Entered, Looked};
use rv_step::{Stepped, TrapKind, fetch, step};

/// Where a turn begins.
#[derive(Drop)]
struct Begin {
    pc: u32,
    // The word that stands there, if it is in memory.
    word: Option<u32>,
    // How many instructions have retired.
    retired: u32,
}

/// The number of the register that says where a function returns to: ra of the RISC-V calling convention.
const RA: u32 = 1;

impl Run {
    // Whether this hart holds the walk in flight.
    pub(crate) fn holds_walk(&self, hart: u32) -> bool
        ensures { result ≡ holds self.now.flight hart }
    {
        match &self.flight {
            Some(flight) => flight.hart == hart,
            None => false,
        }
    }

    // One look of this hart's walk. Behind the last one the hart goes on at the address that is answered.
    #[inline(never)]
    pub(crate) fn look(&mut self, hart: u32) -> Option<u32>
        requires { CanLook hart self.old }
        ensures stands { StandsAfter
            (λ w. after_look self.old.machine hart (looks_of_hart w.left hart) w)
            self.old self.new }
        ensures prints { (w : World) → StandsFor w self.old
            → (after_look self.old.machine hart (looks_of_hart w.left hart) w).prints ≡ w.prints }
        ensures takes_look { TakesLook self.old self.new }
        ensures note { (w : World) → StandsFor w self.old
            → look_note result ≡ note_by self.old.machine hart (looks_of_hart w.left hart) w }
    {
        let Some(flight) = self.flight.take() else {
            return None;
        };
        match self.gmon.look(flight.walk) {
            Looked::More(next) => {
                self.flight = Some(Flight { hart, walk: next });
                None
            }
            Looked::Counted => self.return_from_hook(hart),
            Looked::Overflowed => self.return_from_hook(hart),
        }
    }

    // One instruction of this hart, with its tick and its hook. What it did is answered.
    #[inline(always)]
    pub(crate) fn instruct<H: Host>(&mut self, hart: u32, host: &mut H) -> Result<KeptNote, Failed>
        requires none { holds self.old.flight hart ≡ false }
        requires can { CanExecute hart self.old }
        ensures stands { OnOk result (StandsAfter (after_ordinary_turn self.old.machine hart)
            self.old self.new) }
        ensures outside { PrintsAs (after_ordinary_turn self.old.machine hart) self.old
            (H.outside host.old) (H.outside host.new) result }
        ensures instructs { MatchResult result (λ _. Instructs self.old self.new)
            (λ _. self.new ≡ self.old) }
        ensures note { IfOk result (λ note. (w : World) → StandsFor w self.old
            → note ≡ instruction_note self.old.machine hart w) }
    {
        let begin = self.begin(hart);
        self.execute(hart, host)?;
        let mut note = self.note_since(hart, begin);
        note.sample = self.sample(hart);
        note.returned = self.arrive(hart);
        self.spend();
        Ok(note)
    }

    // Where a hart's turn begins.
    fn begin(&self, hart: u32) -> Begin
        requires { hart < self.now.machine.setup.harts }
        ensures { result ≡ begin_of hart self.now }
    {
        let regs = &self.harts[hart as usize];
        Begin {
            pc: regs.pc(),
            word: fetch(regs, &self.ram),
            retired: self.retired,
        }
    }

    // The note of the instruction that stood there, if it has retired since then.
    fn note_since(&self, hart: u32, begin: Begin) -> KeptNote
        requires { hart < self.now.machine.setup.harts }
        ensures { result ≡ record { ran = ran_since hart begin self.now; sample = None; returned = None } }
    {
        if self.retired == begin.retired {
            return KeptNote::of_look(None);
        }
        KeptNote::of_ran(begin.pc, begin.word, self.harts[hart as usize].pc())
    }

    // The instruction.
    #[inline(always)]
    fn execute<H: Host>(&mut self, hart: u32, host: &mut H) -> Result<(), Failed>
        requires { CanExecute hart self.old }
        ensures stands { OnOk result (StandsAfter (after_execution self.old.machine hart)
            self.old self.new) }
        ensures outside { PrintsAs (after_execution self.old.machine hart) self.old
            (H.outside host.old) (H.outside host.new) result }
        ensures executes { MatchResult result (λ _. Executes self.old self.new)
            (λ _. self.new ≡ self.old) }
    {
        let regs = &mut self.harts[hart as usize];
        let pc = regs.pc();
        match step(regs, &mut self.ram) {
            Stepped::Retired => {
                self.retire(pc);
                Ok(())
            }
            Stepped::Ecall => self.call(hart, host),
            Stepped::Trap(kind) => {
                self.ending = Some(End::Trap(kind, pc));
                Ok(())
            }
        }
    }

    // The environment call at the hart's pc is carried out.
    fn call<H: Host>(&mut self, hart: u32, host: &mut H) -> Result<(), Failed>
        requires { CanExecute hart self.old }
        ensures stands { OnOk result (StandsAfter (after_ecall self.old.machine hart)
            self.old self.new) }
        ensures outside { PrintsAs (after_ecall self.old.machine hart) self.old
            (H.outside host.old) (H.outside host.new) result }
        ensures executes { MatchResult result (λ _. Executes self.old self.new)
            (λ _. self.new ≡ self.old) }
    {
        match ecall_of(&self.machine, &self.harts[hart as usize], self.break_at) {
            Call::Answers(n) => self.answer(hart, n),
            Call::SetsBreak(to) => {
                self.break_at = to;
                self.answer(hart, to);
            }
            Call::Writes {
                descriptor,
                from,
                count,
            } => {
                let n = write(host, descriptor, &self.ram, from, count)?;
                self.answer(hart, n);
            }
            Call::Exits(status) => {
                let pc = self.harts[hart as usize].pc();
                self.retire(pc);
                self.ending = Some(End::Exit(status));
            }
        }
        Ok(())
    }

    // An environment call answers n, and retires.
    fn answer(&mut self, hart: u32, n: u32)
        requires turn { InTurn hart self.old }
        requires left { self.old.retired < self.old.machine.setup.budget }
        requires due { 1 ≤ self.old.due }
        ensures { self.new ≡ answers hart n self.old }
    {
        let regs = &mut self.harts[hart as usize];
        let pc = regs.pc();
        regs.set(A0, n);
        regs.set_pc(pc.wrapping_add(4));
        self.retire(pc);
    }

    // The instruction at `pc` has retired.
    #[inline(always)]
    fn retire(&mut self, pc: u32)
        requires left { self.old.retired < self.old.machine.setup.budget }
        requires due { 1 ≤ self.old.due }
        requires dead { self.old.live ≡ false }
        ensures { self.new ≡ retires pc self.old }
    {
        count_execution(&mut self.counts, self.machine.sizes.low, pc);
        self.retired += 1;
        self.due -= 1;
    }

    // The clock's tick, if a sample is due. The address is answered if the sample counts.
    #[tactic(auto, using(crate::proofs::ClockLemmas::again))]
    #[inline(always)]
    fn sample(&mut self, hart: u32) -> Option<u32>
        requires turn { InTurn hart self.old }
        requires due { self.old.ending ≡ None → self.old.due < self.old.machine.setup.every }
        requires samples { self.old.ending ≡ None → self.old.samples < self.old.retired }
        ensures stands { StandsAfter (while_going (after_sample self.old.machine hart))
            self.old self.new }
        ensures ticks { Ticks self.old self.new }
        ensures note { (w : World) → StandsFor w self.old
            → result ≡ if_going (sample_in self.old.machine hart) w }
    {
        if self.ending.is_some() {
            return None;
        }
        if self.due != 0 {
            return None;
        }
        self.due = self.machine.setup.every;
        let pc = self.harts[hart as usize].pc();
        let counts = self.gmon.counts(pc);
        if counts {
            self.samples += 1;
        }
        self.gmon.tick(pc);
        counts.then_some(pc)
    }

    // Serves the hook at which the hart stands, if it does. It may go on at once, at the address that is
    // answered.
    #[inline(always)]
    fn arrive(&mut self, hart: u32) -> Option<u32>
        requires turn { InTurn hart self.old }
        requires calls { self.old.ending ≡ None → calls_met self.old < self.old.retired }
        ensures stands { StandsAfter (while_going (after_arrival self.old.machine hart))
            self.old self.new }
        ensures serves { Serves self.old self.new }
        ensures note { (w : World) → StandsFor w self.old
            → result ≡ if_going (return_in self.old.machine hart) w }
    {
        if self.ending.is_some() {
            return None;
        }
        let pc = self.harts[hart as usize].pc();
        if self.machine.mcount == Some(pc) {
            self.enter(hart)
        } else if self.machine.moncontrol == Some(pc) {
            self.switch(hart)
        } else {
            None
        }
    }

    // The hart stands at `_mcount`.
    fn enter(&mut self, hart: u32) -> Option<u32>
        requires turn { InTurn hart self.old }
        requires calls { calls_met self.old < self.old.retired }
        requires going { self.old.ending ≡ None }
        ensures stands { StandsAfter
            (λ w. after_mcount self.old.machine hart (hart_of w.harts hart) w) self.old self.new }
        ensures serves { Serves self.old self.new }
        ensures note { (w : World) → StandsFor w self.old
            → result ≡ return_from_call self.old.machine w.log (hart_of w.harts hart) }
    {
        let regs = &self.harts[hart as usize];
        match self.gmon.enter(regs.get(A0), regs.get(RA)) {
            Entered::Walking(walk) => {
                self.flight = Some(Flight { hart, walk });
                None
            }
            Entered::Lost => {
                self.lost += 1;
                self.return_from_hook(hart)
            }
            Entered::Ignored => self.return_from_hook(hart),
        }
    }

    // The hart stands at `moncontrol`.
    fn switch(&mut self, hart: u32) -> Option<u32>
        requires turn { InTurn hart self.old }
        requires going { self.old.ending ≡ None }
        ensures stands { StandsAfter
            (λ w. after_moncontrol hart (hart_of w.harts hart) w) self.old self.new }
        ensures serves { Serves self.old self.new }
        ensures note { (w : World) → StandsFor w self.old
            → result ≡ return_of (hart_of w.harts hart) }
    {
        let on = self.harts[hart as usize].get(A0) != 0;
        self.gmon.moncontrol(on);
        self.return_from_hook(hart)
    }

    // Goes on at ra, which is answered, unless that traps.
    fn return_from_hook(&mut self, hart: u32) -> Option<u32>
        requires turn { InTurn hart self.old }
        requires going { self.old.ending ≡ None }
        ensures run { self.new ≡ returns hart self.old }
        ensures to { result ≡ return_of (hart_of self.old.harts hart) }
    {
        let regs = &mut self.harts[hart as usize];
        let ra = regs.get(RA);
        let target = ra - ra % 2;
        if target % 4 == 0 {
            regs.set_pc(target);
            Some(target)
        } else {
            self.ending = Some(End::Trap(TrapKind::JumpMisaligned, regs.pc()));
            None
        }
    }

    // The end of the run, once the budget is used up.
    fn spend(&mut self)
        requires dead { self.old.live ≡ false }
        ensures stands { StandsAfter (while_going (after_budget self.old.machine))
            self.old self.new }
        ensures changed { self.new ≡ record self.old { ending = self.new.ending } }
        ensures left { self.new.ending ≡ None → self.new.retired < self.new.machine.setup.budget }
        ensures ended { IsSome self.old.ending → self.new.ending ≡ self.old.ending }
    {
        if self.ending.is_none() && self.retired == self.machine.setup.budget {
            self.ending = Some(End::Budget);
        }
    }

    // Once the run has ended, looks at the walk in flight to its end.
    pub(crate) fn close(&mut self)
        requires dead { self.old.live ≡ false }
        ensures stands { StandsAfter after_close self.old self.new }
        ensures going { self.old.ending ≡ None → self.new ≡ self.old }
        ensures ending { self.new.ending ≡ self.old.ending }
        ensures same { Steps self.old self.new }
    {
        if self.ending.is_none() {
            return;
        }
        if let Some(flight) = self.flight.take() {
            finish_walk(&mut self.gmon, flight.walk);
        }
    }
}

/// Counts that the instruction at `pc` was executed, if it is one of those from `low` on that are counted.
fn count_execution(counts: &mut [u32], low: u32, pc: u32)
    requires { All (λ n. n < 4294967295) counts.old }
    ensures { counts.new ≡ with_execution low pc counts.old }
{
    if counts.is_empty() || pc < low || (pc - low) % 4 != 0 {
        return;
    }
    let i = ((pc - low) / 4) as usize;
    if i < counts.len() {
        counts[i] += 1;
    }
}
