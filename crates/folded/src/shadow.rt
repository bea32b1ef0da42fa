//! The shadow of a hart's stack: where its calls are to return to.

ghost use Rattle.std.specs.Prelude.{◌≡◌, ◌+◌, ◌^◌, ◌<◌, ◌≤◌, Option, Some, None, length, take};
ghost use Rattle.folded.specs.Shadow.{after_hook, after_instruction, after_ran, empty_shadow, frames_before, is_call as is_call_of, is_return as is_return_of, keeps_shadow as keeps_shadow_of, with_call, with_return};

use prof_machine::Ran;
use rv_decode::{Instr, Op};
use std::marker::Model;

/// How many return addresses are kept.
const ROOM: usize = 128;

/// The numbers of the registers x0, which is always 0, and ra, which keeps the return address of a call.
const ZERO: u32 = 0;

const RA: u32 = 1;

/// The shadow of a hart's stack. Contracts see the return addresses that are kept, the oldest first, and
/// how many calls found no room. Takes no memory.
#[derive(Drop)]
pub(crate) struct ShadowStack {
    frames: [u32; ROOM],
    len: usize,
    over: u64,
}

impl Model for ShadowStack {
    ghost use Rattle.std.specs.Prelude.{◌≤◌, take};
    ghost use Rattle.folded.specs.Shadow.{Shadow};

    ghost Value = { Shadow };

    ghost view = { λ a. record { frames = take a.len a.frames; over = a.over } };

    ghost invariant = { λ a. a.len ≤ 128 };
}

impl ShadowStack {
    /// No call was made.
    pub(crate) fn new() -> ShadowStack
        ensures { result ≡ empty_shadow }
    {
        ShadowStack {
            frames: [0; ROOM],
            len: 0,
            over: 0,
        }
    }

    /// The return addresses of the calls that haven't returned, the oldest first.
    pub(crate) fn frames(&self) -> &[u32]
        ensures frames { result.now ≡ self.now.frames }
        ensures few { length result.now ≤ 128 }
    {
        &self.frames[..self.len]
    }

    /// An instruction has retired, if there is one: it may be a call or a return.
    pub(crate) fn run(&mut self, ran: Option<Ran>)
        requires { self.old.over < 2 ^ 63 }
        ensures { self.new ≡ after_ran ran self.old }
    {
        if let Some(ran) = ran {
            self.retire(ran);
        }
    }

    /// The hart has left a hook, if it has, and goes on at this address.
    pub(crate) fn leave_hook(&mut self, to: Option<u32>)
        ensures { self.new ≡ after_hook to self.old }
    {
        if let Some(to) = to {
            self.go_back(to);
        }
    }

    #[tactic(auto, unfolding(crate::specs::Shadow::after_instruction))]
    fn retire(&mut self, ran: Ran)
        requires { self.old.over < 2 ^ 63 }
        ensures { self.new ≡ after_instruction ran self.old }
    {
        if is_call(&ran.instr) {
            self.call(ran.pc.wrapping_add(4));
        } else if is_return(&ran.instr) {
            self.go_back(ran.next);
        }
    }

    /// A call that is to return to this address.
    #[tactic(auto, unfolding(crate::specs::Shadow::with_call))]
    fn call(&mut self, to: u32)
        requires { self.old.over < 2 ^ 63 }
        ensures { self.new ≡ with_call to self.old }
    {
        if self.len < ROOM {
            self.frames[self.len] = to;
            self.len += 1;
        } else {
            self.over += 1;
        }
    }

    /// A return to this address.
    #[tactic(auto, unfolding(crate::specs::Shadow::with_return))]
    fn go_back(&mut self, to: u32)
        ensures { self.new ≡ with_return to self.old }
    {
        if self.over > 0 {
            self.over -= 1;
            return;
        }
        self.len = kept(&self.frames[..self.len], to);
    }
}

/// How many frames stand before the last one that is this address; all of them where there is none.
fn kept(frames: &[u32], to: u32) -> usize
    ensures within { result ≤ length frames.now }
    ensures kept { take result frames.now ≡ frames_before to frames.now }
{
    let mut end = frames.len();
    while end > 0 && frames[end - 1] != to {
        end -= 1;
    }
    if end == 0 { frames.len() } else { end - 1 }
}

/// Whether an instruction, if there is one, is neither a call nor a return.
pub(crate) fn keeps_shadow(ran: &Option<Ran>) -> bool
    ensures { result ≡ keeps_shadow_of ran.now }
{
    match ran {
        Some(ran) => !is_call(&ran.instr) && !is_return(&ran.instr),
        None => true,
    }
}

/// Whether an instruction is a call: a jump that keeps its return address in ra.
fn is_call(instr: &Instr) -> bool
    ensures { result ≡ is_call_of instr.now }
{
    match instr.op {
        Op::Jal | Op::Jalr => instr.rd == RA,
        _ => false,
    }
}

/// Whether it is a return: a jump to what ra has that keeps no address.
fn is_return(instr: &Instr) -> bool
    ensures { result ≡ is_return_of instr.now }
{
    match instr.op {
        Op::Jalr => instr.rd == ZERO && instr.rs1 == RA,
        _ => false,
    }
}
