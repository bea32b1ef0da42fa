//! What a turn did.

ghost use Rattle.std.specs.Prelude.{◌≡◌, None, option_and_then};
ghost use Rattle.rv_decode.specs.Table.{instr_of};
ghost use Rattle.prof_machine.specs.Notes.{look_note, ran_from};

use rv_decode::{Instr, decode};
use std::marker::Model;

/// What a turn did, besides the world that it left. A part is None where the turn had no such thing.
#[derive(Clone, Copy)]
pub struct TurnNote {
    /// The instruction that retired.
    pub ran: Option<Ran>,
    /// The address of the sample that was taken, if it counts: it lies in the text, and sampling was on.
    pub sample: Option<u32>,
    /// Where the hart goes on after a hook. A return that traps is none.
    pub returned: Option<u32>,
}

/// An instruction that retired.
#[derive(Clone, Copy)]
pub struct Ran {
    /// Where it stands.
    pub pc: u32,
    pub instr: Instr,
    /// Where it led, before any hook was served.
    pub next: u32,
}

/// A note as a run keeps it: the instruction that retired is kept as its word, which is decoded when somebody asks.
/// Contracts see what it tells.
#[derive(Drop)]
pub(crate) struct KeptNote {
    pc: u32,
    // None where none retired.
    word: Option<u32>,
    next: u32,
    pub(crate) sample: Option<u32>,
    pub(crate) returned: Option<u32>,
}

impl Model for KeptNote {
    ghost use Rattle.std.specs.Prelude.{option_and_then};
    ghost use Rattle.rv_decode.specs.Table.{instr_of};
    ghost use Rattle.prof_machine.specs.declared.notes.TurnNote.{TurnNote};
    ghost use Rattle.prof_machine.specs.Notes.{ran_from};

    ghost Value = { TurnNote };

    ghost view = { λ a. record {
      ran = ran_from a.pc a.next (option_and_then instr_of a.word);
      sample = a.sample;
      returned = a.returned;
    } };
}

impl KeptNote {
    /// What a turn did that was a look of a walk: at most it has returned from the hook.
    pub(crate) fn of_look(returned: Option<u32>) -> KeptNote
        ensures { result ≡ look_note returned }
    {
        KeptNote {
            pc: 0,
            word: None,
            next: 0,
            sample: None,
            returned,
        }
    }

    /// What an instruction did that stood at `pc`, and led to `next`.
    pub(crate) fn of_ran(pc: u32, word: Option<u32>, next: u32) -> KeptNote
        ensures { result ≡ record {
          ran = ran_from pc next (option_and_then instr_of word);
          sample = None;
          returned = None;
        } }
    {
        KeptNote {
            pc,
            word,
            next,
            sample: None,
            returned: None,
        }
    }

    /// The note. It is inlined, so that who looks at some of it decodes no more than that.
    #[inline(always)]
    pub(crate) fn told(&self) -> TurnNote
        ensures { result ≡ self.now }
    {
        TurnNote {
            ran: self.ran(),
            sample: self.sample,
            returned: self.returned,
        }
    }

    #[inline(always)]
    fn ran(&self) -> Option<Ran>
        ensures { result ≡ self.now.ran }
    {
        Some(Ran {
            pc: self.pc,
            instr: decode(self.word?)?,
            next: self.next,
        })
    }
}
