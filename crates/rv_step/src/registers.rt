//! The registers of a hart.

ghost use Rattle.std.specs.Prelude.{◌≡◌, ◌<◌, replicate};
ghost use Rattle.rv_step.specs.Registers.{IsHart, register, with_register};

use std::marker::Model;

/// The registers x0 to x31, of which x0 is always 0, and pc. Contracts see the list of the 32
/// numbers, and pc.
#[derive(Drop)]
pub struct Regs {
    x: [u32; 32],
    pc: u32,
}

impl Model for Regs {
    ghost use Rattle.std.specs.Prelude.{◌≡◌, slice_index};
    ghost use Rattle.rv_step.specs.Registers.{Registers};

    ghost Value = { Registers };

    ghost view = { λ a. record { x = a.x; pc = a.pc } };

    ghost invariant = { λ a. slice_index a.x 0 ≡ 0 };
}

impl Regs {
    /// All registers are 0.
    pub fn new(pc: u32) -> Regs
        ensures zeros { result.x ≡ replicate 32 0 }
        ensures pc { result.pc ≡ pc }
    {
        Regs { x: [0; 32], pc }
    }

    /// The number in register `r`, from 0 to 31.
    pub fn get(&self, r: u32) -> u32
        requires { r < 32 }
        ensures value { result ≡ register self.now r }
        ensures hart { IsHart self.now }
    {
        self.x[r as usize]
    }

    /// Writes register `r`, from 0 to 31. Nothing changes where it is 0.
    pub fn set(&mut self, r: u32, value: u32)
        requires { r < 32 }
        ensures x { self.new.x ≡ with_register self.old.x r value }
        ensures pc { self.new.pc ≡ self.old.pc }
    {
        if r != 0 {
            self.x[r as usize] = value;
        }
    }

    /// The program counter.
    pub fn pc(&self) -> u32
        ensures { result ≡ self.now.pc }
    {
        self.pc
    }

    /// Changes the program counter alone.
    pub fn set_pc(&mut self, pc: u32)
        ensures pc { self.new.pc ≡ pc }
        ensures x { self.new.x ≡ self.old.x }
    {
        self.pc = pc;
    }
}
