//! One hart of RV32IM: its registers, memory, and one step.
#![tactic(auto)]

mod alu;
mod execution;
pub mod memory;
pub mod registers;
pub mod stepped;
pub mod stepper;

pub use memory::Ram;
pub use registers::Regs;
pub use stepped::{Stepped, TrapKind};
pub use stepper::{fetch, step};
