//! The outside of the program: a port that hosts implement, two hosts in memory, the loops that load a
//! file and that write or print a whole piece, and buffers for what is written and printed.
#![tactic(auto)]

pub mod acts;
pub mod buffers;
mod files;
pub mod host;
pub mod mem_host;
pub mod never_fails;
pub mod pieces;
pub mod side;
pub mod whole_file;

pub use buffers::{OutBuf, PrintBuf};
pub use host::{Failed, Host};
pub use mem_host::{HostCall, MemHost};
pub use never_fails::NeverFails;
pub use pieces::{err_all_of, out_all_of, write_all_of};
pub use whole_file::{LoadRefusal, TakesPieces, load, read_all, read_front};
