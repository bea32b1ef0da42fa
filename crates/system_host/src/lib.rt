//! The system as a host: what is asked of a system, the host over any system, and a system in memory.
#![tactic(auto)]

pub mod host;
pub mod one_file;
mod parts;
pub mod system;

pub use host::SystemHost;
pub use one_file::OneFile;
pub use system::System;
