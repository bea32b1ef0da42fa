//! The demo program is a program: its file is never refused, and a run of it starts.
#![tactic(auto)]

pub mod laws;
