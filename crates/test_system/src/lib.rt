//! Tests of the system as a host and of the files of a folder; and a host that they are written with.
#![tactic(auto)]

pub mod hosts;

pub use hosts::host_of;

#[cfg(test)]
mod tests;
