//! Files of both forms of gmon.out and a run that both write, and tests of both forms and of what they share.
#![tactic(auto)]

pub mod files;
pub mod runs;

pub use files::{
    BSD_RUN, GNU_RUN, HEADER_ALONE, LARGE_NUMBERS, SEVERAL, TWO_OF_EACH, large_bsd_file,
    large_gnu_file,
};
pub use runs::{are_of_small_run, small_run};

#[cfg(test)]
mod tests;
