//! The places that bytes go to.

/// Where bytes go.
#[derive(Clone, Copy, Debug, PartialEq, Eq)]
pub enum Side {
    /// To the file that is being written.
    File,
    Output,
    ErrorOutput,
}
