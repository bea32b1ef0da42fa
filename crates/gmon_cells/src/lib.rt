//! What the readers and writers of both forms of gmon.out share. Cells of one width come in pieces, as
//! counters, arcs and block counts do: whole ones are kept in a column, and beside them the few bytes of a
//! cell that isn't whole yet. The file of a run is written in one course, by its header and by the tag of
//! an arc.
#![tactic(auto)]

pub mod arcs;
pub mod cell;
pub mod column;
pub mod remnant;
pub mod run_cells;
pub mod views;

pub use arcs::push_arcs;
pub use cell::Cell;
pub use column::Column;
pub use remnant::Remnant;
pub use run_cells::{put_arc, write_run};
pub use views::{HistView, RecView};
