//! A system over a folder: what is asked of a folder, how an output takes the place of a file, and the
//! system for a host that is made of both.
#![tactic(auto)]

pub mod beside;
pub mod folder;
pub mod kinds;
pub mod laws;
pub mod mem_folder;
pub mod names;
pub mod place;
pub mod system;

pub use beside::{Beside, Taken};
pub use folder::{Attributes, Folder, Found};
pub use mem_folder::MemFolder;
pub use place::Place;
pub use system::{FolderSystem, Printer};
