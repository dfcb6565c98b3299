//! Files by their names, and those of the host: read as sources of bytes, and put whole.
#![tactic(auto)]

mod folder;
mod host_folder;
mod putting;
mod refused;
mod source;

pub use folder::Folder;
pub use host_folder::HostFolder;
pub use refused::RefusedNames;
pub use source::{HostSource, open};
