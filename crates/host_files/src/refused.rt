//! The names of files that were refused.

ghost use Rattle.std.specs.Prelude.{◌≡◌, ◌∷◌, ◌++◌, [], OnErr, OnOk};
ghost use Rattle.host_files.specs.Names.{names_in};

use std::alloc::{AllocError, Global};

/// The names of the files that a folder refused to open, in their order.
#[derive(Drop)]
pub struct RefusedNames {
    names: Vec<String>,
}

impl RefusedNames {
    /// No names.
    pub fn new(alloc: Global) -> RefusedNames
        ensures { names_in result ≡ [] }
    {
        RefusedNames {
            names: Vec::new(alloc),
        }
    }

    /// Adds a name. Err if memory was refused.
    pub fn push(&mut self, alloc: Global, name: &str) -> Result<(), AllocError>
        ensures ok { OnOk result (names_in self.new ≡ names_in self.old ++ name.now ∷ []) }
        ensures err { OnErr result (names_in self.new ≡ names_in self.old) }
    {
        let name = String::from_str(alloc, name)?;
        self.names.push(name)?;
        Ok(())
    }
}
