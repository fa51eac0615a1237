// Where in the text of a configuration a key stands, as the path that a refusal names.
ghost use Rattle.std.specs.Prelude.{◌≡◌, IfOk};
ghost use Rattle.vdr_config.specs.Grammar.{path, element_path};

use crate::bad::KeyPath;
use std::alloc::{AllocError, Global};

/// An object of the text: the whole, or an element of one of its two arrays.
#[derive(Clone, Copy, Drop)]
pub(crate) enum Scope {
    Top,
    Group(usize),
    Channel(usize),
}

impl Scope {
    /// The path of a key of this object.
    pub(crate) fn path(self, alloc: Global, key: &str) -> Result<KeyPath, AllocError>
        ensures { IfOk result (λ p. p ≡ path self key.now) }
    {
        let text = match self {
            Scope::Top => String::from_str(alloc, key)?,
            Scope::Group(i) => format!(in alloc; "groups.{i}.{key}")?,
            Scope::Channel(i) => format!(in alloc; "channels.{i}.{key}")?,
        };
        Ok(KeyPath { text })
    }

    /// The path of the object itself.
    pub(crate) fn element_path(self, alloc: Global) -> Result<KeyPath, AllocError>
        ensures { IfOk result (λ p. p ≡ element_path self) }
    {
        let text = match self {
            Scope::Top => String::new(alloc),
            Scope::Group(i) => format!(in alloc; "groups.{i}")?,
            Scope::Channel(i) => format!(in alloc; "channels.{i}")?,
        };
        Ok(KeyPath { text })
    }
}
