// What stood in the way of a call outside, for a person to read.
use std::{fmt, io};

/// What stood in the way of a call outside, in words for a person.
#[derive(Drop)]
pub enum Trouble {
    /// The file is locked: by another process, or since both media are one file under two names.
    InUse,
    /// What stands there is neither a file nor a block device.
    NoMedium,
    /// A write or a sync failed before, and its mark still stands.
    Left,
    /// A medium was to be made, and its name is taken.
    Taken,
    /// What the system said.
    System(io::Error),
}

impl fmt::Display for Trouble {
    fn fmt<W: fmt::Write>(&self, f: &mut fmt::Formatter<W>) -> fmt::Result {
        match self {
            Trouble::InUse => write!(f, "in use by another process"),
            Trouble::NoMedium => write!(f, "neither a file nor a block device"),
            Trouble::Left => write!(
                f,
                "a write or a sync of it failed before: see to its disk, then remove its .left file"
            ),
            Trouble::Taken => write!(
                f,
                "it is there already; `format` formats media that are there"
            ),
            Trouble::System(error) => write!(f, "{error}"),
        }
    }
}
