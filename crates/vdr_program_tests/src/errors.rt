// The standard error in memory.
use std::alloc::Global;
use std::cell::RefCell;
use std::fmt::Display;
use std::io;
use std::io::ErrorKind;

/// The lines that a person would read.
#[derive(Drop)]
pub(crate) struct Told {
    alloc: Global,
    text: RefCell<String>,
}

impl Told {
    pub(crate) fn new(alloc: Global) -> Told {
        Told {
            alloc,
            text: RefCell::new(String::new(alloc)),
        }
    }

    /// All that was told.
    pub(crate) fn into_text(self) -> String {
        let Told { text, .. } = self;
        text.into_inner()
    }
}

impl Eprint for Told {
    fn eprint<D: Display + Drop>(&self, value: D) -> io::Result<()> {
        let piece = format!(in self.alloc; "{value}")?;
        let Ok(mut text) = self.text.try_borrow_mut() else {
            return Err(io::Error::from(ErrorKind::ResourceBusy));
        };
        text.push_str(piece.as_str())?;
        Ok(())
    }

    fn eprintln<D: Display + Drop>(&self, value: D) -> io::Result<()> {
        self.eprint(value)?;
        self.eprint("\n")
    }
}
