// What is kept of an evidence file that was read to its end.
ghost use Rattle.std.specs.Prelude.{◌≡◌};

use crate::account::Account;
use crate::heading::Head;
use vdr_config::Config;

/// An evidence file that was read to its end: what it holds but for its records, and the SHA-256 of all of it, by which it is known
/// when it is read again.
#[derive(Drop)]
pub struct Evidence {
    pub(crate) head: Head,
    pub(crate) account: Account,
    // How many bytes stand before its records.
    pub(crate) begin: u64,
    // The SHA-256 of the whole file.
    pub(crate) digest: [u8; 32],
}

impl Evidence {
    /// The configuration with which its records were recorded.
    pub fn config(&self) -> &Config
        ensures { result.now ≡ self.now.head.config }
    {
        &self.head.config
    }

    /// The text of the configuration.
    pub fn text(&self) -> &[u8]
        ensures { result.now ≡ self.now.head.text.items }
    {
        self.head.text.as_slice()
    }

    /// The number of the medium on which its records stood: 0 the capsule, 1 the long-term medium.
    pub fn medium(&self) -> u8
        ensures { result ≡ self.now.head.medium }
    {
        self.head.medium
    }

    /// The id of the incident that its records were, 0 where they were of a medium's window.
    pub fn incident(&self) -> u32
        ensures { result ≡ self.now.head.incident }
    {
        self.head.incident
    }

    /// The label of that incident, which is nothing where there is none.
    pub fn label(&self) -> &[u8]
        ensures { result.now ≡ self.now.head.label.items }
    {
        self.head.label.as_slice()
    }
}
