// The media as opening read them: configuration, rings, incident saves, and the batch that some of them lack.
use std::marker::Model;
use vdr_config::Config;
use vdr_entry::Record;
use vdr_incident::Table;
use vdr_ring::Ring;

/// Media that were read: the configuration that they hold, a ring on each, the table of incident saves, and the batch that some of them
/// lack. Its type keeps nothing of its own.
#[derive(Drop)]
pub struct Opened {
    pub config: Config,
    /// One for each medium: its index is the number of the medium. The first one leads.
    pub rings: Vec<Ring>,
    pub table: Table,
    /// The records of the leading medium's last batch, where other media lack that batch; else none.
    pub missing: Vec<Record>,
    /// The media from this number on lack it.
    pub lacking: u8,
}

impl Model for Opened {
    ghost use Rattle.vdr_opening.specs.Answers.{OpenedState};

    ghost Value = { OpenedState };

    ghost view = { λ o. record { config = o.config; rings = o.rings.items; table = o.table; missing = o.missing.items; lacking = o.lacking } };
}
