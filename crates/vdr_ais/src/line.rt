// Lines that carry a part of a message.
ghost use Rattle.std.specs.Prelude.{◌≡◌, ◌≤◌, true, length};
ghost use Rattle.std.specs.List.{list_all};
ghost use Rattle.vdr_ais.specs.Bits.{is_legal};

/// What the parts of one message have in common.
#[derive(Clone, Copy, Drop)]
pub(crate) struct Key<'a> {
    /// The transmission group.
    pub(crate) group: u8,
    /// The source that the TAG blocks name.
    pub(crate) source: &'a [u8],
    /// VDM of another ship, VDO of the own ship.
    pub(crate) formatter: &'static [u8],
    /// The sequential identifier, None where its field is empty.
    pub(crate) sequence: Option<u32>,
    /// The text of the field of the radio channel.
    pub(crate) channel: &'a [u8],
    ghost short: { length channel.now ≤ 76 },
}

/// A part of a message.
#[derive(Clone, Copy, Drop)]
pub(crate) struct Part<'a> {
    /// How many parts the message has.
    pub(crate) total: u32,
    /// Which of them this is, from 1 on.
    pub(crate) number: u32,
    /// The characters that carry it.
    pub(crate) payload: &'a [u8],
    /// How many bits at its end fill up the last six.
    pub(crate) fill: u8,
    ghost few: { number ≤ 9 },
    ghost short: { length payload.now ≤ 76 },
    ghost legal: { list_all is_legal payload.now ≡ true },
}

/// A line that carries a part.
#[derive(Clone, Copy, Drop)]
pub(crate) struct Line<'a> {
    pub(crate) key: Key<'a>,
    pub(crate) part: Part<'a>,
}
