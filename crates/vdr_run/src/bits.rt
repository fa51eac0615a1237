// The bits of records that are no Datagrams: which channels select them.
ghost use Rattle.std.specs.Prelude.{◌≡◌};
ghost use Rattle.vdr_terms.specs.declared.counts.Counts.{Counts};
ghost use Rattle.vdr_terms.specs.Channels.{bits_of};
ghost use Rattle.vdr_terms.specs.Records.Content.{Start, Gap, Stop};
ghost use Rattle.vdr_datagram.specs.Channels.{channels_of};

use vdr_config::Config;

/// The bits of a Gap: bit k for each channel k of its group.
pub(crate) fn gap_bits(config: &Config, group: u8) -> u64
    ensures { (missed : Counts) → result ≡ bits_of (channels_of config.now) group (Gap missed) }
{
    let mut bits = 0;
    for k in (0..config.channels.len()).rev() {
        bits = 2 * bits + u64::from(config.channels[k].group == group);
    }
    bits
}

/// The bits of a Start and of a Stop: those of all channels.
pub(crate) fn marker_bits(config: &Config) -> u64
    ensures start { result ≡ bits_of (channels_of config.now) 255 Start }
    ensures stop { result ≡ bits_of (channels_of config.now) 255 Stop }
{
    let count = config.channels.len();
    if count == 64 {
        u64::MAX
    } else {
        (1 << count) - 1
    }
}
