// Numbers in either order of bytes.
ghost use Rattle.std.specs.Prelude.{◌≡◌, ◌≤◌, ◌+◌, length};
ghost use Rattle.vdr_pcap.specs.Numbers.{u16_in, u32_in, u64_in};

/// The number of two bytes at this offset.
#[tactic(auto, unfolding(crate::specs::Numbers::u16_in))]
pub(crate) fn u16_in(big: bool, at: usize, bytes: &[u8]) -> u16
    requires { at + 2 ≤ length bytes.now }
    ensures { result ≡ u16_in big at bytes.now }
{
    let part = &bytes[at..at + 2];
    let two = [part[0], part[1]];
    if big {
        u16::from_be_bytes(two)
    } else {
        u16::from_le_bytes(two)
    }
}

/// The number of four bytes at this offset.
#[tactic(auto, unfolding(crate::specs::Numbers::u32_in))]
pub(crate) fn u32_in(big: bool, at: usize, bytes: &[u8]) -> u32
    requires { at + 4 ≤ length bytes.now }
    ensures { result ≡ u32_in big at bytes.now }
{
    let part = &bytes[at..at + 4];
    let four = [part[0], part[1], part[2], part[3]];
    if big {
        u32::from_be_bytes(four)
    } else {
        u32::from_le_bytes(four)
    }
}

/// The number of eight bytes at this offset.
#[tactic(auto, unfolding(crate::specs::Numbers::u64_in))]
pub(crate) fn u64_in(big: bool, at: usize, bytes: &[u8]) -> u64
    requires { at + 8 ≤ length bytes.now }
    ensures { result ≡ u64_in big at bytes.now }
{
    let part = &bytes[at..at + 8];
    let eight = [
        part[0], part[1], part[2], part[3], part[4], part[5], part[6], part[7],
    ];
    if big {
        u64::from_be_bytes(eight)
    } else {
        u64::from_le_bytes(eight)
    }
}
