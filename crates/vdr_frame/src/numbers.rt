// Numbers in the headers of packets.
ghost use Rattle.std.specs.Prelude.{◌≡◌, ◌≤◌, ◌+◌, length};
ghost use Rattle.vdr_frame.specs.Numbers.{u16_at};

// The big-endian number of two bytes at this offset.
pub(crate) fn u16_at(bytes: &[u8], at: usize) -> u16
    requires { at + 2 ≤ length bytes.now }
    ensures { result ≡ u16_at bytes.now at }
{
    256 * u16::from(bytes[at]) + u16::from(bytes[at + 1])
}
