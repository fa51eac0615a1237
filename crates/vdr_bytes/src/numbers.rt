// Little-endian numbers of two, four and eight bytes at an offset, read and written.
ghost use Rattle.std.specs.Prelude.{◌≡◌, ◌≤◌, ◌+◌, ◌*◌, length};
ghost use Rattle.vdr_bytes.specs.Numbers.{Puts, le_u16, le_u32, le_u64, le_u64s, u16_at, u32_at, u64_at};

/// The little-endian number of two bytes at this offset.
#[tactic(auto, unfolding(crate::specs::Numbers::u16_at))]
pub fn u16_at(bytes: &[u8], at: usize) -> u16
    requires { at + 2 ≤ length bytes.now }
    ensures { result ≡ u16_at at bytes.now }
{
    let part = &bytes[at..at + 2];
    u16::from_le_bytes([part[0], part[1]])
}

/// The little-endian number of four bytes at this offset.
#[tactic(auto, unfolding(crate::specs::Numbers::u32_at))]
pub fn u32_at(bytes: &[u8], at: usize) -> u32
    requires { at + 4 ≤ length bytes.now }
    ensures { result ≡ u32_at at bytes.now }
{
    let part = &bytes[at..at + 4];
    u32::from_le_bytes([part[0], part[1], part[2], part[3]])
}

/// The little-endian number of eight bytes at this offset.
#[tactic(auto, unfolding(crate::specs::Numbers::u64_at))]
pub fn u64_at(bytes: &[u8], at: usize) -> u64
    requires { at + 8 ≤ length bytes.now }
    ensures { result ≡ u64_at at bytes.now }
{
    let part = &bytes[at..at + 8];
    u64::from_le_bytes([
        part[0], part[1], part[2], part[3], part[4], part[5], part[6], part[7],
    ])
}

/// Writes the bytes over those at this offset.
pub fn put(into: &mut [u8], at: usize, bytes: &[u8])
    requires { at + length bytes.now ≤ length into.old }
    ensures { Puts into.old into.new at bytes.now }
{
    into[at..at + bytes.len()].copy_from_slice(bytes);
}

/// Writes the number over the two bytes at this offset, little-endian.
#[tactic(auto, unfolding(crate::specs::Numbers::le_u16))]
pub fn put_u16(into: &mut [u8], at: usize, n: u16)
    requires { at + 2 ≤ length into.old }
    ensures { Puts into.old into.new at (le_u16 n) }
{
    put(into, at, &n.to_le_bytes());
}

/// Writes the number over the four bytes at this offset, little-endian.
#[tactic(auto, unfolding(crate::specs::Numbers::le_u32))]
pub fn put_u32(into: &mut [u8], at: usize, n: u32)
    requires { at + 4 ≤ length into.old }
    ensures { Puts into.old into.new at (le_u32 n) }
{
    put(into, at, &n.to_le_bytes());
}

/// Writes the number over the eight bytes at this offset, little-endian.
#[tactic(auto, unfolding(crate::specs::Numbers::le_u64))]
pub fn put_u64(into: &mut [u8], at: usize, n: u64)
    requires { at + 8 ≤ length into.old }
    ensures { Puts into.old into.new at (le_u64 n) }
{
    put(into, at, &n.to_le_bytes());
}

/// Writes the numbers one after another over the bytes from this offset on, eight bytes each, little-endian.
pub fn put_u64s(into: &mut [u8], at: usize, numbers: &[u64])
    requires { at + 8 * length numbers.now ≤ length into.old }
    ensures { Puts into.old into.new at (le_u64s numbers.now) }
{
    let mut end = at;
    for number in numbers {
        put_u64(into, end, *number);
        end += 8;
    }
}
