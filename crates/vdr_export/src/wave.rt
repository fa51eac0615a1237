// The header of a WAVE file (RIFF, linear PCM).
//
// By numbers, a frame that is missing counts as many samples as the last one that is there; a number that goes back adds
// no silence, since numbers don't begin again. Two passes are one look: the first counts, the second writes.
ghost use Rattle.std.specs.Prelude.{◌≡◌, ◌≤◌, ◌+◌, ◌++◌, length};
ghost use Rattle.arrayvec.specs.ArrayVec.{array_vec_len};
ghost use Rattle.vdr_bytes.specs.Numbers.{le_u16, le_u32};
ghost use Rattle.vdr_export.specs.Waves.{IsWaveSize, format_chunk, wave_header};

use arrayvec::ArrayVec;
use vdr_bytes::{put_u16, put_u32};

/// How many bytes stand before the samples of a WAVE file.
const HEADER: usize = 44;

/// The sound of a WAVE file.
#[derive(Clone, Copy, Drop)]
pub struct WaveSize {
    /// Samples a second, 1 to 192,000.
    pub rate: u32,
    /// Bytes of sound, two a sample, at most 4,294,967,258.
    pub bytes: u32,
}

// Appends bytes for which there is room.
fn push(header: &mut ArrayVec<u8, HEADER>, bytes: &[u8])
    requires { array_vec_len header.old + length bytes.now ≤ 44 }
    ensures { header.new.items ≡ header.old.items ++ bytes.now }
{
    for byte in bytes {
        header.push(*byte);
    }
}

// Appends a number of two bytes, for which there is room.
fn push_u16(header: &mut ArrayVec<u8, HEADER>, n: u16)
    requires { array_vec_len header.old + 2 ≤ 44 }
    ensures text { header.new.items ≡ header.old.items ++ le_u16 n }
    ensures size { array_vec_len header.new ≡ array_vec_len header.old + 2 }
{
    let mut bytes = [0; 2];
    put_u16(&mut bytes, 0, n);
    push(header, &bytes);
}

// Appends a number of four bytes, for which there is room.
fn push_u32(header: &mut ArrayVec<u8, HEADER>, n: u32)
    requires { array_vec_len header.old + 4 ≤ 44 }
    ensures text { header.new.items ≡ header.old.items ++ le_u32 n }
    ensures size { array_vec_len header.new ≡ array_vec_len header.old + 4 }
{
    let mut bytes = [0; 4];
    put_u32(&mut bytes, 0, n);
    push(header, &bytes);
}

// Appends the chunk of the form.
#[tactic(auto, unfolding(crate::specs::Waves::format_chunk))]
fn push_format(header: &mut ArrayVec<u8, HEADER>, rate: u32)
    requires room { array_vec_len header.old ≡ 12 }
    requires rate { rate ≤ 192_000 }
    ensures text { header.new.items ≡ header.old.items ++ format_chunk rate }
    ensures size { array_vec_len header.new ≡ 36 }
{
    push(header, b"fmt ");
    push_u32(header, 16);
    push_u16(header, 1);
    push_u16(header, 1);
    push_u32(header, rate);
    push_u32(header, 2 * rate);
    push_u16(header, 2);
    push_u16(header, 16);
}

/// What stands before the samples.
#[tactic(auto, unfolding(crate::specs::Waves::wave_header))]
pub(crate) fn header_of(size: &WaveSize) -> ArrayVec<u8, HEADER>
    requires { IsWaveSize size.now }
    ensures { result.items ≡ wave_header size.now }
{
    let mut header = ArrayVec::new();
    push(&mut header, b"RIFF");
    push_u32(&mut header, 36 + size.bytes);
    push(&mut header, b"WAVE");
    push_format(&mut header, size.rate);
    push(&mut header, b"data");
    push_u32(&mut header, size.bytes);
    header
}
