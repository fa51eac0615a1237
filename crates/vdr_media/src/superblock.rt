// The bytes of a superblock behind its gate.
ghost use Rattle.std.specs.Prelude.{◌≡◌, ◌<◌, ◌^◌};
ghost use Rattle.vdr_media.specs.Layout.{superblock_bytes};

use vdr_bytes::{put, put_u32, put_u64};

const VERSION: u8 = 1;

/// The bytes 1 to 22 of a superblock: the kind of medium (0 the capsule, 1 the long-term medium), its size and that of a segment in
/// bytes, and the number of slots (this project's profile).
pub fn superblock_bytes(kind: u8, size: u64, segment: u32, slots: u32) -> [u8; 22]
    ensures { result ≡ superblock_bytes kind size segment slots }
{
    let mut bytes = [0; 22];
    put(&mut bytes, 0, b"VDRM");
    put(&mut bytes, 4, &[VERSION, kind]);
    put_u64(&mut bytes, 6, size);
    put_u32(&mut bytes, 14, segment);
    put_u32(&mut bytes, 18, slots);
    bytes
}
