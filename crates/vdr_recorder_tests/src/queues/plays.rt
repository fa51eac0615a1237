// A play that goes on in turns, between which the recorder takes items.
use super::bench::{Bench, NONE, Run};
use super::formatted;
use arrayvec::ArrayVec;
use std::alloc::{AllocError, Global};
use vdr_intake::Captured;
use vdr_memory::RamMedia;
use vdr_outside::Media;
use vdr_piece::Piece;
use vdr_recorder::{Going, OpenPlay};
use vdr_terms::{Verdict, recordable};

// The window that ends with the last of so many items stands in three segments.
const THREE_SEGMENTS: u64 = 150;

// Behind so many the capsule has written its first segments over, of 16.
const WRAPPED: u64 = 900;

// The datagram of this number, of 100 bytes, two a second.
fn datagram(number: u64) -> Option<Captured> {
    let mut bytes = [b'x'; 100];
    bytes[..6].copy_from_slice(b"AbCdE\0");
    if number >= 1_000 || !matches!(recordable(&bytes), Verdict::Yes) {
        return None;
    }
    let mut payload = ArrayVec::new();
    let _ = payload.try_extend_from_slice(&bytes);
    Some(Captured {
        group: 3,
        number,
        received: 500 * number,
        utc: 0,
        missed: NONE,
        bytes: payload,
    })
}

// Records the items of these numbers. Whether all are.
fn takes<M: Media + Drop>(run: &mut Run<M>, from: u64, to: u64) -> bool {
    for number in from..to {
        let Some(item) = datagram(number) else {
            return false;
        };
        if !run.take(item) {
            return false;
        }
    }
    true
}

fn begun(alloc: Global) -> Option<Run<RamMedia>> {
    let mut run = Bench::open(alloc, formatted(alloc)?)?.start()?;
    if takes(&mut run, 0, THREE_SEGMENTS) {
        Some(run)
    } else {
        None
    }
}

// What is printed in further turns, and how the last one left the play. An item is recorded between each two.
fn printed<M: Media + Drop>(
    alloc: Global,
    run: &mut Run<M>,
    mut play: OpenPlay,
) -> Result<(Vec<u8>, Option<Going>, u64), AllocError> {
    let mut text = Vec::new(alloc);
    let mut piece = Piece::new();
    for turn in 0..20 {
        piece.clear();
        let went = run.play_on(&mut play, &mut piece);
        text.extend_from_slice(piece.as_slice())?;
        if went != Some(Going::More)
            || !takes(run, THREE_SEGMENTS + turn, THREE_SEGMENTS + turn + 1)
        {
            return Ok((text, went, turn));
        }
    }
    Ok((text, None, 20))
}

/// Whether a play of three segments prints in three turns what it would have printed as it was begun, though items are recorded between them.
pub(crate) fn printed_in_turns(alloc: Global) -> Option<bool> {
    let mut run = begun(alloc)?;
    let whole = run.played(alloc)?;
    let play = run.begin_play()?;
    let (text, went, turn) = printed(alloc, &mut run, play).ok()?;
    Some(text.as_slice() == whole.taken() && went == Some(Going::All) && turn == 2)
}

/// Whether a play is told that its first place is gone, and nothing is printed, where its first segments are written over before its first turn.
pub(crate) fn gone_between_turns(alloc: Global) -> Option<bool> {
    let mut run = begun(alloc)?;
    let mut play = run.begin_play()?;
    let mut piece = Piece::new();
    if !takes(&mut run, THREE_SEGMENTS, WRAPPED) {
        return Some(false);
    }
    Some(run.play_on(&mut play, &mut piece) == Some(Going::Gone(31)) && piece.len() == 0)
}
