// A recorder with its media: a type for each state keeps what the next call needs, so that a test only calls.
ghost use Rattle.std.specs.Prelude.{◌≡◌, false, true};
ghost use Rattle.vdr_terms.specs.Records.{total};
ghost use Rattle.vdr_vault.specs.Vaults.{AreRings};
ghost use Rattle.vdr_recorder_tests.specs.Benches.{MayClose};

use std::alloc::Global;
use std::marker::Model;
use vdr_intake::Captured;
use vdr_memory::MemorySink;
use vdr_outside::Media;
use vdr_piece::Piece;
use vdr_recorder::{Going, Medium, OpenPlay, Query, Recorder};
use vdr_terms::Counts;

pub(super) const NONE: Counts = Counts {
    full: 0,
    rate: 0,
    bad: 0,
    large: 0,
};

pub(super) const FOUR_FULL: Counts = Counts { full: 4, ..NONE };

// What NAVD's port, and no other, has missed at a close.
const FULL: [Counts; 16] = [
    NONE, NONE, NONE, FOUR_FULL, NONE, NONE, NONE, NONE, NONE, NONE, NONE, NONE, NONE, NONE, NONE,
    NONE,
];

// All that the capsule has.
const ALL: Query = Query {
    medium: Medium::Capsule,
    channel: None,
    from: 0,
    to: 1_000_000,
};

/// A recorder that has no run open.
#[derive(Drop)]
pub(super) struct Bench<M: Media> {
    media: M,
    recorder: Recorder,
}

impl<M: Media> Model for Bench<M> {
    ghost use Rattle.std.specs.Prelude.{⊤};
    ghost use Rattle.vdr_recorder_tests.specs.Benches.{IsIdle};

    ghost Value = { ⊤ };

    ghost view = { λ _. tt };

    ghost invariant = { λ b. IsIdle b.recorder (M.disk b.media).sizes };
}

/// A recorder whose run took so many items.
#[derive(Drop)]
pub(super) struct Run<M: Media> {
    media: M,
    recorder: Recorder,
    taken: u64,
}

impl<M: Media> Model for Run<M> {
    ghost use Rattle.std.specs.Prelude.{⊤};
    ghost use Rattle.vdr_recorder_tests.specs.Benches.{IsRunning};

    ghost Value = { ⊤ };

    ghost view = { λ _. tt };

    ghost invariant = { λ r. IsRunning r.recorder (M.disk r.media).sizes r.taken };
}

impl<M: Media + Drop> Bench<M> {
    /// None where the media are not opened.
    pub(super) fn open(alloc: Global, media: M) -> Option<Bench<M>> {
        let mut media = media;
        if media.count() != 2 {
            return None;
        }
        match Recorder::open(alloc, &mut media) {
            Ok(recorder) => Some(Bench { media, recorder }),
            Err(_) => None,
        }
    }

    /// Whether all that the medium has is played as this text.
    pub(super) fn plays(&mut self, alloc: Global, medium: Medium, text: &[u8]) -> bool {
        let query = Query {
            medium,
            channel: None,
            from: 0,
            to: 100_000,
        };
        let mut out = MemorySink::new(alloc, Vec::new(alloc));
        self.recorder
            .play(&mut self.media, &query, &mut out)
            .is_ok()
            && out.taken() == text
    }

    /// None where the run is not begun.
    pub(super) fn start(self) -> Option<Run<M>> {
        let Bench {
            mut media,
            mut recorder,
        } = self;
        match recorder.start(&mut media) {
            Ok(()) => Some(Run {
                media,
                recorder,
                taken: 0,
            }),
            Err(_) => None,
        }
    }
}

impl<M: Media + Drop> Run<M> {
    /// Records one item of NAVD, before which nothing was missed, as a batch. Whether it was such an item, and is recorded.
    pub(super) fn take(&mut self, item: Captured) -> bool {
        item.group == 3 && item.missed == NONE && self.takes_one(item)
    }

    fn takes_one(&mut self, item: Captured) -> bool
        requires group { item.group ≡ 3 }
        requires missed { total item.missed ≡ 0 }
    {
        let config = self.recorder.config();
        if config.batch < 2_048 || config.groups[3].is_none() || self.taken >= 1_000 {
            return false;
        }
        if self.recorder.failed() {
            return false;
        }
        // No item is longer than what is recorded, as its type keeps.
        let _bytes = &item.bytes;
        let is_taken = self.recorder.take_batch(&mut self.media, &[item]).is_ok();
        self.taken += 1;
        is_taken
    }

    /// Begins a play of all that the capsule has. None where it is not begun.
    pub(super) fn begin_play(&mut self) -> Option<OpenPlay> {
        self.recorder.begin_play(&mut self.media, &ALL).ok()
    }

    /// Prints on. None where a read is refused.
    pub(super) fn play_on(&mut self, play: &mut OpenPlay, piece: &mut Piece) -> Option<Going> {
        if piece.len() >= vdr_piece::FULL {
            return None;
        }
        self.recorder.play_on(&mut self.media, play, piece).ok()
    }

    /// What a play of all that the capsule has prints. None where it fails.
    pub(super) fn played(&mut self, alloc: Global) -> Option<MemorySink> {
        let mut out = MemorySink::new(alloc, Vec::new(alloc));
        match self.recorder.play(&mut self.media, &ALL, &mut out) {
            Ok(()) => Some(out),
            Err(_) => None,
        }
    }

    /// Closes the run, in which NAVD's port has missed four items that found no room. None where it is not closed.
    pub(super) fn stop_full(self) -> Option<Bench<M>> {
        let Run {
            mut media,
            mut recorder,
            taken,
        } = self;
        if taken > 16 || recorder.failed() || !closes_full(&mut media, &mut recorder) {
            return None;
        }
        Some(Bench { media, recorder })
    }
}

fn closes_full<M: Media>(media: &mut M, recorder: &mut Recorder) -> bool
    requires { MayClose recorder.old (M.disk media.old).sizes }
    ensures rings { result ≡ true → AreRings recorder.new.vault (M.disk media.new).sizes }
    ensures closed { result ≡ true → recorder.old.vault.failed ≡ false → recorder.new.is_open ≡ false }
{
    recorder.config().groups[3].is_some() && recorder.stop(media, &FULL).is_ok()
}
