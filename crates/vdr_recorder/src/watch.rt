// Who is told of a recording while it goes on.
//
// What is acknowledged is what such an object was told: each of its calls asks that all of that is on the media by
// then, also in a run that never returns.
use crate::Turn;
use vdr_outside::Media;

/// Is told of a recording while it goes on: of the media as they are found, of their opening, and of each turn of the recorder that met no
/// fault, behind it and before anybody is answered. What it is told is on the media by then: a stop from now on leaves it, where they were
/// legible and sound as they were found.
pub trait Watch<M: Media> {
    ghost use Rattle.std.specs.Prelude.{◌≡◌, []};
    ghost use Rattle.vdr_recorder.specs.Watched.{ShowsTold, Watched, plain, with_turn};

    /// A fact where the object tells what it was told.
    ghost hears: { Type 0 };

    /// What it was told so far.
    ghost seen: { Self → Watched };

    /// The media are about to be opened. Nothing was told of them.
    fn found(&mut self, media: &M)
        ensures { hears → seen self.new ≡ record { found = (M.disk media.now).reads; synced = (M.disk media.now).clock; turns = [] } };

    /// They were opened, and a stop leaves them without a further event.
    fn opened(&mut self, media: &M)
        requires shown { hears → ShowsTold (record (seen self.old) { turns = [] }) (M.disk media.now) }
        ensures { hears → seen self.new ≡ record (seen self.old) { synced = (M.disk media.now).clock; turns = [] } };

    /// A turn of the recorder is done, and a stop leaves all turns so far, this one among them.
    fn turned(&mut self, media: &M, did: Turn<'_>)
        requires shown { hears → ShowsTold (with_turn (seen self.old) (plain did) (M.disk media.now).clock) (M.disk media.now) }
        ensures { hears → seen self.new ≡ with_turn (seen self.old) (plain did.entry) (M.disk media.now).clock };
}

/// Nobody is told.
#[derive(Drop)]
pub struct Nobody {}

impl<M: Media> Watch<M> for Nobody {
    ghost use Rattle.vdr_recorder.specs.Watched.{nothing_told};

    ghost hears = { ⊥ };

    ghost seen = { λ _. nothing_told };

    fn found(&mut self, _media: &M) {}

    fn opened(&mut self, _media: &M) {}

    fn turned(&mut self, _media: &M, _did: Turn<'_>) {}
}
