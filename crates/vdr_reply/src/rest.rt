// What is left of an answer that goes on in further turns.
use vdr_recorder::OpenPlay;

/// What is left of a play that is answered in several turns.
#[derive(Drop)]
pub struct Rest {
    pub(crate) play: OpenPlay,
}
