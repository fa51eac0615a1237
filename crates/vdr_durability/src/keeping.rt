// The laws of keeping: which events are acknowledged, and that media keep a history from call to call.
ghost use Rattle.std.specs.Prelude.{◌≡◌, ◌≤◌, ◌↔◌, [], ◌∷◌, ◌++◌, ℕ, suc, true, false, List, length};
ghost use Rattle.vdr_core.specs.Histories.{Event};
ghost use Rattle.vdr_core.specs.RunStates.{has_failed};
ghost use Rattle.vdr_outside.specs.Disk.{Image};
ghost use Rattle.vdr_durability.specs.Keeping.{GoesOnKeeping, HasOneInDoubt, IsWhole, acknowledged, is_by};

use vdr_outside::Media;

/// What images of media have to do with a history. Who knows the bytes of media defines it.
pub trait Showing {
    /// The image shows these events.
    ghost shows: { List Event → Image → Type 0 };
}

/// What is acknowledged at a time: a history with one more event is acknowledged whole once that event counts, and as before
/// until then; no more is ever acknowledged than there is. No event is pending exactly where the history has not failed.
pub fn law_of_acknowledgment()
    ensures counts { (events : List Event) (e : Event) (t : ℕ) → is_by t e.moment ≡ true → acknowledged (events ++ e ∷ []) t ≡ suc (length events) }
    ensures waits { (events : List Event) (e : Event) (t : ℕ) → is_by t e.moment ≡ false → acknowledged (events ++ e ∷ []) t ≡ acknowledged events t }
    ensures within { (events : List Event) (t : ℕ) → acknowledged events t ≤ length events }
    ensures whole { (events : List Event) → IsWhole events ↔ (has_failed events ≡ false) }
{}

/// The media keep a history from the moment at which they were opened. They keep it with one more event after a call at whose
/// every moment they show the events, or the events and the call's own: after a fault the event is pending, and else its moment
/// is the clock as the call returned, and what a stop may leave now shows it. They go on keeping it over calls that are no event.
pub fn law_of_keeping<M: Media, S: Showing>(old: &M, new: &M)
    ensures { GoesOnKeeping S.shows (M.disk old.now) (M.disk new.now) }
{}

/// At most one event is in doubt: whatever a stop may have left up to a moment, but for what was there before, shows no more than
/// one event above what each stop shows from the moment before it on. Media that take two events back, even if they give
/// them again, keep no history, and so do media that get two at once.
pub fn law_of_doubt<M: Media, S: Showing>(media: &M)
    ensures { HasOneInDoubt S.shows (M.disk media.now) }
{}
