// Laws of what a recording leaves: media that show the first of a history's events play them back, and go on with their life by them.
ghost use Rattle.std.specs.Prelude.{◌≡◌, ◌++◌, ℕ, List, Contains, Ok};
ghost use Rattle.vdr_terms.specs.Order.{AreInOrder};
ghost use Rattle.vdr_core.specs.Histories.{Event, all_records};
ghost use Rattle.vdr_core.specs.RunStates.{IsRecorderHistory};
ghost use Rattle.vdr_outside.specs.Disk.{Image};
ghost use Rattle.vdr_config.specs.Grammar.{configuration};
ghost use Rattle.vdr_media.specs.Formatted.{members};
ghost use Rattle.vdr_opening.specs.Media.{Contents, HoldsContents, opening_of};
ghost use Rattle.vdr_config.specs.Configuration.{Configuration};
ghost use Rattle.vdr_recorder.specs.Chains.{AllLive, GoesOn, Lived, Run};
ghost use Rattle.vdr_vault.specs.Vaults.{ShowsHistory};
ghost use Rattle.vdr_recorder.specs.Headline.{PlaysBack, ToldHeadline};
ghost use Rattle.vdr_recorder.specs.Watched.{Watched};

use vdr_outside::Media;

/// An image that shows the first of a history's events plays them back, where the history's records are in order on each medium.
pub fn law_of_playing()
    ensures plays { (x : Contents) (events first rest : List Event) (image : Image) → configuration x.text ≡ Ok x.config → events ≡ first ++ rest
        → ((m : ℕ) → Contains members m → AreInOrder (all_records (opening_of x) m events)) → ShowsHistory (opening_of x) first image
        → PlaysBack (opening_of x) first image }
{}

/// What is said of the events of a recording, and whether the last one may be pending: a ghost member for the law below.
pub trait Accounting {
    ghost use Rattle.vdr_core.specs.Histories.{Event};
    ghost use Rattle.std.specs.Prelude.{List};

    ghost told: { List Event → Type 0 };

    ghost may_pend: { Type 0 };

    /// Somebody hears of the recording.
    ghost hears: { Type 0 };
}

/// The events of a recording's headline go on the life of its media: a command that returned with it is one run of just these events
/// (`law_of_chains`), and those of them are acknowledged that its moments say.
pub fn law_of_goes_on<M: Media, A: Accounting>(before: &M, after: &M)
    ensures goes_on { (x : Contents) (w : Watched) (h : ToldHeadline x A.told A.may_pend (M.disk before.now) (M.disk after.now) A.hears w) → HoldsContents (M.disk before.now).reads x
        → GoesOn h.events (M.disk before.now) (M.disk after.now) }
{}

/// What stands on media that were formatted once, whatever was done on them since: commands that returned, stops at any moment of one and
/// starts on what it left, and commands that wrote nothing, in any order (`Lived`). Each image that a stop may leave now has one life, with
/// the first events of each command, and of each at least those that were acknowledged by its return, or before the stop that ended it.
pub fn law_of_chains<M: Media>(media: &M)
    ensures lives { (c : Configuration) (text : List ℕ) (runs : List Run) → M.tells_images → Lived M.disk c text runs media.now → AllLive c text runs (M.disk media.now) }
{}
