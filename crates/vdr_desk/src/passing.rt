// The passes of the desks.
ghost use Rattle.std.specs.Prelude.{◌≡◌, ◌≢◌, ◌≤◌, ◌<◌, ◌+◌, ◌-◌, ◌^◌, ℕ, [], Some, None, IfSome, IsNone, false, length, slice_index_or};
ghost use mathlib.Core.List.{IsPrefix};
ghost use Rattle.vdr_latch.specs.Passes.{IsPossible, Passing};
ghost use Rattle.vdr_capture.specs.declared.lane.Cause.TheVariants.{Failed};
ghost use Rattle.vdr_desk.specs.Desks.{IsLeastFailed};

use crate::Desk;
use vdr_capture::Cause;
use vdr_latch::{Latch, LatchPass, Stepped};

/// Gives each desk a pass of its own, which doesn't lead and has seen what the old one has.
pub fn split_desks<T: Stepped, L>(
    latch: &Latch<T>,
    pass: &mut LatchPass<T::Event>,
    desks: &mut [Desk<L, T::Event>],
)
    requires latch { pass.old.latch ≡ latch.now }
    requires parts { length desks.old < pass.old.parts }
    ensures pass { pass.new ≡ record pass.old { parts = pass.old.parts - length desks.old } }
    ensures desks { (i : ℕ) (d : _) → i < length desks.old
        → slice_index_or desks.new i d ≡ record (slice_index_or desks.old i d) { pass = Some (record { latch = pass.old.latch; parts = 1; leads = false; seen = pass.old.seen; own = [] }) } }
    ensures length { length desks.new ≡ length desks.old }
{
    for i in 0..desks.len() {
        desks[i].pass = Some(latch.split(pass));
    }
}

/// Joins the passes of the desks to this one, which then has seen what each of them has.
pub fn join_desks<T: Stepped, L>(
    latch: &Latch<T>,
    pass: &mut LatchPass<T::Event>,
    desks: &mut [Desk<L, T::Event>],
)
    requires latch { pass.old.latch ≡ latch.now }
    requires held { (i : ℕ) (d : _) → i < length desks.old → (p : Passing T.Event) × ((slice_index_or desks.old i d).pass ≡ Some p) × (p.latch ≡ latch.now) × (p.leads ≡ false) × (p.parts ≡ 1) }
    ensures pass { (pass.new.latch ≡ pass.old.latch) × (pass.new.parts ≡ pass.old.parts + length desks.old) × (pass.new.leads ≡ pass.old.leads) × (pass.new.own ≡ pass.old.own) }
    ensures seen { IsPrefix pass.old.seen pass.new.seen }
    ensures theirs { (i : ℕ) (d : _) → i < length desks.old → IfSome (slice_index_or desks.old i d).pass (λ p. IsPrefix p.seen pass.new.seen) }
    ensures desks { (i : ℕ) (d : _) → i < length desks.old → slice_index_or desks.new i d ≡ record (slice_index_or desks.old i d) { pass = None } }
    ensures length { length desks.new ≡ length desks.old }
{
    for i in 0..desks.len() {
        let Some(own) = desks[i].pass.take() else {
            unreachable!()
        };
        latch.join(pass, own);
    }
}

/// The least desk whose link failed.
pub fn failed_link<L, E>(desks: &[Desk<L, E>]) -> Option<u32>
    requires few { length desks.now < 2 ^ 32 }
    ensures none { IsNone result → (i : ℕ) (d : _) → i < length desks.now → (slice_index_or desks.now i d).cause ≢ Some Failed }
    ensures least { IfSome result (λ i. IsLeastFailed i desks.now) }
{
    for i in 0..desks.len() {
        if desks[i].cause == Some(Cause::Failed) {
            return Some(i as u32);
        }
    }
    None
}
