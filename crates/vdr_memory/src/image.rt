// The images that a stop leaves, by choice.
//
// An image is chosen from the last call backwards, so that one choice stands for all others; the choice of a sync
// says nothing, and no choice is refused.
ghost use Rattle.std.specs.Prelude.{◌≡◌, ◌≤◌, ◌<◌, ◌+◌, ℕ, length, get_or, reverse, true};
ghost use Rattle.std.specs.List.{sum_by};
ghost use Rattle.vdr_memory.specs.Contents.{contents};
ghost use Rattle.vdr_memory.specs.Images.{IsLast, image_by, makes_last, torn_by};
ghost use Rattle.vdr_memory.specs.Traces.{length_of, step_of, steps_of};

use crate::contents::{fill_at, overwrite_at};
use crate::trace::apply;
use crate::{Call, Work};

/// What a stop leaves of a write that was not synced, of which any byte may have reached the medium or not.
#[derive(Drop)]
pub enum Torn {
    /// The bytes that stood there before.
    Old,
    /// The bytes that were written.
    New,
    /// This byte in the whole range.
    Filled(u8),
    /// These bytes, and behind them those that stood there before. Bytes past the range are left out.
    Given(Vec<u8>),
}

// As many media as a byte can name.
const NAMES: usize = 256;

// Whether a call makes last what was written to its medium before.
fn is_done_sync(call: Call) -> bool
    ensures { result ≡ makes_last call.work call.done }
{
    match call.work {
        Work::Write { .. } => false,
        Work::Sync => call.done,
    }
}

// For each medium how many calls there are up to its last sync that was done.
fn last_syncs(calls: &[Call]) -> [usize; NAMES]
    ensures { IsLast calls.now (length calls.now) result }
{
    let mut last = [0; NAMES];
    for (index, call) in calls.iter().enumerate() {
        if is_done_sync(*call) {
            last[call.medium as usize] = index + 1;
        }
    }
    last
}

// The choice of this number, or that for the rest.
fn choice<'a>(choices: &'a [Torn], rest: &'a Torn, number: usize) -> &'a Torn
    ensures { result.now ≡ get_or choices.now number rest.now }
{
    choices.get(number).unwrap_or(rest)
}

// Leaves of a call what a stop tears of it.
fn tear(image: &mut [Vec<u8>], call: Call, bytes: &[u8], torn: &Torn)
    requires { length_of call.work ≡ length bytes.now }
    ensures { contents image.new ≡ torn_by torn.now (step_of call.medium call.work bytes.now call.done) (contents image.old) }
{
    let Work::Write { at, length } = call.work else {
        return;
    };
    match torn {
        Torn::Old => {}
        Torn::New => overwrite_at(image, call.medium, at, bytes),
        Torn::Filled(byte) => fill_at(image, call.medium, at, length, *byte),
        Torn::Given(given) => {
            let count = length.min(given.len());
            overwrite_at(image, call.medium, at, &given[..count]);
        }
    }
}

// Does the calls on what the media held at first, as a stop leaves them: what was synced later stays, and of the rest
// stays what the choices say, the first for the last call.
pub(crate) fn replay(
    image: &mut [Vec<u8>],
    calls: &[Call],
    bytes: &[u8],
    choices: &[Torn],
    rest: &Torn,
)
    requires { sum_by (λ c. length_of c.work) calls.now ≡ length bytes.now }
    ensures { contents image.new ≡ image_by choices.now rest.now (contents image.old) (reverse (steps_of calls.now bytes.now)) }
{
    let synced = last_syncs(calls);
    let mut left = bytes;
    for (index, call) in calls.iter().enumerate() {
        let (written, behind) = left.split_at(call.length());
        left = behind;
        let torn = choice(choices, rest, calls.len() - 1 - index);
        if index < synced[call.medium as usize] {
            apply(image, *call, written);
        } else {
            tear(image, *call, written, torn);
        }
    }
}
