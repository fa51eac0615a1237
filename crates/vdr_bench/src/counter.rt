// A counter under the latch, and the two turns that are taken at it: one counts, one reads the count.
use std::thread;
use vdr_latch::{Job, Stepped};

/// How many turns were counted.
#[derive(Drop)]
pub(crate) struct Counter {
    pub turns: u64,
}

/// One turn: it was counted, or the count was read.
pub(crate) enum Tick {
    Counted,
    Read,
}

impl Stepped for Counter {
    ghost use Rattle.std.specs.Prelude.{◌≡◌, ◌%◌, ◌^◌, false, count_by};
    ghost use Rattle.vdr_bench.specs.Ticks.{is_counted};

    type Event = Tick;

    ghost leaves = { λ history c. c.turns ≡ count_by is_counted history % 2 ^ 64 };

    ghost leading = { λ _. false };
}

/// Counts one. It stays in turn while others run so many times.
#[derive(Drop)]
pub(crate) struct Count {
    pub stays: u32,
}

impl Job<Counter> for Count {
    ghost use Rattle.vdr_bench.specs.declared.counter.Tick.TheVariants.{Counted};

    ghost asks = { λ _ _. Unit {0} };

    ghost event = { λ _ _ _ _. Counted };

    ghost relates = { λ _ _ _ _. Unit {0} };

    fn work(&mut self, value: &mut Counter) {
        for _ in 0..self.stays {
            thread::yield_now();
        }
        value.turns = value.turns.wrapping_add(1);
    }
}

/// Keeps the count that it found.
#[derive(Drop)]
pub(crate) struct Read {
    pub found: u64,
}

impl Job<Counter> for Read {
    ghost use Rattle.std.specs.Prelude.{◌≡◌};
    ghost use Rattle.vdr_bench.specs.declared.counter.Tick.TheVariants.{Read};

    ghost asks = { λ _ _. Unit {0} };

    ghost event = { λ _ _ _ _. Read };

    ghost relates = { λ _ met after _. after.found ≡ met.turns };

    fn work(&mut self, value: &mut Counter) {
        self.found = value.turns;
    }
}
