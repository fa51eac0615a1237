// A value under a latch, as a trait: its events, and the jobs that make them.
ghost use Rattle.std.specs.Prelude.{◌≡◌, Bool, List, [], ◌∷◌, ◌++◌};

/// A value that can lie under a latch, with the meaning of a history of its events.
pub trait Stepped: Drop {
    /// One event of the value. It is for the proofs: no turn makes a value of it.
    type Event;

    /// The values that a history may leave.
    ghost leaves: { List Self.Event → Self → Type 0 };

    /// The events that only the pass that leads may make.
    ghost leading: { Self.Event → Bool };
}

/// What one turn does to the value.
pub trait Job<T: Stepped> {
    /// What the work asks of the job and of the value that it meets.
    ghost asks: { Self → T → Type 0 };

    /// The event that the work made, told by the job and the value before, and the job and the value after.
    ghost event: { Self → T → Self → T → T.Event };

    /// What holds between the job and the value before, and the job and the value after: what the job then holds, as an answer.
    ghost relates: { Self → T → Self → T → Type 0 };

    /// Works on the value, in turn. What a history leaves becomes what the history with the event of the work leaves.
    fn work(&mut self, value: &mut T)
        requires { asks self.old value.old }
        ensures relates { relates self.old value.old self.new value.new }
        ensures leaves { (history : List T.Event) → T.leaves history value.old → T.leaves (history ++ event self.old value.old self.new value.new ∷ []) value.new };
}
