// The sample rate of a sound.
ghost use Rattle.std.specs.Prelude.{◌≤◌};

/// The rate of a frame.
#[derive(Clone, Copy, Drop)]
pub(crate) struct SampleRate {
    /// Samples a second, 1 to 192,000.
    pub(crate) hertz: u32,
    pub(crate) ghost legal: { hertz ≤ 192_000 },
}
