/// What a configuration needs of its media (this project's profile).
#[derive(Clone, Copy, Drop)]
pub struct Needs {
    /// The most bytes of batches that fall into one second.
    pub cost: u64,
    /// The bytes of batches that a segment surely has once another is begun.
    pub usable: u64,
    /// The slots of the capsule.
    pub capsule_slots: u64,
    /// The slots of the long-term medium.
    pub long_slots: u64,
    /// The slots of the float-free medium.
    pub float_slots: u64,
}

/// A medium that has fewer slots than it needs.
#[derive(Clone, Copy, Debug, PartialEq, Eq, Drop)]
pub struct TooSmall {
    /// 0 is the capsule, 1 the long-term medium, 2 the float-free medium.
    pub medium: u8,
    /// The slots that it needs.
    pub need: u64,
    /// The slots that it has: whole segments behind its first 32,768 bytes, at most 1,000,000.
    pub have: u64,
}
