/// What a group may have recorded in a second of recording time (this project's profile).
#[derive(Clone, Copy, Drop)]
pub struct Rate {
    /// Datagrams a second.
    pub datagrams: u32,
    /// Bytes of datagrams a second.
    pub bytes: u32,
}
