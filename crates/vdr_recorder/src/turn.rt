// What a turn of the recorder did, as it is told.
use vdr_intake::Captured;
use vdr_terms::Counts;

/// What a turn of the recorder did.
#[derive(Clone, Copy, Drop)]
pub enum Turn<'a> {
    /// A run was begun, and its Start committed.
    Start,
    /// These items were taken into the run, and those that the rate of their group admits were committed.
    Items(&'a [Captured]),
    /// The run was closed, by what each port missed since its last item.
    Stop(&'a [Counts; 16]),
    /// An incident was saved under this label.
    Save(&'a [u8]),
    /// The incident of this id was released.
    Release(u32),
    /// Nothing was changed.
    Look,
}
