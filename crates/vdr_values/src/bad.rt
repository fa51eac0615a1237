/// The first field of a sentence that is missing or outside its form. Fields are counted from 1.
#[derive(Clone, Copy, Drop)]
pub struct BadField {
    pub field: u8,
}
