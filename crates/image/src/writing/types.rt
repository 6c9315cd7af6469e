// How far an image is written.

// The slot of the next entry, and the place of its record.
#[derive(Clone, Copy)]
pub struct Front {
    pub slot: usize,
    pub place: usize,
}
