//! The values that a process has read in its call.

use store_image::Image;

/// The values that a process has read in its call and may still need.
#[derive(Clone, Copy)]
pub(crate) struct ValuesRead {
    /// In part B the tickets of the others, in their order; from part E on the stamps of all processes.
    pub numbers: [u32; 16],
    /// The commit bits of all processes.
    pub commits: [bool; 16],
    /// The store whose image was read.
    pub store: Image,
}
