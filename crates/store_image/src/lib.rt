//! A store in the form of its image, one list of bytes for a store of 1 to 8 slots and at most 16 callers.
//! The store works in place on its image. The format is this project's own.
#![tactic(auto)]

mod image;
mod rules;
mod slots;

pub use image::{BadImage, Image, MOST_IMAGE_BYTES};
