//! Shapes as text: tags with their attributes, and the texts between them. One writer writes all tags, and escapes
//! all texts, so that each is read back as it was.
#![tactic(auto)]

mod attributes;
mod escaping;
mod figures;
mod groups;
mod markup;
mod names;
mod parts;

pub use attributes::{Attribute, Meaning, class, number, words};
pub use escaping::texts_are_read_back;
pub use figures::Point;
pub use markup::Markup;
pub use names::{Key, Tag};
