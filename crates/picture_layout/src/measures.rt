//! The measures of a picture, in pixels.
ghost use Rattle.std.specs.Prelude.{◌≡◌, ◌*◌};
ghost use Rattle.picture_layout.specs.Columns.{capped};

/// The left end of lanes.
pub const LEFT: u16 = 52;

/// The right end of words and lanes.
pub const RIGHT: u16 = 1188;

/// The width of a character.
pub(crate) const CHARACTER: u16 = 7;

/// The width of a small character.
pub const DIGIT: u16 = 6;

/// The free room after words.
pub(crate) const PAD: u16 = 9;

/// The most characters of a store that are drawn.
pub(crate) const LONGEST: usize = 44;

/// Returns the width of `characters` characters of one size.
pub fn room(characters: usize, each: u16) -> u16
    ensures { result ≡ capped (characters * each) }
{
    let pixels = characters.saturating_mul(usize::from(each));
    u16::try_from(pixels).unwrap_or(u16::MAX)
}
