//! The entries that `--from` and `--to` of `draw` and `draw-svg` mean.
ghost use Rattle.std.specs.Prelude.{◌≡◌, option_map};
ghost use Rattle.command_line.specs.EntryRanges.{bound_of, range_asked, range_of};

use scenario::operands::number;

/// The entries that a picture shows.
#[derive(Clone, Copy, PartialEq, Eq)]
pub struct EntryRange {
    /// The number of the first entry.
    pub first: u64,
    /// The number of the last entry, which the picture shows too, or `None` if it shows all from the first one on.
    pub last: Option<u64>,
}

/// Why the values of `--from` and `--to` mean no entries.
#[derive(Clone, Copy, PartialEq, Eq)]
pub enum RangeFault {
    /// A value is not a number below 2^64 without leading zeros.
    NotNumber,
    /// The first entry is after the last one.
    Reversed,
}

/// Returns the entries that the values of `--from` and `--to` mean. Without `--from` they begin with entry 0, and without
/// `--to` they have no end.
///
/// # Errors
///
/// Returns [`RangeFault::NotNumber`] if a value is not a number below 2^64 without leading zeros, and otherwise
/// [`RangeFault::Reversed`] if the first entry is after the last one.
#[tactic(auto, unfolding(crate::specs::EntryRanges::range_asked))]
pub fn entries_asked(from: Option<&str>, to: Option<&str>) -> Result<EntryRange, RangeFault>
    ensures { result
        ≡ range_asked (option_map (λ word. word.now) from.entry)
        (option_map (λ word. word.now) to.entry) }
{
    let first = bound(from)?;
    let last = bound(to)?;
    range(first.unwrap_or(0), last)
}

/// Returns the number that an option has, or `None` without the option.
fn bound(value: Option<&str>) -> Result<Option<u64>, RangeFault>
    ensures { result ≡ bound_of (option_map (λ word. word.now) value.entry) }
{
    let Some(word) = value else {
        return Ok(None);
    };
    match number(word.as_bytes(), u64::MAX) {
        Ok(number) => Ok(Some(number)),
        Err(_) => Err(RangeFault::NotNumber),
    }
}

/// Returns the entries from `first` on, to `last` if there is one, which is not before `first`.
fn range(first: u64, last: Option<u64>) -> Result<EntryRange, RangeFault>
    ensures { result ≡ range_of first last }
{
    match last {
        None => Ok(EntryRange { first, last: None }),
        Some(last) if first <= last => Ok(EntryRange {
            first,
            last: Some(last),
        }),
        Some(_) => Err(RangeFault::Reversed),
    }
}
