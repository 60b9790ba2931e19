//! The key words that a word may have been meant for.
use crate::expected::add_two;
use std::alloc::{AllocError, Global};
use strsim::osa_distance;

/// Adds the nearest key words within two typing errors, if there are any; key words of two or three letters within one.
pub(crate) fn add_near(
    alloc: Global,
    word: &[u8],
    keys: &[&str],
    text: &mut String,
) -> Result<(), AllocError> {
    let small = small_letters(alloc, word)?;
    add_nearest(alloc, small.as_str(), keys, text)
}

/// Adds the nearest key words of a word in lower case.
fn add_nearest(
    alloc: Global,
    word: &str,
    keys: &[&str],
    text: &mut String,
) -> Result<(), AllocError> {
    let least = least_errors(alloc, word, keys)?;
    if least == usize::MAX {
        return Ok(());
    }
    add_those_at(alloc, word, keys, least, text)?;
    text.push_str("?")
}

/// Returns the number of typing errors between a word and the nearest key words.
fn least_errors(alloc: Global, word: &str, keys: &[&str]) -> Result<usize, AllocError> {
    let mut least = usize::MAX;
    for key in keys {
        least = least.min(errors(alloc, word, key)?);
    }
    Ok(least)
}

/// Adds the key words that have this number of typing errors.
fn add_those_at(
    alloc: Global,
    word: &str,
    keys: &[&str],
    distance: usize,
    text: &mut String,
) -> Result<(), AllocError> {
    let mut between = "; did you mean ";
    for key in keys {
        if errors(alloc, word, key)? == distance {
            add_two(between, key, text)?;
            between = " or ";
        }
    }
    Ok(())
}

/// Returns the number of typing errors between a word and a key word, or the greatest number if they are too many.
fn errors(alloc: Global, word: &str, key: &str) -> Result<usize, AllocError> {
    let most = match key.len() {
        0 | 1 => return Ok(usize::MAX),
        2 | 3 => 1,
        _ => 2,
    };
    let errors = osa_distance(alloc, word, key)?;
    Ok(if errors <= most { errors } else { usize::MAX })
}

/// Returns the word in lower case. A byte that is not an ASCII letter becomes a letter that no key word has.
fn small_letters(alloc: Global, word: &[u8]) -> Result<String, AllocError> {
    let mut small = String::new(alloc);
    for byte in word {
        small.push(char::from(byte.to_ascii_lowercase()))?;
    }
    Ok(small)
}
