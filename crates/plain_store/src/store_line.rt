//! The text of a store, in words and on one line.
ghost use Rattle.std.specs.Prelude.{◌≡◌, ◌++◌, IfOk, OnOk};
ghost use Rattle.std.specs.String.{string_bytes};
ghost use Rattle.plain_store.specs.StoreLine.{next_pair, pair_text, show_text, store_words as words_of};

use crate::{Name, Store, Value};
use std::alloc::{AllocError, Global};

/// Returns the pairs of a store in order of first write, as `a=c:5 b=t:x`, or `empty`.
///
/// # Errors
///
/// Returns [`AllocError`] if memory runs out.
pub fn store_words<S: Store>(alloc: Global, store: &S) -> Result<String, AllocError>
    ensures { IfOk result (λ words. string_bytes words ≡ words_of (S.contents store.now).pairs) }
{
    let Some((name, value)) = store.entry(0) else {
        return String::from_str(alloc, "empty");
    };
    let mut words = pair_words(alloc, &name, &value)?;
    for place in 1..store.len() {
        let (name, value) = store.entry(place).unwrap();
        push_pair(alloc, &mut words, &name, &value)?;
    }
    Ok(words)
}

/// Adds a pair after others.
#[tactic(auto, using(crate::proofs::StoreLines::pair_added))]
fn push_pair(
    alloc: Global,
    words: &mut String,
    name: &Name,
    value: &Value,
) -> Result<(), AllocError>
    ensures { OnOk result
        (string_bytes words.new ≡ string_bytes words.old ++ next_pair (name.now, value.now)) }
{
    let pair = pair_words(alloc, name, value)?;
    words.push_str(" ")?;
    words.push_str(pair.as_str())
}

/// Returns the pairs of a store as a line, as `show a=c:5 b=t:x`.
///
/// # Errors
///
/// Returns [`AllocError`] if memory runs out.
pub fn show_line<S: Store>(alloc: Global, store: &S) -> Result<String, AllocError>
    ensures { IfOk result (λ line. string_bytes line ≡ show_text (S.contents store.now).pairs) }
{
    let words = store_words(alloc, store)?;
    format!(in alloc; "show {words}\n")
}

/// Returns the text of a pair, as `a=c:5`.
///
/// # Errors
///
/// Returns [`AllocError`] if memory runs out.
#[tactic(auto, using(crate::proofs::StoreLines::pair_text_is))]
pub fn pair_words(alloc: Global, name: &Name, value: &Value) -> Result<String, AllocError>
    ensures { IfOk result (λ words. string_bytes words ≡ pair_text (name.now, value.now)) }
{
    format!(in alloc; "{name}={value}")
}
