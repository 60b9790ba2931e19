//! The changes that the commands taken make in the one-thread store of a picture, and how a picture shows them.
ghost use Rattle.std.specs.Prelude.{◌≡◌, Ok, IfOk, OnOk, option_map};
ghost use Rattle.std.specs.String.{string_bytes};
ghost use Rattle.model.specs.plain_store.{after, changes, name_of, value_at};
ghost use Rattle.draw.specs.StoreChanges.{change_by, changed, pair_words, store_words as words_of_store, words_by};

use picture::TakenChange;
use record_accesses::plain_store::{Caller, Command, Name, NestedTypes, Store, Value};
use std::alloc::{AllocError, Global};

/// Applies a command of a caller, and returns what it changed, or `None` if it changed nothing.
pub(crate) fn apply<S: Store>(
    alloc: Global,
    store: &mut S,
    command: &Command,
    caller: Caller,
) -> Result<Option<TakenChange>, AllocError>
    ensures change { IfOk result
        (λ change. option_map changed change
        ≡ change_by (S.contents store.old) command.now caller) }
    ensures store { OnOk result
        (S.contents store.new ≡ after (S.contents store.old) command.now caller) }
{
    let _nested: NestedTypes = None;
    let changes = would_change(store, command);
    store.apply(command, caller)?;
    if !changes {
        return Ok(None);
    }
    Ok(Some(change_shown(alloc, store, command)?))
}

/// Returns what a command changed that was just applied.
fn change_shown<S: Store>(
    alloc: Global,
    store: &S,
    command: &Command,
) -> Result<TakenChange, AllocError>
    ensures { IfOk result
        (λ change. changed change
        ≡ record {
          pair = pair_words (S.contents store.now).pairs (name_of command.now);
          store = words_of_store (S.contents store.now);
        }) }
{
    Ok(TakenChange {
        pair: pair(alloc, store, command)?,
        store: store_words(alloc, store)?,
    })
}

/// Returns whether the command would change the store.
#[tactic(auto, using(record_accesses::proofs::plain_store::Changes::changes_differs))]
fn would_change<S: Store>(store: &S, command: &Command) -> bool
    ensures { result ≡ changes (S.contents store.now) command.now }
{
    store.would_change(command)
}

/// Returns the pair of the command's name, as `NAME=VALUE`, or nothing if the name has no value.
fn pair<S: Store>(alloc: Global, store: &S, command: &Command) -> Result<String, AllocError>
    ensures { IfOk result
        (λ words. string_bytes words
        ≡ pair_words (S.contents store.now).pairs (name_of command.now)) }
{
    let _nested: NestedTypes = None;
    if let Some(name) = command.name()
        && let Some(value) = value_of(store, &name)
    {
        return record_accesses::plain_store::pair_words(alloc, &name, &value);
    }
    Ok(String::new(alloc))
}

/// Returns the value of a name, or `None` if it has none.
fn value_of<S: Store>(store: &S, name: &Name) -> Option<Value>
    ensures { result ≡ value_at (S.contents store.now).pairs name.now }
{
    for place in 0..store.len() {
        let (other, value) = store.entry(place).unwrap();
        if *name == other {
            return Some(value);
        }
    }
    None
}

/// Returns the store's pairs with single spaces between them, or that the store is empty.
pub(crate) fn store_words<S: Store>(alloc: Global, store: &S) -> Result<Vec<u8>, AllocError>
    ensures { IfOk result (λ words. words.items ≡ words_of_store (S.contents store.now)) }
{
    Ok(record_accesses::plain_store::store_words(alloc, store)?.into_bytes())
}

/// Returns the store's pairs with single spaces between them, or nothing if the store is empty.
#[tactic(auto, using(crate::proofs::Shown::words_none, crate::proofs::Shown::words_some))]
pub(crate) fn words_by_pairs<S: Store>(alloc: Global, store: &S) -> Result<Vec<u8>, AllocError>
    ensures { IfOk result (λ words. words.items ≡ words_by (S.contents store.now).pairs) }
{
    if store.len() == 0 {
        return Ok(Vec::new(alloc));
    }
    store_words(alloc, store)
}
