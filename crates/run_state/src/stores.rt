//! A store as text, and the lines of the history.
ghost use Rattle.std.specs.Prelude.{◌≡◌, ◌++◌, flat_map, IfOk, Ok, OnOk};
ghost use Rattle.std.specs.List.{list_any};
ghost use Rattle.plain_store.specs.{checked};
ghost use Rattle.model.specs.{store_after};
ghost use Rattle.run_state.specs.Stores.{history_lines, is_some_call, number_word, numbers_of, store_text};

use calls::world::Image;
use model::Taken;
use plain_store::{Caller, NestedTypes, Setup, Store, opened, store_words};
use std::alloc::{AllocError, Global};

/// Writes the pairs of a store, or `empty`, and the numbers of its callers, unless all are 0.
pub(crate) fn push_store<S: Store>(
    alloc: Global,
    callers: u8,
    store: &S,
    text: &mut Vec<u8>,
) -> Result<(), AllocError>
    ensures { OnOk result (text.new.items ≡ text.old.items
        ++ store_text callers (S.contents store.now)) }
{
    let words = store_words(alloc, store)?;
    text.extend_from_slice(words.as_bytes())?;
    if !has_numbers(callers, store) {
        return Ok(());
    }
    text.extend_from_slice(b" numbers")?;
    push_numbers(alloc, callers, store, text)
}

/// Returns whether one of the first `callers` callers has a number other than 0.
#[tactic(auto, using(crate::proofs::Ranges::any_more))]
fn has_numbers<S: Store>(callers: u8, store: &S) -> bool
    ensures { result ≡ list_any is_some_call (numbers_of callers (S.contents store.now).numbers) }
{
    let mut has = false;
    for process in 0..callers {
        has = has || store.last(process) != 0;
    }
    has
}

/// Writes the numbers of the first `callers` callers.
fn push_numbers<S: Store>(
    alloc: Global,
    callers: u8,
    store: &S,
    text: &mut Vec<u8>,
) -> Result<(), AllocError>
    ensures { OnOk result (text.new.items ≡ text.old.items
        ++ flat_map number_word (numbers_of callers (S.contents store.now).numbers)) }
{
    for process in 0..callers {
        let number = store.last(process);
        let word = format!(in alloc; " {number}")?;
        text.extend_from_slice(word.as_bytes())?;
    }
    Ok(())
}

/// Writes how many commands were taken, and the one-thread store after them.
pub(crate) fn push_history(
    alloc: Global,
    setup: &Setup,
    history: &[Taken],
    text: &mut Vec<u8>,
) -> Result<(), AllocError>
    requires { checked setup.now ≡ Ok tt }
    ensures { OnOk result (text.new.items ≡ text.old.items ++ history_lines setup.now history.now) }
{
    let store = store_after(setup, history)?;
    let taken = history.len();
    let head = format!(in alloc; "history {taken}\nstore ")?;
    text.extend_from_slice(head.as_bytes())?;
    push_store(alloc, setup.callers(), &store, text)?;
    Ok(text.push(b'\n')?)
}

/// Returns the one-thread store after some commands.
fn store_after(setup: &Setup, history: &[Taken]) -> Result<Image, AllocError>
    requires { checked setup.now ≡ Ok tt }
    ensures { IfOk result (λ store. store ≡ store_after setup.now history.now) }
{
    let _nested: NestedTypes = None;
    let mut store = opened(Image::empty(setup.slots, setup.callers()), setup)?;
    for taken in history {
        let caller = Caller {
            process: taken.process,
            number: taken.number,
        };
        store.apply(&taken.command, caller)?;
    }
    Ok(store)
}
