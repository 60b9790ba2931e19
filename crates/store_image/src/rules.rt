//! The rules for the slots of an image.
ghost use Rattle.std.specs.Prelude.{◌≡◌, ◌≤◌, ◌<◌, ◌+◌, ◌*◌, ℕ, length, IfSome, IfNone, true};
ghost use Rattle.store_image.specs.Image.{rows};
ghost use Rattle.store_image.specs.Reading.{slots_if_length, slot_in, have_name, follows_rules, IsFirstBad, used_in};

use crate::slots::{self, SLOT_BYTES};

/// Returns the number of slots of an image with `length` bytes, if there is such an image.
pub fn slot_count(length: usize, callers: u8) -> Option<u8>
    ensures { result ≡ slots_if_length callers length }
{
    let numbers = 2 * usize::from(callers);
    let slots = length.saturating_sub(numbers) / SLOT_BYTES;
    if (1..=8).contains(&slots) && length == SLOT_BYTES * slots + numbers {
        Some(slots as u8)
    } else {
        None
    }
}

fn slot_at(bytes: &[u8], place: usize) -> &[u8]
    requires bounded { place < 8 }
    requires in_range { 23 * place + 23 ≤ length bytes.now }
    ensures slot { result.now ≡ slot_in bytes.now place }
    ensures length { length result.now ≡ SLOT_BYTES }
{
    let at = SLOT_BYTES * place;
    &bytes[at..at + SLOT_BYTES]
}

/// Returns the number of slots before the first unused one.
pub fn used_slots(bytes: &[u8], slots: usize) -> usize
    requires bounded { slots ≤ 8 }
    requires in_range { 23 * slots ≤ length bytes.now }
    ensures { result ≡ used_in slots bytes.now }
{
    for place in 0..slots {
        if slots::is_unused(slot_at(bytes, place)) {
            return place;
        }
    }
    slots
}

/// Returns whether one of the first slots has the name.
fn have_name(bytes: &[u8], slots: usize, name: &[u8]) -> bool
    requires bounded { slots ≤ 8 }
    requires in_range { 23 * slots ≤ length bytes.now }
    ensures { result ≡ have_name (rows 23 slots bytes.now) name.now }
{
    for place in 0..slots {
        if slots::has_name(slot_at(bytes, place), name) {
            return true;
        }
    }
    false
}

/// Returns whether a slot is unused, or that of a pair after used slots with other names.
#[tactic(auto, using(crate::proofs::SlotSearch::used_less, crate::proofs::SlotSearch::used_full), unfolding(crate::specs::Reading::follows_rules))]
fn follows_rules(bytes: &[u8], place: usize) -> bool
    requires bounded { place < 8 }
    requires in_range { 23 * place + 23 ≤ length bytes.now }
    ensures { result ≡ follows_rules bytes.now place }
{
    let slot = slot_at(bytes, place);
    if slots::is_unused(slot) {
        return true;
    }
    if !slots::is_used(slot) || used_slots(bytes, place) < place {
        return false;
    }
    !have_name(bytes, place, slots::name_in(slot))
}

/// Returns the lowest slot that breaks a rule.
pub fn first_bad(bytes: &[u8], slots: usize) -> Option<usize>
    requires bounded { slots ≤ 8 }
    requires in_range { 23 * slots ≤ length bytes.now }
    ensures bad { IfSome result (IsFirstBad slots bytes.now) }
    ensures none { IfNone result ((k : ℕ) → k < slots → follows_rules bytes.now k ≡ true) }
{
    for place in 0..slots {
        if !follows_rules(bytes, place) {
            return Some(place);
        }
    }
    None
}
