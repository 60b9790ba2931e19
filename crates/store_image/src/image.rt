//! A store that works in place on the bytes of its image.
ghost use Rattle.std.specs.Prelude.{◌≡◌, ◌≤◌, ◌<◌, ◌+◌, ◌*◌, Ok, nat_lt, length, slice_get, IsTrue, IsSome, nat_eq, IsOk, IfOk, IfErr, OnOk, OnErr, ◌↔◌, option_map};
ghost use Rattle.std.specs.Cmp.{partial_equiv_from_equiv};
ghost use Rattle.std.specs.Cmp.Lexicographic.{pointwise, on_texts_equal};
ghost use Rattle.std.specs.Ordering.{on};
ghost use Rattle.plain_store.specs.{Contents, after, callers_of, checked, empty_store, name_of, put, reply_to, value_for, with_number, with_written};
ghost use Rattle.store_image.specs.Image.{image_of, IsStore, number_bytes, number_in};
ghost use Rattle.store_image.specs.Placing.{place_of, place_for};
ghost use Rattle.store_image.specs.Reading.{IsImageOf, IsFault, SaysNothing, store_in};
ghost use Rattle.store_image.specs.Slots.{is_used, pair_in};

use crate::rules;
use crate::slots::{self, SLOT_BYTES};
use plain_store::{Caller, Command, Name, Outcome, Reply, Setup, Store, Value, is_new, pad};
use std::alloc::AllocError;
use std::marker::Model;
use thiserror::Error;

/// The bytes of a call number.
const NUMBER_BYTES: usize = 2;

/// The bytes of the longest image: 8 slots, and 16 callers.
pub const MOST_IMAGE_BYTES: usize = 216;

/// A store of 1 to 8 slots and at most 16 callers, in the form of its image. The image is the slots, used ones first, in
/// order of first write, and then the callers' numbers of 2 bytes. It does not allocate.
#[derive(Clone, Copy)]
pub struct Image {
    used: u8,
    slots: u8,
    callers: u8,
    bytes: [u8; MOST_IMAGE_BYTES],
}

/// The reason why bytes are not an image.
#[derive(Clone, Copy, Debug, Error)]
pub enum BadImage {
    /// The length less 2 times the callers is not 23 times 1 to 8.
    #[error("the length is that of no image")]
    Length,
    /// The lowest slot that breaks a rule.
    #[error("slot {0} breaks a rule")]
    Slot(usize),
}

impl Model for Image {
    ghost use Rattle.std.specs.Prelude.{length};
    ghost use Rattle.std.proofs.Common.{sym};
    ghost use Rattle.store_image.specs.Image.{image_of, store_read, used_read, slots_read, callers_read, IsKept};
    ghost use Rattle.plain_store.specs.{Contents, padded};

    ghost Value = { Contents };

    ghost view = { λ i. store_read i.used i.slots i.callers i.bytes };

    ghost invariant = { λ i. IsKept i.used i.slots i.callers i.bytes };

    ghost inverse = { λ s. record { used = length s.pairs; slots = s.slots; callers = length s.numbers; bytes = padded 216 (image_of s) } };

    ghost inverse_ok = { λ i h j. record { used = used_read i.used i.slots i.callers i.bytes j; slots = slots_read i.used i.slots i.callers i.bytes j; callers = callers_read i.used i.slots i.callers i.bytes j; bytes = sym h.whole j } };
}

impl Image {
    /// Creates the image of an empty store, whose call numbers are 0.
    pub fn empty(slots: u8, callers: u8) -> Image
        requires some_slots { 1 ≤ slots }
        requires few_slots { slots ≤ 8 }
        requires few_callers { callers ≤ 16 }
        ensures { result ≡ empty_store slots callers }
    {
        Image {
            used: 0,
            slots,
            callers,
            bytes: [0; MOST_IMAGE_BYTES],
        }
    }

    /// Reads the store whose image the bytes are.
    ///
    /// # Errors
    ///
    /// Returns [`BadImage::Length`] if the length is not that of an image. Otherwise returns [`BadImage::Slot`] with the lowest
    /// slot that is not well formed, has the name of an earlier one, or is used after an unused one.
    pub fn read(bytes: &[u8], callers: u8) -> Result<Image, BadImage>
        requires { callers ≤ 16 }
        ensures accepts { IsOk result ↔ ((s : Contents) × IsImageOf callers bytes.now s) }
        ensures store { IfOk result (λ s. IsImageOf callers bytes.now s) }
        ensures fault { IfErr result (λ fault. IsFault callers bytes.now fault) }
        ensures known { IfOk result (λ s. s ≡ store_in s.slots callers bytes.now) }
        ensures unknown { OnErr result (SaysNothing callers bytes.now) }
        ensures faultless { IsOk result ↔ ((fault : BadImage) → ¬ IsFault callers bytes.now fault) }
    {
        let Some(slots) = rules::slot_count(bytes.len(), callers) else {
            return Err(BadImage::Length);
        };
        let count = usize::from(slots);
        if let Some(place) = rules::first_bad(bytes, count) {
            return Err(BadImage::Slot(place));
        }
        let used = rules::used_slots(bytes, count) as u8;
        Ok(Image {
            used,
            slots,
            callers,
            bytes: pad(bytes),
        })
    }

    /// Returns the store of a setup whose image the bytes are; they have the length of such an image. Returns the empty store
    /// if the bytes are not an image.
    pub fn read_or_empty(setup: &Setup, bytes: &[u8]) -> Image
        requires good { checked setup.now ≡ Ok tt }
        requires length { length bytes.now ≡ 23 * setup.now.slots + 2 * callers_of setup.now }
        ensures store { result ≡ store_in setup.now.slots (callers_of setup.now) bytes.now }
        ensures slots { result.slots ≡ setup.now.slots }
        ensures numbers { length result.numbers ≡ callers_of setup.now }
    {
        let callers = setup.callers();
        match Image::read(bytes, callers) {
            Ok(image) => image,
            Err(_) => Image::empty(setup.slots, callers),
        }
    }

    /// Returns the bytes of the image.
    pub fn bytes(&self) -> &[u8]
        ensures image { result.now ≡ image_of self.now }
        ensures store { IsStore self.now }
    {
        let slots = usize::from(self.slots) * SLOT_BYTES;
        let numbers = usize::from(self.callers) * NUMBER_BYTES;
        &self.bytes[..slots + numbers]
    }

    fn slots(&self) -> usize
        ensures slots { result ≡ self.now.slots }
        ensures fits { length self.now.pairs ≤ result }
    {
        usize::from(self.slots)
    }

    fn slot(&self, place: usize) -> &[u8]
        requires { place < length self.now.pairs }
        ensures pair { slice_get self.now.pairs place ≡ Some (pair_in result.now) }
        ensures used { IsTrue (is_used result.now) }
        ensures length { length result.now ≡ SLOT_BYTES }
    {
        let bytes = &self.bytes;
        let at = SLOT_BYTES * place;
        &bytes[at..at + SLOT_BYTES]
    }

    /// Returns the place of the name, or the next free one.
    fn place_of(&self, name: &[u8]) -> usize
        ensures { result ≡ place_of self.now.pairs name.now }
    {
        for place in 0..self.len() {
            if slots::has_name(self.slot(place), name) {
                return place;
            }
        }
        self.len()
    }

    /// Returns the place of the command's name, or the next free one, and the value of the name.
    #[tactic(auto, using(crate::proofs::Puts::value_at_place))]
    fn find(&self, command: &Command) -> (usize, Option<Value>)
        ensures place { result.0 ≡ place_for self.now.pairs (name_of command.now) }
        ensures value { result.1 ≡ value_for self.now.pairs (name_of command.now) }
    {
        match command.name() {
            None => (self.len(), None),
            Some(name) => {
                let place = self.place_of(name.bytes());
                (place, self.value_at(place))
            }
        }
    }

    fn value_at(&self, place: usize) -> Option<Value>
        ensures { result ≡ option_map (λ p. p.1) (slice_get self.now.pairs place) }
    {
        if place < self.len() {
            slots::value_in(self.slot(place))
        } else {
            None
        }
    }

    fn has_room(&self) -> bool
        ensures free { result ≡ nat_lt (length self.now.pairs) self.now.slots }
        ensures fits { length self.now.pairs ≤ self.now.slots }
    {
        self.len() < self.slots()
    }

    fn set_pair(&mut self, place: usize, name: &Name, value: &Value)
        requires here { place ≡ place_of self.old.pairs name.now }
        requires room { place < self.old.slots }
        ensures { self.new ≡ record self.old { pairs = put self.old.pairs name.now value.now } }
    {
        self.used = self.used.max(place as u8 + 1);
        let at = SLOT_BYTES * place;
        self.bytes[at..at + SLOT_BYTES].copy_from_slice(&slots::slot_of(name, value));
    }

    fn set_number(&mut self, process: u8, number: u16)
        requires { process < length self.old.numbers }
        ensures { self.new ≡ with_number process number self.old }
    {
        let at = SLOT_BYTES * usize::from(self.slots) + NUMBER_BYTES * usize::from(process);
        self.bytes[at..at + NUMBER_BYTES].copy_from_slice(&number_bytes(number));
    }

    fn write(&mut self, place: usize, name: Option<Name>, written: Option<Value>)
        requires here { place ≡ place_for self.old.pairs name }
        requires room { IsSome written → place < self.old.slots }
        ensures { self.new ≡ record self.old { pairs = with_written self.old.pairs name written } }
    {
        if let Some(name) = name
            && let Some(value) = written
        {
            self.set_pair(place, &name, &value);
        }
    }

    fn note(&mut self, caller: Caller)
        ensures { self.new ≡ with_number caller.process caller.number self.old }
    {
        if caller.process < self.callers {
            self.set_number(caller.process, caller.number);
        }
    }
}

impl PartialEq for Image {
    ghost eq = { on image_of (pointwise nat_eq) };

    ghost laws = { partial_equiv_from_equiv (on_texts_equal image_of) };

    /// Returns whether the bytes are equal.
    fn eq(&self, other: &Image) -> bool {
        self.bytes() == other.bytes()
    }
}

impl Eq for Image {
    ghost laws = { on_texts_equal image_of };
}

impl Store for Image {
    ghost contents = { λ s. s };

    /// Applies a command. It does not allocate, so it never fails.
    fn apply(&mut self, command: &Command, caller: Caller) -> Result<Reply, AllocError>
        ensures never_fails { IsOk result }
        ensures reply { IfOk result (λ reply. reply ≡ reply_to self.old command.now caller) }
        ensures contents { OnOk result (self.new ≡ after self.old command.now caller) }
        ensures err { OnErr result (self.new ≡ self.old) }
    {
        let (place, before) = self.find(command);
        let last = self.last(caller.process);
        let Outcome { reply, written } = Outcome::of(command, before, self.has_room(), last);
        self.write(place, command.name(), written);
        if is_new(&before, &written) {
            self.note(caller);
        }
        Ok(reply)
    }

    #[tactic(auto, using(plain_store::proofs::Changes::changes_differs))]
    fn would_change(&self, command: &Command) -> bool {
        let (_, before) = self.find(command);
        let Outcome { written, .. } = Outcome::of(command, before, self.has_room(), 0);
        is_new(&before, &written)
    }

    fn len(&self) -> usize {
        usize::from(self.used)
    }

    fn entry(&self, place: usize) -> Option<(Name, Value)> {
        if place < self.len() {
            slots::pair_in(self.slot(place))
        } else {
            None
        }
    }

    fn last(&self, process: u8) -> u16 {
        if process < self.callers {
            let at = SLOT_BYTES * usize::from(self.slots) + NUMBER_BYTES * usize::from(process);
            number_in(pad(&self.bytes[at..at + NUMBER_BYTES]))
        } else {
            0
        }
    }
}

#[tactic(auto, unfolding(crate::specs::Image::number_bytes))]
fn number_bytes(number: u16) -> [u8; NUMBER_BYTES]
    ensures { result ≡ number_bytes number }
{
    number.to_be_bytes()
}

#[tactic(auto, unfolding(crate::specs::Image::number_in))]
fn number_in(bytes: [u8; NUMBER_BYTES]) -> u16
    ensures { result ≡ number_in bytes }
{
    u16::from_be_bytes(bytes)
}
