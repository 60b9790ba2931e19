//! The image that the words of a board show, read from the copies of reader 0.
ghost use Rattle.std.specs.Prelude.{◌≡◌, ◌+◌, ◌*◌, ◌<◌, ◌≤◌, length, take, Ok};
ghost use Rattle.std.specs.Slots.{slots_len, IsFull};
ghost use Rattle.store_image.specs.{store_in};
ghost use Rattle.plain_store.specs.{callers_of, checked};
ghost use Rattle.model.specs.{width};
ghost use Rattle.board.specs.Closings.{bit_shown, bytes_of, number_shown, store_shown, version_shown, words_of};
ghost use Rattle.board.specs.Words.{layout_of, words_in};

use crate::layout::WordLayout;
use atomic_table::Closed;
use model::{Field, image_bytes};
use plain_store::Setup;
use process::{BitCopy, NewestVersion, RegisterName};
use std::alloc::Global;
use store_image::{Image, MOST_IMAGE_BYTES};

/// The words of a board that no thread shares any more.
pub(crate) type ClosedWords = Closed<(), Global>;

/// Returns the bit of a register that the words show.
fn bit_shown(
    setup: &Setup,
    layout: &WordLayout,
    words: &ClosedWords,
    register: RegisterName,
    bit: u16,
) -> bool
    requires layout { layout.now ≡ layout_of setup.now }
    requires words { (slots_len words.now.words ≡ words_in setup.now) × IsFull words.now.words }
    requires owner { register.owner < setup.now.processes }
    requires bit { bit < width setup.now register.field }
    ensures { result ≡ bit_shown setup.now (words_of words.now) register.owner register.field bit }
{
    let copy = BitCopy {
        register,
        bit,
        reader: 0,
    };
    words.word(layout.word_of(setup, copy)) == 1
}

/// Returns the number of `count` bits of a register, from bit `from` on.
fn number_shown(
    setup: &Setup,
    layout: &WordLayout,
    words: &ClosedWords,
    register: RegisterName,
    from: u16,
    count: u16,
) -> u32
    requires layout { layout.now ≡ layout_of setup.now }
    requires words { (slots_len words.now.words ≡ words_in setup.now) × IsFull words.now.words }
    requires bounded { count ≤ 32 }
    requires inside { from + count ≤ 1728 }
    requires owner { register.owner < setup.now.processes }
    requires bits { from + count ≤ width setup.now register.field }
    ensures { result ≡ number_shown setup.now (words_of words.now)
        register.owner register.field from count }
{
    let mut number = 0;
    for done in 0..count {
        let bit = bit_shown(setup, layout, words, register, from + (count - 1 - done));
        number = 2 * number + u32::from(bit);
    }
    number
}

/// Returns the first `count` bytes of a register, followed by zeros. The least significant bit of a byte comes first.
fn bytes_of(
    setup: &Setup,
    layout: &WordLayout,
    words: &ClosedWords,
    register: RegisterName,
    count: u16,
) -> [u8; MOST_IMAGE_BYTES]
    requires layout { layout.now ≡ layout_of setup.now }
    requires words { (slots_len words.now.words ≡ words_in setup.now) × IsFull words.now.words }
    requires bounded { count ≤ 216 }
    requires owner { register.owner < setup.now.processes }
    requires bits { 8 * count ≤ width setup.now register.field }
    ensures length { length result ≡ 216 }
    ensures bytes { take count result ≡ bytes_of setup.now (words_of words.now)
        register.owner register.field count }
{
    let mut bytes = [0; MOST_IMAGE_BYTES];
    for k in 0..count {
        bytes[usize::from(k)] = number_shown(setup, layout, words, register, 8 * k, 8) as u8;
    }
    bytes
}

/// Returns the commit bit of a process, and the stamp of the version that it chooses.
fn version_shown(setup: &Setup, layout: &WordLayout, words: &ClosedWords, owner: u8) -> (bool, u32)
    requires good { checked setup.now ≡ Ok tt }
    requires layout { layout.now ≡ layout_of setup.now }
    requires words { (slots_len words.now.words ≡ words_in setup.now) × IsFull words.now.words }
    requires owner { owner < setup.now.processes }
    ensures { result ≡ version_shown setup.now (words_of words.now) owner }
{
    let commit_bit = RegisterName {
        owner,
        field: Field::Commit,
    };
    let commit = bit_shown(setup, layout, words, commit_bit, 0);
    let stamp = RegisterName {
        owner,
        field: if commit { Field::Stamp1 } else { Field::Stamp0 },
    };
    let bits = u16::from(setup.stamp_bits);
    (commit, number_shown(setup, layout, words, stamp, 0, bits))
}

/// Returns the store whose image the words show as committed with the greatest stamp, of the lowest process on a tie.
pub(crate) fn image_shown(setup: &Setup, words: &ClosedWords) -> Image
    requires good { checked setup.now ≡ Ok tt }
    requires words { (slots_len words.now.words ≡ words_in setup.now) × IsFull words.now.words }
    ensures { result ≡ store_shown setup.now (words_of words.now) }
{
    let layout = WordLayout::of(setup);
    let mut newest = NewestVersion::none();
    for process in 0..setup.processes {
        newest = newest.with(process, version_shown(setup, &layout, words, process));
    }
    let count = image_bytes(setup);
    let bytes = bytes_of(setup, &layout, words, newest.image(), count);
    Image::read_or_empty(setup, &bytes[..usize::from(count)])
}
