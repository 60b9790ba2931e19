//! Printing the entry of a Step without a mark. Nearly all entries are of this kind, so they have a quick way of their own.
//! Such a line is written from its end to its front, so that each number and each word ends at a known position.
ghost use Rattle.std.specs.Prelude.{◌≡◌, ◌+◌, ◌-◌, ◌≤◌, ◌++◌, ◌∷◌, [], drop, length, Some};
ghost use Rattle.std.specs.Fmt.{decimal};
ghost use Rattle.record_file.specs.Printing.{dotted_field, entry_line, front_text, move_text, step_entry};

use itoa::write_digits;
use model::{Access, Field};
use safe_bit::Move;
use std::marker::Model;

/// Room for the longest line, and for the bytes before a word while it is written.
const ROOM: usize = 64;

/// The line of a Step, with its end, and room for it. Contracts see the line.
#[derive(Drop)]
pub struct StepLine {
    bytes: [u8; ROOM],
    at: usize,
}

impl Model for StepLine {
    ghost use Rattle.std.specs.Prelude.{ℕ, ◌≤◌, List, drop};

    ghost Value = { List ℕ };

    ghost view = { λ line. drop line.at line.bytes };

    ghost invariant = { λ line. line.at ≤ 64 };
}

impl StepLine {
    /// Creates an empty line.
    pub fn new() -> StepLine
        ensures { result ≡ [] }
    {
        StepLine {
            bytes: [0; ROOM],
            at: ROOM,
        }
    }

    /// Returns the line's bytes.
    #[inline]
    pub fn as_bytes(&self) -> &[u8]
        ensures { result.now ≡ self.now }
    {
        &self.bytes[self.at..]
    }

    /// Prints the line of a Step of this process with this access and no mark, in place of the one before.
    #[inline]
    pub fn print(&mut self, process: u8, access: Access)
        ensures { self.new ≡ entry_line (step_entry process access) }
    {
        let end = put_byte(b'\n', &mut self.bytes, ROOM);
        self.at = put_words(process, access, &mut self.bytes, end);
    }

    /// Prints its words alone, without the end of the line.
    pub(crate) fn print_words(&mut self, process: u8, access: Access)
        ensures { self.new ≡ front_text process (Some access) }
    {
        self.at = put_words(process, access, &mut self.bytes, ROOM);
    }
}

/// Puts the words of a process and its access before a position, and returns the position where they begin.
#[inline(always)]
fn put_words(process: u8, access: Access, line: &mut [u8; ROOM], end: usize) -> usize
    requires { (63 ≤ end) × (end ≤ 64) }
    ensures place { result ≤ 64 }
    ensures line { drop result line.new ≡ front_text process (Some access) ++ drop end line.old }
{
    let at = put_move(access.how, line, end);
    let at = put_number(u16::from(access.reader), line, at);
    let at = put_byte(b'.', line, at);
    let at = put_number(access.bit, line, at);
    let at = put_field(access.field, line, at);
    let at = put_number(u16::from(access.owner), line, at);
    let at = put_byte(b' ', line, at);
    put_number(u16::from(process), line, at)
}

/// Puts a byte before a position, and returns the position of the byte.
#[inline(always)]
fn put_byte(byte: u8, line: &mut [u8; ROOM], end: usize) -> usize
    requires { (1 ≤ end) × (end ≤ 64) }
    ensures place { result + 1 ≡ end }
    ensures line { drop result line.new ≡ byte ∷ drop end line.old }
{
    line[end - 1] = byte;
    end - 1
}

/// Puts a number before a position, and returns the position where it begins.
#[inline(always)]
fn put_number(number: u16, line: &mut [u8; ROOM], end: usize) -> usize
    requires { (5 ≤ end) × (end ≤ 64) }
    ensures place { (result ≤ end) × (end ≤ result + 5) }
    ensures line { drop result line.new ≡ decimal number ++ drop end line.old }
{
    write_digits(u64::from(number), line, end)
}

/// The width of a word in bytes: it is written as one load and one store. The word ends with the last byte, and the bytes
/// before it are overwritten by the next word.
const WIDTH: usize = 16;

/// Puts the last `count` bytes of a word before a position, and returns the position where they begin.
#[inline(always)]
fn put_word(word: &[u8; WIDTH], count: usize, line: &mut [u8; ROOM], end: usize) -> usize
    requires { (count ≤ 16) × (16 ≤ end) × (end ≤ 64) }
    ensures place { result + count ≡ end }
    ensures line { drop result line.new ≡ drop (16 - count) word.now ++ drop end line.old }
{
    line[end - WIDTH..end].copy_from_slice(word);
    end - count
}

/// Puts the word of a register, between its dots, before a position.
#[inline(always)]
fn put_field(field: Field, line: &mut [u8; ROOM], end: usize) -> usize
    requires { (16 ≤ end) × (end ≤ 64) }
    ensures place { (result ≤ end) × (end ≤ result + 10) }
    ensures line { drop result line.new ≡ dotted_field field ++ drop end line.old }
{
    put_word(field_word(field), field_count(field), line, end)
}

/// Returns the word of a register, between its dots, as the last of these bytes.
#[inline(always)]
fn field_word(field: Field) -> &'static [u8; WIDTH]
    ensures { drop (16 - length (dotted_field field)) result.now ≡ dotted_field field }
{
    match field {
        Field::Choosing => b"      .choosing.",
        Field::Ticket => b"        .ticket.",
        Field::Commit => b"        .commit.",
        Field::Stamp0 => b"        .stamp0.",
        Field::Stamp1 => b"        .stamp1.",
        Field::Image0 => b"        .image0.",
        Field::Image1 => b"        .image1.",
    }
}

/// Returns the number of bytes of that word with its dots.
#[inline(always)]
fn field_count(field: Field) -> usize
    ensures count { result ≡ length (dotted_field field) }
    ensures bounded { result ≤ 10 }
{
    match field {
        Field::Choosing => 10,
        Field::Ticket
        | Field::Commit
        | Field::Stamp0
        | Field::Stamp1
        | Field::Image0
        | Field::Image1 => 8,
    }
}

/// Puts the words of a move, each after a space, before a position.
#[inline(always)]
fn put_move(how: Move, line: &mut [u8; ROOM], end: usize) -> usize
    requires { (16 ≤ end) × (end ≤ 64) }
    ensures place { (result ≤ end) × (end ≤ result + 10) }
    ensures line { drop result line.new ≡ move_text how ++ drop end line.old }
{
    put_word(move_word(how), move_count(how), line, end)
}

/// Returns the words of a move, each after a space, as the last of these bytes.
#[inline(always)]
fn move_word(how: Move) -> &'static [u8; WIDTH]
    ensures { drop (16 - length (move_text how)) result.now ≡ move_text how }
{
    match how {
        Move::BeginWrite(false) => b"         write 0",
        Move::BeginWrite(true) => b"         write 1",
        Move::EndWrite => b"             end",
        Move::BeginRead => b"            read",
        Move::EndRead(false) => b"         value 0",
        Move::EndRead(true) => b"         value 1",
        Move::Settle(false) => b"        settle 0",
        Move::Settle(true) => b"        settle 1",
    }
}

/// Returns the number of bytes of these words with their spaces.
#[inline(always)]
fn move_count(how: Move) -> usize
    ensures count { result ≡ length (move_text how) }
    ensures bounded { result ≤ 10 }
{
    match how {
        Move::EndWrite => 4,
        Move::BeginRead => 5,
        Move::BeginWrite(_) | Move::EndRead(_) => 8,
        Move::Settle(_) => 9,
    }
}
