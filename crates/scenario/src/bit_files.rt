//! Bits files: the calls that are made on one safe bit.
ghost use Rattle.std.specs.Prelude.{◌≡◌};
ghost use Rattle.scenario.specs.BitFiles.{bit_word_of, bit_at, one_bit_of, lone_word_of, bit_line_of, first_bits_read, bits_of, GivesBits};
ghost use Rattle.files.specs.{Makes, texts};

use crate::forms::BITS;
use files::{FaultKind, FromLines, LineFault, keep_line, meaning_of, read_file};
use std::alloc::Global;
use std::marker::Model;

/// A line of a bits file after the first: a call on a bit, which is initially 0.
#[derive(Clone, Copy)]
pub enum BitLine {
    /// A write of this value begins.
    Write(bool),
    /// The open write ends.
    End,
    /// The open write, which its writer has left, ends at this value.
    Settle(bool),
    /// A read begins.
    Read,
    /// The open read ends: it gives this value if a write overlapped it.
    Value(bool),
    /// The open read ends without a value.
    Drop,
}

/// Returns the lines that the bytes of a bits file contain, or the first fault of the first line that has one. A fault of
/// kind `Memory` may name any line.
pub fn read_bits(alloc: Global, text: &[u8]) -> Result<Vec<BitLine>, LineFault>
    ensures { GivesBits result (bits_of text.now) }
{
    let mut numbers = Vec::new(alloc);
    Ok(read_file::<BitsReader>(alloc, text, &mut numbers)?.lines)
}

/// The first word of a line.
#[derive(Clone, Copy)]
pub enum BitWord {
    Bits,
    Write,
    End,
    Settle,
    Read,
    Value,
    Drop,
}

/// The first words of lines, and the meaning of each.
pub const BIT_WORDS: [(&str, BitWord); 7] = [
    ("bits", BitWord::Bits),
    ("write", BitWord::Write),
    ("end", BitWord::End),
    ("settle", BitWord::Settle),
    ("read", BitWord::Read),
    ("value", BitWord::Value),
    ("drop", BitWord::Drop),
];

impl BitWord {
    /// Returns the meaning of the first word of a line.
    pub fn of(word: &[u8]) -> Option<BitWord>
        ensures { result ≡ bit_word_of word.now }
    {
        meaning_of(&BIT_WORDS, word)
    }
}

/// The lines after the first that have been read so far.
#[derive(Drop)]
pub struct BitsReader {
    lines: Vec<BitLine>,
}

impl Model for BitsReader {
    ghost use Rattle.std.specs.Prelude.{List};
    ghost use Rattle.scenario.specs.declared.bit_files.BitLine.{BitLine};

    ghost Value = { List BitLine };

    ghost view = { λ r. r.lines.items };
}

impl FromLines for BitsReader {
    ghost use Rattle.scenario.specs.BitFiles.{bits_grammar};

    ghost grammar = { bits_grammar };

    fn first(alloc: Global, word: &[u8], words: &[&[u8]]) -> Result<BitsReader, FaultKind> {
        BitsReader::new(alloc, word, words)
    }

    fn later(&mut self, word: &[u8], words: &[&[u8]]) -> Result<(), FaultKind> {
        match BitWord::of(word) {
            None => Err(FaultKind::Unknown),
            Some(name) => keep_line(&mut self.lines, bit_line(name, words)?),
        }
    }
}

impl BitsReader {
    /// Reads the first line: `bits 1`.
    fn new(alloc: Global, word: &[u8], words: &[&[u8]]) -> Result<BitsReader, FaultKind>
        ensures { Makes result (first_bits_read word.now (texts words.now)) }
    {
        if word == BITS.as_bytes() && words.len() == 1 && words[0] == b"1".as_slice() {
            Ok(BitsReader {
                lines: Vec::new(alloc),
            })
        } else {
            Err(FaultKind::NotFirst)
        }
    }
}

/// Returns a later line, by its first word and the words after it.
fn bit_line(name: BitWord, words: &[&[u8]]) -> Result<BitLine, FaultKind>
    ensures { result ≡ bit_line_of name (texts words.now) }
{
    match name {
        BitWord::Bits => Err(FaultKind::NotFirst),
        BitWord::Write => Ok(BitLine::Write(one_bit(words)?)),
        BitWord::Settle => Ok(BitLine::Settle(one_bit(words)?)),
        BitWord::Value => Ok(BitLine::Value(one_bit(words)?)),
        BitWord::End => alone(BitLine::End, words),
        BitWord::Read => alone(BitLine::Read, words),
        BitWord::Drop => alone(BitLine::Drop, words),
    }
}

/// Reads a line that consists of its first word alone.
fn alone(line: BitLine, words: &[&[u8]]) -> Result<BitLine, FaultKind>
    ensures { result ≡ lone_word_of line (texts words.now) }
{
    if words.is_empty() {
        Ok(line)
    } else {
        Err(FaultKind::Words)
    }
}

/// Reads the one operand of a line.
///
/// # Errors
///
/// Returns [`FaultKind::Words`] unless there is one word, or [`FaultKind::Number`] if the word is neither `0` nor `1`.
pub fn one_bit(words: &[&[u8]]) -> Result<bool, FaultKind>
    ensures { result ≡ one_bit_of (texts words.now) }
{
    if words.len() != 1 {
        return Err(FaultKind::Words);
    }
    bit(words[0])
}

fn bit(word: &[u8]) -> Result<bool, FaultKind>
    ensures { result ≡ bit_at word.now }
{
    match word {
        b"0" => Ok(false),
        b"1" => Ok(true),
        _ => Err(FaultKind::Number),
    }
}
