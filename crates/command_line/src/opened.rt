//! A source whose front is read to find out the kind of the file.
ghost use Rattle.std.specs.Prelude.{◌≡◌, ◌+◌, ◌-◌, ◌^◌, ◌<◌, ◌≤◌, ◌++◌, cond, false, true, List, ℕ, drop, length, min, take, IfErr, IfOk, IfSome};
ghost use Rattle.std.specs.Io.KnownBytes.{IsAtEnd, Keeps, prepend_known};
ghost use Rattle.files.specs.{IsReadFault, failed_reading, input_limit, lines, said_words};
ghost use Rattle.command_line.specs.FirstWords.{first_word as first_word_of, word_opened as opened_by};
ghost use Rattle.command_line.specs.declared.first_word.FirstWord.TheVariants.{Other};

use crate::first_word::FirstWord;
use bstr::ByteSlice;
use files::{Failed, Fault, INPUT_LIMIT, Source, read_any_line};
use std::alloc::Global;

/// The number of bytes that are read at once.
const BLOCK: usize = 1024;

/// A source, the bytes of its front that were read for its kind, and the number of these that were given.
#[derive(Drop)]
pub struct SniffedSource<R: Source + Drop> {
    /// The first word of the first line that is not skipped.
    pub first_word: FirstWord,
    front: Vec<u8>,
    given: usize,
    source: R,
}

impl<R: Source + Drop> SniffedSource<R> {
    /// Reads the front of a source, at most as far as a scenario file may go. The bytes to come stay the same.
    ///
    /// # Errors
    ///
    /// Returns `Read` if a read fails, and `Memory` if an allocation fails.
    #[tactic(auto, using(crate::proofs::Opening::keeps_none, crate::proofs::Opening::keeps_both))]
    pub fn new(alloc: Global, unseen: R) -> Result<SniffedSource<R>, Fault>
        requires { R.failures unseen < 2 ^ 64 - 1 }
        ensures word { IfOk result
            (λ opened. IfSome (R.to_come unseen) (λ text. opened.first_word ≡ first_word_of text)) }
        ensures bytes { IfOk result
            (λ opened. Keeps (R.to_come unseen) (⟦<SniffedSource<R> as Source>⟧.to_come opened)) }
        ensures failures { IfOk result
            (λ opened. ⟦<SniffedSource<R> as Source>⟧.failures opened ≡ R.failures unseen) }
        ensures fault { IfErr result IsReadFault }
    {
        let mut source = unseen;
        let mut front = Vec::new(alloc);
        let mut some = true;
        let mut goal = 0;
        'blocks: while some && !reports_now(alloc, front.as_slice(), &mut goal)? {
            some = look(&mut source, &mut front)?;
        }
        Ok(SniffedSource {
            first_word: word_of_front(alloc, front.as_slice())?,
            front,
            given: 0,
            source,
        })
    }

    /// Returns the source without a look at it, as if its first word were another.
    pub fn unseen(alloc: Global, source: R) -> SniffedSource<R>
        ensures word { result.first_word ≡ Other }
        ensures bytes { Keeps (R.to_come source) (⟦<SniffedSource<R> as Source>⟧.to_come result) }
        ensures failures { ⟦<SniffedSource<R> as Source>⟧.failures result ≡ R.failures source }
    {
        SniffedSource {
            first_word: FirstWord::Other,
            front: Vec::new(alloc),
            given: 0,
            source,
        }
    }
}

impl<R: Source + Drop> Source for SniffedSource<R> {
    ghost to_come = { λ o. prepend_known (drop o.given o.front.items) (R.to_come o.source) };

    ghost failures = { λ o. R.failures o.source };

    fn next_byte(&mut self) -> Result<Option<u8>, Failed> {
        if self.given < self.front.len() {
            let byte = self.front[self.given];
            self.given += 1;
            return Ok(Some(byte));
        }
        self.source.next_byte()
    }

    /// Gives the bytes of the front, as many as there is room for; after them, a block of the source.
    fn next_bytes(&mut self, buffer: &mut [u8]) -> Result<usize, Failed> {
        if self.given < self.front.len() {
            let count = put_front(&self.front[self.given..], buffer);
            self.given += count;
            return Ok(count);
        }
        self.source.next_bytes(buffer)
    }
}

/// Copies as many of the bytes as there is room for into a buffer, and returns how many.
fn put_front(bytes: &[u8], buffer: &mut [u8]) -> usize
    ensures count { result ≡ min (length bytes.now) (length buffer.old) }
    ensures length { length buffer.new ≡ length buffer.old }
    ensures front { take result buffer.new ≡ take result bytes.now }
{
    let count = bytes.len().min(buffer.len());
    buffer[..count].copy_from_slice(&bytes[..count]);
    count
}

/// Looks at one more block. Returns `false` at the end of the source.
#[tactic(auto, using(crate::proofs::Opening::looked, crate::proofs::Opening::none_looked))]
fn look<R: Source>(source: &mut R, front: &mut Vec<u8>) -> Result<bool, Fault>
    requires { R.failures source.old < 2 ^ 64 - 1 }
    ensures bytes { IfOk result
        (λ _. Keeps (prepend_known front.old.items (R.to_come source.old))
        (prepend_known front.new.items (R.to_come source.new))) }
    ensures more { IfOk result
        (λ some. length front.old.items + cond some 1 0 ≤ length front.new.items) }
    ensures end { IfOk result (λ some. some ≡ false → IsAtEnd (R.to_come source.new)) }
    ensures fault { IfErr result IsReadFault }
    ensures failures { R.failures source.new ≡ R.failures source.old + failed_reading result }
{
    let mut block = [0u8; BLOCK];
    match source.next_bytes(&mut block) {
        Ok(0) => Ok(false),
        Ok(count) => match front.extend_from_slice(&block[..count]) {
            Ok(()) => Ok(true),
            Err(_) => Err(Fault::Memory),
        },
        Err(Failed) => Err(Fault::Read),
    }
}

/// Returns whether a file that begins with these bytes has the same first word, whatever follows them.
fn is_reported(alloc: Global, front: &[u8]) -> Result<bool, Fault>
    ensures reported { IfOk result
        (λ reported. reported ≡ true → (rest : List ℕ) →
        first_word_of (front.now ++ rest) ≡ first_word_of front.now) }
    ensures not_yet { IfOk result (λ reported. reported ≡ false → length front.now < input_limit) }
    ensures fault { IfErr result IsReadFault }
    ensures failures { failed_reading result ≡ 0 }
{
    if front.len() >= INPUT_LIMIT {
        return Ok(true);
    }
    Ok(word_opened(alloc, ended_lines(front))?.is_some())
}

/// Returns the same, and asks again only when the front is twice as long as when it was asked last. So all the answers about
/// a long front take no longer than a few looks at it.
fn reports_now(alloc: Global, front: &[u8], goal: &mut usize) -> Result<bool, Fault>
    requires { goal.old ≤ input_limit }
    ensures reported { IfOk result
        (λ reported. reported ≡ true → (rest : List ℕ) →
        first_word_of (front.now ++ rest) ≡ first_word_of front.now) }
    ensures not_yet { IfOk result (λ reported. reported ≡ false → length front.now < input_limit) }
    ensures goal { goal.new ≤ input_limit }
    ensures fault { IfErr result IsReadFault }
    ensures failures { failed_reading result ≡ 0 }
{
    if front.len() < *goal {
        return Ok(false);
    }
    if is_reported(alloc, front)? {
        return Ok(true);
    }
    *goal = front.len().saturating_mul(2).min(INPUT_LIMIT);
    Ok(false)
}

/// Returns the lines whose end is in the front.
fn ended_lines(front: &[u8]) -> &[u8]
    ensures { (more : List ℕ) →
        lines (front.now ++ more)
        ≡ lines result.now ++ lines (drop (length result.now) front.now ++ more) }
{
    match front.rfind_byte(b'\n') {
        Some(at) => &front[..at + 1],
        None => &front[..0],
    }
}

/// Returns the first word of a file, by its bytes as far as they may count.
fn word_of_front(alloc: Global, front: &[u8]) -> Result<FirstWord, Fault>
    ensures value { IfOk result (λ word. word ≡ first_word_of front.now) }
    ensures fault { IfErr result IsReadFault }
    ensures failures { failed_reading result ≡ 0 }
{
    let counted = &front[..INPUT_LIMIT.min(front.len())];
    Ok(word_opened(alloc, counted)?.unwrap_or(FirstWord::Other))
}

/// Returns the first word of the first line that is not skipped, or `None` if each line is skipped.
fn word_opened(alloc: Global, text: &[u8]) -> Result<Option<FirstWord>, Fault>
    ensures value { IfOk result (λ opened. opened ≡ opened_by (said_words text.now)) }
    ensures fault { IfErr result IsReadFault }
    ensures failures { failed_reading result ≡ 0 }
{
    let mut first: Option<FirstWord> = None;
    for line in text.lines() {
        if read_any_line(alloc, line, &mut first).is_err() {
            return Err(Fault::Memory);
        }
        if let Some(word) = first {
            return Ok(Some(word));
        }
    }
    Ok(None)
}
