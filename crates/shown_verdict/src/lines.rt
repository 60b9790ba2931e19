//! The words and numbers of a line of a report.
ghost use Rattle.std.specs.Prelude.{◌≡◌, ◌≤◌, option_map};
ghost use Rattle.shown_verdict.specs.Lines.{behind as rest_behind, behind_space as rest_of, number_of as number_in, process_of as process_in, text_behind as text_in, report_lines};

use bstr::ByteSlice;

/// Returns the rest of a line after `word`, if the line begins with `word`.
pub(crate) fn behind<'a>(word: &[u8], line: &'a [u8]) -> Option<&'a [u8]>
    ensures { option_map (λ rest. rest.now) result ≡ rest_behind word.now line.now }
{
    if line.len() < word.len() {
        return None;
    }
    let (front, rest) = line.split_at(word.len());
    if front != word {
        return None;
    }
    Some(rest)
}

/// Returns the rest of the first line that begins with `word`.
pub(crate) fn text_behind<'a>(word: &[u8], report: &'a [u8]) -> Option<&'a [u8]>
    ensures { option_map (λ rest. rest.now) result ≡ text_in word.now (report_lines report.now) }
{
    for line in report.lines() {
        let found = behind(word, line);
        if found.is_some() {
            return found;
        }
    }
    None
}

/// Returns the rest of a text after its first space.
pub(crate) fn behind_space(text: &[u8]) -> &[u8]
    ensures { result.now ≡ rest_of text.now }
{
    for at in 0..text.len() {
        if text[at] == b' ' {
            return &text[at + 1..];
        }
    }
    b""
}

/// Returns the number that a text begins with. If 64 bits do not hold it, it is the greatest that they hold.
#[tactic(auto, using(crate::proofs::Digits::digit_next, crate::proofs::Digits::digits_end))]
pub(crate) fn number_of(text: &[u8]) -> u64
    ensures { result ≡ number_in text.now }
{
    let mut number: u64 = 0;
    for byte in text {
        if !byte.is_ascii_digit() {
            return number;
        }
        number = number
            .saturating_mul(10)
            .saturating_add(u64::from(*byte - b'0'));
    }
    number
}

/// Returns the process whose number a text begins with, or 255 if the number is greater.
pub(crate) fn process_of(text: &[u8]) -> u8
    ensures { result ≡ process_in text.now }
{
    u8::try_from(number_of(text)).unwrap_or(255)
}
