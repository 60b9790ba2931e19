//! Reading the line of a Step with an access and no mark, as most lines of a record are. The process of a line cannot be
//! predicted. Therefore the parts that differ from line to line are looked up and compared, without a branch.
ghost use Rattle.std.specs.Prelude.{◌≡◌, ◌+◌, ◌-◌, ◌<◌, ◌≤◌, ◌∷◌, ◌++◌, [], codes, drop, take, false, true, IfSome};
ghost use Rattle.std.specs.Fmt.{decimal};
ghost use Rattle.scenario.specs.{spaced};
ghost use Rattle.model.specs.{field_word};
ghost use Rattle.record_file.specs.Given.{is_entry};
ghost use Rattle.record_file.specs.Printing.{access_text, entry_words, move_words, step_entry};

use crate::sound::sound_step;
use model::{Access, Field};
use safe_bit::Move;

/// The fewest bytes of such a line, as in `0 1.commit.0.0 end`. The length is checked once, so the parts need not check it.
const FEWEST_BYTES: usize = 18;

/// Returns the process and the access of a line that has exactly their printed form. It reads the line once from its start
/// to its end, and needs no room for words. `None` means nothing about the line.
#[inline(always)]
#[tactic(auto, using(crate::proofs::StepWords::line_is))]
pub fn read_step(line: &[u8]) -> Option<(u8, Access)>
    ensures line { IfSome result (λ r. line.now ≡ spaced (entry_words (step_entry r.0 r.1))) }
    ensures sound { IfSome result (λ read. is_entry (step_entry read.0 read.1) ≡ true) }
{
    let (process, access) = step_in(line)?;
    sound_step(process, &access);
    Some((process, access))
}

/// Returns the process and the access, by the number of the process and the words of the access. Most processes have a number
/// of one digit: then the words of the access are at a known position.
#[inline(always)]
fn step_in(line: &[u8]) -> Option<(u8, Access)>
    ensures { IfSome result (λ read. line.now ≡ decimal read.0 ++ (32 ∷ access_text read.1)) }
{
    if line.len() < FEWEST_BYTES {
        return None;
    }
    match line {
        [_, b' ', _, b'.', ..] => near_step_in(line),
        _ => far_step_in(line),
    }
}

/// Returns the process and the access of a line in which both processes have one digit.
#[inline(always)]
fn near_step_in(line: &[u8]) -> Option<(u8, Access)>
    ensures { IfSome result (λ read. line.now ≡ decimal read.0 ++ (32 ∷ access_text read.1)) }
{
    let [first, b' ', second, behind @ ..] = line else {
        return None;
    };
    let process = digit(*first)? as u8;
    let owner = digit(*second)? as u8;
    let access = access_behind(owner, behind)?;
    Some((process, access))
}

/// Returns the process and the access of a line with processes of any number. It is a call: inlined, it would make its caller
/// so large that the caller is not inlined into the loop any more.
#[inline(never)]
fn far_step_in(line: &[u8]) -> Option<(u8, Access)>
    ensures { IfSome result (λ read. line.now ≡ decimal read.0 ++ (32 ∷ access_text read.1)) }
{
    let (process, behind) = process_before(line, b' ')?;
    let (owner, behind) = process_at(behind, b'.')?;
    let access = access_behind(owner, behind)?;
    Some((process, access))
}

/// Returns the access to a register of the process `owner` whose other words these bytes are, from the first dot on.
#[inline(always)]
fn access_behind(owner: u8, bytes: &[u8]) -> Option<Access>
    ensures { IfSome result (λ access. decimal owner ++ bytes.now ≡ access_text access) }
{
    let (field, behind) = field_between_dots(bytes)?;
    let (bit, behind) = bit_before_dot(behind)?;
    let (reader, text) = process_at(behind, b' ')?;
    let how = move_in(text)?;
    Some(Access {
        owner,
        field,
        bit,
        reader,
        how,
    })
}

/// Returns the number of a process before the first byte `end`, and the bytes after that byte.
#[inline(always)]
fn process_before(bytes: &[u8], end: u8) -> Option<(u8, &[u8])>
    ensures { IfSome result (λ read. bytes.now ≡ decimal read.0 ++ (end ∷ read.1.now)) }
{
    let (number, behind) = number_before(bytes, end)?;
    if number > 255 {
        return None;
    }
    Some((number as u8, behind))
}

/// Returns the number of a bit before a dot, and the bytes after the dot. Most numbers have one to three digits; their count is
/// chosen without a branch. A fourth digit is a branch: to prepare it for each line takes longer.
#[inline(always)]
fn bit_before_dot(bytes: &[u8]) -> Option<(u16, &[u8])>
    ensures { IfSome result (λ read. bytes.now ≡ decimal read.0 ++ (46 ∷ read.1.now)) }
{
    if let [a, b, c, d, e, behind @ ..] = bytes {
        if let Some((number, count)) = few_digits(*a, *b, *c) {
            if bytes[count] == b'.' {
                return Some((number as u16, &bytes[count + 1..]));
            }
            if *e == b'.' && count == 3 {
                let last = digit(*d)?;
                return Some(((number * 10 + last) as u16, behind));
            }
        }
    }
    let (number, behind) = number_before(bytes, b'.')?;
    if number > 65_535 {
        return None;
    }
    Some((number as u16, behind))
}

/// Returns the number that the digits at the start of three bytes write, and the number of these digits. All candidates are
/// computed, so that the result is only chosen.
#[inline(always)]
fn few_digits(a: u8, b: u8, c: u8) -> Option<(u32, usize)>
    ensures written { IfSome result (λ read. decimal read.0 ≡ take read.1 (a ∷ b ∷ c ∷ [])) }
    ensures all { IfSome result (λ read. read.1 ≡ 3 → 100 ≤ read.0) }
    ensures small { IfSome result (λ read. read.0 < 1000) }
    ensures bounded { IfSome result (λ read. read.1 ≤ 3) }
{
    let two = goes_on(true, b);
    let three = goes_on(two, c);
    if !begins(a, two) {
        return None;
    }
    let of_one = value_of(a);
    let of_two = of_one * 10 + value_of(b);
    let of_three = of_two * 10 + value_of(c);
    let read = or_longer((of_one, 1), two, of_two);
    Some(or_longer(read, three, of_three))
}

/// Returns whether the byte after the digits so far is one more digit.
#[inline(always)]
fn goes_on(so_far: bool, byte: u8) -> bool
    ensures before { result ≡ true → so_far ≡ true }
    ensures digit { result ≡ true → (48 ≤ byte) × (byte ≤ 57) }
{
    so_far & byte.is_ascii_digit()
}

/// Returns whether a byte is the first digit of a number of one digit, or of more.
#[inline(always)]
fn begins(byte: u8, more: bool) -> bool
    ensures digit { result ≡ true → (48 ≤ byte) × (byte ≤ 57) }
    ensures nonzero { result ≡ true → more ≡ true → 48 < byte }
{
    byte.is_ascii_digit() & (!more | (byte != b'0'))
}

/// Returns the number of a byte that is a digit.
#[inline(always)]
fn value_of(byte: u8) -> u32
    ensures value { 48 ≤ byte → byte ≡ 48 + result }
    ensures small { result < 256 }
{
    u32::from(byte.wrapping_sub(b'0'))
}

/// Returns a number and the count of its digits, or the number that has one digit more.
#[inline(always)]
fn or_longer(shorter: (u32, usize), more: bool, number: u32) -> (u32, usize)
    requires { shorter.1 < 3 }
    ensures yes { more ≡ true → result ≡ (number, shorter.1 + 1) }
    ensures no { more ≡ false → result ≡ shorter }
{
    let chosen = if more { number } else { shorter.0 };
    (chosen, shorter.1 + usize::from(more))
}

/// Returns the number before the first byte `end`, and the bytes after that byte. Most numbers have one digit.
#[inline(always)]
fn number_before(bytes: &[u8], end: u8) -> Option<(u32, &[u8])>
    ensures { IfSome result (λ read. bytes.now ≡ decimal read.0 ++ (end ∷ read.1.now)) }
{
    if let [only, next, behind @ ..] = bytes {
        if *next == end {
            return Some((digit(*only)?, behind));
        }
    }
    long_number_before(bytes, end)
}

/// The largest number after which one more digit is read: each number of 16 bits has its digits within this.
const MOST_BEFORE_A_DIGIT: u32 = 6_553;

/// Returns the number before the first byte `end`, of any number of digits, and the bytes after that byte.
#[inline(always)]
fn long_number_before(bytes: &[u8], end: u8) -> Option<(u32, &[u8])>
    ensures { IfSome result (λ read. bytes.now ≡ decimal read.0 ++ (end ∷ read.1.now)) }
{
    let [first, behind @ ..] = bytes else {
        return None;
    };
    let mut number = digit(*first)?;
    let mut rest = behind;
    'digits: while let [next, behind @ ..] = rest {
        if *next == end {
            return Some((number, behind));
        }
        if number == 0 || number > MOST_BEFORE_A_DIGIT {
            return None;
        }
        number = number * 10 + digit(*next)?;
        rest = behind;
    }
    None
}

/// Returns the number that a digit writes.
#[inline]
fn digit(byte: u8) -> Option<u32>
    ensures value { IfSome result (λ n. byte ≡ 48 + n) }
    ensures small { IfSome result (λ n. n < 10) }
{
    if byte.is_ascii_digit() {
        Some(u32::from(byte - b'0'))
    } else {
        None
    }
}

/// Returns the register that is named between two dots, and the bytes after the second dot.
#[inline(always)]
fn field_between_dots(bytes: &[u8]) -> Option<(Field, &[u8])>
    ensures { IfSome result (λ read. bytes.now ≡ 46 ∷ (field_word read.0 ++ (46 ∷ read.1.now))) }
{
    if let Some((name, behind)) = bytes.split_first_chunk::<8>() {
        let (field, likely) = likely_field(u64::from_le_bytes(*name));
        if are_eight(name, &likely) {
            return Some((field, behind));
        }
    }
    match bytes {
        [
            b'.',
            b'c',
            b'h',
            b'o',
            b'o',
            b's',
            b'i',
            b'n',
            b'g',
            b'.',
            behind @ ..,
        ] => Some((Field::Choosing, behind)),
        _ => None,
    }
}

/// Returns the register whose name has six letters, if these eight bytes are that name between two dots, and those bytes. Three
/// bits of the name's first letter and its last one determine it.
#[inline(always)]
fn likely_field(word: u64) -> (Field, [u8; 8])
    ensures { 46 ∷ (field_word result.0 ++ (46 ∷ [])) ≡ result.1 }
{
    match (word >> 9) & 9 | (word >> 47) & 2 {
        0 => (Field::Image0, *b".image0."),
        2 => (Field::Image1, *b".image1."),
        8 | 10 => (Field::Ticket, *b".ticket."),
        9 => (Field::Stamp0, *b".stamp0."),
        11 => (Field::Stamp1, *b".stamp1."),
        _ => (Field::Commit, *b".commit."),
    }
}

/// Returns whether four bytes are those of a word. They are compared as one number.
#[inline(always)]
fn are(bytes: &[u8; 4], word: &[u8; 4]) -> bool
    ensures { result ≡ true → bytes.now ≡ word.now }
{
    u32::from_le_bytes(*bytes) == u32::from_le_bytes(*word)
}

/// Returns whether eight bytes are those of a word. They are compared as one number.
#[inline(always)]
fn are_eight(bytes: &[u8; 8], word: &[u8; 8]) -> bool
    ensures { result ≡ true → bytes.now ≡ word.now }
{
    u64::from_le_bytes(*bytes) == u64::from_le_bytes(*word)
}

/// Returns the number of a process before a byte `end`, and the bytes from that byte on.
#[inline(always)]
fn process_at(bytes: &[u8], end: u8) -> Option<(u8, &[u8])>
    ensures { IfSome result (λ read. bytes.now ≡ decimal read.0 ++ read.1.now) }
{
    if let [only, next, ..] = bytes {
        if *next == end {
            let number = digit(*only)?;
            return Some((number as u8, &bytes[1..]));
        }
    }
    let (process, behind) = process_before(bytes, end)?;
    Some((process, &bytes[bytes.len() - behind.len() - 1..]))
}

/// Returns the move whose words these bytes are, each after a space. Their first four and their last four are compared: most
/// moves have no more than eight bytes.
#[inline(always)]
#[tactic(auto, using(crate::proofs::StepWords::ends_are))]
fn move_in(text: &[u8]) -> Option<Move>
    ensures { IfSome result (λ how. text.now ≡ codes " " ++ spaced (move_words how)) }
{
    let Some(front) = text.first_chunk::<4>() else {
        return None;
    };
    let Some(end) = text.last_chunk::<4>() else {
        return None;
    };
    let (how, count, likely_front, likely_end) = likely_move(front[2], end[3]);
    if text.len() == count && are(front, &likely_front) && are(end, &likely_end) {
        return Some(how);
    }
    if text == b" settle 0".as_slice() {
        return Some(Move::Settle(false));
    }
    if text == b" settle 1".as_slice() {
        return Some(Move::Settle(true));
    }
    None
}

/// Returns the move whose words have this second letter and this last letter, if there is one, and its words, each after a
/// space: the number of bytes, the first four, and the last four. Three bits of the two letters determine the move.
#[inline(always)]
fn likely_move(second: u8, last: u8) -> (Move, usize, [u8; 4], [u8; 4])
    ensures words { codes " " ++ spaced (move_words result.0)
        ≡ result.2 ++ drop (8 - result.1) result.3 }
    ensures bounded { (4 ≤ result.1) × (result.1 ≤ 8) }
{
    match (second & 5) | (last & 1) << 1 {
        0 => (Move::BeginWrite(false), 8, *b" wri", *b"te 0"),
        2 => (Move::BeginWrite(true), 8, *b" wri", *b"te 1"),
        1 => (Move::EndRead(false), 8, *b" val", *b"ue 0"),
        3 => (Move::EndRead(true), 8, *b" val", *b"ue 1"),
        5 | 7 => (Move::BeginRead, 5, *b" rea", *b"read"),
        _ => (Move::EndWrite, 4, *b" end", *b" end"),
    }
}
