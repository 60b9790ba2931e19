//! Numbers as words.
ghost use Rattle.std.specs.Prelude.{◌≡◌, ◌+◌, ◌-◌, ◌*◌, true};
ghost use Rattle.std.specs.Char.{is_ascii_digit};
ghost use Rattle.std.specs.Str.Parse.{digits_value};
ghost use Rattle.std.specs.Str.{IsAscii};
ghost use Rattle.scenario.specs.Numbers.{IsNumber, are_digits as all_digits, is_numeral as numeral, is_signed_numeral as signed_numeral, number_up_to, integer_of};

/// Returns the number that the word writes, if it is at most `most`.
#[tactic(auto, using(crate::proofs::Numerals::numeral_is, crate::proofs::Numerals::number_is, crate::proofs::Numerals::number_is_none))]
pub fn number(word: &[u8], most: u64) -> Option<u64>
    ensures { result ≡ number_up_to most word.now }
{
    if !is_numeral(word) {
        return None;
    }
    let number = value_of(word)?;
    (number <= most).then_some(number)
}

/// Returns the number that the digits write, if it has no more than 64 bits.
#[tactic(auto, using(crate::proofs::Numerals::digit_in, crate::proofs::Numerals::value_more, crate::proofs::Numerals::value_beyond))]
fn value_of(digits: &[u8]) -> Option<u64>
    requires { all_digits digits.now ≡ true }
    ensures { IsNumber result (digits_value 10 digits.now) }
{
    let mut value = 0;
    for digit in digits {
        value = with_digit(value, *digit)?;
    }
    Some(value)
}

/// Returns the number that a digit makes after those of `value`, if it has no more than 64 bits.
#[inline]
fn with_digit(value: u64, digit: u8) -> Option<u64>
    requires { is_ascii_digit digit ≡ true }
    ensures { IsNumber result (value * 10 + (digit - 48)) }
{
    value.checked_mul(10)?.checked_add(u64::from(digit - b'0'))
}

/// Returns the number with a sign that the word writes.
#[tactic(auto, using(crate::proofs::Numerals::integer_parsed, crate::proofs::Numerals::signed_is_ascii))]
pub fn integer(word: &[u8]) -> Option<i64>
    ensures { result ≡ integer_of word.now }
{
    if !is_signed_numeral(word) {
        return None;
    }
    text(word).parse::<i64>().ok()
}

/// Returns whether the word is `0`, or digits of which the first is not `0`.
fn is_numeral(word: &[u8]) -> bool
    ensures { result ≡ numeral word.now }
{
    match word {
        [] => false,
        [first, rest @ ..] => are_digits(word) && (*first != b'0' || rest.is_empty()),
    }
}

/// Returns whether the word is a numeral, or one other than `0` after a minus.
fn is_signed_numeral(word: &[u8]) -> bool
    ensures { result ≡ signed_numeral word.now }
{
    match word {
        [b'-', b'0', ..] => false,
        [b'-', digits @ ..] => is_numeral(digits),
        _ => is_numeral(word),
    }
}

fn are_digits(word: &[u8]) -> bool
    ensures { result ≡ all_digits word.now }
{
    word.iter().all(|b| b.is_ascii_digit())
}

/// Returns the bytes as a text.
fn text(bytes: &[u8]) -> &str
    requires { IsAscii bytes.now }
    ensures { result.now ≡ bytes.now }
{
    str::from_utf8(bytes).unwrap()
}
