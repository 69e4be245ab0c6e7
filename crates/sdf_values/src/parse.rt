//! Reading a number's text: whether it is one, its significant digits and its exponent.
ghost use Rattle.std.specs.Prelude.{◌≡◌, ℕ, ◌<◌, ◌≤◌, ◌+◌, ◌*◌, ◌^◌, if◌then◌else◌, List, [], ◌∷◌, take, drop, length, min, Some, None, MatchOption, IsTrue, true, false};
ghost use Rattle.sdf_values.specs.NumberTexts.{is_digit, is_sign, is_mark, is_number, is_unsigned, ends_whole, is_negative, FailsAt, digits_number, before_mark, after_mark, after_point};
ghost use Rattle.sdf_values.specs.Places.{accepts, Keeps};

use crate::tens::ten_to;

/// A place in a number's text.
#[derive(Clone, Copy)]
pub enum Place {
    /// Before the first byte.
    Start,
    /// Behind the sign.
    Signed,
    /// Behind a digit, and no point yet.
    Whole,
    /// Behind a point with no digit before it.
    Point,
    /// Behind the point, with a digit before it or behind it.
    Fraction,
    /// Behind the exponent's mark.
    Mark,
    /// Behind the exponent's sign.
    MarkSigned,
    /// Behind a digit of the exponent.
    Exponent,
}

/// The digits of a number without the zeros that end them, and how many zeros these are.
#[derive(Clone, Copy)]
pub struct Significant {
    /// These digits as a number.
    pub digits: u128,
    /// How many zeros stand behind them.
    pub zeros: usize,
    /// There are more than 34 digits, and the fields above say nothing.
    pub is_long: bool,
}

/// The first byte, or the end, with which no number's text goes on; `None` for a number's text.
pub fn first_fault(text: &[u8]) -> Option<usize>
    ensures { MatchOption result (IsTrue (is_number text.now)) (λ at. FailsAt text.now at) }
{
    let mut place = Place::Start;
    for at in 0..text.len() {
        match next(place, text[at]) {
            Some(following) => place = following,
            None => return Some(at),
        }
    }
    if may_end(place) {
        None
    } else {
        Some(text.len())
    }
}

/// The place behind a byte; `None` where no number goes on with it.
fn next(place: Place, byte: u8) -> Option<Place>
    ensures { MatchOption result
        ((rest : List ℕ) → accepts place (byte ∷ rest) ≡ false)
        (λ following. (rest : List ℕ) → accepts place (byte ∷ rest) ≡ accepts following rest) }
{
    match place {
        Place::Start => {
            if is_sign(byte) {
                Some(Place::Signed)
            } else {
                behind_sign(byte)
            }
        }
        Place::Signed => behind_sign(byte),
        Place::Whole => behind_whole(byte),
        Place::Point => if_digit(byte, Place::Fraction),
        Place::Fraction => {
            if is_digit(byte) {
                Some(Place::Fraction)
            } else if is_mark(byte) {
                Some(Place::Mark)
            } else {
                None
            }
        }
        Place::Mark => {
            if is_sign(byte) {
                Some(Place::MarkSigned)
            } else {
                if_digit(byte, Place::Exponent)
            }
        }
        Place::MarkSigned => if_digit(byte, Place::Exponent),
        Place::Exponent => if_digit(byte, Place::Exponent),
    }
}

fn behind_sign(byte: u8) -> Option<Place>
    ensures { MatchOption result
        ((rest : List ℕ) → is_unsigned (byte ∷ rest) ≡ false)
        (λ following. (rest : List ℕ) → is_unsigned (byte ∷ rest) ≡ accepts following rest) }
{
    if is_digit(byte) {
        Some(Place::Whole)
    } else if byte == b'.' {
        Some(Place::Point)
    } else {
        None
    }
}

fn behind_whole(byte: u8) -> Option<Place>
    ensures { MatchOption result
        ((rest : List ℕ) → ends_whole (byte ∷ rest) ≡ false)
        (λ following. (rest : List ℕ) → ends_whole (byte ∷ rest) ≡ accepts following rest) }
{
    if is_digit(byte) {
        Some(Place::Whole)
    } else if byte == b'.' {
        Some(Place::Fraction)
    } else if is_mark(byte) {
        Some(Place::Mark)
    } else {
        None
    }
}

fn if_digit(byte: u8, following: Place) -> Option<Place>
    ensures { result ≡ (if is_digit byte then Some following else None) }
{
    if is_digit(byte) {
        Some(following)
    } else {
        None
    }
}

fn may_end(place: Place) -> bool
    ensures { result ≡ accepts place [] }
{
    match place {
        Place::Whole | Place::Fraction | Place::Exponent => true,
        _ => false,
    }
}

/// Whether the byte is a digit.
pub fn is_digit(byte: u8) -> bool
    ensures { result ≡ is_digit byte }
{
    b'0' <= byte && byte <= b'9'
}

/// Whether the byte is `+` or `-`.
pub fn is_sign(byte: u8) -> bool
    ensures { result ≡ is_sign byte }
{
    byte == b'+' || byte == b'-'
}

/// Whether the byte begins an exponent: `e` or `E`.
pub fn is_mark(byte: u8) -> bool
    ensures { result ≡ is_mark byte }
{
    byte == b'e' || byte == b'E'
}

/// Where the exponent's mark stands, or the end.
pub fn mark_at(text: &[u8]) -> usize
    ensures within { result ≤ length text.now }
    ensures front { before_mark text.now ≡ take result text.now }
    ensures back { after_mark text.now ≡ drop (result + 1) text.now }
{
    for at in 0..text.len() {
        if is_mark(text[at]) {
            return at;
        }
    }
    text.len()
}

/// How many bytes stand behind the point.
pub fn decimals(front: &[u8]) -> usize
    ensures { result ≡ length (after_point front.now) }
{
    for at in 0..front.len() {
        if front[at] == b'.' {
            return front.len() - at - 1;
        }
    }
    0
}

/// Whether a text begins with `-`.
pub fn is_negative(text: &[u8]) -> bool
    ensures { result ≡ is_negative text.now }
{
    match text {
        [] => false,
        [first, ..] => *first == b'-',
    }
}

/// The number that the digits make, or the limit where it is greater.
pub fn capped_number(text: &[u8]) -> u128
    ensures { result ≡ min (digits_number text.now) (10 ^ 30) }
{
    let mut number: u128 = 0;
    for byte in text {
        if is_digit(*byte) {
            number = (number * 10 + (*byte - b'0') as u128).min(CAP);
        }
    }
    number
}

/// Above each exponent that some text can make up for by its zeros.
const CAP: u128 = 1_000_000_000_000_000_000_000_000_000_000;

/// The significant digits of a text.
pub fn significant_of(text: &[u8]) -> Significant
    ensures kept { Keeps result (digits_number text.now) }
    ensures few { result.zeros ≤ length text.now }
{
    let mut kept = Significant {
        digits: 0,
        zeros: 0,
        is_long: false,
    };
    for byte in text {
        if is_digit(*byte) {
            kept = with_digit(kept, *byte - b'0');
        }
    }
    kept
}

fn with_digit(kept: Significant, digit: u8) -> Significant
    requires digit { digit < 10 }
    requires room { kept.zeros + 1 < 2 ^ 64 }
    requires short { kept.is_long ≡ false → kept.digits < 10 ^ 34 }
    ensures kept { (n : ℕ) → Keeps kept n → Keeps result (n * 10 + digit) }
    ensures few { result.zeros ≤ kept.zeros + 1 }
{
    if kept.is_long {
        kept
    } else if kept.digits == 0 {
        Significant {
            digits: digit as u128,
            zeros: 0,
            is_long: false,
        }
    } else if digit == 0 {
        Significant {
            digits: kept.digits,
            zeros: kept.zeros + 1,
            is_long: false,
        }
    } else {
        with_last_digit(kept.digits, kept.zeros, digit)
    }
}

/// Behind the zeros comes a digit that is none.
fn with_last_digit(digits: u128, zeros: usize, digit: u8) -> Significant
    requires digit { digit < 10 }
    requires some { 0 < digits }
    requires few { digits < 10 ^ 34 }
    ensures long { result.is_long ≡ true → 10 ^ 34 ≤ digits * 10 ^ (zeros + 1) + digit }
    ensures short { result.is_long ≡ false → result.digits ≡ digits * 10 ^ (zeros + 1) + digit }
    ensures few { result.is_long ≡ false → result.digits < 10 ^ 34 }
    ensures zeros { result.zeros ≡ 0 }
{
    let long = Significant {
        digits: 0,
        zeros: 0,
        is_long: true,
    };
    if zeros > 33 {
        return long;
    }
    let unit = ten_to(zeros as u32 + 1);
    if digits > LONGEST / unit {
        return long;
    }
    let digits = digits * unit + digit as u128;
    if digits > LONGEST {
        return long;
    }
    Significant {
        digits,
        zeros: 0,
        is_long: false,
    }
}

/// The greatest number of 34 digits.
const LONGEST: u128 = 9_999_999_999_999_999_999_999_999_999_999_999;
