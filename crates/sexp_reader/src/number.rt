//! Tokens that spell integers, and those that spell other numbers.

ghost use Rattle.std.specs.Prelude.{◌≡◌, ◌≤◌, ◌^◌, ◌+◌, ◌*◌, MatchOption};
ghost use Rattle.std.specs.List.{list_all};
ghost use Rattle.sexp_reader.specs.Bytes.{is_digit};
ghost use Rattle.sexp_reader.specs.Numbers.{digit_of, is_digit_in, behind_sign, has_minus, are_digits, is_integer, value, signed, integer_of, behind_digits, begins_with_digit, is_exponent, is_fraction, is_exponent_or_none, is_point_and_digits, is_scaled, is_number_form};

use crate::byte::{digits_len, is_digit, upper};

// What a digit counts in any base up to 36; for what is no digit, too much for a base.
fn digit_of(byte: u8) -> u8
    ensures { result ≡ digit_of byte }
{
    if is_digit(byte) {
        return byte - b'0';
    }
    let letter = upper(byte);
    if letter >= b'A' && letter <= b'Z' {
        letter - b'A' + 10
    } else {
        255
    }
}

fn behind_sign(token: &[u8]) -> &[u8]
    ensures { result.now ≡ behind_sign token.now }
{
    match token {
        [b'+', rest @ ..] => rest,
        [b'-', rest @ ..] => rest,
        _ => token,
    }
}

fn has_minus(token: &[u8]) -> bool
    ensures { result ≡ has_minus token.now }
{
    match token {
        [b'-', ..] => true,
        _ => false,
    }
}

fn are_digits_in(base: u8, bytes: &[u8]) -> bool
    ensures { result ≡ list_all (is_digit_in base) bytes.now }
{
    bytes.iter().all(|byte| digit_of(*byte) < base)
}

// One digit or more.
fn are_digits(base: u8, bytes: &[u8]) -> bool
    ensures { result ≡ are_digits base bytes.now }
{
    bytes.len() > 0 && are_digits_in(base, bytes)
}

/// Whether a token spells an integer in this base: an optional sign, and one digit or more.
pub fn is_integer(base: u8, token: &[u8]) -> bool
    ensures { result ≡ is_integer base token.now }
{
    are_digits(base, behind_sign(token))
}

// The number that digits spell. None where it has more than 128 bits.
fn magnitude(base: u8, digits: &[u8]) -> Option<u128>
    ensures { MatchOption result (2 ^ 128 ≤ value base 0 digits.now) (λ n. value base 0 digits.now ≡ n) }
{
    let mut number: u128 = 0;
    for digit in digits {
        let Some(higher) = number.checked_mul(u128::from(base)) else {
            return None;
        };
        let Some(sum) = higher.checked_add(u128::from(digit_of(*digit))) else {
            return None;
        };
        number = sum;
    }
    Some(number)
}

fn signed(below_zero: bool, number: u128) -> Option<i128>
    ensures { result ≡ signed below_zero number }
{
    match i128::try_from(number) {
        Ok(number) => Some(if below_zero { -number } else { number }),
        Err(_) => (below_zero && number == 1 << 127).then_some(i128::MIN),
    }
}

/// The integer that a token spells in this base, where 128 bits hold it.
pub fn integer(base: u8, token: &[u8]) -> Option<i128>
    ensures { result ≡ integer_of base token.now }
{
    signed(has_minus(token), magnitude(base, behind_sign(token))?)
}

fn behind_digits(bytes: &[u8]) -> &[u8]
    ensures { result.now ≡ behind_digits bytes.now }
{
    &bytes[digits_len(bytes)..]
}

fn begins_with_digit(bytes: &[u8]) -> bool
    ensures { result ≡ begins_with_digit bytes.now }
{
    match bytes {
        [] => false,
        [byte, ..] => is_digit(*byte),
    }
}

fn are_all_digits(bytes: &[u8]) -> bool
    ensures { result ≡ list_all is_digit bytes.now }
{
    bytes.iter().all(|byte| is_digit(*byte))
}

// One of e s f d l in either case, an optional sign, and one digit or more.
fn is_exponent(bytes: &[u8]) -> bool
    ensures { result ≡ is_exponent bytes.now }
{
    match bytes {
        [] => false,
        [byte, rest @ ..] => b"ESFDL".contains(&upper(*byte)) && are_digits(10, behind_sign(rest)),
    }
}

// A point or a slash, and then only digits, maybe none.
fn is_fraction(bytes: &[u8]) -> bool
    ensures { result ≡ is_fraction bytes.now }
{
    match bytes {
        [] => false,
        [byte, rest @ ..] => (*byte == b'.' || *byte == b'/') && are_all_digits(rest),
    }
}

// A point and one digit or more, and maybe an exponent.
fn is_point_and_digits(bytes: &[u8]) -> bool
    ensures { result ≡ is_point_and_digits bytes.now }
{
    match bytes {
        [] => false,
        [byte, rest @ ..] => {
            *byte == b'.' && begins_with_digit(rest) && is_exponent_or_none(behind_digits(rest))
        }
    }
}

fn is_exponent_or_none(bytes: &[u8]) -> bool
    ensures { result ≡ is_exponent_or_none bytes.now }
{
    bytes.is_empty() || is_exponent(bytes)
}

// An exponent, or a point and digits, maybe none, and an exponent.
fn is_scaled(bytes: &[u8]) -> bool
    ensures { result ≡ is_scaled bytes.now }
{
    match bytes {
        [] => false,
        [byte, rest @ ..] => is_exponent(bytes)
            || *byte == b'.' && is_exponent(behind_digits(rest)),
    }
}

/// Whether a token spells a number that is written as no integer is: a ratio, a decimal fraction, or
/// one with an exponent.
pub fn is_number_form(token: &[u8]) -> bool
    ensures { result ≡ is_number_form token.now }
{
    let number = behind_sign(token);
    let rest = behind_digits(number);
    let begins = begins_with_digit(number);
    begins && is_fraction(rest) || is_point_and_digits(rest) || begins && is_scaled(rest)
}
