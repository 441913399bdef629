//! The bytes of a text, by what they can stand for.

ghost use Rattle.std.specs.Prelude.{◌≡◌, ◌==◌, ◌≤◌, not, map, length, IfOk};
ghost use Rattle.sexp_reader.specs.Bytes.{is_white, is_constituent, is_printable, is_string_byte, ends_token, is_digit, upper, run};

use gl_logic::NoMemory;
use std::alloc::Global;

/// Tab, line feed, form feed, carriage return and space.
pub fn is_white(byte: u8) -> bool
    ensures { result ≡ is_white byte }
{
    byte == 9 || byte == 10 || byte == 12 || byte == 13 || byte == 32
}

fn ends_token(byte: u8) -> bool
    ensures { result ≡ ends_token byte }
{
    [b'(', b')', b'"', b'\'', b'`', b',', b';', b'|', b'\\'].contains(&byte)
}

/// Whether tokens are made of this byte.
pub fn is_constituent(byte: u8) -> bool
    ensures { result ≡ is_constituent byte }
{
    byte >= 33 && byte <= 126 && !ends_token(byte)
}

/// Whether the byte can be seen, or is a space.
pub fn is_printable(byte: u8) -> bool
    ensures { result ≡ is_printable byte }
{
    byte >= 32 && byte <= 126
}

/// Whether strings are made of this byte.
pub fn is_string_byte(byte: u8) -> bool
    ensures { result ≡ is_string_byte byte }
{
    is_printable(byte) || byte == 9 || byte == 10 || byte == 13
}

/// A decimal digit.
pub fn is_digit(byte: u8) -> bool
    ensures { result ≡ is_digit byte }
{
    byte >= b'0' && byte <= b'9'
}

/// A small letter as the capital one; any other byte as it is.
pub fn upper(byte: u8) -> u8
    ensures { result ≡ upper byte }
{
    if byte >= b'a' && byte <= b'z' {
        byte - 32
    } else {
        byte
    }
}

/// The bytes with their small letters as capital ones.
pub fn upper_case(alloc: Global, bytes: &[u8]) -> Result<Vec<u8>, NoMemory>
    ensures { IfOk result (λ name. name.items ≡ map upper bytes.now) }
{
    Ok(bytes.iter().map(|byte| upper(*byte)).collect(alloc)?)
}

/// The length of the longest front of bytes that tokens are made of.
pub fn token_len(bytes: &[u8]) -> usize
    ensures { result ≡ run is_constituent bytes.now }
{
    for (i, byte) in bytes.iter().enumerate() {
        if !is_constituent(*byte) {
            return i;
        }
    }
    bytes.len()
}

/// The length of the longest front of decimal digits.
pub fn digits_len(bytes: &[u8]) -> usize
    ensures told { result ≡ run is_digit bytes.now }
    ensures within { result ≤ length bytes.now }
{
    for (i, byte) in bytes.iter().enumerate() {
        if !is_digit(*byte) {
            return i;
        }
    }
    bytes.len()
}

/// How many bytes stand before the end of the line.
pub fn line_len(bytes: &[u8]) -> usize
    ensures told { result ≡ run (λ byte. not (byte == 10)) bytes.now }
    ensures within { result ≤ length bytes.now }
{
    for (i, byte) in bytes.iter().enumerate() {
        if *byte == b'\n' {
            return i;
        }
    }
    bytes.len()
}
