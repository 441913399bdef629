//! Parts of a text.

ghost use Rattle.std.specs.Prelude.{◌≡◌, ◌+◌, ◌-◌, ◌^◌, ◌≤◌, min, get_or, length};
ghost use Rattle.std.specs.Str.{str_eq_ignore_ascii_case};
ghost use Rattle.memchr.specs.Find.{is_byte, places, IsLastByte};
ghost use Rattle.sexp_reader.specs.Bytes.{run};
ghost use Rattle.book_faults.specs.Parts.{part_of, without_package as without_package_meant, ends_token, goes_on, token_of, before_offset};

use memchr::{memchr, memchr_iter, memrchr};

/// A part of a text, by the offset of its first byte and the one behind its last.
#[derive(Clone, Copy, Debug, PartialEq, Eq)]
pub struct Span {
    pub start: usize,
    pub end: usize,
}

impl Span {
    /// The part from an offset up to another.
    pub fn new(start: usize, end: usize) -> Span
        ensures { (result.start ≡ start) × (result.end ≡ end) }
    {
        Span { start, end }
    }

    /// The part so many bytes on.
    pub fn moved(self, by: usize) -> Span
        ensures start { result.start ≡ min (self.start + by) (2 ^ 64 - 1) }
        ensures end { result.end ≡ min (self.end + by) (2 ^ 64 - 1) }
    {
        Span::new(self.start.saturating_add(by), self.end.saturating_add(by))
    }
}

/// All of a text.
pub fn whole(text: &[u8]) -> Span
    ensures { (result.start ≡ 0) × (result.end ≡ length text.now) }
{
    Span::new(0, text.len())
}

/// The bytes of a part, and none where the text has no such part.
pub fn cut(text: &[u8], span: Span) -> &[u8]
    ensures { result.now ≡ part_of text.now span.start span.end }
{
    if span.start <= span.end && span.end <= text.len() {
        &text[span.start..span.end]
    } else {
        &[]
    }
}

/// A byte of a text, and 0 behind its end.
pub fn byte_at(text: &[u8], offset: usize) -> u8
    ensures { result ≡ get_or text.now offset 0 }
{
    if offset < text.len() { text[offset] } else { 0 }
}

/// Whether a token ends in front of the byte.
fn ends_token(byte: u8) -> bool
    ensures { result ≡ ends_token byte }
{
    byte <= 32 || [b'(', b')', b'"', b'\'', b'`', b',', b';'].contains(&byte)
}

/// The length of the token with which a text begins.
pub fn token_len(text: &[u8]) -> usize
    ensures told { result ≡ run goes_on text.now }
    ensures within { result ≤ length text.now }
{
    for (i, byte) in text.iter().enumerate() {
        if ends_token(*byte) {
            return i;
        }
    }
    text.len()
}

/// The token with which a part begins: no byte where it begins otherwise.
pub fn token(text: &[u8], span: Span) -> &[u8]
    ensures { result.now ≡ token_of text.now span }
{
    let bytes = cut(text, span);
    let end = token_len(bytes);
    cut(bytes, Span::new(0, end))
}

/// The token around an offset; the byte there where it ends one.
pub fn word_around(text: &[u8], at: usize) -> Span {
    let mut start = at;
    for _ in 0..at {
        if start > 0 && !ends_token(byte_at(text, start.saturating_sub(1))) {
            start = start.saturating_sub(1);
        } else {
            break;
        }
    }
    let count = token(text, Span::new(at, text.len())).len().max(1);
    Span::new(start, at.saturating_add(count).min(text.len()))
}

/// Whether two words differ in case alone.
pub fn is_word(word: &[u8], other: &[u8]) -> bool
    ensures { result ≡ str_eq_ignore_ascii_case word.now other.now }
{
    word.eq_ignore_ascii_case(other)
}

/// A name without the prefix of a package that is dropped.
pub fn without_package(word: &[u8]) -> &[u8]
    ensures { result.now ≡ without_package_meant word.now }
{
    let end = word.len();
    if is_word(cut(word, Span::new(0, 6)), b"acl2::") {
        cut(word, Span::new(6, end))
    } else if is_word(cut(word, Span::new(0, 4)), b"gl::") {
        cut(word, Span::new(4, end))
    } else {
        word
    }
}

/// The number of the line in which an offset stands, from 1.
pub fn line_of(text: &[u8], offset: usize) -> u64
    ensures { result ≡ 1 + length (places (is_byte 10) (part_of text.now 0 offset)) }
{
    let before = memchr_iter(b'\n', cut(text, Span::new(0, offset))).count() as u64;
    before.saturating_add(1)
}

/// Where the line of an offset begins.
pub fn line_start(text: &[u8], offset: usize) -> usize
    // It is behind the last line feed in front of the offset.
    ensures start { IsLastByte (is_byte 10) (part_of text.now 0 offset) (before_offset result) }
    ensures within { result ≤ offset }
{
    match memrchr(b'\n', cut(text, Span::new(0, offset))) {
        Some(end) => end.saturating_add(1),
        None => 0,
    }
}

/// Where the line of an offset ends.
pub fn line_end(text: &[u8], offset: usize) -> usize {
    match memchr(b'\n', cut(text, Span::new(offset, text.len()))) {
        Some(length) => offset.saturating_add(length),
        None => text.len(),
    }
}

/// The column of an offset in its line, in bytes from 1.
pub fn column_of(text: &[u8], offset: usize) -> u64 {
    let before = offset.saturating_sub(line_start(text, offset)) as u64;
    before.saturating_add(1)
}
