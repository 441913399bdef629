//! The lines of a text, and the words of a line.

ghost use Rattle.std.specs.Prelude.{◌≡◌, ◌≢◌, ◌≤◌, ◌<◌, ◌+◌, ◌-◌, ◌^◌, ℕ, [], ◌∷◌, true, false, length, take, drop, get_or, All, IfSome, IfNone, Option};
ghost use Rattle.lrat_tool.specs.Words.{is_blank, lines_behind, lines_of, words_in, words_of};
ghost use Rattle.lrat_tool.specs.Places.{IsLineIn, IsSpanIn, rest_of, word_of};
ghost use Rattle.lrat_tool.specs.Formulas.{last_line};

/// A line of a text.
#[derive(Clone, Copy, Debug, PartialEq, Eq)]
pub(crate) struct Line {
    /// Its number, from 1.
    pub number: u32,
    /// Where the words begin that are not read yet.
    pub begin: usize,
    /// Where it ends: at a byte 10, or at the text's end.
    pub end: usize,
}

/// Where a word stands.
#[derive(Clone, Copy, Debug, PartialEq, Eq)]
pub(crate) struct Span {
    pub begin: usize,
    pub end: usize,
}

impl Span {
    /// The word.
    pub(crate) fn word<'a>(&self, text: &'a [u8]) -> &'a [u8]
        requires { IsSpanIn self.now (length text.now) }
        ensures { result.now ≡ word_of text.now self.now }
    {
        &text[self.begin..self.end]
    }
}

/// Whether a byte parts words.
fn is_blank(byte: u8) -> bool
    ensures { result ≡ is_blank byte }
{
    byte == b' ' || (byte == b'\t' || (byte == b'\r' || byte == b'\n'))
}

/// Where the line ends that begins at a place: at the next byte 10, or at the text's end.
pub(crate) fn line_end(text: &[u8], from: usize) -> usize
    requires { from ≤ length text.now }
    ensures after { from ≤ result }
    ensures within { result ≤ length text.now }
    ensures lines { lines_of (drop from text.now) ≡ take (result - from) (drop from text.now) ∷ lines_behind text.now result }
    ensures ends { result < length text.now → get_or text.now result 0 ≡ 10 }
{
    let mut at = from;
    while at < text.len() && text[at] != b'\n' {
        at += 1;
    }
    at
}

/// Where the next word begins: at the next byte that is no blank, or at the line's end.
fn word_begin(line: &[u8], from: usize) -> usize
    requires { from ≤ length line.now }
    ensures after { from ≤ result }
    ensures within { result ≤ length line.now }
    ensures words { words_of (drop result line.now) ≡ words_of (drop from line.now) }
    ensures open { result < length line.now → is_blank (get_or line.now result 0) ≡ false }
{
    let mut at = from;
    while at < line.len() && is_blank(line[at]) {
        at += 1;
    }
    at
}

/// Where the word ends that begins at a place.
fn word_end(line: &[u8], from: usize) -> usize
    requires within { from < length line.now }
    requires open { is_blank (get_or line.now from 0) ≡ false }
    ensures after { from < result }
    ensures within { result ≤ length line.now }
    ensures words { words_of (drop from line.now) ≡ take (result - from) (drop from line.now) ∷ words_of (drop result line.now) }
{
    let mut at = from + 1;
    while at < line.len() && !is_blank(line[at]) {
        at += 1;
    }
    at
}

/// The line that begins at a place. A comment has no words.
pub(crate) fn line_at(text: &[u8], from: usize, number: u32) -> Line
    requires from { from ≤ length text.now }
    requires number { number ≤ from + 1 }
    ensures number { result.number ≡ number }
    ensures after { from ≤ result.begin }
    ensures within { IsLineIn result (length text.now) }
    ensures lines { lines_of (drop from text.now) ≡ take (result.end - from) (drop from text.now) ∷ lines_behind text.now result.end }
    ensures words { words_in (take (result.end - from) (drop from text.now)) ≡ rest_of text.now result }
{
    let end = line_end(text, from);
    let begin = if from < end && text[from] == b'c' {
        end
    } else {
        from
    };
    Line { number, begin, end }
}

/// The next word of a line. It is then read.
pub(crate) fn next_word(text: &[u8], line: &mut Line) -> Option<Span>
    requires { IsLineIn line.old (length text.now) }
    ensures none { IfNone result (rest_of text.now line.old ≡ []) }
    ensures some { IfSome result (λ s. rest_of text.now line.old ≡ word_of text.now s ∷ rest_of text.now line.new) }
    ensures within { IsLineIn line.new (length text.now) }
    ensures span { IfSome result (λ s. IsSpanIn s (length text.now)) }
    ensures further { IfSome result (λ s. line.old.begin < line.new.begin) }
    ensures end { line.new.end ≡ line.old.end }
    ensures number { line.new.number ≡ line.old.number }
    ensures stayed { IfNone result (line.new ≡ line.old) }
{
    let bytes = &text[..line.end];
    let begin = word_begin(bytes, line.begin);
    if begin == line.end {
        return None;
    }
    let end = word_end(bytes, begin);
    line.begin = end;
    Some(Span { begin, end })
}

/// The number of the last line.
pub(crate) fn last_line(text: &[u8]) -> u32
    requires { length text.now < 4294967295 }
    ensures { result ≡ last_line text.now }
{
    let mut lines = 1;
    for byte in text {
        if *byte == b'\n' {
            lines += 1;
        }
    }
    lines
}
