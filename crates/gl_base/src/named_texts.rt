ghost use Rattle.std.specs.Prelude.{◌≡◌, ◌++◌, min, length, take, drop, Some, None, IsSome, IfSome, IfNone, unwrap_or, [], is_some};
ghost use Rattle.gl_base.specs.NamedTexts.{named, text_named, text_at, closed};

use std::marker::Model;

/// Named texts, one of them open.
#[derive(Drop)]
pub struct NamedTexts {
    texts: Vec<(String, Vec<u8>)>,
    // the number of the open text, that of no text for one that is absent
    current: Option<usize>,
    // how much of it is read
    at: usize,
}

impl Model for NamedTexts {
    ghost use Rattle.std.specs.Prelude.{◌≤◌, length, drop, IfSome, option_map};
    ghost use Rattle.gl_base.specs.NamedTexts.{named, text_at, Reading};

    ghost Value = { Reading };

    ghost view = { λ t. record { texts = named t.texts.items; rest = option_map (λ n. drop t.at (text_at (named t.texts.items) n)) t.current } };

    ghost invariant = { λ t. IfSome t.current (λ n. t.at ≤ length (text_at (named t.texts.items) n)) };
}

impl NamedTexts {
    /// No text is open.
    pub fn new(texts: Vec<(String, Vec<u8>)>) -> NamedTexts
        ensures { result ≡ closed (named texts.items) }
    {
        NamedTexts {
            texts,
            current: None,
            at: 0,
        }
    }

    /// No text is open any more.
    pub fn close(&mut self)
        ensures { self.new ≡ closed self.old.texts }
    {
        self.current = None;
    }

    /// Opens the text with this name, and tells whether there is one. Where there is none, no text is open.
    pub fn open(&mut self, name: &str) -> bool
        ensures found { result ≡ is_some (text_named self.old.texts name.now) }
        ensures opened { self.new ≡ record self.old { rest = text_named self.old.texts name.now } }
    {
        self.current = number_of(self.texts.as_slice(), name);
        self.at = 0;
        self.current.is_some()
    }

    /// Opens the text with this name, the empty text where there is none.
    pub fn open_or_empty(&mut self, name: &str)
        ensures { self.new ≡ record self.old { rest = Some (unwrap_or (text_named self.old.texts name.now) []) } }
    {
        self.current = Some(number_or_past(self.texts.as_slice(), name));
        self.at = 0;
    }

    /// Reads the next bytes of the open text into the front of `buf`, and tells how many.
    pub fn read(&mut self, buf: &mut [u8]) -> usize
        requires { IsSome self.old.rest }
        ensures count { IfSome self.old.rest (λ left. result ≡ min (length left) (length buf.old)) }
        ensures bytes { IfSome self.old.rest (λ left. buf.new ≡ take result left ++ drop result buf.old) }
        ensures left { IfSome self.old.rest (λ left. self.new ≡ record self.old { rest = Some (drop result left) }) }
    {
        let Some(number) = self.current else {
            unreachable!()
        };
        let text = text_with(self.texts.as_slice(), number);
        let count = copy_front(&text[self.at..], buf);
        self.at += count;
        count
    }
}

/// The number of the first text with this name.
fn number_of(texts: &[(String, Vec<u8>)], name: &str) -> Option<usize>
    ensures found { IfSome result (λ n. text_named (named texts.now) name.now ≡ Some (text_at (named texts.now) n)) }
    ensures absent { IfNone result (text_named (named texts.now) name.now ≡ None) }
{
    for i in 0..texts.len() {
        let text = &texts[i];
        if text.0.as_str() == name {
            return Some(i);
        }
    }
    None
}

/// The number of the first text with this name, a number past the last where there is none.
fn number_or_past(texts: &[(String, Vec<u8>)], name: &str) -> usize
    ensures { text_at (named texts.now) result ≡ unwrap_or (text_named (named texts.now) name.now) [] }
{
    match number_of(texts, name) {
        Some(number) => number,
        None => texts.len(),
    }
}

/// The bytes of the text with this number, none where there is no such text.
fn text_with(texts: &[(String, Vec<u8>)], number: usize) -> &[u8]
    ensures { result.now ≡ text_at (named texts.now) number }
{
    if number < texts.len() {
        texts[number].1.as_slice()
    } else {
        &[]
    }
}

/// Copies as much as there is, and as there is room for, and tells how much.
fn copy_front(from: &[u8], to: &mut [u8]) -> usize
    ensures count { result ≡ min (length from.now) (length to.old) }
    ensures bytes { to.new ≡ take result from.now ++ drop result to.old }
{
    let count = from.len().min(to.len());
    to[..count].copy_from_slice(&from[..count]);
    count
}
