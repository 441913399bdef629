//! Forms: their words, what stands behind their heads, and the options of an event.

ghost use Rattle.std.specs.Prelude.{◌≡◌, IfOk};
ghost use Rattle.std.specs.Option.{option_map};
ghost use Rattle.sexp_print.specs.Printed.{printed as printed_meant};
ghost use Rattle.explain_findings.specs.Forms.{word_of as word_meant, head_of as head_meant, name_in as name_meant};

use gl_logic::{NoMemory, TextId, Texts, Tree, TreeKind};
use sexp_print::print;
use std::alloc::Global;

/// How many parts of a form are looked into.
const MOST_PARTS: usize = 4000;

/// How many pieces of a form are written: more than a book has.
const MOST_PIECES: usize = 20_000_000;

/// The word that an object is; empty where it is no symbol.
pub fn word_of<'a>(texts: &'a Texts, tree: &Tree) -> &'a [u8]
    ensures { result.now ≡ word_meant texts.now tree.now }
{
    match tree.kind() {
        TreeKind::Symbol(name) => texts.text(name),
        _ => &[],
    }
}

/// The word with which a form begins.
pub fn head_of<'a>(texts: &'a Texts, form: &Tree) -> &'a [u8]
    ensures { result.now ≡ head_meant texts.now form.now }
{
    match form.elements() {
        [.., head] => word_of(texts, head),
        [] => &[],
    }
}

/// The symbol behind the head of a form.
pub fn name_in(form: &Tree) -> Option<TextId>
    ensures { option_map (λ t. t.number) result ≡ name_meant form.now }
{
    match form.elements() {
        [.., name, _] => match name.kind() {
            TreeKind::Symbol(name) => Some(name),
            _ => None,
        },
        _ => None,
    }
}

/// What stands behind the head of a form, from the last to the first.
pub(crate) fn operands(form: &Tree) -> &[Tree] {
    match form.elements() {
        [rest @ .., _] => rest,
        [] => &[],
    }
}

/// An element of a form by its number, from 0 for the head.
pub(crate) fn element(form: &Tree, number: usize) -> Option<&Tree> {
    let all = form.elements();
    if number < all.len() {
        Some(&all[all.len() - 1 - number])
    } else {
        None
    }
}

/// What stands behind a keyword of an event.
pub(crate) fn option_of<'a>(texts: &Texts, form: &'a Tree, keyword: &[u8]) -> Option<&'a Tree> {
    for number in 0..form.elements().len() {
        if let Some(part) = element(form, number) {
            if word_of(texts, part) == keyword {
                return element(form, number.saturating_add(1));
            }
        }
    }
    None
}

/// The form of a theorem's bindings; of one by cases those of its cover.
pub(crate) fn bindings_form<'a>(texts: &Texts, form: &'a Tree) -> Option<&'a Tree> {
    match option_of(texts, form, b":G-BINDINGS") {
        Some(found) => Some(found),
        None => option_of(texts, form, b":COV-BINDINGS"),
    }
}

/// Whether a word is one of a list of words, which are parted by blanks, whatever its case.
pub fn is_among(word: &[u8], words: &str) -> bool {
    for other in words.split_whitespace() {
        if word.eq_ignore_ascii_case(other.as_bytes()) {
            return true;
        }
    }
    false
}

/// The bytes of an object.
pub(crate) fn printed(alloc: Global, tree: &Tree, texts: &Texts) -> Result<Vec<u8>, NoMemory>
    ensures { IfOk result (λ bytes. bytes.items ≡ printed_meant texts.now tree.now) }
{
    let mut bytes = Vec::new(alloc);
    print(alloc, tree, texts, &mut bytes)?;
    Ok(bytes)
}

/// A backquote or a comma, where a form is one in front of another form; and a quote, where these are written as marks too.
fn mark_of(texts: &Texts, form: &Tree, marks_quotes: bool) -> Option<&'static str> {
    let is_pair = form.elements().len() == 2 && word_of(texts, form.tail()) == b"NIL".as_slice();
    let head = head_of(texts, form);
    if is_pair && head == b"`".as_slice() {
        Some("`")
    } else if is_pair && head == b",".as_slice() {
        Some(",")
    } else if is_pair && marks_quotes && head == b"QUOTE".as_slice() {
        Some("'")
    } else {
        None
    }
}

/// What is left to be written of a form: a form, or bytes.
#[derive(Clone, Copy)]
enum Left<'a> {
    Form(&'a Tree),
    Bytes(&'static str),
}

/// Puts what a list's text has behind its parenthesis on a stack, the last of it first.
fn push_list<'a>(texts: &Texts, list: &'a Tree, left: &mut Vec<Left<'a>>) -> Result<(), NoMemory> {
    left.push(Left::Bytes(")"))?;
    if word_of(texts, list.tail()) != b"NIL".as_slice() {
        left.push(Left::Form(list.tail()))?;
        left.push(Left::Bytes(" . "))?;
    }
    for (i, element) in list.elements().iter().enumerate() {
        left.push(Left::Bytes(if i == 0 { "" } else { " " }))?;
        left.push(Left::Form(element))?;
    }
    Ok(())
}

/// Writes what the text of a form begins with, and puts what is left of it on the stack.
fn put_front<'a>(
    alloc: Global,
    texts: &Texts,
    form: &'a Tree,
    marks_quotes: bool,
    bytes: &mut Vec<u8>,
    left: &mut Vec<Left<'a>>,
) -> Result<(), NoMemory> {
    match mark_of(texts, form, marks_quotes) {
        Some(mark) => {
            bytes.extend_from_slice(mark.as_bytes())?;
            for inner in form.elements().iter().take(1) {
                left.push(Left::Form(inner))?;
            }
        }
        None if form.elements().is_empty() => print(alloc, form, texts, bytes)?,
        None => {
            bytes.push(b'(')?;
            push_list(texts, form, left)?;
        }
    }
    Ok(())
}

/// The text of a form, with a stack for what is left of it.
fn text_of(
    alloc: Global,
    form: &Tree,
    texts: &Texts,
    marks_quotes: bool,
) -> Result<Vec<u8>, NoMemory> {
    let mut bytes = Vec::new(alloc);
    let mut left = Vec::new(alloc);
    left.push(Left::Form(form))?;
    for _ in 0..MOST_PIECES {
        match left.pop() {
            None => return Ok(bytes),
            Some(Left::Bytes(piece)) => bytes.extend_from_slice(piece.as_bytes())?,
            Some(Left::Form(part)) => {
                put_front(alloc, texts, part, marks_quotes, &mut bytes, &mut left)?;
            }
        }
    }
    Ok(bytes)
}

/// The text of a form, which reads as the form again: a backquote and a comma stand in front of what they are of.
pub(crate) fn form_text(alloc: Global, form: &Tree, texts: &Texts) -> Result<Vec<u8>, NoMemory> {
    text_of(alloc, form, texts, false)
}

/// The same, and so does a quote.
pub(crate) fn quoting_text(alloc: Global, form: &Tree, texts: &Texts) -> Result<Vec<u8>, NoMemory> {
    text_of(alloc, form, texts, true)
}

/// The text of an event, in which a quote stands in front of each option that is quoted.
pub(crate) fn event_text(alloc: Global, form: &Tree, texts: &Texts) -> Result<Vec<u8>, NoMemory> {
    let mut bytes = Vec::new(alloc);
    for number in 0..form.elements().len() {
        if let Some(part) = element(form, number) {
            bytes.push(if number == 0 { b'(' } else { b' ' })?;
            let is_quoted = head_of(texts, part) == b"QUOTE".as_slice();
            match element(part, 1) {
                Some(object) if is_quoted => {
                    bytes.push(b'\'')?;
                    bytes.extend_from_slice(&form_text(alloc, object, texts)?)?;
                }
                _ => bytes.extend_from_slice(&form_text(alloc, part, texts)?)?,
            }
        }
    }
    bytes.push(b')')?;
    Ok(bytes)
}

/// A part of a term, and how deep it stands in it.
#[derive(Clone, Copy)]
pub(crate) struct Part<'a> {
    pub tree: &'a Tree,
    pub depth: usize,
}

/// Which calls are parted: those of some functions, down to a depth; and whether they themselves are kept.
#[derive(Clone, Copy)]
struct Parting {
    heads: &'static str,
    deepest: usize,
    keeps_calls: bool,
}

/// Puts the operands of a call on a stack.
fn push_operands<'a>(left: &mut Vec<Part<'a>>, call: Part<'a>) -> Result<(), NoMemory> {
    for operand in operands(call.tree) {
        left.push(Part {
            tree: operand,
            depth: call.depth.saturating_add(1),
        })?;
    }
    Ok(())
}

/// Takes what is left on a stack to be parted apart.
fn part_all<'a>(
    texts: &Texts,
    parting: Parting,
    left: &mut Vec<Part<'a>>,
    found: &mut Vec<Part<'a>>,
) -> Result<(), NoMemory> {
    for _ in 0..MOST_PARTS {
        let Some(part) = left.pop() else {
            return Ok(());
        };
        let is_parted = part.depth < parting.deepest
            && is_among(head_of(texts, part.tree), parting.heads);
        if parting.keeps_calls || !is_parted {
            found.push(part)?;
        }
        if is_parted {
            push_operands(left, part)?;
        }
    }
    Ok(())
}

/// A term in front of the parts that its calls have, as far as they are parted.
fn parted<'a>(
    alloc: Global,
    texts: &Texts,
    term: &'a Tree,
    parting: Parting,
) -> Result<Vec<Part<'a>>, NoMemory> {
    let mut found = Vec::new(alloc);
    let mut left = Vec::new(alloc);
    left.push(Part {
        tree: term,
        depth: 0,
    })?;
    part_all(texts, parting, &mut left, &mut found)?;
    Ok(found)
}

/// The conjuncts of a hypothesis, in the order of the text.
pub(crate) fn conjuncts<'a>(
    alloc: Global,
    texts: &Texts,
    hyp: &'a Tree,
) -> Result<Vec<Part<'a>>, NoMemory> {
    let parting = Parting {
        heads: "AND",
        deepest: MOST_PARTS,
        keeps_calls: false,
    };
    parted(alloc, texts, hyp, parting)
}

/// Whether a symbol stands outside quotes in what is left on a stack.
fn is_left<'a>(texts: &Texts, name: &[u8], left: &mut Vec<&'a Tree>) -> Result<bool, NoMemory> {
    for _ in 0..MOST_PARTS {
        let Some(part) = left.pop() else {
            return Ok(false);
        };
        if word_of(texts, part) == name {
            return Ok(true);
        }
        if head_of(texts, part) != b"QUOTE".as_slice() {
            for inner in part.elements() {
                left.push(inner)?;
            }
        }
    }
    Ok(false)
}

/// Whether a symbol stands in a term outside quotes.
pub(crate) fn speaks_of(
    alloc: Global,
    texts: &Texts,
    term: &Tree,
    name: &[u8],
) -> Result<bool, NoMemory> {
    let mut left = Vec::new(alloc);
    left.push(term)?;
    is_left(texts, name, &mut left)
}
