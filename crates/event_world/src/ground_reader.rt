//! Reading of the ground definitions.

ghost use Rattle.std.specs.Prelude.{◌≡◌, ℕ, List, [], IfOk, OnOk, fold};
ghost use Rattle.gl_logic.specs.Names.{Extends, IsTable, with_name};
ghost use Rattle.event_world.specs.PreludeForms.{Source, Spells, AreAround, digit_in, leaf as leaf_read, with_word as word_read, opened_into, before_break, is_between as between_is, reading, forms_in, words_read};

use gl_logic::{NoMemory, Texts, Tree};
use std::alloc::Global;

/// Whether a byte is a blank or a parenthesis.
fn is_between(byte: u8) -> bool
    ensures { result ≡ between_is byte }
{
    byte == b' ' || byte == b'(' || byte == b')'
}

/// The number of one digit.
fn digit(word: &[u8]) -> Option<u8>
    ensures { result ≡ digit_in word.now }
{
    if word.len() == 1 && word[0] >= b'0' && word[0] <= b'9' {
        Some(word[0] - b'0')
    } else {
        None
    }
}

/// A word's object: of one digit the number, of any other the symbol.
fn leaf(word: &[u8], texts: &mut Texts) -> Result<Tree, NoMemory>
    ensures ok { IfOk result (λ t. Spells texts.new t (leaf_read word.now)) }
    ensures extends { Extends texts.old texts.new }
    ensures names { OnOk result (texts.new ≡ fold with_name texts.old (words_read (leaf_read word.now))) }
{
    if let Some(digit) = digit(word) {
        return Ok(Tree::int(i128::from(digit)));
    }
    let name = texts.id_of(word)?;
    Ok(Tree::symbol(name))
}

/// A word in front of a list, where there is one.
fn with_word(alloc: Global, word: &[u8], list: Tree, texts: &mut Texts) -> Result<Tree, NoMemory>
    ensures ok { (r : Source) → Spells texts.old list r → IfOk result (λ t. Spells texts.new t (word_read word.now r)) }
    ensures extends { Extends texts.old texts.new }
    ensures names { (names : List (List ℕ)) (r : Source) → texts.old ≡ fold with_name names (words_read r)
        → OnOk result (texts.new ≡ fold with_name names (words_read (word_read word.now r))) }
{
    if word.len() == 0 {
        return Ok(list);
    }
    let first = leaf(word, texts)?;
    Tree::pair(alloc, first, list)
}

/// The list that a parenthesis opens, in front of what stands behind it.
fn closed(alloc: Global, list: Tree, around: &mut Vec<Tree>) -> Result<Tree, NoMemory>
    ensures ok { (names : List (List ℕ)) (r : Source) (rs : List Source) → IsTable names → Spells names list r → AreAround names around.old.items rs
        → IfOk result (λ t. Spells names t (opened_into r rs).here) }
    ensures around { (names : List (List ℕ)) (r : Source) (rs : List Source) → AreAround names around.old.items rs
        → AreAround names around.new.items (opened_into r rs).around }
{
    match around.pop() {
        Some(next) => Tree::pair(alloc, list, next),
        None => Tree::pair(alloc, list, Tree::nil()),
    }
}

/// The list that stands before a blank or a parenthesis. `around` are the lists around it, the innermost
/// last.
fn before(alloc: Global, byte: u8, list: Tree, around: &mut Vec<Tree>) -> Result<Tree, NoMemory>
    ensures ok { (names : List (List ℕ)) (r : Source) (rs : List Source) → IsTable names → Spells names list r → AreAround names around.old.items rs
        → IfOk result (λ t. Spells names t (before_break byte r rs).here) }
    ensures around { (names : List (List ℕ)) (r : Source) (rs : List Source) → Spells names list r → AreAround names around.old.items rs
        → IfOk result (λ t. AreAround names around.new.items (before_break byte r rs).around) }
{
    if byte == b'(' {
        return closed(alloc, list, around);
    }
    if byte == b')' {
        around.push(list)?;
        return Ok(Tree::nil());
    }
    Ok(list)
}

/// The forms of a text, as a list: words, numbers of one digit, and lists. It is read from its end, so
/// that each list is made from its last element to its first.
pub(crate) fn forms_of(alloc: Global, text: &[u8], texts: &mut Texts) -> Result<Tree, NoMemory>
    ensures ok { IfOk result (λ t. Spells texts.new t (forms_in text.now)) }
    ensures extends { Extends texts.old texts.new }
    ensures names { (reading text.now).around ≡ [] → OnOk result (texts.new ≡ fold with_name texts.old (words_read (forms_in text.now))) }
{
    let mut around = Vec::new(alloc);
    let mut list = Tree::nil();
    let mut end = text.len();
    let mut place = text.len();
    // a text has one number alone, here and after each word
    texts.is_table();
    while place != 0 {
        place -= 1;
        let byte = text[place];
        if is_between(byte) {
            list = with_word(alloc, &text[place + 1..end], list, texts)?;
            texts.is_table();
            list = before(alloc, byte, list, &mut around)?;
            end = place;
        }
    }
    with_word(alloc, &text[..end], list, texts)
}
