//! Keywords, each with its value behind it.

ghost use Rattle.std.specs.Prelude.{◌≡◌, [], ◌∷◌, ◌++◌, map, IfOk, OnOk};
ghost use Rattle.std.specs.List.{list_all};
ghost use Rattle.std.specs.Option.{option_copied, option_map};
ghost use Rattle.gl_logic.specs.Wording.{text_of};
ghost use Rattle.event_world.specs.Keywords.{keyword_of as keyword_meant, pairs_of as pairs_meant, value_of as value_meant, is_one_of, are_options as options_are};
ghost use Rattle.event_world.specs.KeywordTexts.{texts_of, ignored_texts};

use super::keyword_table::KeywordTable;
use super::parts::Parts;
use gl_logic::name_set::are_different;
use gl_logic::wording::{is_keyword, same};
use gl_logic::{Names, NoMemory, TextId, Texts, Tree, TreeKind};
use std::alloc::Global;
use std::marker::Model;

/// Keywords in order, each with its value. Contracts see the list of pairs.
#[derive(Drop)]
pub(crate) struct Keywords<'a> {
    items: Vec<(TextId, &'a Tree)>,
}

impl<'a> Model for Keywords<'a> {
    ghost use Rattle.std.specs.Prelude.{List, ℕ, map};
    ghost use Rattle.std.specs.Coded.{coded_list, coded×, coded_ℕ};
    ghost use Rattle.gl_logic.specs.Object.{Object, coded_object};

    ghost Value = { List (ℕ × Object) };

    ghost coded = { coded_list (coded× coded_ℕ coded_object) };

    ghost view = { λ k. map (λ p. (p.0.number, p.1.now)) k.items.items };
}

impl<'a> Keywords<'a> {
    /// None. Takes no memory.
    pub(crate) fn new(alloc: Global) -> Keywords<'a>
        ensures { result ≡ [] }
    {
        Keywords {
            items: Vec::new(alloc),
        }
    }

    /// Puts a keyword with its value last.
    pub(crate) fn push(&mut self, key: TextId, value: &'a Tree) -> Result<(), NoMemory>
        ensures { OnOk result (self.new ≡ self.old ++ (key.number, value.now) ∷ []) }
    {
        self.items.push((key, value))?;
        Ok(())
    }

    /// Puts others behind these.
    pub(crate) fn append(&mut self, others: &Keywords<'a>) -> Result<(), NoMemory>
        ensures { OnOk result (self.new ≡ self.old ++ others.now) }
    {
        for item in &others.items {
            self.items.push(*item)?;
        }
        Ok(())
    }

    /// The value of the first keyword with this text.
    pub(crate) fn value(&self, texts: &Texts, text: &[u8]) -> Option<&'a Tree>
        ensures { option_copied result ≡ value_meant texts.now text.now self.now }
    {
        for item in &self.items {
            if same(texts.text(item.0), text) {
                return Some(item.1);
            }
        }
        None
    }

    /// Whether each keyword is of the table.
    fn are_known(&self, texts: &Texts, table: KeywordTable) -> bool
        ensures { result ≡ list_all (λ p. is_one_of (texts_of table) (text_of texts.now p.0)) self.now }
    {
        for item in &self.items {
            if !is_of(table, texts.text(item.0)) {
                return false;
            }
        }
        true
    }

    /// The keywords alone.
    fn names(&self, alloc: Global) -> Result<Names, NoMemory>
        ensures { IfOk result (λ n. n ≡ map (λ p. p.0) self.now) }
    {
        let mut all = Names::new(alloc);
        for item in &self.items {
            all.push(item.0)?;
        }
        Ok(all)
    }

    /// Whether each keyword is of the table, and none stands twice.
    pub(crate) fn are_of(
        &self,
        alloc: Global,
        texts: &Texts,
        table: KeywordTable,
    ) -> Result<bool, NoMemory>
        ensures { IfOk result (λ b. b ≡ options_are texts.now (texts_of table) self.now) }
    {
        if !self.are_known(texts, table) {
            return Ok(false);
        }
        are_different(alloc, &self.names(alloc)?)
    }
}

/// Whether a text is a keyword of the table.
fn is_of(table: KeywordTable, text: &[u8]) -> bool
    ensures { result ≡ is_one_of (texts_of table) text.now }
{
    match table {
        KeywordTable::Xargs => is_of_xargs(text),
        KeywordTable::Theorem => is_of_theorem(text),
        KeywordTable::ParamTheorem => is_of_cases(text),
    }
}

fn is_of_xargs(text: &[u8]) -> bool
    ensures { result ≡ is_one_of (texts_of KeywordTable.Xargs) text.now }
{
    same(text, b":MEASURE")
        || (same(text, b":GUARD")
            || (same(text, b":VERIFY-GUARDS")
                || (same(text, b":GUARD-HINTS")
                    || (same(text, b":HINTS") || (same(text, b":NORMALIZE") || false)))))
}

fn is_of_theorem(text: &[u8]) -> bool
    ensures { result ≡ is_one_of (texts_of KeywordTable.Theorem) text.now }
{
    same(text, b":HYP")
        || (same(text, b":CONCL")
            || (same(text, b":G-BINDINGS")
                || (same(text, b":HYP-CLK") || (same(text, b":CONCL-CLK") || is_ignored(text)))))
}

fn is_of_cases(text: &[u8]) -> bool
    ensures { result ≡ is_one_of (texts_of KeywordTable.ParamTheorem) text.now }
{
    same(text, b":HYP")
        || (same(text, b":CONCL")
            || (same(text, b":PARAM-HYP")
                || (same(text, b":PARAM-BINDINGS")
                    || (same(text, b":COV-BINDINGS")
                        || (same(text, b":HYP-CLK") || (same(text, b":CONCL-CLK") || false))))))
}

/// The options of `def-gl-thm` that are read and ignored.
fn is_ignored(text: &[u8]) -> bool
    ensures { result ≡ is_one_of ignored_texts text.now }
{
    same(text, b":RULE-CLASSES")
        || (same(text, b":COV-HINTS")
            || (same(text, b":COV-THEORY-ADD") || same(text, b":DO-NOT-EXPAND")))
}

/// The symbol of a keyword.
fn keyword_of(texts: &Texts, object: &Tree) -> Option<TextId>
    ensures { option_map (λ t. t.number) result ≡ keyword_meant texts.now object.now }
{
    match object.kind() {
        TreeKind::Symbol(name) => {
            if is_keyword(texts, name) {
                Some(name)
            } else {
                None
            }
        }
        _ => None,
    }
}

/// The keywords and values of a list, and None where it is none of these.
pub(crate) fn pairs_of<'a>(
    alloc: Global,
    texts: &Texts,
    parts: &Parts<'a>,
) -> Result<Option<Keywords<'a>>, NoMemory>
    ensures { IfOk result (λ o. o ≡ pairs_meant texts.now parts.now) }
{
    let mut all = Keywords::new(alloc);
    let mut left = parts.again();
    while let Some((key, behind)) = left.first() {
        let Some((value, rest)) = behind.first() else {
            return Ok(None);
        };
        let Some(name) = keyword_of(texts, key) else {
            return Ok(None);
        };
        all.push(name, value)?;
        left = rest;
    }
    Ok(Some(all))
}
