//! The table of the texts of symbols and strings.

ghost use Rattle.std.specs.Prelude.{◌≡◌, ◌<◌, length, slice_get, get_or, [], Some, IfOk, OnOk, OnErr};
ghost use Rattle.gl_logic.specs.Names.{number_of, with_name, first_names, IsTable};

use super::ids::{NoMemory, TextId};
use indexmap::IndexSet;
use std::alloc::Global;
use std::marker::Model;

/// Different texts, each with its number from 0 in the order of their coming. A symbol's text is its
/// name in upper case; a keyword's begins with its colon.
///
/// The first four are `NIL`, `T`, the mark of backquote (the one byte 96) and the mark of comma (the
/// one byte 44). No token of a book spells the two marks.
#[derive(Drop)]
pub struct Texts {
    alloc: Global,
    names: IndexSet<Vec<u8>>,
}

impl Model for Texts {
    ghost use Rattle.std.specs.Prelude.{List, ℕ, map};

    ghost Value = { List (List ℕ) };

    ghost use Rattle.gl_logic.specs.Names.{IsTable};

    ghost view = { λ t. map (λ v. v.items) t.names.keys };

    ghost invariant = { λ t. IsTable (map (λ v. v.items) t.names.keys) };
}

impl Texts {
    /// The table of the first four texts.
    pub fn new(alloc: Global) -> Result<Texts, NoMemory>
        ensures { IfOk result (λ t. t ≡ first_names) }
    {
        let mut names = IndexSet::new(alloc);
        names.insert(b"NIL".to_vec(alloc)?)?;
        names.insert(b"T".to_vec(alloc)?)?;
        names.insert(b"`".to_vec(alloc)?)?;
        names.insert(b",".to_vec(alloc)?)?;
        Ok(Texts { alloc, names })
    }

    /// The number of these bytes, which are put last where they are new. Earlier numbers stay.
    pub fn id_of(&mut self, bytes: &[u8]) -> Result<TextId, NoMemory>
        ensures ok { OnOk result (self.new ≡ with_name self.old bytes.now) }
        ensures number { IfOk result (λ id. number_of bytes.now self.new ≡ Some id.number) }
        ensures err { OnErr result (self.new ≡ self.old) }
    {
        if let Some(place) = self.names.get_index_of(bytes) {
            return Ok(TextId {
                number: place as u64,
            });
        }
        let name = bytes.to_vec(self.alloc)?;
        let (place, _) = self.names.insert_full(name)?;
        Ok(TextId {
            number: place as u64,
        })
    }

    /// The bytes of a text.
    pub fn bytes(&self, id: TextId) -> &[u8]
        requires { id.number < length self.now }
        ensures { slice_get self.now id.number ≡ Some result.now }
    {
        match self.names.get_index(id.number as usize) {
            Some(name) => name.as_slice(),
            None => unreachable!(),
        }
    }

    /// The bytes of a text, and no bytes where the table has no such number.
    pub fn text(&self, id: TextId) -> &[u8]
        ensures { result.now ≡ get_or self.now id.number [] }
    {
        match self.names.get_index(id.number as usize) {
            Some(name) => name.as_slice(),
            None => &[],
        }
    }

    /// A law: each table begins with the first four texts, and its texts are different.
    pub fn is_table(&self)
        ensures { IsTable self.now }
    {
        // Read for what it tells of the table: it begins with the first four, and no two are equal.
        let _names = &self.names;
    }
}
