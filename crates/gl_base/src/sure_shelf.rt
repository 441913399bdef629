ghost use Rattle.std.specs.Prelude.{◌≡◌, ◌≤◌, ◌<◌, ◌↔◌, ◌++◌, ℕ, min, true, List, [], length, take, drop, Some, is_some, is_ok, unwrap_or, IfOk, IfSome, OnOk, IsOk, IsOkAnd};
ghost use Rattle.gl_base.specs.Outside.{HasCause, Takes};
ghost use Rattle.gl_base.specs.NamedTexts.{named, text_named, closed};

use crate::failed::Failed;
use crate::named_texts::NamedTexts;
use crate::shelf::Shelf;
use gl_logic::NoMemory;
use std::alloc::Global;
use std::marker::Model;

/// Named texts in memory, of which no call fails: a name that no text has is that of the empty text.
#[derive(Drop)]
pub struct SureShelf {
    texts: NamedTexts,
}

impl Model for SureShelf {
    ghost use Rattle.gl_base.specs.NamedTexts.{Reading};

    ghost Value = { Reading };

    ghost view = { λ s. s.texts };
}

impl SureShelf {
    /// Names with their bytes, of two pairs with one name the first counts. Nothing is open. It takes no memory.
    pub fn new(_alloc: Global, texts: Vec<(String, Vec<u8>)>) -> Result<SureShelf, NoMemory>
        ensures { IsOkAnd result (λ s. s ≡ closed (named texts.items)) }
    {
        Ok(SureShelf {
            texts: NamedTexts::new(texts),
        })
    }
}

impl Shelf for SureShelf {
    ghost may_open = { λ _. Unit {0} };

    ghost holds = { λ s name. Some (unwrap_or (text_named s.texts name) []) };

    ghost rest = { λ s. s.rest };

    ghost is_open = { λ s. is_some s.rest };

    ghost faults = { λ _. 0 };

    /// Never fails.
    fn open(&mut self, name: &str) -> Result<(), Failed>
        ensures open { is_some self.new.rest ≡ is_ok result }
        ensures kept { (other : List ℕ) → Some (unwrap_or (text_named self.new.texts other) []) ≡ Some (unwrap_or (text_named self.old.texts other) []) }
        ensures sure { IsOk result }
        ensures after { self.new ≡ record self.old { rest = Some (unwrap_or (text_named self.old.texts name.now) []) } }
    {
        self.texts.open_or_empty(name);
        Ok(())
    }

    /// Never fails.
    fn read(&mut self, buf: &mut [u8]) -> Result<usize, Failed>
        requires open { is_some self.old.rest ≡ true }
        requires room { 0 < length buf.old }
        ensures within { IfOk result (λ n. n ≤ length buf.new) }
        ensures bytes { IfOk result (λ n. Takes self.old.rest self.new.rest (take n buf.new)) }
        ensures end { IfOk result (λ n. IfSome self.old.rest (λ left. (n ≡ 0) ↔ (left ≡ []))) }
        ensures open { is_some self.new.rest ≡ true }
        ensures kept { (other : List ℕ) → Some (unwrap_or (text_named self.new.texts other) []) ≡ Some (unwrap_or (text_named self.old.texts other) []) }
        ensures sure { IsOk result }
        ensures count { IfOk result (λ n. IfSome self.old.rest (λ left. n ≡ min (length left) (length buf.old))) }
        ensures behind { IfOk result (λ n. drop n buf.new ≡ drop n buf.old) }
        ensures texts { self.new.texts ≡ self.old.texts }
    {
        Ok(self.texts.read(buf))
    }
}
