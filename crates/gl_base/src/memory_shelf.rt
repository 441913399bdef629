ghost use Rattle.std.specs.Prelude.{◌≡◌, ◌||◌, ◌≤◌, ◌<◌, ◌↔◌, ◌++◌, ℕ, min, true, List, [], length, take, drop, Some, is_some, is_none, is_ok, is_err, if◌then◌else◌, None, IfOk, IfSome, OnOk, OnErr, IsOkAnd};
ghost use Rattle.gl_base.specs.Outside.{HasCause, Takes};
ghost use Rattle.gl_base.specs.CallCount.{no_calls, fails_now, counted};
ghost use Rattle.gl_base.specs.Memory.{after_open};
ghost use Rattle.gl_base.specs.NamedTexts.{named, text_named, closed};

use crate::calls::Calls;
use crate::failed::Failed;
use crate::named_texts::NamedTexts;
use crate::shelf::Shelf;
use gl_logic::NoMemory;
use std::alloc::Global;
use std::marker::Model;

/// Named texts in memory. Each call counts one, from 1; those whose numbers are listed fail, and so does the `open`
/// of a name that no text has.
#[derive(Drop)]
pub struct MemoryShelf {
    texts: NamedTexts,
    calls: Calls,
}

impl Model for MemoryShelf {
    ghost use Rattle.gl_base.specs.Memory.{ShelfState};

    ghost Value = { ShelfState };

    ghost view = { λ s. record { reading = s.texts; calls = s.calls } };
}

impl MemoryShelf {
    /// Names with their bytes, of two pairs with one name the first counts, and the numbers of the calls that are to
    /// fail. Nothing is open. It takes no memory.
    pub fn new(
        _alloc: Global,
        texts: Vec<(String, Vec<u8>)>,
        fails: Vec<u64>,
    ) -> Result<MemoryShelf, NoMemory>
        ensures { IsOkAnd result (λ s. s ≡ record { reading = closed (named texts.items); calls = no_calls fails.items }) }
    {
        Ok(MemoryShelf {
            texts: NamedTexts::new(texts),
            calls: Calls::new(fails),
        })
    }
}

impl Shelf for MemoryShelf {
    ghost may_open = { λ _. Unit {0} };

    ghost holds = { λ s name. text_named s.reading.texts name };

    ghost rest = { λ s. s.reading.rest };

    ghost is_open = { λ s. is_some s.reading.rest };

    ghost faults = { λ s. s.calls.faults };

    /// Fails exactly where the call is one of those that are to fail, or no text has the name. No text is then open.
    fn open(&mut self, name: &str) -> Result<(), Failed>
        ensures rest { OnOk result (IfSome (text_named self.old.reading.texts name.now) (λ bytes. self.new.reading.rest ≡ Some bytes)) }
        ensures open { is_some self.new.reading.rest ≡ is_ok result }
        ensures kept { (other : List ℕ) → text_named self.new.reading.texts other ≡ text_named self.old.reading.texts other }
        ensures cause { HasCause self.old.calls.faults self.new.calls.faults result }
        ensures fails { is_err result ≡ (fails_now self.old.calls || is_none (text_named self.old.reading.texts name.now)) }
        ensures after { self.new ≡ after_open self.old name.now (is_err result) }
    {
        if self.calls.count() {
            self.texts.close();
            return Err(self.calls.fault());
        }
        if !self.texts.open(name) {
            return Err(self.calls.fault());
        }
        Ok(())
    }

    /// Fails exactly where the call is one of those that are to fail. Nothing is then read.
    fn read(&mut self, buf: &mut [u8]) -> Result<usize, Failed>
        requires open { is_some self.old.reading.rest ≡ true }
        requires room { 0 < length buf.old }
        ensures within { IfOk result (λ n. n ≤ length buf.new) }
        ensures bytes { IfOk result (λ n. Takes self.old.reading.rest self.new.reading.rest (take n buf.new)) }
        ensures end { IfOk result (λ n. IfSome self.old.reading.rest (λ left. (n ≡ 0) ↔ (left ≡ []))) }
        ensures open { is_some self.new.reading.rest ≡ true }
        ensures kept { (other : List ℕ) → text_named self.new.reading.texts other ≡ text_named self.old.reading.texts other }
        ensures cause { HasCause self.old.calls.faults self.new.calls.faults result }
        ensures fails { is_err result ≡ fails_now self.old.calls }
        ensures count { IfOk result (λ n. IfSome self.old.reading.rest (λ left. n ≡ min (length left) (length buf.old))) }
        ensures behind { IfOk result (λ n. drop n buf.new ≡ drop n buf.old) }
        ensures unread { OnErr result (buf.new ≡ buf.old) }
        ensures left { OnErr result (self.new.reading ≡ self.old.reading) }
        ensures counted { self.new.calls ≡ counted self.old.calls (is_err result) }
        ensures texts { self.new.reading.texts ≡ self.old.reading.texts }
    {
        if self.calls.count() {
            return Err(self.calls.fault());
        }
        Ok(self.texts.read(buf))
    }
}
