//! What is said, as bytes that grow.

ghost use Rattle.std.specs.Prelude.{◌≡◌, [], ◌++◌, Some, None, MatchResult, codes, replicate};
ghost use Rattle.std.specs.Fmt.{decimal, signed_decimal};
ghost use Rattle.explain_report.specs.Shown.{shown};
ghost use Rattle.explain_report.specs.Said.{Adds, Says, SaysMore};

use crate::fault::Fault;
use crate::shown::{Style, append_shown};
use gl_logic::NoMemory;
use std::alloc::Global;
use std::marker::Model;
use std::mem;

/// What is said so far, and the faults that were told. Where memory is refused for some of it, nothing more is said, and in the end there are no bytes.
#[derive(Drop)]
pub struct Report {
    alloc: Global,
    bytes: Vec<u8>,
    faults: Vec<Fault>,
    is_refused: bool,
}

impl Model for Report {
    ghost use Rattle.std.specs.Prelude.{ℕ, List, Option, Some, None, if◌then◌else◌};
    ghost use Rattle.std.specs.Coded.{coded_list, coded_option, coded_ℕ};

    ghost Value = { Option (List ℕ) };

    ghost coded = { coded_option (coded_list coded_ℕ) };

    ghost view = { λ r. if r.is_refused then None else Some r.bytes.items };
}

impl Report {
    /// Nothing. Takes no memory.
    pub fn new(alloc: Global) -> Report
        ensures { result ≡ Some [] }
    {
        Report {
            alloc,
            bytes: Vec::new(alloc),
            faults: Vec::new(alloc),
            is_refused: false,
        }
    }

    /// Says no more: memory was refused for some of it.
    pub fn refuse(&mut self)
        ensures { self.new ≡ None }
    {
        self.is_refused = true;
    }

    /// Says a text.
    pub fn text(&mut self, text: &[u8])
        ensures { Adds text.now self.old self.new }
    {
        if !self.is_refused {
            if let Err(_) = self.bytes.extend_from_slice(text) {
                self.is_refused = true;
            }
        }
    }

    /// Says a text that was made for it, where memory was given.
    pub fn made(&mut self, made: Result<Vec<u8>, NoMemory>)
        ensures { MatchResult made (λ text. Adds text.items self.old self.new) (λ _. self.new ≡ None) }
    {
        match made {
            Ok(text) => self.text(&text),
            Err(_) => self.refuse(),
        }
    }

    /// Says a text as a style shows it.
    pub fn shown(&mut self, style: Style, text: &[u8])
        ensures { Adds (shown style text.now) self.old self.new }
    {
        if !self.is_refused {
            if let Err(_) = append_shown(style, text, &mut self.bytes) {
                self.is_refused = true;
            }
        }
    }

    /// Keeps a fault that is told.
    pub fn fault(&mut self, fault: Result<Fault, NoMemory>)
        ensures { Says (λ before behind. behind ≡ before) self.old self.new }
    {
        match fault {
            Ok(fault) => {
                if let Err(_) = self.faults.push(fault) {
                    self.is_refused = true;
                }
            }
            Err(_) => self.refuse(),
        }
    }

    /// The faults that were told, which are taken from here.
    pub fn take_faults(&mut self) -> Vec<Fault>
        ensures { self.new ≡ self.old }
    {
        mem::replace(&mut self.faults, Vec::new(self.alloc))
    }

    /// Says words.
    pub fn say(&mut self, words: &str)
        ensures { Adds words.now self.old self.new }
    {
        self.text(words.as_bytes());
    }

    /// Says a number in decimal.
    pub fn number(&mut self, number: u64)
        ensures { Adds (decimal number) self.old self.new }
    {
        match format!(in self.alloc; "{number}") {
            Ok(digits) => self.say(digits.as_str()),
            Err(_) => self.refuse(),
        }
    }

    /// Says an integer in decimal.
    pub fn integer(&mut self, integer: i128)
        ensures { Adds (signed_decimal integer) self.old self.new }
    {
        match format!(in self.alloc; "{integer}") {
            Ok(digits) => self.say(digits.as_str()),
            Err(_) => self.refuse(),
        }
    }

    /// Says one byte so many times.
    #[tactic(auto, using(crate::proofs::Reports::nothing, crate::proofs::Reports::once_more))]
    pub fn times(&mut self, count: usize, byte: u8)
        ensures { Adds (replicate count byte) self.old self.new }
    {
        for _ in 0..count {
            self.text(&[byte]);
        }
    }

    /// Says a place as editors take it, with a blank behind it.
    pub fn place(&mut self, file: &[u8], line: u64, column: u64)
        ensures { Adds (file.now ++ codes ":" ++ decimal line ++ codes ":" ++ decimal column ++ codes ": ") self.old self.new }
    {
        self.text(file);
        self.say(":");
        self.number(line);
        self.say(":");
        self.number(column);
        self.say(": ");
    }

    /// Says microseconds as seconds.
    pub fn seconds(&mut self, micros: u64)
        ensures { SaysMore self.old self.new }
    {
        let whole = micros / 1_000_000;
        let part = micros % 1_000_000;
        match format!(in self.alloc; "{whole}.{part:06}") {
            Ok(text) => self.say(text.as_str()),
            Err(_) => self.refuse(),
        }
    }

    /// Says microseconds as seconds, down to milliseconds.
    pub fn millis(&mut self, micros: u64)
        ensures { SaysMore self.old self.new }
    {
        let whole = micros / 1_000_000;
        let part = micros / 1000 % 1000;
        match format!(in self.alloc; "{whole}.{part:03}") {
            Ok(text) => self.say(text.as_str()),
            Err(_) => self.refuse(),
        }
    }

    /// Its bytes, where memory was given for all of them.
    pub fn into_bytes(self) -> Result<Vec<u8>, NoMemory>
        ensures { MatchResult result (λ bytes. self ≡ Some bytes.items) (λ _. self ≡ None) }
    {
        let Report {
            bytes,
            is_refused,
            ..
        } = self;
        if is_refused { Err(NoMemory) } else { Ok(bytes) }
    }
}
