//! The forms of a text.

ghost use Rattle.std.specs.Prelude.{◌≡◌, ◌<◌, ◌≤◌, ℕ, List, length, IfOk, All};
ghost use Rattle.gl_logic.specs.Names.{Extends, IsTable};
ghost use Rattle.gl_logic.specs.Numbered.{IsNumbered};
ghost use Rattle.gl_logic.specs.Parts.{car_steps};
ghost use Rattle.sexp_reader.specs.Sizes.{IsNarrow, IsAscii};
ghost use Rattle.sexp_reader.specs.Gathers.{Gathers, Numbers};
ghost use Rattle.sexp_reader.specs.Reads.{Reads};
ghost use Rattle.sexp_reader.specs.declared.list.Form.{Form};
ghost use Rattle.sexp_reader.specs.declared.ends.End.{End as EndSeen};

use crate::ends::{End, Forms};
use crate::flaw::Flaw;
use crate::piece::first_piece;
use crate::place::Place;
use crate::stack::Stack;
use gl_logic::{NoMemory, Texts};
use std::alloc::Global;

/// Reads a text's forms up to its first fault, and numbers their symbols and strings by the table,
/// which gains the names that are new. Where memory runs out the table may have gained names.
pub fn forms(alloc: Global, bytes: &[u8], texts: &mut Texts) -> Result<Forms, NoMemory>
    requires { length bytes.now < 4294967295 }
    // The forms and the end are the text's, in this table and in each that begins with it.
    ensures reads { IfOk result (λ forms. (later : List (List ℕ)) → Extends texts.new later
        → Reads later bytes.now forms.list forms.end) }
    ensures kept { Extends texts.old texts.new }
    ensures table { IsTable texts.new }
    // The table gathers the texts of the text's lexemes in their order, and no others.
    ensures gathers { Gathers bytes.now texts.old texts.new }
    // The table has the text of each symbol and string in them.
    ensures numbered { IfOk result (λ forms. All (λ form. IsNumbered (length texts.new) form.tree) forms.list) }
    // Their integers are within 128 bits, their characters' codes at most 127, and no car is nested deeper than 1,000 times.
    ensures narrow { IfOk result (λ forms. All (λ form. IsNarrow form.tree) forms.list) }
    ensures ascii { IfOk result (λ forms. All (λ form. IsAscii form.tree) forms.list) }
    ensures flat { IfOk result (λ forms. All (λ form. car_steps form.tree ≤ 1000) forms.list) }
{
    let read = read_all(alloc, bytes, texts);
    // the symbols of prefixes have numbers, since a table begins with their texts
    texts.is_table();
    read
}

fn read_all(alloc: Global, bytes: &[u8], texts: &mut Texts) -> Result<Forms, NoMemory>
    requires { length bytes.now < 4294967295 }
    ensures reads { IfOk result (λ forms. (later : List (List ℕ)) → Extends texts.new later
        → Reads later bytes.now forms.list forms.end) }
    ensures kept { Extends texts.old texts.new }
    ensures gathers { Gathers bytes.now texts.old texts.new }
{
    let mut stack = Stack::new(alloc);
    let mut place = Place::first();
    let mut rest = bytes;
    loop {
        let piece = first_piece(alloc, rest)?;
        if let Some(flaw) = stack.flaw(&piece, place, rest) {
            return Ok(bad(stack, flaw));
        }
        let Some(count) = stack.take(alloc, piece, place, texts)? else {
            return Ok(clean(stack));
        };
        let (front, behind) = rest.split_at(count);
        place = place.behind(front);
        rest = behind;
    }
}

// The forms before a fault.
fn bad(stack: Stack, flaw: Flaw) -> Forms
    ensures list { result.list ≡ stack.forms }
    ensures end { result.end ≡ End.Bad flaw.place.line flaw.place.column flaw.code }
{
    Forms {
        list: stack.forms,
        end: End::Bad(flaw.place.line, flaw.place.column, flaw.code),
    }
}

// The forms of a text that is whole.
fn clean(stack: Stack) -> Forms
    ensures list { result.list ≡ stack.forms }
    ensures end { result.end ≡ End.Clean }
{
    Forms {
        list: stack.forms,
        end: End::Clean,
    }
}

/// A law: a text has one reading by a table of texts, and only one.
pub fn has_one_reading()
    ensures some { (names : List (List ℕ)) (bytes : List ℕ) → (forms : List Form) × (end : EndSeen) × Reads names bytes forms end }
    ensures one { (names : List (List ℕ)) (bytes : List ℕ) (forms others : List Form) (end other : EndSeen)
        → Reads names bytes forms end → Reads names bytes others other → (forms ≡ others) × (end ≡ other) }
{}

/// A law: from each table on, a text gathers a table that numbers each symbol and string of its forms.
pub fn has_a_table()
    ensures { (bytes : List ℕ) (names : List (List ℕ)) → IsTable names
        → (later : List (List ℕ)) × IsTable later × Gathers bytes names later × Numbers later bytes }
{}
