//! What a run begins with: the table of texts, the first state, and the forms.

ghost use Rattle.std.specs.Prelude.{◌≤◌, length, IfOk};
ghost use Rattle.book_shelf.specs.Flat.{most_bytes};
ghost use Rattle.gl_book.specs.Openings.{IsBegun, IsOpened};

use book_state::State;
use gl_logic::{NoMemory, Texts};
use sexp_reader::{Forms, forms};
use std::alloc::Global;

/// The texts and the state that every book begins with.
#[derive(Drop)]
pub struct Begun {
    pub texts: Texts,
    pub state: State,
}

/// The first state of a book, a text's forms, and the texts of both.
#[derive(Drop)]
pub struct Opened {
    pub texts: Texts,
    pub state: State,
    pub forms: Forms,
}

/// Makes what every book begins with.
pub fn begin(alloc: Global) -> Result<Begun, NoMemory>
    ensures { IfOk result IsBegun }
{
    let mut texts = Texts::new(alloc)?;
    match State::new(alloc, &mut texts) {
        Ok(state) => Ok(Begun { texts, state }),
        Err(fault) => {
            drop(texts);
            Err(fault)
        }
    }
}

/// Reads a text's forms behind what every book begins with.
pub fn open(alloc: Global, text: &[u8]) -> Result<Opened, NoMemory>
    requires { length text.now ≤ most_bytes }
    ensures { IfOk result (IsOpened text.now) }
{
    let Begun { mut texts, state } = begin(alloc)?;
    match forms(alloc, text, &mut texts) {
        Ok(forms) => Ok(Opened {
            texts,
            state,
            forms,
        }),
        Err(fault) => {
            drop(texts);
            drop(state);
            Err(fault)
        }
    }
}
