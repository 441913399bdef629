//! Forms in order.

ghost use Rattle.std.specs.Prelude.{◌≡◌, ◌<◌, ◌++◌, [], ◌∷◌, length, OnOk, OnErr, slice_get, Some};

use gl_logic::{NoMemory, Tree};
use std::alloc::Global;
use std::marker::Model;

/// A form of a book, and the line and the column of its first byte, each from 1.
#[derive(Drop)]
pub struct Form {
    pub tree: Tree,
    pub line: u32,
    pub column: u32,
}

/// Forms in order.
#[derive(Drop)]
pub struct FormList {
    items: Vec<Form>,
}

impl Model for FormList {
    ghost use Rattle.std.specs.Prelude.{List};
    ghost use Rattle.std.specs.Coded.{coded_list};
    ghost use Rattle.sexp_reader.specs.declared.list.Form.{Form};
    ghost use Rattle.sexp_reader.specs.FormCode.{coded_form};

    ghost Value = { List Form };

    ghost coded = { coded_list coded_form };

    ghost view = { λ forms. forms.items.items };
}

impl FormList {
    /// No forms. It takes no memory.
    pub fn new(alloc: Global) -> FormList
        ensures { result ≡ [] }
    {
        FormList {
            items: Vec::new(alloc),
        }
    }

    /// Puts a form last. It is lost where memory runs out.
    pub fn push(&mut self, form: Form) -> Result<(), NoMemory>
        ensures ok { OnOk result (self.new ≡ self.old ++ form ∷ []) }
        ensures err { OnErr result (self.new ≡ self.old) }
    {
        self.items.push(form)?;
        Ok(())
    }

    /// How many there are.
    pub fn len(&self) -> u64
        ensures { result ≡ length self.now }
    {
        self.items.len() as u64
    }

    /// Form `i`, from 0.
    pub fn at(&self, i: u64) -> &Form
        requires { i < length self.now }
        ensures { slice_get self.now i ≡ Some result.now }
    {
        &self.items[i as usize]
    }

    /// The forms themselves, in order. Takes no memory.
    pub fn into_forms(self) -> Vec<Form>
        ensures { result.items ≡ self }
    {
        self.items
    }
}
