//! Environments.

ghost use Rattle.std.specs.Prelude.{◌≡◌, ◌++◌, IfOk};
ghost use Rattle.lisp_eval.specs.Bindings.{bindings_of, id_in, id_or_nil};

use crate::frame::Binding;
use gl_logic::{Names, NoMemory, TextId};
use hons_arena::Id;
use std::alloc::Global;

/// The id of NIL.
pub const NIL: Id = Id::Symbol(TextId { number: 0 });

/// The id of a variable's value, that of NIL where it has none.
pub fn look(env: &[Binding], name: TextId) -> Id
    ensures { result ≡ id_in env.now name.number }
{
    for binding in env {
        if binding.name.number == name.number {
            return binding.value;
        }
    }
    NIL
}

/// The id at a place, that of NIL where there is none.
pub fn id_at(ids: &[Id], i: u64) -> Id
    ensures { result ≡ id_or_nil ids.now i }
{
    match ids.get(i as usize) {
        Some(id) => *id,
        None => NIL,
    }
}

/// The names with their values, before an environment.
pub fn bind(
    alloc: Global,
    names: &Names,
    values: &[Id],
    outer: &[Binding],
) -> Result<Vec<Binding>, NoMemory>
    ensures { IfOk result (λ v. v.items ≡ bindings_of names.now values.now ++ outer.now) }
{
    let mut all = Vec::new(alloc);
    for i in 0..names.len() {
        all.push(Binding {
            name: *names.at(i),
            value: id_at(values, i),
        })?;
    }
    all.extend_from_slice(outer)?;
    Ok(all)
}
