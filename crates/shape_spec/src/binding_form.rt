//! Bindings of forms.

ghost use Rattle.std.specs.Prelude.{◌≡◌, ◌≤◌, ◌-◌, ◌&&◌, ◌++◌, [], ◌∷◌, true, not, eqb, if◌then◌else◌, length, reverse, Some, None, OnOk};
ghost use Rattle.std.specs.List.{list_any};
ghost use Rattle.std.specs.Option.{option_and_then};
ghost use Rattle.gl_logic.specs.Object.{nil};
ghost use Rattle.gl_logic.specs.Lists.{conses};
ghost use Rattle.shape_spec.specs.ShapeOf.{shape_of};
ghost use Rattle.shape_spec.specs.Indices.{variables_of, width_of, IsBindings};
ghost use Rattle.shape_spec.specs.ItemsMeant.{shape_at, placed as placed_meant, in_sequence, item_meant};
ghost use Rattle.gl_logic.specs.Wording.{all_meant, is_legal as legal_is};
ghost use Rattle.shape_spec.specs.BindingsMeant.{checked, bound, entry_of, entry_meant, quoted as quoted_meant, is_backquote as backquote_is, bindings_meant};
ghost use Rattle.shape_spec.specs.Gives.{Gives, fits, taken, shape_left, Adds, entry_within, entry_left, slotted_of};

use super::binding_list::{Bindings, bit_count};
use super::fault::BindFault;
use super::index_form::{boolean, integer};
use super::item_form::{Items, all_items, places_of, sequence};
use super::shape::Shape;
use super::shape_form::Setting;
use gl_logic::name_set::NameSet;
use gl_logic::wording::{is_legal, parts_of, spells};
use gl_logic::{TextId, Texts, Tree, TreeKind};
use std::alloc::Global;

/// The bindings of a form of `:g-bindings`: a quoted or backquoted list of `(variable shape)`, or
/// `(auto-bindings item ..)`. Bad exactly where the form means none.
pub fn bindings(alloc: Global, form: &Tree, texts: &Texts) -> Result<Bindings, BindFault>
    ensures { Gives (λ b. b) result (bindings_meant texts.now form.now) }
{
    match parts_of(form) {
        Some(parts) => headed(alloc, texts, parts),
        None => Err(BindFault::Bad),
    }
}

/// The same by the elements from the last to the first.
fn headed(alloc: Global, texts: &Texts, parts: &[Tree]) -> Result<Bindings, BindFault>
    ensures { Gives (λ b. b) result (bindings_meant texts.now (conses parts.now nil)) }
{
    let [rest @ .., word] = parts else {
        return Err(BindFault::Bad);
    };
    if is_backquote(word) {
        quoted(alloc, texts, rest, true)
    } else if spells(texts, b"QUOTE", word) {
        quoted(alloc, texts, rest, false)
    } else if spells(texts, b"AUTO-BINDINGS", word) {
        automatic(alloc, texts, rest)
    } else {
        Err(BindFault::Bad)
    }
}

/// Whether an object is the mark of backquote.
fn is_backquote(object: &Tree) -> bool
    ensures { result ≡ backquote_is object.now }
{
    match object.kind() {
        TreeKind::Symbol(name) => name.number == 2,
        _ => false,
    }
}

/// A list of `(variable shape)`, by what stands behind the quote or the backquote.
fn quoted(alloc: Global, texts: &Texts, rest: &[Tree], quasi: bool) -> Result<Bindings, BindFault>
    ensures { Gives (λ b. b) result (checked texts.now (quoted_meant texts.now quasi (Some (reverse rest.now)))) }
{
    if rest.len() != 1 {
        return Err(BindFault::Bad);
    }
    match parts_of(&rest[0]) {
        Some(entries) => listed(
            &Setting {
                alloc,
                texts,
                quasi,
            },
            entries,
        ),
        None => Err(BindFault::Bad),
    }
}

/// The bindings of entries, which stand from the last to the first.
fn listed(setting: &Setting<'_>, entries: &[Tree]) -> Result<Bindings, BindFault>
    ensures { Gives (λ b. b) result (checked setting.now.texts.now (all_meant (entry_meant setting.now.texts.now setting.now.quasi) (reverse entries.now))) }
{
    let mut all = Bindings::new(setting.alloc);
    let mut seen = NameSet::new(setting.alloc);
    add_entries(setting, entries, &mut all, &mut seen)?;
    Ok(all)
}

/// Binds the variables of entries where none is bound yet.
fn add_entries(
    setting: &Setting<'_>,
    entries: &[Tree],
    all: &mut Bindings,
    seen: &mut NameSet,
) -> Result<(), BindFault>
    requires none { all.old ≡ [] }
    requires none_seen { seen.old ≡ [] }
    ensures { Gives (λ _. all.new) result (checked setting.now.texts.now (all_meant (entry_meant setting.now.texts.now setting.now.quasi) (reverse entries.now))) }
{
    let mut left = 1024;
    let mut place = entries.len();
    while place > 0 {
        place -= 1;
        let (variable, shape) = entry(setting, &entries[place], left)?;
        add(setting.alloc, setting.texts, all, seen, variable, shape)?;
        left = 1024 - bit_count(all);
    }
    Ok(())
}

/// `(variable shape)`, where so many indices may be used.
fn entry(setting: &Setting<'_>, form: &Tree, left: u32) -> Result<(TextId, Shape), BindFault>
    ensures { Gives entry_left result (entry_within left (entry_meant setting.now.texts.now setting.now.quasi form.now)) }
{
    match parts_of(form) {
        Some(parts) => listed_entry(setting, parts, left),
        None => Err(BindFault::Bad),
    }
}

/// The same by the elements from the last to the first.
fn listed_entry(
    setting: &Setting<'_>,
    parts: &[Tree],
    left: u32,
) -> Result<(TextId, Shape), BindFault>
    ensures { Gives entry_left result (entry_within left (entry_of setting.now.texts.now setting.now.quasi (Some (reverse parts.now)))) }
{
    if parts.len() != 2 {
        return Err(BindFault::Bad);
    }
    let TreeKind::Symbol(name) = parts[1].kind() else {
        return Err(BindFault::Bad);
    };
    let (shape, _) = setting.shape(&parts[0], left)?;
    Ok((name, shape))
}

/// The bindings of items, by what stands behind the word.
fn automatic(alloc: Global, texts: &Texts, rest: &[Tree]) -> Result<Bindings, BindFault>
    ensures { Gives (λ b. b) result (checked texts.now (option_and_then (λ is. bound (in_sequence is)) (all_meant (item_meant texts.now) (reverse rest.now)))) }
{
    let all = all_items(alloc, texts, rest, 1024)?;
    let whole = sequence(alloc, all.as_slice())?;
    placed(alloc, texts, &whole)
}

/// The bindings of slots.
fn placed(alloc: Global, texts: &Texts, whole: &Items) -> Result<Bindings, BindFault>
    requires { length whole.now.slots.items ≤ 1024 }
    ensures { Gives (λ b. b) result (checked texts.now (Some (placed_meant (slotted_of whole.now)))) }
{
    let mut all = Bindings::new(alloc);
    let mut seen = NameSet::new(alloc);
    add_places(alloc, texts, whole, &mut all, &mut seen)?;
    Ok(all)
}

/// Binds the variables of slots where none is bound yet.
fn add_places(
    alloc: Global,
    texts: &Texts,
    whole: &Items,
    all: &mut Bindings,
    seen: &mut NameSet,
) -> Result<(), BindFault>
    requires few { length whole.now.slots.items ≤ 1024 }
    requires none { all.old ≡ [] }
    requires none_seen { seen.old ≡ [] }
    ensures { Gives (λ _. all.new) result (checked texts.now (Some (placed_meant (slotted_of whole.now)))) }
{
    let mut left = 1024;
    for variable in &whole.variables {
        let places = places_of(alloc, whole.slots.as_slice(), variable.name)?;
        let (shape, _) = shape_of_places(variable.is_boolean, places, left)?;
        add(alloc, texts, all, seen, variable.name, shape)?;
        left = 1024 - bit_count(all);
    }
    Ok(())
}

/// The shape of a variable's places.
fn shape_of_places(is_boolean: bool, places: Vec<u32>, left: u32) -> Result<(Shape, u32), BindFault>
    ensures { Gives shape_left result (taken left (Some (shape_at is_boolean places.items))) }
{
    if !is_boolean {
        return integer(places, left);
    }
    match places.as_slice() {
        [first, ..] => boolean(*first, left),
        [] => boolean(0, left),
    }
}

/// Binds one more variable, where it is legal and new and no index stands twice then.
fn add(
    alloc: Global,
    texts: &Texts,
    all: &mut Bindings,
    seen: &mut NameSet,
    variable: TextId,
    shape: Shape,
) -> Result<(), BindFault>
    requires proper { IsBindings all.old }
    requires seen { seen.old ≡ variables_of all.old }
    requires fits { fits (1024 - width_of all.old) (shape_of shape) ≡ true }
    ensures adds { Adds texts.now all.old (variable.number, shape_of shape) all.new result }
    ensures seen { OnOk result (seen.new ≡ variables_of all.new) }
{
    match note(texts, seen, variable) {
        Ok(()) => {}
        Err(fault) => {
            drop(shape);
            return Err(fault);
        }
    }
    if !all.try_push(alloc, variable, shape)? {
        return Err(BindFault::Bad);
    }
    Ok(())
}

/// Notes a variable that is legal and new, else Bad.
fn note(texts: &Texts, seen: &mut NameSet, variable: TextId) -> Result<(), BindFault>
    ensures { Gives (λ _. seen.new) result (if legal_is texts.now variable.number && not (list_any (eqb variable.number) seen.old) then Some (seen.old ++ variable.number ∷ []) else None) }
{
    if is_legal(texts, variable) && seen.insert(variable)? {
        Ok(())
    } else {
        Err(BindFault::Bad)
    }
}
