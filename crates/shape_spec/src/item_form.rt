//! Items of `auto-bindings`.

ghost use Rattle.std.specs.Prelude.{◌≡◌, ◌≤◌, [], ◌∷◌, ◌++◌, if◌then◌else◌, map, length, reverse, IfOk, OnOk, Some};
ghost use Rattle.gl_logic.specs.Object.{nil};
ghost use Rattle.gl_logic.specs.Lists.{conses};
ghost use Rattle.gl_logic.specs.Wording.{all_meant};
ghost use Rattle.shape_spec.specs.ItemsMeant.{own_slots, number_item, boolean_item, all_variables, in_sequence, mixed as mixed_items, have_count as have_slots, slots_at, places_of as places_meant, item_meant};
ghost use Rattle.shape_spec.specs.Gives.{Gives, within, all_within, slotted_of, variable_of};

use super::fault::BindFault;
use super::index_form::natural_of;
use super::words::{ItemWord, item_of};
use gl_logic::wording::parts_of;
use gl_logic::{NoMemory, TextId, Texts, Tree, TreeKind};
use std::alloc::Global;

/// What is read of an item: its variables in the order in which they are written, and for each of its
/// slots the number of the variable that it is one of.
#[derive(Drop)]
pub(crate) struct Items {
    pub(crate) variables: Vec<ItemVariable>,
    pub(crate) slots: Vec<u64>,
}

/// A variable of an item, and whether it is a Boolean.
#[derive(Clone, Copy)]
pub(crate) struct ItemVariable {
    pub(crate) name: TextId,
    pub(crate) is_boolean: bool,
}

/// An item, which may have so many slots.
#[cycle(item)]
pub(crate) fn item(alloc: Global, texts: &Texts, form: &Tree, left: u32) -> Result<Items, BindFault>
    ensures { Gives slotted_of result (within left (item_meant texts.now form.now)) }
{
    match parts_of(form) {
        Some(parts) => listed_item(alloc, texts, parts, left),
        None => Err(BindFault::Bad),
    }
}

/// The same by the elements from the last to the first.
#[cycle(item)]
fn listed_item(alloc: Global, texts: &Texts, parts: &[Tree], left: u32) -> Result<Items, BindFault>
    ensures { Gives slotted_of result (within left (item_meant texts.now (conses parts.now nil))) }
{
    let [rest @ .., word] = parts else {
        return Err(BindFault::Bad);
    };
    match item_of(texts, word) {
        Some(ItemWord::Nat) => number(alloc, rest, 1, left),
        Some(ItemWord::Int) => number(alloc, rest, 0, left),
        Some(ItemWord::Boolean) => boolean(alloc, rest, left),
        Some(ItemWord::Seq) => {
            let all = all_items(alloc, texts, rest, left)?;
            Ok(sequence(alloc, all.as_slice())?)
        }
        Some(ItemWord::Mix) => {
            let all = all_items(alloc, texts, rest, left)?;
            mixed(alloc, all.as_slice())
        }
        None => Err(BindFault::Bad),
    }
}

/// Items, from the last to the first, which may have so many slots in all.
#[cycle(item)]
pub(crate) fn all_items(
    alloc: Global,
    texts: &Texts,
    forms: &[Tree],
    left: u32,
) -> Result<Vec<Items>, BindFault>
    ensures { Gives (λ v. map slotted_of v.items) result (all_within left (all_meant (item_meant texts.now) (reverse forms.now))) }
{
    let mut all = Vec::new(alloc);
    let mut left = left;
    let mut place = forms.len();
    while place > 0 {
        place -= 1;
        let next = item(alloc, texts, &forms[place], left)?;
        left -= next.slots.len() as u32;
        all.push(next)?;
    }
    Ok(all)
}

/// `(:nat v n)`, which has one slot more than n, or `(:int v n)`, by what stands behind the word.
fn number(alloc: Global, rest: &[Tree], more: u32, left: u32) -> Result<Items, BindFault>
    requires { more ≤ 1 }
    ensures { Gives slotted_of result (within left (number_item more (Some (reverse rest.now)))) }
{
    let [count, variable] = rest else {
        return Err(BindFault::Bad);
    };
    let (TreeKind::Symbol(name), Some(count)) = (variable.kind(), natural_of(count)) else {
        return Err(BindFault::Bad);
    };
    if count > 128 {
        return Err(BindFault::Bad);
    }
    own(alloc, name, false, count as u32 + more, left)
}

/// `(:boolean v)`, by what stands behind the word.
fn boolean(alloc: Global, rest: &[Tree], left: u32) -> Result<Items, BindFault>
    ensures { Gives slotted_of result (within left (boolean_item (Some (reverse rest.now)))) }
{
    let [variable] = rest else {
        return Err(BindFault::Bad);
    };
    let TreeKind::Symbol(name) = variable.kind() else {
        return Err(BindFault::Bad);
    };
    own(alloc, name, true, 1, left)
}

/// One variable of 1 to 128 slots.
fn own(
    alloc: Global,
    name: TextId,
    is_boolean: bool,
    count: u32,
    left: u32,
) -> Result<Items, BindFault>
    ensures { Gives slotted_of result (within left (own_slots name.number is_boolean count)) }
{
    if count == 0 || count > 128 || count > left {
        return Err(BindFault::Bad);
    }
    let mut variables = Vec::new(alloc);
    variables.push(ItemVariable { name, is_boolean })?;
    let slots = vec![in alloc; name.number; count as usize]?;
    Ok(Items { variables, slots })
}

/// The items' slots one after the other.
pub(crate) fn sequence(alloc: Global, all: &[Items]) -> Result<Items, NoMemory>
    ensures { IfOk result (λ s. slotted_of s ≡ in_sequence (map slotted_of all.now)) }
{
    let variables = variables_of(alloc, all)?;
    let mut slots = Vec::new(alloc);
    for item in all {
        slots.extend_from_slice(item.slots.as_slice())?;
    }
    Ok(Items { variables, slots })
}

/// The items' variables one after the other.
fn variables_of(alloc: Global, all: &[Items]) -> Result<Vec<ItemVariable>, NoMemory>
    ensures { IfOk result (λ vs. map variable_of vs.items ≡ all_variables (map slotted_of all.now)) }
{
    let mut variables = Vec::new(alloc);
    for item in all {
        variables.extend_from_slice(item.variables.as_slice())?;
    }
    Ok(variables)
}

/// The first slot of each item, then the second of each, and so on, of items with equal counts.
fn mixed(alloc: Global, all: &[Items]) -> Result<Items, BindFault>
    ensures { Gives slotted_of result (mixed_items (map slotted_of all.now)) }
{
    let count = match all {
        [first, ..] => first.slots.len(),
        [] => 0,
    };
    if !have_count(count, all) {
        return Err(BindFault::Bad);
    }
    let variables = variables_of(alloc, all)?;
    let mut slots = Vec::new(alloc);
    for k in 0..count {
        add_slots(all, k, &mut slots)?;
    }
    Ok(Items { variables, slots })
}

/// Whether each item has so many slots.
fn have_count(count: usize, all: &[Items]) -> bool
    ensures { result ≡ have_slots count (map slotted_of all.now) }
{
    for item in all {
        if item.slots.len() != count {
            return false;
        }
    }
    true
}

/// Adds slot k of each item.
fn add_slots(all: &[Items], k: usize, slots: &mut Vec<u64>) -> Result<(), NoMemory>
    ensures { OnOk result (slots.new.items ≡ slots.old.items ++ slots_at (map slotted_of all.now) k) }
{
    for item in all {
        let slot = match item.slots.get(k) {
            Some(slot) => *slot,
            None => 0,
        };
        slots.push(slot)?;
    }
    Ok(())
}

/// The places of a variable's slots, in their order.
pub(crate) fn places_of(alloc: Global, slots: &[u64], name: TextId) -> Result<Vec<u32>, NoMemory>
    requires { length slots.now ≤ 1024 }
    ensures { IfOk result (λ v. v.items ≡ places_meant name.number slots.now) }
{
    let mut places = Vec::new(alloc);
    for (k, slot) in slots.iter().enumerate() {
        add_place(&mut places, k as u32, *slot == name.number)?;
    }
    Ok(places)
}

/// Adds a place where it is wanted.
fn add_place(places: &mut Vec<u32>, place: u32, wanted: bool) -> Result<(), NoMemory>
    ensures { OnOk result (places.new.items ≡ places.old.items ++ (if wanted then place ∷ [] else [])) }
{
    if wanted {
        places.push(place)?;
    }
    Ok(())
}
