//! Indices of forms.

ghost use Rattle.std.specs.Prelude.{◌≡◌, ◌<◌, ◌^◌, [], ◌∷◌, ◌++◌, reverse, Some, IfSome};
ghost use Rattle.std.specs.Option.{option_map};
ghost use Rattle.shape_spec.specs.ShapeSeen.{Integer, Boolean};
ghost use Rattle.gl_logic.specs.Wording.{all_meant};
ghost use Rattle.shape_spec.specs.ShapeMeant.{index_meant, stepped as stepped_from, progression as progression_meant};
ghost use Rattle.shape_spec.specs.Gives.{Gives, taken, small, small_index, all_small, shape_left};
ghost use Rattle.shape_spec.specs.BindingsMeant.{are_below as below_all};

use super::fault::BindFault;
use super::shape::Shape;
use gl_logic::{Tree, TreeKind};
use std::alloc::Global;

/// A natural number.
pub(crate) fn natural_of(form: &Tree) -> Option<u128>
    ensures is { result ≡ index_meant form.now }
    ensures bound { IfSome result (λ n. n < 2 ^ 127) }
{
    match form.kind() {
        TreeKind::Int(i) => { if i >= 0 { Some(i.unsigned_abs()) } else { None } }
        _ => None,
    }
}

/// An index.
pub(crate) fn index_of(form: &Tree) -> Result<u32, BindFault>
    ensures { Gives (λ i. i) result (small_index form.now) }
{
    match natural_of(form) {
        Some(n) => small_number(n),
        None => Err(BindFault::Bad),
    }
}

/// A number that is an index.
fn small_number(n: u128) -> Result<u32, BindFault>
    ensures { Gives (λ i. i) result (small (Some n)) }
{
    if n < 1_000_000 {
        Ok(n as u32)
    } else {
        Err(BindFault::Bad)
    }
}

/// The indices of forms, which stand from the last to the first.
pub(crate) fn indices_of(alloc: Global, forms: &[Tree]) -> Result<Vec<u32>, BindFault>
    ensures { Gives (λ v. v.items) result (all_meant small_index (reverse forms.now)) }
{
    let mut indices = Vec::new(alloc);
    let mut left = forms.len();
    while left > 0 {
        left -= 1;
        push_index(&mut indices, &forms[left])?;
    }
    Ok(indices)
}

/// Puts the index of a form last.
fn push_index(indices: &mut Vec<u32>, form: &Tree) -> Result<(), BindFault>
    ensures { Gives (λ _. indices.new.items) result (option_map (λ i. indices.old.items ++ i ∷ []) (small_index form.now)) }
{
    indices.push(index_of(form)?)?;
    Ok(())
}

/// So many numbers from the first on, each one step further.
fn stepped(alloc: Global, start: u128, step: u128, count: u32) -> Result<Vec<u32>, BindFault>
    requires { step < 2 ^ 127 }
    ensures { Gives (λ v. v.items) result (all_small (stepped_from start step count)) }
{
    let mut indices = Vec::new(alloc);
    let mut next = start;
    for _ in 0..count {
        indices.push(small_number(next)?)?;
        next += step;
    }
    Ok(indices)
}

/// The integer of so many numbers from the first on, each one step further.
pub(crate) fn progression(
    alloc: Global,
    start: u128,
    step: u128,
    count: u128,
    left: u32,
) -> Result<(Shape, u32), BindFault>
    requires { step < 2 ^ 127 }
    ensures { Gives shape_left result (taken left (progression_meant (Some start) (Some step) (Some count))) }
{
    if step == 0 || count == 0 || count > 128 {
        return Err(BindFault::Bad);
    }
    integer(stepped(alloc, start, step, count as u32)?, left)
}

/// The Boolean of an index, where so many may be used.
pub(crate) fn boolean(index: u32, left: u32) -> Result<(Shape, u32), BindFault>
    ensures { Gives shape_left result (taken left (Some (Boolean index))) }
{
    if left == 0 || index >= 1_000_000 {
        return Err(BindFault::Bad);
    }
    Ok((Shape::Boolean(index), left - 1))
}

/// The integer of 1 to 128 indices, where so many may be used.
pub(crate) fn integer(indices: Vec<u32>, left: u32) -> Result<(Shape, u32), BindFault>
    ensures { Gives shape_left result (taken left (Some (Integer indices.items))) }
{
    let count = indices.len();
    if count == 0 || count > 128 || count as u32 > left || !are_below(indices.as_slice()) {
        return Err(BindFault::Bad);
    }
    Ok((Shape::Integer(indices), left - count as u32))
}

/// Whether numbers are indices.
fn are_below(indices: &[u32]) -> bool
    ensures { result ≡ below_all indices.now }
{
    indices.iter().all(|i| *i < 1_000_000)
}
