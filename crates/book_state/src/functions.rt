//! Lists of functions with one more, and with one less.

ghost use Rattle.std.specs.Prelude.{◌≡◌, ◌<◌, ℕ, eqb, not, All, IfOk, OnOk, OnErr};
ghost use Rattle.std.specs.List.{filter, list_any};
ghost use Rattle.event_world.specs.NextState.{with_function, without_function};

use gl_logic::{FnId, NoMemory};
use shape_spec::FnSet;
use std::alloc::Global;

/// Whether a function is among others.
fn contains(functions: &FnSet, f: FnId) -> bool
    ensures { result ≡ list_any (eqb f.number) functions.now }
{
    for i in 0..functions.len() {
        if f.number == functions.at(i).number {
            return true;
        }
    }
    false
}

/// Puts a function last, where it is not there already.
pub fn add(functions: &mut FnSet, f: FnId) -> Result<(), NoMemory>
    ensures ok { OnOk result (functions.new ≡ with_function functions.old f.number) }
    ensures err { OnErr result (functions.new ≡ functions.old) }
{
    if contains(functions, f) {
        Ok(())
    } else {
        functions.push(f)
    }
}

/// The functions without one of them.
fn without(alloc: Global, functions: &FnSet, f: FnId) -> Result<FnSet, NoMemory>
    ensures { IfOk result (λ fs. fs ≡ without_function functions.now f.number) }
{
    let mut left = FnSet::new(alloc);
    for i in 0..functions.len() {
        let g = *functions.at(i);
        if f.number != g.number {
            left.push(g)?;
        }
    }
    Ok(left)
}

/// Takes a function out, where it is there.
pub fn remove(alloc: Global, functions: &mut FnSet, f: FnId) -> Result<(), NoMemory>
    ensures ok { OnOk result (functions.new ≡ without_function functions.old f.number) }
    ensures err { OnErr result (functions.new ≡ functions.old) }
    ensures among { (n : ℕ) → All (λ g. g < n) functions.old → All (λ g. g < n) functions.new }
{
    *functions = without(alloc, functions, f)?;
    Ok(())
}

/// The same functions again.
pub fn copy_of(alloc: Global, functions: &FnSet) -> Result<FnSet, NoMemory>
    ensures { IfOk result (λ fs. fs ≡ functions.now) }
{
    let mut copy = FnSet::new(alloc);
    for i in 0..functions.len() {
        copy.push(*functions.at(i))?;
    }
    Ok(copy)
}
