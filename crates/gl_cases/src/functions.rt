//! Sets of functions.

ghost use Rattle.std.specs.Prelude.{◌≡◌, IfOk};

use gl_logic::NoMemory;
use shape_spec::FnSet;
use std::alloc::Global;

/// An equal set of functions of its own.
pub fn copied_functions(alloc: Global, functions: &FnSet) -> Result<FnSet, NoMemory>
    ensures { IfOk result (λ fs. fs ≡ functions.now) }
{
    let mut all = FnSet::new(alloc);
    for i in 0..functions.len() {
        all.push(*functions.at(i))?;
    }
    Ok(all)
}
