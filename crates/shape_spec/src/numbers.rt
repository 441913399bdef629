//! The assignments of numbers.

ghost use Rattle.std.specs.Prelude.{◌≡◌, ℕ, ◌<◌, length, IfOk};
ghost use Rattle.gl_logic.specs.Assignments.{value_at};
ghost use Rattle.shape_spec.specs.InputMeant.{input_meant, assignment_numbered};

use super::binding_list::{Bindings, bit_count, input_of};
use super::inputs::Inputs;
use gl_logic::{Assignment, NoMemory};
use std::alloc::Global;

/// Gives the variables of an assignment, which are `width` in number, the binary digits of a number, the
/// lowest to variable 0.
pub fn set_number(a: &mut Assignment, width: u32, number: u64)
    requires { length a.old ≡ width }
    ensures width { length a.new ≡ width }
    ensures bits { (k : ℕ) → k < width → value_at a.new k ≡ assignment_numbered number k }
{
    let mut rest = number;
    for k in 0..width {
        a.set(k, rest % 2 == 1);
        rest /= 2;
    }
}

/// The input of the assignment of a number.
pub fn input_numbered(alloc: Global, b: &Bindings, number: u64) -> Result<Inputs, NoMemory>
    ensures { IfOk result (λ s. s ≡ input_meant b.now (assignment_numbered number)) }
{
    let width = bit_count(b);
    let mut a = Assignment::new(alloc, width)?;
    set_number(&mut a, width, number);
    input_of(alloc, b, &a)
}
