//! A large book made from a number.

ghost use Rattle.std.specs.Prelude.{◌≡◌, ◌≤◌, ◌+◌, ◌%◌, ◌++◌, IfOk, OnOk, string_bytes};
ghost use Rattle.gl_book.specs.Generated.{generated, generated_line, line_front, generated_conclusion, line_back};

use gl_logic::NoMemory;
use std::alloc::Global;

/// The conclusion of theorem `i` on two numbers of `w` bits: a sum in two orders, or a bound that the greatest two
/// numbers alone pass.
fn conclusion(alloc: Global, i: u32, w: u32) -> Result<String, NoMemory>
    requires { w ≤ 8 }
    ensures { IfOk result (λ s. string_bytes s ≡ generated_conclusion i w) }
{
    if i % 2 == 0 {
        Ok(format!(in alloc; "(equal (+ x y {i}) (+ y {i} x))")?)
    } else {
        let bound = (1u32 << (w + 1)) - 2;
        Ok(format!(in alloc; "(< (+ x y) {bound})")?)
    }
}

/// What stands before the conclusion of theorem `i`.
fn front(alloc: Global, i: u32, w: u32) -> Result<String, NoMemory>
    ensures { IfOk result (λ s. string_bytes s ≡ line_front i w) }
{
    Ok(format!(in alloc;
        "(def-gl-thm t{i} :hyp (and (unsigned-byte-p {w} x) (unsigned-byte-p {w} y)) :concl "
    )?)
}

/// What stands behind the conclusion of a theorem.
fn back(alloc: Global, w: u32) -> Result<String, NoMemory>
    ensures { IfOk result (λ s. string_bytes s ≡ line_back w) }
{
    Ok(format!(in alloc; " :g-bindings (auto-bindings (:mix (:nat x {w}) (:nat y {w}))))\n")?)
}

/// Adds the line of theorem `i`.
fn add_line(alloc: Global, i: u32, bytes: &mut Vec<u8>) -> Result<(), NoMemory>
    ensures { OnOk result (bytes.new.items ≡ bytes.old.items ++ generated_line i) }
{
    let w = 4 + i % 5;
    bytes.extend_from_slice(front(alloc, i, w)?.as_bytes())?;
    bytes.extend_from_slice(conclusion(alloc, i, w)?.as_bytes())?;
    bytes.extend_from_slice(back(alloc, w)?.as_bytes())?;
    Ok(())
}

/// The book of `n` theorems, a line for each: theorem `i`, from 0, is on two numbers of 4 to 8 bits. Those of even
/// number hold, and the others have one counterexample.
pub fn generate(alloc: Global, n: u32) -> Result<Vec<u8>, NoMemory>
    requires { n ≤ 10000 }
    ensures { IfOk result (λ v. v.items ≡ generated n) }
{
    let mut bytes = Vec::new(alloc);
    for i in 0..n {
        add_line(alloc, i, &mut bytes)?;
    }
    Ok(bytes)
}
