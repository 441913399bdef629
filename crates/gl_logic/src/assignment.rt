//! A truth value for each of some variables.

ghost use Rattle.std.specs.Prelude.{◌≡◌, ◌<◌, length, IfOk, false, replicate, slice_set};
ghost use Rattle.gl_logic.specs.Assignments.{value_at};

use super::ids::NoMemory;
use std::alloc::Global;
use std::marker::Model;

/// The truth values of the variables 0, 1, 2 and so on below a width.
#[derive(Drop)]
pub struct Assignment {
    bits: Vec<bool>,
}

impl Model for Assignment {
    ghost use Rattle.std.specs.Prelude.{List, Bool};

    ghost Value = { List Bool };

    ghost view = { λ a. a.bits.items };
}

impl Assignment {
    /// That many variables, all false.
    pub fn new(alloc: Global, width: u32) -> Result<Assignment, NoMemory>
        ensures { IfOk result (λ a. a ≡ replicate width false) }
    {
        Ok(Assignment {
            bits: vec![in alloc; false; width as usize]?,
        })
    }

    /// The value of variable `k`.
    pub fn get(&self, k: u32) -> bool
        requires { k < length self.now }
        ensures { result ≡ value_at self.now k }
    {
        self.bits[k as usize]
    }

    /// Gives variable `k` a value.
    pub fn set(&mut self, k: u32, b: bool)
        requires { k < length self.old }
        ensures { self.new ≡ slice_set self.old k b }
    {
        self.bits[k as usize] = b;
    }
}
