//! A store with one variable: its four functions are there, so that no call needs a node.

ghost use Rattle.std.specs.Prelude.{◌≡◌, ◌<◌, ◌+◌, ◌*◌, ◌/◌, ◌%◌, ℕ, Bool, true, false, not, cond, eqb};

use bfr_store::{Bits, Decision, Edge, Full, Meaning};
use gl_logic::{Assignment, NoMemory};

/// The number of an edge is twice its truth where the variable is true, and its truth elsewhere.
#[derive(Drop)]
pub struct Single {
    pub limit: u32,
}

impl Meaning for Single {
    ghost use Rattle.std.specs.Prelude.{◌<◌, ◌/◌, ◌%◌, ℕ, Bool, true, false, cond, eqb};

    ghost live = { λ s e. e.number < 4 };

    ghost truth_of = { λ s e a. cond (a 0) (eqb (e.number / 2) 1) (eqb (e.number % 2) 1) };

    ghost constant_edge = { λ b. record { number = cond b 3 0 } };

    ghost spent = { λ s. false };

    ghost budget_of = { λ s. 0 };

    ghost limit_of = { λ s. 0 };

    ghost count_of = { λ s. 0 };

    ghost width_of = { λ s. 1 };
}

/// The function with these truths where the variable is true and where it is false.
pub fn function(high: bool, low: bool) -> Edge
    ensures live { result.number < 4 }
    ensures high { eqb (result.number / 2) 1 ≡ high }
    ensures low { eqb (result.number % 2) 1 ≡ low }
{
    let number = match (high, low) {
        (false, false) => 0,
        (false, true) => 1,
        (true, false) => 2,
        (true, true) => 3,
    };
    Edge { number }
}

/// The truth where the variable is true.
pub fn high(e: Edge) -> bool
    ensures { result ≡ eqb (e.number / 2) 1 }
{
    e.number / 2 == 1
}

/// The truth where the variable is false.
pub fn low(e: Edge) -> bool
    ensures { result ≡ eqb (e.number % 2) 1 }
{
    e.number % 2 == 1
}

fn choose(t: bool, x: bool, y: bool) -> bool
    ensures { result ≡ cond t x y }
{
    if t { x } else { y }
}

fn negate(x: bool) -> bool
    ensures { result ≡ not x }
{
    !x
}

impl Bits for Single {
    fn constant(&self, b: bool) -> Edge {
        Edge {
            number: if b { 3 } else { 0 },
        }
    }

    fn not(&self, x: Edge) -> Edge {
        function(negate(high(x)), negate(low(x)))
    }

    fn var(&mut self, _k: u32) -> Result<Edge, Full> {
        Err(Full)
    }

    fn and(&mut self, x: Edge, y: Edge) -> Result<Edge, Full> {
        let zero = self.constant(false);
        self.ite(x, y, zero)
    }

    fn ite(&mut self, t: Edge, x: Edge, y: Edge) -> Result<Edge, Full> {
        let top = choose(high(t), high(x), high(y));
        let bottom = choose(low(t), low(x), low(y));
        Ok(function(top, bottom))
    }

    fn decide(&mut self, _e: Edge, _out: &mut Assignment) -> Result<Decision, NoMemory> {
        Err(NoMemory)
    }

    fn value(&mut self, e: Edge, a: &Assignment) -> bool {
        choose(a.get(0), high(e), low(e))
    }

    fn count(&self) -> u32 {
        0
    }

    fn limit(&self) -> u32 {
        0
    }

    fn width(&self) -> u32 {
        1
    }
}
