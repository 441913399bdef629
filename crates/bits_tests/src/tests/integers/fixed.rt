//! A store with no room: the constants and two variables are there, and each call that would make a node is refused.

ghost use Rattle.std.specs.Prelude.{◌≡◌, ◌≢◌, ◌≤◌, ◌<◌, ◌+◌, ◌&&◌, ◌↔◌, ℕ, Bool, true, false, not, cond, eqb, max, is_ok, length, IsTrue, IfOk, IsOk, OnErr, if◌then◌else◌};
ghost use Rattle.std.specs.List.{All};
ghost use Rattle.bfr_store.specs.Keeps.{Makes, MakesVariable};
ghost use Rattle.gl_logic.specs.Assignments.{value_at};

use bfr_store::{Bits, Bitvec, Decision, Edge, Full, Meaning};
use gl_logic::{Assignment, NoMemory};
use std::process::Abort;

/// Edge 0 is true and edge 1 false, edges 2 and 4 are variables 0 and 1, and edges 3 and 5 their complements.
#[derive(Drop)]
pub struct Fixed {
    pub limit: u32,
}

impl Meaning for Fixed {
    ghost use Rattle.std.specs.Prelude.{◌<◌, ℕ, Bool, true, false, cond, eqb};
    ghost use Rattle.bfr_store.specs.Edges.{node_of, is_flipped, xor};

    ghost live = { λ s e. e.number < 6 };

    ghost truth_of = { λ s e a. xor (is_flipped e) (cond (eqb (node_of e) 0) true (cond (eqb (node_of e) 1) (a 0) (a 1))) };

    ghost constant_edge = { λ b. record { number = cond b 0 1 } };

    ghost spent = { λ s. false };

    ghost budget_of = { λ s. 0 };

    ghost limit_of = { λ s. 0 };

    ghost count_of = { λ s. 0 };

    ghost width_of = { λ s. 2 };
}

impl Bits for Fixed {
    fn constant(&self, b: bool) -> Edge {
        Edge {
            number: if b { 0 } else { 1 },
        }
    }

    fn not(&self, x: Edge) -> Edge {
        if x.number % 2 == 0 {
            Edge {
                number: x.number + 1,
            }
        } else {
            Edge {
                number: x.number - 1,
            }
        }
    }

    fn var(&mut self, _k: u32) -> Result<Edge, Full> {
        Err(Full)
    }

    fn and(&mut self, _x: Edge, _y: Edge) -> Result<Edge, Full> {
        Err(Full)
    }

    fn ite(&mut self, _t: Edge, _x: Edge, _y: Edge) -> Result<Edge, Full> {
        Err(Full)
    }

    fn decide(&mut self, _e: Edge, _out: &mut Assignment) -> Result<Decision, NoMemory> {
        Err(NoMemory)
    }

    fn value(&mut self, e: Edge, a: &Assignment) -> bool {
        let truth = match e.node() {
            0 => true,
            1 => a.get(0),
            _ => a.get(1),
        };
        truth != e.is_complemented()
    }

    fn count(&self) -> u32 {
        0
    }

    fn limit(&self) -> u32 {
        0
    }

    fn width(&self) -> u32 {
        2
    }
}

/// Stops where an edge of the list is not one of the store's six.
pub fn check(rt: &impl Abort, a: &Bitvec)
    ensures { All (λ e. e.number < 6) a.now }
{
    for k in 0..a.len() {
        assert!(rt; a.at(k).number < 6);
    }
}

/// The integer in so many constant bits.
pub fn integer(rt: &impl Abort, value: i128, width: u32) -> Bitvec
    ensures { All (λ e. e.number < 6) result }
{
    let mut bits = Bitvec::of(&[edge_of(value % 2 != 0)]);
    let mut rest = half(value);
    for _ in 1..width {
        assert!(rt; !bits.is_full());
        bits.push(edge_of(rest % 2 != 0));
        rest = half(rest);
    }
    check(rt, &bits);
    bits
}

/// The edge of a constant.
fn edge_of(bit: bool) -> Edge {
    Edge {
        number: if bit { 0 } else { 1 },
    }
}

/// Half an integer, rounded down.
fn half(value: i128) -> i128 {
    if value >= 0 {
        value / 2
    } else {
        -1 - (-1 - value) / 2
    }
}

/// The integer that a list of constant edges is.
pub fn number_of(rt: &impl Abort, a: &Bitvec) -> i128 {
    let last = a.len() - 1;
    let mut value = if is_set(rt, a.at(last)) { -1i128 } else { 0 };
    for turn in 0..last {
        let twice = value.checked_mul(2).expect(rt, "more than 128 bits");
        let digit = if is_set(rt, a.at(last - 1 - turn)) {
            1
        } else {
            0
        };
        value = twice.checked_add(digit).expect(rt, "more than 128 bits");
    }
    value
}

/// Whether a constant edge is true.
pub fn is_set(rt: &impl Abort, edge: Edge) -> bool {
    assert!(rt; edge.number < 2, "no constant");
    edge.number == 0
}
