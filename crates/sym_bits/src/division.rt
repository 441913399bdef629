//! Division of natural numbers, bit by bit from the top.

ghost use Rattle.std.specs.Prelude.{◌≡◌, ◌≤◌, ◌<◌, ℕ, Bool, cond, length, pos, ◌+ℤ◌, ◌≤ℤ◌, ◌<ℤ◌, IfOk, OnErr};
ghost use Rattle.bfr_store.specs.Keeps.{Keeps};
ghost use Rattle.gl_logic.specs.TwosComplement.{digit};
ghost use Rattle.sym_bits.specs.Dividing.{Divides};
ghost use Rattle.sym_bits.specs.Integers.{AllLive, integer_under};

use super::bitwise::select;
use super::lists::{bit, constant_bit, lowest, push_below};
use super::sums::subtract;
use bfr_store::{Bits, Bitvec, Edge, Full};

/// One turn: what is left of the higher bits gets the next bit below it, and the divisor is taken away where it goes
/// into that. The first answer says where it does. `Full` as for `Bits::and`.
fn turn<B: Bits>(
    store: &mut B,
    next: Edge,
    rest: &Bitvec,
    divisor: &Bitvec,
) -> Result<(Edge, Bitvec), Full>
    requires next { B.live store.old next }
    requires rest { AllLive B.Meaning store.old rest.now }
    requires divisor { AllLive B.Meaning store.old divisor.now }
    requires rest_width { length rest.now ≤ 129 }
    requires divisor_width { length divisor.now ≤ 129 }
    ensures keeps { Keeps B.Meaning store.old store.new }
    ensures live { IfOk result (λ r. B.live store.new r.0 × AllLive B.Meaning store.new r.1) }
    ensures width { IfOk result (λ r. length r.1 ≤ 129) }
    ensures value { IfOk result (λ r. (x : ℕ → Bool) → pos 0 ≤ℤ integer_under B.Meaning store.old rest.now x → integer_under B.Meaning store.old rest.now x <ℤ integer_under B.Meaning store.old divisor.now x
        → Divides (digit (B.truth_of store.old next x) +ℤ (integer_under B.Meaning store.old rest.now x +ℤ integer_under B.Meaning store.old rest.now x)) (integer_under B.Meaning store.old divisor.now x)
        (digit (B.truth_of store.new r.0 x)) (integer_under B.Meaning store.new r.1 x)) }
    ensures full { OnErr result (B.count_of store.new ≡ B.limit_of store.new) }
{
    let dividend = push_below(store, next, rest);
    let trial = subtract(store, &dividend, divisor)?;
    let is_less = bit(store, &trial, trial.len() - 1);
    let width = divisor.len();
    let (whole, less) = (lowest(&dividend, width), lowest(&trial, width));
    let left = select(store, is_less, &whole, &less)?;
    Ok((store.not(is_less), left))
}

/// The quotient and the rest of a number that is not negative by one above 0, of at most 129 bits each. `Full` as for
/// `Bits::and`.
pub fn divide<B: Bits>(
    store: &mut B,
    dividend: &Bitvec,
    divisor: &Bitvec,
) -> Result<(Bitvec, Bitvec), Full>
    requires dividend { AllLive B.Meaning store.old dividend.now }
    requires divisor { AllLive B.Meaning store.old divisor.now }
    requires dividend_width { length dividend.now ≤ 129 }
    requires divisor_width { length divisor.now ≤ 129 }
    ensures keeps { Keeps B.Meaning store.old store.new }
    ensures live { IfOk result (λ r. AllLive B.Meaning store.new r.0 × AllLive B.Meaning store.new r.1) }
    ensures width { IfOk result (λ r. (length r.0 ≤ 129) × (length r.1 ≤ 129)) }
    ensures value { IfOk result (λ r. (x : ℕ → Bool) → pos 0 ≤ℤ integer_under B.Meaning store.old dividend.now x → pos 0 <ℤ integer_under B.Meaning store.old divisor.now x
        → Divides (integer_under B.Meaning store.old dividend.now x) (integer_under B.Meaning store.old divisor.now x) (integer_under B.Meaning store.new r.0 x) (integer_under B.Meaning store.new r.1 x)) }
    ensures full { OnErr result (B.count_of store.new ≡ B.limit_of store.new) }
{
    let last = dividend.len() - 1;
    let mut quotient = constant_bit(store, false);
    let mut rest = constant_bit(store, false);
    for done in 0..last {
        let next = bit(store, dividend, last - 1 - done);
        let (digit, left) = turn(store, next, &rest, divisor)?;
        quotient = push_below(store, digit, &quotient);
        rest = left;
    }
    Ok((quotient, rest))
}
