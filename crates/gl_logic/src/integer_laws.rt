//! Laws of the integers of the logic. Each is the contract of a function that does nothing, so that a caller may cite it.

ghost use Rattle.std.specs.Prelude.{◌≡◌, ◌≢◌, ◌↔◌, ℕ, suc, ◌+◌, ◌^◌, ◌<◌, ◌≤◌, Bool, true, not, ◌&&◌, ◌||◌, List, ◌∷◌, length, ℤ, pos, negsuc, ◌+ℤ◌, ◌*ℤ◌, ◌≤ℤ◌, ◌<ℤ◌, unsigned_abs};
ghost use Rattle.gl_logic.specs.Quotients.{floor_ℤ, mod_ℤ, truncate_ℤ, rem_ℤ};
ghost use Rattle.gl_logic.specs.Shifts.{ash_ℤ};
ghost use Rattle.gl_logic.specs.Bitwise.{bit_at, not_ℤ, and_ℤ, or_ℤ, xor_ℤ, xor};
ghost use Rattle.gl_logic.specs.TwosComplement.{integer_of, bits_of, bit_of};
ghost use Rattle.gl_logic.specs.Bytes.{is_signed_byte};
ghost use Rattle.gl_logic.specs.Lengths.{integer_length};

/// `floor` and `mod` put the dividend together again. What is left has the divisor's sign and is smaller.
#[tactic(auto, using(crate::proofs::Quotients::mod_above, crate::proofs::Quotients::mod_under))]
pub fn floor_and_mod()
    ensures whole { (i j : ℤ) → (floor_ℤ i j *ℤ j) +ℤ mod_ℤ i j ≡ i }
    ensures above { (i j : ℤ) → pos 0 <ℤ j → (pos 0 ≤ℤ mod_ℤ i j) × (mod_ℤ i j <ℤ j) }
    ensures below { (i j : ℤ) → j <ℤ pos 0 → (j <ℤ mod_ℤ i j) × (mod_ℤ i j ≤ℤ pos 0) }
    ensures by_zero { (i : ℤ) → (floor_ℤ i (pos 0) ≡ pos 0) × (mod_ℤ i (pos 0) ≡ i) }
{}

/// `truncate` and `rem` put the dividend together again. What is left has the dividend's sign and is smaller.
pub fn truncate_and_rem()
    ensures whole { (i j : ℤ) → (truncate_ℤ i j *ℤ j) +ℤ rem_ℤ i j ≡ i }
    ensures smaller { (i j : ℤ) → j ≢ pos 0 → unsigned_abs (rem_ℤ i j) < unsigned_abs j }
    ensures not_negative { (i j : ℤ) → pos 0 ≤ℤ i → pos 0 ≤ℤ rem_ℤ i j }
    ensures not_positive { (i j : ℤ) → i ≤ℤ pos 0 → rem_ℤ i j ≤ℤ pos 0 }
    ensures by_zero { (i : ℤ) → (truncate_ℤ i (pos 0) ≡ pos 0) × (rem_ℤ i (pos 0) ≡ i) }
{}

/// `ash` multiplies by a power of two, or divides by one and rounds down.
pub fn shifts()
    ensures left { (i : ℤ) (c : ℕ) → ash_ℤ i (pos c) ≡ i *ℤ pos (2 ^ c) }
    ensures right { (i : ℤ) (c : ℕ) → ash_ℤ i (negsuc c) ≡ floor_ℤ i (pos (2 ^ (c + 1))) }
{}

/// A bit of a bitwise result is the operation on the bits, and the bits make the integer.
pub fn bits()
    ensures not { (k : ℕ) (i : ℤ) → bit_at k (not_ℤ i) ≡ not (bit_at k i) }
    ensures and { (k : ℕ) (i j : ℤ) → bit_at k (and_ℤ i j) ≡ (bit_at k i && bit_at k j) }
    ensures or { (k : ℕ) (i j : ℤ) → bit_at k (or_ℤ i j) ≡ (bit_at k i || bit_at k j) }
    ensures xor { (k : ℕ) (i j : ℤ) → bit_at k (xor_ℤ i j) ≡ xor (bit_at k i) (bit_at k j) }
    ensures lowest { (i : ℤ) → bit_at 0 i ≡ true ↔ mod_ℤ i (pos 2) ≡ pos 1 }
    ensures higher { (k : ℕ) (i : ℤ) → bit_at (suc k) i ≡ bit_at k (floor_ℤ i (pos 2)) }
    ensures same { (i j : ℤ) → ((k : ℕ) → bit_at k i ≡ bit_at k j) → i ≡ j }
{}

/// An integer of so many bits is its bits, and a list of bits is the bits of its integer.
pub fn lists_of_bits()
    ensures integer { (w : ℕ) (i : ℤ) → is_signed_byte (pos (suc w)) i ≡ true → integer_of (bits_of (suc w) i) ≡ i }
    ensures within { (b : Bool) (bs : List Bool) → is_signed_byte (pos (suc (length bs))) (integer_of (b ∷ bs)) ≡ true }
    ensures list { (b : Bool) (bs : List Bool) → bits_of (suc (length bs)) (integer_of (b ∷ bs)) ≡ b ∷ bs }
    ensures bit { (k : ℕ) (bs : List Bool) → bit_at k (integer_of bs) ≡ bit_of bs k }
    ensures bit_of_bits { (w : ℕ) (i : ℤ) (k : ℕ) → k < suc w → bit_of (bits_of (suc w) i) k ≡ bit_at k i }
{}

/// `integer-length` is zero for 0 and -1, else one more than that of half the integer: the least width beside the sign.
pub fn lengths()
    ensures none { (integer_length (pos 0) ≡ 0) × (integer_length (negsuc 0) ≡ 0) }
    ensures half { (i : ℤ) → i ≢ pos 0 → i ≢ negsuc 0 → integer_length i ≡ 1 + integer_length (floor_ℤ i (pos 2)) }
    ensures least { (k : ℕ) (i : ℤ) → is_signed_byte (pos (suc k)) i ≡ true ↔ integer_length i ≤ k }
{}
