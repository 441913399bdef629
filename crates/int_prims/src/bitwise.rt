//! Bitwise operations in two's complement, single bits, and the length of an integer.

ghost use Rattle.std.specs.Prelude.{◌≡◌, pos, ◌≤ℤ◌, unsigned_abs, bit_or, bit_xor};
ghost use Rattle.gl_logic.specs.Bitwise.{not_ℤ, and_ℤ, or_ℤ, xor_ℤ};
ghost use Rattle.gl_logic.specs.Lengths.{binary_length, integer_length};

// of numbers that are not negative
#[tactic(auto, using(crate::proofs::Bounds::or_of_127))]
fn or_bits(a: i128, b: i128) -> i128
    requires a { pos 0 ≤ℤ a }
    requires b { pos 0 ≤ℤ b }
    ensures { result ≡ pos (bit_or (unsigned_abs a) (unsigned_abs b)) }
{
    a | b
}

#[tactic(auto, using(crate::proofs::Bounds::xor_of_127))]
fn xor_bits(a: i128, b: i128) -> i128
    requires a { pos 0 ≤ℤ a }
    requires b { pos 0 ≤ℤ b }
    ensures { result ≡ pos (bit_xor (unsigned_abs a) (unsigned_abs b)) }
{
    a ^ b
}

/// `(lognot a)`
pub(crate) fn complement(a: i128) -> i128
    ensures { result ≡ not_ℤ a }
{
    -1 - a
}

/// `(binary-logand a b)`
pub(crate) fn and(a: i128, b: i128) -> i128
    ensures { result ≡ and_ℤ a b }
{
    if a >= 0 {
        if b >= 0 {
            a & b
        } else {
            a - (a & complement(b))
        }
    } else if b >= 0 {
        b - (complement(a) & b)
    } else {
        complement(or_bits(complement(a), complement(b)))
    }
}

/// `(binary-logior a b)`
pub(crate) fn or(a: i128, b: i128) -> i128
    ensures { result ≡ or_ℤ a b }
{
    complement(and(complement(a), complement(b)))
}

/// `(binary-logxor a b)`
pub(crate) fn xor(a: i128, b: i128) -> i128
    ensures { result ≡ xor_ℤ a b }
{
    if a >= 0 {
        if b >= 0 {
            xor_bits(a, b)
        } else {
            complement(xor_bits(a, complement(b)))
        }
    } else if b >= 0 {
        complement(xor_bits(complement(a), b))
    } else {
        xor_bits(complement(a), complement(b))
    }
}

// the number of binary digits
fn digits(n: u128) -> u32
    ensures { result ≡ binary_length n }
{
    128 - n.leading_zeros()
}

/// `(integer-length a)`
pub(crate) fn length(a: i128) -> i128
    ensures { result ≡ pos (integer_length a) }
{
    if a >= 0 {
        digits(a as u128) as i128
    } else {
        digits(complement(a) as u128) as i128
    }
}
