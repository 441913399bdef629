//! Where tables keep what they are asked for by numbers.

ghost use Rattle.std.specs.Prelude.{◌≡◌, ◌<◌};
ghost use Rattle.node_table.specs.Hashes.{bucket_of, hash_of};

/// The hash of three numbers: a sum that differs where they do, as a rule, multiplied by the odd number nearest to 2^64
/// over the golden ratio, so that the high bits depend on all (Knuth's multiplicative hashing).
#[inline]
#[tactic(auto, unfolding(crate::specs::Hashes::hash_of))]
pub fn hash(first: u32, second: u32, third: u32) -> u64
    ensures { result ≡ hash_of first second third }
{
    let sum = first as u64 * 625_341_585
        + second as u64 * 1_013_904_223
        + third as u64 * 521_288_629;
    sum.wrapping_mul(11_400_714_819_323_198_485)
}

/// The place of a hash among `count`: the high half of their product, which takes no division.
#[inline]
#[tactic(auto, unfolding(crate::specs::Hashes::bucket_of), using(crate::proofs::Buckets::spread_below))]
pub fn spread(hash: u64, count: usize) -> usize
    requires { 0 < count }
    ensures place { result ≡ bucket_of count hash }
    ensures within { result < count }
{
    let product = hash as u128 * count as u128;
    (product / 18_446_744_073_709_551_616) as usize
}
