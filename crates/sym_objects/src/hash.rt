//! Where a table keeps a node: a number made of the node's own words.

ghost use Rattle.std.specs.Prelude.{◌≡◌, ◌<◌, ◌*◌, ◌/◌, ◌%◌, ◌^◌};
ghost use Rattle.sym_objects.specs.Hashes.{bucket_of, hash_of, node_hash};

use super::node::Node;

/// The hash of three numbers: a sum that differs where they do, as a rule, multiplied by the odd number nearest to 2^64
/// over the golden ratio, so that the high bits depend on all (Knuth's multiplicative hashing).
#[inline]
#[tactic(auto, unfolding(crate::specs::Hashes::hash_of))]
fn hash(first: u32, second: u32, third: u32) -> u64
    ensures { result ≡ hash_of first second third }
{
    let sum = first as u64 * 625_341_585
        + second as u64 * 1_013_904_223
        + third as u64 * 521_288_629;
    sum.wrapping_mul(11_400_714_819_323_198_485)
}

/// The hash of a text's number and of what it is the text of.
fn text_hash(kind: u32, number: u64) -> u64
    ensures { result ≡ hash_of kind (number / 2 ^ 32) (number % 2 ^ 32) }
{
    let high = (number / 4_294_967_296) as u32;
    let low = (number % 4_294_967_296) as u32;
    hash(kind, high, low)
}

impl Node {
    /// The node's hash.
    #[tactic(auto, unfolding(crate::specs::Hashes::node_hash))]
    fn hash(self) -> u64
        ensures { result ≡ node_hash self }
    {
        match self {
            Node::Character(code) => hash(1, code as u32, 0),
            Node::Symbol(t) => text_hash(2, t.number),
            Node::Text(t) => text_hash(3, t.number),
            Node::Boolean(e) => hash(4, e.number, 0),
            Node::Sign(e) => hash(5, e.number, 0),
            Node::Bit(e, rest) => hash(6, e.number, rest.number),
            Node::Pair(first, rest) => hash(7, first.number, rest.number),
            Node::Choice(e, first, second) => hash(e.number, first.number, second.number),
        }
    }

    /// The bucket that the node is kept in, of `count`: the high half of the product of hash and count, which takes no
    /// division.
    #[inline]
    #[tactic(auto, unfolding(crate::specs::Hashes::bucket_of), using(crate::proofs::Spread::spread_below))]
    pub fn bucket(self, count: usize) -> usize
        requires { 0 < count }
        ensures bucket { result ≡ bucket_of count self }
        ensures within { result < count }
    {
        let product = self.hash() as u128 * count as u128;
        (product / 18_446_744_073_709_551_616) as usize
    }
}
