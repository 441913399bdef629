//! The chains that find a node again, as the buckets grow in their room.

ghost use Rattle.std.specs.Prelude.{◌≡◌, ◌≤◌, ◌<◌, ◌^◌, length, replicate, vec_capacity};
ghost use Rattle.sym_objects.specs.Table.{IsChained};

use super::node::Node;

/// Puts a zero into each of so many places, for which there is room.
fn zero(places: &mut Vec<u32>, count: usize)
    requires { count ≤ vec_capacity places.old }
    ensures items { places.new.items ≡ replicate count 0 }
    ensures capacity { vec_capacity places.old ≤ vec_capacity places.new }
{
    places.clear();
    match places.resize(count, 0) {
        Ok(()) => {}
        Err(_) => unreachable!(),
    }
}

/// Chains all nodes anew, in so many buckets, for which there is room.
pub(crate) fn chain(nodes: &[Node], next: &mut Vec<u32>, heads: &mut Vec<u32>, count: usize)
    requires some { 0 < count }
    requires small { length nodes.now < 2 ^ 32 }
    requires next { length nodes.now ≤ vec_capacity next.old }
    requires heads { count ≤ vec_capacity heads.old }
    ensures chained { IsChained count nodes.now next.new.items heads.new.items }
    ensures next { vec_capacity next.old ≤ vec_capacity next.new }
    ensures heads { vec_capacity heads.old ≤ vec_capacity heads.new }
{
    zero(heads, count);
    next.clear();
    for number in 0..nodes.len() {
        let bucket = nodes[number].bucket(count);
        next.push_reserved(heads[bucket]);
        heads[bucket] = number as u32 + 1;
    }
}
