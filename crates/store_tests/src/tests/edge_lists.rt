//! What no clause says: that the calls run, at the greatest length too.

use bfr_store::{Bitvec, Edge};
use std::process::Abort;

/// The edge that a test puts at place `k`.
fn edge_at(rt: &impl Abort, k: u32) -> Edge {
    assert!(rt; k < Bitvec::MOST);
    Edge::regular(k).flipped_if(k % 3 == 0)
}

#[test]
fn as_many_edges_as_there_may_be(rt: HostRuntime) {
    let mut bits = Bitvec::of(&[edge_at(&rt, 0)]);
    for k in 1..Bitvec::MOST {
        assert!(rt; !bits.is_full(), "{k}");
        bits.push(edge_at(&rt, k));
    }
    assert!(rt; bits.is_full() && bits.len() == 260);
    for k in 0..Bitvec::MOST {
        assert!(rt; k < bits.len());
        let edge = bits.at(k);
        let is_same = edge == edge_at(&rt, k) && edge.node() == k;
        assert!(rt; is_same && edge.is_complemented() == (k % 3 == 0), "{k}");
    }
}
