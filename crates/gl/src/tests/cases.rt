//! The stalls of theorems by cases.

ghost use Rattle.std.specs.Prelude.{◌≤◌};

use super::rows::told_to;
use gl_base::limits::Limits;
use gl_base::memory_sink::MemorySink;
use gl_base::status::Status;
use gl_book::run_text;
use std::alloc::Global;
use std::process::Abort;
use std::thread::Threads;

/// The first runs out of nodes on its cover, the second on both cases. So does the third on its first case, but the second
/// is refuted, and its line tells of no nodes.
const BOOK: &[u8] =
    b"(def-gl-param-thm f :hyp (and (unsigned-byte-p 8 x) (unsigned-byte-p 8 y)) :concl t :param-hyp (equal (equal (* x y) (* y x)) k)
  :param-bindings '((((k t)) ((x (:g-integer 0 2 4 6 8 10 12 14 16)) (y (:g-integer 1 3 5 7 9 11 13 15 17)))))
  :cov-bindings '((x (:g-integer 0 2 4 6 8 10 12 14 16)) (y (:g-integer 1 3 5 7 9 11 13 15 17))))
(def-gl-param-thm g :hyp (and (unsigned-byte-p 8 x) (unsigned-byte-p 8 y)) :concl (equal (* x y) (* y x)) :param-hyp (equal (logbitp 7 x) k)
  :param-bindings '((((k nil)) ((x (:g-integer 0 2 4 6 8 10 12 14 16)) (y (:g-integer 1 3 5 7 9 11 13 15 17)))) (((k t)) ((x (:g-integer 0 2 4 6 8 10 12 14 16)) (y (:g-integer 1 3 5 7 9 11 13 15 17)))))
  :cov-bindings '((x (:g-integer 0 2 4 6 8 10 12 14 16)) (y (:g-integer 1 3 5 7 9 11 13 15 17))))
(def-gl-param-thm h :hyp (and (unsigned-byte-p 8 x) (unsigned-byte-p 8 y)) :concl (if (logbitp 7 x) nil (equal (* x y) (* y x))) :param-hyp (equal (logbitp 7 x) k)
  :param-bindings '((((k nil)) ((x (:g-integer 0 2 4 6 8 10 12 14 16)) (y (:g-integer 1 3 5 7 9 11 13 15 17)))) (((k t)) ((x (:g-integer 0 2 4 6 8 10 12 14 16)) (y (:g-integer 1 3 5 7 9 11 13 15 17)))))
  :cov-bindings '((x (:g-integer 0 2 4 6 8 10 12 14 16)) (y (:g-integer 1 3 5 7 9 11 13 15 17))))
";

/// How many stalls a run by so many workers adds.
fn stalls_by<R: Abort + Threads + Sync>(rt: &R, alloc: Global, workers: u8) -> u64
    requires one { 1 ≤ workers }
    requires eight { workers ≤ 8 }
{
    let mut limits = Limits::usual();
    limits.nodes = 1000;
    limits.workers = workers;
    let sink = MemorySink::new(alloc, 10000, Vec::new(alloc)).expect(rt, "memory");
    let mut out = told_to(alloc, sink);
    let status = run_text(rt, alloc, BOOK, &limits, false, &mut out);
    assert!(rt; status == Status::Refuted);
    assert!(rt;
        out.sink.bytes().starts_with(
            b"UNDECIDED F cover nodes\nUNDECIDED G case 1 nodes\nREFUTED H\n"
        )
    );
    out.stalls.len()
}

#[test]
fn one_stall_a_line(rt: HostRuntime) {
    for workers in &[1, 2, 3] {
        assert!(rt; 1 <= *workers && *workers <= 8);
        assert!(rt; stalls_by(&rt, rt.alloc(), *workers) == 2);
    }
}
