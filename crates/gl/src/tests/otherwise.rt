//! Theorems that take all nodes in their own mode, tried in the modes behind it: each verdict that comes so, and those that
//! stay undecided.

use super::rows::all_give;
use std::test::Fail;

// The words stand one after the other in the order of their bits, so that the diagrams of their sums and comparisons grow with
// the powers of two, and graphs do not.
const ROWS: &str = r#"
== --nodes 1000 b
(def-gl-thm sum :hyp (and (unsigned-byte-p 16 x) (unsigned-byte-p 16 y)) :concl (equal (+ x y) (- y (- x))) :g-bindings (auto-bindings (:nat x 16) (:nat y 16)))
=> 0
PROVED SUM
DONE proved=1 vacuous=0 refuted=0 undecided=0
== --nodes 1000 b
(gl-param-mode)
(def-gl-thm sum :hyp (and (unsigned-byte-p 16 x) (unsigned-byte-p 16 y)) :concl (equal (+ x y) (- y (- x))) :g-bindings (auto-bindings (:nat x 16) (:nat y 16)))
=> 0
MODE PARAM
PROVED SUM
DONE proved=1 vacuous=0 refuted=0 undecided=0
== --nodes 1000 b
(def-gl-thm apart :hyp (and (unsigned-byte-p 16 x) (unsigned-byte-p 16 y)) :concl (not (equal (- x y) 65535)) :g-bindings (auto-bindings (:nat x 16) (:nat y 16)))
=> 1
REFUTED APART
  X = 65535
  Y = 0
DONE proved=0 vacuous=0 refuted=1 undecided=0
== --nodes 1000 b
(gl-param-mode)
(def-gl-thm apart :hyp (and (unsigned-byte-p 16 x) (unsigned-byte-p 16 y)) :concl (not (equal (- x y) 65535)) :g-bindings (auto-bindings (:nat x 16) (:nat y 16)))
=> 1
MODE PARAM
REFUTED APART
  X = 65535
  Y = 0
DONE proved=0 vacuous=0 refuted=1 undecided=0
== --nodes 1000 b
(def-gl-thm both :hyp (and (unsigned-byte-p 16 x) (unsigned-byte-p 16 y) (< x y) (< y x)) :concl nil :g-bindings (auto-bindings (:nat x 16) (:nat y 16)))
=> 0
VACUOUS BOTH
DONE proved=0 vacuous=1 refuted=0 undecided=0
== --nodes 1000 b
(defun down (n) (if (zp n) 0 (down (- n 1))))
(def-gl-thm low :hyp (and (unsigned-byte-p 16 x) (unsigned-byte-p 16 y) (< x y) (< 2 x) (< y 5)) :concl (equal (down x) 0) :concl-clk 4 :g-bindings (auto-bindings (:nat x 16) (:nat y 16)))
=> 3
DEFUN DOWN (ACL2-COUNT N)
UNDECIDED LOW clock concl
  X = 3
  Y = 4
DONE proved=0 vacuous=0 refuted=0 undecided=1
== --nodes 1000 --clauses 1 b
(def-gl-thm sum :hyp (and (unsigned-byte-p 16 x) (unsigned-byte-p 16 y)) :concl (equal (+ x y) (- y (- x))) :g-bindings (auto-bindings (:nat x 16) (:nat y 16)))
=> 3
UNDECIDED SUM nodes
DONE proved=0 vacuous=0 refuted=0 undecided=1
== --nodes 1000 --clauses 1 b
(gl-param-mode)
(def-gl-thm sum :hyp (and (unsigned-byte-p 16 x) (unsigned-byte-p 16 y)) :concl (equal (+ x y) (- y (- x))) :g-bindings (auto-bindings (:nat x 16) (:nat y 16)))
=> 3
MODE PARAM
UNDECIDED SUM nodes
DONE proved=0 vacuous=0 refuted=0 undecided=1
== --nodes 1000 --clauses 1 b
(gl-satlink-mode)
(def-gl-thm sum :hyp (and (unsigned-byte-p 16 x) (unsigned-byte-p 16 y)) :concl (equal (+ x y) (- y (- x))) :g-bindings (auto-bindings (:nat x 16) (:nat y 16)))
=> 3
MODE SAT
UNDECIDED SUM clauses
DONE proved=0 vacuous=0 refuted=0 undecided=1
== --nodes 100 b
(def-gl-thm sum :hyp (and (unsigned-byte-p 16 x) (unsigned-byte-p 16 y)) :concl (equal (+ x y) (- y (- x))) :g-bindings (auto-bindings (:nat x 16) (:nat y 16)))
=> 3
UNDECIDED SUM nodes
DONE proved=0 vacuous=0 refuted=0 undecided=1
== --nodes 100000 --clauses 1 b
(def-gl-thm few :hyp (and (signed-byte-p 64 x) (signed-byte-p 64 y) (signed-byte-p 6 x) (signed-byte-p 6 y)) :concl (equal (* x y) (* y x)) :g-bindings (auto-bindings (:mix (:int x 64) (:int y 64))))
=> 0
PROVED FEW
DONE proved=1 vacuous=0 refuted=0 undecided=0
== --nodes 1000 --workers 2 b
(def-gl-thm sum :hyp (and (unsigned-byte-p 16 x) (unsigned-byte-p 16 y)) :concl (equal (+ x y) (- y (- x))) :g-bindings (auto-bindings (:nat x 16) (:nat y 16)))
(def-gl-thm product :hyp (and (unsigned-byte-p 16 x) (unsigned-byte-p 16 y)) :concl (equal (* x y) (* y x)) :g-bindings (auto-bindings (:nat x 16) (:nat y 16)))
=> 3
PROVED SUM
UNDECIDED PRODUCT nodes
DONE proved=1 vacuous=0 refuted=0 undecided=1
"#;

#[test]
fn other_modes(rt: HostRuntime) -> Result<(), Fail> {
    all_give(&rt, ROWS)
}
