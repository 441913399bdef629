//! Books that are refused, and faults in front of a refusal.

use super::rows::{FaultRow, all_give, each_fault_gives};
use std::test::Fail;

/// A form that is no event, by itself and behind an event; a fault of the text behind an event, and one behind a form that is
/// refused; an option missing, and a name that is none; a variable that is bound twice, and one that is not bound; 128 bits,
/// and 1,025 indices; and a second theorem of a name.
const REFUSED: &str = r#"
== b
(value-triple (car x))=> 2
REFUSED 1 1 V6
DONE proved=0 vacuous=0 refuted=0 undecided=0
== b
(value-triple 1-)=> 2
REFUSED 1 1 V6
DONE proved=0 vacuous=0 refuted=0 undecided=0
== b
(value-triple 1 2)=> 2
REFUSED 1 1 V2
DONE proved=0 vacuous=0 refuted=0 undecided=0
== b
(value-triple (car 1 2))=> 2
REFUSED 1 1 V5
DONE proved=0 vacuous=0 refuted=0 undecided=0
== b
value-triple=> 2
REFUSED 1 1 V1
DONE proved=0 vacuous=0 refuted=0 undecided=0
== b
(value-triple . 1)=> 2
REFUSED 1 1 V2
DONE proved=0 vacuous=0 refuted=0 undecided=0
== b
(value-triple '(a . `b))=> 2
REFUSED 1 1 V7
DONE proved=0 vacuous=0 refuted=0 undecided=0
== b
(value-triple '(a ,b))=> 2
REFUSED 1 1 V7
DONE proved=0 vacuous=0 refuted=0 undecided=0
== b
(value-triple 1)
 ; two
  (value-triple 2) (car 1) (value-triple 3)=> 2
VALUE 1
VALUE 2
REFUSED 3 20 V1
DONE proved=0 vacuous=0 refuted=0 undecided=0
== b
(value-triple 1) (value-triple=> 2
VALUE 1
REFUSED 1 31 S1
DONE proved=0 vacuous=0 refuted=0 undecided=0
== b
(value-triple 1))=> 2
VALUE 1
REFUSED 1 17 S2
DONE proved=0 vacuous=0 refuted=0 undecided=0
== b
(value-triple x))=> 2
REFUSED 1 1 V6
DONE proved=0 vacuous=0 refuted=0 undecided=0
== b
(value-triple 170141183460469231731687303715884105728)=> 2
REFUSED 1 15 S5
DONE proved=0 vacuous=0 refuted=0 undecided=0
== b
(value-triple #)=> 2
REFUSED 1 15 S7
DONE proved=0 vacuous=0 refuted=0 undecided=0
== b
(value-triple 1)
(value-triple (cons 1 2)
=> 2
VALUE 1
REFUSED 3 1 S1
DONE proved=0 vacuous=0 refuted=0 undecided=0
== b
(def-gl-thm n :hyp t :concl t)=> 2
REFUSED 1 1 V2
DONE proved=0 vacuous=0 refuted=0 undecided=0
== b
(def-gl-thm t :hyp t :concl t :g-bindings (auto-bindings))=> 2
REFUSED 1 1 V2
DONE proved=0 vacuous=0 refuted=0 undecided=0
== b
(def-gl-thm n :hyp t :concl t :g-bindings (auto-bindings (:nat x 1) (:nat x 1)))=> 2
REFUSED 1 1 V10
DONE proved=0 vacuous=0 refuted=0 undecided=0
== b
(def-gl-thm n :hyp t :concl (< y 1) :g-bindings (auto-bindings (:nat x 1)))=> 2
REFUSED 1 1 V10
DONE proved=0 vacuous=0 refuted=0 undecided=0
== b
(def-gl-thm n :hyp t :concl t :g-bindings (auto-bindings (:nat x 128)))=> 2
REFUSED 1 1 V10
DONE proved=0 vacuous=0 refuted=0 undecided=0
== b
(def-gl-thm n :hyp t :concl t :g-bindings (auto-bindings (:nat a 127) (:nat b 127) (:nat c 127) (:nat d 127) (:nat e 127) (:nat f 127) (:nat g 127) (:nat h 127) (:nat i 0)))=> 2
REFUSED 1 1 V10
DONE proved=0 vacuous=0 refuted=0 undecided=0
== b
(def-gl-thm n :hyp t :concl t :g-bindings (auto-bindings)) (def-gl-thm N :hyp t :concl nil :g-bindings (auto-bindings))=> 2
PROVED N
REFUSED 1 60 V3
DONE proved=1 vacuous=0 refuted=0 undecided=0
"#;

#[test]
fn refused_books(rt: HostRuntime) -> Result<(), Fail> {
    all_give(&rt, REFUSED)
}

/// A book whose last list is not closed.
const TRUNCATED: &str = "(value-triple 1)\n(value-triple (cons 1 2)\n";

const TRUNCATED_LINES: &str =
    "VALUE 1\nREFUSED 3 1 S1\nDONE proved=0 vacuous=0 refuted=0 undecided=0\n";

/// The calls of the sink are three lines and the flush, those of the shelf the open, the bytes and the end.
const FAULTS: [FaultRow; 8] = [
    ("b", 0, 1, "", 5),
    ("b", 0, 2, "VALUE 1\n", 5),
    ("b", 0, 3, "VALUE 1\nREFUSED 3 1 S1\n", 5),
    ("b", 0, 4, TRUNCATED_LINES, 5),
    ("b", 0, 5, TRUNCATED_LINES, 2),
    ("b", 1, 0, "", 4),
    ("b", 2, 0, "", 4),
    ("b", 3, 0, "", 4),
];

#[test]
fn faults_before_a_refusal(rt: HostRuntime) -> Result<(), Fail> {
    each_fault_gives(&rt, TRUNCATED, &FAULTS)
}
