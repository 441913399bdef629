//! Worked theorems in both modes: each verdict, at the ends of limits too.

use super::rows::all_give;
use std::test::Fail;

const ROWS: &str = r#"
== b
(def-gl-thm comm :hyp (and (unsigned-byte-p 8 x) (unsigned-byte-p 8 y))
  :concl (equal (+ x y) (+ y x))
  :g-bindings (auto-bindings (:mix (:nat x 8) (:nat y 8))))
=> 0
PROVED COMM
DONE proved=1 vacuous=0 refuted=0 undecided=0
== b
(in-package "ACL2")
(include-book "centaur/gl/gl" :dir :system)
(defun fast-logcount-32 (v)
  (let* ((v (- v (logand (ash v -1) #x55555555)))
         (v (+ (logand v #x33333333) (logand (ash v -2) #x33333333))))
    (ash (logand (* (logand (+ v (ash v -4)) #xF0F0F0F) #x1010101) #xffffffff) -24)))
(def-gl-thm fast-logcount-32-correct
  :hyp (unsigned-byte-p 32 x)
  :concl (equal (fast-logcount-32 x) (logcount x))
  :g-bindings `((x ,(g-int 0 1 33))))
=> 0
DEFUN FAST-LOGCOUNT-32
PROVED FAST-LOGCOUNT-32-CORRECT
DONE proved=1 vacuous=0 refuted=0 undecided=0
== --workers 8 b
(in-package "ACL2")
(include-book "centaur/gl/gl" :dir :system)
(defun fast-logcount-32 (v)
  (let* ((v (- v (logand (ash v -1) #x55555555)))
         (v (+ (logand v #x33333333) (logand (ash v -2) #x33333333))))
    (ash (logand (* (logand (+ v (ash v -4)) #xF0F0F0F) #x1010101) #xffffffff) -24)))
(def-gl-thm fast-logcount-32-correct
  :hyp (unsigned-byte-p 32 x)
  :concl (equal (fast-logcount-32 x) (logcount x))
  :g-bindings `((x ,(g-int 0 1 33))))
=> 0
DEFUN FAST-LOGCOUNT-32
PROVED FAST-LOGCOUNT-32-CORRECT
DONE proved=1 vacuous=0 refuted=0 undecided=0
== b
(def-gl-thm small :hyp (unsigned-byte-p 4 x) :concl (< x 15) :g-bindings `((x ,(g-int 0 1 5))))
=> 1
REFUTED SMALL
  X = 15
DONE proved=0 vacuous=0 refuted=1 undecided=0
== b
(def-gl-thm short :hyp (unsigned-byte-p 8 x) :concl (integerp x) :g-bindings `((x ,(g-int 0 1 8))))
=> 3
UNDECIDED SHORT uncovered X
DONE proved=0 vacuous=0 refuted=0 undecided=1
== b
(def-gl-thm short :hyp (unsigned-byte-p 8 x) :concl (integerp x) :g-bindings `((x ,(g-int 0 1 9))))
=> 0
PROVED SHORT
DONE proved=1 vacuous=0 refuted=0 undecided=0
== b
(def-gl-thm none :hyp (and (unsigned-byte-p 4 x) (< x 0)) :concl (equal x 77) :g-bindings `((x ,(g-int 0 1 5))))
=> 0
VACUOUS NONE
DONE proved=0 vacuous=1 refuted=0 undecided=0
== b
(defun down (n) (if (zp n) 0 (down (- n 1))))
(def-gl-thm low :hyp (unsigned-byte-p 2 x) :concl (equal (down x) 0) :concl-clk 4 :g-bindings `((x ,(g-int 0 1 3))))
=> 3
DEFUN DOWN (ACL2-COUNT N)
UNDECIDED LOW clock concl
  X = 3
DONE proved=0 vacuous=0 refuted=0 undecided=1
== b
(defun down (n) (if (zp n) 0 (down (- n 1))))
(def-gl-thm low :hyp (unsigned-byte-p 2 x) :concl (equal (down x) 0) :concl-clk 5 :g-bindings `((x ,(g-int 0 1 3))))
=> 0
DEFUN DOWN (ACL2-COUNT N)
PROVED LOW
DONE proved=1 vacuous=0 refuted=0 undecided=0
== b
(def-gl-thm back :hyp (signed-byte-p 128 x) :concl (equal (- (+ x 1) 1) x) :g-bindings `((x ,(g-int 0 1 128))))
=> 3
UNDECIDED BACK width concl
  X = 170141183460469231731687303715884105727
DONE proved=0 vacuous=0 refuted=0 undecided=1
== b
(gl-satlink-mode)
(def-gl-thm xor-sum :hyp (and (unsigned-byte-p 8 x) (unsigned-byte-p 8 y))
  :concl (equal (logxor x y) (- (+ x y) (* 2 (logand x y))))
  :g-bindings (auto-bindings (:mix (:nat x 8) (:nat y 8))))
=> 0
MODE SAT
PROVED XOR-SUM
DONE proved=1 vacuous=0 refuted=0 undecided=0
== --nodes 1000 b
(def-gl-thm times :hyp (and (unsigned-byte-p 16 x) (unsigned-byte-p 16 y)) :concl (equal (* x y) (* y x)) :g-bindings (auto-bindings (:mix (:nat x 16) (:nat y 16))))
=> 3
UNDECIDED TIMES nodes
DONE proved=0 vacuous=0 refuted=0 undecided=1
== --nodes 100 b
(def-gl-thm times :hyp (and (unsigned-byte-p 5 x) (unsigned-byte-p 5 y)) :concl (equal (* x y) (* y x)) :g-bindings (auto-bindings (:mix (:nat x 5) (:nat y 5))))
=> 0
PROVED TIMES
DONE proved=1 vacuous=0 refuted=0 undecided=0
== b
(def-gl-thm cc :hyp (unsigned-byte-p 13 x) :concl (if (equal x 9) (characterp (code-char x)) t) :g-bindings `((x ,(g-int 0 1 14))))
=> 0
PROVED CC
DONE proved=1 vacuous=0 refuted=0 undecided=0
== --enum-bits 14 b
(def-gl-thm cc :hyp (unsigned-byte-p 13 x) :concl (if (equal x 9) (characterp (code-char x)) t) :g-bindings `((x ,(g-int 0 1 14))))
=> 0
PROVED CC
DONE proved=1 vacuous=0 refuted=0 undecided=0
== --clauses 10 b
(gl-satlink-mode)
(def-gl-thm dist :hyp (and (unsigned-byte-p 8 x) (unsigned-byte-p 8 y))
  :concl (equal (* x (+ y 1)) (+ (* x y) x))
  :g-bindings (auto-bindings (:mix (:nat x 8) (:nat y 8))))
=> 3
MODE SAT
UNDECIDED DIST clauses
DONE proved=0 vacuous=0 refuted=0 undecided=1
== --steps 1000 b
(defun fib (n) (declare (xargs :measure (nfix n))) (if (zp n) 0 (if (equal n 1) 1 (+ (fib (- n 1)) (fib (- n 2))))))
(def-gl-thm slow :hyp (equal x 25) :concl (equal (fib x) 75025) :g-bindings '((x 25)))
=> 3
DEFUN FIB (NFIX N)
UNDECIDED SLOW steps concl
  X = 25
DONE proved=0 vacuous=0 refuted=0 undecided=1
== --steps 630 b
(defun fib (n) (declare (xargs :measure (nfix n))) (if (zp n) 0 (if (equal n 1) 1 (+ (fib (- n 1)) (fib (- n 2))))))
(memoize 'fib)
(def-gl-thm slow :hyp (equal x 25) :concl (equal (fib x) 75025) :g-bindings '((x 25)))
=> 0
DEFUN FIB (NFIX N)
MEMOIZE FIB
PROVED SLOW
DONE proved=1 vacuous=0 refuted=0 undecided=0
== b
(def-gl-thm pick :hyp (and (true-listp l) (equal (len l) 2) (booleanp (car l)) (booleanp (nth 1 l)))
  :concl (implies (car l) (member-equal t l))
  :g-bindings '((l ((:g-boolean . 0) (:g-boolean . 1)))))
=> 0
PROVED PICK
DONE proved=1 vacuous=0 refuted=0 undecided=0
== b
(def-gl-thm pick :hyp (and (true-listp l) (equal (len l) 2) (booleanp (car l)))
  :concl (implies (car l) (member-equal t l))
  :g-bindings '((l ((:g-boolean . 0) (:g-boolean . 1)))))
=> 3
UNDECIDED PICK uncovered L
DONE proved=0 vacuous=0 refuted=0 undecided=1
== --enum-bits 0 b
(defun down (n) (if (zp n) 0 (down (- n 1))))
(def-gl-thm deep :hyp (unsigned-byte-p 10 x) :concl (equal (down x) 0) :g-bindings (auto-bindings (:nat x 10)))
=> 0
DEFUN DOWN (ACL2-COUNT N)
PROVED DEEP
DONE proved=1 vacuous=0 refuted=0 undecided=0
== --clauses 1 b
(gl-satlink-mode)
(def-gl-thm dist :hyp (and (unsigned-byte-p 5 x) (unsigned-byte-p 5 y))
  :concl (equal (* x (+ y 1)) (+ (* x y) x))
  :g-bindings (auto-bindings (:mix (:nat x 5) (:nat y 5))))
=> 0
MODE SAT
PROVED DIST
DONE proved=1 vacuous=0 refuted=0 undecided=0
== b
(def-gl-thm wide :hyp t :concl t :g-bindings (auto-bindings (:nat v0 127) (:nat v1 127) (:nat v2 127) (:nat v3 127) (:nat v4 127) (:nat v5 127) (:nat v6 127) (:nat v7 127)))
=> 0
PROVED WIDE
DONE proved=1 vacuous=0 refuted=0 undecided=0
== b
(def-gl-thm wide :hyp t :concl t :g-bindings (auto-bindings (:nat v0 127) (:nat v1 127) (:nat v2 127) (:nat v3 127) (:nat v4 127) (:nat v5 127) (:nat v6 127) (:nat v7 127) (:boolean b)))
=> 2
REFUSED 1 1 V10
DONE proved=0 vacuous=0 refuted=0 undecided=0
== b
(mutual-recursion (defun ev (n) (if (zp n) t (od (- n 1)))) (defun od (n) (if (zp n) nil (ev (- n 1)))))
(def-gl-thm eo :hyp (unsigned-byte-p 4 x) :concl (iff (ev x) (not (od x))) :g-bindings (auto-bindings (:nat x 4)))
=> 0
DEFUN EV (ACL2-COUNT N)
DEFUN OD (ACL2-COUNT N)
PROVED EO
DONE proved=1 vacuous=0 refuted=0 undecided=0
== b
(def-gl-thm times :hyp (and (unsigned-byte-p 5 x) (unsigned-byte-p 5 y)) :concl (equal (* x y) (* y x)) :g-bindings (auto-bindings (:mix (:nat x 5) (:nat y 5))))
=> 0
PROVED TIMES
DONE proved=1 vacuous=0 refuted=0 undecided=0
== b
(mutual-recursion (defun ev (n) (if (zp n) t (od (- n 1)))) (defun od (n) (if (zp n) nil (ev (- n 1)))))
(def-gl-thm eo :hyp (unsigned-byte-p 4 x) :concl (iff (ev x) (not (od x))) :g-bindings `((x ,(g-int 0 1 5))))
=> 0
DEFUN EV (ACL2-COUNT N)
DEFUN OD (ACL2-COUNT N)
PROVED EO
DONE proved=1 vacuous=0 refuted=0 undecided=0
"#;

#[test]
fn worked_theorems(rt: HostRuntime) -> Result<(), Fail> {
    all_give(&rt, ROWS)
}
