//! Worked books: values, definitions, constants, memoized functions, fast alists, refusals.

use super::rows::all_give;
use std::test::Fail;

const ROWS: &str = r#"
== b
=> 0
DONE proved=0 vacuous=0 refuted=0 undecided=0
== b
(value-triple (+ 'a 3))
=> 0
VALUE 3
DONE proved=0 vacuous=0 refuted=0 undecided=0
== b
(value-triple (list (floor -7 2) (mod -7 2) (floor 7 0) (mod 7 0) (truncate -7 2) (rem -7 2)))
=> 0
VALUE (-4 1 0 7 -3 -1)
DONE proved=0 vacuous=0 refuted=0 undecided=0
== b
(value-triple 170141183460469231731687303715884105728)
=> 2
REFUSED 1 15 S5
DONE proved=0 vacuous=0 refuted=0 undecided=0
== b
(value-triple -170141183460469231731687303715884105728)
=> 0
VALUE -170141183460469231731687303715884105728
DONE proved=0 vacuous=0 refuted=0 undecided=0
== b
(value-triple (+ 170141183460469231731687303715884105727 1))
=> 3
VALUE undecided width
DONE proved=0 vacuous=0 refuted=0 undecided=1
== b
(value-triple (floor -170141183460469231731687303715884105728 -1))
=> 3
VALUE undecided width
DONE proved=0 vacuous=0 refuted=0 undecided=1
== b
(value-triple 1)
(value-triple (cons 1 2)
=> 2
VALUE 1
REFUSED 3 1 S1
DONE proved=0 vacuous=0 refuted=0 undecided=0
== b
(defun bad (x) (if (consp x) (bad x) nil))
=> 2
REFUSED 1 1 V8 1
DONE proved=0 vacuous=0 refuted=0 undecided=0
== b
(defun two (n) (declare (xargs :measure (nfix n))) (if (zp n) nil (two (- n 2))))
=> 0
DEFUN TWO (NFIX N)
DONE proved=0 vacuous=0 refuted=0 undecided=0
== b
(defun two (n) (if (zp n) nil (two (- n 2))))
=> 2
REFUSED 1 1 V8 1
DONE proved=0 vacuous=0 refuted=0 undecided=0
== --steps 2003 b
(defun fib (n) (declare (xargs :measure (nfix n))) (if (zp n) 0 (if (equal n 1) 1 (+ (fib (- n 1)) (fib (- n 2))))))
(memoize 'fib)
(value-triple (fib 80))
=> 0
DEFUN FIB (NFIX N)
MEMOIZE FIB
VALUE 23416728348467685
DONE proved=0 vacuous=0 refuted=0 undecided=0
== --steps 2003 b
(defun fib (n) (declare (xargs :measure (nfix n))) (if (zp n) 0 (if (equal n 1) 1 (+ (fib (- n 1)) (fib (- n 2))))))
(value-triple (fib 80))
=> 3
DEFUN FIB (NFIX N)
VALUE undecided steps
DONE proved=0 vacuous=0 refuted=0 undecided=1
== --cells 1000 b
(defun dup (n) (if (zp n) nil (let ((x (dup (- n 1)))) (cons x x))))
(value-triple (equal (dup 60) (dup 60)))
(value-triple (dup 60))
=> 3
DEFUN DUP (ACL2-COUNT N)
VALUE T
VALUE undecided size
DONE proved=0 vacuous=0 refuted=0 undecided=1
== b
(value-triple (hons-get 'a (hons-acons 'a 2 (hons-acons 'a 1 nil))))
(value-triple (let* ((a (hons-acons 'k 1 nil)) (b (hons-acons 'k 2 a))) (list (hons-get 'k a) (hons-get 'k b))))
(value-triple (fast-alist-fork '((a . 1) 7 (b . 2) (a . 3)) nil))
=> 0
VALUE (A . 2)
VALUE ((K . 1) (K . 2))
VALUE ((B . 2) (A . 1))
DONE proved=0 vacuous=0 refuted=0 undecided=0
== b
(defun f (x) x)
(defun f (x) x)
(defun f (y) y)
=> 2
DEFUN F
REDUNDANT F
REFUSED 3 1 V3
DONE proved=0 vacuous=0 refuted=0 undecided=0
== b
(defconst *n* (+ 2 3)) ; five
(value-triple '(a . (#\Space "q\"r" :k -0)))
(assert-event (equal (* *n* *n*) 25))
(assert-event nil)
=> 1
DEFCONST *N* 5
VALUE (A #\Space "q\"r" :K 0)
ASSERT ok
ASSERT nil
DONE proved=0 vacuous=0 refuted=0 undecided=0
== --steps 3 b
(value-triple (cons 1 2))
=> 0
VALUE (1 . 2)
DONE proved=0 vacuous=0 refuted=0 undecided=0
== --steps 2 b
(value-triple (cons 1 2))
=> 3
VALUE undecided steps
DONE proved=0 vacuous=0 refuted=0 undecided=1
== b
(defun ack (m n) (declare (xargs :measure (make-ord 1 (+ 1 (nfix m)) (nfix n)))) (if (zp m) (+ n 1) (if (zp n) (ack (- m 1) 1) (ack (- m 1) (ack m (- n 1))))))
(value-triple (ack 2 3))
=> 0
DEFUN ACK (MAKE-ORD 1 (+ 1 (NFIX M)) (NFIX N))
VALUE 9
DONE proved=0 vacuous=0 refuted=0 undecided=0
== b
(defun down (n) (if (zp n) 0 (down (- n 1))))
(value-triple (down 600))
(value-triple (down 100000))
=> 0
DEFUN DOWN (ACL2-COUNT N)
VALUE 0
VALUE 0
DONE proved=0 vacuous=0 refuted=0 undecided=0
== --cells 1000 b
(defun mk (n) (if (zp n) nil (cons n (mk (- n 1)))))
(value-triple (len (mk 10000)))
=> 3
DEFUN MK (ACL2-COUNT N)
VALUE undecided cells
DONE proved=0 vacuous=0 refuted=0 undecided=1
== b
(defun ack (m n) (if (zp m) (+ n 1) (if (zp n) (ack (- m 1) 1) (ack (- m 1) (ack m (- n 1))))))
=> 2
REFUSED 1 1 V8 3
DONE proved=0 vacuous=0 refuted=0 undecided=0
== b
(mutual-recursion (defun ev (n) (if (zp n) t (od (- n 1)))) (defun od (n) (if (zp n) nil (ev (- n 1)))))
(value-triple (list (ev 10) (od 10)))
=> 0
DEFUN EV (ACL2-COUNT N)
DEFUN OD (ACL2-COUNT N)
VALUE (T NIL)
DONE proved=0 vacuous=0 refuted=0 undecided=0
== b
(mutual-recursion (defun ev (n) (if (zp n) t (od (- n 1)))) (defun od (n) (if (zp n) nil (ev n))))
=> 2
REFUSED 1 1 V8 2
DONE proved=0 vacuous=0 refuted=0 undecided=0
== b
(defconst *w* (+ 170141183460469231731687303715884105727 1))
(value-triple 1)
=> 2
REFUSED 1 1 V9 width
DONE proved=0 vacuous=0 refuted=0 undecided=0
== --generate 2
=> 1
DONE proved=1 vacuous=0 refuted=1 undecided=0
== b
(value-triple (foo 1))
=> 2
REFUSED 1 1 V4
DONE proved=0 vacuous=0 refuted=0 undecided=0
== b
(value-triple (car))
=> 2
REFUSED 1 1 V5
DONE proved=0 vacuous=0 refuted=0 undecided=0
== b
(value-triple x)
=> 2
REFUSED 1 1 V6
DONE proved=0 vacuous=0 refuted=0 undecided=0
== b
(value-triple (let ((x 1) (x 2)) x))
=> 2
REFUSED 1 1 V7
DONE proved=0 vacuous=0 refuted=0 undecided=0
== --generate 200
=> 1
DONE proved=100 vacuous=0 refuted=100 undecided=0
"#;

#[test]
fn worked_books(rt: HostRuntime) -> Result<(), Fail> {
    all_give(&rt, ROWS)
}
