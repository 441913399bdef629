//! Books made at random.

use super::rows::all_give;
use std::test::Fail;

/// Books made at random, with the transcripts and statuses that they must have, computed outside this project.
const BOOKS: &str = r#"
== b
(value-triple (< 'q (< (unsigned-byte-p 1 nil) 'q)))
(value-triple (if (if (< 'a nil) 'a (if 'a 'q 'a)) nil (cons (car t) (< 'q nil))))
(value-triple (equal (< 9 (< 'q 'a)) (equal (equal nil t) (if '(1 2 b) '(1 2 b) '(1 2 b)))))
(def-gl-thm th-3 :hyp (if (unsigned-byte-p 3 y) (unsigned-byte-p 0 x) nil) :concl (car t) :g-bindings (auto-bindings (:nat x 0) (:nat y 3)))
(value-triple (equal (equal (cons 'q '(1 2 b)) (car t)) (< (equal 6 'a) (< '(1 2 b) nil))))
=> 1
VALUE NIL
VALUE NIL
VALUE T
REFUTED TH-3
  X = 0
  Y = 0
VALUE T
DONE proved=0 vacuous=0 refuted=1 undecided=0
== b
(def-gl-thm th-0 :hyp (if (unsigned-byte-p 0 y) (if (unsigned-byte-p 3 x) nil nil) nil) :concl (if nil (if (equal x t) (equal 'a t) (< nil nil)) (cdr (if '(1 2 b) y nil))) :g-bindings (auto-bindings (:nat x 3) (:nat y 0)))
(def-gl-thm th-1 :hyp (if (unsigned-byte-p 3 x) (equal (< t t) (equal x nil)) nil) :concl (if (car (equal '(1 2 b) '(1 2 b))) (car (cons x nil)) (< (< -4 '(1 2 b)) nil)) :g-bindings (auto-bindings (:nat x 3)))
(def-gl-thm th-2 :hyp (unsigned-byte-p 0 x) :concl (equal (car (cons x nil)) x) :g-bindings (auto-bindings (:nat x 0)))
(def-gl-thm th-3 :hyp (if (unsigned-byte-p 0 x) (if (unsigned-byte-p 1 y) (unsigned-byte-p 0 z-2) nil) nil) :concl (< x 3) :g-bindings (auto-bindings (:nat x 0) (:nat y 0) (:nat z-2 0)))
(def-gl-thm th-4 :hyp (if (unsigned-byte-p 0 x) (if (unsigned-byte-p 1 z-2) (unsigned-byte-p -1 y) nil) nil) :concl (equal (car (cons x nil)) x) :g-bindings (auto-bindings (:nat x 0) (:nat y 0) (:nat z-2 1)))
(def-gl-thm th-5 :hyp (if (unsigned-byte-p 2 y) (if (unsigned-byte-p 0 x) (equal (< x x) (< '(1 2 b) '(1 2 b))) nil) nil) :concl (if (< x y) (equal x y) t) :g-bindings (auto-bindings (:nat x 0) (:nat y 2)))
=> 1
VACUOUS TH-0
REFUTED TH-1
  X = 0
PROVED TH-2
UNDECIDED TH-3 uncovered Y
UNDECIDED TH-4 uncovered Y
REFUTED TH-5
  X = 0
  Y = 1
DONE proved=1 vacuous=1 refuted=2 undecided=2
== b
(def-gl-thm th-0 :hyp (if (unsigned-byte-p 6 x) x nil) :concl (if (< x x) (equal x x) t) :g-bindings (auto-bindings (:nat x 6)))
(value-triple (equal (< (unsigned-byte-p 0 '(1 2 b)) (unsigned-byte-p 2 t)) '(1 2 b)))
(def-gl-thm th-2 :hyp (if (unsigned-byte-p 8 x) (if (car 'a) (unsigned-byte-p 2 x) (< t x)) nil) :concl (unsigned-byte-p 8 x) :g-bindings (auto-bindings (:nat x 8)))
=> 0
PROVED TH-0
VALUE NIL
PROVED TH-2
DONE proved=2 vacuous=0 refuted=0 undecided=0
== b
(value-triple (if (< (if '(1 2 b) 16 -3) (< 'a '(1 2 b))) (unsigned-byte-p 1 (cdr '(1 2 b))) (car (< '(1 2 b) '(1 2 b)))))
(def-gl-thm th-1 :hyp (if (unsigned-byte-p 4 y) (unsigned-byte-p 3 x) nil) :concl (< x 8) :g-bindings (auto-bindings (:nat x 3) (:nat y 3)))
(def-gl-thm th-2 :hyp (if (unsigned-byte-p 7 x) (if (equal t t) t (< '(1 2 b) t)) nil) :concl (equal (car (cons x nil)) x) :g-bindings (auto-bindings (:nat x 7)))
(def-gl-thm th-3 :hyp (if (unsigned-byte-p 3 y) (if (unsigned-byte-p 3 x) (cons y '(1 2 b)) nil) nil) :concl (if (< x y) (equal x y) t) :g-bindings (auto-bindings (:nat x 2) (:nat y 2)))
=> 3
VALUE NIL
UNDECIDED TH-1 uncovered Y
PROVED TH-2
UNDECIDED TH-3 uncovered X
DONE proved=1 vacuous=0 refuted=0 undecided=2
== b
(value-triple 'a)
(def-gl-thm th-1 :hyp (if (unsigned-byte-p 1 x) (cons (< '(1 2 b) 'a) (< nil x)) nil) :concl (if (< x x) (equal x x) t) :g-bindings (auto-bindings (:nat x 1)))
(value-triple (cdr (< 'a (unsigned-byte-p 0 nil))))
(def-gl-thm th-3 :hyp (if (unsigned-byte-p 0 x) (unsigned-byte-p 3 (car y)) nil) :concl (< x 2) :g-bindings (auto-bindings (:nat x 1) (:nat y 3)))
(def-gl-thm th-4 :hyp (if (unsigned-byte-p 2 (car x)) (unsigned-byte-p 1 y) nil) :concl (cdr y) :g-bindings (auto-bindings (:nat x 2) (:nat y 1)))
(def-gl-thm th-5 :hyp (unsigned-byte-p 4 x) :concl (< x 16) :g-bindings (auto-bindings (:nat x 4)))
(def-gl-thm th-6 :hyp (unsigned-byte-p 8 x) :concl (if (< x x) (equal x x) t) :g-bindings (auto-bindings (:nat x 8)))
=> 3
VALUE A
PROVED TH-1
VALUE NIL
UNDECIDED TH-3 uncovered Y
UNDECIDED TH-4 uncovered X
PROVED TH-5
PROVED TH-6
DONE proved=3 vacuous=0 refuted=0 undecided=2
== b
(value-triple '(1 2 b))
(value-triple 9)
(value-triple (< (car t) 'a))
(def-gl-thm th-3 :hyp (if (unsigned-byte-p 2 x) (if (unsigned-byte-p 5 y) (if (if x t '(1 2 b)) (equal y x) (equal y '(1 2 b))) nil) nil) :concl (equal (car (cons x nil)) x) :g-bindings (auto-bindings (:nat x 2) (:nat y 4)))
(def-gl-thm th-4 :hyp (unsigned-byte-p 6 x) :concl (< x 3) :g-bindings (auto-bindings (:nat x 6)))
(def-gl-thm th-5 :hyp (unsigned-byte-p 6 x) :concl (< x 128) :g-bindings (auto-bindings (:nat x 7)))
(def-gl-thm th-6 :hyp (if (unsigned-byte-p 1 y) (if (unsigned-byte-p 1 z-2) (if (unsigned-byte-p 1 x) y nil) nil) nil) :concl (equal (car (cons x nil)) x) :g-bindings (auto-bindings (:nat x 1) (:nat y 1) (:nat z-2 1)))
=> 1
VALUE (1 2 B)
VALUE 9
VALUE NIL
UNDECIDED TH-3 uncovered Y
REFUTED TH-4
  X = 3
PROVED TH-5
PROVED TH-6
DONE proved=2 vacuous=0 refuted=1 undecided=1
== b
(def-gl-thm th-0 :hyp (unsigned-byte-p 7 (car x)) :concl (< (unsigned-byte-p 15 x) (cdr x)) :g-bindings (auto-bindings (:nat x 7)))
(value-triple (unsigned-byte-p 0 (equal nil (if nil nil nil))))
(def-gl-thm th-2 :hyp (if (unsigned-byte-p 0 x) (if (car nil) t (< 'a '(1 2 b))) nil) :concl (cdr 'a) :g-bindings (auto-bindings (:nat x 0)))
(def-gl-thm th-3 :hyp (unsigned-byte-p 1 x) :concl (unsigned-byte-p 4 t) :g-bindings (auto-bindings (:nat x 1)))
=> 1
UNDECIDED TH-0 uncovered X
VALUE NIL
VACUOUS TH-2
REFUTED TH-3
  X = 0
DONE proved=0 vacuous=1 refuted=1 undecided=1
== b
(def-gl-thm th-0 :hyp (if (unsigned-byte-p 4 y) (if (unsigned-byte-p 1 x) (if (if y x 'a) (car 'a) (< 'a '(1 2 b))) nil) nil) :concl (unsigned-byte-p 4 y) :g-bindings (auto-bindings (:nat x 1) (:nat y 4)))
(def-gl-thm th-1 :hyp t :concl (unsigned-byte-p 2 x) :g-bindings (auto-bindings (:nat x 2)))
(value-triple (unsigned-byte-p 0 (cons 'q (< '(1 2 b) nil))))
(def-gl-thm th-3 :hyp (if (unsigned-byte-p 1 y) (if (unsigned-byte-p 3 x) (unsigned-byte-p 2 z-2) nil) nil) :concl (< (cons (car '(1 2 b)) t) (< t (equal 'a t))) :g-bindings (auto-bindings (:nat x 2) (:nat y 2) (:nat z-2 2)))
(def-gl-thm th-4 :hyp (if (unsigned-byte-p 2 z-2) (if (unsigned-byte-p 0 y) (if (unsigned-byte-p 0 x) (if (if '(1 2 b) x 9) (equal y z-2) y) nil) nil) nil) :concl (if (< x z-2) (equal x z-2) t) :g-bindings (auto-bindings (:nat x 0) (:nat y 0) (:nat z-2 1)))
=> 3
VACUOUS TH-0
UNDECIDED TH-1 uncovered X
VALUE NIL
UNDECIDED TH-3 uncovered X
UNDECIDED TH-4 uncovered Z-2
DONE proved=0 vacuous=1 refuted=0 undecided=3
== b
(def-gl-thm th-0 :hyp t :concl (if (< x x) (equal x x) t) :g-bindings (auto-bindings (:nat x 3)))
(def-gl-thm th-1 :hyp (if (unsigned-byte-p 3 x) (if (unsigned-byte-p 0 y) (cdr y) nil) nil) :concl (< x 8) :g-bindings (auto-bindings (:nat x 3) (:nat y 0)))
(def-gl-thm th-2 :hyp (if (unsigned-byte-p 3 x) (equal (unsigned-byte-p 3 x) '(1 2 b)) nil) :concl (if (< x x) (equal x x) t) :g-bindings (auto-bindings (:nat x 3)))
(def-gl-thm th-3 :hyp (unsigned-byte-p 6 x) :concl (< x 63) :g-bindings (auto-bindings (:nat x 6)))
(value-triple (unsigned-byte-p -1 (cons (car 17) (< t t))))
(def-gl-thm th-5 :hyp (if (unsigned-byte-p 0 x) (equal (< nil 12) (cons 1 '(1 2 b))) nil) :concl (equal (car (cons x nil)) x) :g-bindings (auto-bindings (:nat x 0)))
=> 1
UNDECIDED TH-0 uncovered X
VACUOUS TH-1
VACUOUS TH-2
REFUTED TH-3
  X = 63
VALUE NIL
VACUOUS TH-5
DONE proved=0 vacuous=3 refuted=1 undecided=1
== b
(def-gl-thm th-0 :hyp (if (unsigned-byte-p 1 y) (unsigned-byte-p 1 (car x)) nil) :concl (if (< x y) (equal x x) t) :g-bindings (auto-bindings (:nat x 1) (:nat y 2)))
(def-gl-thm th-1 :hyp (if (unsigned-byte-p 2 x) (unsigned-byte-p 1 (cdr 5)) nil) :concl (car (< (equal nil nil) (< nil '(1 2 b)))) :g-bindings (auto-bindings (:nat x 2)))
(value-triple (if (equal (equal 'q '(1 2 b)) (< '(1 2 b) 'q)) (car (< nil 'q)) (equal (cdr t) (cons t nil))))
(def-gl-thm th-3 :hyp (if (unsigned-byte-p 4 x) (unsigned-byte-p 2 y) nil) :concl (unsigned-byte-p 2 y) :g-bindings (auto-bindings (:nat x 4) (:nat y 2)))
(def-gl-thm th-4 :hyp (if (unsigned-byte-p 0 y) (unsigned-byte-p 2 (car x)) nil) :concl (equal (car (cons x nil)) x) :g-bindings (auto-bindings (:nat x 2) (:nat y 0)))
(def-gl-thm th-5 :hyp (if (unsigned-byte-p 4 y) (if (unsigned-byte-p 5 x) (< (cons 'a y) (< 'a 'a)) nil) nil) :concl (if (< x y) (equal x x) t) :g-bindings (auto-bindings (:nat x 4) (:nat y 4)))
(value-triple nil)
=> 3
UNDECIDED TH-0 uncovered X
VACUOUS TH-1
VALUE NIL
PROVED TH-3
UNDECIDED TH-4 uncovered X
UNDECIDED TH-5 uncovered X
VALUE NIL
DONE proved=1 vacuous=1 refuted=0 undecided=3
== b
(def-gl-thm th-0 :hyp (if (unsigned-byte-p 2 x) (unsigned-byte-p 4 y) nil) :concl (if (if (unsigned-byte-p 3 'a) 4 (if '(1 2 b) '(1 2 b) y)) (cdr (car nil)) (cons (unsigned-byte-p '3 2) (< nil '(1 2 b)))) :g-bindings (auto-bindings (:nat x 2) (:nat y 4)))
(def-gl-thm th-1 :hyp (if (unsigned-byte-p 1 x) (if (unsigned-byte-p 2 y) (if (unsigned-byte-p 1 z-2) (cons (< nil '(1 2 b)) (< nil x)) nil) nil) nil) :concl (if (if (equal z-2 nil) (< x '(1 2 b)) (< 'a y)) (if (< 'a nil) (unsigned-byte-p 0 x) (cdr '(1 2 b))) nil) :g-bindings (auto-bindings (:nat x 1) (:nat y 2) (:nat z-2 1)))
(def-gl-thm th-2 :hyp (if (unsigned-byte-p 4 x) (if (unsigned-byte-p 4 y) t nil) nil) :concl (if (car (unsigned-byte-p 3 '(1 2 b))) (< (< '(1 2 b) t) (equal x 0)) (< nil (car t))) :g-bindings (auto-bindings (:nat x 4) (:nat y 4)))
(def-gl-thm th-3 :hyp (if (unsigned-byte-p 4 x) (if (unsigned-byte-p 2 y) (< (< y x) (unsigned-byte-p 3 t)) nil) nil) :concl (< x 16) :g-bindings (auto-bindings (:nat x 4) (:nat y 2)))
(def-gl-thm th-4 :hyp (if (unsigned-byte-p 0 z-2) (if (unsigned-byte-p 1 (car x)) (if (unsigned-byte-p 1 y) 1 nil) nil) nil) :concl (< x 2) :g-bindings (auto-bindings (:nat x 1) (:nat y 2) (:nat z-2 0)))
(def-gl-thm th-5 :hyp (if (unsigned-byte-p 3 x) (unsigned-byte-p 2 y) nil) :concl (< (equal 18 (< nil 'a)) (equal (cons -3 t) (< y y))) :g-bindings (auto-bindings (:nat x 2) (:nat y 2)))
=> 1
REFUTED TH-0
  X = 0
  Y = 0
REFUTED TH-1
  X = 0
  Y = 0
  Z-2 = 0
REFUTED TH-2
  X = 0
  Y = 0
VACUOUS TH-3
UNDECIDED TH-4 uncovered X
UNDECIDED TH-5 uncovered X
DONE proved=0 vacuous=1 refuted=3 undecided=2
== b
(def-gl-thm th-0 :hyp (if (unsigned-byte-p -1 z-2) (if (unsigned-byte-p 1 x) (unsigned-byte-p 0 (car y)) nil) nil) :concl (< (car (cdr y)) 0) :g-bindings (auto-bindings (:nat x 0) (:nat y 0) (:nat z-2 0)))
(def-gl-thm th-1 :hyp t :concl (equal (car (cons x nil)) x) :g-bindings (auto-bindings (:nat x 3) (:nat y 1)))
(def-gl-thm th-2 :hyp (unsigned-byte-p 7 x) :concl (if (< x x) (equal x x) t) :g-bindings (auto-bindings (:nat x 7)))
=> 3
UNDECIDED TH-0 uncovered X
UNDECIDED TH-1 uncovered X
PROVED TH-2
DONE proved=1 vacuous=0 refuted=0 undecided=2
== b
(def-gl-thm th-0 :hyp (if (unsigned-byte-p 1 y) (unsigned-byte-p 2 (car x)) nil) :concl (if (< x y) (equal x y) t) :g-bindings (auto-bindings (:nat x 2) (:nat y 1)))
(def-gl-thm th-1 :hyp (unsigned-byte-p 8 x) :concl (equal (car (cons x nil)) x) :g-bindings (auto-bindings (:nat x 8)))
(def-gl-thm th-2 :hyp (if (unsigned-byte-p -1 x) (if (unsigned-byte-p 1 y) (if (unsigned-byte-p 2 z-2) (cdr (if '(1 2 b) z-2 'a)) nil) nil) nil) :concl (equal (car (cons x nil)) x) :g-bindings (auto-bindings (:nat x 0) (:nat y 1) (:nat z-2 1)))
(def-gl-thm th-3 :hyp (if (unsigned-byte-p 2 z-2) (if (unsigned-byte-p 2 x) (if (unsigned-byte-p 2 y) (equal (cdr z-2) (cdr 'a)) nil) nil) nil) :concl (< x 3) :g-bindings (auto-bindings (:nat x 1) (:nat y 2) (:nat z-2 2)))
(def-gl-thm th-4 :hyp (if (unsigned-byte-p 0 (car y)) (if (unsigned-byte-p 1 x) (if (unsigned-byte-p 3 z-2) (cons 'a (< 15 z-2)) nil) nil) nil) :concl (< x 2) :g-bindings (auto-bindings (:nat x 1) (:nat y 0) (:nat z-2 2)))
(value-triple (cdr (equal (cons 'q t) (cons t t))))
(def-gl-thm th-6 :hyp (if (unsigned-byte-p 1 y) (unsigned-byte-p 2 x) nil) :concl (equal (car (cons x nil)) x) :g-bindings (auto-bindings (:nat x 1) (:nat y 1)))
=> 3
UNDECIDED TH-0 uncovered X
PROVED TH-1
UNDECIDED TH-2 uncovered X
UNDECIDED TH-3 uncovered X
UNDECIDED TH-4 uncovered Y
VALUE NIL
UNDECIDED TH-6 uncovered X
DONE proved=1 vacuous=0 refuted=0 undecided=5
== b
(def-gl-thm th-0 :hyp (if (unsigned-byte-p 4 x) (unsigned-byte-p 2 y) nil) :concl (cons (unsigned-byte-p 1 (equal t nil)) t) :g-bindings (auto-bindings (:nat x 4) (:nat y 1)))
(def-gl-thm th-1 :hyp (if (unsigned-byte-p 5 x) (equal (equal t 5) (cons nil 16)) nil) :concl (equal (car (cons x nil)) x) :g-bindings (auto-bindings (:nat x 5)))
(def-gl-thm th-2 :hyp (if (unsigned-byte-p 3 y) (if (unsigned-byte-p 1 x) (unsigned-byte-p 0 (cons y nil)) nil) nil) :concl (if (< x y) (equal x y) t) :g-bindings (auto-bindings (:nat x 1) (:nat y 3)))
(def-gl-thm th-3 :hyp (unsigned-byte-p 4 x) :concl (< x 16) :g-bindings (auto-bindings (:nat x 4)))
(def-gl-thm th-4 :hyp (if (unsigned-byte-p 5 x) (unsigned-byte-p 1 nil) nil) :concl (equal (car (cons x nil)) x) :g-bindings (auto-bindings (:nat x 5)))
(value-triple (< (equal (if nil 11 'q) (< 'a '(1 2 b))) (unsigned-byte-p 0 (< '(1 2 b) 17))))
(def-gl-thm th-6 :hyp (if (unsigned-byte-p 4 x) (if (unsigned-byte-p 2 y) (equal (< '(1 2 b) x) (car y)) nil) nil) :concl (< x 3) :g-bindings (auto-bindings (:nat x 4) (:nat y 2)))
=> 3
UNDECIDED TH-0 uncovered Y
VACUOUS TH-1
VACUOUS TH-2
PROVED TH-3
VACUOUS TH-4
VALUE NIL
PROVED TH-6
DONE proved=2 vacuous=3 refuted=0 undecided=1
"#;

#[test]
fn books_made_at_random(rt: HostRuntime) -> Result<(), Fail> {
    all_give(&rt, BOOKS)
}
