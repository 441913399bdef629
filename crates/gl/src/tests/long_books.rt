//! Books at the ends of limits, as tables: `{1000 (}` stands for a thousand parentheses, and `rows` says how a row is read.

use super::rows::all_give;
use std::test::Fail;

/// Parentheses inside one another, of which those of the form count and the quote does too; subterms; bytes; and leaves of a
/// printed list: 999,999 elements and the NIL behind them are a million. Such lists take more cells than a run usually has.
const ENDS: &str = r#"
== b
{1000 (}{1000 )}
=> 2
REFUSED 1 1 V1
DONE proved=0 vacuous=0 refuted=0 undecided=0
== b
{1001 (}{1001 )}
=> 2
REFUSED 1 1001 S8
DONE proved=0 vacuous=0 refuted=0 undecided=0
== b
(value-triple '{998 (}{998 )})=> 0
VALUE {997 (}NIL{997 )}
DONE proved=0 vacuous=0 refuted=0 undecided=0
== b
(value-triple '{999 (}{999 )})=> 2
REFUSED 1 1014 S8
DONE proved=0 vacuous=0 refuted=0 undecided=0
== b
(value-triple (+{2000  1}))
=> 0
VALUE 2000
DONE proved=0 vacuous=0 refuted=0 undecided=0
== b
(value-triple (+{2001  1}))
=> 2
REFUSED 1 1 V12
DONE proved=0 vacuous=0 refuted=0 undecided=0
== b
(value-triple (and (and (and{2000  1}))))
=> 0
VALUE 1
DONE proved=0 vacuous=0 refuted=0 undecided=0
== b
(value-triple (cond{1999  (nil 1)}))
=> 0
VALUE NIL
DONE proved=0 vacuous=0 refuted=0 undecided=0
== b
{4194304  }=> 0
DONE proved=0 vacuous=0 refuted=0 undecided=0
== b
{4194305  }=> 2
REFUSED 1 4194305 S10
DONE proved=0 vacuous=0 refuted=0 undecided=0
== b
{4194305 
}=> 2
REFUSED 4194305 1 S10
DONE proved=0 vacuous=0 refuted=0 undecided=0
== b
{4194304 (}=> 2
REFUSED 1 1001 S8
DONE proved=0 vacuous=0 refuted=0 undecided=0
== --cells 4000000 b
(value-triple '(0{999998  0}))=> 0
VALUE (0{999998  0})
DONE proved=0 vacuous=0 refuted=0 undecided=0
== --cells 4000000 b
(value-triple '(0{999999  0}))=> 3
VALUE undecided size
DONE proved=0 vacuous=0 refuted=0 undecided=1
"#;

/// Definitions with long and deep bodies: how many subterms and parentheses there may be, and which of two faults comes first. n
/// `or`s inside one another have 3 * 2^n - 2 subterms. The last one has 450 recursive calls.
const BODIES: &str = r#"
== b
(defun f (x y) (list {1998 x }x))=> 0
DEFUN F
DONE proved=0 vacuous=0 refuted=0 undecided=0
== b
(defun f (x y) (list {1999 x }x))=> 2
REFUSED 1 1 V12
DONE proved=0 vacuous=0 refuted=0 undecided=0
== b
(defun f (x y) (list* {1999 x }x))=> 0
DEFUN F
DONE proved=0 vacuous=0 refuted=0 undecided=0
== b
(defun f (x y) (list* {2000 x }x))=> 2
REFUSED 1 1 V12
DONE proved=0 vacuous=0 refuted=0 undecided=0
== b
(defun f (x y) (+ {1999 x }x))=> 0
DEFUN F
DONE proved=0 vacuous=0 refuted=0 undecided=0
== b
(defun f (x y) (+ {2000 x }x))=> 2
REFUSED 1 1 V12
DONE proved=0 vacuous=0 refuted=0 undecided=0
== b
(defun f (x y) (+ {1999 x }w))=> 2
REFUSED 1 1 V6
DONE proved=0 vacuous=0 refuted=0 undecided=0
== b
(defun f (x y) (+ {2000 x }w))=> 2
REFUSED 1 1 V12
DONE proved=0 vacuous=0 refuted=0 undecided=0
== b
(defun f (x y) (and {1999 x }x))=> 0
DEFUN F
DONE proved=0 vacuous=0 refuted=0 undecided=0
== b
(defun f (x y) (and {2000 x }x))=> 2
REFUSED 1 1 V12
DONE proved=0 vacuous=0 refuted=0 undecided=0
== b
(defun f (x y) (or {1999 x }x))=> 0
DEFUN F
DONE proved=0 vacuous=0 refuted=0 undecided=0
== b
(defun f (x y) (or {2000 x }x))=> 2
REFUSED 1 1 V12
DONE proved=0 vacuous=0 refuted=0 undecided=0
== b
(defun f (x y) (append {1999 x }x))=> 0
DEFUN F
DONE proved=0 vacuous=0 refuted=0 undecided=0
== b
(defun f (x y) (append {2000 x }x))=> 2
REFUSED 1 1 V12
DONE proved=0 vacuous=0 refuted=0 undecided=0
== b
(defun f (x y) (cond {1998 (x y) }(x y)))=> 0
DEFUN F
DONE proved=0 vacuous=0 refuted=0 undecided=0
== b
(defun f (x y) (cond {1999 (x y) }(x y)))=> 2
REFUSED 1 1 V12
DONE proved=0 vacuous=0 refuted=0 undecided=0
== b
(defun f (x y) (+ {3000 w }(foo)))=> 2
REFUSED 1 1 V6
DONE proved=0 vacuous=0 refuted=0 undecided=0
== b
(defun f (x y) (and {1999 (list) }(list x)))=> 2
REFUSED 1 1 V12
DONE proved=0 vacuous=0 refuted=0 undecided=0
== b
(defun f (x y) (and {1998 (car x) }(car x)))=> 0
DEFUN F
DONE proved=0 vacuous=0 refuted=0 undecided=0
== b
(defun f (x y) {990 (let ((v x)) }v{990 )})=> 0
DEFUN F
DONE proved=0 vacuous=0 refuted=0 undecided=0
== b
(defun f (x y) {15 (or }x{15  y)})=> 0
DEFUN F
DONE proved=0 vacuous=0 refuted=0 undecided=0
== b
(defun f (x) (if (consp x) (list {450 (f (cdr x)) }x) nil))=> 0
DEFUN F (ACL2-COUNT X)
DONE proved=0 vacuous=0 refuted=0 undecided=0
"#;

#[test]
fn books_at_the_ends(rt: HostRuntime) -> Result<(), Fail> {
    all_give(&rt, ENDS)?;
    all_give(&rt, BODIES)
}
