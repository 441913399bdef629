//! Each line of the table of forms, on good forms and on each fault.

use super::{Kind, try_rows};
use gl_logic::NoMemory;
use std::alloc::Global;
use std::process::Abort;
use std::test::Fail;

/// Objects that stand for themselves, symbols, and heads.
const ATOMS: &str = r#"
5 => (QUOTE 5)
-7 => (QUOTE -7)
#A => (QUOTE #A)
"S => (QUOTE "S)
T => (QUOTE T)
NIL => (QUOTE NIL)
() => (QUOTE NIL)
:K => (QUOTE :K)
X => X
*C* => (QUOTE 5)
*D* => V6
W => V6
` => V6
, => V6
(QUOTE A) => (QUOTE A)
(QUOTE (A . (B 5))) => (QUOTE (A B 5))
(QUOTE) => V5
(QUOTE A B) => V5
(QUOTE (A (` B))) => V7
(QUOTE ,) => V7
(QUOTE (A . ,)) => V7
(QUOTE . A) => V7
((A) B) => V7
(5 A) => V7
(#A X) => V7
("S X) => V7
(X . Y) => V7
(CONS X . Y) => V7
(FOO X . Y) => V7
(` X) => V7
(, X) => V7
(T X) => V4
(NIL) => V4
(:K X) => V4
(*C*) => V4
(X Y) => V4
(FOO W) => V4
(CADDDDR X) => V4
(CR X) => V4
(CAXR X) => V4
(IF X Y Z) => (IF X Y Z)
(IF X Y) => V5
(IF X Y Z X) => V5
(IF W (FOO) (CAR)) => V6
"#;

/// Primitives and definitions.
const CALLS: &str = r#"
(CONSP X) => (CONSP X)
(INTEGERP X) => (INTEGERP X)
(SYMBOLP X) => (SYMBOLP X)
(STRINGP X) => (STRINGP X)
(CHARACTERP X) => (CHARACTERP X)
(CONS X Y) => (CONS X Y)
(CAR X) => (CAR X)
(CDR X) => (CDR X)
(EQUAL X Y) => (EQUAL X Y)
(NOT X) => (NOT X)
(CHAR-CODE X) => (CHAR-CODE X)
(CODE-CHAR X) => (CODE-CHAR X)
(BINARY-+ X Y) => (BINARY-+ X Y)
(BINARY-* X Y) => (BINARY-* X Y)
(UNARY-- X) => (UNARY-- X)
(< X Y) => (< X Y)
(FLOOR X Y) => (FLOOR X Y)
(MOD X Y) => (MOD X Y)
(TRUNCATE X Y) => (TRUNCATE X Y)
(REM X Y) => (REM X Y)
(ASH X Y) => (ASH X Y)
(BINARY-LOGAND X Y) => (BINARY-LOGAND X Y)
(BINARY-LOGIOR X Y) => (BINARY-LOGIOR X Y)
(BINARY-LOGXOR X Y) => (BINARY-LOGXOR X Y)
(LOGNOT X) => (LOGNOT X)
(LOGBITP X Y) => (LOGBITP X Y)
(INTEGER-LENGTH X) => (INTEGER-LENGTH X)
(UNSIGNED-BYTE-P X Y) => (UNSIGNED-BYTE-P X Y)
(SIGNED-BYTE-P X Y) => (SIGNED-BYTE-P X Y)
(CAR) => V5
(CAR X Y) => V5
(CONS X) => V5
(CONS X Y Z) => V5
(CONS W (CAR)) => V6
(CONS (CAR) W) => V5
(G X Y) => (0 X Y)
(H) => (1)
(G W) => V5
(H X) => V5
(G X (FOO)) => V4
"#;

/// `and`, `or`, `cond`.
const LOGIC: &str = r#"
(AND) => (QUOTE T)
(AND X) => X
(AND X Y) => (IF X Y (QUOTE NIL))
(AND X Y Z) => (IF X (IF Y Z (QUOTE NIL)) (QUOTE NIL))
(AND W (FOO)) => V6
(AND X (FOO) W) => V4
(AND X . Y) => V7
(OR) => (QUOTE NIL)
(OR X) => X
(OR X Y) => (IF X X Y)
(OR X Y Z) => (IF X X (IF Y Y Z))
(OR (OR X Y) Z) => (IF (IF X X Y) (IF X X Y) Z)
(OR (LET ((V X)) V) Z) => (IF (LET (V) (X) V) (LET (V) (X) V) Z)
(OR W (FOO)) => V6
(OR X (CAR)) => V5
(COND) => (QUOTE NIL)
(COND (X)) => (IF X X (QUOTE NIL))
(COND (X Y)) => (IF X Y (QUOTE NIL))
(COND (X Y) (T Z)) => (IF X Y (IF (QUOTE T) Z (QUOTE NIL)))
(COND (X) (Y Z)) => (IF X X (IF Y Z (QUOTE NIL)))
(COND X) => V7
(COND ()) => V7
(COND (X Y Z)) => V7
(COND (X . Y)) => V7
(COND 5) => V7
(COND (W X) 5) => V6
(COND (X (FOO)) 5) => V4
(COND (X Y) 5) => V7
(COND (X Y) (W Z)) => V6
"#;

/// `case`.
const CASES: &str = r#"
(CASE X) => (LET (@) (X) (QUOTE NIL))
(CASE X (1 Y)) => (LET (@) (X) (IF (EQUAL @ (QUOTE 1)) Y (QUOTE NIL)))
(CASE X (1 Y) (T Z)) => (LET (@) (X) (IF (EQUAL @ (QUOTE 1)) Y Z))
(CASE X (A Y) (OTHERWISE Z)) => (LET (@) (X) (IF (EQUAL @ (QUOTE A)) Y Z))
(CASE X ((1 2) Y)) => (LET (@) (X) (IF (31 @ (QUOTE (1 2))) Y (QUOTE NIL)))
(CASE X ((T) Y) (#A Z)) => (LET (@) (X) (IF (31 @ (QUOTE (T))) Y (IF (EQUAL @ (QUOTE #A)) Z (QUOTE NIL))))
(CASE X ("S (CASE Y (T X)))) => (LET (@) (X) (IF (EQUAL @ (QUOTE "S)) (LET (@) (Y) X) (QUOTE NIL)))
(CASE X (OTHERWISE Y)) => (LET (@) (X) Y)
(CASE X (T Y)) => (LET (@) (X) Y)
(CASE X (:T Y)) => (LET (@) (X) (IF (EQUAL @ (QUOTE :T)) Y (QUOTE NIL)))
(CASE) => V5
(CASE X (T Y) (1 Z)) => V7
(CASE X (OTHERWISE Y) (1 Z)) => V7
(CASE X (T Y) (T Z)) => V7
(CASE X (T Y) (OTHERWISE Z)) => V7
(CASE X (1 Y) (T X) (2 Z)) => V7
(CASE X (NIL Y)) => V7
(CASE X ((1 . 2) Y)) => V7
(CASE X ((1 2 . 3) Y) (T Z)) => V7
(CASE X (() Y)) => V7
(CASE X (` Y)) => V7
(CASE X ((1 ,) Y)) => V7
(CASE X ((1 . ,) Y)) => V7
(CASE X 5) => V7
(CASE X ()) => V7
(CASE X (1)) => V7
(CASE X (1 Y Z)) => V7
(CASE X (1 . Y)) => V7
(CASE W 5) => V7
(CASE X (1 W) 5) => V7
(CASE W (1 (FOO))) => V6
(CASE X (1 W) (2 (FOO))) => V6
(CASE X (1 (FOO)) (2 W)) => V4
(CASE X (1 Y) (T W)) => V6
(CASE . X) => V7
"#;

/// `let` and `let*`.
const BINDINGS: &str = r#"
(LET ((X Y) (Y X)) (CONS X Y)) => (LET (X Y) (Y X) (CONS X Y))
(LET ((V X)) V) => (LET (V) (X) V)
(LET () X) => (LET () () X)
(LET ((V X)) (DECLARE (IGNORE V)) X) => (LET (V) (X) X)
(LET ((V X)) (DECLARE (IGNORABLE V) (TYPE INTEGER V)) (DECLARE) V) => (LET (V) (X) V)
(LET ((V X)) (LET ((U V)) (CONS U V))) => (LET (V) (X) (LET (U) (V) (CONS U V)))
(LET ((V X)) (LET ((V V)) V)) => (LET (V) (X) (LET (V) (V) V))
(CONS (LET ((V X)) V) V) => V6
(CONS (LET ((X Y)) X) X) => (CONS (LET (X) (Y) X) X)
(LET ((V X)) (DECLARE (XARGS V)) X) => V7
(LET ((V X)) (DECLARE IGNORE) X) => V7
(LET ((V X)) (DECLARE . V) X) => V7
(LET ((V X)) (DECLARE (IGNORE . V)) X) => V7
(LET ((V X)) (DECLARE (IGNORE V))) => V4
(LET ((V X)) V V) => V7
(LET ((V X))) => V7
(LET) => V7
(LET X Y) => V7
(LET (V) X) => V7
(LET ((V)) X) => V7
(LET ((V X Y)) X) => V7
(LET ((V . X)) X) => V7
(LET ((V X) . Y) X) => V7
(LET ((V X) (V Y)) V) => V7
(LET ((V X) (U Y) (V Z)) V) => V7
(LET ((5 X)) X) => V7
(LET ((T X)) X) => V7
(LET ((NIL X)) X) => V7
(LET ((:K X)) X) => V7
(LET ((*C* X)) X) => V7
(LET ((*E* X)) X) => V7
(LET ((* X)) X) => V7
(LET ((` X)) X) => V7
(LET ((, X)) X) => V7
(LET ((V W)) (FOO)) => V6
(LET ((V X) (U V)) U) => V6
(LET ((V W) (5 X)) V) => V7
(LET* ((V X) (U V)) U) => (LET (V) (X) (LET (U) (V) U))
(LET* () X) => X
(LET* ((V X) (V V)) V) => (LET (V) (X) (LET (V) (V) V))
(LET* ((V X)) (DECLARE (IGNORE V)) X) => (LET (V) (X) X)
(LET*) => V7
(LET* X Y) => V7
(LET* ((V X))) => V7
(LET* ((V W) 5) X) => V6
(LET* ((V X) 5) X) => V7
(LET* ((T X)) X) => V7
(LET* ((V X)) V V) => V7
"#;

/// Lists and arithmetic.
const NUMBERS: &str = r#"
(LIST) => (QUOTE NIL)
(LIST X Y) => (CONS X (CONS Y (QUOTE NIL)))
(LIST W (FOO)) => V6
(LIST* X) => X
(LIST* X Y Z) => (CONS X (CONS Y Z))
(LIST*) => V5
(LIST* W) => V6
(+) => (QUOTE 0)
(+ X) => (BINARY-+ (QUOTE 0) X)
(+ X Y) => (BINARY-+ X Y)
(+ X Y Z) => (BINARY-+ X (BINARY-+ Y Z))
(+ W (FOO)) => V6
(*) => (QUOTE 1)
(* X) => (BINARY-* (QUOTE 1) X)
(* X Y Z) => (BINARY-* X (BINARY-* Y Z))
(- X) => (UNARY-- X)
(- X Y) => (BINARY-+ X (UNARY-- Y))
(-) => V5
(- X Y Z) => V5
(1+ X) => (BINARY-+ (QUOTE 1) X)
(1+) => V5
(1+ X Y) => V5
(1- X) => (BINARY-+ X (UNARY-- (QUOTE 1)))
(1- X Y) => V5
(<= X Y) => (NOT (< Y X))
(<= W (FOO)) => V4
(<= X) => V5
(> X Y) => (< Y X)
(> W (FOO)) => V4
(> X Y Z) => V5
> => V6
(>= X Y) => (NOT (< X Y))
(>= W (FOO)) => V6
(>= X) => V5
(/= X Y) => (NOT (EQUAL X Y))
(/= W (FOO)) => V6
(/= X) => V5
(APPEND) => (QUOTE NIL)
(APPEND X) => X
(APPEND X Y Z) => (27 X (27 Y Z))
(APPEND W (FOO)) => V6
(BINARY-APPEND X) => V5
(LOGAND) => (QUOTE -1)
(LOGAND X) => X
(LOGAND X Y Z) => (BINARY-LOGAND X (BINARY-LOGAND Y Z))
(LOGIOR) => (QUOTE 0)
(LOGIOR X) => X
(LOGIOR X Y) => (BINARY-LOGIOR X Y)
(LOGXOR) => (QUOTE 0)
(LOGXOR X) => X
(LOGXOR X Y Z) => (BINARY-LOGXOR X (BINARY-LOGXOR Y Z))
(MEMBER X Y) => (31 X Y)
(MEMBER W (FOO)) => V6
(MEMBER X) => V5
(MEMBER X Y Z) => V5
(MEMBER X Y :TEST (FOO)) => V7
(MEMBER X Y Z :TEST) => V5
"#;

/// Chains of `car` and `cdr`, `the`, `mbe`.
const PATHS: &str = r#"
(CAAR X) => (CAR (CAR X))
(CADR X) => (CAR (CDR X))
(CDAR X) => (CDR (CAR X))
(CDDR X) => (CDR (CDR X))
(CADAR X) => (CAR (CDR (CAR X)))
(CADDR X) => (CAR (CDR (CDR X)))
(CDAAR X) => (CDR (CAR (CAR X)))
(CADDDR X) => (CAR (CDR (CDR (CDR X))))
(CDDDDR X) => (CDR (CDR (CDR (CDR X))))
(CAAAAR X) => (CAR (CAR (CAR (CAR X))))
(CADR) => V5
(CADR X Y) => V5
(CADR W) => V6
(FIRST X) => (CAR X)
(SECOND X) => (CAR (CDR X))
(THIRD X) => (CAR (CDR (CDR X)))
(FOURTH X) => (CAR (CDR (CDR (CDR X))))
(FIFTH X) => (CAR (CDR (CDR (CDR (CDR X)))))
(SIXTH X) => V4
(REST X) => (CDR X)
(FIRST) => V5
(SECOND X Y) => V5
(THIRD) => V5
(FOURTH) => V5
(FIFTH X Y) => V5
(REST) => V5
(THE INTEGER X) => X
(THE (FOO W) X) => X
(THE X) => V5
(THE X Y Z) => V5
(THE INTEGER W) => V6
(MBE :LOGIC X :EXEC (FOO)) => X
(MBE :EXEC X :LOGIC Y) => V7
(MBE :LOGIC X :LOGIC Y) => V7
(MBE :LOGIC X) => V5
(MBE :LOGIC X :EXEC Y Z) => V5
(MBE :LOGIC W :EXEC X) => V6
"#;

/// Forms in a world without definitions.
const EMPTY_WORLD: &str = r#"
(APPEND X) => X
(APPEND X Y) => V4
(APPEND W Y) => V4
(MEMBER X Y) => V4
(CASE X (1 Y)) => (LET (@) (X) (IF (EQUAL @ (QUOTE 1)) Y (QUOTE NIL)))
(CASE X ((1) Y)) => V4
(CASE W ((1) Y)) => V6
(G X Y) => V4
(ATOM X) => V4
"#;

/// Forms of a theorem, where every legal variable is in scope.
const THEOREM: &str = r#"
W => W
X => X
*C* => (QUOTE 5)
*D* => V6
* => V6
` => V6
, => V6
:K => (QUOTE :K)
T => (QUOTE T)
(+ A B) => (BINARY-+ A B)
(LET ((V A)) (CONS V B)) => (LET (V) (A) (CONS V B))
(FOO A) => V4
"#;

/// Tries each table.
fn try_tables(rt: &impl Abort, alloc: Global) -> Result<(), NoMemory> {
    try_rows(rt, alloc, Kind::Full, ATOMS)?;
    try_rows(rt, alloc, Kind::Full, CALLS)?;
    try_rows(rt, alloc, Kind::Full, LOGIC)?;
    try_rows(rt, alloc, Kind::Full, CASES)?;
    try_rows(rt, alloc, Kind::Full, BINDINGS)?;
    try_rows(rt, alloc, Kind::Full, NUMBERS)?;
    try_rows(rt, alloc, Kind::Full, PATHS)?;
    try_rows(rt, alloc, Kind::Empty, EMPTY_WORLD)?;
    try_rows(rt, alloc, Kind::Theorem, THEOREM)?;
    Ok(())
}

#[test]
fn each_line_of_the_table(rt: HostRuntime) -> Result<(), Fail> {
    Ok(try_tables(&rt, rt.alloc())?)
}
