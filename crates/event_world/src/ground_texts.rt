//! The ground definitions, each as it stands behind `defun`.

ghost use Rattle.std.specs.Prelude.{◌≡◌, map};
ghost use Rattle.event_world.specs.PreludeTexts.{ground_texts};

static DEFINITIONS: [&str; 43] = [
    "ATOM (X) (NOT (CONSP X))",
    "ENDP (X) (ATOM X)",
    "NULL (X) (EQUAL X NIL)",
    "EQ (X Y) (EQUAL X Y)",
    "EQL (X Y) (EQUAL X Y)",
    "= (X Y) (EQUAL X Y)",
    "HONS-EQUAL (X Y) (EQUAL X Y)",
    "ZP (X) (IF (INTEGERP X) (<= X 0) T)",
    "ZIP (X) (IF (INTEGERP X) (EQUAL X 0) T)",
    "NATP (X) (IF (INTEGERP X) (<= 0 X) NIL)",
    "POSP (X) (IF (INTEGERP X) (< 0 X) NIL)",
    "NFIX (X) (IF (NATP X) X 0)",
    "IFIX (X) (IF (INTEGERP X) X 0)",
    "ZEROP (X) (EQUAL X 0)",
    "PLUSP (X) (< 0 X)",
    "MINUSP (X) (< X 0)",
    "MIN (X Y) (IF (< X Y) X Y)",
    "MAX (X Y) (IF (< Y X) X Y)",
    "ABS (X) (IF (< X 0) (- X) X)",
    "EVENP (X) (EQUAL (MOD X 2) 0)",
    "ODDP (X) (NOT (EVENP X))",
    "BOOLEANP (X) (IF (EQUAL X T) T (EQUAL X NIL))",
    "IMPLIES (P Q) (IF P (IF Q T NIL) T)",
    "IFF (P Q) (IF P (IF Q T NIL) (IF Q NIL T))",
    "XOR (P Q) (IF P (IF Q NIL T) (IF Q T NIL))",
    "LEN (X) (IF (CONSP X) (+ 1 (LEN (CDR X))) 0)",
    "TRUE-LISTP (X) (IF (CONSP X) (TRUE-LISTP (CDR X)) (EQUAL X NIL))",
    "BINARY-APPEND (X Y) (IF (ENDP X) Y (CONS (CAR X) (BINARY-APPEND (CDR X) Y)))",
    "NTH (N L) (IF (ENDP L) NIL (IF (ZP N) (CAR L) (NTH (- N 1) (CDR L))))",
    "NTHCDR (N L) (IF (ZP N) L (NTHCDR (- N 1) (CDR L)))",
    "UPDATE-NTH (N V L) (IF (ZP N) (CONS V (CDR L)) (CONS (CAR L) (UPDATE-NTH (- N 1) V (CDR L))))",
    "MEMBER-EQUAL (X L) (IF (ENDP L) NIL (IF (EQUAL X (CAR L)) L (MEMBER-EQUAL X (CDR L))))",
    "ASSOC-EQUAL (X A) (IF (ENDP A) NIL (IF (EQUAL X (CAR (CAR A))) (CAR A) (ASSOC-EQUAL X (CDR A))))",
    "LOGCOUNT-NAT (X) (IF (ZP X) 0 (+ (MOD X 2) (LOGCOUNT-NAT (FLOOR X 2))))",
    "LOGCOUNT (X) (IF (INTEGERP X) (IF (< X 0) (LOGCOUNT-NAT (LOGNOT X)) (LOGCOUNT-NAT X)) 0)",
    "HONS (X Y) (CONS X Y)",
    "HONS-COPY (X) X",
    "HONS-ACONS (K V A) (CONS (CONS K V) A)",
    "MAKE-FAST-ALIST (A) A",
    "FAST-ALIST-FREE (A) A",
    "HONS-ASSOC-EQUAL (K A) (IF (ATOM A) NIL (IF (AND (CONSP (CAR A)) (EQUAL K (CAR (CAR A)))) (CAR A) (HONS-ASSOC-EQUAL K (CDR A))))",
    "HONS-GET (K A) (HONS-ASSOC-EQUAL K A)",
    "FAST-ALIST-FORK (A ANS) (IF (ATOM A) ANS (IF (ATOM (CAR A)) (FAST-ALIST-FORK (CDR A) ANS) (IF (HONS-ASSOC-EQUAL (CAR (CAR A)) ANS) (FAST-ALIST-FORK (CDR A) ANS) (FAST-ALIST-FORK (CDR A) (CONS (CAR A) ANS)))))",
];

/// The first definitions of every world, in their order: each as it stands behind `defun`.
pub(crate) fn definitions() -> &'static [&'static str]
    ensures { map (λ t. t.now) result.now ≡ ground_texts }
{
    &DEFINITIONS
}
