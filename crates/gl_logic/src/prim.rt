//! The primitives of the logic.

/// A primitive of the logic, in the order of the language's table. ACL2's manual has each under its
/// name.
#[derive(Clone, Copy, Debug, PartialEq, Eq)]
pub enum Primitive {
    /// `(consp x)`
    Consp,
    /// `(integerp x)`
    Integerp,
    /// `(symbolp x)`: keywords, T and NIL are symbols.
    Symbolp,
    /// `(stringp x)`
    Stringp,
    /// `(characterp x)`
    Characterp,
    /// `(cons a d)`
    Cons,
    /// `(car x)`
    Car,
    /// `(cdr x)`
    Cdr,
    /// `(equal x y)`
    Equal,
    /// `(not x)`
    Not,
    /// `(char-code x)`
    CharCode,
    /// `(code-char n)`
    CodeChar,
    /// `(binary-+ i j)`
    BinaryPlus,
    /// `(binary-* i j)`
    BinaryTimes,
    /// `(unary-- i)`
    UnaryMinus,
    /// `(< i j)`
    Less,
    /// `(floor i j)`
    Floor,
    /// `(mod i j)`
    Mod,
    /// `(truncate i j)`
    Truncate,
    /// `(rem i j)`
    Rem,
    /// `(ash i c)`
    Ash,
    /// `(binary-logand i j)`
    BinaryLogand,
    /// `(binary-logior i j)`
    BinaryLogior,
    /// `(binary-logxor i j)`
    BinaryLogxor,
    /// `(lognot i)`
    Lognot,
    /// `(logbitp i j)`
    Logbitp,
    /// `(integer-length i)`
    IntegerLength,
    /// `(unsigned-byte-p n x)`
    UnsignedByteP,
    /// `(signed-byte-p n x)`
    SignedByteP,
}
