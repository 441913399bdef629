//! The numbers of the ground definitions that tests call.

/// `(atom x)`
pub(crate) const ATOM: u64 = 0;
/// `(endp x)`
pub(crate) const ENDP: u64 = 1;
/// `(eql x y)`
pub(crate) const EQL: u64 = 4;
/// `(= x y)`
pub(crate) const SAME: u64 = 5;
/// `(zp x)`
pub(crate) const ZP: u64 = 7;
/// `(natp x)`
pub(crate) const NATP: u64 = 9;
/// `(posp x)`
pub(crate) const POSP: u64 = 10;
