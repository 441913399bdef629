//! Why definitions are not admitted.

/// Why definitions are not admitted.
#[derive(Clone, Copy, Debug, PartialEq, Eq)]
pub enum AdmitFault {
    /// The number of the first recursive call that is no step, from 1: through the bodies in the order of
    /// the members, in each body outermost first and then from left to right.
    NotAdmitted(u64),
    /// Memory was refused, or there are more recursive calls than 64 bits number, which no memory holds.
    Memory,
}
