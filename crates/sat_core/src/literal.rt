//! Literals of the search.

/// A variable of the search, or its complement. The variables are numbered from 0 as they come in the first clauses, so that
/// what is kept of each takes no more room than the cone.
#[derive(Clone, Copy, Debug, PartialEq, Eq)]
pub struct Literal {
    code: u32,
}

impl Literal {
    /// A variable, or its complement.
    #[inline]
    pub fn of(variable: u32, complemented: bool) -> Literal {
        let code = variable.wrapping_mul(2);
        Literal {
            code: if complemented { code | 1 } else { code },
        }
    }

    /// The literal's variable.
    #[inline]
    pub fn variable(self) -> u32 {
        self.code / 2
    }

    /// Whether the literal is the complement of its variable.
    #[inline]
    pub fn is_complemented(self) -> bool {
        self.code % 2 == 1
    }

    /// The other literal of the same variable.
    #[inline]
    pub fn complement(self) -> Literal {
        Literal {
            code: self.code ^ 1,
        }
    }

    /// Where what is kept of the literal stands in a table: the variable's place doubled, and one more for its complement.
    #[inline]
    pub fn place(self) -> usize {
        self.code as usize
    }
}

/// A count as a number of 32 bits; the greatest where it is none.
#[inline]
pub fn number_of(count: usize) -> u32 {
    count.min(u32::MAX as usize) as u32
}
