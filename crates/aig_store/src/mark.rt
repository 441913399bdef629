//! Marks, by which a walk knows the nodes that it has been to.

ghost use Rattle.std.specs.Prelude.{◌≡◌, false};

/// What was found of a node, and the number of the call that found it.
#[derive(Clone, Copy)]
pub struct Mark {
    pub call: u32,
    pub value: bool,
}

impl Mark {
    /// The mark of no call.
    pub fn blank() -> Mark
        ensures { result ≡ record { call = 0; value = false } }
    {
        Mark {
            call: 0,
            value: false,
        }
    }
}
