ghost use Rattle.std.specs.Prelude.{◌≡◌, ◌≤◌};

/// What a run may use at most. Each field stays within its range.
#[derive(Clone, Copy, Debug, PartialEq, Eq)]
pub struct Limits {
    /// Subterms that one evaluation may visit.
    pub steps: u32,
    /// Integers, characters and conses in one arena.
    pub cells: u32,
    /// Nodes of one bit store, and of one symbolic store.
    pub nodes: u32,
    /// Clauses that the searches of one run of a theorem may learn together.
    pub clauses: u32,
    /// The widest theorem, in bits of its input, that is scanned.
    pub enum_bits: u8,
    /// Workers of a parallel phase.
    pub workers: u8,
    pub ghost some_steps: { 1 ≤ steps },
    pub ghost most_steps: { steps ≤ 99999999 },
    pub ghost some_cells: { 1000 ≤ cells },
    pub ghost most_cells: { cells ≤ 4000000 },
    pub ghost some_nodes: { 100 ≤ nodes },
    pub ghost most_nodes: { nodes ≤ 4000000 },
    pub ghost some_clauses: { 1 ≤ clauses },
    pub ghost most_clauses: { clauses ≤ 1000000 },
    pub ghost most_enum_bits: { enum_bits ≤ 16 },
    pub ghost some_workers: { 1 ≤ workers },
    pub ghost most_workers: { workers ≤ 8 },
}

impl Limits {
    /// The limits of a run whose command names none.
    pub fn usual() -> Limits
        ensures steps { result.steps ≡ 10000000 }
        ensures cells { result.cells ≡ 1000000 }
        ensures nodes { result.nodes ≡ 1000000 }
        ensures clauses { result.clauses ≡ 100000 }
        ensures enum_bits { result.enum_bits ≡ 12 }
        ensures workers { result.workers ≡ 1 }
    {
        Limits {
            steps: 10_000_000,
            cells: 1_000_000,
            nodes: 1_000_000,
            clauses: 100_000,
            enum_bits: 12,
            workers: 1,
        }
    }
}
