//! How far a trial is: rounds under limits that grow, as far as they cost no more than there is time for.

ghost use Rattle.std.specs.Prelude.{◌≡◌, false, true};

use gl_base::limits::Limits;

/// How many nodes, and how many clauses, a trial begins with at most.
const FIRST_NODES: u32 = 10_000;

const FIRST_CLAUSES: u32 = 50;

/// How many microseconds cost nothing.
const CHEAP: u64 = 100_000;

/// The limits of a trial's last round, or of its first one where it had none, and those that it may have at most; the
/// microseconds of its last round, 0 where it had none; how much its limits may grow from round to round; and whether it has
/// ended.
#[derive(Clone, Copy)]
pub(crate) struct Pace {
    pub limits: Limits,
    pub most: Limits,
    pub micros: u64,
    pub growth: u64,
    pub is_over: bool,
}

/// A number that grows by a factor, up to another number.
fn grown_number(number: u32, factor: u64, most: u32) -> u32 {
    let grown = u64::from(number).saturating_mul(factor);
    if grown < u64::from(most) {
        grown as u32
    } else {
        most
    }
}

/// Limits whose steps, cells, nodes and clauses grow by a factor, up to other limits.
fn grown(limits: &Limits, factor: u64, most: &Limits) -> Limits {
    Limits {
        steps: grown_number(limits.steps, factor, most.steps).clamp(1, 99_999_999),
        cells: grown_number(limits.cells, factor, most.cells).clamp(1000, 4_000_000),
        nodes: grown_number(limits.nodes, factor, most.nodes).clamp(100, 4_000_000),
        clauses: grown_number(limits.clauses, factor, most.clauses).clamp(1, 1_000_000),
        enum_bits: limits.enum_bits,
        workers: limits.workers,
    }
}

/// Limits with so many nodes and clauses.
pub(crate) fn with_room(limits: &Limits, nodes: u32, clauses: u32) -> Limits {
    Limits {
        steps: limits.steps,
        cells: limits.cells,
        nodes: nodes.clamp(100, 4_000_000),
        clauses: clauses.clamp(1, 1_000_000),
        enum_bits: limits.enum_bits,
        workers: limits.workers,
    }
}

/// Limits with all steps.
pub(crate) fn with_steps(limits: &Limits) -> Limits
    ensures steps { result.steps ≡ 99999999 }
    ensures others { (result.cells ≡ limits.now.cells) × (result.nodes ≡ limits.now.nodes) × (result.clauses ≡ limits.now.clauses) }
    ensures widest { result.enum_bits ≡ limits.now.enum_bits }
{
    Limits {
        steps: 99_999_999,
        cells: limits.cells,
        nodes: limits.nodes,
        clauses: limits.clauses,
        enum_bits: limits.enum_bits,
        workers: limits.workers,
    }
}

/// Limits with all cells.
pub(crate) fn with_cells(limits: &Limits) -> Limits
    ensures cells { result.cells ≡ 4000000 }
    ensures others { (result.steps ≡ limits.now.steps) × (result.nodes ≡ limits.now.nodes) × (result.clauses ≡ limits.now.clauses) }
    ensures widest { result.enum_bits ≡ limits.now.enum_bits }
{
    Limits {
        steps: limits.steps,
        cells: 4_000_000,
        nodes: limits.nodes,
        clauses: limits.clauses,
        enum_bits: limits.enum_bits,
        workers: limits.workers,
    }
}

impl Pace {
    /// Rounds from few nodes and clauses on.
    pub(crate) fn from_little(own: &Limits) -> Pace {
        Pace {
            limits: with_room(
                own,
                own.nodes.min(FIRST_NODES),
                own.clauses.min(FIRST_CLAUSES),
            ),
            most: with_room(own, 4_000_000, 1_000_000),
            micros: 0,
            growth: 16,
            is_over: false,
        }
    }

    /// Rounds beyond limits under which the same was run in so many microseconds.
    pub(crate) fn beyond(own: &Limits, most: Limits, micros: u64, growth: u64) -> Pace
        ensures limits { (result.limits ≡ own.now) × (result.most ≡ most) }
        ensures begins { (result.growth ≡ growth) × (result.is_over ≡ false) }
    {
        Pace {
            limits: *own,
            most,
            micros: micros.max(1),
            growth,
            is_over: false,
        }
    }

    /// One round under the limits of a run.
    pub(crate) fn once(own: &Limits) -> Pace
        ensures limits { (result.limits ≡ own.now) × (result.most ≡ own.now) }
        ensures begins { (result.micros ≡ 0) × (result.is_over ≡ false) }
    {
        Pace {
            limits: *own,
            most: *own,
            micros: 0,
            growth: 1,
            is_over: false,
        }
    }

    /// The limits of the next round, which is to cost about so many microseconds.
    pub(crate) fn next(&self, share: u64) -> Limits {
        if self.micros == 0 {
            return self.limits;
        }
        let factor = (share / self.micros.max(1)).min(self.growth).max(2);
        grown(&self.limits, factor, &self.most)
    }

    /// How much the last round cost, roughly: what costs less than four times as much counts the same.
    pub(crate) fn cost(&self) -> u32 {
        let times = self.micros / CHEAP;
        64_u32.saturating_sub(times.leading_zeros()).div_ceil(2)
    }

    /// Whether the next round costs more than so many microseconds, as the last one tells.
    pub(crate) fn is_beyond(&self, micros: u64) -> bool {
        micros < self.micros.saturating_mul(2)
    }

    /// Takes a round in, under limits and of so many microseconds. It was the last one where it has ended the trial, or where
    /// there are no greater limits.
    pub(crate) fn take(&mut self, limits: Limits, micros: u64, is_over: bool)
        ensures limits { (self.new.limits ≡ limits) × (self.new.most ≡ self.old.most) }
        ensures over { is_over ≡ true → self.new.is_over ≡ true }
    {
        self.limits = limits;
        self.micros = micros.max(1);
        self.is_over = is_over || limits == self.most;
    }
}
