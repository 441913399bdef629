//! Environments that share their ends.

ghost use Rattle.std.specs.Prelude.{◌≡◌, ◌≤◌, ◌<◌, [], ◌∷◌, ◌++◌, ℕ, length, get_or, IfOk, OnOk, OnErr};
ghost use Rattle.gl_interp.specs.Envs.{AllBelow, EnvsBelow, EnvsKept, PairsBelow, sob_in, sobs_bound};

use super::env::SymEnv;
use gl_logic::{Names, NoMemory, TextId};
use std::alloc::Global;
use std::marker::Model;
use sym_objects::Sob;

/// An environment: 0 is the empty one.
#[derive(Clone, Copy, Debug, PartialEq, Eq)]
pub struct EnvId {
    pub number: u64,
}

#[derive(Clone, Copy, Debug, PartialEq, Eq)]
pub struct Cell {
    name: TextId,
    value: Sob,
    next: EnvId,
}

/// Environments by their number. Each but the empty one is a name and a value before another one.
#[derive(Drop)]
pub struct Envs {
    cells: Vec<Cell>,
}

impl Model for Envs {
    ghost use Rattle.std.specs.Prelude.{List, ℕ, [], ◌∷◌};
    ghost use Rattle.sym_objects.specs.declared.sob.Sob.{Sob};

    ghost Value = { List (List (ℕ × Sob)) };

    ghost use Rattle.gl_interp.specs.Cells.{built, IsLinked};

    ghost view = { λ e. built ([] ∷ []) e.cells.items };

    ghost invariant = { λ e. IsLinked e.cells.items };
}

impl Envs {
    /// The empty environment alone. Takes no memory.
    pub fn new(alloc: Global) -> Envs
        ensures { result ≡ [] ∷ [] }
    {
        Envs {
            cells: Vec::new(alloc),
        }
    }

    /// The empty environment.
    pub fn empty(&self) -> EnvId
        ensures live { result.number < length self.now }
        ensures empty { get_or self.now result.number [] ≡ [] }
    {
        // Read for what it tells of the environments: the first is empty.
        let _cells = &self.cells;
        EnvId { number: 0 }
    }

    /// The object of a name.
    pub fn look(&self, env: EnvId, name: TextId) -> Option<Sob>
        requires { env.number < length self.now }
        ensures { result ≡ sob_in (get_or self.now env.number []) name.number }
    {
        let mut at = env.number;
        while at != 0 {
            let cell = self.cells[(at - 1) as usize];
            if cell.name.number == name.number {
                return Some(cell.value);
            }
            at = cell.next.number;
        }
        None
    }

    /// A name and a value before an environment.
    pub fn bind(&mut self, name: TextId, value: Sob, next: EnvId) -> Result<EnvId, NoMemory>
        requires { next.number < length self.old }
        ensures number { IfOk result (λ r. r.number ≡ length self.old) }
        ensures added { OnOk result (self.new ≡ self.old ++ ((name.number, value) ∷ get_or self.old next.number []) ∷ []) }
        ensures err { OnErr result (self.new ≡ self.old) }
    {
        self.cells.push(Cell { name, value, next })?;
        Ok(EnvId {
            number: self.cells.len() as u64,
        })
    }

    /// Each name with the value at its place before an environment.
    pub fn bind_all(&mut self, names: &Names, values: &[Sob], env: EnvId) -> Result<EnvId, NoMemory>
        requires env { env.number < length self.old }
        requires count { length names.now ≡ length values.now }
        ensures kept { EnvsKept self.old self.new }
        ensures below { (n : ℕ) → EnvsBelow n self.old → AllBelow n values.now → EnvsBelow n self.new }
        ensures live { IfOk result (λ r. r.number < length self.new) }
        ensures bound { IfOk result (λ r. get_or self.new r.number [] ≡ sobs_bound names.now values.now ++ get_or self.old env.number []) }
    {
        let mut at = env;
        let mut k = names.len();
        while k > 0 {
            k -= 1;
            at = self.bind(*names.at(k), values[k as usize], at)?;
        }
        Ok(at)
    }

    /// The pairs of an environment.
    pub fn bind_pairs(&mut self, pairs: &SymEnv) -> Result<EnvId, NoMemory>
        ensures kept { EnvsKept self.old self.new }
        ensures below { (n : ℕ) → EnvsBelow n self.old → PairsBelow n pairs.now → EnvsBelow n self.new }
        ensures live { IfOk result (λ r. r.number < length self.new) }
        ensures bound { IfOk result (λ r. get_or self.new r.number [] ≡ pairs.now) }
    {
        let mut at = self.empty();
        let mut k = pairs.len();
        while k > 0 {
            k -= 1;
            let (name, value) = pairs.at(k);
            at = self.bind(name, value, at)?;
        }
        Ok(at)
    }
}
