//! Theorems in order.

ghost use Rattle.std.specs.Prelude.{◌≡◌, ◌<◌, [], ◌∷◌, ◌++◌, map, length, slice_get, Some, OnOk, OnErr, IfOk};
ghost use Rattle.shape_spec.specs.TheoremSeen.{theorem_seen, set_by};

use super::functions::copied_functions;
use gl_logic::NoMemory;
use shape_spec::{FnSet, Mode, Thm};
use std::alloc::Global;
use std::marker::Model;

/// Theorems in order.
#[derive(Drop)]
pub struct Thms {
    items: Vec<Thm>,
}

impl Model for Thms {
    ghost use Rattle.std.specs.Prelude.{List, map};
    ghost use Rattle.std.specs.Coded.{coded_list};
    ghost use Rattle.shape_spec.specs.TheoremSeen.{TheoremSeen, coded_theorem, theorem_seen};

    ghost Value = { List TheoremSeen };

    ghost coded = { coded_list coded_theorem };

    ghost view = { λ l. map theorem_seen l.items.items };
}

impl Thms {
    /// No theorems. Takes no memory.
    pub fn new(alloc: Global) -> Thms
        ensures { result ≡ [] }
    {
        Thms {
            items: Vec::new(alloc),
        }
    }

    /// Puts a theorem last.
    pub fn push(&mut self, thm: Thm) -> Result<(), NoMemory>
        ensures ok { OnOk result (self.new ≡ self.old ++ theorem_seen thm ∷ []) }
        ensures err { OnErr result (self.new ≡ self.old) }
    {
        self.items.push(thm)?;
        Ok(())
    }

    /// How many there are.
    pub fn len(&self) -> u64
        ensures { result ≡ length self.now }
    {
        self.items.len() as u64
    }

    /// The theorem at a place, from 0.
    pub fn at(&self, i: u64) -> &Thm
        requires { i < length self.now }
        ensures { slice_get self.now i ≡ Some (theorem_seen result.now) }
    {
        &self.items[i as usize]
    }

    /// Gives each theorem these settings.
    pub(crate) fn set(
        self,
        alloc: Global,
        hyp_clk: u32,
        concl_clk: u32,
        mode: Mode,
        memoized: &FnSet,
    ) -> Result<Thms, NoMemory>
        ensures { IfOk result (λ all. all ≡ map (set_by hyp_clk concl_clk mode memoized.now) self) }
    {
        let mut all = Thms::new(alloc);
        for thm in self.items {
            all.push(set_one(alloc, thm, hyp_clk, concl_clk, mode, memoized)?)?;
        }
        Ok(all)
    }
}

/// A theorem with these settings.
fn set_one(
    alloc: Global,
    thm: Thm,
    hyp_clk: u32,
    concl_clk: u32,
    mode: Mode,
    memoized: &FnSet,
) -> Result<Thm, NoMemory>
    ensures { IfOk result (λ t. theorem_seen t ≡ set_by hyp_clk concl_clk mode memoized.now (theorem_seen thm)) }
{
    let memoized = copied_functions(alloc, memoized)?;
    let Thm {
        name,
        hyp,
        concl,
        bindings,
        ..
    } = thm;
    Ok(Thm {
        name,
        hyp,
        concl,
        bindings,
        hyp_clk,
        concl_clk,
        mode,
        memoized,
    })
}
