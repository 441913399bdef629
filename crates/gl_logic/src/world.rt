//! Worlds: definitions, constants and accepted events.

ghost use Rattle.std.specs.Prelude.{◌≡◌, ◌↔◌, ◌<◌, ◌≤◌, ◌-◌, [], ◌∷◌, ◌++◌, take, length, map, slice_get, Some, IfOk, OnOk, OnErr};
ghost use Rattle.std.specs.Io.Iter.{u64_saturate};
ghost use Rattle.std.specs.List.{flat_map};
ghost use Rattle.std.specs.Option.{option_copied, option_map};
ghost use Rattle.gl_logic.specs.CellCounts.{constant_cells, constants_of};
ghost use Rattle.gl_logic.specs.DefinitionOf.{definition_of};
ghost use Rattle.gl_logic.specs.IsTermOf.{IsTermOf};
ghost use Rattle.gl_logic.specs.IsGround.{IsGround};
ghost use Rattle.gl_logic.specs.Named.{AreDifferentNames, AreFreeNames, IsFree, IsIndex, names_of, object_named, place_of};
ghost use Rattle.gl_logic.specs.IsAdmissible.{IsAdmissible};
ghost use Rattle.gl_logic.specs.IsTotal.{IsTotal};
ghost use Rattle.gl_logic.specs.Parts.{cells_in};
ghost use Rattle.gl_logic.specs.Extents.{world_cut};
ghost use Rattle.gl_logic.specs.NewNames.{numbers_of};
ghost use Rattle.gl_logic.specs.WorldSeen.{IsWorld, IsClique, IsDefinitionOf, definition_names, with_clique, with_definition, with_constant, with_event};

use super::def::Def;
use super::defs::Defs;
use super::ids::{FnId, NoMemory, TextId};
use super::name_index::NameIndex;
use super::named_trees::NamedTrees;
use super::tree::Tree;
use std::alloc::Global;
use std::marker::Model;

/// A list of definitions, a list of constants, and the accepted named events with their forms. It keeps
/// vectors alone, so that workers can share it.
#[derive(Drop)]
pub struct World {
    definitions: Vec<Def>,
    definition_index: NameIndex,
    // how many members each clique has
    cliques: Vec<u64>,
    constants: NamedTrees,
    events: NamedTrees,
    // at least how many cells its constants and those in its bodies have
    cell_bound: u64,
}

impl Model for World {
    ghost use Rattle.std.specs.Prelude.{◌≤◌, length, map};
    ghost use Rattle.std.specs.Io.Iter.{u64_saturate};
    ghost use Rattle.gl_logic.specs.CellCounts.{constant_cells};
    ghost use Rattle.gl_logic.specs.Named.{IsIndex};
    ghost use Rattle.gl_logic.specs.WorldSeen.{WorldSeen, coded_world, IsWorld, definition_names};

    ghost Value = { WorldSeen };

    ghost coded = { coded_world };

    ghost use Rattle.gl_logic.specs.DefinitionOf.{definition_of};

    ghost view = { λ w. record { definitions = map definition_of w.definitions.items; cliques = w.cliques.items; constants = w.constants; events = w.events } };

    ghost invariant = { λ w. record {
      index : IsIndex w.definition_index (definition_names (map definition_of w.definitions.items));
      world : IsWorld (map definition_of w.definitions.items) w.cliques.items;
      cells : u64_saturate (length (constant_cells (record { definitions = map definition_of w.definitions.items; cliques = w.cliques.items; constants = w.constants; events = w.events }))) ≤ w.cell_bound;
    } };
}

/// How many definitions, cliques, constants and events a world has.
#[derive(Clone, Copy, Debug, PartialEq, Eq)]
pub struct Extent {
    pub definitions: u64,
    pub cliques: u64,
    pub constants: u64,
    pub events: u64,
}

/// Takes the last definition and its place out.
fn pop_definition(definitions: &mut Vec<Def>, index: &mut NameIndex)
    requires { IsIndex index.old (numbers_of definitions.old.items) }
    ensures index { IsIndex index.new (numbers_of definitions.new.items) }
    ensures rest { definitions.new.items ≡ take (length definitions.old.items - 1) definitions.old.items }
{
    if let Some(last) = definitions.pop() {
        index.clear(last.name, definitions.len() as u64);
    }
}

/// Leaves so many definitions, the first ones, and their places.
fn cut_definitions(definitions: &mut Vec<Def>, index: &mut NameIndex, len: u64)
    requires { IsIndex index.old (numbers_of definitions.old.items) }
    ensures index { IsIndex index.new (numbers_of definitions.new.items) }
    ensures rest { definitions.new.items ≡ take len definitions.old.items }
{
    while len < definitions.len() as u64 {
        pop_definition(definitions, index);
    }
}

/// How many cells the constants of the bodies have, each as often as it occurs; 2^64 - 1 where they are more.
fn cells_of_bodies(definitions: &[Def]) -> u64
    ensures { result ≡ u64_saturate (length (flat_map cells_in (flat_map (λ d. constants_of d.body) (map definition_of definitions.now)))) }
{
    let mut count: u64 = 0;
    for definition in definitions {
        count = count.saturating_add(definition.body.constant_cell_count());
    }
    count
}

impl World {
    /// How many of each there are.
    pub fn extent(&self) -> Extent
        ensures definitions { result.definitions ≡ length self.now.definitions }
        ensures cliques { result.cliques ≡ length self.now.cliques }
        ensures constants { result.constants ≡ length self.now.constants }
        ensures events { result.events ≡ length self.now.events }
    {
        Extent {
            definitions: self.definitions.len() as u64,
            cliques: self.cliques.len() as u64,
            constants: self.constants.len(),
            events: self.events.len(),
        }
    }

    /// Leaves so many of each, the first ones: the world as it was when it had so many.
    pub fn cut(&mut self, extent: Extent)
        requires { IsWorld (take extent.definitions self.old.definitions) (take extent.cliques self.old.cliques) }
        ensures { self.new ≡ world_cut extent self.old }
    {
        cut_definitions(
            &mut self.definitions,
            &mut self.definition_index,
            extent.definitions,
        );
        self.cliques.truncate(extent.cliques as usize);
        self.constants.cut(extent.constants);
        self.events.cut(extent.events);
    }

    /// No definitions, constants or events.
    pub fn new(alloc: Global) -> Result<World, NoMemory>
        ensures { IfOk result (λ w. (w.definitions ≡ []) × (w.cliques ≡ []) × (w.constants ≡ []) × (w.events ≡ [])) }
    {
        Ok(World {
            definitions: Vec::new(alloc),
            definition_index: NameIndex::new(alloc),
            cliques: Vec::new(alloc),
            constants: NamedTrees::new(alloc),
            events: NamedTrees::new(alloc),
            cell_bound: 0,
        })
    }

    /// Adds a definition, whose number is the count of those before: a clique of one. It is lost where
    /// memory runs out.
    pub fn push(&mut self, def: Def) -> Result<FnId, NoMemory>
        requires free { IsFree (definition_names self.old.definitions) def.name.number }
        requires formals { AreDifferentNames def.formals }
        requires body { IsTermOf (self.old.definitions ++ definition_of def ∷ []) (definition_of def).body }
        requires same_ground { IsGround (length self.old.definitions) (definition_of def) }
        requires admissible { IsAdmissible (length self.old.definitions) (definition_of def ∷ []) }
        ensures number { IfOk result (λ f. f.number ≡ length self.old.definitions) }
        ensures ok { OnOk result (self.new ≡ with_definition self.old (definition_of def)) }
        ensures err { OnErr result (self.new ≡ self.old) }
    {
        let name = def.name;
        let cells = def.body.constant_cell_count();
        self.definition_index.reserve(name)?;
        self.cliques.reserve(1)?;
        let number = self.definitions.len() as u64;
        self.definitions.push(def)?;
        self.cell_bound = self.cell_bound.saturating_add(cells);
        self.definition_index.put(name, number);
        self.cliques.push_reserved(1);
        Ok(FnId { number })
    }

    /// Adds definitions that may call one another. They get numbers from the count of those before on, in
    /// their order, and the answer is the first. They are lost where memory runs out.
    pub fn push_clique(&mut self, defs: Defs) -> Result<FnId, NoMemory>
        requires some { 0 < length defs }
        requires free { AreFreeNames (definition_names self.old.definitions) (definition_names defs) }
        requires different { AreDifferentNames (definition_names defs) }
        requires clique { IsClique self.old.definitions defs }
        ensures number { IfOk result (λ f. f.number ≡ length self.old.definitions) }
        ensures ok { OnOk result (self.new ≡ with_clique self.old defs) }
        ensures err { OnErr result (self.new ≡ self.old) }
    {
        let mut members = defs.into_items();
        let cells = cells_of_bodies(members.as_slice());
        self.definition_index.reserve_all(members.as_slice())?;
        self.cliques.reserve(1)?;
        let first = self.definitions.len();
        let count = members.len() as u64;
        self.definitions.append(&mut members)?;
        self.cell_bound = self.cell_bound.saturating_add(cells);
        self.definition_index
            .put_all(self.definitions.as_slice(), first);
        self.cliques.push_reserved(count);
        Ok(FnId {
            number: first as u64,
        })
    }

    /// The definition of a name. Takes no memory.
    pub fn find(&self, name: TextId) -> Option<FnId>
        ensures place { option_map (λ f. f.number) result ≡ place_of (definition_names self.now.definitions) name.number }
        ensures free { (result ≡ None) ↔ IsFree (definition_names self.now.definitions) name.number }
    {
        match self.definition_index.get(name) {
            Some(number) => Some(FnId { number }),
            None => None,
        }
    }

    /// A definition by its number. Takes no memory.
    pub fn def(&self, f: FnId) -> &Def
        requires { f.number < length self.now.definitions }
        ensures found { slice_get self.now.definitions f.number ≡ Some (definition_of result.now) }
        ensures proper { IsDefinitionOf self.now.definitions f.number (definition_of result.now) }
    {
        &self.definitions[f.number as usize]
    }

    /// How many definitions there are. They make a world, so each term of them has a value on each
    /// environment.
    pub fn count(&self) -> u64
        ensures count { result ≡ length self.now.definitions }
        ensures world { IsWorld self.now.definitions self.now.cliques }
        ensures total { IsTotal self.now.definitions }
    {
        self.definitions.len() as u64
    }

    /// How many constants there are.
    pub fn constant_count(&self) -> u64
        ensures { result ≡ length self.now.constants }
    {
        self.constants.len()
    }

    /// The value of a constant by its place in the order of their setting, from 0.
    pub fn constant_at(&self, i: u64) -> &Tree
        requires { i < length self.now.constants }
        ensures { slice_get (map (λ e. e.1) self.now.constants) i ≡ Some result.now }
    {
        self.constants.at(i)
    }

    /// At least how many integers, characters and conses are parts of the constants and of those in the definitions'
    /// bodies, each as often as it occurs; 2^64 - 1 where they may be more. After a [`World::cut`] it may be more than they
    /// are.
    pub fn constant_cells(&self) -> u64
        ensures at_least { u64_saturate (length (constant_cells self.now)) ≤ result }
    {
        self.cell_bound
    }

    /// Adds a constant. Its value is lost where memory runs out.
    pub fn set_constant(&mut self, name: TextId, value: Tree) -> Result<(), NoMemory>
        requires { IsFree (names_of self.old.constants) name.number }
        ensures ok { OnOk result (self.new ≡ with_constant self.old name.number value) }
        ensures err { OnErr result (self.new ≡ self.old) }
    {
        let cells = value.cell_count();
        self.constants.push(name, value)?;
        self.cell_bound = self.cell_bound.saturating_add(cells);
        Ok(())
    }

    /// The value of the constant of a name. Takes no memory.
    pub fn constant(&self, name: TextId) -> Option<&Tree>
        ensures value { option_copied result ≡ object_named self.now.constants name.number }
        ensures free { (result ≡ None) ↔ IsFree (names_of self.now.constants) name.number }
    {
        self.constants.get(name)
    }

    /// Records an accepted named event. Its form is lost where memory runs out.
    pub fn note(&mut self, name: TextId, form: Tree) -> Result<(), NoMemory>
        requires { IsFree (names_of self.old.events) name.number }
        ensures ok { OnOk result (self.new ≡ with_event self.old name.number form) }
        ensures err { OnErr result (self.new ≡ self.old) }
    {
        self.events.push(name, form)
    }

    /// The form of the event of a name. Takes no memory.
    pub fn noted(&self, name: TextId) -> Option<&Tree>
        ensures form { option_copied result ≡ object_named self.now.events name.number }
        ensures free { (result ≡ None) ↔ IsFree (names_of self.now.events) name.number }
    {
        self.events.get(name)
    }
}
