//! Lists of edges.

ghost use Rattle.std.specs.Prelude.{◌≡◌, ◌<◌, [], ◌∷◌, ◌++◌, length, slice_get, slice_set, Some, IfOk, OnOk, OnErr};

use bfr_store::Edge;
use gl_logic::NoMemory;
use std::alloc::Global;
use std::marker::Model;

/// Edges in order. Contracts see the list.
#[derive(Drop)]
pub struct Edges {
    items: Vec<Edge>,
}

impl Model for Edges {
    ghost use Rattle.std.specs.Prelude.{List};
    ghost use Rattle.bfr_store.specs.declared.edge.Edge.{Edge};

    ghost Value = { List Edge };

    ghost view = { λ e. e.items.items };
}

impl Edges {
    /// No edge. Takes no memory.
    pub fn new(alloc: Global) -> Edges
        ensures { result ≡ [] }
    {
        Edges {
            items: Vec::new(alloc),
        }
    }

    /// Puts an edge last.
    pub fn push(&mut self, edge: Edge) -> Result<(), NoMemory>
        ensures ok { OnOk result (self.new ≡ self.old ++ edge ∷ []) }
        ensures err { OnErr result (self.new ≡ self.old) }
    {
        self.items.push(edge)?;
        Ok(())
    }

    /// How many edges there are.
    pub fn len(&self) -> u64
        ensures { result ≡ length self.now }
    {
        self.items.len() as u64
    }

    /// The edge at a place, from 0.
    pub fn at(&self, i: u64) -> &Edge
        requires { i < length self.now }
        ensures { slice_get self.now i ≡ Some result.now }
    {
        &self.items[i as usize]
    }

    /// The edges.
    pub fn as_slice(&self) -> &[Edge]
        ensures { result.now ≡ self.now }
    {
        self.items.as_slice()
    }

    /// The same edges.
    pub(crate) fn copy(alloc: Global, edges: &[Edge]) -> Result<Edges, NoMemory>
        ensures { IfOk result (λ v. v ≡ edges.now) }
    {
        Ok(Edges {
            items: Vec::from_slice(alloc, edges)?,
        })
    }

    /// A copy with another edge at a place.
    pub(crate) fn with(
        alloc: Global,
        edges: &[Edge],
        place: u32,
        edge: Edge,
    ) -> Result<Edges, NoMemory>
        requires { place < length edges.now }
        ensures { IfOk result (λ v. v ≡ slice_set edges.now place edge) }
    {
        let mut items = Vec::from_slice(alloc, edges)?;
        items[place as usize] = edge;
        Ok(Edges { items })
    }
}
