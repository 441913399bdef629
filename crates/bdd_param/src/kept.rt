//! The vectors that are kept while a function is walked.

ghost use Rattle.std.specs.Prelude.{◌≡◌, ◌<◌, [], ◌∷◌, ◌++◌, replicate, slice_set, length, get_or, IfOk, OnOk};

use super::edges::Edges;
use bfr_store::Edge;
use gl_logic::NoMemory;
use std::alloc::Global;
use std::marker::Model;

/// Vectors of edges, one for each edge that the walk is done with, and where the vector of each stands. The first vector is
/// that of the variables.
#[derive(Drop)]
pub(crate) struct Kept {
    width: u32,
    vectors: Vec<Edges>,
    /// For each number of an edge, its complement bit included, the place of its vector, or 0 where it has none yet.
    places: Vec<u32>,
}

impl Model for Kept {
    ghost use Rattle.bdd_param.specs.Kept.{KeptSeen};

    ghost Value = { KeptSeen };

    ghost view = { λ k. record { width = k.width; vectors = k.vectors.items; places = k.places.items } };
}

impl Kept {
    /// The vector of the variables alone, with room for the places of edges whose numbers are below `numbers`.
    pub(crate) fn new(
        alloc: Global,
        width: u32,
        variables: Edges,
        numbers: usize,
    ) -> Result<Kept, NoMemory>
        ensures { IfOk result (λ k. k ≡ record { width = width; vectors = variables ∷ []; places = replicate numbers 0 }) }
    {
        let mut vectors = Vec::new(alloc);
        vectors.push(variables)?;
        Ok(Kept {
            width,
            vectors,
            places: vec![in alloc; 0; numbers]?,
        })
    }

    /// The place of an edge's vector, or 0 where it has none yet.
    pub(crate) fn place(&self, e: Edge) -> u32
        requires { e.number < length self.now.places }
        ensures { result ≡ get_or self.now.places e.number 0 }
    {
        self.places[e.number as usize]
    }

    /// The vector at a place.
    pub(crate) fn vector(&self, place: u32) -> &[Edge]
        requires { place < length self.now.vectors }
        ensures { result.now ≡ get_or self.now.vectors place [] }
    {
        self.vectors[place as usize].as_slice()
    }

    /// The edge of a variable.
    pub(crate) fn variable(&self, k: u32) -> Edge
        requires some { 0 < length self.now.vectors }
        requires within { k < length (get_or self.now.vectors 0 []) }
        ensures { (d : Edge) → result ≡ get_or (get_or self.now.vectors 0 []) k d }
    {
        self.vectors[0].as_slice()[k as usize]
    }

    /// Keeps the vector of an edge, and tells its place.
    pub(crate) fn keep(&mut self, e: Edge, vector: Edges) -> Result<u32, NoMemory>
        requires place { e.number < length self.old.places }
        ensures kept { OnOk result (self.new ≡ record self.old { vectors = self.old.vectors ++ vector ∷ []; places = slice_set self.old.places e.number (length self.old.vectors) }) }
        ensures place { IfOk result (λ p. p ≡ length self.old.vectors) }
    {
        let Ok(place) = u32::try_from(self.vectors.len()) else {
            return Err(NoMemory);
        };
        self.vectors.push(vector)?;
        self.places[e.number as usize] = place;
        Ok(place)
    }
}
