//! The order in which variables are decided: by activity, in a heap.

use super::literal::{Literal, number_of};
use gl_logic::NoMemory;
use std::alloc::Global;

/// What a bump adds at first. It grows by one part in `FIRST_SLOWNESS` with each of the first conflicts, and by one in `SLOWNESS`
/// with each after them.
const FIRST_STEP: u64 = 1 << 20;

/// How slowly later bumps come to weigh more, while conflicts are few: the search stays among the variables of late conflicts, which
/// decides exclusive ors and comparisons in a fraction of the conflicts.
const FIRST_SLOWNESS: u64 = 8;

/// The same after that: products, which need many conflicts, need fewer so.
const SLOWNESS: u64 = 64;

/// How many conflicts are the first ones.
const FIRST_CONFLICTS: u32 = 8_000;

/// Where an activity or the step has come to this, all are halved, as often as `HALVINGS` says.
const MOST: u64 = 1 << 62;

/// How often all activities are halved at once.
const HALVINGS: u32 = 40;

/// The variables that may be open, the most active one first. An activity is a whole number, and later bumps weigh more.
#[derive(Drop)]
pub struct Order {
    activities: Vec<u64>,
    step: u64,
    /// How many conflicts there were.
    conflicts: u32,
    /// A binary heap of variables: the activity of none is above that of the one at half its place.
    heap: Vec<u32>,
    /// By variable, its place in the heap.
    places: Vec<Option<u32>>,
}

impl Order {
    /// All variables, with no activity.
    pub fn new(alloc: Global, variables: u32) -> Result<Order, NoMemory> {
        let count = variables as usize;
        let mut heap = Vec::with_capacity(alloc, count)?;
        let mut places = Vec::with_capacity(alloc, count)?;
        for variable in 0..variables {
            heap.push(variable)?;
            places.push(Some(variable))?;
        }
        Ok(Order {
            activities: vec![in alloc; 0; count]?,
            step: FIRST_STEP,
            conflicts: 0,
            heap,
            places,
        })
    }

    /// How active a variable is.
    #[inline]
    fn activity(&self, variable: u32) -> u64 {
        match self.activities.get(variable as usize) {
            Some(activity) => *activity,
            None => 0,
        }
    }

    /// Puts a variable at a place of the heap, and notes where it stands.
    #[inline]
    fn put(&mut self, place: usize, variable: u32) {
        if place < self.heap.len() {
            self.heap[place] = variable;
        }
        let index = variable as usize;
        if index < self.places.len() {
            self.places[index] = Some(number_of(place));
        }
    }

    /// Puts a variable into a hole of the heap, and moves less active ones down.
    fn rise(&mut self, hole: usize, variable: u32) {
        let activity = self.activity(variable);
        let mut place = hole;
        for _ in 0..64 {
            if place == 0 {
                break;
            }
            let above = (place - 1) / 2;
            let other = match self.heap.get(above) {
                Some(other) => *other,
                None => variable,
            };
            if self.activity(other) >= activity {
                break;
            }
            self.put(place, other);
            place = above;
        }
        self.put(place, variable);
    }

    /// The more active one of the two variables below a place, with its place.
    #[inline]
    fn child(&self, place: usize) -> Option<(usize, u32)> {
        let left = place.wrapping_mul(2).wrapping_add(1);
        if left <= place {
            return None;
        }
        let first = *self.heap.get(left)?;
        let right = left.wrapping_add(1);
        match self.heap.get(right) {
            Some(second) if self.activity(*second) > self.activity(first) => Some((right, *second)),
            _ => Some((left, first)),
        }
    }

    /// Puts a variable into a hole of the heap, and moves more active ones up.
    fn sink(&mut self, hole: usize, variable: u32) {
        let activity = self.activity(variable);
        let mut place = hole;
        for _ in 0..64 {
            let Some((below, other)) = self.child(place) else {
                break;
            };
            if self.activity(other) <= activity {
                break;
            }
            self.put(place, other);
            place = below;
        }
        self.put(place, variable);
    }

    /// Takes the most active variable out.
    pub fn take(&mut self) -> Option<u32> {
        let first = *self.heap.get(0)?;
        let last = self.heap.pop()?;
        let index = first as usize;
        if index < self.places.len() {
            self.places[index] = None;
        }
        if last != first {
            self.sink(0, last);
        }
        Some(first)
    }

    /// Puts a variable back, where it is not there.
    pub fn reinsert(&mut self, variable: u32) -> Result<(), NoMemory> {
        let index = variable as usize;
        if index >= self.places.len() || self.places[index].is_some() {
            return Ok(());
        }
        let place = self.heap.len();
        self.heap.push(variable)?;
        self.rise(place, variable);
        Ok(())
    }

    /// Makes a variable more active.
    pub fn bump(&mut self, variable: u32) {
        let index = variable as usize;
        if index >= self.activities.len() {
            return;
        }
        let activity = self.activities[index].saturating_add(self.step);
        self.activities[index] = activity;
        if activity >= MOST {
            self.halve();
        }
        if let Some(Some(place)) = self.places.get(index) {
            let place = *place as usize;
            self.rise(place, variable);
        }
    }

    /// Makes the variables of these literals more active.
    pub fn bump_all(&mut self, literals: &[Literal]) {
        for literal in literals {
            self.bump(literal.variable());
        }
    }

    /// Counts a conflict: later bumps weigh more.
    pub fn age(&mut self) {
        self.conflicts = self.conflicts.saturating_add(1);
        let more = if self.conflicts > FIRST_CONFLICTS {
            self.step / SLOWNESS
        } else {
            self.step / FIRST_SLOWNESS
        };
        self.step = self.step.saturating_add(more);
        if self.step >= MOST {
            self.halve();
        }
    }

    /// Halves all activities and the step, so that none leaves its type. The order stays.
    #[cold]
    fn halve(&mut self) {
        for activity in self.activities.iter_mut() {
            *activity >>= HALVINGS;
        }
        self.step = (self.step >> HALVINGS).max(1);
    }
}
