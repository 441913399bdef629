//! How far a run is, for a thread beside it that tells it.

use crate::places::Places;
use crate::running::put_event;
use explain_report::Report;
use gl_logic::NoMemory;
use std::alloc::Global;
use std::sync::OnceLock;
use std::sync::atomic::{AtomicU64, Ordering};

/// What is done with an event.
#[derive(Clone, Copy, Debug, PartialEq, Eq)]
pub enum Doing {
    /// It runs.
    Run,
    /// What is to be said of it is found out.
    Explain,
    /// It is tried otherwise.
    Try,
    /// All is done.
    Nothing,
}

/// Where the events of a run stand, once that is known; how many events were turned to; the number of the item of the last one; and
/// what is done with it. One thread writes it, and another one reads it.
#[derive(Drop)]
pub struct Progress {
    places: OnceLock<Places>,
    turns: AtomicU64,
    item: AtomicU64,
    doing: AtomicU64,
}

impl Progress {
    /// No event was turned to.
    pub fn new() -> Progress {
        Progress {
            places: OnceLock::new(),
            turns: AtomicU64::new(0),
            item: AtomicU64::new(0),
            doing: AtomicU64::new(0),
        }
    }

    /// Where the events stand.
    pub(crate) fn know(&self, places: Places) {
        let _known = self.places.try_set(places).is_ok();
    }

    /// Turns to an event, by the number of its item.
    pub(crate) fn turn_to(&self, item: usize, doing: Doing) {
        let code = match doing {
            Doing::Run => 0,
            Doing::Explain => 1,
            Doing::Try => 2,
            Doing::Nothing => 3,
        };
        self.item.store(item as u64, Ordering::SeqCst);
        self.doing.store(code, Ordering::SeqCst);
        self.turns.fetch_add(1, Ordering::SeqCst);
    }

    /// All is done.
    pub fn end(&self) {
        self.turn_to(0, Doing::Nothing);
    }

    /// How many events were turned to.
    pub fn turns(&self) -> u64 {
        self.turns.load(Ordering::SeqCst)
    }

    /// What is done.
    pub fn doing(&self) -> Doing {
        match self.doing.load(Ordering::SeqCst) {
            0 => Doing::Run,
            1 => Doing::Explain,
            2 => Doing::Try,
            _ => Doing::Nothing,
        }
    }

    /// The place of the event, its form's first word and its name, and the mode of a theorem; empty where that is not known.
    pub fn event(&self, alloc: Global) -> Result<Vec<u8>, NoMemory> {
        let mut words = Report::new(alloc);
        if let Some(places) = self.places.get() {
            put_event(
                &mut words,
                places,
                self.item.load(Ordering::SeqCst) as usize,
            );
        }
        words.into_bytes()
    }
}
