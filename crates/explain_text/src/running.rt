//! The event that is running, named on a terminal in a line that is wiped again.

use crate::places::Places;
use explain_report::{Report, front_of};
use gl_base::sink::{Sink, put_all};
use gl_logic::NoMemory;
use std::alloc::Global;

/// How many bytes of a name are told.
const MOST_NAMED: usize = 40;

/// To the first column, and wipes the line.
const WIPE: &[u8] = b"\r\x1b[K";

/// Puts the event of an item: its place, its form's first word and its name, and the mode of a theorem. Nothing of another item.
pub(crate) fn put_event(report: &mut Report, places: &Places, number: usize) {
    let (Some(place), Some(named)) = (places.items.get(number), places.named.get(number)) else {
        return;
    };
    if place.line == 0 {
        return;
    }
    report.place(
        places.file(*place),
        u64::from(place.line),
        u64::from(place.column),
    );
    report.text(front_of(named.kind.as_slice(), MOST_NAMED));
    if !named.name.as_slice().is_empty() {
        report.say(" ");
        report.text(front_of(named.name.as_slice(), MOST_NAMED));
    }
    if named.kind.as_slice() == b"DEF-GL-THM".as_slice() {
        report.say(", mode ");
        report.say(places.mode_at(number));
    }
}

/// What is said while the event of an item runs.
fn words_of(alloc: Global, places: &Places, number: usize) -> Result<Vec<u8>, NoMemory> {
    let mut words = Report::new(alloc);
    words.text(WIPE);
    words.say("running ");
    put_event(&mut words, places, number);
    words.into_bytes()
}

/// Names the event of an item, where it has a place. What cannot be written is left out.
pub(crate) fn put_running<E: Sink>(
    alloc: Global,
    notes: &mut E,
    places: &Places,
    number: usize,
) -> Result<(), NoMemory> {
    if let Some(place) = places.items.get(number) {
        if place.line > 0 {
            let words = words_of(alloc, places, number)?;
            let _told = put_all(notes, &words);
        }
    }
    Ok(())
}

/// Wipes what was said.
pub(crate) fn wipe<E: Sink>(notes: &mut E) {
    let _told = put_all(notes, WIPE);
}
