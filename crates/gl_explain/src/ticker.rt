//! What runs is seen: for how long the event has run, told beside the run.

use explain_text::{Doing, Progress};
use std::rt::Clock;
use std::thread;
use std::time::{Duration, Instant};

/// How often it is looked at, and told on a terminal and elsewhere, in milliseconds.
const LOOK: u64 = 10;

const ON_TERMINAL: u64 = 500;

const ELSEWHERE: u64 = 10_000;

/// The last event that was seen, since when, and how often it was told.
#[derive(Drop)]
struct Seen {
    turns: u64,
    since: Option<Instant>,
    told: u64,
}

/// Milliseconds since a reading of a clock; 0 where it cannot be read.
fn millis_since<R: Clock>(rt: &R, since: &Option<Instant>) -> u64 {
    match since {
        Some(since) => match since.elapsed(rt) {
            Ok(time) => {
                let whole = time.as_secs().saturating_mul(1000);
                whole.saturating_add(u64::from(time.subsec_millis()))
            }
            Err(_) => 0,
        },
        None => 0,
    }
}

/// Tells, behind what names the event on a terminal, the seconds; what comes next stands where that ends.
fn tell_on_terminal<R: Eprint>(rt: &R, doing: Doing, millis: u64) {
    let word = match doing {
        Doing::Explain => "explaining",
        Doing::Try => "trying",
        Doing::Run | Doing::Nothing => "",
    };
    let (seconds, tenths) = (millis / 1000, millis / 100 % 10);
    let _told = eprint!(rt; "\x1b7{word}  {seconds}.{tenths} s\x1b8");
}

/// Tells the event and its seconds on a line.
fn tell_elsewhere<R: Eprint + AllocGlobal>(rt: &R, progress: &Progress, doing: Doing, millis: u64) {
    let word = match doing {
        Doing::Explain => "explaining",
        Doing::Try => "trying",
        Doing::Run | Doing::Nothing => "running",
    };
    let seconds = millis / 1000;
    let Ok(event) = progress.event(rt.alloc()) else {
        return;
    };
    if let Ok(event) = str::from_utf8(&event) {
        let _told = eprintln!(rt; "explain: {word} for {seconds} s: {event}");
    }
}

/// Looks at what is done, and tells it from time to time, until all is done.
pub(crate) fn tick<R: Eprint + AllocGlobal + Clock>(
    rt: &R,
    progress: &Progress,
    is_terminal: bool,
) {
    let mut seen = Seen {
        turns: 0,
        since: None,
        told: 0,
    };
    for _ in 0..u64::MAX {
        let doing = progress.doing();
        if doing == Doing::Nothing {
            return;
        }
        look(rt, progress, doing, is_terminal, &mut seen);
        thread::sleep(rt, Duration::from_millis(LOOK));
    }
}

/// Looks at what is done, and tells it where that is due.
fn look<R: Eprint + AllocGlobal + Clock>(
    rt: &R,
    progress: &Progress,
    doing: Doing,
    is_terminal: bool,
    seen: &mut Seen,
) {
    let turns = progress.turns();
    if turns != seen.turns {
        seen.turns = turns;
        seen.since = Instant::now(rt).ok();
        seen.told = 0;
    }
    let millis = millis_since(rt, &seen.since);
    let times = millis / if is_terminal { ON_TERMINAL } else { ELSEWHERE };
    if times <= seen.told {
        return;
    }
    seen.told = times;
    if is_terminal {
        tell_on_terminal(rt, doing, millis);
    } else {
        tell_elsewhere(rt, progress, doing, millis);
    }
}
