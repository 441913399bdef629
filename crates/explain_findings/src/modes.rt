//! How the time of a theorem that took all nodes was spent: in which mode how much, as runs with a part of its limits tell.

use crate::asker::Asker;
use crate::attempts::mode_of;
use crate::pace::with_room;
use crate::stopwatch::Stopwatch;
use explain_report::Report;
use gl_base::limits::Limits;
use gl_logic::{NoMemory, Texts, Tree};
use shape_spec::Mode;
use std::rt::Clock;
use std::thread::Threads;

/// Of which theorems it is told: of those that ran for so many microseconds.
const LONG: u64 = 10_000_000;

/// Which part of the limits the runs have.
const PART: u32 = 16;

/// The microseconds of a run in a mode, with those behind it.
fn micros_in<R: Threads + Sync + Clock>(
    asker: &Asker<R>,
    texts: &mut Texts,
    form: &Tree,
    mode: Mode,
    limits: &Limits,
) -> Result<u64, NoMemory> {
    let mut watch = Stopwatch::new(asker.rt);
    let _found = asker.try_form(texts, form, Some(mode), limits)?;
    Ok(watch.lap())
}

/// A part of some microseconds, as one number is a part of another.
fn share_of(micros: u64, part: u64, whole: u64) -> u64 {
    micros.saturating_mul(part) / whole.max(1)
}

/// Puts what a mode took, and how to give it more room.
fn put_mode(report: &mut Report, words: &str, micros: u64) {
    report.say("     about ");
    report.millis(micros);
    report.say(" s in ");
    report.say(words);
    report.say("\n");
}

/// Puts for how long each mode ran of a theorem that took all nodes, and so many microseconds, where these are many; and which
/// one costs least with more room.
pub fn put_modes<R: Threads + Sync + Clock>(
    asker: &Asker<R>,
    texts: &mut Texts,
    report: &mut Report,
    form: &Tree,
    micros: u64,
) -> Result<(), NoMemory> {
    let own = mode_of(asker, texts, form)?;
    if micros < LONG || !matches!(own, Some(Mode::Bdd | Mode::Param)) {
        return Ok(());
    }
    let nodes = asker.limits.nodes / PART;
    let limits = with_room(asker.limits, nodes, asker.limits.clauses / PART);
    let search = micros_in(asker, texts, form, Mode::Sat, &limits)?;
    let with_param = micros_in(asker, texts, form, Mode::Param, &limits)?;
    let whole = if own == Some(Mode::Bdd) {
        micros_in(asker, texts, form, Mode::Bdd, &limits)?
    } else {
        with_param
    };
    put_shares(
        report,
        micros,
        whole.saturating_sub(with_param),
        with_param.saturating_sub(search),
        search,
    );
    Ok(())
}

/// Puts how microseconds are shared among the modes, which took such parts of them.
fn put_shares(report: &mut Report, micros: u64, diagrams: u64, parameters: u64, search: u64) {
    let whole = diagrams.saturating_add(parameters).saturating_add(search);
    report.say("   of its ");
    report.millis(micros);
    report.say(" s, as runs with a sixteenth of its limits tell:\n");
    if diagrams > 0 {
        put_mode(report, "(gl-bdd-mode)", share_of(micros, diagrams, whole));
    }
    put_mode(
        report,
        "(gl-param-mode)",
        share_of(micros, parameters, whole),
    );
    put_mode(report, "(gl-satlink-mode)", share_of(micros, search, whole));
    report.say("   so with more room try first: ");
    let is_diagrams = diagrams > 0 && diagrams <= parameters && diagrams <= search;
    report.say(if is_diagrams {
        "(gl-bdd-mode) and --nodes 4000000"
    } else if search <= parameters {
        "(gl-satlink-mode) and --clauses 1000000"
    } else {
        "(gl-param-mode) and --nodes 4000000"
    });
    report.say("\n");
}
