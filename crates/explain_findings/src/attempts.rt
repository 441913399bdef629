//! Trials of an undecided event, within a time: what costs least first, in rounds, up to the first that decides the event.

ghost use Rattle.std.specs.Prelude.{◌≡◌, ◌≢◌, codes, false};
ghost use Rattle.explain_findings.specs.Founds.{IsHolding};

use crate::asker::Asker;
use crate::evaluation::{put_front, put_inputs};
use crate::events::event_in;
use crate::stopwatch::Stopwatch;
use crate::trials::{Ladder, Spent, Trial, ladder_of};
use event_world::Event;
use explain_report::{Cause, Found, Record, Report, Verdict};
use gl_base::limits::Limits;
use gl_logic::{NoMemory, Texts, Tree};
use shape_spec::Mode;
use std::rt::Clock;
use std::thread::Threads;

/// A round that took so many microseconds, and has not ended its trial, is told.
const LONG: u64 = 1_000_000;

/// The trials of an event, with what is left of its time in microseconds.
#[derive(Drop)]
pub struct Attempts<'a> {
    ladder: Ladder<'a>,
    given: u64,
    left: u64,
    is_decided: bool,
}

/// What the verdict of a trial is in words.
fn words_of(is_hint: bool, verdict: Verdict) -> &'static str
    // It is told as holding where the very event is proved, or its assert holds, and nowhere else.
    ensures { result.now ≡ codes "decided: it holds" → (is_hint ≡ false) × IsHolding verdict }
{
    if is_hint {
        word_of_hint(verdict)
    } else {
        word_of(verdict)
    }
}

/// What a verdict is in words.
fn word_of(verdict: Verdict) -> &'static str
    ensures { result.now ≡ codes "decided: it holds" → IsHolding verdict }
{
    match verdict {
        Verdict::Proved | Verdict::Holds => "decided: it holds",
        Verdict::Vacuous => "decided: nothing meets the hypothesis",
        Verdict::Refuted | Verdict::Failed => "decided: it is refuted",
        Verdict::Value => "decided: it has a value",
        _ => "undecided",
    }
}

/// What narrower widths come to in words.
fn word_of_hint(verdict: Verdict) -> &'static str
    ensures { result.now ≢ codes "decided: it holds" }
{
    match verdict {
        Verdict::Proved => "no counterexample: a hint, and no proof of the theorem itself",
        Verdict::Vacuous =>
            "nothing meets the hypothesis there, which says nothing of the theorem itself",
        Verdict::Refuted => "a counterexample, which meets the whole hypothesis",
        _ => "undecided too",
    }
}

/// Puts an option with a number, where the number is another one than that of other limits.
fn put_option(report: &mut Report, name: &str, number: u32, other: u32) {
    if number != other {
        report.say(" --");
        report.say(name);
        report.say(" ");
        report.number(u64::from(number));
    }
}

/// Puts the options of limits in which they differ from others.
fn put_options(report: &mut Report, limits: &Limits, other: &Limits) {
    put_option(report, "steps", limits.steps, other.steps);
    put_option(report, "cells", limits.cells, other.cells);
    put_option(report, "nodes", limits.nodes, other.nodes);
    put_option(report, "clauses", limits.clauses, other.clauses);
}

/// Puts what a trial changes.
fn put_change(report: &mut Report, trial: &Trial) {
    if trial.change.is_empty() {
        report.say("the event as it is");
    } else {
        report.say(if trial.is_hint { "narrower, " } else { "" });
        put_front(report, &trial.change);
    }
}

/// Puts what a round of a trial came to, under which limits, and in how many microseconds.
fn put_outcome(report: &mut Report, trial: &Trial, found: &Found, own: &Limits) {
    report.say("     ");
    put_change(report, trial);
    report.say("\n       ");
    report.say(words_of(trial.is_hint, found.verdict));
    if let Some(word) = found.lack() {
        report.say(", ");
        report.say(word);
    }
    report.say(", in ");
    report.millis(trial.pace.micros);
    report.say(" s");
    if trial.pace.limits != *own {
        report.say(", with");
        put_options(report, &trial.pace.limits, own);
    }
    report.say("\n");
}

/// Puts the change that decides an event: the text, and the limits that are greater than those of the run.
fn put_deciding(report: &mut Report, trial: &Trial, own: &Limits) {
    let limits = trial.pace.limits;
    report.say("   so this decides it:");
    if !trial.change.is_empty() {
        report.say(" ");
        report.text(&trial.change);
    }
    put_option(report, "steps", limits.steps.max(own.steps), own.steps);
    put_option(report, "cells", limits.cells.max(own.cells), own.cells);
    put_option(report, "nodes", limits.nodes.max(own.nodes), own.nodes);
    put_option(
        report,
        "clauses",
        limits.clauses.max(own.clauses),
        own.clauses,
    );
    report.say("\n");
}

/// Puts the input that refutes, where there is one.
fn put_refuting<R: Threads + Sync>(
    asker: &Asker<R>,
    texts: &Texts,
    report: &mut Report,
    form: &Tree,
    found: &Found,
) -> Result<(), NoMemory> {
    if found.inputs.is_empty() {
        return Ok(());
    }
    put_inputs(asker.alloc, texts, report, form, &found.inputs)
}

/// Whether what came of a trial leaves it without another round: it is decided, or undecided for want of something else than
/// what grows.
fn has_ended(found: &Found) -> bool {
    !matches!(
        found.cause,
        Some(Cause::Nodes | Cause::Clauses | Cause::Steps | Cause::Cells)
    )
}

/// Whether what came of a trial decides the event itself: narrower widths only refute.
fn decides(trial: &Trial, found: &Found) -> bool {
    found.lack().is_none() && (!trial.is_hint || found.verdict == Verdict::Refuted)
}

/// Runs a round of a trial, takes what it took from the time, and puts what is to be told of it. Whether it decides the event.
fn run_round<R: Threads + Sync + Clock>(
    asker: &Asker<R>,
    texts: &mut Texts,
    report: &mut Report,
    form: &Tree,
    trial: &mut Trial,
    share: u64,
    left: &mut u64,
) -> Result<bool, NoMemory> {
    let limits = trial.pace.next(share);
    let mut watch = Stopwatch::new(asker.rt);
    let found = asker.try_form(texts, &trial.form, trial.mode, &limits)?;
    let micros = watch.lap();
    *left = left.saturating_sub(micros);
    trial.pace.take(limits, micros, has_ended(&found));
    if trial.pace.is_over || LONG <= micros {
        put_outcome(report, trial, &found, asker.limits);
    }
    if !decides(trial, &found) {
        return Ok(false);
    }
    if !trial.is_hint {
        put_deciding(report, trial, asker.limits);
    }
    put_refuting(asker, texts, report, form, &found)?;
    Ok(true)
}

/// The number of the first trial of those that cost least in their last round, and may have another one within a time.
fn cheapest(trials: &[Trial], left: u64) -> Option<usize> {
    let mut found = None;
    let mut least = u32::MAX;
    for (i, trial) in trials.iter().enumerate() {
        let pace = trial.pace;
        if !pace.is_over && !pace.is_beyond(left) && pace.cost() < least {
            least = pace.cost();
            found = Some(i);
        }
    }
    found
}

/// How many trials may have another round.
fn count_open(trials: &[Trial]) -> u64 {
    let mut count: u64 = 0;
    for trial in trials {
        if !trial.pace.is_over {
            count = count.saturating_add(1);
        }
    }
    count
}

/// Puts a trial that is planned, and with which limits it begins.
fn put_planned(report: &mut Report, trial: &Trial) {
    let pace = trial.pace;
    report.say("     ");
    put_change(report, trial);
    if pace.limits != pace.most {
        report.say(if pace.micros == 0 {
            ", from"
        } else {
            ", beyond"
        });
        put_options(report, &pace.limits, &pace.most);
        report.say(" on");
    }
    report.say("\n");
}

/// Puts a trial that is left for want of time: beyond which limits.
fn put_left(report: &mut Report, trial: &Trial) {
    let pace = trial.pace;
    report.say("     ");
    put_change(report, trial);
    if pace.micros > 0 {
        report.say(", beyond");
        put_options(report, &pace.limits, &pace.most);
    }
    report.say("\n");
}

/// The mode of the theorem of a form; none of another event.
pub(crate) fn mode_of<R: Threads + Sync>(
    asker: &Asker<R>,
    texts: &mut Texts,
    form: &Tree,
) -> Result<Option<Mode>, NoMemory> {
    match event_in(asker.alloc, asker.state, texts, form)? {
        Some(Event::Theorem(thm)) => Ok(Some(thm.mode)),
        _ => Ok(None),
    }
}

/// Puts seconds as they are told of a time that is given.
fn put_time(report: &mut Report, micros: u64) {
    report.number(micros.div_ceil(1_000_000));
    report.say(" s");
}

impl<'a> Attempts<'a> {
    /// The trials of an event that is undecided, within a time.
    pub fn new<R: Threads + Sync>(
        asker: &Asker<R>,
        texts: &mut Texts,
        form: &'a Tree,
        record: &Record,
        given: u64,
    ) -> Result<Attempts<'a>, NoMemory> {
        let spent = Spent {
            limits: *asker.limits,
            micros: record.micros,
            mode: mode_of(asker, texts, form)?,
        };
        Ok(Attempts {
            ladder: ladder_of(asker.alloc, texts, form, spent, record.found.cause)?,
            given,
            left: given,
            is_decided: false,
        })
    }

    /// The microseconds that are left of its time.
    pub fn left(&self) -> u64 {
        self.left
    }

    /// Whether there is anything to try.
    pub fn is_empty(&self) -> bool {
        self.ladder.trials.is_empty()
    }

    /// Puts what is to be tried, and with which limits.
    pub fn put_plan(&self, report: &mut Report) {
        report.say("   to try, within ");
        put_time(report, self.given);
        report.say(", what costs least first");
        if let Some(trial) = self.ladder.trials.first() {
            if trial.pace.limits != trial.pace.most {
                report.say(", with limits that grow up to");
                put_options(report, &trial.pace.most, &trial.pace.limits);
            }
        }
        report.say(":\n");
        for trial in &self.ladder.trials {
            put_planned(report, trial);
        }
        report.say("   tried:\n");
    }

    /// Runs the next round, and puts what is to be told of it. Whether there was one.
    pub fn put_next<R: Threads + Sync + Clock>(
        &mut self,
        asker: &Asker<R>,
        texts: &mut Texts,
        report: &mut Report,
        form: &Tree,
    ) -> Result<bool, NoMemory> {
        let Some(number) = cheapest(&self.ladder.trials, self.left) else {
            return Ok(false);
        };
        if self.is_decided || self.left == 0 {
            return Ok(false);
        }
        let share = self.left / count_open(&self.ladder.trials).max(1);
        if let Some(trial) = self.ladder.trials.get_mut(number) {
            self.is_decided = run_round(asker, texts, report, form, trial, share, &mut self.left)?;
        }
        Ok(true)
    }

    /// Puts what is left, where no trial has decided the event.
    pub fn put_end(&self, report: &mut Report) {
        if self.is_decided {
            return;
        }
        report.say("   none of this decides it");
        if count_open(&self.ladder.trials) == 0 {
            report.say("\n");
            return;
        }
        report.say("; for want of time there is left:\n");
        for trial in &self.ladder.trials {
            if !trial.pace.is_over {
                put_left(report, trial);
            }
        }
    }
}
