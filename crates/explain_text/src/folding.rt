//! Included books that have nothing to tell, folded into one line each.

use explain_report::{Record, Report, Verdict};

/// What becomes of a line.
#[derive(Clone, Copy, Debug, PartialEq, Eq)]
pub(crate) enum Step {
    /// It is shown.
    Show,
    /// It is held back.
    Hold,
    /// It is shown behind those that are held back, from the one of this number on.
    Unfold(usize),
    /// It ends a book whose lines, from the one of this number on, are told in one.
    Fold(usize),
}

/// How many included books are open, one inside the other, and the number of the first line that is held back, if any is.
#[derive(Clone, Copy)]
pub(crate) struct Folding {
    folds: bool,
    depth: usize,
    from: Option<usize>,
}

/// Whether a line of an included book has nothing to tell.
fn is_quiet(verdict: Verdict) -> bool {
    matches!(
        verdict,
        Verdict::Proved | Verdict::Holds | Verdict::Taken | Verdict::Mark
    )
}

fn begins_with(text: &[u8], front: &[u8]) -> bool {
    front.len() <= text.len() && &text[..front.len()] == front
}

impl Folding {
    /// No line is held back; whether any will be.
    pub(crate) fn new(folds: bool) -> Folding {
        Folding {
            folds,
            depth: 0,
            from: None,
        }
    }

    /// An included book begins with the line of a number.
    fn enter(&mut self, number: usize) -> Step {
        self.depth = self.depth.saturating_add(1);
        if self.depth == 1 && self.folds {
            self.from = Some(number);
        }
        self.pass()
    }

    /// An included book ends.
    fn leave(&mut self) -> Step {
        self.depth = self.depth.saturating_sub(1);
        match self.from {
            Some(from) if self.depth == 0 => {
                self.from = None;
                Step::Fold(from)
            }
            _ => self.pass(),
        }
    }

    fn pass(&self) -> Step {
        if self.from == None {
            Step::Show
        } else {
            Step::Hold
        }
    }

    /// What becomes of the line of a record, which has this number.
    pub(crate) fn take(&mut self, record: &Record, number: usize) -> Step {
        let text = record.text.as_slice();
        if record.verdict() == Verdict::Mark && begins_with(text, b"BOOK ") {
            return self.enter(number);
        }
        if record.verdict() == Verdict::Mark && begins_with(text, b"END ") {
            return self.leave();
        }
        match self.from {
            Some(from) if !is_quiet(record.verdict()) => {
                self.from = None;
                Step::Unfold(from)
            }
            _ => self.pass(),
        }
    }
}

/// Puts the line that stands for the lines of an included book.
pub(crate) fn put_fold(report: &mut Report, records: &[Record], has_seconds: bool) {
    let mut micros: u64 = 0;
    for record in records {
        micros = micros.saturating_add(record.micros);
    }
    if let Some(first) = records.first() {
        report.text(first.text.as_slice());
    }
    report.say(": ");
    report.number(records.len().saturating_sub(2) as u64);
    report.say(" lines with nothing to tell; --all shows them");
    if has_seconds {
        report.say("  ");
        report.millis(micros);
        report.say(" s");
    }
    report.say("\n");
}
