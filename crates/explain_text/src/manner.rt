//! How a run is told, and where to.

use explain_report::Verdict;
use gl_base::sink::Sink;

/// The format in which a run is told.
#[derive(Clone, Copy, Debug, PartialEq, Eq)]
pub enum Format {
    /// Each line as it is decided, and then what is to be said of it.
    Text,
    /// An object for each line, behind the run.
    Json,
    /// A page, behind the run.
    Html,
}

/// How a run is told: the format; of text whether it has colors, whether seconds and a summary are told, and whether included
/// books that have nothing to tell are shown too; and for how many seconds in all is tried what may decide the events that are
/// undecided, if at all.
#[derive(Clone, Copy, Debug, PartialEq, Eq)]
pub struct Manner {
    pub format: Format,
    pub colors: bool,
    pub seconds: bool,
    pub shows_all: bool,
    pub tries: Option<u32>,
}

/// What ends a color.
pub(crate) const PLAIN: &str = "\x1b[0m";

impl Manner {
    /// What makes the line of a verdict stand out; empty where nothing does.
    pub(crate) fn color(self, verdict: Verdict) -> &'static str {
        if !self.colors {
            return "";
        }
        match verdict {
            Verdict::Proved | Verdict::Holds => "\x1b[32m",
            Verdict::Refuted | Verdict::Failed | Verdict::Refused => "\x1b[1;31m",
            Verdict::Vacuous | Verdict::Undecided => "\x1b[1;33m",
            Verdict::Value | Verdict::Taken | Verdict::Mark | Verdict::Done => "",
        }
    }
}

/// Where a run is told, where the event that is running is named, if anywhere, and how.
#[derive(Drop)]
pub struct Outlet<K: Sink + Drop, E: Sink + Drop> {
    pub out: K,
    pub notes: Option<E>,
    pub manner: Manner,
}
