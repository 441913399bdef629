//! What a verdict that is no proof means, and what to try.

use explain_report::{Cause, Found, Report, Verdict};

/// A word for what is meant, what it means, and what to try, in the order that costs least.
#[derive(Clone, Copy)]
pub(crate) struct Advice {
    word: &'static str,
    meaning: &'static str,
    help: &'static str,
}

fn said(word: &'static str, meaning: &'static str, help: &'static str) -> Advice {
    Advice {
        word,
        meaning,
        help,
    }
}

/// Of what leaves an event undecided.
fn of_cause(cause: Cause) -> Advice {
    let word = cause.word();
    match cause {
        Cause::Uncovered(_, _) => said(
            word,
            "the hypothesis does not keep the variable that is named within its shape, so nothing was tried",
            "say it by a conjunct of `:hyp` that is written out: `(unsigned-byte-p n x)` for `(:nat x n)`, `(signed-byte-p n x)` \
            for `(:int x n)`, `(booleanp x)` for `(:boolean x)`; a predicate of your own is not looked into; else widen the shape",
        ),
        Cause::Uncased => said(
            word,
            "the input that is shown is of no case",
            "add the case of that input",
        ),
        Cause::Nodes => said(
            word,
            "each mode in which the theorem was tried took more nodes or clauses than there are, and there are too many inputs to \
            try each",
            "narrow the widths to look for a bug (which proves nothing of the wide theorem); mix the operands by `(:mix ..)`, with \
            what selects in front; `--nodes 4000000`, `--clauses 1000000`; cases by `def-gl-param-thm`; say it in steps",
        ),
        Cause::Clauses => said(
            word,
            "the search learned as many clauses as it may, and there are too many inputs to try each",
            "`--clauses 1000000`; `(gl-bdd-mode)` or `(gl-param-mode)` in front of the theorem; cases by `def-gl-param-thm`; \
            narrower widths to look for a bug",
        ),
        Cause::Clock => said(
            word,
            "on the input that is shown more definitions are opened inside one another than the clock says",
            "leave `:hyp-clk` and `:concl-clk` out; if it ends even so, say in the hypothesis what bounds the recursion on that \
            input",
        ),
        Cause::Width => said(
            word,
            "a value on the way is an integer outside 128 bits",
            "mask before you shift; part products by halves; compare without subtracting",
        ),
        Cause::Steps => said(
            word,
            "an evaluation visited as many subterms as it may",
            "`--steps 99999999`; memoize what is called again and again on the same arguments",
        ),
        Cause::Cells => said(
            word,
            "an evaluation made as many objects as it may",
            "`--cells 4000000`; make no list where a sum suffices",
        ),
        Cause::Size => said(
            word,
            "the value is too large to print",
            "print a part of it, or its length",
        ),
        Cause::Memory => said(
            word,
            "the system refused memory",
            "give the process more, or lower `--nodes`, `--cells` and `--workers`",
        ),
    }
}

/// Of what came of an event; none of what needs none.
pub(crate) fn advice_of(found: &Found) -> Option<Advice> {
    match found.verdict {
        Verdict::Vacuous => Some(said(
            "vacuous",
            "NOTHING meets the hypothesis, so the theorem says nothing",
            "look for two conjuncts that exclude each other, as `(< x 3)` and `(< 5 x)`",
        )),
        Verdict::Refuted => Some(said(
            "refuted",
            "the input that is shown meets the hypothesis and makes the conclusion NIL",
            "look for the first part that is not what you expect; a hypothesis that is too weak looks the same as a bug",
        )),
        Verdict::Failed => Some(said(
            "assert",
            "the asserted value is NIL",
            "look for the first part that is not what you expect",
        )),
        Verdict::Undecided => found.cause.map(of_cause),
        _ => None,
    }
}

impl Advice {
    /// Puts what is meant.
    pub(crate) fn put_meaning(self, report: &mut Report) {
        report.say(self.word);
        report.say(": ");
        report.say(self.meaning);
        report.say("\n");
    }

    /// Puts what to try.
    pub(crate) fn put_help(self, report: &mut Report) {
        report.say("   = help: ");
        report.say(self.help);
        report.say("\n");
    }
}
