//! What may decide an event that is left undecided.

ghost use Rattle.std.specs.Prelude.{◌≡◌, true, false};

use crate::forms::{event_text, form_text};
use crate::pace::{Pace, with_cells, with_room, with_steps};
use crate::reordered::{mixed, narrow_first, narrowed, narrowed_hypothesis};
use crate::theorem::{Theorem, by_cases, changed, theorem_of, without_clocks};
use explain_report::{Cause, Report};
use gl_base::limits::Limits;
use gl_logic::{NoMemory, Texts, Tree};
use shape_spec::Mode;
use std::alloc::Global;

/// What is tried: what changes in the book, which is nothing where only the limits change, the form of the event then, the mode,
/// and how far that is. A hint proves nothing of the theorem itself.
#[derive(Drop)]
pub(crate) struct Trial {
    pub change: Vec<u8>,
    pub form: Tree,
    pub mode: Option<Mode>,
    pub is_hint: bool,
    pub pace: Pace,
}

impl Trial {
    /// The event itself, or one that says the same: what is found out is an answer to it.
    fn same(change: Vec<u8>, form: Tree, mode: Option<Mode>, pace: Pace) -> Trial
        ensures { result.is_hint ≡ false }
    {
        Trial {
            change,
            form,
            mode,
            is_hint: false,
            pace,
        }
    }

    /// A theorem of narrower widths, whose hypothesis says more.
    fn narrower(change: Vec<u8>, form: Tree, pace: Pace) -> Trial
        ensures { result.is_hint ≡ true }
    {
        Trial {
            change,
            form,
            mode: None,
            is_hint: true,
            pace,
        }
    }
}

/// What is known of the run that left an event undecided: its limits, its microseconds, and the mode of its theorem, where it
/// is one that is not by cases.
#[derive(Clone, Copy)]
pub(crate) struct Spent {
    pub limits: Limits,
    pub micros: u64,
    pub mode: Option<Mode>,
}

impl Spent {
    /// Whether the run tried a mode too, behind the one of the theorem.
    fn has_tried(&self, mode: Mode) -> bool {
        match self.mode {
            Some(Mode::Bdd) => true,
            Some(Mode::Param) => mode != Mode::Bdd,
            Some(Mode::Sat) | None => false,
        }
    }
}

/// Trials of an event, in the order in which those that cost the same are tried.
#[derive(Drop)]
pub(crate) struct Ladder<'a> {
    alloc: Global,
    event: &'a Tree,
    spent: Spent,
    pub trials: Vec<Trial>,
}

impl<'a> Ladder<'a> {
    /// Adds another form, from few nodes and clauses on.
    fn push_form(&mut self, change: Vec<u8>, form: Tree) -> Result<(), NoMemory> {
        let pace = Pace::from_little(&self.spent.limits);
        self.trials.push(Trial::same(change, form, None, pace))?;
        Ok(())
    }

    /// Adds the same event in a mode.
    fn push_same(&mut self, words: &str, mode: Option<Mode>, pace: Pace) -> Result<(), NoMemory> {
        let change = words.as_bytes().to_vec(self.alloc)?;
        let form = self.event.copy(self.alloc)?;
        self.trials.push(Trial::same(change, form, mode, pace))?;
        Ok(())
    }

    /// Adds the event, in a mode, beyond the limits of its run, where there are others, and how much they grow in a round.
    fn push_beyond(
        &mut self,
        words: &str,
        mode: Option<Mode>,
        most: Limits,
        growth: u64,
    ) -> Result<(), NoMemory> {
        if most == self.spent.limits {
            return Ok(());
        }
        let pace = Pace::beyond(&self.spent.limits, most, self.spent.micros, growth);
        self.push_same(words, mode, pace)
    }

    /// Adds the same event behind a mode that is not its own: beyond the limits under which its run has tried that.
    fn push_mode(&mut self, words: &str, mode: Mode) -> Result<(), NoMemory> {
        let limits = self.spent.limits;
        if self.spent.mode == None || self.spent.mode == Some(mode) {
            return Ok(());
        }
        if self.spent.has_tried(mode) {
            let most = with_room(&limits, 4_000_000, 1_000_000);
            return self.push_beyond(words, Some(mode), most, 16);
        }
        self.push_same(words, Some(mode), Pace::from_little(&limits))
    }

    /// Adds each mode that the theorem does not have.
    fn push_modes(&mut self) -> Result<(), NoMemory> {
        self.push_mode("(gl-bdd-mode)", Mode::Bdd)?;
        self.push_mode("(gl-param-mode)", Mode::Param)?;
        self.push_mode("(gl-satlink-mode)", Mode::Sat)
    }

    /// Adds other bindings than a theorem has.
    fn push_bindings(
        &mut self,
        texts: &mut Texts,
        theorem: &Theorem,
        bindings: &Tree,
    ) -> Result<(), NoMemory> {
        if bindings.same(theorem.bindings) {
            return Ok(());
        }
        let change = option_text(self.alloc, texts, bindings)?;
        let form = changed(self.alloc, texts, theorem, theorem.hyp, bindings)?;
        self.push_form(change, form)
    }

    /// Adds the orders of indices: equal widths mixed, and then the narrow ones in front.
    fn push_orders(&mut self, texts: &mut Texts, theorem: &Theorem) -> Result<(), NoMemory> {
        let first = mixed(self.alloc, texts, &theorem.bound)?;
        let second = narrow_first(self.alloc, texts, &theorem.bound)?;
        self.push_bindings(texts, theorem, &first)?;
        if second.same(&first) {
            return Ok(());
        }
        self.push_bindings(texts, theorem, &second)
    }

    /// Adds narrower widths, which are a hint.
    fn push_narrowed(&mut self, texts: &mut Texts, theorem: &Theorem) -> Result<(), NoMemory> {
        let bindings = narrowed(self.alloc, texts, &theorem.bound)?;
        let hyp = narrowed_hypothesis(self.alloc, texts, &theorem.bound, theorem.hyp)?;
        let form = changed(self.alloc, texts, theorem, &hyp, &bindings)?;
        let change = form_text(self.alloc, &bindings, texts)?;
        let pace = Pace::from_little(&self.spent.limits);
        self.trials.push(Trial::narrower(change, form, pace))?;
        Ok(())
    }

    /// Adds the theorem by cases, where some variable has few values, and narrower widths, which are a hint.
    fn push_others(
        &mut self,
        texts: &mut Texts,
        theorem: &Option<Theorem>,
    ) -> Result<(), NoMemory> {
        let Some(theorem) = theorem else {
            return Ok(());
        };
        if let Some(form) = by_cases(self.alloc, texts, theorem)? {
            let change = event_text(self.alloc, &form, texts)?;
            self.push_form(change, form)?;
        }
        self.push_narrowed(texts, theorem)
    }

    /// Adds what may decide a theorem that took all nodes.
    fn push_of_nodes(&mut self, texts: &mut Texts) -> Result<(), NoMemory> {
        let most = with_room(&self.spent.limits, 4_000_000, 1_000_000);
        let theorem = theorem_of(self.alloc, texts, self.event)?;
        if let Some(theorem) = &theorem {
            self.push_orders(texts, theorem)?;
        }
        self.push_beyond("", None, most, 16)?;
        self.push_modes()?;
        self.push_others(texts, &theorem)
    }

    /// Adds what may decide a theorem whose search learned all clauses: no order of indices changes that.
    fn push_of_clauses(&mut self, texts: &mut Texts) -> Result<(), NoMemory> {
        let limits = self.spent.limits;
        let theorem = theorem_of(self.alloc, texts, self.event)?;
        self.push_modes()?;
        self.push_beyond("", None, with_room(&limits, limits.nodes, 1_000_000), 16)?;
        self.push_others(texts, &theorem)
    }

    /// Adds the event without its clocks.
    fn push_unclocked(&mut self, texts: &Texts) -> Result<(), NoMemory> {
        let form = without_clocks(self.alloc, texts, self.event)?;
        let change = form_text(self.alloc, &form, texts)?;
        let pace = Pace::once(&self.spent.limits);
        self.trials.push(Trial::same(change, form, None, pace))?;
        Ok(())
    }
}

/// The bindings of a theorem as its option.
fn option_text(alloc: Global, texts: &Texts, bindings: &Tree) -> Result<Vec<u8>, NoMemory> {
    let mut text = Report::new(alloc);
    text.say(":G-BINDINGS ");
    text.made(form_text(alloc, bindings, texts));
    text.into_bytes()
}

/// Adds what may decide an event that is undecided for a cause.
fn push_all(ladder: &mut Ladder, texts: &mut Texts, cause: Option<Cause>) -> Result<(), NoMemory> {
    let limits = ladder.spent.limits;
    match cause {
        Some(Cause::Nodes) => ladder.push_of_nodes(texts),
        Some(Cause::Clauses) => ladder.push_of_clauses(texts),
        Some(Cause::Steps) => ladder.push_beyond("", None, with_steps(&limits), u64::MAX),
        Some(Cause::Cells) => ladder.push_beyond("", None, with_cells(&limits), u64::MAX),
        Some(Cause::Clock) => ladder.push_unclocked(texts),
        _ => Ok(()),
    }
}

/// What may decide an event that is undecided for a cause.
pub(crate) fn ladder_of<'a>(
    alloc: Global,
    texts: &mut Texts,
    form: &'a Tree,
    spent: Spent,
    cause: Option<Cause>,
) -> Result<Ladder<'a>, NoMemory> {
    let mut ladder = Ladder {
        alloc,
        event: form,
        spent,
        trials: Vec::new(alloc),
    };
    push_all(&mut ladder, texts, cause)?;
    Ok(ladder)
}
