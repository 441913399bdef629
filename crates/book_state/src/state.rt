//! What stands behind the events of a book's front, and what the next form means there.

ghost use Rattle.std.specs.Prelude.{◌≡◌, ◌≤◌, true, [], length, IfOk, OnOk};
ghost use Rattle.gl_logic.specs.DefinitionOf.{definition_of};
ghost use Rattle.gl_logic.specs.Names.{Extends, with_name};
ghost use Rattle.gl_logic.specs.WorldSeen.{with_clique, with_constant, with_definition, with_event};
ghost use Rattle.lisp_eval.specs.Machines.{AreFunctionsOf};
ghost use Rattle.event_world.specs.Outcomes.{Gives};
ghost use Rattle.event_world.specs.EventSeen.{Theorem};
ghost use Rattle.event_world.specs.Seen.{event_seen, theorem_seen};
ghost use Rattle.event_world.specs.EventWords.{behind_head};
ghost use Rattle.event_world.specs.OpeningNames.{with_ground_words};
ghost use Rattle.event_world.specs.NextState.{next_state, next_world, with_members};
ghost use Rattle.event_world.specs.Suits.{Suits, HasAllGround, IsNewClique, IsNewDefinition, IsNewName, IsNewTheorem};
ghost use Rattle.book_state.specs.Answerable.{IsAnswerable};
ghost use Rattle.book_state.specs.States.{is_job, state_noted};
ghost use Rattle.book_state.specs.States.{IsFirstState, CanGoOn, event_in};

use super::functions::{add, remove};
use super::members::note_members;
use event_world::{Event, EventFault, event_of, prelude};
use gl_logic::{Def, Defs, NoMemory, TextId, Texts, Tree, World};
use shape_spec::{FnSet, Mode, Thm};
use std::alloc::Global;
use std::marker::Model;

/// What the events so far have made: a world, the mode of later theorems, and the functions whose calls are kept.
#[derive(Drop)]
pub struct State {
    world: World,
    mode: Mode,
    memoized: FnSet,
}

impl Model for State {
    ghost use Rattle.event_world.specs.NextState.{BookState};
    ghost use Rattle.event_world.specs.Suits.{HasAllGround};
    ghost use Rattle.lisp_eval.specs.Machines.{AreFunctionsOf};
    ghost use Rattle.book_state.specs.States.{coded_state};

    ghost Value = { BookState };

    ghost coded = { coded_state };

    ghost view = { λ s. record { world = s.world; mode = s.mode; memoized = s.memoized } };

    ghost invariant = { λ s. HasAllGround s.world × AreFunctionsOf s.world s.memoized };
}

impl State {
    /// The state of a book's first form: the ground definitions, BDD mode, and nothing memoized. The table gains the empty
    /// text and the words of the definitions.
    pub fn new(alloc: Global, texts: &mut Texts) -> Result<State, NoMemory>
        ensures first { IfOk result (IsFirstState texts.new) }
        ensures can_go_on { IfOk result CanGoOn }
        ensures empty { OnOk result (with_name texts.new [] ≡ texts.new) }
        ensures extends { Extends texts.old texts.new }
        ensures names { OnOk result (texts.new ≡ with_ground_words texts.old) }
    {
        let world = prelude(alloc, texts)?;
        // its definitions make a world
        let _count = world.count();
        Ok(State {
            world,
            mode: Mode::Bdd,
            memoized: FnSet::new(alloc),
        })
    }

    /// The event that a form means here, or the code of its refusal, in a table that has the empty text.
    pub fn event(&self, alloc: Global, form: &Tree, texts: &mut Texts) -> Result<Event, EventFault>
        requires empty { with_name texts.old [] ≡ texts.old }
        ensures meant { Gives event_seen (event_in texts.old self.now form.now) result }
        ensures suits { IfOk result (λ e. Suits self.now.world (event_seen e)) }
        ensures answerable { IfOk result (λ e. IsAnswerable self.now.world.definitions self.now.memoized (event_seen e)) }
        ensures texts { texts.new ≡ texts.old }
    {
        event_of(alloc, form, &self.world, self.mode, &self.memoized, texts)
    }

    /// The world.
    pub fn world(&self) -> &World
        ensures world { result.now ≡ self.now.world }
        ensures ground { HasAllGround result.now }
    {
        &self.world
    }

    /// The world itself.
    pub fn into_world(self) -> World
        ensures { result ≡ self.world }
    {
        self.world
    }

    /// The functions whose calls are kept. They are definitions of the world.
    pub fn memoized(&self) -> &FnSet
        ensures memoized { result.now ≡ self.now.memoized }
        ensures functions { AreFunctionsOf self.now.world result.now }
    {
        &self.memoized
    }

    /// Takes an event of a form in: a named one is noted with its form, and a constant gets the value. The state is lost
    /// where memory runs out.
    pub fn take(
        &mut self,
        alloc: Global,
        form: &Tree,
        event: Event,
        value: Tree,
    ) -> Result<(), NoMemory>
        requires suits { Suits self.old.world (event_seen event) }
        ensures { OnOk result (self.new ≡ next_state self.old form.now (event_seen event) value) }
    {
        match event {
            Event::Memoize(f) => add(&mut self.memoized, f),
            Event::Unmemoize(f) => remove(alloc, &mut self.memoized, f),
            Event::Mode(mode) => {
                self.mode = mode;
                Ok(())
            }
            event => take_named(alloc, &mut self.world, form, event, value),
        }
    }

    /// Takes a job of a form in, whose answer may come later: a theorem is noted with its form. The state is lost where
    /// memory runs out.
    pub fn note(&mut self, alloc: Global, form: &Tree, event: &Event) -> Result<(), NoMemory>
        requires job { is_job (event_seen event.now) ≡ true }
        requires suits { Suits self.old.world (event_seen event.now) }
        ensures ok { OnOk result (self.new ≡ state_noted self.old form.now (event_seen event.now)) }
    {
        match event {
            Event::Theorem(thm) => self.note_theorem(alloc, form, thm),
            Event::Cases(thm) => self.world.note(thm.cover.name, form.copy(alloc)?),
            _ => Ok(()),
        }
    }

    /// Notes a theorem with its form. The state is lost where memory runs out.
    pub fn note_theorem(&mut self, alloc: Global, form: &Tree, thm: &Thm) -> Result<(), NoMemory>
        requires new { IsNewTheorem self.old.world (theorem_seen thm.now) }
        ensures ok { OnOk result (self.new ≡ state_noted self.old form.now (Theorem (theorem_seen thm.now))) }
    {
        self.world.note(thm.name, form.copy(alloc)?)
    }
}

/// Takes an event that changes the world in.
fn take_named(
    alloc: Global,
    world: &mut World,
    form: &Tree,
    event: Event,
    value: Tree,
) -> Result<(), NoMemory>
    requires suits { Suits world.old (event_seen event) }
    requires ground { HasAllGround world.old }
    ensures ok { OnOk result (world.new ≡ next_world world.old form.now (event_seen event) value) }
    ensures more { length world.old.definitions ≤ length world.new.definitions }
{
    match event {
        Event::Defun(def) => take_definition(alloc, world, form, def),
        Event::Clique(defs) => take_clique(alloc, world, form, defs),
        Event::Defconst(name, _) => take_constant(alloc, world, form, name, value),
        Event::Theorem(thm) => world.note(thm.name, form.copy(alloc)?),
        Event::Cases(thm) => world.note(thm.cover.name, form.copy(alloc)?),
        _ => Ok(()),
    }
}

fn take_definition(alloc: Global, world: &mut World, form: &Tree, def: Def) -> Result<(), NoMemory>
    requires suits { IsNewDefinition world.old (definition_of def) }
    requires ground { HasAllGround world.old }
    ensures ok { OnOk result (world.new ≡ with_event (with_definition world.old (definition_of def)) def.name.number form.now) }
    ensures more { length world.old.definitions ≤ length world.new.definitions }
{
    let name = def.name;
    world.push(def)?;
    world.note(name, form.copy(alloc)?)
}

fn take_clique(alloc: Global, world: &mut World, form: &Tree, defs: Defs) -> Result<(), NoMemory>
    requires suits { IsNewClique world.old defs }
    requires ground { HasAllGround world.old }
    ensures ok { OnOk result (world.new ≡ with_members (with_clique world.old defs) defs (behind_head form.now)) }
    ensures more { length world.old.definitions ≤ length world.new.definitions }
{
    let first = world.push_clique(defs)?;
    note_members(alloc, world, first, form)
}

fn take_constant(
    alloc: Global,
    world: &mut World,
    form: &Tree,
    name: TextId,
    value: Tree,
) -> Result<(), NoMemory>
    requires new { IsNewName world.old name.number }
    ensures ok { OnOk result (world.new ≡ with_event (with_constant world.old name.number value) name.number form.now) }
    ensures more { length world.old.definitions ≤ length world.new.definitions }
{
    world.set_constant(name, value)?;
    world.note(name, form.copy(alloc)?)
}
