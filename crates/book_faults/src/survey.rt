//! The walk over a list of books behind its first fault.

ghost use Rattle.std.specs.Prelude.{◌≡◌, []};
ghost use Rattle.gl_logic.specs.Names.{with_name};

use crate::edited::Edited;
use crate::form_elements::{elements, form_alone};
use crate::found::{Cause, Found, Step, Unjudged};
use crate::frames::{Frames, of_number};
use crate::hanging::Hanging;
use crate::includes::included;
use crate::judging::{Court, Seen, faults_of};
use crate::past::read_past;
use crate::span::{Span, cut, token, whole};
use crate::stubs::{Stub, has_options, inner_events, stubs_of};
use book_state::State;
use event_world::EventFault;
use explain_findings::{FormFault, head_of, is_among, name_in, take_form};
use gl_base::limits::Limits;
use gl_logic::{NoMemory, TextId, Texts, Tree, TreeKind};
use sexp_reader::{Form, forms};
use std::alloc::Global;
use std::thread::Threads;

/// What is left of a refused event until the next step: its text as it is mended, and whether that may be an event.
#[derive(Drop)]
struct Left {
    text: Vec<u8>,
    is_mended: bool,
}

/// What a survey begins with: the state in front of the first fault, and how many forms were taken to come there.
#[derive(Drop)]
pub struct Start {
    pub state: State,
    pub taken: u64,
}

/// A walk over a list of books, one form after the other.
#[derive(Drop)]
pub struct Survey {
    state: State,
    taken: u64,
    names: Vec<Vec<u8>>,
    texts: Vec<Vec<u8>>,
    open: Frames,
    hanging: Hanging,
    // names of which nothing is known, and those of them that name macros
    unknown: Vec<Vec<u8>>,
    macros: Vec<Vec<u8>>,
    left: Option<Left>,
    // whether a book is included whose text is not looked at
    is_partial: bool,
}

/// The form with which a text begins.
fn alone(alloc: Global, text: &[u8]) -> Result<Span, NoMemory> {
    form_alone(alloc, text, whole(text))
}

/// The first form of a text.
fn first_form(alloc: Global, text: &[u8], texts: &mut Texts) -> Result<Option<Form>, NoMemory> {
    if text.len() >= 4_294_967_295 {
        return Ok(None);
    }
    let found = forms(alloc, text, texts)?;
    let mut read = found.list.into_forms();
    if read.is_empty() {
        return Ok(None);
    }
    Ok(Some(read.swap_remove(0)))
}

/// The names that a form takes: its own, or those of its members.
fn names_of(alloc: Global, texts: &Texts, form: &Tree) -> Result<Vec<TextId>, NoMemory> {
    let mut names = Vec::new(alloc);
    if let Some(name) = name_in(form) {
        names.push(name)?;
    } else if head_of(texts, form) == b"MUTUAL-RECURSION".as_slice() {
        for member in form.elements() {
            if let Some(name) = name_in(member) {
                names.push(name)?;
            }
        }
    }
    Ok(names)
}

/// The fault of a form that is not taken in.
fn translation_fault(
    alloc: Global,
    state: &State,
    form: &Form,
    texts: &mut Texts,
) -> Result<Option<FormFault>, NoMemory>
    requires empty { with_name texts.old [] ≡ texts.old }
{
    match state.event(alloc, &form.tree, texts) {
        Ok(event) => {
            drop(event);
            Ok(None)
        }
        Err(EventFault::Memory) => Err(NoMemory),
        Err(fault) => Ok(Some(FormFault::Event(fault))),
    }
}

impl Survey {
    /// A walk from the first form of a book on. Forms that were taken before are passed.
    pub fn new(alloc: Global, start: Start) -> Survey {
        Survey {
            state: start.state,
            taken: start.taken,
            names: Vec::new(alloc),
            texts: Vec::new(alloc),
            open: Frames::new(alloc),
            hanging: Hanging::new(alloc),
            unknown: Vec::new(alloc),
            macros: Vec::new(alloc),
            left: None,
            is_partial: false,
        }
    }

    /// The state in front of the form that was looked at last.
    pub fn state(&self) -> &State {
        &self.state
    }

    /// The name of a text by its number.
    pub fn name(&self, file: usize) -> &[u8] {
        of_number(&self.names, file)
    }

    /// A text by its number.
    pub fn text(&self, file: usize) -> &[u8] {
        of_number(&self.texts, file)
    }

    /// How many events are not judged, since they use a refused one, for each of these.
    pub fn unjudged(&self) -> &[Unjudged] {
        self.hanging.counts()
    }

    /// Goes on with the text of a book. Its own faults.
    pub fn enter(&mut self, alloc: Global, name: &[u8], text: Vec<u8>) -> Result<Step, NoMemory> {
        let file = self.names.len();
        let past = read_past(alloc, &text)?;
        let mut found = Vec::new(alloc);
        for fault in &past.faults {
            let span = Span::new(fault.at, fault.at.saturating_add(1));
            found.push(Found {
                file,
                span,
                cause: Cause::Text(fault.code),
                event: Vec::new(alloc),
                part: span,
                around: fault.patch,
            })?;
        }
        self.names.push(name.to_vec(alloc)?)?;
        self.texts.push(text)?;
        self.open.enter(alloc, file, past)?;
        Ok(Step::Faults(found))
    }

    /// Goes on without the text of a book, which is not looked at.
    pub fn pass(&mut self) {
        self.is_partial = true;
    }

    /// Takes a form in, where it is one that can be.
    fn take_stub<R: Threads + Sync>(
        &mut self,
        rt: &R,
        alloc: Global,
        limits: &Limits,
        texts: &mut Texts,
        text: &[u8],
    ) -> Result<bool, NoMemory> {
        let Some(form) = first_form(alloc, text, texts)? else {
            return Ok(false);
        };
        let _empty = texts.id_of(b"")?;
        texts.is_table();
        if take_form(rt, alloc, &form, limits, &mut self.state, texts)?.is_some() {
            return Ok(false);
        }
        self.refuse_names(alloc, texts, &form.tree)?;
        Ok(true)
    }

    /// The names that a form takes are those of refused events.
    fn refuse_names(&mut self, alloc: Global, texts: &Texts, form: &Tree) -> Result<(), NoMemory> {
        for name in &names_of(alloc, texts, form)? {
            self.hanging.refuse(*name)?;
        }
        Ok(())
    }

    /// Lets a name stand of which nothing more is known.
    fn leave_name(
        &mut self,
        alloc: Global,
        texts: &mut Texts,
        name: &[u8],
    ) -> Result<(), NoMemory> {
        if let Some(form) = first_form(alloc, name, texts)? {
            if let TreeKind::Symbol(id) = form.tree.kind() {
                self.hanging.refuse(id)?;
            }
        }
        self.unknown.push(name.to_vec(alloc)?)?;
        Ok(())
    }

    /// Leaves behind what a refused event leaves.
    fn leave<R: Threads + Sync>(
        &mut self,
        rt: &R,
        alloc: Global,
        limits: &Limits,
        texts: &mut Texts,
        left: Left,
    ) -> Result<(), NoMemory> {
        if left.is_mended && self.take_stub(rt, alloc, limits, texts, &left.text)? {
            return Ok(());
        }
        for stub in stubs_of(alloc, &left.text, whole(&left.text))? {
            match stub {
                Stub::Form(text) => {
                    let _taken = self.take_stub(rt, alloc, limits, texts, &text)?;
                }
                Stub::Name(name) => self.leave_name(alloc, texts, &name)?,
                Stub::Macro(name) => {
                    self.leave_name(alloc, texts, &name)?;
                    self.macros.push(name)?;
                }
            }
        }
        Ok(())
    }

    /// Leaves behind what the event of the last step leaves.
    fn settle<R: Threads + Sync>(
        &mut self,
        rt: &R,
        alloc: Global,
        limits: &Limits,
        texts: &mut Texts,
    ) -> Result<(), NoMemory> {
        let left = self.left.take();
        match left {
            Some(left) => self.leave(rt, alloc, limits, texts, left),
            None => Ok(()),
        }
    }

    /// Goes on by one form. Its faults, or what is wanted.
    pub fn step<R: Threads + Sync>(
        &mut self,
        rt: &R,
        alloc: Global,
        limits: &Limits,
        texts: &mut Texts,
    ) -> Result<Step, NoMemory> {
        self.settle(rt, alloc, limits, texts)?;
        let Some((entry, is_inner)) = self.open.next_entry() else {
            return Ok(Step::End);
        };
        let (file, text) = self.open.part_of(alloc, entry, &self.texts)?;
        if entry.is_lost {
            self.left = Some(Left {
                text,
                is_mended: false,
            });
            return Ok(Step::Faults(Vec::new(alloc)));
        }
        let Some(form) = first_form(alloc, &text, texts)? else {
            return Ok(Step::Faults(Vec::new(alloc)));
        };
        if let Some(name) = included(texts, &form.tree) {
            return self.include(alloc, texts.text(name), is_inner);
        }
        if self.taken > 0 {
            self.taken = self.taken.saturating_sub(1);
            return Ok(Step::Faults(Vec::new(alloc)));
        }
        let seen = Seen {
            file,
            start: entry.span.start,
        };
        let mut event = Edited::new(alloc, cut(&text, alone(alloc, &text)?))?;
        match self.fault_of(rt, alloc, limits, texts, &form, entry.is_torn)? {
            Some(fault) => self.refuse(alloc, texts, seen, &mut event, fault),
            None => {
                if self.is_hung_constant(texts, &form.tree) {
                    self.left = Some(Left {
                        text: event.text.to_vec(alloc)?,
                        is_mended: false,
                    });
                }
                Ok(Step::Faults(Vec::new(alloc)))
            }
        }
    }

    /// Whether a form is a constant that hangs on a refused event.
    fn is_hung_constant(&self, texts: &Texts, form: &Tree) -> bool {
        match name_in(form) {
            Some(name) => {
                head_of(texts, form) == b"DEFCONST".as_slice() && self.hanging.hangs(name)
            }
            None => false,
        }
    }

    /// Whether the text of this name was entered.
    fn is_entered(&self, name: &[u8]) -> bool {
        for other in &self.names {
            if other.as_slice() == name {
                return true;
            }
        }
        false
    }

    /// What is wanted of a form that includes a book.
    fn include(&mut self, alloc: Global, book: &[u8], is_inner: bool) -> Result<Step, NoMemory> {
        let mut name = book.to_vec(alloc)?;
        name.extend_from_slice(b".lisp")?;
        if is_inner {
            self.is_partial = true;
        }
        if is_inner || self.is_entered(&name) {
            return Ok(Step::Faults(Vec::new(alloc)));
        }
        Ok(Step::Wants(name))
    }

    /// The fault of a form, which is taken in where it has none. A constant that hangs on a refused event has no value, and is not
    /// taken in; what else hangs on one is counted.
    fn fault_of<R: Threads + Sync>(
        &mut self,
        rt: &R,
        alloc: Global,
        limits: &Limits,
        texts: &mut Texts,
        form: &Form,
        is_torn: bool,
    ) -> Result<Option<FormFault>, NoMemory> {
        let root = self.hanging.root_of(alloc, texts, &form.tree)?;
        let is_constant = head_of(texts, &form.tree) == b"DEFCONST".as_slice();
        let _empty = texts.id_of(b"")?;
        texts.is_table();
        let fault = if is_constant && root.is_some() {
            translation_fault(alloc, &self.state, form, texts)?
        } else {
            take_form(rt, alloc, form, limits, &mut self.state, texts)?
        };
        if fault.is_none() {
            if let Some(root) = root {
                self.hang(alloc, texts, &form.tree, root)?;
            } else if is_torn {
                self.refuse_names(alloc, texts, &form.tree)?;
            }
        }
        Ok(fault)
    }

    /// A form that hangs on a refused event: its name does so too, and what would be decided is counted.
    fn hang(
        &mut self,
        alloc: Global,
        texts: &Texts,
        form: &Tree,
        root: usize,
    ) -> Result<(), NoMemory> {
        let head = head_of(texts, form);
        if is_among(
            head,
            "VALUE-TRIPLE ASSERT-EVENT DEF-GL-THM DEF-GL-PARAM-THM DEFCONST",
        ) {
            self.hanging.count(root);
        }
        if is_among(head, "DEFUN DEFCONST MUTUAL-RECURSION") {
            for name in &names_of(alloc, texts, form)? {
                self.hanging.hang(*name, root)?;
            }
        }
        Ok(())
    }

    /// Keeps the name of a form that is taken, or whose formals may be left out: what uses it may give other arguments.
    fn keep_taken(&mut self, alloc: Global, event: &[u8]) -> Result<(), NoMemory> {
        if let Some(name) = elements(alloc, event, whole(event))?.get(1) {
            self.unknown.push(token(event, *name).to_vec(alloc)?)?;
        }
        Ok(())
    }

    /// A form that is refused: all its faults, and what is left of it. Events inside of it come next.
    fn refuse(
        &mut self,
        alloc: Global,
        texts: &mut Texts,
        seen: Seen,
        event: &mut Edited,
        fault: FormFault,
    ) -> Result<Step, NoMemory> {
        let all = whole(&event.text);
        let is_taken = fault == FormFault::Event(EventFault::Redefined);
        if is_taken || has_options(alloc, &event.text, all)? {
            self.keep_taken(alloc, &event.text)?;
        }
        let inner = inner_events(alloc, &event.text, all)?;
        let court = Court {
            seen,
            state: &self.state,
            unknown: &self.unknown,
            macros: &self.macros,
            is_partial: self.is_partial,
        };
        let found = faults_of(alloc, texts, court, event, fault)?;
        self.open.go_inside(&inner, seen.start)?;
        self.left = Some(Left {
            text: event.text.to_vec(alloc)?,
            is_mended: !is_taken,
        });
        Ok(Step::Faults(found))
    }
}
