//! The reader's stack: the lists that are open and the prefixes that wait for their form.

ghost use Rattle.std.specs.Prelude.{◌≡◌, ◌<◌, ◌++◌, ℕ, List, [], ◌∷◌, length, Some, None, IfOk, OnOk, Option, reverse};
ghost use Rattle.gl_logic.specs.Object.{Object, Symbol, Cons, nil};
ghost use Rattle.gl_logic.specs.Names.{Extends};
ghost use Rattle.sexp_reader.specs.declared.list.Form.{Form as FormSeen};
ghost use Rattle.sexp_reader.specs.declared.ends.End.{End as EndSeen};
ghost use Rattle.sexp_reader.specs.Places.{Fits};
ghost use Rattle.sexp_reader.specs.Pieces.{Spans, count_of};
ghost use Rattle.sexp_reader.specs.Grammar.{Spot, Got, prefixed, mark_text};
ghost use Rattle.sexp_reader.specs.Gathers.{text_of, with_text, with_piece, Adds, AddsPiece};
ghost use Rattle.sexp_reader.specs.Stack.{listed, tail_of, taken, taken_end, inner_first, list_flaw, flaw_in, begun, Leads, Goes, Follows, CanStand, MayStand, FollowsPiece};

use crate::atom::{symbol_of, tree_of};
use crate::ends::ReadCode;
use crate::flaw::{Flaw, closing_flaw, form_flaw};
use crate::lexeme::{Atom, Lexeme, Mark, Piece};
use crate::list::{Form, FormList};
use crate::place::Place;
use gl_logic::{NoMemory, TextId, Texts, Tree};
use std::alloc::Global;

/// What stands behind the elements of an open list.
#[derive(Drop)]
pub enum ListEnd {
    /// No dot.
    Plain,
    /// A dot.
    Dotted,
    /// A dot and this object.
    Tail(Tree),
}

/// A list whose closing parenthesis is still to come.
#[derive(Drop)]
pub struct OpenList {
    pub elements: Vec<Tree>,
    pub end: ListEnd,
}

impl OpenList {
    // The flaw of a piece inside the list, which has so many parentheses and prefixes around its parts.
    fn flaw(&self, around: usize, place: Place, rest: &[u8], piece: &Piece) -> Option<Flaw>
        requires fits { Fits place (length rest.now) }
        requires spans { Spans (length rest.now) piece.now }
        ensures { result ≡ list_flaw self.now around (record { place = place; bytes = rest.now }) piece.now }
    {
        match (&self.end, piece) {
            (ListEnd::Tail(_), _) => closing_flaw(around, place, rest, piece),
            (ListEnd::Dotted, Piece::Part(_, Lexeme::Close)) => Some(Flaw {
                place,
                code: ReadCode::BadDot,
            }),
            (ListEnd::Plain, Piece::Part(_, Lexeme::Close)) => None,
            (ListEnd::Plain, Piece::Part(_, Lexeme::Dot)) if self.elements.len() > 0 => None,
            _ => form_flaw(around, place, rest, piece),
        }
    }

    // The list with one form more: an element, or the object behind its dot.
    fn with(self, tree: Tree) -> Result<OpenList, NoMemory>
        ensures elements { IfOk result (λ list. list.elements.items ≡ taken self.elements.items self.end tree) }
        ensures end { IfOk result (λ list. list.end ≡ taken_end self.end tree) }
    {
        match self.end {
            ListEnd::Plain => {
                let mut elements = self.elements;
                elements.push(tree)?;
                Ok(OpenList {
                    elements,
                    end: ListEnd::Plain,
                })
            }
            _ => Ok(OpenList {
                elements: self.elements,
                end: ListEnd::Tail(tree),
            }),
        }
    }

    // The list, closed.
    fn close(self, alloc: Global) -> Result<Tree, NoMemory>
        ensures { IfOk result (λ tree. tree ≡ listed self.elements.items (tail_of self.end)) }
    {
        let mut elements = self.elements;
        let mut tree = match self.end {
            ListEnd::Tail(tail) => tail,
            _ => Tree::nil(),
        };
        while let Some(element) = elements.pop() {
            tree = Tree::pair(alloc, element, tree)?;
        }
        Ok(tree)
    }
}

/// What waits for the forms behind it: a list, or a prefix, which stands for this symbol.
#[derive(Drop)]
pub enum Frame {
    List(OpenList),
    Prefix(TextId),
}

/// The forms so far, where the next one begins, and what is open in it, the innermost last.
#[derive(Drop)]
pub struct Stack {
    pub forms: FormList,
    pub begin: Place,
    pub frames: Vec<Frame>,
}

// A prefix and its form are a list of two.
fn prefixed(alloc: Global, symbol: TextId, tree: Tree) -> Result<Tree, NoMemory>
    ensures { IfOk result (λ whole. whole ≡ prefixed symbol.number tree) }
{
    let form = Tree::pair(alloc, tree, Tree::nil())?;
    Tree::pair(alloc, Tree::symbol(symbol), form)
}

impl Stack {
    /// Nothing is read and nothing is open.
    pub fn new(alloc: Global) -> Stack
        ensures forms { result.forms ≡ [] }
        ensures frames { result.frames.items ≡ [] }
    {
        Stack {
            forms: FormList::new(alloc),
            begin: Place::first(),
            frames: Vec::new(alloc),
        }
    }

    /// The flaw of a piece of the text that is left and begins at this place. A text may end where
    /// nothing is open.
    pub fn flaw(&self, piece: &Piece, place: Place, rest: &[u8]) -> Option<Flaw>
        requires fits { Fits place (length rest.now) }
        requires spans { Spans (length rest.now) piece.now }
        ensures { result ≡ flaw_in (inner_first self.now) (record { place = place; bytes = rest.now }) piece.now }
    {
        let around = self.frames.len();
        match (self.frames.last(), piece) {
            (None, Piece::Ended) => None,
            (Some(Frame::List(list)), _) => list.flaw(around, place, rest, piece),
            _ => form_flaw(around, place, rest, piece),
        }
    }

    // A form goes to the list or the prefix that waits for it; a prefix with its form goes on in its place.
    fn give(&mut self, alloc: Global, tree: Tree) -> Result<(), NoMemory>
        ensures step { OnOk result ((names : List (List ℕ)) (next : Spot) (forms : List FormSeen) (end : EndSeen)
            → Goes names self.new next forms end → Leads names self.old.begin self.old.forms (Got tree next) (inner_first self.old) forms end) }
    {
        let mut tree = tree;
        loop {
            match self.frames.pop() {
                None => {
                    self.forms.push(Form {
                        tree,
                        line: self.begin.line,
                        column: self.begin.column,
                    })?;
                    return Ok(());
                }
                Some(Frame::List(list)) => {
                    self.frames.push(Frame::List(list.with(tree)?))?;
                    return Ok(());
                }
                Some(Frame::Prefix(symbol)) => tree = prefixed(alloc, symbol, tree)?,
            }
        }
    }

    // Something begins here: a form, where nothing is open.
    fn begin(&mut self, place: Place)
        ensures forms { self.new.forms ≡ self.old.forms }
        ensures frames { self.new.frames ≡ self.old.frames }
        ensures begin { self.new.begin ≡ begun place self.old.begin (inner_first self.old) }
    {
        if self.frames.len() == 0 {
            self.begin = place;
        }
    }

    fn open(&mut self, alloc: Global, place: Place) -> Result<(), NoMemory>
        requires { CanStand self.old Lexeme.Open }
        ensures { OnOk result ((names : List (List ℕ)) → Follows names self.old place Lexeme.Open self.new) }
    {
        self.begin(place);
        let list = OpenList {
            elements: Vec::new(alloc),
            end: ListEnd::Plain,
        };
        self.frames.push(Frame::List(list))?;
        Ok(())
    }

    fn close(&mut self, alloc: Global, place: Place) -> Result<(), NoMemory>
        requires { CanStand self.old Lexeme.Close }
        ensures { OnOk result ((names : List (List ℕ)) → Follows names self.old place Lexeme.Close self.new) }
    {
        match self.frames.pop() {
            Some(Frame::List(list)) => {
                let tree = list.close(alloc)?;
                self.give(alloc, tree)
            }
            Some(Frame::Prefix(_)) => unreachable!(),
            None => unreachable!(),
        }
    }

    fn dot(&mut self, place: Place) -> Result<(), NoMemory>
        requires { CanStand self.old Lexeme.Dot }
        ensures { OnOk result ((names : List (List ℕ)) → Follows names self.old place Lexeme.Dot self.new) }
    {
        match self.frames.pop() {
            Some(Frame::List(list)) => {
                let dotted = OpenList {
                    elements: list.elements,
                    end: ListEnd::Dotted,
                };
                self.frames.push(Frame::List(dotted))?;
                Ok(())
            }
            Some(Frame::Prefix(_)) => unreachable!(),
            None => unreachable!(),
        }
    }

    fn prefix(&mut self, place: Place, mark: Mark, texts: &mut Texts) -> Result<(), NoMemory>
        requires { CanStand self.old (Lexeme.Prefix mark) }
        ensures step { OnOk result ((later : List (List ℕ)) → Extends texts.new later → Follows later self.old place (Lexeme.Prefix mark) self.new) }
        ensures asked { OnOk result (texts.new ≡ with_text texts.old (Some (mark_text mark))) }
        ensures adds { Adds (Some (mark_text mark)) texts.old texts.new }
        ensures kept { Extends texts.old texts.new }
    {
        let symbol = symbol_of(mark, texts)?;
        self.begin(place);
        self.frames.push(Frame::Prefix(symbol))?;
        Ok(())
    }

    fn atom(
        &mut self,
        alloc: Global,
        place: Place,
        atom: Atom,
        texts: &mut Texts,
    ) -> Result<(), NoMemory>
        requires { CanStand self.old (Lexeme.Atom atom) }
        ensures step { OnOk result ((later : List (List ℕ)) → Extends texts.new later → Follows later self.old place (Lexeme.Atom atom) self.new) }
        ensures asked { OnOk result (texts.new ≡ with_text texts.old (text_of (Lexeme.Atom atom))) }
        ensures adds { Adds (text_of (Lexeme.Atom atom)) texts.old texts.new }
        ensures kept { Extends texts.old texts.new }
    {
        let tree = tree_of(atom, texts)?;
        self.begin(place);
        self.give(alloc, tree)
    }

    // Reads a lexeme that begins at this place and may stand there.
    fn put(
        &mut self,
        alloc: Global,
        lexeme: Lexeme,
        place: Place,
        texts: &mut Texts,
    ) -> Result<(), NoMemory>
        requires { CanStand self.old lexeme }
        ensures step { OnOk result ((later : List (List ℕ)) → Extends texts.new later → Follows later self.old place lexeme self.new) }
        ensures asked { OnOk result (texts.new ≡ with_text texts.old (text_of lexeme)) }
        ensures adds { Adds (text_of lexeme) texts.old texts.new }
        ensures kept { Extends texts.old texts.new }
    {
        match lexeme {
            Lexeme::Open => self.open(alloc, place),
            Lexeme::Close => self.close(alloc, place),
            Lexeme::Dot => self.dot(place),
            Lexeme::Prefix(mark) => self.prefix(place, mark, texts),
            Lexeme::Splice => unreachable!(),
            Lexeme::Atom(atom) => self.atom(alloc, place, atom, texts),
        }
    }

    /// Reads a gap or a lexeme that begins at this place and has no flaw, and tells how many bytes it
    /// has. None where the text ends, and where the piece is none of these; nothing is then read.
    pub fn take(
        &mut self,
        alloc: Global,
        piece: Piece,
        place: Place,
        texts: &mut Texts,
    ) -> Result<Option<usize>, NoMemory>
        requires { MayStand (inner_first self.old) piece }
        ensures count { IfOk result (λ count. count ≡ count_of piece) }
        ensures step { OnOk result ((later : List (List ℕ)) → Extends texts.new later → FollowsPiece later self.old place piece self.new) }
        ensures asked { OnOk result (texts.new ≡ with_piece texts.old piece) }
        ensures adds { AddsPiece piece texts.old texts.new }
        ensures none { OnOk result (count_of piece ≡ None → (self.new ≡ self.old) × (texts.new ≡ texts.old)) }
        ensures kept { Extends texts.old texts.new }
    {
        match piece {
            Piece::Gap(count) => Ok(Some(count)),
            Piece::Part(count, lexeme) => {
                self.put(alloc, lexeme, place, texts)?;
                Ok(Some(count))
            }
            _ => Ok(None),
        }
    }
}
