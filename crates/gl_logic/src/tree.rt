//! Objects that own their parts.

ghost use Rattle.std.specs.Prelude.{◌≡◌, ◌↔◌, IfOk, IsTrue, length};
ghost use Rattle.std.specs.Io.Iter.{u64_saturate};
ghost use Rattle.gl_logic.specs.Object.{Int, Character, Symbol, Text, Cons, nil};
ghost use Rattle.gl_logic.specs.ObjectEq.{is_nil as nil_told};
ghost use Rattle.gl_logic.specs.Lists.{elements_of, tail_of};
ghost use Rattle.gl_logic.specs.Kind.{kind_of};
ghost use Rattle.gl_logic.specs.Parts.{cells_in};

use super::ids::{NoMemory, TextId};
use std::alloc::Global;
use std::marker::Model;

/// An object of the universe that owns its parts.
///
/// A list of any length is kept flat, as its elements and a tail, so that nothing recurses along it:
/// dropping, copying and comparing go deeper only where an element is itself a list.
#[derive(Drop)]
#[cycle(tree)]
pub struct Tree {
    node: Node,
}

#[derive(Drop)]
#[cycle(tree)]
enum Node {
    Int(i128),
    Character(u8),
    Symbol(TextId),
    Text(TextId),
    // its elements from the last to the first, and its tail
    List(Vec<Tree>, Box<Tree>),
}

/// What an object is. The parts of a list are [`Tree::elements`] and [`Tree::tail`].
#[derive(Clone, Copy, Debug, PartialEq, Eq)]
pub enum TreeKind {
    Int(i128),
    Character(u8),
    Symbol(TextId),
    Text(TextId),
    List,
}

impl Model for Tree {
    ghost use Rattle.gl_logic.specs.Object.{Object, coded_object};

    ghost Value = { Object };

    ghost coded = { coded_object };

    ghost use Rattle.gl_logic.specs.Lists.{size_of};
    ghost use Rattle.gl_logic.specs.Node.{object_of, IsProperNode};

    ghost view = { λ t. object_of t.node };

    ghost invariant = { λ t. IsProperNode t.node };

    ghost size = { size_of };

    ghost use Rattle.gl_logic.specs.Falls.{falls};

    ghost size_decreases = { λ a h. falls a.node h };
}

impl Tree {
    /// An integer.
    pub fn int(i: i128) -> Tree
        ensures { result ≡ Int i }
    {
        Tree { node: Node::Int(i) }
    }

    /// The character of a code.
    pub fn character(code: u8) -> Tree
        ensures { result ≡ Character code }
    {
        Tree {
            node: Node::Character(code),
        }
    }

    /// The symbol of a text.
    pub fn symbol(text: TextId) -> Tree
        ensures { result ≡ Symbol text.number }
    {
        Tree {
            node: Node::Symbol(text),
        }
    }

    /// The string of a text.
    pub fn string(text: TextId) -> Tree
        ensures { result ≡ Text text.number }
    {
        Tree {
            node: Node::Text(text),
        }
    }

    /// The symbol NIL, which is false, and the end of a proper list.
    pub fn nil() -> Tree
        ensures { result ≡ nil }
    {
        Tree::symbol(TextId { number: 0 })
    }

    /// The cons of two objects, in constant time. Both are lost where memory runs out.
    pub fn pair(alloc: Global, first: Tree, rest: Tree) -> Result<Tree, NoMemory>
        ensures { IfOk result (λ t. t ≡ Cons first rest) }
    {
        match rest.node {
            Node::List(mut elements, tail) => {
                elements.push(first)?;
                Ok(Tree {
                    node: Node::List(elements, tail),
                })
            }
            other => {
                let mut elements = Vec::new(alloc);
                elements.push(first)?;
                let tail = Box::new(alloc, Tree { node: other })?;
                Ok(Tree {
                    node: Node::List(elements, tail),
                })
            }
        }
    }

    /// What the object is.
    pub fn kind(&self) -> TreeKind
        ensures { result ≡ kind_of self.now }
    {
        match &self.node {
            Node::Int(i) => TreeKind::Int(*i),
            Node::Character(code) => TreeKind::Character(*code),
            Node::Symbol(text) => TreeKind::Symbol(*text),
            Node::Text(text) => TreeKind::Text(*text),
            Node::List(_, _) => TreeKind::List,
        }
    }

    /// The elements of a list from the last to the first; none where the object is no cons.
    pub fn elements(&self) -> &[Tree]
        ensures { result.now ≡ elements_of self.now }
    {
        match &self.node {
            Node::List(elements, _) => elements.as_slice(),
            _ => &[],
        }
    }

    /// What comes after the elements, never a cons; the object itself where it is no cons.
    pub fn tail(&self) -> &Tree
        ensures { result.now ≡ tail_of self.now }
    {
        match &self.node {
            Node::List(_, tail) => tail,
            _ => self,
        }
    }

    /// Whether the object is NIL.
    pub fn is_nil(&self) -> bool
        ensures told { result ≡ nil_told self.now }
        ensures nil { IsTrue result ↔ self.now ≡ nil }
    {
        match &self.node {
            Node::Symbol(text) => text.number == 0,
            _ => false,
        }
    }

    /// How many integers, characters and conses are parts of the object, each as often as it occurs; 2^64 - 1 where they
    /// are more.
    pub fn cell_count(&self) -> u64
        ensures { result ≡ u64_saturate (length (cells_in self.now)) }
    {
        match &self.node {
            Node::Int(_) => 1,
            Node::Character(_) => 1,
            Node::Symbol(_) => 0,
            Node::Text(_) => 0,
            Node::List(elements, tail) => {
                let mut count = tail.cell_count();
                for element in elements {
                    count = count.saturating_add(1).saturating_add(element.cell_count());
                }
                count
            }
        }
    }

    /// Whether two objects are equal.
    #[cycle(same)]
    pub fn same(&self, other: &Tree) -> bool
        ensures { IsTrue result ↔ self.now ≡ other.now }
    {
        match (&self.node, &other.node) {
            (Node::Int(a), Node::Int(b)) => *a == *b,
            (Node::Character(a), Node::Character(b)) => *a == *b,
            (Node::Symbol(a), Node::Symbol(b)) => a.number == b.number,
            (Node::Text(a), Node::Text(b)) => a.number == b.number,
            (Node::List(xs, s), Node::List(ys, t)) => {
                all_same(xs.as_slice(), ys.as_slice()) && s.same(t)
            }
            _ => false,
        }
    }

    /// An equal object with parts of its own.
    pub fn copy(&self, alloc: Global) -> Result<Tree, NoMemory>
        ensures { IfOk result (λ t. t ≡ self.now) }
    {
        match &self.node {
            Node::Int(i) => Ok(Tree::int(*i)),
            Node::Character(code) => Ok(Tree::character(*code)),
            Node::Symbol(text) => Ok(Tree::symbol(*text)),
            Node::Text(text) => Ok(Tree::string(*text)),
            Node::List(elements, tail) => {
                let mut copied = tail.copy(alloc)?;
                for element in elements {
                    let first = element.copy(alloc)?;
                    copied = Tree::pair(alloc, first, copied)?;
                }
                Ok(copied)
            }
        }
    }
}

#[cycle(same)]
fn all_same(xs: &[Tree], ys: &[Tree]) -> bool
    ensures { IsTrue result ↔ xs.now ≡ ys.now }
{
    if xs.len() != ys.len() {
        return false;
    }
    for i in 0..xs.len() {
        let x = &xs[i];
        let y = &ys[i];
        if !x.same(y) {
            return false;
        }
    }
    true
}
