//! A small reader of forms.

use gl_logic::{NoMemory, TextId, Texts, Tree, TreeKind};
use std::alloc::Global;
use std::mem;

/// The list of two.
pub(super) fn pair_of(alloc: Global, first: Tree, second: Tree) -> Result<Tree, NoMemory> {
    let rest = Tree::pair(alloc, second, Tree::nil())?;
    Tree::pair(alloc, first, rest)
}

fn is_symbol(object: Option<&Tree>, name: TextId) -> bool {
    match object {
        Some(object) => match object.kind() {
            TreeKind::Symbol(text) => text.number == name.number,
            _ => false,
        },
        None => false,
    }
}

/// These elements in front of a tail.
pub(super) fn list_onto(alloc: Global, mut items: Vec<Tree>, tail: Tree) -> Result<Tree, NoMemory> {
    let mut list = tail;
    for _ in 0..items.len() {
        if let Some(item) = items.pop() {
            list = Tree::pair(alloc, item, list)?;
        }
    }
    Ok(list)
}

/// A list of these elements. Where a single dot stands before the last one, that one is the tail.
pub(super) fn list_of(
    alloc: Global,
    mut items: Vec<Tree>,
    texts: &mut Texts,
) -> Result<Tree, NoMemory> {
    let dot = texts.id_of(b".")?;
    let last = items.pop().unwrap_or(Tree::nil());
    if is_symbol(items.last(), dot) {
        items.pop();
        return list_onto(alloc, items, last);
    }
    items.push(last)?;
    list_onto(alloc, items, Tree::nil())
}

/// The integer of a short token.
fn integer(token: &[u8]) -> Option<i128> {
    let (negative, digits) = match token {
        [b'-', digits @ ..] => (true, digits),
        digits => (false, digits),
    };
    if digits.is_empty() {
        return None;
    }
    let mut value = 0i128;
    for digit in digits {
        if !digit.is_ascii_digit() {
            return None;
        }
        value = value
            .checked_mul(10)?
            .checked_add(i128::from(*digit - b'0'))?;
    }
    if negative {
        value.checked_neg()
    } else {
        Some(value)
    }
}

/// A token: an integer, `#` and a character, `"` and the text of a string, or a symbol. `@` is the symbol
/// of the empty name.
fn atom(token: &[u8], texts: &mut Texts) -> Result<Tree, NoMemory> {
    if let Some(value) = integer(token) {
        return Ok(Tree::int(value));
    }
    match token {
        [b'#', code] => Ok(Tree::character(*code)),
        [b'"', text @ ..] => Ok(Tree::string(texts.id_of(text)?)),
        [b'@'] => Ok(Tree::symbol(texts.id_of(b"")?)),
        name => Ok(Tree::symbol(texts.id_of(name)?)),
    }
}

/// What has been read of a text.
#[derive(Drop)]
struct Reader {
    alloc: Global,
    around: Vec<Vec<Tree>>,
    items: Vec<Tree>,
    token: Vec<u8>,
}

impl Reader {
    fn end_token(&mut self, texts: &mut Texts) -> Result<(), NoMemory> {
        if self.token.is_empty() {
            return Ok(());
        }
        let tree = atom(self.token.as_slice(), texts)?;
        self.token.clear();
        self.items.push(tree)?;
        Ok(())
    }

    fn open(&mut self) -> Result<(), NoMemory> {
        let items = mem::replace(&mut self.items, Vec::new(self.alloc));
        self.around.push(items)?;
        Ok(())
    }

    fn close(&mut self, texts: &mut Texts) -> Result<(), NoMemory> {
        let items = mem::replace(&mut self.items, Vec::new(self.alloc));
        let list = if items.is_empty() {
            Tree::nil()
        } else {
            list_of(self.alloc, items, texts)?
        };
        if let Some(items) = self.around.pop() {
            self.items = items;
        }
        self.items.push(list)?;
        Ok(())
    }

    fn byte(&mut self, byte: u8, texts: &mut Texts) -> Result<(), NoMemory> {
        match byte {
            b' ' => self.end_token(texts),
            b'(' => self.open(),
            b')' => {
                self.end_token(texts)?;
                self.close(texts)
            }
            _ => {
                self.token.push(byte)?;
                Ok(())
            }
        }
    }
}

/// The last form of a text.
pub(super) fn form_of(alloc: Global, text: &[u8], texts: &mut Texts) -> Result<Tree, NoMemory> {
    let mut reader = Reader {
        alloc,
        around: Vec::new(alloc),
        items: Vec::new(alloc),
        token: Vec::new(alloc),
    };
    for byte in text {
        reader.byte(*byte, texts)?;
    }
    reader.end_token(texts)?;
    Ok(reader.items.pop().unwrap_or(Tree::nil()))
}
