use super::read;
use gl_logic::{NoMemory, Texts, Tree, TreeKind};
use sexp_reader::{End, Forms, ReadCode};
use std::alloc::Global;
use std::process::Abort;
use std::test::Fail;

/// Texts of one form, and its parts: names and integers as they are, characters by their codes. A row is `== TEXT => PARTS`.
const SHOWN: &str = "\
== 1e => 1E
== -/2 => -/2
== 1^2 => 1^2
== 1.e => 1.E
== 1//2 => 1//2
== +.e5 => +.E5
== 1d => 1D
== a#b => A#B
== .# => .#
== b2a# => B2A#
== 6B1 => 6B1
== 0#ra => 0#RA
== 52B => 52B
== 01D => 01D
== 4.# => 4.#
== b[#~a => B[#~A
== 008^ => 008^
== 2d => 2D
== -1S => -1S
== 0L => 0L
== 5A_2 => 5A_2
== 71-d => 71-D
== d# => D#
== '007 => QUOTE 7
== -0 => 0
== +5 => 5
== (a. b) => A. B
== (a\"b\"c) => A \"b\" C
== #b101 => 5
== #X-fF => -255
== #o+17 => 15
== (#\\( #\\) #\\\" #\\; #\\' #\\` #\\, #\\| #\\\\ #\\# #\\: #\\.) => #40 #41 #34 #59 #39 #96 #44 #124 #92 #35 #58 #46
== (#\\Space #\\tab #\\NEWLINE #\\page #\\Return #\\rubout #\\a) => #32 #9 #10 #12 #13 #127 #97
== aCl2::t => T
== GL::g-int => G-INT
== acl2::1 => 1
== acl2::. => .
== :k => :K
== `a => ` A
== ,a => , A
== , @a => , @A
== (a . b) => A . B
== (a b . \"c\") => A B . \"c\"
== (a . (b)) => A B
== (a . ()) => A
== () => NIL
== nil => NIL
== \"a\\\"b\\\\c\\d\" => \"a\"b\\cd\"
== (a;b)\n c) => A C
== (a #| x #| y |# |# b) => A B
== a#b => A#B
== <= => <=
== 1+ => 1+
== @a => @A
== (1 .5a) => 1 .5A
== 170141183460469231731687303715884105727 => 170141183460469231731687303715884105727
== -170141183460469231731687303715884105728 => -170141183460469231731687303715884105728
";

#[test]
fn shown(rt: HostRuntime) -> Result<(), Fail> {
    Ok(try_shown(&rt, rt.alloc(), SHOWN)?)
}

fn try_shown(rt: &impl Abort, alloc: Global, rows: &str) -> Result<(), NoMemory> {
    for row in rows.split("== ").skip(1) {
        let (text, wanted) = row.trim_end().split_once(" => ").expect(rt, row);
        let mut texts = Texts::new(alloc)?;
        let parts = shown_by(rt, alloc, text, &mut texts)?;
        assert!(rt; parts.as_slice() == wanted.as_bytes(), "{text:?} {parts:?}");
    }
    Ok(())
}

/// The parts of the one form of a text.
fn shown_by(
    rt: &impl Abort,
    alloc: Global,
    text: &str,
    texts: &mut Texts,
) -> Result<Vec<u8>, NoMemory> {
    let read = read(alloc, text.as_bytes(), texts)?.expect(rt, "a text that is too long");
    assert!(rt; read.end == End::Clean, "{text:?}");
    assert!(rt; read.list.len() == 1, "{text:?}");
    parts_of(alloc, &read.list.at(0).tree, texts)
}

/// An atom, or the elements of a list and its tail where that is not NIL.
fn parts_of(alloc: Global, tree: &Tree, texts: &Texts) -> Result<Vec<u8>, NoMemory> {
    let mut out = Vec::new(alloc);
    put_parts(alloc, tree, texts, &mut out)?;
    Ok(out)
}

fn put_parts(alloc: Global, tree: &Tree, texts: &Texts, out: &mut Vec<u8>) -> Result<(), NoMemory> {
    for element in tree.elements().iter().rev() {
        put_atom(alloc, element, texts, out)?;
    }
    if tree.elements().is_empty() {
        put_atom(alloc, tree, texts, out)?;
    } else if !tree.tail().is_nil() {
        out.extend_from_slice(b" .")?;
        put_atom(alloc, tree.tail(), texts, out)?;
    }
    Ok(())
}

/// An atom behind a space, where it is not the first.
fn put_atom(alloc: Global, tree: &Tree, texts: &Texts, out: &mut Vec<u8>) -> Result<(), NoMemory> {
    if !out.is_empty() {
        out.push(b' ')?;
    }
    match tree.kind() {
        TreeKind::Int(integer) => out.extend_from_slice(format!(in alloc;
            "{integer}"
        )?.as_bytes())?,
        TreeKind::Character(code) => out.extend_from_slice(format!(in alloc;
            "#{code}"
        )?.as_bytes())?,
        TreeKind::Symbol(text) => out.extend_from_slice(texts.text(text))?,
        TreeKind::Text(text) => {
            out.push(b'"')?;
            out.extend_from_slice(texts.text(text))?;
            out.push(b'"')?;
        }
        TreeKind::List => out.extend_from_slice(b"()")?,
    }
    Ok(())
}

/// The line and the column of each form of a text.
const PLACES: [(u32, u32); 4] = [(2, 2), (3, 7), (4, 8), (4, 11)];

fn check_places(rt: &impl Abort, read: &Forms) {
    assert!(rt; read.end == End::Bad(4, 15, ReadCode::EndInside));
    assert_eq!(rt; read.list.len(), 4);
    for (i, wanted) in PLACES.iter().enumerate() {
        assert!(rt; i < 4);
        let form = read.list.at(i as u64);
        assert_eq!(rt; (form.line, form.column), *wanted, "{i}");
    }
}

/// The places of the forms of a text, and what is read before a fault.
#[test]
fn places(rt: HostRuntime) -> Result<(), Fail> {
    let mut texts = Texts::new(rt.alloc())?;
    let text = b"\n (a 'b\n -12) nil ; x\n#| y |#:k 'z (";
    let read = read(rt.alloc(), text, &mut texts)?.expect(&rt, "a text that is too long");
    check_places(&rt, &read);
    Ok(())
}
