//! Objects that are no conses.

ghost use Rattle.std.specs.Prelude.{◌≡◌, ◌∷◌, [], ◌++◌, codes, OnOk, OnErr};
ghost use Rattle.std.specs.Fmt.{decimal, signed_decimal};
ghost use Rattle.gl_logic.specs.Lists.{IsAtom};
ghost use Rattle.sexp_print.specs.Printed.{atom_printed, rest_printed, escaped, character_printed, BeginsWith};

use gl_logic::{NoMemory, Texts, Tree, TreeKind};
use std::alloc::Global;

/// Appends an object that is no cons, and nothing for a cons.
pub fn append_atom(
    alloc: Global,
    tree: &Tree,
    texts: &Texts,
    out: &mut Vec<u8>,
) -> Result<(), NoMemory>
    ensures ok { OnOk result (out.new.items ≡ out.old.items ++ atom_printed texts.now tree.now) }
    ensures err { OnErr result (BeginsWith out.old.items out.new.items) }
{
    match tree.kind() {
        TreeKind::Int(i) => append_integer(alloc, i, out),
        TreeKind::Character(code) => append_character(alloc, code, out),
        TreeKind::Symbol(text) => append_bytes(texts.text(text), out),
        TreeKind::Text(text) => append_string(texts.text(text), out),
        TreeKind::List => Ok(()),
    }
}

/// Appends the last tail of a list behind a dot, and nothing for NIL.
pub fn append_tail(
    alloc: Global,
    tail: &Tree,
    texts: &Texts,
    out: &mut Vec<u8>,
) -> Result<(), NoMemory>
    requires { IsAtom tail.now }
    ensures ok { OnOk result (out.new.items ≡ out.old.items ++ rest_printed texts.now tail.now) }
    ensures err { OnErr result (BeginsWith out.old.items out.new.items) }
{
    if tail.is_nil() {
        return Ok(());
    }
    append_bytes(b" . ", out)?;
    append_atom(alloc, tail, texts, out)
}

/// Appends an integer in decimal.
fn append_integer(alloc: Global, i: i128, out: &mut Vec<u8>) -> Result<(), NoMemory>
    ensures ok { OnOk result (out.new.items ≡ out.old.items ++ signed_decimal i) }
    ensures err { OnErr result (BeginsWith out.old.items out.new.items) }
{
    let text = i.to_string(alloc)?;
    out.extend_from_slice(text.as_bytes())?;
    Ok(())
}

/// Appends bytes.
pub fn append_bytes(bytes: &[u8], out: &mut Vec<u8>) -> Result<(), NoMemory>
    ensures ok { OnOk result (out.new.items ≡ out.old.items ++ bytes.now) }
    ensures err { OnErr result (BeginsWith out.old.items out.new.items) }
{
    out.extend_from_slice(bytes)?;
    Ok(())
}

/// Appends a character: its name, its byte behind `#\`, or a call of `code-char`.
fn append_character(alloc: Global, code: u8, out: &mut Vec<u8>) -> Result<(), NoMemory>
    ensures ok { OnOk result (out.new.items ≡ out.old.items ++ character_printed code) }
    ensures err { OnErr result (BeginsWith out.old.items out.new.items) }
{
    if code == 32 {
        append_bytes(b"#\\Space", out)
    } else if code == 9 {
        append_bytes(b"#\\Tab", out)
    } else if code == 10 {
        append_bytes(b"#\\Newline", out)
    } else if code == 12 {
        append_bytes(b"#\\Page", out)
    } else if code == 13 {
        append_bytes(b"#\\Return", out)
    } else if code == 127 {
        append_bytes(b"#\\Rubout", out)
    } else if 32 < code && code < 127 {
        append_bytes(&[b'#', b'\\', code], out)
    } else {
        append_code(alloc, code, out)
    }
}

/// Appends the call of `code-char` that makes a character.
fn append_code(alloc: Global, code: u8, out: &mut Vec<u8>) -> Result<(), NoMemory>
    ensures ok { OnOk result (out.new.items ≡ out.old.items ++ (codes "(CODE-CHAR " ++ decimal code ++ 41 ∷ [])) }
    ensures err { OnErr result (BeginsWith out.old.items out.new.items) }
{
    let call = format!(in alloc; "(CODE-CHAR {code})")?;
    append_bytes(call.as_bytes(), out)
}

/// Appends a string in double quotes.
fn append_string(bytes: &[u8], out: &mut Vec<u8>) -> Result<(), NoMemory>
    ensures ok { OnOk result (out.new.items ≡ out.old.items ++ 34 ∷ escaped bytes.now ++ 34 ∷ []) }
    ensures err { OnErr result (BeginsWith out.old.items out.new.items) }
{
    out.push(b'"')?;
    append_escaped(bytes, out)?;
    out.push(b'"')?;
    Ok(())
}

/// Appends bytes with a backslash before each double quote and each backslash.
#[tactic(auto, using(crate::proofs::Begins::begins_behind, crate::proofs::Begins::begins_trans))]
fn append_escaped(bytes: &[u8], out: &mut Vec<u8>) -> Result<(), NoMemory>
    ensures ok { OnOk result (out.new.items ≡ out.old.items ++ escaped bytes.now) }
    ensures err { OnErr result (BeginsWith out.old.items out.new.items) }
{
    for byte in bytes {
        append_escaped_byte(*byte, out)?;
    }
    Ok(())
}

fn append_escaped_byte(byte: u8, out: &mut Vec<u8>) -> Result<(), NoMemory>
    ensures ok { OnOk result (out.new.items ≡ out.old.items ++ escaped (byte ∷ [])) }
    ensures err { OnErr result (BeginsWith out.old.items out.new.items) }
{
    if byte == b'"' || byte == b'\\' {
        append_bytes(&[b'\\', byte], out)
    } else {
        append_bytes(&[byte], out)
    }
}
