//! A text as a format shows it.

ghost use Rattle.std.specs.Prelude.{◌≡◌, ◌<◌, ◌++◌, OnOk};
ghost use Rattle.gl_base.specs.Outside.{Grows};
ghost use Rattle.explain_report.specs.Put.{IsPut};
ghost use Rattle.explain_report.specs.Shown.{shown, shown_byte, in_json, in_html, is_numbered, is_json, is_html, digit, read_back};

use gl_base::failed::Failed;
use gl_base::sink::{Sink, put_all};
use gl_logic::NoMemory;
use std::alloc::Global;

/// How a text is shown: as it is; in a string of JSON; in HTML. In the last two it is told whether the text is UTF-8, whose
/// bytes then stand as they are.
#[derive(Clone, Copy, Debug, PartialEq, Eq)]
pub enum Style {
    Plain,
    Json(bool),
    Html(bool),
}

/// Why nothing, or only a front, is written.
#[derive(Clone, Copy, Debug, PartialEq, Eq)]
pub enum PutEnd {
    /// A write failed.
    Failed,
    /// Memory was not given.
    Memory,
}

impl From<Failed> for PutEnd {
    ghost use Rattle.explain_report.specs.declared.shown.PutEnd.{PutEnd};

    ghost from_gives = { λ _ e. e ≡ PutEnd.Failed };

    fn from(_failed: Failed) -> PutEnd {
        PutEnd::Failed
    }
}

impl From<NoMemory> for PutEnd {
    ghost use Rattle.explain_report.specs.declared.shown.PutEnd.{PutEnd};

    ghost from_gives = { λ _ e. e ≡ PutEnd.Memory };

    fn from(_lack: NoMemory) -> PutEnd {
        PutEnd::Memory
    }
}

/// Appends bytes as they are.
fn append(bytes: &[u8], out: &mut Vec<u8>) -> Result<(), NoMemory>
    ensures { OnOk result (out.new.items ≡ out.old.items ++ bytes.now) }
{
    out.extend_from_slice(bytes)?;
    Ok(())
}

/// A hexadecimal digit.
fn hexadecimal(number: u8) -> u8
    requires { number < 16 }
    ensures { result ≡ digit number }
{
    if number < 10 {
        48 + number
    } else {
        87 + number
    }
}

/// Whether a byte stands by its number.
fn stands_by_number(is_text: bool, byte: u8) -> bool
    ensures { result ≡ is_numbered is_text byte }
{
    byte < 32 || (byte == 127 || (!is_text && 127 < byte))
}

/// Whether a string of JSON has another form of the byte.
fn is_odd_in_json(is_text: bool, byte: u8) -> bool
    ensures { result ≡ is_json is_text byte }
{
    byte == 92 || (byte == 34 || stands_by_number(is_text, byte))
}

/// Whether HTML has another form of the byte.
fn is_odd_in_html(is_text: bool, byte: u8) -> bool
    ensures { result ≡ is_html is_text byte }
{
    byte == 38
        || (byte == 60
            || (byte == 62 || (byte == 34 || (byte == 39 || stands_by_number(is_text, byte)))))
}

/// Appends the form of a byte by its number in a string of JSON. A byte above 127 is one of a text that is not UTF-8.
fn append_in_json(byte: u8, out: &mut Vec<u8>) -> Result<(), NoMemory>
    ensures { OnOk result (out.new.items ≡ out.old.items ++ in_json byte) }
{
    let high = hexadecimal(byte / 16);
    let low = hexadecimal(byte % 16);
    if 127 < byte {
        append(&[b'\\', b'u', b'd', b'c', high, low], out)
    } else {
        append(&[b'\\', b'u', b'0', b'0', high, low], out)
    }
}

/// Appends the form of a byte by its number in HTML.
fn append_in_html(byte: u8, out: &mut Vec<u8>) -> Result<(), NoMemory>
    ensures { OnOk result (out.new.items ≡ out.old.items ++ in_html byte) }
{
    let high = hexadecimal(byte / 16);
    let low = hexadecimal(byte % 16);
    append(&[b'&', b'#', b'x', high, low, b';'], out)
}

/// Appends a byte as a format shows it.
fn append_byte(style: Style, byte: u8, out: &mut Vec<u8>) -> Result<(), NoMemory>
    ensures { OnOk result (out.new.items ≡ out.old.items ++ shown_byte style byte) }
{
    match style {
        Style::Json(is_text) if is_odd_in_json(is_text, byte) => append_in_json(byte, out),
        Style::Html(is_text) if is_odd_in_html(is_text, byte) => append_in_html(byte, out),
        _ => append(&[byte], out),
    }
}

/// Appends a text as a style shows it.
pub fn append_shown(style: Style, text: &[u8], out: &mut Vec<u8>) -> Result<(), NoMemory>
    ensures shown { OnOk result (out.new.items ≡ out.old.items ++ shown style text.now) }
{
    for byte in text {
        append_byte(style, *byte, out)?;
    }
    Ok(())
}

/// Writes a line of a transcript as a style shows it, between what stands in front of it and what stands behind.
#[tactic(auto, using(crate::proofs::Back::back, crate::proofs::Parts::joined))]
pub fn put_line<K: Sink>(
    alloc: Global,
    out: &mut K,
    style: Style,
    front: &[u8],
    line: &[u8],
    back: &[u8],
) -> Result<(), PutEnd>
    // What is written of the transcript is its line, as the style shows it,
    ensures line { OnOk result (Grows (K.written out.old) (K.written out.new) (front.now ++ (shown style line.now ++ back.now))) }
    // from which it can be read back byte for byte.
    ensures read_back { read_back style (shown style line.now) ≡ line.now }
    ensures cause { IsPut (K.faults out.old) (K.faults out.new) result }
{
    let mut bytes = Vec::new(alloc);
    append_shown(style, line, &mut bytes)?;
    put_all(out, front)?;
    put_all(out, bytes.as_slice())?;
    put_all(out, back)?;
    Ok(())
}
