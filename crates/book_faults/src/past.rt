//! A text read past its faults: the bytes at fault are overwritten by others that stand there without one, as many as they were,
//! so that each place stays; where nothing else helps, the form at fault up to the next line that begins with a parenthesis.

use crate::form_elements::{behind_forms, offset_of, offsets_of_forms};
use crate::span::{Span, byte_at, cut, word_around};
use gl_logic::{NoMemory, Texts};
use memchr::memmem::find;
use sexp_reader::{End, ReadCode, forms};
use std::alloc::Global;

/// How many faults of a text are passed.
const MOST_PASSED: usize = 64;

/// A fault of a text, by the offset of its byte.
#[derive(Clone, Copy, Debug, PartialEq, Eq)]
pub(crate) struct TextFault {
    pub at: usize,
    pub code: ReadCode,
    // what is overwritten
    pub patch: Span,
}

/// A form of a text from its first byte on, up to the next one. Where it is torn a fault of the text stands in it; where it is
/// lost as well, nothing of it is read.
#[derive(Clone, Copy, Debug, PartialEq, Eq)]
pub(crate) struct Entry {
    pub span: Span,
    pub is_torn: bool,
    pub is_lost: bool,
}

/// A text read past its faults.
#[derive(Drop)]
pub(crate) struct Past {
    /// The text with the bytes at fault overwritten.
    pub text: Vec<u8>,
    pub faults: Vec<TextFault>,
    pub entries: Vec<Entry>,
}

/// The first fault of a text; none where it is read whole, or too long.
fn first_fault(alloc: Global, text: &[u8]) -> Result<Option<TextFault>, NoMemory> {
    if text.len() >= 4_294_967_295 {
        return Ok(None);
    }
    let mut texts = Texts::new(alloc)?;
    let read = forms(alloc, text, &mut texts)?;
    match read.end {
        End::Clean => Ok(None),
        End::Bad(line, column, code) => {
            drop(read);
            let at = offset_of(alloc, text, line, column)?.unwrap_or(text.len());
            Ok(Some(TextFault {
                at,
                code,
                patch: Span::new(at, at),
            }))
        }
    }
}

/// A text whose part begins with these bytes and is blank behind them, with each end of a line kept.
fn overwritten(alloc: Global, text: &[u8], part: Span, front: &[u8]) -> Result<Vec<u8>, NoMemory> {
    let mut made = Vec::new(alloc);
    for (i, byte) in text.iter().enumerate() {
        let is_inside = part.start <= i && i < part.end;
        let number = i.saturating_sub(part.start);
        if !is_inside || *byte == b'\n' {
            made.push(*byte)?;
        } else if number < front.len() {
            made.push(byte_at(front, number))?;
        } else {
            made.push(b' ')?;
        }
    }
    Ok(made)
}

/// Where the next line begins with a parenthesis, behind an offset; the text's end where none does.
fn next_open_line(text: &[u8], behind: usize) -> usize {
    let rest = Span::new(behind, text.len());
    let mut is_first = false;
    for (i, byte) in cut(text, rest).iter().enumerate() {
        if is_first && *byte == b'(' {
            return behind.saturating_add(i);
        }
        is_first = *byte == b'\n';
    }
    text.len()
}

/// The part of a text that is overwritten at a fault, by what, and whether that is all of a form.
#[derive(Clone, Copy)]
struct Patch {
    part: Span,
    front: &'static [u8],
    is_form: bool,
}

/// The form that is open at a fault, up to the next line that begins with one.
fn whole_form(alloc: Global, text: &[u8], fault: TextFault) -> Result<Patch, NoMemory> {
    let start = behind_forms(alloc, text)?;
    let behind = if fault.code == ReadCode::EndInside {
        start
    } else {
        fault.at
    };
    Ok(Patch {
        part: Span::new(start.min(fault.at), next_open_line(text, behind)),
        front: b"",
        is_form: true,
    })
}

fn one_byte(at: usize) -> Patch {
    Patch {
        part: Span::new(at, at.saturating_add(1)),
        front: b"",
        is_form: false,
    }
}

/// What stands in front of a word and is left out alone: the package of another one, and `#.`.
fn prefix_of(text: &[u8], word: Span) -> Option<Span> {
    let bytes = cut(text, word);
    if bytes.starts_with(b"#.") {
        return Some(Span::new(word.start, word.start.saturating_add(2)));
    }
    let end = find(bytes, b"::")?.saturating_add(2);
    if end < bytes.len() {
        Some(Span::new(word.start, word.start.saturating_add(end)))
    } else {
        None
    }
}

/// The word at a fault, in whose place an integer stands, or nothing for what chooses between systems; or what stands in front of it.
fn one_word(text: &[u8], at: usize) -> Patch {
    let part = word_around(text, at);
    if let Some(part) = prefix_of(text, part) {
        return Patch {
            part,
            front: b"",
            is_form: false,
        };
    }
    let second = byte_at(text, part.start.saturating_add(1));
    let is_choice = byte_at(text, part.start) == b'#' && (second == b'+' || second == b'-');
    let is_head = 0 < part.start && byte_at(text, part.start.saturating_sub(1)) == b'(';
    let count = part.end.saturating_sub(part.start);
    let front: &[u8] = if is_choice {
        b""
    } else if !is_head {
        b"0"
    } else if count < 4 {
        b"+"
    } else {
        b"list"
    };
    Patch {
        part,
        front,
        is_form: false,
    }
}

/// Whether a fault is that of one byte alone.
fn is_of_byte(code: ReadCode, byte: u8) -> bool {
    match code {
        ReadCode::StrayClose => byte == b')',
        ReadCode::BadDot => byte == b'.',
        ReadCode::BadByte => byte == b',' || byte == b'@',
        _ => false,
    }
}

/// Whether a fault is that of a word.
fn is_of_one_word(code: ReadCode, byte: u8) -> bool {
    match code {
        ReadCode::BadByte
        | ReadCode::WideNumber
        | ReadCode::NumberForm
        | ReadCode::BadHash
        | ReadCode::LongName => byte > 32,
        _ => false,
    }
}

/// What is overwritten at a fault.
fn patch_of(alloc: Global, text: &[u8], fault: TextFault) -> Result<Patch, NoMemory> {
    let byte = byte_at(text, fault.at);
    if is_of_byte(fault.code, byte) {
        Ok(one_byte(fault.at))
    } else if is_of_one_word(fault.code, byte) {
        Ok(one_word(text, fault.at))
    } else {
        whole_form(alloc, text, fault)
    }
}

/// Whether a fault stands in a part.
fn is_torn(faults: &[TextFault], part: Span) -> bool {
    for fault in faults {
        if part.start <= fault.at && fault.at < part.end {
            return true;
        }
    }
    false
}

/// The forms of a text that is read whole, each up to the next.
fn entries_of(alloc: Global, text: &[u8], faults: &[TextFault]) -> Result<Vec<Entry>, NoMemory> {
    let mut entries = Vec::new(alloc);
    let starts = offsets_of_forms(alloc, text)?;
    for (i, start) in starts.iter().enumerate() {
        let end = match starts.get(i.saturating_add(1)) {
            Some(next) => *next,
            None => text.len(),
        };
        let span = Span::new(*start, end);
        entries.push(Entry {
            span,
            is_torn: is_torn(faults, span),
            is_lost: false,
        })?;
    }
    Ok(entries)
}

/// The forms of a text and what is lost of it, in their order.
fn merged(alloc: Global, read: &[Entry], lost: &[Entry]) -> Result<Vec<Entry>, NoMemory> {
    let mut all: Vec<Entry> = Vec::new(alloc);
    let mut next: usize = 0;
    for entry in read {
        for other in lost.iter().skip(next) {
            if other.span.start < entry.span.start {
                all.push(*other)?;
                next = next.saturating_add(1);
            }
        }
        all.push(*entry)?;
    }
    for other in lost.iter().skip(next) {
        all.push(*other)?;
    }
    Ok(all)
}

/// A text read past its faults. The place of a byte that is one more than a text may have is no fault here.
pub(crate) fn read_past(alloc: Global, text: &[u8]) -> Result<Past, NoMemory> {
    let mut mended = text.to_vec(alloc)?;
    let mut faults = Vec::new(alloc);
    let mut lost = Vec::new(alloc);
    for _ in 0..MOST_PASSED {
        let Some(fault) = first_fault(alloc, &mended)? else {
            break;
        };
        let patch = patch_of(alloc, &mended, fault)?;
        faults.push(TextFault {
            patch: patch.part,
            ..fault
        })?;
        mended = overwritten(alloc, &mended, patch.part, patch.front)?;
        if patch.is_form {
            lost.push(Entry {
                span: patch.part,
                is_torn: true,
                is_lost: true,
            })?;
        }
    }
    let read = entries_of(alloc, &mended, &faults)?;
    let entries = merged(alloc, &read, &lost)?;
    Ok(Past {
        text: mended,
        faults,
        entries,
    })
}
