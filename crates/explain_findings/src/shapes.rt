//! Shapes in words, and the conjuncts that keep a variable within its shape.

use crate::forms::{printed, word_of};
use crate::making::{call, call_on, call_on_two, quoted, word};
use explain_report::Report;
use gl_logic::{NoMemory, Texts, Tree};
use shape_spec::Shape;
use std::alloc::Global;

/// Half of the integers of a shape of so many indices; none where that is no integer here.
fn half_of(count: usize) -> Option<i128> {
    if count == 0 || count > 127 {
        return None;
    }
    let mut half: i128 = 1;
    for _ in 1..count {
        half = half.saturating_mul(2);
    }
    Some(half)
}

/// Puts the integers of so many indices in words.
fn put_integers(report: &mut Report, count: usize) {
    report.say("integers of ");
    report.number(count as u64);
    report.say(" bits");
    if let Some(half) = half_of(count) {
        report.say(", from -");
        report.integer(half);
        report.say(" to ");
        report.integer(half.saturating_sub(1));
    }
}

/// Puts a shape in words.
pub(crate) fn put_shape(alloc: Global, texts: &Texts, report: &mut Report, shape: &Shape) {
    if let Some(indices) = shape.as_integer() {
        return put_integers(report, indices.len());
    }
    match shape {
        Shape::Boolean(_) => report.say("T or NIL"),
        Shape::Constant(object) => {
            report.say("the object ");
            report.made(printed(alloc, object, texts));
        }
        Shape::Choice(_, first, second) => {
            report.say("either ");
            put_shape(alloc, texts, report, first);
            report.say(", or ");
            put_shape(alloc, texts, report, second);
        }
        Shape::List(elements, tail) => {
            report.say("a list (");
            for i in 0..elements.len() {
                report.say(if i == 0 { "" } else { "; " });
                put_shape(alloc, texts, report, &elements[elements.len() - 1 - i]);
            }
            if !is_nil(texts, tail) {
                report.say(" . ");
                put_shape(alloc, texts, report, tail);
            }
            report.say(")");
        }
        Shape::Integer(_) => {}
    }
}

/// The term of what stands behind so many conses at a place.
fn behind(alloc: Global, texts: &mut Texts, place: &Tree, count: usize) -> Result<Tree, NoMemory> {
    let mut term = place.copy(alloc)?;
    for _ in 0..count {
        term = call_on(alloc, texts, b"CDR", term)?;
    }
    Ok(term)
}

/// The term of an element of the list at a place: by its number, where the list ends in NIL.
fn element_at(
    alloc: Global,
    texts: &mut Texts,
    place: &Tree,
    number: usize,
    is_proper: bool,
) -> Result<Tree, NoMemory> {
    if is_proper {
        let number = Tree::int(number as i128);
        return call_on_two(alloc, texts, b"NTH", number, place.copy(alloc)?);
    }
    let rest = behind(alloc, texts, place, number)?;
    call_on(alloc, texts, b"CAR", rest)
}

/// Puts the terms last that say that so many conses stand at a place, and behind them NIL.
fn push_proper(
    alloc: Global,
    texts: &mut Texts,
    place: &Tree,
    count: usize,
    terms: &mut Vec<Tree>,
) -> Result<(), NoMemory> {
    terms.push(call_on(alloc, texts, b"TRUE-LISTP", place.copy(alloc)?)?)?;
    let length = call_on(alloc, texts, b"LEN", place.copy(alloc)?)?;
    terms.push(call_on_two(alloc, texts, b"EQUAL", Tree::int(count as i128), length)?)?;
    Ok(())
}

/// Puts the terms last that say that so many conses stand at a place, and behind them NIL, where the list is to end so.
fn push_length(
    alloc: Global,
    texts: &mut Texts,
    place: &Tree,
    count: usize,
    is_proper: bool,
    terms: &mut Vec<Tree>,
) -> Result<(), NoMemory> {
    if is_proper {
        return push_proper(alloc, texts, place, count, terms);
    }
    terms.push(word(texts, b"T")?)?;
    for number in 0..count {
        let rest = behind(alloc, texts, place, number)?;
        terms.push(call_on(alloc, texts, b"CONSP", rest)?)?;
    }
    Ok(())
}

/// The equality of an object with a place.
fn equality(
    alloc: Global,
    texts: &mut Texts,
    object: &Tree,
    place: &Tree,
) -> Result<Tree, NoMemory> {
    let object = quoted(alloc, texts, object)?;
    call_on_two(alloc, texts, b"EQUAL", object, place.copy(alloc)?)
}

/// Whether a shape is NIL alone.
fn is_nil(texts: &Texts, shape: &Shape) -> bool {
    match shape {
        Shape::Constant(object) => word_of(texts, object) == b"NIL".as_slice(),
        _ => false,
    }
}

/// The term that an integer at a place is of so many bits, its sign among them, or natural of one bit less.
fn is_integer(
    alloc: Global,
    texts: &mut Texts,
    bits: usize,
    place: &Tree,
    is_natural: bool,
) -> Result<Tree, NoMemory> {
    let place = place.copy(alloc)?;
    if is_natural && 1 < bits {
        return call_on_two(
            alloc,
            texts,
            b"UNSIGNED-BYTE-P",
            Tree::int((bits - 1) as i128),
            place,
        );
    }
    call_on_two(
        alloc,
        texts,
        b"SIGNED-BYTE-P",
        Tree::int(bits as i128),
        place,
    )
}

/// The term that is not NIL exactly where the object at a place, a term, is of a shape, or of that with all of its integers
/// natural. Cover sees that it is.
pub(crate) fn conjunct(
    alloc: Global,
    texts: &mut Texts,
    shape: &Shape,
    place: &Tree,
    is_natural: bool,
) -> Result<Tree, NoMemory> {
    if let Some(indices) = shape.as_integer() {
        return is_integer(alloc, texts, indices.len(), place, is_natural);
    }
    match shape {
        Shape::Boolean(_) => call_on(alloc, texts, b"BOOLEANP", place.copy(alloc)?),
        Shape::Constant(object) => equality(alloc, texts, object, place),
        Shape::Choice(_, first, second) => {
            let first = conjunct(alloc, texts, first, place, is_natural)?;
            let second = conjunct(alloc, texts, second, place, is_natural)?;
            call_on_two(alloc, texts, b"OR", first, second)
        }
        Shape::List(elements, tail) => {
            let is_proper = is_nil(texts, tail);
            let count = elements.len();
            let mut terms = Vec::new(alloc);
            push_length(alloc, texts, place, count, is_proper, &mut terms)?;
            for i in 0..elements.len() {
                let at = element_at(alloc, texts, place, i, is_proper)?;
                let element = &elements[elements.len() - 1 - i];
                terms.push(conjunct(alloc, texts, element, &at, is_natural)?)?;
            }
            if !is_proper {
                let end = behind(alloc, texts, place, count)?;
                terms.push(conjunct(alloc, texts, tail, &end, is_natural)?)?;
            }
            call(alloc, texts, b"AND", terms)
        }
        Shape::Integer(_) => Ok(Tree::nil()),
    }
}
