//! A variable that a hypothesis does not keep within its shape, and what would cover it.

use crate::asker::Asker;
use crate::evaluation::{put_front_of, value_on};
use crate::events::event_in;
use crate::forms::{Part, conjuncts, head_of, is_among, option_of, quoting_text, speaks_of};
use crate::found::input_at;
use crate::making::{call_on, list, word};
use crate::reading::bindings_in;
use crate::shapes::{conjunct, put_shape};
use crate::values::Value;
use coverage::covers;
use event_world::Event;
use explain_report::{Input, Report};
use gl_logic::{NoMemory, TextId, Texts, Tree};
use shape_spec::{Bindings, Shape, Thm};
use std::alloc::Global;
use std::thread::Threads;

/// The heads of conjuncts that are looked into for cover.
const LOOKED_INTO: &str =
    "AND OR NOT IF UNSIGNED-BYTE-P SIGNED-BYTE-P EQUAL EQL EQ = MEMBER MEMBER-EQUAL INTEGERP NATP POSP < <= > >= BOOLEANP CONSP \
    TRUE-LISTP";

/// The theorem of an event, or the part of a theorem by cases: a case by its number, from 1, or the cover.
fn thm_of(event: &Event, case: Option<u32>) -> Option<&Thm> {
    match (event, case) {
        (Event::Theorem(thm), _) => Some(thm),
        (Event::Cases(thm), None) => Some(&thm.cover),
        (Event::Cases(thm), Some(number)) if 1 <= number && number as u64 <= thm.cases.len() => {
            Some(thm.cases.at(number as u64 - 1))
        }
        _ => None,
    }
}

/// The shape of a theorem's variable.
fn shape_of(thm: &Thm, variable: TextId) -> Option<&Shape> {
    for i in 0..thm.bindings.len() {
        if thm.bindings.variable(i) == variable {
            return Some(thm.bindings.shape(i));
        }
    }
    None
}

/// The conjuncts that speak of a variable.
fn spoken_of<'a>(
    alloc: Global,
    texts: &Texts,
    hyp: &'a Tree,
    name: &[u8],
) -> Result<Vec<Part<'a>>, NoMemory> {
    let parts = conjuncts(alloc, texts, hyp)?;
    let mut found = Vec::new(alloc);
    for part in &parts {
        if speaks_of(alloc, texts, part.tree, name)? {
            found.push(*part)?;
        }
    }
    Ok(found)
}

/// Puts the conjuncts that speak of a variable.
fn put_spoken(alloc: Global, texts: &Texts, report: &mut Report, parts: &[Part]) {
    if parts.is_empty() {
        return report.say("   no conjunct of the hypothesis speaks of it\n");
    }
    report.say("   what the hypothesis says of it:\n");
    for part in parts {
        report.say("     ");
        put_front_of(alloc, texts, report, part.tree);
        if !is_among(head_of(texts, part.tree), LOOKED_INTO) {
            report.say("  (which is not looked into)");
        }
        report.say("\n");
    }
}

/// Puts an item of `auto-bindings`.
fn put_item(report: &mut Report, word: &str, name: &[u8], width: u64) {
    report.say("(");
    report.say(word);
    report.say(" ");
    report.text(name);
    report.say(" ");
    report.number(width);
    report.say(")");
}

/// The bindings of a variable to an integer of a width.
fn bindings_to(
    alloc: Global,
    texts: &mut Texts,
    variable: TextId,
    width: u64,
) -> Result<Option<Bindings>, NoMemory> {
    let mut item = Vec::new(alloc);
    item.push(word(texts, b":INT")?)?;
    item.push(Tree::symbol(variable))?;
    item.push(Tree::int(width as i128))?;
    let item = list(alloc, item)?;
    let form = call_on(alloc, texts, b"AUTO-BINDINGS", item)?;
    bindings_in(alloc, texts, &form)
}

/// Whether a theorem's hypothesis covers a variable of `:int` of a width.
fn is_covered(
    alloc: Global,
    texts: &mut Texts,
    thm: &Thm,
    variable: TextId,
    width: u64,
) -> Result<bool, NoMemory> {
    match bindings_to(alloc, texts, variable, width)? {
        Some(bindings) => Ok(covers(alloc, &thm.hyp, &thm.concl, &bindings)?.is_none()),
        None => Ok(false),
    }
}

/// The least width of `:int` of a variable that a theorem's hypothesis covers; none up to 128.
fn least_width(
    alloc: Global,
    texts: &mut Texts,
    thm: &Thm,
    variable: TextId,
) -> Result<Option<u64>, NoMemory> {
    for width in 1..129 {
        if is_covered(alloc, texts, thm, variable, width)? {
            return Ok(Some(width));
        }
    }
    Ok(None)
}

/// The input that is -1.
fn negative_input(alloc: Global, texts: &Texts, variable: TextId) -> Result<Vec<Input>, NoMemory> {
    let mut inputs = Vec::new(alloc);
    inputs.push(input_at(alloc, texts, variable, &Tree::int(-1))?)?;
    Ok(inputs)
}

/// Whether a term is NIL on an input.
fn is_nil_on<R: Threads + Sync>(
    asker: &Asker<R>,
    texts: &mut Texts,
    inputs: &[Input],
    term: &Tree,
) -> Result<bool, NoMemory> {
    match value_on(asker, texts, inputs, term)? {
        Value::Is(value) => Ok(value.as_slice() == b"NIL".as_slice()),
        Value::Lacks(_) | Value::Unknown => Ok(false),
    }
}

/// Whether one of these conjuncts is NIL where the variable is -1.
fn excludes_negative<R: Threads + Sync>(
    asker: &Asker<R>,
    texts: &mut Texts,
    parts: &[Part],
    variable: TextId,
) -> Result<bool, NoMemory> {
    let inputs = negative_input(asker.alloc, texts, variable)?;
    for part in parts {
        if is_nil_on(asker, texts, &inputs, part.tree)? {
            return Ok(true);
        }
    }
    Ok(false)
}

/// Puts the least shape that the bounds of the hypothesis allow.
fn put_least(report: &mut Report, name: &[u8], width: u64, is_natural: bool) {
    report.say("   its bounds fit ");
    if is_natural && 1 < width {
        put_item(report, ":NAT", name, width - 1);
    } else {
        put_item(report, ":INT", name, width);
    }
    report.say(": give it that shape, or bound it closer\n");
}

/// Puts the conjunct that is missing.
fn put_missing(
    alloc: Global,
    texts: &mut Texts,
    report: &mut Report,
    shape: &Shape,
    variable: TextId,
) -> Result<(), NoMemory> {
    let place = Tree::symbol(variable);
    let natural = conjunct(alloc, texts, shape, &place, true)?;
    let signed = conjunct(alloc, texts, shape, &place, false)?;
    let natural = quoting_text(alloc, &natural, texts)?;
    let signed = quoting_text(alloc, &signed, texts)?;
    report.say("   no bounds of it are written out: what would cover it is ");
    report.text(&natural);
    if natural != signed {
        report.say(", or ");
        report.text(&signed);
    }
    report.say("\n");
    Ok(())
}

/// Puts what would cover a variable of a theorem.
fn put_remedy<R: Threads + Sync>(
    asker: &Asker<R>,
    texts: &mut Texts,
    report: &mut Report,
    thm: &Thm,
    parts: &[Part],
    variable: TextId,
) -> Result<(), NoMemory> {
    if let Some(width) = least_width(asker.alloc, texts, thm, variable)? {
        let is_natural = excludes_negative(asker, texts, parts, variable)?;
        put_least(report, texts.text(variable), width, is_natural);
        return Ok(());
    }
    match shape_of(thm, variable) {
        Some(shape) => put_missing(asker.alloc, texts, report, shape, variable),
        None => Ok(()),
    }
}

/// Puts a variable's shape in words.
fn put_shape_of(alloc: Global, texts: &Texts, report: &mut Report, thm: &Thm, variable: TextId) {
    if let Some(shape) = shape_of(thm, variable) {
        report.say("   the shape of ");
        report.text(texts.text(variable));
        report.say(" is: ");
        put_shape(alloc, texts, report, shape);
        report.say("\n");
    }
}

/// Puts why a variable of a theorem is not covered.
fn put_uncovered<R: Threads + Sync>(
    asker: &Asker<R>,
    texts: &mut Texts,
    report: &mut Report,
    form: &Tree,
    thm: &Thm,
    variable: TextId,
) -> Result<(), NoMemory> {
    put_shape_of(asker.alloc, texts, report, thm, variable);
    let parts = match option_of(texts, form, b":HYP") {
        Some(hyp) => spoken_of(asker.alloc, texts, hyp, texts.text(variable))?,
        None => Vec::new(asker.alloc),
    };
    put_spoken(asker.alloc, texts, report, &parts);
    put_remedy(asker, texts, report, thm, &parts, variable)
}

/// Puts why a variable is not covered, of the whole theorem or of a case: its shape, what the hypothesis says of it, and what
/// would cover it.
pub(crate) fn put_cover<R: Threads + Sync>(
    asker: &Asker<R>,
    texts: &mut Texts,
    report: &mut Report,
    form: &Tree,
    case: Option<u32>,
    variable: TextId,
) -> Result<(), NoMemory> {
    let Some(event) = event_in(asker.alloc, asker.state, texts, form)? else {
        return Ok(());
    };
    match thm_of(&event, case) {
        Some(thm) => put_uncovered(asker, texts, report, form, thm, variable),
        None => Ok(()),
    }
}
