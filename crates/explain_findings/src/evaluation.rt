//! A theorem on one input: each conjunct of its hypothesis and each part of its conclusion, with its value.

use crate::asker::Asker;
use crate::forms::{Part, bindings_form, conjuncts, head_of, is_among, option_of, printed};
use crate::making::{binding, call_on_two, list};
use crate::opening::{Opened, Parts};
use crate::reading::bindings_in;
use crate::values::{Value, put_lack};
use explain_report::{Input, Report, front_of, integer_bits, put_difference, put_in_bases};
use gl_logic::{NoMemory, TextId, Texts, Tree};
use shape_spec::Bindings;
use std::alloc::Global;
use std::thread::Threads;

/// How many parts of a hypothesis or of a conclusion are shown, and how many bytes of each.
const MOST_PARTS: usize = 24;

const MOST_BYTES: usize = 120;

/// Puts as much of a text as is shown.
pub(crate) fn put_front(report: &mut Report, text: &[u8]) {
    report.text(front_of(text, MOST_BYTES));
    report.say(if MOST_BYTES < text.len() { ".." } else { "" });
}

/// Puts as much of an object as is shown.
pub(crate) fn put_front_of(alloc: Global, texts: &Texts, report: &mut Report, object: &Tree) {
    match printed(alloc, object, texts) {
        Ok(text) => put_front(report, &text),
        Err(_) => report.refuse(),
    }
}

/// The bindings of a `let` that gives variables the objects of an input.
fn bound_in(alloc: Global, texts: &mut Texts, inputs: &[Input]) -> Result<Tree, NoMemory> {
    let mut bound = Vec::new(alloc);
    for input in inputs {
        let variable = Tree::symbol(input.variable);
        bound.push(binding(alloc, texts, variable, &input.object)?)?;
    }
    list(alloc, bound)
}

/// A term where variables have the objects of an input.
fn term_on(
    alloc: Global,
    texts: &mut Texts,
    inputs: &[Input],
    term: &Tree,
) -> Result<Tree, NoMemory> {
    if inputs.is_empty() {
        return term.copy(alloc);
    }
    let bound = bound_in(alloc, texts, inputs)?;
    call_on_two(alloc, texts, b"LET", bound, term.copy(alloc)?)
}

/// Puts a value behind its term, an integer with at least so many bits.
fn put_value(report: &mut Report, value: &Value, bits: usize) {
    match value {
        Value::Is(object) if object.len() <= MOST_BYTES => {
            report.say(" = ");
            put_in_bases(report, object.as_slice(), bits);
        }
        Value::Is(object) => {
            report.say(" = ");
            put_front(report, object.as_slice());
        }
        Value::Lacks(cause) => {
            report.say(" has no value, ");
            put_lack(report, *cause);
        }
        Value::Unknown => {}
    }
}

/// The value of a term on an input.
pub(crate) fn value_on<R: Threads + Sync>(
    asker: &Asker<R>,
    texts: &mut Texts,
    inputs: &[Input],
    term: &Tree,
) -> Result<Value, NoMemory> {
    let term = term_on(asker.alloc, texts, inputs, term)?;
    asker.value(texts, term)
}

/// Puts a part with its value, on a line.
fn put_part<R: Threads + Sync>(
    asker: &Asker<R>,
    texts: &mut Texts,
    report: &mut Report,
    inputs: &[Input],
    part: Part,
    indent: usize,
) -> Result<(), NoMemory> {
    let value = value_on(asker, texts, inputs, part.tree)?;
    report.times(indent, b' ');
    put_front_of(asker.alloc, texts, report, part.tree);
    put_value(report, &value, 0);
    report.say("\n");
    Ok(())
}

/// The bits of a variable's shape, without the sign; 0 where it has none.
fn bits_of(bindings: &Option<Bindings>, variable: TextId) -> usize {
    if let Some(all) = bindings {
        for i in 0..all.len() {
            if all.variable(i) == variable {
                return match all.shape(i).as_integer() {
                    Some(indices) => indices.len().saturating_sub(1),
                    None => 0,
                };
            }
        }
    }
    0
}

/// How many bits each integer of an input is shown with at least.
pub fn widths_of(
    alloc: Global,
    texts: &Texts,
    form: &Tree,
    inputs: &[Input],
) -> Result<Vec<usize>, NoMemory> {
    let bindings = bindings_of(alloc, texts, form)?;
    let mut widths = Vec::new(alloc);
    for input in inputs {
        widths.push(bits_of(&bindings, input.variable))?;
    }
    Ok(widths)
}

/// The bindings of a theorem's form.
fn bindings_of(alloc: Global, texts: &Texts, form: &Tree) -> Result<Option<Bindings>, NoMemory> {
    match bindings_form(texts, form) {
        Some(found) => bindings_in(alloc, texts, found),
        None => Ok(None),
    }
}

/// Puts an input, its integers in three bases.
pub(crate) fn put_inputs(
    alloc: Global,
    texts: &Texts,
    report: &mut Report,
    form: &Tree,
    inputs: &[Input],
) -> Result<(), NoMemory> {
    let bindings = bindings_of(alloc, texts, form)?;
    report.say("   the input:\n");
    for input in inputs {
        report.say("     ");
        report.text(&input.name);
        report.say(" = ");
        put_in_bases(report, &input.text, bits_of(&bindings, input.variable));
        report.say("\n");
    }
    Ok(())
}

/// Puts the conjuncts of a theorem's hypothesis on an input.
fn put_hypothesis<R: Threads + Sync>(
    asker: &Asker<R>,
    texts: &mut Texts,
    report: &mut Report,
    form: &Tree,
    inputs: &[Input],
) -> Result<(), NoMemory> {
    if let Some(hyp) = option_of(texts, form, b":HYP") {
        report.say("   the hypothesis on it:\n");
        for (i, part) in conjuncts(asker.alloc, texts, hyp)?.iter().enumerate() {
            if i < MOST_PARTS {
                put_part(asker, texts, report, inputs, *part, 5)?;
            }
        }
    }
    Ok(())
}

/// A part of a conclusion, and its value.
#[derive(Drop)]
struct Told<'a> {
    part: Opened<'a>,
    value: Value,
}

/// The bits of an integer; 0 of another value.
fn bits_in(value: &Value) -> usize {
    match value {
        Value::Is(object) => integer_bits(object.as_slice()),
        Value::Lacks(_) | Value::Unknown => 0,
    }
}

/// The most bits of the values of the parts of one part.
fn width_in(told: &[Told], parent: Option<usize>) -> usize {
    let mut bits = 0;
    for each in told {
        if each.part.parent == parent {
            bits = bits.max(bits_in(&each.value));
        }
    }
    bits
}

/// The part in front of one, of two that a part has; none where it has others.
fn sibling<'a, 'b>(told: &'b [Told<'a>], number: usize, parent: usize) -> Option<&'b Told<'a>> {
    let mut found = None;
    for (i, each) in told.iter().enumerate() {
        if each.part.parent == Some(parent) && i != number {
            if number < i || found.is_some() {
                return None;
            }
            found = Some(each);
        }
    }
    found
}

/// Whether a part says that two values are equal.
fn is_equation(texts: &Texts, told: &[Told], number: usize) -> bool {
    match told.get(number) {
        Some(each) => is_among(head_of(texts, each.part.tree), "EQUAL = EQL"),
        None => false,
    }
}

/// Puts in which bits the two sides of an equation differ, below the second.
fn put_differing(texts: &Texts, report: &mut Report, told: &[Told], number: usize, bits: usize) {
    let Some(second) = told.get(number) else {
        return;
    };
    let Some(parent) = second.part.parent else {
        return;
    };
    let Some(first) = sibling(told, number, parent) else {
        return;
    };
    if let (true, Value::Is(one), Value::Is(other)) = (
        is_equation(texts, told, parent),
        &first.value,
        &second.value,
    ) {
        put_difference(report, one, other, bits, indent_of(second.part));
    }
}

/// How far a part is indented.
fn indent_of(part: Opened) -> usize {
    part.depth.saturating_mul(2).saturating_add(5)
}

/// Puts a part with its value, on a line, and in which bits it differs from the one beside it.
fn put_told(
    alloc: Global,
    texts: &Texts,
    report: &mut Report,
    told: &[Told],
    number: usize,
    each: &Told,
) {
    let bits = width_in(told, each.part.parent);
    report.times(indent_of(each.part), b' ');
    put_front_of(alloc, texts, report, each.part.tree);
    put_value(report, &each.value, bits);
    report.say("\n");
    put_differing(texts, report, told, number, bits);
}

/// Puts a term with its value on an input, and below it its sides and parts.
pub(crate) fn put_parts<R: Threads + Sync>(
    asker: &Asker<R>,
    texts: &mut Texts,
    report: &mut Report,
    term: &Tree,
    inputs: &[Input],
) -> Result<(), NoMemory> {
    let parts = Parts::of(asker.alloc, texts, asker.before, term)?;
    let mut told = Vec::new(asker.alloc);
    for part in &parts.all {
        let term = parts.term(asker.alloc, texts, *part)?;
        told.push(Told {
            part: *part,
            value: value_on(asker, texts, inputs, &term)?,
        })?;
    }
    for (number, each) in told.iter().enumerate() {
        put_told(asker.alloc, texts, report, &told, number, each);
    }
    Ok(())
}

/// Puts a theorem on an input: the input, and what its hypothesis and its conclusion are there.
pub(crate) fn put_on_input<R: Threads + Sync>(
    asker: &Asker<R>,
    texts: &mut Texts,
    report: &mut Report,
    form: &Tree,
    inputs: &[Input],
) -> Result<(), NoMemory> {
    put_inputs(asker.alloc, texts, report, form, inputs)?;
    put_hypothesis(asker, texts, report, form, inputs)?;
    if let Some(concl) = option_of(texts, form, b":CONCL") {
        report.say("   the conclusion on it:\n");
        put_parts(asker, texts, report, concl, inputs)?;
    }
    Ok(())
}
