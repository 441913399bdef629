//! A theorem with other hypotheses and bindings.

use crate::forms::{element, is_among, option_of, speaks_of, word_of};
use crate::making::{call, call_on, call_on_two, list, quoted, word};
use crate::reading::bindings_in;
use crate::reordered::{Bound, bound_in, written_out};
use explain_report::Report;
use gl_logic::{NoMemory, TextId, Texts, Tree};
use std::alloc::Global;

/// A theorem's name, hypothesis, conclusion and bindings, and its bound variables.
#[derive(Drop)]
pub(crate) struct Theorem<'a> {
    pub name: &'a Tree,
    pub hyp: &'a Tree,
    pub concl: &'a Tree,
    pub bindings: &'a Tree,
    pub bound: Vec<Bound>,
}

/// The bound variables of bindings; none where a shape is no integer and no Boolean.
fn bound_of(alloc: Global, texts: &Texts, form: &Tree) -> Result<Option<Vec<Bound>>, NoMemory> {
    let is_natural = speaks_of(alloc, texts, form, b":NAT")?;
    match bindings_in(alloc, texts, form)? {
        Some(bindings) => bound_in(alloc, &bindings, is_natural),
        None => Ok(None),
    }
}

/// The theorem of a `def-gl-thm`, where it has a hypothesis and no clocks, and its shapes are integers and Booleans.
pub(crate) fn theorem_of<'a>(
    alloc: Global,
    texts: &Texts,
    form: &'a Tree,
) -> Result<Option<Theorem<'a>>, NoMemory> {
    let has_clock = option_of(texts, form, b":HYP-CLK").is_some()
        || option_of(texts, form, b":CONCL-CLK").is_some();
    let (Some(name), Some(hyp), Some(concl), Some(bindings)) = (
        element(form, 1),
        option_of(texts, form, b":HYP"),
        option_of(texts, form, b":CONCL"),
        option_of(texts, form, b":G-BINDINGS"),
    ) else {
        return Ok(None);
    };
    match bound_of(alloc, texts, bindings)? {
        Some(bound) if !has_clock => Ok(Some(Theorem {
            name,
            hyp,
            concl,
            bindings,
            bound,
        })),
        _ => Ok(None),
    }
}

/// A name, a hypothesis and a conclusion as an event has them.
fn claim(
    alloc: Global,
    texts: &mut Texts,
    theorem: &Theorem,
    hyp: &Tree,
) -> Result<Vec<Tree>, NoMemory> {
    let mut parts = Vec::new(alloc);
    parts.push(theorem.name.copy(alloc)?)?;
    parts.push(word(texts, b":HYP")?)?;
    parts.push(hyp.copy(alloc)?)?;
    parts.push(word(texts, b":CONCL")?)?;
    parts.push(theorem.concl.copy(alloc)?)?;
    Ok(parts)
}

/// The theorem with another hypothesis and other bindings.
pub(crate) fn changed(
    alloc: Global,
    texts: &mut Texts,
    theorem: &Theorem,
    hyp: &Tree,
    bindings: &Tree,
) -> Result<Tree, NoMemory> {
    let mut parts = claim(alloc, texts, theorem, hyp)?;
    parts.push(word(texts, b":G-BINDINGS")?)?;
    parts.push(bindings.copy(alloc)?)?;
    call(alloc, texts, b"DEF-GL-THM", parts)
}

/// The variable with the fewest indices that is to be a natural number, where these are at most four.
fn narrowest(bound: &[Bound]) -> Option<&Bound> {
    let mut found: Option<&Bound> = None;
    let mut fewest: usize = 5;
    for each in bound {
        if each.is_natural && each.indices.len() < fewest {
            fewest = each.indices.len();
            found = Some(each);
        }
    }
    found
}

/// The parameter for a variable's case.
fn parameter_of(alloc: Global, texts: &mut Texts, variable: TextId) -> Result<Tree, NoMemory> {
    let mut name = Report::new(alloc);
    name.say("CASE-OF-");
    name.text(texts.text(variable));
    word(texts, &name.into_bytes()?)
}

/// A case of each value of a variable, with the bindings of the theorem.
fn cases_of(
    alloc: Global,
    texts: &mut Texts,
    parameter: &Tree,
    variable: &Bound,
    bindings: &Tree,
) -> Result<Tree, NoMemory> {
    let count = match variable.indices.len() {
        2 => 2,
        3 => 4,
        _ => 8,
    };
    let mut cases = Vec::new(alloc);
    for value in 0..count {
        let mut constant = Vec::new(alloc);
        constant.push(parameter.copy(alloc)?)?;
        constant.push(Tree::int(value))?;
        let constants = Tree::pair(alloc, list(alloc, constant)?, Tree::nil())?;
        let mut case = Vec::new(alloc);
        case.push(constants)?;
        case.push(bindings.copy(alloc)?)?;
        cases.push(list(alloc, case)?)?;
    }
    list(alloc, cases)
}

/// The theorem by the cases of a variable.
fn by_cases_of(
    alloc: Global,
    texts: &mut Texts,
    theorem: &Theorem,
    variable: &Bound,
) -> Result<Tree, NoMemory> {
    let parameter = parameter_of(alloc, texts, variable.variable)?;
    let bindings = written_out(alloc, texts, &theorem.bound)?;
    let cases = cases_of(alloc, texts, &parameter, variable, &bindings)?;
    let symbol = Tree::symbol(variable.variable);
    let mut parts = claim(alloc, texts, theorem, theorem.hyp)?;
    parts.push(word(texts, b":PARAM-HYP")?)?;
    parts.push(call_on_two(alloc, texts, b"EQUAL", symbol, parameter)?)?;
    parts.push(word(texts, b":PARAM-BINDINGS")?)?;
    parts.push(call_on(alloc, texts, b"QUOTE", cases)?)?;
    parts.push(word(texts, b":COV-BINDINGS")?)?;
    parts.push(quoted(alloc, texts, &bindings)?)?;
    call(alloc, texts, b"DEF-GL-PARAM-THM", parts)
}

/// The theorem by the cases of its narrowest variable; none where no variable has few values.
pub(crate) fn by_cases(
    alloc: Global,
    texts: &mut Texts,
    theorem: &Theorem,
) -> Result<Option<Tree>, NoMemory> {
    match narrowest(&theorem.bound) {
        Some(variable) => Ok(Some(by_cases_of(alloc, texts, theorem, variable)?)),
        None => Ok(None),
    }
}

/// An event without its clocks.
pub(crate) fn without_clocks(alloc: Global, texts: &Texts, form: &Tree) -> Result<Tree, NoMemory> {
    let mut parts = Vec::new(alloc);
    let mut is_skipped = false;
    for number in 0..form.elements().len() {
        if let Some(part) = element(form, number) {
            let is_clock = is_among(word_of(texts, part), ":HYP-CLK :CONCL-CLK");
            if !is_clock && !is_skipped {
                parts.push(part.copy(alloc)?)?;
            }
            is_skipped = is_clock;
        }
    }
    list(alloc, parts)
}
