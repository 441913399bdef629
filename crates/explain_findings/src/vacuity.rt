//! The conjunct of a hypothesis under which nothing is left: of a theorem, and of each case.

use crate::asker::Asker;
use crate::evaluation::put_front;
use crate::forms::{bindings_form, conjuncts, element, option_of, printed, word_of};
use crate::making::{binding, call, call_on, call_on_two, list, word};
use crate::reading::bindings_in;
use crate::shapes::conjunct;
use explain_report::{Report, Verdict};
use gl_logic::{NoMemory, Texts, Tree};
use shape_spec::Bindings;
use std::alloc::Global;
use std::thread::Threads;

/// How many conjuncts are asked, each beside the one under which nothing is left.
const MOST_PAIRS: usize = 16;

/// Of how many cases it is told.
const MOST_CASES: usize = 16;

/// A term of a hypothesis, and how it is shown.
#[derive(Drop)]
struct Term {
    form: Tree,
    text: Vec<u8>,
}

/// What is asked: a theorem's name, its bindings, the hypothesis that keeps its variables within their shapes and says no more,
/// and the terms of its own hypothesis.
#[derive(Drop)]
struct Question<'a> {
    name: &'a Tree,
    shapes: Tree,
    bindings: Tree,
    terms: Vec<Term>,
}

/// The hypothesis that keeps variables within their shapes and says no more.
fn shape_hypothesis(
    alloc: Global,
    texts: &mut Texts,
    bindings: &Bindings,
) -> Result<Tree, NoMemory> {
    let mut terms = Vec::new(alloc);
    terms.push(word(texts, b"T")?)?;
    for i in 0..bindings.len() {
        let place = Tree::symbol(bindings.variable(i));
        terms.push(conjunct(alloc, texts, bindings.shape(i), &place, false)?)?;
    }
    call(alloc, texts, b"AND", terms)
}

/// The question of a theorem's form, or of a case of it, whose bindings and terms are these; none where they are no bindings.
fn question_of<'a>(
    alloc: Global,
    texts: &mut Texts,
    form: &'a Tree,
    bindings: Tree,
    terms: Vec<Term>,
) -> Result<Option<Question<'a>>, NoMemory> {
    let Some(name) = element(form, 1) else {
        return Ok(None);
    };
    match bindings_in(alloc, texts, &bindings)? {
        Some(all) => Ok(Some(Question {
            name,
            shapes: shape_hypothesis(alloc, texts, &all)?,
            bindings,
            terms,
        })),
        None => Ok(None),
    }
}

/// The theorem that no input of the shapes meets these terms.
fn theorem_of(
    alloc: Global,
    texts: &mut Texts,
    question: &Question,
    terms: Vec<Tree>,
) -> Result<Tree, NoMemory> {
    let met = call(alloc, texts, b"AND", terms)?;
    let mut parts = Vec::new(alloc);
    parts.push(question.name.copy(alloc)?)?;
    parts.push(word(texts, b":HYP")?)?;
    parts.push(question.shapes.copy(alloc)?)?;
    parts.push(word(texts, b":CONCL")?)?;
    parts.push(call_on(alloc, texts, b"NOT", met)?)?;
    parts.push(word(texts, b":G-BINDINGS")?)?;
    parts.push(question.bindings.copy(alloc)?)?;
    call(alloc, texts, b"DEF-GL-THM", parts)
}

/// Whether an input of the shapes meets some terms.
#[derive(Clone, Copy, Debug, PartialEq, Eq)]
enum Left {
    Nothing,
    Something,
    /// It is undecided, by a cause.
    Open(&'static str),
}

/// Whether an input of the shapes meets these terms.
fn left_under<R: Threads + Sync>(
    asker: &Asker<R>,
    texts: &mut Texts,
    question: &Question,
    terms: Vec<Tree>,
) -> Result<Left, NoMemory> {
    let theorem = theorem_of(asker.alloc, texts, question, terms)?;
    let found = asker.decide(texts, &theorem)?;
    match (found.lack(), found.verdict) {
        (Some(word), _) => Ok(Left::Open(word)),
        (None, Verdict::Proved | Verdict::Vacuous) => Ok(Left::Nothing),
        (None, _) => Ok(Left::Something),
    }
}

/// Whether an input of the shapes meets the first terms of a question.
fn left_under_first<R: Threads + Sync>(
    asker: &Asker<R>,
    texts: &mut Texts,
    question: &Question,
    count: usize,
) -> Result<Left, NoMemory> {
    let mut terms = Vec::new(asker.alloc);
    terms.push(word(texts, b"T")?)?;
    for term in question.terms.iter().take(count) {
        terms.push(term.form.copy(asker.alloc)?)?;
    }
    left_under(asker, texts, question, terms)
}

/// Whether an input of the shapes meets two terms.
fn left_under_pair<R: Threads + Sync>(
    asker: &Asker<R>,
    texts: &mut Texts,
    question: &Question,
    first: &Term,
    second: &Term,
) -> Result<Left, NoMemory> {
    let mut terms = Vec::new(asker.alloc);
    terms.push(word(texts, b"T")?)?;
    terms.push(first.form.copy(asker.alloc)?)?;
    terms.push(second.form.copy(asker.alloc)?)?;
    left_under(asker, texts, question, terms)
}

/// What is found of a question's terms.
#[derive(Clone, Copy, Debug, PartialEq, Eq)]
enum Emptied {
    /// The number of the first term with which and with those before it nothing is left, from 0; that of all where something is.
    First(usize),
    /// It is undecided, by a cause, whether something is left under the first so many.
    Open(usize, &'static str),
}

/// The first term with which and with those before it nothing is left, by halving.
fn first_empty<R: Threads + Sync>(
    asker: &Asker<R>,
    texts: &mut Texts,
    question: &Question,
) -> Result<Emptied, NoMemory> {
    let mut low = 0;
    let mut high = question.terms.len();
    for _ in 0..64 {
        if high <= low {
            break;
        }
        let middle = low + (high - low) / 2;
        let count = middle.saturating_add(1);
        match left_under_first(asker, texts, question, count)? {
            Left::Nothing => high = middle,
            Left::Something => low = count,
            Left::Open(cause) => return Ok(Emptied::Open(count, cause)),
        }
    }
    Ok(Emptied::First(low))
}

/// Puts the earlier terms each of which excludes a term by itself.
fn put_excluded<R: Threads + Sync>(
    asker: &Asker<R>,
    texts: &mut Texts,
    report: &mut Report,
    question: &Question,
    number: usize,
) -> Result<(), NoMemory> {
    let Some(last) = question.terms.get(number) else {
        return Ok(());
    };
    for term in question.terms.iter().take(number.min(MOST_PAIRS)) {
        if left_under_pair(asker, texts, question, term, last)? == Left::Nothing {
            report.say("   by itself it excludes:\n");
            put_term(report, term);
        }
    }
    Ok(())
}

/// Puts under how many conjuncts it is undecided whether something is left.
fn put_open(report: &mut Report, count: usize, cause: &str) {
    report.say("whether something of the shapes meets the first ");
    report.number(count as u64);
    report.say(" conjuncts is undecided, ");
    report.say(cause);
    report.say("\n");
}

/// Puts a term on a line of its own.
fn put_term(report: &mut Report, term: &Term) {
    report.say("     ");
    put_front(report, &term.text);
    report.say("\n");
}

/// Puts what is found of the terms of a theorem's question.
fn put_found<R: Threads + Sync>(
    asker: &Asker<R>,
    texts: &mut Texts,
    report: &mut Report,
    question: &Question,
    found: Emptied,
) -> Result<(), NoMemory> {
    match found {
        Emptied::Open(count, cause) => {
            report.say("   ");
            put_open(report, count, cause);
            Ok(())
        }
        Emptied::First(number) => {
            let Some(term) = question.terms.get(number) else {
                return Ok(());
            };
            report.say(if number == 0 {
                "   nothing of the shapes meets the first conjunct:\n"
            } else {
                "   of the shapes something meets the conjuncts in front of this one, and nothing meets it too:\n"
            });
            put_term(report, term);
            put_excluded(asker, texts, report, question, number)
        }
    }
}

/// Puts what is found of the terms of a case's question, the whole theorem's being another.
fn put_found_of_case(report: &mut Report, question: &Question, found: Emptied, whole: Emptied) {
    match found {
        Emptied::Open(count, cause) => put_open(report, count, cause),
        Emptied::First(_) if found == whole => report.say("the same conjunct leaves nothing\n"),
        Emptied::First(number) => match question.terms.get(number) {
            Some(term) => {
                report.say("it is this one that leaves nothing:\n");
                put_term(report, term);
            }
            None => report.say("something is left\n"),
        },
    }
}

/// The terms of a theorem's hypothesis, and none where it has none.
fn terms_of(alloc: Global, texts: &Texts, form: &Tree) -> Result<Vec<Term>, NoMemory> {
    let mut terms = Vec::new(alloc);
    if let Some(hyp) = option_of(texts, form, b":HYP") {
        for part in &conjuncts(alloc, texts, hyp)? {
            terms.push(Term {
                form: part.tree.copy(alloc)?,
                text: printed(alloc, part.tree, texts)?,
            })?;
        }
    }
    Ok(terms)
}

/// How it is shown what a case is of.
fn case_text(
    alloc: Global,
    texts: &Texts,
    constants: &Tree,
    term: &Tree,
) -> Result<Vec<u8>, NoMemory> {
    let mut text = Report::new(alloc);
    text.say("(LET (");
    for number in 0..constants.elements().len() {
        if let Some(constant) = element(constants, number) {
            if let (Some(name), Some(object)) = (element(constant, 0), element(constant, 1)) {
                text.say("(");
                text.text(word_of(texts, name));
                text.say(" '");
                text.made(printed(alloc, object, texts));
                text.say(")");
            }
        }
    }
    text.say(") ");
    text.made(printed(alloc, term, texts));
    text.say(")");
    text.into_bytes()
}

/// What a case is of: a term where the parameters are its constants.
fn case_term(
    alloc: Global,
    texts: &mut Texts,
    constants: &Tree,
    term: &Tree,
) -> Result<Term, NoMemory> {
    let mut bound = Vec::new(alloc);
    for number in 0..constants.elements().len() {
        if let Some(constant) = element(constants, number) {
            if let (Some(name), Some(object)) = (element(constant, 0), element(constant, 1)) {
                bound.push(binding(alloc, texts, name.copy(alloc)?, object)?)?;
            }
        }
    }
    let bound = list(alloc, bound)?;
    Ok(Term {
        form: call_on_two(alloc, texts, b"LET", bound, term.copy(alloc)?)?,
        text: case_text(alloc, texts, constants, term)?,
    })
}

/// The question of a case, whose cases stand behind a mark.
fn question_of_case<'a>(
    alloc: Global,
    texts: &mut Texts,
    form: &'a Tree,
    mark: &Tree,
    case: &Tree,
) -> Result<Option<Question<'a>>, NoMemory> {
    let (Some(constants), Some(bindings), Some(term)) = (
        element(case, 0),
        element(case, 1),
        option_of(texts, form, b":PARAM-HYP"),
    ) else {
        return Ok(None);
    };
    let mut terms = terms_of(alloc, texts, form)?;
    terms.push(case_term(alloc, texts, constants, term)?)?;
    let mut marked = Vec::new(alloc);
    marked.push(mark.copy(alloc)?)?;
    marked.push(bindings.copy(alloc)?)?;
    question_of(alloc, texts, form, list(alloc, marked)?, terms)
}

/// Puts of each case under which conjunct nothing is left of its own shapes.
fn put_cases<R: Threads + Sync>(
    asker: &Asker<R>,
    texts: &mut Texts,
    report: &mut Report,
    form: &Tree,
    cases: &Tree,
    whole: Emptied,
) -> Result<(), NoMemory> {
    let (Some(mark), Some(list)) = (element(cases, 0), element(cases, 1)) else {
        return Ok(());
    };
    for number in 0..list.elements().len().min(MOST_CASES) {
        if let Some(case) = element(list, number) {
            if let Some(question) = question_of_case(asker.alloc, texts, form, mark, case)? {
                report.say("   of the shapes of case ");
                report.number(number.saturating_add(1) as u64);
                report.say(": ");
                let found = first_empty(asker, texts, &question)?;
                put_found_of_case(report, &question, found, whole);
            }
        }
    }
    Ok(())
}

/// The question of a theorem's whole hypothesis; none where it has no bindings.
fn question_of_whole<'a>(
    alloc: Global,
    texts: &mut Texts,
    form: &'a Tree,
) -> Result<Option<Question<'a>>, NoMemory> {
    let Some(bindings) = bindings_form(texts, form) else {
        return Ok(None);
    };
    let terms = terms_of(alloc, texts, form)?;
    question_of(alloc, texts, form, bindings.copy(alloc)?, terms)
}

/// Puts the first conjunct of a theorem's hypothesis under which nothing is left, and of a theorem by cases that of each case.
pub(crate) fn put_vacuity<R: Threads + Sync>(
    asker: &Asker<R>,
    texts: &mut Texts,
    report: &mut Report,
    form: &Tree,
) -> Result<(), NoMemory> {
    let Some(question) = question_of_whole(asker.alloc, texts, form)? else {
        return Ok(());
    };
    let whole = first_empty(asker, texts, &question)?;
    put_found(asker, texts, report, &question, whole)?;
    match option_of(texts, form, b":PARAM-BINDINGS") {
        Some(cases) => put_cases(asker, texts, report, form, cases, whole),
        None => Ok(()),
    }
}
