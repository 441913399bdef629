//! The lines of a transcript: of each event with its answer.

ghost use Rattle.std.specs.Prelude.{◌≡◌, ℕ, List, [], ◌∷◌, ◌++◌, length, codes, map, IfOk, OnOk};
ghost use Rattle.std.specs.Fmt.{decimal};
ghost use Rattle.gl_logic.specs.DefinitionOf.{definition_of};
ghost use Rattle.sexp_print.specs.Printed.{printed};
ghost use Rattle.event_world.specs.Seen.{event_seen};
ghost use Rattle.gl_logic.specs.Exp.{Exp};
ghost use Rattle.event_world.specs.EventSeen.{Assert, Cases, Defconst, Memoize, Theorem, Unmemoize, Value};
ghost use Rattle.shape_spec.specs.TheoremSeen.{TheoremSeen};
ghost use Rattle.gl_cases.specs.Parts.{ParamSeen};
ghost use Rattle.gl_book.specs.Lines.{named_line, input_lines, part_word, open_words, open_input, open_lines};
ghost use Rattle.gl_book.specs.Lines.{verdict_lines, cases_lines, redundant_line, defun_line, undecided_line, mode_line, event_lines};

use super::answer::{Answer, Cause};
use super::cases::CasesVerdict;
use super::line_list::Lines;
use super::measure_words::stated_measure;
use super::refusal::cause_word;
use event_world::Event;
use gl_decide::Verdict;
use gl_logic::{Def, Defs, Names, NoMemory, TextId, Texts, Tree};
use sexp_print::print;
use shape_spec::{Inputs, Mode, Part};
use std::alloc::Global;

/// Adds the lines of an event with its answer.
pub fn add_event_lines(
    alloc: Global,
    event: &Event,
    answer: &Answer,
    texts: &Texts,
    lines: &mut Lines,
) -> Result<(), NoMemory>
    ensures { OnOk result (lines.new ≡ lines.old ++ event_lines texts.now (event_seen event.now) answer.now) }
{
    match event {
        Event::Nothing => Ok(()),
        Event::Redundant(name) => add_redundant(alloc, *name, texts, lines),
        Event::RedundantClique(names) => add_redundant_clique(alloc, names, texts, lines),
        Event::Defun(def) => add_defun(alloc, def, texts, lines),
        Event::Clique(defs) => add_clique(alloc, defs, texts, lines),
        Event::Defconst(name, _) => add_constant(alloc, *name, answer, texts, lines),
        Event::Value(_) => add_value(alloc, answer, texts, lines),
        Event::Assert(_) => add_assert(alloc, answer, lines),
        Event::Memoize(_) => add_function(alloc, b"MEMOIZE ", answer, texts, lines),
        Event::Unmemoize(_) => add_function(alloc, b"UNMEMOIZE ", answer, texts, lines),
        Event::Mode(mode) => add_mode(alloc, *mode, lines),
        Event::Theorem(thm) => add_theorem(alloc, thm.name, answer, texts, lines),
        Event::Cases(thm) => add_by_cases(alloc, thm.cover.name, answer, texts, lines),
    }
}

/// Adds the line of a redundant event of a name.
fn add_redundant(
    alloc: Global,
    name: TextId,
    texts: &Texts,
    lines: &mut Lines,
) -> Result<(), NoMemory>
    ensures { OnOk result (lines.new ≡ lines.old ++ redundant_line texts.now name.number ∷ []) }
{
    add_named(alloc, b"REDUNDANT ", name, b"", texts, lines)
}

/// A line for each member of a redundant clique.
fn add_redundant_clique(
    alloc: Global,
    names: &Names,
    texts: &Texts,
    lines: &mut Lines,
) -> Result<(), NoMemory>
    ensures { OnOk result (lines.new ≡ lines.old ++ map (redundant_line texts.now) names.now) }
{
    for i in 0..names.len() {
        add_redundant(alloc, *names.at(i), texts, lines)?;
    }
    Ok(())
}

/// Adds the line of a definition, with its measure where it has one.
fn add_defun(alloc: Global, def: &Def, texts: &Texts, lines: &mut Lines) -> Result<(), NoMemory>
    ensures { OnOk result (lines.new ≡ lines.old ++ defun_line texts.now (definition_of def.now) ∷ []) }
{
    let measure = stated_measure(alloc, def.measure, texts)?;
    add_named(alloc, b"DEFUN ", def.name, &measure, texts, lines)
}

/// A line for each member of a clique.
fn add_clique(alloc: Global, defs: &Defs, texts: &Texts, lines: &mut Lines) -> Result<(), NoMemory>
    ensures { OnOk result (lines.new ≡ lines.old ++ map (defun_line texts.now) defs.now) }
{
    for i in 0..defs.len() {
        add_defun(alloc, defs.at(i), texts, lines)?;
    }
    Ok(())
}

/// A constant's line, where it has a value.
fn add_constant(
    alloc: Global,
    name: TextId,
    answer: &Answer,
    texts: &Texts,
    lines: &mut Lines,
) -> Result<(), NoMemory>
    ensures { (body : Exp) → OnOk result (lines.new ≡ lines.old ++ event_lines texts.now (Defconst name.number body) answer.now) }
{
    match answer {
        Answer::Value(value) => {
            let mut after = Vec::new(alloc);
            after.push(b' ')?;
            print(alloc, value, texts, &mut after)?;
            add_named(alloc, b"DEFCONST ", name, &after, texts, lines)
        }
        _ => Ok(()),
    }
}

/// Adds the line of a value.
fn add_value(
    alloc: Global,
    answer: &Answer,
    texts: &Texts,
    lines: &mut Lines,
) -> Result<(), NoMemory>
    ensures { (body : Exp) → OnOk result (lines.new ≡ lines.old ++ event_lines texts.now (Value body) answer.now) }
{
    match answer {
        Answer::Value(value) => {
            let mut bytes = Vec::new(alloc);
            bytes.extend_from_slice(b"VALUE ")?;
            print(alloc, value, texts, &mut bytes)?;
            bytes.push(b'\n')?;
            lines.push(bytes)
        }
        Answer::Undecided(cause) => add_undecided(alloc, b"VALUE", *cause, lines),
        _ => Ok(()),
    }
}

/// Adds the line of an assert.
fn add_assert(alloc: Global, answer: &Answer, lines: &mut Lines) -> Result<(), NoMemory>
    ensures { (names : List (List ℕ)) (body : Exp) → OnOk result (lines.new ≡ lines.old ++ event_lines names (Assert body) answer.now) }
{
    match answer {
        Answer::Truth(true) => add_plain(alloc, b"ASSERT ok\n", lines),
        Answer::Truth(false) => add_plain(alloc, b"ASSERT nil\n", lines),
        Answer::Undecided(cause) => add_undecided(alloc, b"ASSERT", *cause, lines),
        _ => Ok(()),
    }
}

/// A value or an assert that is left undecided.
fn add_undecided(
    alloc: Global,
    word: &[u8],
    cause: Cause,
    lines: &mut Lines,
) -> Result<(), NoMemory>
    ensures { OnOk result (lines.new ≡ lines.old ++ undecided_line word.now cause ∷ []) }
{
    let mut bytes = word.to_vec(alloc)?;
    bytes.extend_from_slice(b" undecided ")?;
    bytes.extend_from_slice(cause_word(cause).as_bytes())?;
    bytes.push(b'\n')?;
    lines.push(bytes)
}

/// A function whose calls are kept from now on, or no longer.
fn add_function(
    alloc: Global,
    word: &[u8],
    answer: &Answer,
    texts: &Texts,
    lines: &mut Lines,
) -> Result<(), NoMemory>
    ensures memoize { word.now ≡ codes "MEMOIZE " → (f : ℕ) → OnOk result (lines.new ≡ lines.old ++ event_lines texts.now (Memoize f) answer.now) }
    ensures unmemoize { word.now ≡ codes "UNMEMOIZE " → (f : ℕ) → OnOk result (lines.new ≡ lines.old ++ event_lines texts.now (Unmemoize f) answer.now) }
{
    match answer {
        Answer::Function(name) => add_named(alloc, word, *name, b"", texts, lines),
        _ => Ok(()),
    }
}

/// Adds the line of a mode.
fn add_mode(alloc: Global, mode: Mode, lines: &mut Lines) -> Result<(), NoMemory>
    ensures { OnOk result (lines.new ≡ lines.old ++ mode_line mode ∷ []) }
{
    match mode {
        Mode::Bdd => add_plain(alloc, b"MODE BDD\n", lines),
        Mode::Sat => add_plain(alloc, b"MODE SAT\n", lines),
        Mode::Param => add_plain(alloc, b"MODE PARAM\n", lines),
    }
}

/// Adds the lines of a theorem by its verdict.
fn add_theorem(
    alloc: Global,
    name: TextId,
    answer: &Answer,
    texts: &Texts,
    lines: &mut Lines,
) -> Result<(), NoMemory>
    ensures { (thm : TheoremSeen) → thm.name ≡ name.number → OnOk result (lines.new ≡ lines.old ++ event_lines texts.now (Theorem thm) answer.now) }
{
    match answer {
        Answer::Decided(verdict) => add_verdict(alloc, name, verdict, texts, lines),
        _ => Ok(()),
    }
}

/// A line of these bytes.
fn add_plain(alloc: Global, line: &[u8], lines: &mut Lines) -> Result<(), NoMemory>
    ensures { OnOk result (lines.new ≡ lines.old ++ line.now ∷ []) }
{
    lines.push(line.to_vec(alloc)?)
}

/// Adds the lines of a verdict on the theorem of a name: its own, and those of the input that it tells.
pub(crate) fn add_verdict(
    alloc: Global,
    name: TextId,
    verdict: &Verdict,
    texts: &Texts,
    lines: &mut Lines,
) -> Result<(), NoMemory>
    ensures { OnOk result (lines.new ≡ lines.old ++ verdict_lines texts.now name.number verdict.now) }
{
    match verdict {
        Verdict::Proved => add_named(alloc, b"PROVED ", name, b"", texts, lines),
        Verdict::Vacuous => add_named(alloc, b"VACUOUS ", name, b"", texts, lines),
        Verdict::Refuted(input) => add_refuted(alloc, name, input, texts, lines),
        _ => add_open(alloc, name, b"", verdict, texts, lines),
    }
}

/// A theorem by cases. Where it is left undecided, the line tells which part is, or that an input is of no case.
fn add_by_cases(
    alloc: Global,
    name: TextId,
    answer: &Answer,
    texts: &Texts,
    lines: &mut Lines,
) -> Result<(), NoMemory>
    ensures { (thm : ParamSeen) → thm.cover.name ≡ name.number → OnOk result (lines.new ≡ lines.old ++ event_lines texts.now (Cases thm) answer.now) }
{
    match answer {
        Answer::ByCases(verdict) => add_cases(alloc, name, verdict, texts, lines),
        _ => Ok(()),
    }
}

/// Adds the lines of what a theorem by cases comes to.
fn add_cases(
    alloc: Global,
    name: TextId,
    verdict: &CasesVerdict,
    texts: &Texts,
    lines: &mut Lines,
) -> Result<(), NoMemory>
    ensures { OnOk result (lines.new ≡ lines.old ++ cases_lines texts.now name.number verdict.now) }
{
    match verdict {
        CasesVerdict::Proved => add_named(alloc, b"PROVED ", name, b"", texts, lines),
        CasesVerdict::Vacuous => add_named(alloc, b"VACUOUS ", name, b"", texts, lines),
        CasesVerdict::Refuted(input) => add_refuted(alloc, name, input, texts, lines),
        CasesVerdict::Uncased(input) => {
            add_named(alloc, b"UNDECIDED ", name, b" uncased", texts, lines)?;
            add_input(alloc, input, texts, lines)
        }
        CasesVerdict::Cover(verdict) => add_open(alloc, name, b" cover", verdict, texts, lines),
        CasesVerdict::Case(number, verdict) => {
            add_open_case(alloc, name, *number, verdict, texts, lines)
        }
    }
}

/// A theorem by cases that its case with this number leaves undecided.
fn add_open_case(
    alloc: Global,
    name: TextId,
    number: u32,
    verdict: &Verdict,
    texts: &Texts,
    lines: &mut Lines,
) -> Result<(), NoMemory>
    ensures { OnOk result (lines.new ≡ lines.old ++ open_lines texts.now name.number (codes " case " ++ decimal number) verdict.now) }
{
    let part = format!(in alloc; " case {number}")?;
    add_open(alloc, name, part.as_bytes(), verdict, texts, lines)
}

/// A theorem that is refuted by an input.
fn add_refuted(
    alloc: Global,
    name: TextId,
    input: &Inputs,
    texts: &Texts,
    lines: &mut Lines,
) -> Result<(), NoMemory>
    ensures { OnOk result (lines.new ≡ lines.old ++ named_line texts.now (codes "REFUTED ") name.number [] ∷ input_lines texts.now input.now) }
{
    add_named(alloc, b"REFUTED ", name, b"", texts, lines)?;
    add_input(alloc, input, texts, lines)
}

/// A theorem that is left undecided, or a part of it that words name, with the cause and its input.
fn add_open(
    alloc: Global,
    name: TextId,
    part: &[u8],
    verdict: &Verdict,
    texts: &Texts,
    lines: &mut Lines,
) -> Result<(), NoMemory>
    ensures { OnOk result (lines.new ≡ lines.old ++ open_lines texts.now name.number part.now verdict.now) }
{
    let mut words = Vec::new(alloc);
    add_word(part, &mut words)?;
    add_cause(verdict, texts, &mut words)?;
    add_named(alloc, b"UNDECIDED ", name, &words, texts, lines)?;
    add_cause_input(alloc, verdict, texts, lines)
}

/// Adds the words for what leaves a theorem undecided.
pub(crate) fn add_cause(
    verdict: &Verdict,
    texts: &Texts,
    words: &mut Vec<u8>,
) -> Result<(), NoMemory>
    ensures { OnOk result (words.new.items ≡ words.old.items ++ open_words texts.now verdict.now) }
{
    match verdict {
        Verdict::Uncovered(variable) => {
            add_word(b" uncovered ", words)?;
            add_word(texts.text(*variable), words)
        }
        Verdict::Clock(part, _) => add_part(b" clock ", *part, words),
        Verdict::Width(part, _) => add_part(b" width ", *part, words),
        Verdict::Steps(part, _) => add_part(b" steps ", *part, words),
        Verdict::Cells(part, _) => add_part(b" cells ", *part, words),
        Verdict::Nodes(_) => add_word(b" nodes", words),
        Verdict::Clauses(_) => add_word(b" clauses", words),
        Verdict::Memory => add_word(b" memory", words),
        Verdict::Proved | Verdict::Vacuous | Verdict::Refuted(_) => Ok(()),
    }
}

pub(crate) fn add_word(word: &[u8], words: &mut Vec<u8>) -> Result<(), NoMemory>
    ensures { OnOk result (words.new.items ≡ words.old.items ++ word.now) }
{
    words.extend_from_slice(word)?;
    Ok(())
}

/// Adds a cause, and the part of a theorem whose value it is of.
fn add_part(cause: &[u8], part: Part, words: &mut Vec<u8>) -> Result<(), NoMemory>
    ensures { OnOk result (words.new.items ≡ words.old.items ++ (cause.now ++ part_word part)) }
{
    add_word(cause, words)?;
    add_word(word_of_part(part), words)
}

/// The word for a part.
fn word_of_part(part: Part) -> &'static [u8]
    ensures { result.now ≡ part_word part }
{
    match part {
        Part::Hyp => b"hyp",
        Part::Concl => b"concl",
    }
}

/// Adds the lines of the input of what leaves a theorem undecided, where it has one.
fn add_cause_input(
    alloc: Global,
    verdict: &Verdict,
    texts: &Texts,
    lines: &mut Lines,
) -> Result<(), NoMemory>
    ensures { OnOk result (lines.new ≡ lines.old ++ input_lines texts.now (open_input verdict.now)) }
{
    match verdict {
        Verdict::Clock(_, input)
        | Verdict::Width(_, input)
        | Verdict::Steps(_, input)
        | Verdict::Cells(_, input) => add_input(alloc, input, texts, lines),
        _ => Ok(()),
    }
}

/// A line for each variable of an input.
fn add_input(
    alloc: Global,
    input: &Inputs,
    texts: &Texts,
    lines: &mut Lines,
) -> Result<(), NoMemory>
    ensures { OnOk result (lines.new ≡ lines.old ++ input_lines texts.now input.now) }
{
    lines.turn_to_input();
    for i in 0..input.len() {
        let (variable, object) = input.at(i);
        add_variable(alloc, variable, object, texts, lines)?;
    }
    Ok(())
}

/// Adds the line of a variable of an input, with its object.
fn add_variable(
    alloc: Global,
    variable: TextId,
    object: &Tree,
    texts: &Texts,
    lines: &mut Lines,
) -> Result<(), NoMemory>
    ensures { OnOk result (lines.new ≡ lines.old ++ named_line texts.now (codes "  ") variable.number (codes " = " ++ printed texts.now object.now) ∷ []) }
{
    let mut after = Vec::new(alloc);
    after.extend_from_slice(b" = ")?;
    print(alloc, object, texts, &mut after)?;
    add_named(alloc, b"  ", variable, &after, texts, lines)
}

/// Words, a name, and words.
pub(crate) fn add_named(
    alloc: Global,
    before: &[u8],
    name: TextId,
    after: &[u8],
    texts: &Texts,
    lines: &mut Lines,
) -> Result<(), NoMemory>
    ensures { OnOk result (lines.new ≡ lines.old ++ named_line texts.now before.now name.number after.now ∷ []) }
{
    let mut bytes = Vec::new(alloc);
    bytes.extend_from_slice(before)?;
    bytes.extend_from_slice(texts.text(name))?;
    let name_end = bytes.len();
    bytes.extend_from_slice(after)?;
    bytes.push(b'\n')?;
    lines.push_named(bytes, before.len(), name_end)
}
