//! The texts of a refutation: a book's first clauses as DIMACS writes them, and its log as LRAT does.

ghost use Rattle.std.specs.Prelude.{◌≡◌, ◌≤◌, ◌+◌, [], ◌∷◌, ◌++◌, true, false, map, take, OnOk, OnErr, IfSome};
ghost use Rattle.std.specs.List.{join_with_byte, list_any};
ghost use Rattle.cnf_rup.specs.Books.{first_clauses, is_empty, log_of};
ghost use Rattle.sexp_print.specs.Printed.{BeginsWith};
ghost use Rattle.lrat_tool.specs.Judgements.{judgement};
ghost use Rattle.cnf_rup.specs.Refutations.{IsRefutation};
ghost use Rattle.lrat_tool.specs.Written.{clause_words, cnf_lines, empty_entry, empty_number, entries_words, entry_words, greatest_of, greatest_variable, header_words, hint_words, line_of, log_lines, text_of};
ghost use Rattle.lrat_tool.specs.declared.judgement.Judgement.TheVariants.{Verified};

use cnf_rup::{Clause, ClauseBook, Entry, Hints};
use gl_logic::NoMemory;
use itoa::{Buffer, Integer};

/// Appends the text of a book's first clauses in DIMACS: the header `p cnf V C`, where V is the greatest variable of the
/// clauses and C their number, and a line for each clause. Where memory runs out nothing is appended.
pub fn cnf_text(book: &ClauseBook, out: &mut Vec<u8>) -> Result<(), NoMemory>
    requires { IsRefutation book.now }
    ensures written { OnOk result (out.new.items ≡ out.old.items ++ cnf_lines book.now) }
    ensures refused { OnErr result (out.new.items ≡ out.old.items) }
{
    let before = out.len();
    let written = append_formula(book, out);
    taken_back(written, before, out)
}

/// Appends the text of a book's log in LRAT: a line for each entry, whose number is its place in the book. Where a first
/// clause is empty it is one line, of the empty clause with that clause's number as its hint. The judgement on this text and
/// that of [`cnf_text`] is [`crate::Judgement::Verified`]. Where memory runs out nothing is appended.
pub fn log_text(book: &ClauseBook, out: &mut Vec<u8>) -> Result<(), NoMemory>
    requires { IsRefutation book.now }
    ensures written { OnOk result (out.new.items ≡ out.old.items ++ log_lines book.now) }
    ensures verified { OnOk result (judgement (cnf_lines book.now) (log_lines book.now) ≡ Verified) }
    ensures refused { OnErr result (out.new.items ≡ out.old.items) }
{
    let before = out.len();
    let written = append_log(book, out);
    taken_back(written, before, out)
}

/// Takes back what stands behind the first bytes where memory ran out.
fn taken_back(
    written: Result<(), NoMemory>,
    before: usize,
    out: &mut Vec<u8>,
) -> Result<(), NoMemory>
    ensures answer { result ≡ written }
    ensures ok { OnOk result (out.new.items ≡ out.old.items) }
    ensures err { OnErr result (out.new.items ≡ take before out.old.items) }
{
    if written.is_err() {
        out.truncate(before);
    }
    written
}

// ---- the formula

/// The formula of a book: its header, and its first clauses.
#[tactic(auto, using(sexp_print::proofs::Begins::begins_behind))]
fn append_formula(book: &ClauseBook, out: &mut Vec<u8>) -> Result<(), NoMemory>
    ensures ok { OnOk result (out.new.items ≡ out.old.items ++ cnf_lines book.now) }
    ensures err { OnErr result (BeginsWith out.old.items out.new.items) }
{
    append_header(greatest_variable(book), book.first_count(), out)?;
    append_clauses(book, out)
}

/// The greatest variable of the first clauses, or 0 where they have none.
fn greatest_variable(book: &ClauseBook) -> u32
    ensures { result ≡ greatest_variable (first_clauses book.now) }
{
    let mut most = 0;
    for place in 0..book.first_count() {
        most = most.max(greatest_of(book.clause(place + 1)));
    }
    most
}

/// The greatest variable of a clause, 0 of the empty one.
fn greatest_of(clause: &Clause) -> u32
    ensures { result ≡ greatest_of clause.now }
{
    let mut most = 0;
    for literal in clause.as_slice() {
        most = most.max(literal.unsigned_abs());
    }
    most
}

/// The first line of a formula.
#[tactic(auto, using(sexp_print::proofs::Begins::begins_behind))]
fn append_header(variables: u32, clauses: u32, out: &mut Vec<u8>) -> Result<(), NoMemory>
    ensures ok { OnOk result (out.new.items ≡ out.old.items ++ line_of (header_words variables clauses)) }
    ensures err { OnErr result (BeginsWith out.old.items out.new.items) }
{
    out.extend_from_slice(b"p cnf ")?;
    append_number(variables, out)?;
    append_digits(clauses, out)?;
    out.push(b'\n')?;
    Ok(())
}

/// The first clauses, a line each.
fn append_clauses(book: &ClauseBook, out: &mut Vec<u8>) -> Result<(), NoMemory>
    ensures ok { OnOk result (out.new.items ≡ out.old.items ++ text_of (map clause_words (first_clauses book.now))) }
    ensures err { OnErr result (BeginsWith out.old.items out.new.items) }
{
    for place in 0..book.first_count() {
        append_clause_line(book.clause(place + 1), out)?;
    }
    Ok(())
}

/// The line of a clause in a formula.
#[tactic(auto, using(sexp_print::proofs::Begins::begins_behind, sexp_print::proofs::Begins::begins_put))]
fn append_clause_line(clause: &Clause, out: &mut Vec<u8>) -> Result<(), NoMemory>
    ensures ok { OnOk result (out.new.items ≡ out.old.items ++ line_of (clause_words clause.now)) }
    ensures err { OnErr result (BeginsWith out.old.items out.new.items) }
{
    append_clause(clause, out)?;
    out.push(b'\n')?;
    Ok(())
}

// ---- the log

/// The log of a book: where a first clause is empty, one entry that names it; else all learned clauses.
fn append_log(book: &ClauseBook, out: &mut Vec<u8>) -> Result<(), NoMemory>
    requires { book.now.first ≤ 100000000 }
    ensures ok { OnOk result (out.new.items ≡ out.old.items ++ log_lines book.now) }
    ensures err { OnErr result (BeginsWith out.old.items out.new.items) }
{
    match empty_clause(book) {
        Some(number) => append_empty_line(book.first_count() + 1, number, out),
        None => append_entries(book, out),
    }
}

/// The number of the first of the first clauses that is empty.
fn empty_clause(book: &ClauseBook) -> Option<u32>
    ensures none { result ≡ None → list_any is_empty (first_clauses book.now) ≡ false }
    ensures some { IfSome result (λ n. (list_any is_empty (first_clauses book.now) ≡ true) × (n ≡ empty_number (first_clauses book.now))) }
{
    for place in 0..book.first_count() {
        if book.clause(place + 1).len() == 0 {
            return Some(place + 1);
        }
    }
    None
}

/// The entry of the empty clause, with one hint.
#[tactic(auto, using(sexp_print::proofs::Begins::begins_behind, sexp_print::proofs::Begins::begins_trans))]
fn append_empty_line(id: u32, hint: u32, out: &mut Vec<u8>) -> Result<(), NoMemory>
    ensures ok { OnOk result (out.new.items ≡ out.old.items ++ line_of (entry_words id (empty_entry hint))) }
    ensures err { OnErr result (BeginsWith out.old.items out.new.items) }
{
    append_number(id, out)?;
    out.extend_from_slice(b"0 ")?;
    append_number(hint, out)?;
    out.extend_from_slice(b"0\n")?;
    Ok(())
}

/// The learned clauses with their hints, a line each.
fn append_entries(book: &ClauseBook, out: &mut Vec<u8>) -> Result<(), NoMemory>
    ensures ok { OnOk result (out.new.items ≡ out.old.items ++ text_of (entries_words (book.now.first + 1) (log_of book.now))) }
    ensures err { OnErr result (BeginsWith out.old.items out.new.items) }
{
    for place in book.first_count()..book.count() {
        append_entry_line(place + 1, book.entry(place + 1), out)?;
    }
    Ok(())
}

/// The line of an entry: its id, its literals, its hints.
#[tactic(auto, using(sexp_print::proofs::Begins::begins_behind, sexp_print::proofs::Begins::begins_trans))]
fn append_entry_line(id: u32, entry: &Entry, out: &mut Vec<u8>) -> Result<(), NoMemory>
    ensures ok { OnOk result (out.new.items ≡ out.old.items ++ line_of (entry_words id entry.now)) }
    ensures err { OnErr result (BeginsWith out.old.items out.new.items) }
{
    append_number(id, out)?;
    append_clause(&entry.clause, out)?;
    out.push(b' ')?;
    append_hints(&entry.hints, out)?;
    out.push(b'\n')?;
    Ok(())
}

// ---- numbers

/// The literals of a clause, and the 0 that ends them.
fn append_clause(clause: &Clause, out: &mut Vec<u8>) -> Result<(), NoMemory>
    ensures ok { OnOk result (out.new.items ≡ out.old.items ++ join_with_byte 32 (clause_words clause.now)) }
    ensures err { OnErr result (BeginsWith out.old.items out.new.items) }
{
    for literal in clause.as_slice() {
        append_number(*literal, out)?;
    }
    out.push(b'0')?;
    Ok(())
}

/// The hints of an entry, and the 0 that ends them.
fn append_hints(hints: &Hints, out: &mut Vec<u8>) -> Result<(), NoMemory>
    ensures ok { OnOk result (out.new.items ≡ out.old.items ++ join_with_byte 32 (hint_words hints.now)) }
    ensures err { OnErr result (BeginsWith out.old.items out.new.items) }
{
    for hint in hints.as_slice() {
        append_number(*hint, out)?;
    }
    out.push(b'0')?;
    Ok(())
}

/// Appends a number and a blank.
#[tactic(auto, using(sexp_print::proofs::Begins::begins_put))]
fn append_number<I: Integer>(number: I, out: &mut Vec<u8>) -> Result<(), NoMemory>
    ensures ok { OnOk result (out.new.items ≡ out.old.items ++ (I.text number ++ 32 ∷ [])) }
    ensures err { OnErr result (BeginsWith out.old.items out.new.items) }
{
    append_digits(number, out)?;
    out.push(b' ')?;
    Ok(())
}

/// A number in decimal.
fn append_digits<I: Integer>(number: I, out: &mut Vec<u8>) -> Result<(), NoMemory>
    ensures ok { OnOk result (out.new.items ≡ out.old.items ++ I.text number) }
    ensures err { OnErr result (out.new.items ≡ out.old.items) }
{
    let mut digits = Buffer::new();
    out.extend_from_slice(digits.format(number).as_bytes())?;
    Ok(())
}
