//! What the words of the command line ask for.

ghost use Rattle.std.specs.Prelude.{◌≡◌, ◌≢◌, ◌<◌, ◌≤◌, true, map, string_bytes, [], codes, length, IfOk, IfSome, IsErrOf, option_map};
ghost use Rattle.clap.specs.Words.{app_of, with_rule, new_rule, fault_of, is_simple, is_simple_and_free, found_of, rows_of, matches_of};
ghost use Rattle.gl_decide.specs.Bounds.{bounds_of};
ghost use Rattle.gl_words.specs.Words.{command_of, is_lrat, judge_from, judge_of, lrat_app, order_by, order_from, order_of, part_named, plain_lrat_app, proof_from};
ghost use Rattle.gl_words.specs.CommandOf.{command_seen, order_seen, source_seen, IsFew, IsWithin};

use crate::proof_part::ProofPart;
use crate::words::{Command, Source, command_in, matched, matched_by, with_option};
use clap::{Arg, ArgMatches};
use command_line::{WordsEnd, number_of, text_of};
use gl_base::limits::Limits;
use gl_logic::NoMemory;
use std::alloc::{AllocError, Global};

/// The texts that are judged, and by how many workers.
#[derive(Clone, Copy, Debug, PartialEq, Eq)]
pub struct Pair<'a> {
    pub workers: u32,
    /// The name of the formula's text.
    pub cnf: &'a str,
    /// The name of the log's text.
    pub log: &'a str,
}

/// The proof of which book is written, by which limits it is found, and which of its texts.
#[derive(Clone, Copy, Debug, PartialEq, Eq)]
pub struct Proof<'a> {
    pub limits: Limits,
    /// The name of the book.
    pub name: &'a str,
    pub part: ProofPart,
}

/// What words ask for.
#[derive(Clone, Copy, Debug, PartialEq, Eq)]
pub enum Order<'a> {
    /// The transcript of a command.
    Transcript(Command<'a>),
    /// A text of the proof of a book's last theorem.
    Proof(Proof<'a>),
    /// The judgement on a formula and a log.
    Judge(Pair<'a>),
}

fn with_name<'a>(
    alloc: Global,
    command: clap::Command<'a>,
    name: &'a str,
) -> Result<clap::Command<'a>, AllocError>
    ensures { IfOk result (λ c. app_of c ≡ with_rule (app_of command.entry) (new_rule name.entry.now)) }
{
    command.arg(Arg::new(alloc, name))
}

#[tactic(auto, unfolding(crate::specs::Words::plain_lrat_app))]
fn plain_lrat_command<'a>(alloc: Global) -> Result<clap::Command<'a>, AllocError>
    ensures { IfOk result (λ c. app_of c ≡ plain_lrat_app) }
{
    let command = clap::Command::new(alloc, "lrat");
    let command = with_option(alloc, command, "workers")?;
    let command = with_name(alloc, command, "CNF")?;
    with_name(alloc, command, "LOG")
}

#[tactic(auto, unfolding(crate::specs::Words::lrat_app))]
fn lrat_command<'a>(alloc: Global) -> Result<clap::Command<'a>, AllocError>
    ensures { IfOk result (λ c. app_of c ≡ lrat_app) }
{
    let command = plain_lrat_command(alloc)?;
    Ok(
        command
            .no_binary_name(true)
            .disable_help_flag(true)
            .disable_version_flag(true),
    )
}

/// A law: the command behind `lrat` is simple, so what its words mean is known.
#[tactic(auto, unfolding(crate::specs::Words::lrat_app, crate::specs::Words::plain_lrat_app))]
fn is_lrat_known()
    ensures free { is_simple_and_free lrat_app ≡ true }
    ensures simple { is_simple lrat_app ≡ true }
{}

/// What the words behind `lrat` give.
fn matched_behind_lrat<'a>(alloc: Global, words: &'a [String]) -> Result<ArgMatches<'a>, WordsEnd>
    ensures usage { IsErrOf result WordsEnd.Usage → fault_of lrat_app (map string_bytes words.entry.now) ≢ [] }
    ensures exact { IfOk result (λ m. fault_of lrat_app (map string_bytes words.entry.now) ≡ []) }
    ensures rows { IfOk result (λ m. rows_of (found_of m) ≡ matches_of lrat_app (map string_bytes words.entry.now)) }
    ensures text { result ≢ Err WordsEnd.NoText }
{
    is_lrat_known();
    let Ok(command) = lrat_command(alloc) else {
        return Err(WordsEnd::Memory);
    };
    matched_by(command, words)
}

fn judging_in<'a>(matches: &ArgMatches<'a>) -> Option<Order<'a>>
    ensures order { option_map order_seen result ≡ judge_from (rows_of (found_of matches.now)) }
    ensures within { IfSome result IsWithin }
{
    let workers = number_of(matches, "workers", 1, 1, 8)?;
    let cnf = text_of(matches, "CNF")?;
    let log = text_of(matches, "LOG")?;
    Some(Order::Judge(Pair { workers, cnf, log }))
}

/// What the words behind `lrat` ask for.
fn judging_named<'a>(alloc: Global, words: &'a [String]) -> Result<Option<Order<'a>>, NoMemory>
    ensures order { IfOk result (λ r. option_map order_seen r ≡ judge_of (map string_bytes words.entry.now)) }
    ensures within { IfOk result (λ r. IfSome r IsWithin) }
{
    match matched_behind_lrat(alloc, words) {
        Ok(matches) => Ok(judging_in(&matches)),
        Err(WordsEnd::Usage) => Ok(None),
        Err(_) => Err(NoMemory),
    }
}

/// The part of a proof that a text names.
fn part_named(text: &str) -> Option<ProofPart>
    ensures { result ≡ part_named text.now }
{
    if text.as_bytes() == b"cnf".as_slice() {
        Some(ProofPart::Cnf)
    } else if text.as_bytes() == b"log".as_slice() {
        Some(ProofPart::Log)
    } else {
        None
    }
}

/// A part of a proof, which is one of a book.
fn proof_of<'a>(command: &Command<'a>, part: ProofPart) -> Option<Order<'a>>
    ensures order { option_map order_seen result ≡ proof_from (source_seen command.now.source) (bounds_of command.now.limits) part }
    ensures within { IfSome result IsWithin }
{
    match command.source {
        Source::Book(name) => Some(Order::Proof(Proof {
            limits: command.limits,
            name,
            part,
        })),
        Source::Generated(_) => None,
    }
}

/// What a command asks for, with the text that stands behind `--proof`: without one a transcript.
fn order_by<'a>(proof: Option<&'a str>, command: Command<'a>) -> Option<Order<'a>>
    requires { IsFew command.source }
    ensures order { option_map order_seen result ≡ order_by (option_map (λ s. s.now) proof.entry) (command_seen command.entry) }
    ensures within { IfSome result IsWithin }
{
    match proof {
        None => Some(Order::Transcript(command)),
        Some(text) => {
            let part = part_named(text)?;
            proof_of(&command, part)
        }
    }
}

/// What words without `lrat` give.
fn order_in<'a>(matches: &ArgMatches<'a>) -> Option<Order<'a>>
    ensures order { option_map order_seen result ≡ order_from (rows_of (found_of matches.now)) }
    ensures within { IfSome result IsWithin }
{
    let command = command_in(matches)?;
    order_by(text_of(matches, "proof"), command)
}

/// What words without `lrat` ask for.
fn command_named<'a>(alloc: Global, words: &'a [String]) -> Result<Option<Order<'a>>, NoMemory>
    ensures order { IfOk result (λ r. option_map order_seen r ≡ command_of (map string_bytes words.entry.now)) }
    ensures within { IfOk result (λ r. IfSome r IsWithin) }
{
    match matched(alloc, words) {
        Ok(matches) => Ok(order_in(&matches)),
        Err(WordsEnd::Usage) => Ok(None),
        Err(_) => Err(NoMemory),
    }
}

/// Whether the first word is `lrat`.
fn is_lrat(words: &[String]) -> bool
    ensures value { result ≡ is_lrat (map string_bytes words.now) }
    ensures some { result ≡ true → 0 < length words.now }
{
    match words.first() {
        Some(word) => word.as_bytes() == b"lrat".as_slice(),
        None => false,
    }
}

/// What words ask for, where they ask for something: behind `lrat` as the first word the judgement on two texts, and else the
/// transcript of a command, or with `--proof` a text of a proof.
pub fn order_named<'a>(alloc: Global, words: &'a [String]) -> Result<Option<Order<'a>>, NoMemory>
    ensures order { IfOk result (λ r. option_map order_seen r ≡ order_of (map string_bytes words.entry.now)) }
    ensures within { IfOk result (λ r. IfSome r IsWithin) }
{
    if is_lrat(words) {
        judging_named(alloc, &words[1..])
    } else {
        command_named(alloc, words)
    }
}
