//! The words of the command line.

ghost use Rattle.std.specs.Prelude.{◌≡◌, ◌≢◌, true, map, string_bytes, [], codes, IfOk, IfSome, IsErrOf, option_map};
ghost use Rattle.clap.specs.Words.{app_of, with_rule, rule_of, fault_of, is_simple, is_simple_and_free, found_of, rows_of, matches_of, first_of};
ghost use Rattle.gl_words.specs.Words.{gl_app, plain_app, option_rule, command_from, source_from};
ghost use Rattle.gl_words.specs.CommandOf.{command_seen, source_seen, IsFew};

use clap::error::ErrorKind as ClapKind;
use clap::{Arg, ArgAction, ArgMatches};
use command_line::{WordsEnd, limits_of, number_in, text_of};
use gl_base::limits::Limits;
use std::alloc::{AllocError, Global};

/// Where the bytes of a book come from.
#[derive(Clone, Copy, Debug, PartialEq, Eq)]
pub enum Source<'a> {
    /// The book of a name.
    Book(&'a str),
    /// So many theorems of the generator.
    Generated(u32),
}

/// A command: the limits of its run, and where its book comes from.
#[derive(Clone, Copy, Debug, PartialEq, Eq)]
pub struct Command<'a> {
    pub limits: Limits,
    pub source: Source<'a>,
}

pub(crate) fn with_option<'a>(
    alloc: Global,
    command: clap::Command<'a>,
    name: &'a str,
) -> Result<clap::Command<'a>, AllocError>
    ensures { IfOk result (λ c. app_of c ≡ with_rule (app_of command.entry) (option_rule name.entry.now)) }
{
    let option = Arg::new(alloc, name).long(name).action(ArgAction::Set);
    command.arg(option)
}

#[tactic(auto, unfolding(crate::specs::Words::plain_app))]
fn plain_command<'a>(alloc: Global) -> Result<clap::Command<'a>, AllocError>
    ensures { IfOk result (λ c. app_of c ≡ plain_app) }
{
    let command = clap::Command::new(alloc, "gl");
    let command = with_option(alloc, command, "workers")?;
    let command = with_option(alloc, command, "steps")?;
    let command = with_option(alloc, command, "cells")?;
    let command = with_option(alloc, command, "nodes")?;
    let command = with_option(alloc, command, "clauses")?;
    let command = with_option(alloc, command, "enum-bits")?;
    let command = with_option(alloc, command, "generate")?;
    let command = with_option(alloc, command, "proof")?;
    command.arg(Arg::new(alloc, "BOOK"))
}

#[tactic(auto, unfolding(crate::specs::Words::gl_app))]
fn simple_command<'a>(alloc: Global) -> Result<clap::Command<'a>, AllocError>
    ensures { IfOk result (λ c. app_of c ≡ gl_app) }
{
    let command = plain_command(alloc)?;
    Ok(
        command
            .no_binary_name(true)
            .disable_help_flag(true)
            .disable_version_flag(true),
    )
}

/// A law: the command is simple, so what its words mean is known.
#[tactic(auto, unfolding(crate::specs::Words::gl_app, crate::specs::Words::plain_app))]
fn is_known()
    ensures free { is_simple_and_free gl_app ≡ true }
    ensures simple { is_simple gl_app ≡ true }
{}

/// What the words give to each option.
///
/// What words mean is `clap`'s meaning of eight options that each take one value, and one optional positional.
pub(crate) fn matched<'a>(alloc: Global, words: &'a [String]) -> Result<ArgMatches<'a>, WordsEnd>
    ensures usage { IsErrOf result WordsEnd.Usage → fault_of gl_app (map string_bytes words.entry.now) ≢ [] }
    ensures exact { IfOk result (λ m. fault_of gl_app (map string_bytes words.entry.now) ≡ []) }
    ensures rows { IfOk result (λ m. rows_of (found_of m) ≡ matches_of gl_app (map string_bytes words.entry.now)) }
    ensures text { result ≢ Err WordsEnd.NoText }
{
    is_known();
    let Ok(command) = simple_command(alloc) else {
        return Err(WordsEnd::Memory);
    };
    matched_by(command, words)
}

/// What the words give to each option of a simple command.
pub(crate) fn matched_by<'a>(
    command: clap::Command<'a>,
    words: &'a [String],
) -> Result<ArgMatches<'a>, WordsEnd>
    requires free { is_simple_and_free (app_of command) ≡ true }
    requires simple { is_simple (app_of command) ≡ true }
    ensures usage { IsErrOf result WordsEnd.Usage → fault_of (app_of command.entry) (map string_bytes words.entry.now) ≢ [] }
    ensures exact { IfOk result (λ m. fault_of (app_of command.entry) (map string_bytes words.entry.now) ≡ []) }
    ensures rows { IfOk result (λ m. rows_of (found_of m) ≡ matches_of (app_of command.entry) (map string_bytes words.entry.now)) }
    ensures text { result ≢ Err WordsEnd.NoText }
{
    match command.try_get_matches_from(words) {
        Ok(matches) => Ok(matches),
        Err(error) => {
            if error.kind() == ClapKind::OutOfMemory {
                Err(WordsEnd::Memory)
            } else {
                Err(WordsEnd::Usage)
            }
        }
    }
}

/// Where the book comes from: exactly one of a book and a number of theorems is there.
fn source_of<'a>(matches: &ArgMatches<'a>) -> Option<Source<'a>>
    ensures source { option_map source_seen result ≡ source_from (first_of (codes "BOOK") (rows_of (found_of matches.now))) (first_of (codes "generate") (rows_of (found_of matches.now))) }
    ensures most { IfSome result IsFew }
{
    match (text_of(matches, "BOOK"), text_of(matches, "generate")) {
        (Some(name), None) => Some(Source::Book(name)),
        (None, Some(text)) => Some(Source::Generated(number_in(text, 0, 10_000)?)),
        _ => None,
    }
}

/// The command that matches make: exactly one of the positional and `--generate` has to be there, and each number is one to
/// eight decimal digits in its range.
pub(crate) fn command_in<'a>(matches: &ArgMatches<'a>) -> Option<Command<'a>>
    ensures command { option_map command_seen result ≡ command_from (rows_of (found_of matches.now)) }
    ensures few { IfSome result (λ c. IsFew c.source) }
{
    let limits = limits_of(matches)?;
    let source = source_of(matches)?;
    Some(Command { limits, source })
}
