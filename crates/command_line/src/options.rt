//! The numbers that stand with options.

ghost use Rattle.std.specs.Prelude.{◌≡◌, ◌≤◌, true, IfSome, option_map, Some, nat_le, ◌&&◌};
ghost use Rattle.std.specs.List.{list_all};
ghost use Rattle.std.specs.Str.Parse.{digits_value};
ghost use Rattle.clap.specs.Words.{found_of, rows_of, first_of};
ghost use Rattle.command_line.specs.Options.{is_number as says_number, number_within, option_number, settings_from, settings_seen};

use clap::ArgMatches;
use gl_base::limits::Limits;

/// Whether each byte is a decimal digit.
fn are_digits(text: &[u8]) -> bool
    ensures { result ≡ list_all (λ b. nat_le 48 b && nat_le b 57) text.now }
{
    text.iter().all(|b| 48 <= *b && *b <= 57)
}

/// Whether a text is one to eight decimal digits.
fn is_number(text: &[u8]) -> bool
    ensures { result ≡ says_number text.now }
{
    let some = !text.is_empty();
    let few = text.len() <= 8;
    some && (few && are_digits(text))
}

/// The number of one to eight decimal digits.
fn number_that(text: &str) -> Option<u32>
    requires { says_number text.now ≡ true }
    ensures { result ≡ Some (digits_value 10 text.now) }
{
    text.parse::<u32>().ok()
}

/// The number of a text of one to eight decimal digits, where it lies in a range.
pub fn number_in(text: &str, least: u32, most: u32) -> Option<u32>
    ensures meant { result ≡ number_within least most text.now }
    ensures range { IfSome result (λ n. (least ≤ n) × (n ≤ most)) }
{
    if !is_number(text.as_bytes()) {
        return None;
    }
    let number = number_that(text)?;
    if least <= number && number <= most {
        Some(number)
    } else {
        None
    }
}

/// The text that stands with an option, or in the place of a positional.
pub fn text_of<'a>(matches: &ArgMatches<'a>, id: &str) -> Option<&'a str>
    ensures { option_map (λ s. s.now) result ≡ first_of id.now (rows_of (found_of matches.now)) }
{
    matches.get_str(id)
}

/// The number of an option, which is one to eight decimal digits in its range: its usual one where the option is not there.
pub fn number_of(
    matches: &ArgMatches,
    option: &str,
    usual: u32,
    least: u32,
    most: u32,
) -> Option<u32>
    requires low { least ≤ usual }
    requires high { usual ≤ most }
    ensures meant { result ≡ option_number usual least most (first_of option.now (rows_of (found_of matches.now))) }
    ensures range { IfSome result (λ n. (least ≤ n) × (n ≤ most)) }
{
    match text_of(matches, option) {
        Some(text) => number_in(text, least, most),
        None => Some(usual),
    }
}

/// The limits of a run, where each option is in its range.
pub fn limits_of(matches: &ArgMatches) -> Option<Limits>
    ensures { option_map settings_seen result ≡ settings_from (rows_of (found_of matches.now)) }
{
    let workers = number_of(matches, "workers", 1, 1, 8)?;
    let steps = number_of(matches, "steps", 10_000_000, 1, 99_999_999)?;
    let cells = number_of(matches, "cells", 1_000_000, 1000, 4_000_000)?;
    let nodes = number_of(matches, "nodes", 1_000_000, 100, 4_000_000)?;
    let clauses = number_of(matches, "clauses", 100_000, 1, 1_000_000)?;
    let enum_bits = number_of(matches, "enum-bits", 12, 0, 16)?;
    Some(Limits {
        steps,
        cells,
        nodes,
        clauses,
        enum_bits: enum_bits as u8,
        workers: workers as u8,
    })
}
