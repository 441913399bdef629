//! An integer in three bases.

ghost use Rattle.std.specs.Prelude.{◌≡◌, ◌<◌, ◌≤◌, ◌++◌, ◌-◌, unsigned_abs, MatchOption};
ghost use Rattle.std.specs.Char.{digit_value};
ghost use Rattle.std.specs.Int.{leading_zeros, w128};
ghost use Rattle.std.specs.Str.Parse.{signed_digits_value};
ghost use Rattle.explain_report.specs.Bases.{IsInteger, PutsNumber, PutsInBases, PutsCells, MayPutDifference, PutsObject, minus};
ghost use Rattle.explain_report.specs.Said.{Says, Adds};

use crate::html::put_text;
use crate::report::Report;

/// The integer that a text in decimal is.
#[tactic(auto, using(crate::proofs::Integers::is_utf8))]
fn integer_of(text: &[u8]) -> Option<i128>
    ensures { MatchOption result (¬ IsInteger text.now) (λ z. IsInteger text.now × (z ≡ signed_digits_value 10 text.now)) }
{
    let Ok(digits) = str::from_utf8(text) else {
        return None;
    };
    digits.parse::<i128>().ok()
}

/// The digit of a number below 16.
fn digit_of(number: u8) -> u8
    requires { number < 16 }
    ensures { digit_value result ≡ number }
{
    if number < 10 {
        48 + number
    } else {
        55 + number
    }
}

/// Puts a number in a base, with so many digits at least.
#[tactic(auto, using(crate::proofs::Numbers::digit_behind, crate::proofs::Numbers::digit_alone))]
fn put_digits(report: &mut Report, base: u128, least: usize, number: u128)
    requires some { 2 ≤ base }
    requires most { base ≤ 16 }
    ensures { Says (PutsNumber base number) report.old report.new }
{
    if base <= number || 1 < least {
        put_digits(report, base, least.saturating_sub(1), number / base);
    }
    report.text(&[digit_of((number % base) as u8)]);
}

/// Puts the minus of an integer below zero.
fn put_minus(report: &mut Report, integer: i128)
    ensures { Adds (minus integer) report.old report.new }
{
    if integer < 0 {
        report.text(b"-");
    } else {
        report.text(b"");
    }
}

/// How many bits the integer that a text in decimal is has without its sign; 0 of another text.
pub fn integer_bits(text: &[u8]) -> usize
    ensures integer { IsInteger text.now → result ≡ 128 - leading_zeros w128 (unsigned_abs (signed_digits_value 10 text.now)) }
    ensures other { ¬ IsInteger text.now → result ≡ 0 }
{
    match integer_of(text) {
        Some(integer) => 128_u32.saturating_sub(integer.unsigned_abs().leading_zeros()) as usize,
        None => 0,
    }
}

/// Puts on a line, so far indented, in which of so many bits two integers of one sign differ.
pub fn put_difference(report: &mut Report, one: &[u8], other: &[u8], bits: usize, indent: usize)
    ensures { Says (MayPutDifference indent one.now other.now) report.old report.new }
{
    let (Some(one), Some(other)) = (integer_of(one), integer_of(other)) else {
        return;
    };
    if one == other || (one < 0) != (other < 0) {
        return;
    }
    report.times(indent, b' ');
    report.say("the bits that differ: #b");
    put_digits(report, 2, bits, one.unsigned_abs() ^ other.unsigned_abs());
    report.say("\n");
}

/// Puts two texts, the minus and the hexadecimal digits of an integer, another text, and the minus and the binary digits, of the
/// latter at least so many.
fn put_in_both(
    report: &mut Report,
    first: &[u8],
    front: &[u8],
    between: &[u8],
    integer: i128,
    bits: usize,
)
    ensures { Says (PutsInBases integer (first.now ++ front.now) between.now) report.old report.new }
{
    report.text(first);
    report.text(front);
    put_minus(report, integer);
    put_digits(report, 16, 1, integer.unsigned_abs());
    report.text(between);
    put_minus(report, integer);
    put_digits(report, 2, bits, integer.unsigned_abs());
}

/// Puts cells of a table with an integer, whose text in decimal this is, and so many binary digits at least.
fn put_cells(report: &mut Report, text: &[u8], integer: i128, bits: usize)
    requires { integer ≡ signed_digits_value 10 text.now }
    ensures { Says (PutsCells text.now) report.old report.new }
{
    report.text(b"<td>");
    put_in_both(report, text, b"</td><td>#x", b"</td><td>#b", integer, bits);
    report.text(b"</td>");
}

/// Puts one cell of a table with an object that is no integer.
fn put_object(report: &mut Report, object: &[u8]) {
    report.say("<td colspan=\"3\">");
    put_text(report, object);
    report.say("</td>");
}

/// Cells of a table with an integer in decimal, hexadecimal and binary, of so many digits at least; one cell with another object.
pub(crate) fn put_bases(report: &mut Report, object: &[u8], bits: usize)
    ensures { IsInteger object.now → Says (PutsCells object.now) report.old report.new }
{
    match integer_of(object) {
        Some(integer) => put_cells(report, object, integer, bits),
        None => put_object(report, object),
    }
}

/// An object; of an integer behind it hexadecimal and binary digits, of the latter at least so many.
pub fn put_in_bases(report: &mut Report, object: &[u8], bits: usize)
    // What stands behind an integer denotes the same integer.
    ensures bases { Says (PutsObject object.now) report.old report.new }
{
    match integer_of(object) {
        Some(integer) => put_in_both(report, object, b" = #x", b" = #b", integer, bits),
        None => report.text(object),
    }
}
