//! Words that spell numbers.

ghost use Rattle.std.specs.Prelude.{◌≡◌, ◌≤◌, ◌<◌, ◌^◌, ◌||◌, ℕ, min, if◌then◌else◌, Some, None, IfSome, length, option_map, bytes_eq, codes};
ghost use Rattle.std.specs.List.{list_all};
ghost use Rattle.std.specs.Str.Parse.{digits_value};
ghost use Rattle.lrat_tool.specs.Numbers.{integer_said, integer_within, is_digit, natural_said, natural_within};
ghost use Rattle.lrat_tool.specs.HintWords.{held_hint, hint_of, is_below};

/// One more than the greatest id: greater numbers are not told apart.
const BEYOND: u64 = 4_294_967_296;

/// What a hint says.
#[derive(Clone, Copy, Debug, PartialEq, Eq)]
pub(crate) enum Hint {
    /// A number below 0.
    Below,
    /// A number from 0 on, or 4,294,967,296 where it is greater.
    Number(u64),
}

impl Hint {
    /// Whether the number is below 0, or another was.
    pub(crate) fn or_below(&self, before: bool) -> bool
        ensures { result ≡ (before || is_below self.now) }
    {
        match self {
            Hint::Below => true,
            Hint::Number(_) => before,
        }
    }

    /// What is held of it: its number, or 0, which names no clause, where it is below 0 or greater than each id.
    pub(crate) fn held(&self) -> u32
        ensures { result ≡ held_hint self.now }
    {
        match self {
            Hint::Number(n) if *n < BEYOND => *n as u32,
            _ => 0,
        }
    }
}

fn is_digit(byte: u8) -> bool
    ensures { result ≡ is_digit byte }
{
    b'0' <= byte && byte <= b'9'
}

/// The number that digits spell, or 4,294,967,296 where it is greater.
fn digits(word: &[u8]) -> Option<u64>
    ensures { result ≡ (if list_all is_digit word.now then Some (min (digits_value 10 word.now) 4294967296) else None) }
{
    let mut value: u64 = 0;
    for byte in word {
        if !is_digit(*byte) {
            return None;
        }
        value = (value * 10 + u64::from(*byte - b'0')).min(BEYOND);
    }
    Some(value)
}

/// The number of a word, or 4,294,967,296 where it is greater.
fn numeral(word: &[u8]) -> Option<u64>
    ensures { result ≡ option_map (λ n. min n 4294967296) (natural_said word.now) }
{
    match word {
        [] => None,
        [b'0', _, ..] => None,
        _ => digits(word),
    }
}

/// The number of a word, where it is at most so great.
pub(crate) fn natural(word: &[u8], most: u32) -> Option<u32>
    ensures value { result ≡ natural_within most word.now }
    ensures most { IfSome result (λ n. n ≤ most) }
{
    match numeral(word) {
        Some(n) if n <= u64::from(most) => Some(n as u32),
        _ => None,
    }
}

/// The integer of a word, where its size is at most so great.
pub(crate) fn integer(word: &[u8], most: u32) -> Option<i32>
    requires { most < 2 ^ 31 }
    ensures { result ≡ integer_within most word.now }
{
    match word {
        [b'-', size @ ..] => match natural(size, most) {
            None | Some(0) => None,
            Some(n) => Some(-(n as i32)),
        },
        _ => match natural(word, most) {
            None => None,
            Some(n) => Some(n as i32),
        },
    }
}

/// The hint of a word.
pub(crate) fn read_hint(word: &[u8]) -> Option<Hint>
    ensures { result ≡ option_map hint_of (integer_said word.now) }
{
    match word {
        [b'-', size @ ..] => match numeral(size) {
            None | Some(0) => None,
            Some(_) => Some(Hint::Below),
        },
        _ => match numeral(word) {
            None => None,
            Some(n) => Some(Hint::Number(n)),
        },
    }
}

/// Whether a word is 0.
pub(crate) fn is_zero(word: &[u8]) -> bool
    ensures { result ≡ bytes_eq word.now (codes "0") }
{
    match word {
        [b'0'] => true,
        _ => false,
    }
}
