//! Where the clause stands that a hint names: in the formula, or among the entries of the log.

ghost use Rattle.std.specs.Prelude.{◌≡◌, ◌≤◌, ◌<◌, ◌+◌, ◌^◌, ℕ, List, length, get_or};
ghost use Rattle.lrat_tool.specs.Held.{Rises, id_place, place_by};

/// Where the number stands among ascending ones, if it does: not before the first, and before the second. Numbers that follow
/// one another without a gap leave one place.
fn bounds(ids: &[u32], first: u32, id: u64) -> (usize, usize)
    requires rises { Rises first ids.now }
    requires behind { first < id }
    ensures order { result.0 ≤ result.1 }
    ensures within { result.1 ≤ length ids.now }
    ensures below { (k : ℕ) → k < result.0 → get_or ids.now k 0 < id }
    ensures above { (k : ℕ) → result.1 ≤ k → k < length ids.now → id ≤ get_or ids.now k 0 }
{
    let len = ids.len();
    if len == 0 {
        return (0, 0);
    }
    let last = u64::from(ids[len - 1]);
    if last < id {
        return (len, len);
    }
    let behind = (last - id) as usize;
    let ahead = (id - u64::from(first) - 1) as usize;
    let low = if behind < len { len - 1 - behind } else { 0 };
    let high = if ahead < len { ahead } else { len };
    (low, high)
}

/// The place of an entry by its number, 0 where there is none.
fn place_of_id(ids: &[u32], first: u32, id: u64) -> u32
    requires rises { Rises first ids.now }
    requires behind { first < id }
    ensures { result ≡ id_place (first + 1) ids.now id }
{
    let (mut low, mut high) = bounds(ids, first, id);
    while low < high {
        let middle = low + (high - low) / 2;
        if u64::from(ids[middle]) < id {
            low = middle + 1;
        } else {
            high = middle;
        }
    }
    if low < ids.len() && u64::from(ids[low]) == id {
        first + 1 + low as u32
    } else {
        0
    }
}

/// The place of the clause of a number, 0 where there is none.
pub(crate) fn place_of(ids: &[u32], first: u32, number: u32) -> u32
    requires { Rises first ids.now }
    ensures { result ≡ place_by first ids.now number }
{
    if number <= first {
        number
    } else {
        place_of_id(ids, first, u64::from(number))
    }
}
