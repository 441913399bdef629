//! Parts of a text, of whole lines.

ghost use Rattle.std.specs.Prelude.{◌≡◌, ◌≤◌, ◌<◌, ◌+◌, ℕ, length, get_or, IfOk};
ghost use Rattle.lrat_tool.specs.Parts.{AreParts};

use super::lines::line_end;
use super::piece::Piece;
use gl_logic::NoMemory;
use std::alloc::Global;

/// Where so many of some equal shares of a text end, or this end before that.
fn share_end(len: usize, shares: u32, of: u32, end: usize) -> usize
    requires { 1 ≤ of }
    ensures { result ≤ end }
{
    let share = len.saturating_mul(shares as usize) / of as usize;
    share.min(end)
}

/// The last place at or behind some place where a line ends of the text before this end, and the end where there is none.
fn cut_behind(text: &[u8], share: usize, end: usize) -> usize
    requires share { share ≤ end }
    requires end { end ≤ length text.now }
    ensures within { result ≤ end }
    ensures line { result < end → get_or text.now result 0 ≡ 10 }
{
    line_end(&text[..end], share)
}

/// Parts of a text that are about as long as each other, at most as many as workers, from the last to the first. Each is whole
/// lines, and a byte 10 stands between two of them, which is of neither.
pub(crate) fn parts_of(alloc: Global, text: &[u8], workers: u32) -> Result<Vec<Piece>, NoMemory>
    requires small { length text.now < 4294967295 }
    requires one { 1 ≤ workers }
    ensures { IfOk result (λ v. AreParts text.now v.items) }
{
    let mut parts = Vec::new(alloc);
    let mut end = text.len();
    for done in 1..workers {
        let share = share_end(text.len(), workers - done, workers, end);
        let cut = cut_behind(text, share, end);
        if cut < end {
            parts.push(Piece {
                first: cut as u32 + 1,
                end: end as u32,
            })?;
            end = cut;
        }
    }
    parts.push(Piece {
        first: 0,
        end: end as u32,
    })?;
    Ok(parts)
}
