//! Objects by their elements and what stands behind them.

ghost use Rattle.std.specs.Prelude.{◌≡◌, IfOk};
ghost use Rattle.gl_logic.specs.Lists.{conses};
ghost use Rattle.gl_logic.specs.Object.{Cons};

use gl_logic::{NoMemory, Tree};
use std::alloc::Global;

/// The conses of copies of elements, from the last to the first, onto a copy of what stands behind them.
pub(crate) fn listed_tree(alloc: Global, elements: &[Tree], tail: &Tree) -> Result<Tree, NoMemory>
    ensures { IfOk result (λ t. t ≡ conses elements.now tail.now) }
{
    let mut all = tail.copy(alloc)?;
    for element in elements {
        all = pair_copy(alloc, element, all)?;
    }
    Ok(all)
}

/// The cons of a copy of an object and another.
fn pair_copy(alloc: Global, first: &Tree, rest: Tree) -> Result<Tree, NoMemory>
    ensures { IfOk result (λ t. t ≡ Cons first.now rest) }
{
    let copied = first.copy(alloc)?;
    Tree::pair(alloc, copied, rest)
}
