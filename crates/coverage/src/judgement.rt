//! The judgement over all bindings.

ghost use Rattle.std.specs.Prelude.{◌≡◌, IfOk, map};
ghost use Rattle.std.specs.Option.{option_map};
ghost use Rattle.gl_logic.specs.TermOf.{term_of};
ghost use Rattle.shape_spec.specs.ShapeOf.{shape_of};
ghost use Rattle.coverage.specs.Conjuncts.{conjuncts};
ghost use Rattle.coverage.specs.Covered.{lacks_cover, first_uncovered};

use super::conjuncts::add_conjuncts;
use super::free::is_free;
use super::shapes::is_covered;
use super::subject::Subject;
use gl_logic::{NoMemory, Term, TextId};
use shape_spec::{Bindings, Shape};
use std::alloc::Global;

/// The first bound variable, in the order of the bindings, that is free in the hypothesis or in the
/// conclusion and that the hypothesis does not keep within its shape; none where each is covered.
///
/// The conjuncts of `(if a b nil)` are those of a and of b, and any other term is its own. They are read as
/// they are written, and nothing is evaluated. With s for the variable, or for a part of it:
///
/// - an integer of n indices, from lo = -2^(n-1) to hi = 2^(n-1) - 1, is covered by
///   `(unsigned-byte-p 'm s)` with 0 <= m < n, by `(signed-byte-p 'm s)` with 1 <= m <= n, by equality with
///   an integer in lo..hi, by `(member-equal s 'l)` with a proper list of such integers, or by
///   `(integerp s)`, `(natp s)` or `(posp s)` together with a lower bound of at least lo and an upper bound
///   of at most hi. The lower bounds are `(natp s)`, 0; `(posp s)`, 1; `(< 'k s)`, k + 1; and
///   `(not (< s 'k))`, k. The upper bounds are `(< s 'k)`, k - 1; and `(not (< 'k s))`, k;
/// - a Boolean by `(booleanp s)`, equality with T or NIL, or membership in a proper list of these;
/// - a constant by equality with it;
/// - a cons by `(consp s)` where its parts cover `(car s)` and `(cdr s)`; and k conses that NIL ends also by
///   `(true-listp s)` and equality of `(len s)` with k, where element i covers `(car (cdr .. s))` with i
///   `cdr` and `(nth 'i s)`, whichever of the two is spoken of;
/// - a choice where one of its parts is; and also where, for a conjunct `(if p p q)`, one of them is with the
///   conjuncts of p besides, and one with those of q.
///
/// Equality is `equal`, `eq`, `eql` or `=`, with the literal on either side.
pub fn covers(
    alloc: Global,
    hyp: &Term,
    concl: &Term,
    bindings: &Bindings,
) -> Result<Option<TextId>, NoMemory>
    ensures { IfOk result (λ r. option_map (λ v. v.number) r ≡ first_uncovered (term_of hyp.now) (term_of concl.now) bindings.now) }
{
    let mut said = Vec::new(alloc);
    add_conjuncts(hyp, &mut said)?;
    for i in 0..bindings.len() {
        let variable = bindings.variable(i);
        if lacks_cover(
            alloc,
            said.as_slice(),
            hyp,
            concl,
            variable,
            bindings.shape(i),
        )? {
            return Ok(Some(variable));
        }
    }
    Ok(None)
}

/// Whether a variable needs cover and has none by these conjuncts.
fn lacks_cover(
    alloc: Global,
    said: &[&Term],
    hyp: &Term,
    concl: &Term,
    variable: TextId,
    shape: &Shape,
) -> Result<bool, NoMemory>
    requires { map (λ t. term_of t.now) said.now ≡ conjuncts (term_of hyp.now) }
    ensures { IfOk result (λ b. b ≡ lacks_cover (term_of hyp.now) (term_of concl.now) variable.number (shape_of shape.now)) }
{
    let subject = Subject::Variable(variable);
    if is_covered(alloc, shape, said, &subject)? {
        return Ok(false);
    }
    Ok(is_free(hyp, variable) || is_free(concl, variable))
}
