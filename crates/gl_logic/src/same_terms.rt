//! Whether two terms are the same.

ghost use Rattle.std.specs.Prelude.{◌≡◌, ◌↔◌, IsTrue};
ghost use Rattle.gl_logic.specs.TermOf.{term_of, terms_of};
ghost use Rattle.gl_logic.specs.RecursiveCalls.{exp_eq};

use super::names::Names;
use super::term::Term;

/// Whether two terms are the same.
pub fn are_same(a: &Term, b: &Term) -> bool
    ensures { result ≡ exp_eq (term_of a.now) (term_of b.now) }
{
    same(a, b)
}

#[cycle(same)]
fn same(a: &Term, b: &Term) -> bool
    ensures { IsTrue result ↔ term_of a.now ≡ term_of b.now }
{
    match (a, b) {
        (Term::Var(u), Term::Var(v)) => u.number == v.number,
        (Term::Const(x), Term::Const(y)) => x.same(y),
        (Term::If(a, b, c), Term::If(d, e, f)) => same(a, d) && same(b, e) && same(c, f),
        (Term::Prim(p, xs), Term::Prim(q, ys)) => *p == *q
            && all_same(xs.as_slice(), ys.as_slice()),
        (Term::Call(f, xs), Term::Call(g, ys)) => {
            f.number == g.number && all_same(xs.as_slice(), ys.as_slice())
        }
        (Term::Let(us, xs, a), Term::Let(vs, ys, b)) => {
            same_names(us, vs) && all_same(xs.as_slice(), ys.as_slice()) && same(a, b)
        }
        _ => false,
    }
}

#[cycle(same)]
fn all_same(xs: &[Term], ys: &[Term]) -> bool
    ensures { IsTrue result ↔ terms_of xs.now ≡ terms_of ys.now }
{
    if xs.len() != ys.len() {
        return false;
    }
    for i in 0..xs.len() {
        if !same(&xs[i], &ys[i]) {
            return false;
        }
    }
    true
}

fn same_names(us: &Names, vs: &Names) -> bool
    ensures { IsTrue result ↔ us.now ≡ vs.now }
{
    if us.len() != vs.len() {
        return false;
    }
    for i in 0..us.len() {
        if us.at(i).number != vs.at(i).number {
            return false;
        }
    }
    true
}
