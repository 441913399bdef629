//! Theorems by cases, and what their parts come to, with ample memory.

use super::reader::form_of;
use super::terms::object_of;
use event_world::{Event, event_of, prelude};
use gl_cases::{Outcome, Outcomes, ParamThm, Settled, settle};
use gl_logic::{FnId, NoMemory, Texts};
use shape_spec::{FnSet, Mode, Thm};
use std::alloc::Global;
use std::process::Abort;
use std::test::Fail;

/// A theorem of two cases. In the term of the cases one `let` hides K, and another one hides nothing.
const FORM: &[u8] =
    b"(DEF-GL-PARAM-THM F :HYP (INTEGERP X) :CONCL (< X Y) :PARAM-HYP (IF (LET ((K X) (Z K)) (CONS K Z)) (LET ((Z J)) (CONS K Z)) NIL) :PARAM-BINDINGS (QUOTE ((((K 1) (J (K . J))) ((X 1) (Y 2))) (((K 2) (J NIL)) ((Y 3) (X 2))))) :COV-BINDINGS (QUOTE ((X 5))) :HYP-CLK 7 :CONCL-CLK 8)";

/// The hypothesis and the conclusion of each part, from the cover on.
const PARTS: [(&[u8], &[u8]); 3] = [
    (
        b"(INTEGERP X)",
        b"(IF (IF (LET (K Z) (X (QUOTE 1)) (CONS K Z)) (LET (Z) ((QUOTE (K . J))) (CONS (QUOTE 1) Z)) (QUOTE NIL)) (IF (LET (K Z) (X (QUOTE 1)) (CONS K Z)) (LET (Z) ((QUOTE (K . J))) (CONS (QUOTE 1) Z)) (QUOTE NIL)) (IF (LET (K Z) (X (QUOTE 2)) (CONS K Z)) (LET (Z) ((QUOTE NIL)) (CONS (QUOTE 2) Z)) (QUOTE NIL)))",
    ),
    (
        b"(IF (INTEGERP X) (IF (LET (K Z) (X (QUOTE 1)) (CONS K Z)) (LET (Z) ((QUOTE (K . J))) (CONS (QUOTE 1) Z)) (QUOTE NIL)) (QUOTE NIL))",
        b"(< X Y)",
    ),
    (
        b"(IF (INTEGERP X) (IF (LET (K Z) (X (QUOTE 2)) (CONS K Z)) (LET (Z) ((QUOTE NIL)) (CONS (QUOTE 2) Z)) (QUOTE NIL)) (QUOTE NIL))",
        b"(< X Y)",
    ),
];

fn try_part(
    rt: &impl Abort,
    alloc: Global,
    thm: &Thm,
    wanted: (&[u8], &[u8]),
    texts: &mut Texts,
) -> Result<(), NoMemory> {
    let hyp = form_of(alloc, wanted.0, texts)?;
    let concl = form_of(alloc, wanted.1, texts)?;
    assert!(rt; object_of(alloc, &thm.hyp, texts)?.same(&hyp));
    assert!(rt; object_of(alloc, &thm.concl, texts)?.same(&concl));
    assert!(rt; thm.hyp_clk == 7 && thm.concl_clk == 8);
    assert!(rt; thm.mode == Mode::Sat && thm.memoized.len() == 1);
    Ok(())
}

fn try_parts(
    rt: &impl Abort,
    alloc: Global,
    thm: &ParamThm,
    texts: &mut Texts,
) -> Result<(), NoMemory> {
    assert!(rt; thm.cases.len() == 2);
    try_part(rt, alloc, &thm.cover, PARTS[0], texts)?;
    assert!(rt; thm.cover.bindings.len() == 1);
    if thm.cases.len() == 2 {
        try_part(rt, alloc, thm.cases.at(0), PARTS[1], texts)?;
        try_part(rt, alloc, thm.cases.at(1), PARTS[2], texts)?;
    }
    Ok(())
}

fn try_form(rt: &impl Abort, alloc: Global) -> Result<(), NoMemory> {
    let mut texts = Texts::new(alloc)?;
    let world = prelude(alloc, &mut texts)?;
    let mut memoized = FnSet::new(alloc);
    memoized.push(FnId { number: 3 })?;
    let form = form_of(alloc, FORM, &mut texts)?;
    match event_of(alloc, &form, &world, Mode::Sat, &memoized, &mut texts) {
        Ok(Event::Cases(thm)) => try_parts(rt, alloc, &thm, &mut texts),
        _ => {
            assert!(rt; false, "no theorem by cases");
            Ok(())
        }
    }
}

#[test]
fn parts_of_a_form(rt: HostRuntime) -> Result<(), Fail> {
    Ok(try_form(&rt, rt.alloc())?)
}

/// The outcome of the cover, those of the cases, and what they come to.
const SETTLED: [(Outcome, &[Outcome], Settled); 13] = [
    (Outcome::Proved, &[Outcome::Proved], Settled::Proved),
    (
        Outcome::Proved,
        &[Outcome::Vacuous, Outcome::Proved],
        Settled::Proved,
    ),
    (Outcome::Proved, &[Outcome::Vacuous], Settled::Proved),
    (Outcome::Proved, &[Outcome::Refuted], Settled::Refuted(1)),
    (
        Outcome::Proved,
        &[Outcome::Open, Outcome::Refuted, Outcome::Refuted],
        Settled::Refuted(2),
    ),
    (Outcome::Proved, &[Outcome::Open], Settled::Case(1)),
    (
        Outcome::Proved,
        &[
            Outcome::Proved,
            Outcome::Vacuous,
            Outcome::Open,
            Outcome::Open,
        ],
        Settled::Case(3),
    ),
    (Outcome::Vacuous, &[Outcome::Refuted], Settled::Vacuous),
    (Outcome::Vacuous, &[Outcome::Open], Settled::Vacuous),
    (Outcome::Refuted, &[Outcome::Proved], Settled::Uncased),
    (Outcome::Refuted, &[Outcome::Refuted], Settled::Uncased),
    (Outcome::Open, &[Outcome::Refuted], Settled::Cover),
    (Outcome::Open, &[Outcome::Proved], Settled::Cover),
];

fn outcomes_of(alloc: Global, all: &[Outcome]) -> Result<Outcomes, NoMemory> {
    let mut outcomes = Outcomes::new(alloc);
    for outcome in all {
        outcomes.push(*outcome)?;
    }
    Ok(outcomes)
}

fn try_outcomes(rt: &impl Abort, alloc: Global) -> Result<(), NoMemory> {
    for (place, (cover, cases, expected)) in SETTLED.iter().enumerate() {
        let cases = outcomes_of(alloc, cases)?;
        if cases.len() <= 64 {
            assert!(rt; settle(*cover, &cases) == *expected, "at {place}");
        }
    }
    Ok(())
}

#[test]
fn outcomes_are_settled(rt: HostRuntime) -> Result<(), Fail> {
    Ok(try_outcomes(&rt, rt.alloc())?)
}
