//! The list of the definitions that are being made.

use super::*;
use std::test::Fail;

/// G, H, and the others, in the order in which they were put.
fn check_list(rt: &impl Abort, own: &Owns, texts: &mut Texts) -> Result<(), NoMemory> {
    assert!(rt; own.len() == 40);
    assert!(rt; own.at(0) == (texts.id_of(b"G")?, 2));
    assert!(rt; own.at(1) == (texts.id_of(b"H")?, 0));
    assert!(rt; own.at(31) == (texts.id_of(b"MEMBER-EQUAL")?, 2));
    assert!(rt; own.at(39) == (texts.id_of(&[239])?, 1));
    Ok(())
}

#[test]
fn definitions_in_order(rt: HostRuntime) -> Result<(), Fail> {
    let mut texts = Texts::new(rt.alloc())?;
    let mut own = Owns::new(rt.alloc());
    put_definitions(&mut own, &mut texts)?;
    Ok(check_list(&rt, &own, &mut texts)?)
}
