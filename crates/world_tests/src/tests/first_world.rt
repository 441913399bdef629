//! The world that every book begins with.

use event_world::prelude;
use gl_logic::{Measure, NoMemory, Texts, World};
use std::alloc::Global;
use std::process::Abort;
use std::test::Fail;

/// The definitions in their order: the name, how many formals it has, and the formal whose count is its
/// measure.
const WORLD: [(&str, u64, &str); 43] = [
    ("ATOM", 1, ""),
    ("ENDP", 1, ""),
    ("NULL", 1, ""),
    ("EQ", 2, ""),
    ("EQL", 2, ""),
    ("=", 2, ""),
    ("HONS-EQUAL", 2, ""),
    ("ZP", 1, ""),
    ("ZIP", 1, ""),
    ("NATP", 1, ""),
    ("POSP", 1, ""),
    ("NFIX", 1, ""),
    ("IFIX", 1, ""),
    ("ZEROP", 1, ""),
    ("PLUSP", 1, ""),
    ("MINUSP", 1, ""),
    ("MIN", 2, ""),
    ("MAX", 2, ""),
    ("ABS", 1, ""),
    ("EVENP", 1, ""),
    ("ODDP", 1, ""),
    ("BOOLEANP", 1, ""),
    ("IMPLIES", 2, ""),
    ("IFF", 2, ""),
    ("XOR", 2, ""),
    ("LEN", 1, "X"),
    ("TRUE-LISTP", 1, "X"),
    ("BINARY-APPEND", 2, "X"),
    ("NTH", 2, "N"),
    ("NTHCDR", 2, "N"),
    ("UPDATE-NTH", 3, "N"),
    ("MEMBER-EQUAL", 2, "L"),
    ("ASSOC-EQUAL", 2, "A"),
    ("LOGCOUNT-NAT", 1, "X"),
    ("LOGCOUNT", 1, ""),
    ("HONS", 2, ""),
    ("HONS-COPY", 1, ""),
    ("HONS-ACONS", 3, ""),
    ("MAKE-FAST-ALIST", 1, ""),
    ("FAST-ALIST-FREE", 1, ""),
    ("HONS-ASSOC-EQUAL", 2, "A"),
    ("HONS-GET", 2, ""),
    ("FAST-ALIST-FORK", 2, "A"),
];

/// Whether a measure is the count of the formal of this name, or none.
fn is_count(measure: Option<Measure>, formal: &str, texts: &Texts) -> bool {
    match measure {
        None => formal.len() == 0,
        Some(Measure::Count(v)) => texts.text(v) == formal.as_bytes(),
        Some(_) => false,
    }
}

fn find_all(rt: &impl Abort, world: &World, texts: &mut Texts) -> Result<(), NoMemory> {
    let mut number = 0;
    for (name, formals, formal) in &WORLD {
        let id = texts.id_of(name.as_bytes())?;
        match world.find(id) {
            None => assert!(rt; false, "{name}"),
            Some(f) => {
                assert!(rt; f.number == number, "{name}");
                assert!(rt; f.number < world.count());
                let def = world.def(f);
                assert!(rt; def.formals.len() == *formals, "{name}");
                assert!(rt; is_count(def.measure, formal, texts), "{name}");
            }
        }
        number = number.wrapping_add(1);
    }
    Ok(())
}

/// The world is made over a table that has another name, and some of these.
fn try_prelude(rt: &impl Abort, alloc: Global, texts: &mut Texts) -> Result<(), NoMemory> {
    let f = texts.id_of(b"F")?;
    texts.id_of(b"NFIX")?;
    texts.id_of(b"X")?;
    let world = prelude(alloc, texts)?;
    assert!(rt; world.count() == 43 && world.constant_count() == 0);
    assert!(rt; world.find(f).is_none());
    find_all(rt, &world, texts)
}

#[test]
fn the_first_definitions(rt: HostRuntime) -> Result<(), Fail> {
    let mut texts = Texts::new(rt.alloc())?;
    Ok(try_prelude(&rt, rt.alloc(), &mut texts)?)
}
