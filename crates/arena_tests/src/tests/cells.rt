//! What no clause says: that calls succeed, in time, and the bounds of a tree's size.

use super::{check_at, cons, pair};
use gl_logic::{TextId, Tree};
use hons_arena::{Full, HonsArena, Id, Kind, Mark, TreeFault};
use std::alloc::Global;
use std::process::Abort;

const NIL: TextId = TextId { number: 0 };

/// An integer, where there is room.
fn int(rt: &impl Abort, arena: &mut HonsArena, i: u32) -> Id {
    arena
        .int(i128::from(i))
        .expect(rt, "no room for an integer")
}

/// Takes away what was made after the mark.
fn forget(rt: &impl Abort, arena: &mut HonsArena, mark: Mark) {
    assert!(rt; mark.count <= arena.count());
    arena.release(mark);
}

/// The object of an id is this one.
fn is_object(rt: &impl Abort, alloc: Global, arena: &HonsArena, id: Id, wanted: &Tree) -> bool {
    assert!(rt; arena.is_live(id));
    match arena.tree_of(alloc, id) {
        Ok(tree) => tree.same(wanted),
        Err(_) => false,
    }
}

/// Why the object of an id is no tree.
fn fault_of(rt: &impl Abort, alloc: Global, arena: &HonsArena, id: Id) -> Option<TreeFault> {
    assert!(rt; arena.is_live(id));
    arena.tree_of(alloc, id).err()
}

/// The list of 1 to 3.
fn three(rt: &impl Abort, alloc: Global) -> Tree {
    let mut list = Tree::symbol(NIL);
    for i in [3, 2, 1] {
        list = Tree::pair(alloc, Tree::int(i), list).expect(rt, "no memory");
    }
    list
}

/// Fills the arena behind a list of six cells, and takes away what was made.
fn fill_and_forget(rt: &impl Abort, arena: &mut HonsArena, list: &Tree, placed: Id) {
    let mark = arena.mark();
    let nil = arena.symbol(NIL);
    let first = pair(rt, arena, nil, nil);
    let second = pair(rt, arena, placed, placed);
    assert!(rt; first != second);
    assert!(rt; cons(rt, arena, first, second) == Err(Full));
    assert!(rt; cons(rt, arena, nil, nil) == Ok(first));
    assert!(rt; arena.place(list) == Ok(placed));
    forget(rt, arena, mark);
    assert!(rt; arena.count() == 6);
    assert!(rt; arena.place(list) == Ok(placed));
}

#[test]
fn eight_cells(rt: HostRuntime) {
    let mut arena = HonsArena::new(rt.alloc(), 8).expect(&rt, "no memory");
    let list = three(&rt, rt.alloc());
    let placed = arena.place(&list).expect(&rt, "no room for a list");
    assert!(rt; arena.count() == 6);
    for _round in 0..2 {
        fill_and_forget(&rt, &mut arena, &list, placed);
    }
    assert!(rt; is_object(&rt, rt.alloc(), &arena, placed, &list));
}

/// Compares the kind of an object at a place of the table, its first part and the rest.
fn compare_object(
    rt: &impl Abort,
    arena: &HonsArena,
    place: usize,
    id: Id,
    kind: Kind,
    parts: (Id, Id),
) {
    assert!(rt; arena.is_live(id));
    let is_kind = arena.kind(id) == kind;
    let has_parts = arena.car(id) == parts.0 && arena.cdr(id) == parts.1;
    check_at(rt, is_kind && has_parts, place as u64);
}

/// Two ids at places of the table are the same where the places are.
fn compare_ids(rt: &impl Abort, arena: &HonsArena, first: (usize, Id), second: (usize, Id)) {
    let ((place, id), (other, second)) = (first, second);
    assert!(rt; arena.is_live(id) && arena.is_live(second));
    check_at(rt, arena.same(id, second) == (place == other), place as u64);
}

/// An object of each kind. The third one is the cons of the first two.
fn each(rt: &impl Abort, arena: &mut HonsArena) -> [(Id, Kind); 5] {
    let text = TextId { number: 7 };
    let integer = int(rt, arena, 65);
    let character = arena.character(65).expect(rt, "no room for a character");
    let list = pair(rt, arena, integer, character);
    [
        (integer, Kind::Int(65)),
        (character, Kind::Character(65)),
        (list, Kind::Cons),
        (arena.symbol(text), Kind::Symbol(text)),
        (arena.string(text), Kind::Text(text)),
    ]
}

/// Compares each object with each.
fn compare_kinds(rt: &impl Abort, arena: &HonsArena, table: &[(Id, Kind); 5]) {
    let nil = arena.symbol(NIL);
    for (place, (id, kind)) in table.iter().enumerate() {
        let parts = if *kind == Kind::Cons {
            (table[0].0, table[1].0)
        } else {
            (nil, nil)
        };
        compare_object(rt, arena, place, *id, *kind, parts);
        for (other, (second, _)) in table.iter().enumerate() {
            compare_ids(rt, arena, (place, *id), (other, *second));
        }
    }
}

#[test]
fn each_kind(rt: HostRuntime) {
    let mut arena = HonsArena::new(rt.alloc(), 10).expect(&rt, "no memory");
    let table = each(&rt, &mut arena);
    compare_kinds(&rt, &arena, &table);
    assert!(rt; arena.count() == 3);
}

#[test]
fn a_million_twice(rt: HostRuntime) {
    let mut arena = HonsArena::new(rt.alloc(), 1_000_000).expect(&rt, "no memory");
    let start = arena.mark();
    for _round in 0..2 {
        for i in 0..1_000_000u32 {
            int(&rt, &mut arena, i);
        }
        assert!(rt; arena.count() == 1_000_000);
        assert!(rt; arena.int(-1) == Err(Full));
        forget(&rt, &mut arena, start);
        assert!(rt; arena.count() == 0);
    }
}

/// Makes integers, and takes them away.
fn make_and_forget(rt: &impl Abort, arena: &mut HonsArena, round: u32, mark: Mark) {
    for i in 0..900u32 {
        let made = arena.int(i128::from(round) * 1000 + i128::from(i));
        assert!(rt; made.is_ok());
    }
    forget(rt, arena, mark);
    assert!(rt; arena.mark() == mark);
}

#[test]
fn ids_stay(rt: HostRuntime) {
    let mut arena = HonsArena::new(rt.alloc(), 1000).expect(&rt, "no memory");
    let list = three(&rt, rt.alloc());
    let placed = arena.place(&list).expect(&rt, "no room for a list");
    let mark = arena.mark();
    for round in 0..100u32 {
        make_and_forget(&rt, &mut arena, round, mark);
        assert!(rt; arena.place(&list) == Ok(placed));
        assert!(rt; arena.mark() == mark);
    }
    assert!(rt; is_object(&rt, rt.alloc(), &arena, placed, &list));
}

/// A tree of so many levels, whose two halves are the same at each.
fn shared(rt: &impl Abort, arena: &mut HonsArena, levels: u32) -> Id {
    let mut tree = arena.symbol(NIL);
    for _level in 0..levels {
        tree = pair(rt, arena, tree, tree);
    }
    tree
}

/// A tree whose first part is as deep.
fn deep(rt: &impl Abort, arena: &mut HonsArena, levels: u32) -> Id {
    let nil = arena.symbol(NIL);
    let mut tree = nil;
    for _level in 0..levels {
        tree = pair(rt, arena, tree, nil);
    }
    tree
}

/// A list of so many NILs.
fn long(rt: &impl Abort, arena: &mut HonsArena, elements: u32) -> Id {
    let nil = arena.symbol(NIL);
    let mut list = nil;
    for _element in 0..elements {
        list = pair(rt, arena, nil, list);
    }
    list
}

/// Asks for trees at the bounds of their size.
#[test]
fn sizes_of_trees(rt: HostRuntime) {
    let alloc = rt.alloc();
    let mut arena = HonsArena::new(alloc, 1_010_000).expect(&rt, "no memory");
    let nil = arena.symbol(NIL);
    let wide = shared(&rt, &mut arena, 60);
    assert!(rt; arena.count() == 60);
    assert!(rt; fault_of(&rt, alloc, &arena, wide) == Some(TreeFault::Large));
    let most = deep(&rt, &mut arena, 1000);
    assert!(rt; fault_of(&rt, alloc, &arena, most) == None);
    let deeper = pair(&rt, &mut arena, most, nil);
    assert!(rt; fault_of(&rt, alloc, &arena, deeper) == Some(TreeFault::Large));
    let longest = long(&rt, &mut arena, 999_999);
    assert!(rt; fault_of(&rt, alloc, &arena, longest) == None);
    let longer = pair(&rt, &mut arena, nil, longest);
    assert!(rt; fault_of(&rt, alloc, &arena, longer) == Some(TreeFault::Large));
}

/// The list of so many small integers.
fn numbers(rt: &impl Abort, arena: &mut HonsArena, count: u32) -> Id {
    let mut list = arena.symbol(NIL);
    for i in 0..count {
        let first = int(rt, arena, i);
        list = pair(rt, arena, first, list);
    }
    list
}

/// The conses of each two ids that stand side by side.
fn above(rt: &impl Abort, alloc: Global, arena: &mut HonsArena, level: &Vec<Id>) -> Vec<Id> {
    let mut above = Vec::new(alloc);
    for parts in level.chunks(2) {
        if let [first, rest] = parts {
            above
                .push(pair(rt, arena, *first, *rest))
                .expect(rt, "no memory");
        }
    }
    above
}

/// A complete binary tree of depth 16 with different leaves.
fn tree(rt: &impl Abort, alloc: Global, arena: &mut HonsArena) -> Vec<Id> {
    let mut level = Vec::new(alloc);
    for i in 0..65_536u32 {
        level
            .push(int(rt, arena, 1_000_000 + i))
            .expect(rt, "no memory");
    }
    for _depth in 0..16 {
        level = above(rt, alloc, arena, &level);
    }
    level
}

/// The last of ten thousand lists of three.
fn short_lists(rt: &impl Abort, arena: &mut HonsArena) -> Id {
    let mut list = arena.symbol(NIL);
    for i in 0..10_000u32 {
        let first = int(rt, arena, i);
        list = arena.symbol(NIL);
        for _element in 0..3 {
            list = pair(rt, arena, first, list);
        }
    }
    list
}

/// Makes long, wide and many short objects, and then all of them again.
#[test]
fn nine_tenths_full(rt: HostRuntime) {
    let alloc = rt.alloc();
    let mut arena = HonsArena::new(alloc, 400_000).expect(&rt, "no memory");
    let list = numbers(&rt, &mut arena, 100_000);
    let root = tree(&rt, alloc, &mut arena);
    let last = short_lists(&rt, &mut arena);
    // the list of 0 alone is the end of the list of numbers, and one of the short ones
    assert!(rt; arena.count() == 200_000 + 131_071 + 30_000 - 1 && root.len() == 1);
    assert!(rt; numbers(&rt, &mut arena, 100_000) == list);
    let again = tree(&rt, alloc, &mut arena);
    assert!(rt; again.as_slice() == root.as_slice());
    assert!(rt; short_lists(&rt, &mut arena) == last);
    assert!(rt; arena.count() == 361_070);
}
