//! What no clause says: that calls succeed, in time.

use gl_logic::{FnId, TextId};
use hons_arena::{HonsArena, Id};
use memo_tables::{MemoCall, MemoTables};
use std::alloc::Global;
use std::process::Abort;

/// A call of one function.
fn call(rt: &impl Abort, alloc: Global, args: &[Id]) -> MemoCall {
    MemoCall::of(alloc, FnId { number: 3 }, args).expect(rt, "no memory")
}

/// Keeps a call, which must not be kept yet.
fn keep(rt: &impl Abort, alloc: Global, tables: &mut MemoTables, args: &[Id], value: Id) {
    let call = call(rt, alloc, args);
    assert!(rt; tables.look(&call).is_none());
    tables.keep(call, value).expect(rt, "no memory");
}

/// The value that a call is kept with.
fn kept(rt: &impl Abort, alloc: Global, tables: &MemoTables, args: &[Id]) -> Option<Id> {
    tables.look(&call(rt, alloc, args))
}

/// Keeps a call of each list, finds them all, and none once the tables are cleared.
fn keep_all(rt: &impl Abort, alloc: Global, tables: &mut MemoTables, lists: &[&[Id]], value: Id) {
    for args in lists {
        keep(rt, alloc, tables, args, value);
    }
    for args in lists {
        assert!(rt; kept(rt, alloc, tables, args) == Some(value));
    }
    tables.clear();
    assert!(rt; kept(rt, alloc, tables, &[]).is_none());
}

#[test]
fn each_argument_counts(rt: HostRuntime) {
    let arena = HonsArena::new(rt.alloc(), 1).expect(&rt, "no memory");
    let one = arena.symbol(TextId { number: 1 });
    let two = arena.symbol(TextId { number: 2 });
    let lists: [&[Id]; 5] = [
        &[],
        &[one],
        &[one, two],
        &[two, one],
        &[one, one, one, one, two],
    ];
    let mut tables = MemoTables::new(rt.alloc()).expect(&rt, "no memory");
    keep_all(&rt, rt.alloc(), &mut tables, &lists, one);
}

/// Keeps ten thousand calls, and finds them all.
fn keep_many(rt: &impl Abort, alloc: Global, arena: &HonsArena, tables: &mut MemoTables) {
    for number in 0..10_000 {
        let id = arena.symbol(TextId { number });
        keep(rt, alloc, tables, &[id, id], id);
    }
    for number in 0..10_000 {
        let id = arena.symbol(TextId { number });
        assert!(rt; kept(rt, alloc, tables, &[id, id]) == Some(id));
    }
}

#[test]
fn many_calls(rt: HostRuntime) {
    let arena = HonsArena::new(rt.alloc(), 1).expect(&rt, "no memory");
    let mut tables = MemoTables::new(rt.alloc()).expect(&rt, "no memory");
    keep_many(&rt, rt.alloc(), &arena, &mut tables);
}
