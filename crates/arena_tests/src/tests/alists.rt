//! What no clause says: that calls succeed, in time. The values are those that ACL2 gives.

ghost use Rattle.std.specs.Prelude.{IfOk};
ghost use Rattle.fast_alists.specs.Tables.{Agree};

use super::{check_at, pair};
use fast_alists::{AlistFault, FastAlists};
use gl_logic::{NoMemory, TextId};
use hons_arena::{HonsArena, Id};
use std::alloc::Global;
use std::process::Abort;

/// The symbol whose name has this number.
fn symbol(arena: &HonsArena, number: u64) -> Id {
    arena.symbol(TextId { number })
}

/// A pair of symbols or, where there is no second one, a symbol.
fn item(rt: &impl Abort, arena: &mut HonsArena, key: u64, value: Option<u64>) -> Id {
    let key = symbol(arena, key);
    match value {
        Some(value) => {
            let value = symbol(arena, value);
            pair(rt, arena, key, value)
        }
        None => key,
    }
}

/// Pairs of symbols and, where there is no second one, symbols.
type Items<'a> = &'a [(u64, Option<u64>)];

/// The list of these items, in front of NIL.
fn list(rt: &impl Abort, arena: &mut HonsArena, items: Items) -> Id {
    let mut whole = symbol(arena, 0);
    for (key, value) in items.iter().rev() {
        let item = item(rt, arena, *key, *value);
        whole = pair(rt, arena, item, whole);
    }
    whole
}

/// Tables over an arena.
fn tables(alloc: Global, arena: &HonsArena) -> Result<FastAlists, NoMemory>
    ensures { IfOk result (λ alists. Agree arena.now.objects alists) }
{
    let alists = FastAlists::new(alloc)?;
    Ok(alists)
}

/// The fork of two lists.
fn fork(rt: &impl Abort, alists: &mut FastAlists, arena: &mut HonsArena, alist: Id, ans: Id) -> Id
    requires { Agree arena.old.objects alists.old }
    ensures { Agree arena.new.objects alists.new }
{
    assert!(rt; arena.is_live(alist) && arena.is_live(ans));
    alists
        .fork(arena, alist, ans)
        .expect(rt, "no room for a fork")
}

/// Compares the fork of two lists, made with a table of the second list and without it.
fn fork_twice(
    rt: &impl Abort,
    alists: &mut FastAlists,
    arena: &mut HonsArena,
    alist: Id,
    ans: Id,
    wanted: Id,
)
    requires { Agree arena.old.objects alists.old }
{
    let first = fork(rt, alists, arena, alist, ans);
    let same = fork(rt, alists, arena, ans, ans);
    let again = fork(rt, alists, arena, alist, ans);
    assert!(rt; first == wanted && same == ans && again == wanted);
}

/// Tries a row in an arena and with tables of its own.
fn forks_to(rt: &impl Abort, alloc: Global, row: &[Items; 3]) {
    let mut arena = HonsArena::new(alloc, 1000).expect(rt, "no memory");
    let alist = list(rt, &mut arena, row[0]);
    let ans = list(rt, &mut arena, row[1]);
    let wanted = list(rt, &mut arena, row[2]);
    let mut alists = tables(alloc, &arena).expect(rt, "no memory");
    fork_twice(rt, &mut alists, &mut arena, alist, ans, wanted);
}

/// Two lists and their fork.
const FORKS: [[Items<'static>; 3]; 4] = [
    [
        &[(1, Some(1)), (7, None), (2, Some(2)), (1, Some(3))],
        &[],
        &[(2, Some(2)), (1, Some(1))],
    ],
    [
        &[(11, Some(1)), (12, Some(2)), (11, Some(3))],
        &[(1, Some(2)), (3, Some(4)), (1, Some(5)), (20, None)],
        &[
            (12, Some(2)),
            (11, Some(1)),
            (1, Some(2)),
            (3, Some(4)),
            (1, Some(5)),
            (20, None),
        ],
    ],
    [
        &[
            (1, Some(2)),
            (3, Some(4)),
            (1, Some(5)),
            (9, None),
            (8, Some(6)),
        ],
        &[],
        &[(8, Some(6)), (3, Some(4)), (1, Some(2))],
    ],
    [&[(1, None), (2, None)], &[(3, None)], &[(3, None)]],
];

#[test]
fn forks(rt: HostRuntime) {
    for row in &FORKS {
        forks_to(&rt, rt.alloc(), row);
    }
}

/// Puts a pair of symbols in front of a list.
fn put(
    rt: &impl Abort,
    alists: &mut FastAlists,
    arena: &mut HonsArena,
    pair: (u64, u64),
    alist: Id,
) -> Id
    requires { Agree arena.old.objects alists.old }
    ensures { Agree arena.new.objects alists.new }
{
    let key = symbol(arena, pair.0);
    let value = symbol(arena, pair.1);
    assert!(rt; arena.is_live(key) && arena.is_live(value) && arena.is_live(alist));
    alists
        .acons(arena, key, value, alist)
        .expect(rt, "no room for a pair")
}

/// What a list has for a key, 0 for nothing.
fn found(rt: &impl Abort, alists: &FastAlists, arena: &HonsArena, key: u64, alist: Id) -> u64
    requires { Agree arena.now.objects alists.now }
{
    let key = symbol(arena, key);
    assert!(rt; arena.is_live(key) && arena.is_live(alist));
    match alists.get(arena, key, alist) {
        None => 0,
        Some(pair) => {
            assert!(rt; arena.is_live(pair));
            arena.cdr(pair).number()
        }
    }
}

/// Rows: a key, a list, and what the list has for the key.
fn all_found(rt: &impl Abort, alists: &FastAlists, arena: &HonsArena, rows: &[(u64, Id, u64)])
    requires { Agree arena.now.objects alists.now }
{
    for (key, alist, wanted) in rows {
        check_at(rt, found(rt, alists, arena, *key, *alist) == *wanted, *key);
    }
}

/// A list with each of so many keys.
fn long(rt: &impl Abort, alists: &mut FastAlists, arena: &mut HonsArena, keys: u64) -> Id
    requires { Agree arena.old.objects alists.old }
    ensures { Agree arena.new.objects alists.new }
{
    let mut alist = symbol(arena, 0);
    for key in 0..keys {
        alist = put(rt, alists, arena, (key, key), alist);
    }
    alist
}

/// Asks for each of so many keys.
fn all_keys(rt: &impl Abort, alists: &FastAlists, arena: &HonsArena, keys: u64, alist: Id)
    requires { Agree arena.now.objects alists.now }
{
    for key in 1..keys {
        check_at(rt, found(rt, alists, arena, key, alist) == key, key);
    }
}

/// Four lists, each a pair longer than the one before, and a plain list behind a pair.
fn lists(
    rt: &impl Abort,
    alists: &mut FastAlists,
    arena: &mut HonsArena,
    plain: Id,
) -> (Id, Id, Id, Id, Id)
    requires { Agree arena.old.objects alists.old }
    ensures { Agree arena.new.objects alists.new }
{
    let nil = symbol(arena, 0);
    let first = put(rt, alists, arena, (1, 5), nil);
    let second = put(rt, alists, arena, (3, 4), first);
    let older = put(rt, alists, arena, (1, 1), second);
    let newer = put(rt, alists, arena, (1, 2), older);
    let longer = put(rt, alists, arena, (2, 8), plain);
    (first, second, older, newer, longer)
}

/// Looks keys up in these lists, after the tables of one of them were freed.
fn look_up_all(rt: &impl Abort, alists: &mut FastAlists, arena: &mut HonsArena, plain: Id)
    requires { Agree arena.old.objects alists.old }
{
    let nil = symbol(arena, 0);
    let (first, second, older, newer, longer) = lists(rt, alists, arena, plain);
    alists.free(second);
    let rows = [
        (1, first, 5),
        (3, first, 0),
        (1, second, 5),
        (1, older, 1),
        (3, older, 4),
        (1, newer, 2),
        (3, newer, 4),
        (9, newer, 0),
        (1, plain, 1),
        (7, plain, 0),
        (2, longer, 8),
        (1, longer, 1),
        (1, nil, 0),
    ];
    all_found(rt, alists, arena, &rows);
}

#[test]
fn look_ups(rt: HostRuntime) {
    let mut arena = HonsArena::new(rt.alloc(), 1000).expect(&rt, "no memory");
    let plain = list(&rt, &mut arena, &[(7, None), (1, Some(1)), (1, Some(2))]);
    let mut alists = tables(rt.alloc(), &arena).expect(&rt, "no memory");
    look_up_all(&rt, &mut alists, &mut arena, plain);
}

/// Asks for a third cell of a list, and for a fork that needs one, where there is no room.
fn run_full(rt: &impl Abort, alists: &mut FastAlists, arena: &mut HonsArena, list: Id)
    requires { Agree arena.old.objects alists.old }
    ensures { Agree arena.new.objects alists.new }
{
    let key = symbol(arena, 9);
    assert!(rt; arena.is_live(key) && arena.is_live(list));
    assert!(rt; alists.acons(arena, key, key, list) == Err(AlistFault::Full));
    assert!(rt; arena.is_live(key) && arena.is_live(list));
    assert!(rt; alists.fork(arena, list, key) == Err(AlistFault::Full));
}

#[test]
fn after_a_refusal(rt: HostRuntime) {
    let mut arena = HonsArena::new(rt.alloc(), 4).expect(&rt, "no memory");
    let mut alists = tables(rt.alloc(), &arena).expect(&rt, "no memory");
    let nil = symbol(&arena, 0);
    let first = put(&rt, &mut alists, &mut arena, (1, 5), nil);
    let second = put(&rt, &mut alists, &mut arena, (3, 4), first);
    run_full(&rt, &mut alists, &mut arena, second);
    all_found(
        &rt,
        &alists,
        &arena,
        &[(1, second, 5), (3, second, 4), (9, second, 0)],
    );
}

#[test]
fn many_keys(rt: HostRuntime) {
    let mut arena = HonsArena::new(rt.alloc(), 400_000).expect(&rt, "no memory");
    let mut alists = tables(rt.alloc(), &arena).expect(&rt, "no memory");
    let alist = long(&rt, &mut alists, &mut arena, 100_000);
    all_keys(&rt, &alists, &arena, 100_000, alist);
}
