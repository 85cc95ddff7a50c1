use super::fixtures::{check_base, check_lines, check_moves, new_space, old_space, store};
use replay::Session;
use std::process::Abort;
use std::test::Fail;

/// What the special objects array names, a handle of another mutator, and the class table, of which one entry is a class that nothing else names in the
/// end.
const ROOTS: [(&str, &str); 40] = [
    ("special s", "ok"),
    ("fetch c s 3", "ok"),
    ("@3 special s", "ok"),
    ("@3 fetch c s 3", "ok"),
    ("newold a c 1", "ok"),
    ("store s 0 a", "ok"),
    ("drop a", "ok"),
    ("@3 newold b c 2", "ok"),
    ("@3 newold d c 1", "ok"),
    ("@3 store b 1 d", "ok"),
    ("@3 drop d", "ok"),
    ("fetch m s 9", "ok"),
    ("newold k m 0", "ok"),
    ("int f 131072", "ok"),
    ("store k 2 f", "ok"),
    ("enter k", "1024"),
    ("newold i k 1", "ok"),
    ("drop k", "ok"),
    ("newold x c 4", "ok"),
    ("newold y c 0", "ok"),
    ("store x 3 y", "ok"),
    ("drop x", "ok"),
    ("drop y", "ok"),
    (
        "stat",
        "stat nodes 22 handles 8 mourners 0 free 80 largest 80 eden 0 past 0",
    ),
    ("gc", "nilled 0 fired 0"),
    (
        "stat",
        "stat nodes 20 handles 8 mourners 0 free 87 largest 87 eden 0 past 0",
    ),
    ("fetch a s 0", "ok"),
    ("size a", "1 0"),
    ("@3 fetch d b 1", "ok"),
    ("@3 size d", "1 0"),
    ("class k i", "ok"),
    ("hash k", "1024"),
    ("newold j k 3", "ok"),
    ("kind j", "object 1024 2"),
    ("size j", "3 0"),
    ("drop k", "ok"),
    ("drop i", "ok"),
    ("drop j", "ok"),
    ("gc", "nilled 0 fired 0"),
    (
        "stat",
        "stat nodes 19 handles 9 mourners 0 free 89 largest 89 eden 0 past 0",
    ),
];

#[test]
fn what_the_roots_lead_to_is_kept(rt: HostRuntime) -> Result<(), Fail> {
    check_moves(&rt, rt.alloc(), 100, &ROOTS)
}

/// Two objects that name each other, and nothing that is held.
const NOTHING_HELD: [(&str, &str); 13] = [
    ("special s", "ok"),
    ("fetch c s 3", "ok"),
    ("newold a c 3", "ok"),
    ("newold b c 300", "ok"),
    ("store a 0 b", "ok"),
    ("store b 299 a", "ok"),
    ("drop a", "ok"),
    ("drop b", "ok"),
    ("drop c", "ok"),
    ("drop s", "ok"),
    (
        "stat",
        "stat nodes 17 handles 0 mourners 0 free 694 largest 694 eden 0 past 0",
    ),
    ("gc", "nilled 0 fired 0"),
    (
        "stat",
        "stat nodes 15 handles 0 mourners 0 free 1000 largest 1000 eden 0 past 0",
    ),
];

#[test]
fn a_circle_that_nothing_holds_goes(rt: HostRuntime) -> Result<(), Fail> {
    check_moves(&rt, rt.alloc(), 1_000, &NOTHING_HELD)
}

/// A weak slot, an ephemeron, a gap before a pinned object, and a forwarder.
const OF_EACH_KIND: [(&str, &str); 21] = [
    ("special s", "ok"),
    ("fetch c s 3", "ok"),
    ("fetch k s 5", "ok"),
    ("fetch l s 6", "ok"),
    ("newold w k 1", "ok"),
    ("newold e l 0", "ok"),
    ("newold a c 2", "ok"),
    ("newold p c 2", "ok"),
    ("newold b c 1", "ok"),
    ("newold d c 3", "ok"),
    ("newold f c 1", "ok"),
    ("newold g c 2", "ok"),
    ("store w 1 a", "ok"),
    ("store e 0 b", "ok"),
    ("pin p", "ok"),
    ("store d 0 f", "ok"),
    ("forward f g", "ok"),
    ("drop a", "ok"),
    ("drop b", "ok"),
    ("drop f", "ok"),
    ("gc", "nilled 1 fired 1"),
];

/// A further collection.
const AGAIN: [(&str, &str); 1] = [("gc", "nilled 0 fired 0")];

/// What is then left.
const LEFT: [(&str, &str); 7] = [
    (
        "stat",
        "stat nodes 21 handles 9 mourners 1 free 82 largest 79 eden 0 past 0",
    ),
    ("fetch x d 0", "ok"),
    ("same x g", "true"),
    ("fetch y w 1", "ok"),
    ("kind y", "nil"),
    ("mourn m", "ok"),
    ("same m e", "true"),
];

#[test]
fn a_second_collection_changes_no_word(rt: HostRuntime) -> Result<(), Fail> {
    let mut files = store(rt.alloc(), "")?;
    let mut once = Session::start(
        rt.alloc(),
        &mut files,
        "base.image",
        "a.script",
        old_space(100),
    )?;
    check_lines(&rt, &mut once, &mut files, &OF_EACH_KIND)?;
    let mut twice = Session::start(
        rt.alloc(),
        &mut files,
        "base.image",
        "a.script",
        old_space(100),
    )?;
    check_lines(&rt, &mut twice, &mut files, &OF_EACH_KIND)?;
    check_lines(&rt, &mut twice, &mut files, &AGAIN)?;
    let words = once.heap().parts.region.as_slice();
    assert_eq!(rt; twice.heap().parts.region.as_slice(), words);
    check_lines(&rt, &mut twice, &mut files, &LEFT)
}

/// Objects of eden and of old space, which name each other. What dies leaves room in its own space.
const YOUNG_AND_OLD: [(&str, &str); 45] = [
    ("special s", "ok"),
    ("fetch c s 3", "ok"),
    ("new a c 1", "ok"),
    ("new b c 3", "ok"),
    ("newold d c 1", "ok"),
    ("store d 0 b", "ok"),
    ("new e c 2", "ok"),
    ("store e 1 b", "ok"),
    ("store e 0 d", "ok"),
    ("newold f c 2", "ok"),
    ("new g c 1", "ok"),
    ("store f 0 g", "ok"),
    ("drop a", "ok"),
    ("drop b", "ok"),
    ("drop f", "ok"),
    ("drop g", "ok"),
    (
        "stat",
        "stat nodes 21 handles 4 mourners 0 free 95 largest 95 eden 53 past 0",
    ),
    ("gc", "nilled 0 fired 0"),
    (
        "stat",
        "stat nodes 18 handles 4 mourners 0 free 98 largest 98 eden 57 past 0",
    ),
    ("fetch x d 0", "ok"),
    ("size x", "3 0"),
    ("fetch y e 1", "ok"),
    ("same x y", "true"),
    ("fetch z e 0", "ok"),
    ("same z d", "true"),
    ("new h c 1", "ok"),
    ("store x 2 h", "ok"),
    // a young object that is pinned leaves its place in eden
    ("new p c 5", "ok"),
    ("store h 0 p", "ok"),
    ("pin p", "ok"),
    (
        "stat",
        "stat nodes 20 handles 9 mourners 0 free 92 largest 92 eden 49 past 0",
    ),
    ("gc", "nilled 0 fired 0"),
    (
        "stat",
        "stat nodes 20 handles 9 mourners 0 free 92 largest 92 eden 55 past 0",
    ),
    ("fetch q h 0", "ok"),
    ("same q p", "true"),
    ("drop d", "ok"),
    ("drop e", "ok"),
    ("drop x", "ok"),
    ("drop y", "ok"),
    ("drop z", "ok"),
    ("drop h", "ok"),
    ("drop p", "ok"),
    ("drop q", "ok"),
    ("gc", "nilled 0 fired 0"),
    (
        "stat",
        "stat nodes 15 handles 2 mourners 0 free 100 largest 100 eden 64 past 0",
    ),
];

#[test]
fn each_space_is_collected_within_itself(rt: HostRuntime) -> Result<(), Fail> {
    check_base(&rt, rt.alloc(), new_space(100), &YOUNG_AND_OLD)
}
