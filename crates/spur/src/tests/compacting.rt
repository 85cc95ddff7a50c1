use super::fixtures::{check_moves, check_places};
use std::test::Fail;

/// Two objects move, each into a gap of its size before a pinned one.
const TWO_MOVE: [(&str, &str); 24] = [
    ("special s", "ok"),
    ("fetch c s 3", "ok"),
    ("newold a c 3", "ok"),
    ("newold b c 3", "ok"),
    ("newold d c 3", "ok"),
    ("newold e c 3", "ok"),
    ("newold f c 3", "ok"),
    ("newold g c 3", "ok"),
    ("int i 9", "ok"),
    ("store b 0 i", "ok"),
    ("store f 0 b", "ok"),
    ("store g 2 e", "ok"),
    ("pin b", "ok"),
    ("pin e", "ok"),
    ("drop a", "ok"),
    ("drop d", "ok"),
    ("gc", "nilled 0 fired 0"),
    ("fetch x f 0", "ok"),
    ("same x b", "true"),
    ("fetch y g 2", "ok"),
    ("same y e", "true"),
    ("fetch z b 0", "ok"),
    ("kind z", "int 9"),
    (
        "stat",
        "stat nodes 19 handles 10 mourners 0 free 44 largest 44 eden 0 past 0",
    ),
];

const TWO_MOVED: [(&str, u64); 4] = [("f", 6_284), ("b", 6_288), ("g", 6_292), ("e", 6_296)];

/// A gap of three words before a pinned object, and an object of two.
const ONE_WORD_MORE: [(&str, &str); 12] = [
    ("special s", "ok"),
    ("fetch c s 3", "ok"),
    ("newold a c 3", "ok"),
    ("newold b c 2", "ok"),
    ("newold d c 2", "ok"),
    ("newold e c 1", "ok"),
    ("drop b", "ok"),
    ("pin d", "ok"),
    ("gc", "nilled 0 fired 0"),
    (
        "stat",
        "stat nodes 18 handles 5 mourners 0 free 3 largest 3 eden 0 past 0",
    ),
    ("newold f c 1", "! full 2 3 0"),
    ("newold f c 2", "ok"),
];

/// No pin, and no word that is free.
const NOTHING_FREE: [(&str, &str); 9] = [
    ("special s", "ok"),
    ("fetch c s 3", "ok"),
    ("newold a c 3", "ok"),
    ("newold b c 2", "ok"),
    ("newold d c 2", "ok"),
    ("drop b", "ok"),
    ("gc", "nilled 0 fired 0"),
    ("newold e c 1", "! full 2 3 0"),
    ("newold e c 2", "ok"),
];

#[test]
fn gaps_become_free_words(rt: HostRuntime) -> Result<(), Fail> {
    check_places(&rt, rt.alloc(), 60, &TWO_MOVE, &TWO_MOVED)?;
    check_moves(&rt, rt.alloc(), 12, &ONE_WORD_MORE)?;
    check_moves(&rt, rt.alloc(), 10, &NOTHING_FREE)
}

/// Four gaps before pinned objects, of 4, 3, 5 and 6 words, and objects of 4, 4, 2 and 2 words behind them.
const FOUR_GAPS: [(&str, &str); 39] = [
    ("special s", "ok"),
    ("fetch c s 3", "ok"),
    ("newold a c 3", "ok"),
    ("newold p1 c 1", "ok"),
    ("newold b c 2", "ok"),
    ("newold p2 c 1", "ok"),
    ("newold d c 4", "ok"),
    ("newold p3 c 1", "ok"),
    ("newold e c 5", "ok"),
    ("newold p4 c 1", "ok"),
    ("newold f c 3", "ok"),
    ("newold g c 3", "ok"),
    ("newold h c 1", "ok"),
    ("newold i c 1", "ok"),
    ("store f 0 g", "ok"),
    ("store g 2 i", "ok"),
    ("store p1 0 h", "ok"),
    ("store h 0 p4", "ok"),
    ("store i 0 f", "ok"),
    ("pin p1", "ok"),
    ("pin p2", "ok"),
    ("pin p3", "ok"),
    ("pin p4", "ok"),
    ("drop a", "ok"),
    ("drop b", "ok"),
    ("drop d", "ok"),
    ("drop e", "ok"),
    ("gc", "nilled 0 fired 0"),
    (
        "stat",
        "stat nodes 23 handles 10 mourners 0 free 80 largest 72 eden 0 past 0",
    ),
    ("fetch x f 0", "ok"),
    ("same x g", "true"),
    ("fetch x g 2", "ok"),
    ("same x i", "true"),
    ("fetch x p1 0", "ok"),
    ("same x h", "true"),
    ("fetch x h 0", "ok"),
    ("same x p4", "true"),
    ("fetch x i 0", "ok"),
    ("same x f", "true"),
];

/// Where they stand then: one fills the first gap; the next passes it, a gap short by one word and one longer by one, and leaves two words of the last,
/// which the third fills; the fourth stays behind the last pinned object.
const IN_GAPS: [(&str, u64); 8] = [
    ("f", 6_284),
    ("p1", 6_288),
    ("p2", 6_293),
    ("p3", 6_300),
    ("g", 6_302),
    ("h", 6_306),
    ("p4", 6_308),
    ("i", 6_310),
];

/// Two pinned objects that stand side by side, and a pinned one that is dead.
const SIDE_BY_SIDE: [(&str, &str); 21] = [
    ("special s", "ok"),
    ("fetch c s 3", "ok"),
    ("newold a c 1", "ok"),
    ("newold p c 2", "ok"),
    ("newold q c 2", "ok"),
    ("newold r c 1", "ok"),
    ("newold f c 2", "ok"),
    ("newold g c 1", "ok"),
    ("pin p", "ok"),
    ("pin q", "ok"),
    ("pin r", "ok"),
    ("drop a", "ok"),
    ("drop r", "ok"),
    ("gc", "nilled 0 fired 0"),
    (
        "stat",
        "stat nodes 19 handles 6 mourners 0 free 49 largest 47 eden 0 past 0",
    ),
    // one that may move again does
    ("unpin p", "ok"),
    ("unpin q", "ok"),
    ("pin g", "ok"),
    ("drop f", "ok"),
    ("gc", "nilled 0 fired 0"),
    (
        "stat",
        "stat nodes 18 handles 5 mourners 0 free 52 largest 47 eden 0 past 0",
    ),
];

const MOVED_AGAIN: [(&str, u64); 3] = [("p", 6_284), ("q", 6_287), ("g", 6_295)];

#[test]
fn objects_go_to_the_first_gap_that_takes_them(rt: HostRuntime) -> Result<(), Fail> {
    check_places(&rt, rt.alloc(), 100, &FOUR_GAPS, &IN_GAPS)?;
    check_places(&rt, rt.alloc(), 60, &SIDE_BY_SIDE, &MOVED_AGAIN)
}

/// Each object is pinned, with a gap between two of them.
const ALL_PINNED: [(&str, &str); 49] = [
    ("special s", "ok"),
    ("nil n", "ok"),
    ("true t", "ok"),
    ("false u", "ok"),
    ("fetch c s 3", "ok"),
    ("fetch d s 4", "ok"),
    ("fetch w s 5", "ok"),
    ("fetch e s 6", "ok"),
    ("fetch p s 7", "ok"),
    ("fetch q s 8", "ok"),
    ("fetch m s 9", "ok"),
    ("int i 1", "ok"),
    ("class k1 i", "ok"),
    ("char j 97", "ok"),
    ("class k2 j", "ok"),
    ("float f 4000000000000004", "ok"),
    ("class k4 f", "ok"),
    ("class k33 n", "ok"),
    ("newold a c 2", "ok"),
    ("newold b c 3", "ok"),
    ("newold x c 1", "ok"),
    ("store a 0 x", "ok"),
    ("store x 0 a", "ok"),
    ("store s 0 a", "ok"),
    ("pin s", "ok"),
    ("pin n", "ok"),
    ("pin t", "ok"),
    ("pin u", "ok"),
    ("pin c", "ok"),
    ("pin d", "ok"),
    ("pin w", "ok"),
    ("pin e", "ok"),
    ("pin p", "ok"),
    ("pin q", "ok"),
    ("pin m", "ok"),
    ("pin k1", "ok"),
    ("pin k2", "ok"),
    ("pin k4", "ok"),
    ("pin k33", "ok"),
    ("pin a", "ok"),
    ("pin x", "ok"),
    ("drop b", "ok"),
    ("drop a", "ok"),
    ("gc", "nilled 0 fired 0"),
    (
        "stat",
        "stat nodes 17 handles 19 mourners 0 free 55 largest 51 eden 0 past 0",
    ),
    ("fetch a s 0", "ok"),
    ("fetch y a 0", "ok"),
    ("same y x", "true"),
    ("become a x", "! pinned"),
];

#[test]
fn nothing_moves_where_all_are_pinned(rt: HostRuntime) -> Result<(), Fail> {
    check_moves(&rt, rt.alloc(), 60, &ALL_PINNED)
}
