use super::fixtures::{check_base, check_moves, check_session, new_space, old_space, patch, store};
use std::test::Fail;

/// A weak object of one fixed slot and one other: what only the other names dies.
const ONE_OF_EACH: [(&str, &str); 15] = [
    ("special s", "ok"),
    ("fetch c s 3", "ok"),
    ("fetch k s 5", "ok"),
    ("new w k 1", "ok"),
    ("new a c 1", "ok"),
    ("new b c 1", "ok"),
    ("store w 0 a", "ok"),
    ("store w 1 b", "ok"),
    ("drop a", "ok"),
    ("drop b", "ok"),
    ("gc", "nilled 1 fired 0"),
    ("fetch x w 0", "ok"),
    ("kind x", "object 51 2"),
    ("fetch y w 1", "ok"),
    ("kind y", "nil"),
];

#[test]
fn what_weak_slots_alone_name_dies(rt: HostRuntime) -> Result<(), Fail> {
    check_moves(&rt, rt.alloc(), 100, &ONE_OF_EACH)?;
    check_base(&rt, rt.alloc(), new_space(100), &ONE_OF_EACH)
}

/// Weak slots that name what lives, what dies, the weak object itself and what gave way to what lives, and one with an immediate. Then one of the
/// two weak objects dies too.
const EACH_NAMED: [(&str, &str); 46] = [
    ("special s", "ok"),
    ("fetch c s 3", "ok"),
    ("fetch k s 5", "ok"),
    ("new w k 6", "ok"),
    ("new v k 1", "ok"),
    ("new a c 1", "ok"),
    ("new b c 2", "ok"),
    ("new d c 3", "ok"),
    ("new f c 1", "ok"),
    ("int i 1", "ok"),
    ("store w 0 a", "ok"),
    ("store w 1 a", "ok"),
    ("store w 2 b", "ok"),
    ("store w 3 b", "ok"),
    ("store w 4 w", "ok"),
    ("store w 5 i", "ok"),
    ("store w 6 f", "ok"),
    ("store v 1 b", "ok"),
    ("forward f d", "ok"),
    ("drop a", "ok"),
    ("drop b", "ok"),
    ("drop f", "ok"),
    ("gc", "nilled 3 fired 0"),
    (
        "stat",
        "stat nodes 19 handles 7 mourners 0 free 83 largest 83 eden 0 past 0",
    ),
    ("fetch x w 0", "ok"),
    ("size x", "1 0"),
    ("fetch y w 1", "ok"),
    ("same x y", "true"),
    ("fetch y w 2", "ok"),
    ("kind y", "nil"),
    ("fetch y w 3", "ok"),
    ("kind y", "nil"),
    ("fetch y w 4", "ok"),
    ("same y w", "true"),
    ("fetch y w 5", "ok"),
    ("kind y", "int 1"),
    ("fetch y w 6", "ok"),
    ("same y d", "true"),
    ("fetch y v 1", "ok"),
    ("kind y", "nil"),
    ("gc", "nilled 0 fired 0"),
    // the slots of a weak object that is dead are not counted
    ("drop w", "ok"),
    ("drop d", "ok"),
    ("drop x", "ok"),
    ("gc", "nilled 0 fired 0"),
    (
        "stat",
        "stat nodes 16 handles 6 mourners 0 free 97 largest 97 eden 0 past 0",
    ),
];

#[test]
fn each_slot_of_a_weak_object_has_its_own_end(rt: HostRuntime) -> Result<(), Fail> {
    check_moves(&rt, rt.alloc(), 100, &EACH_NAMED)
}

/// The class of a weak object tells more fixed slots than it has, by a positive number and by a negative one, then one, then none.
const OTHER_NUMBERS: [(&str, &str); 32] = [
    ("special s", "ok"),
    ("fetch c s 3", "ok"),
    ("fetch k s 5", "ok"),
    ("new w k 1", "ok"),
    ("new a c 1", "ok"),
    ("new b c 2", "ok"),
    ("store w 0 a", "ok"),
    ("store w 1 b", "ok"),
    ("drop a", "ok"),
    ("drop b", "ok"),
    ("int f 262149", "ok"),
    ("store k 2 f", "ok"),
    ("gc", "nilled 0 fired 0"),
    ("int f -1", "ok"),
    ("store k 2 f", "ok"),
    ("gc", "nilled 0 fired 0"),
    ("fetch x w 1", "ok"),
    ("size x", "2 0"),
    ("drop x", "ok"),
    // the low 16 bits are 1
    ("int f -65535", "ok"),
    ("store k 2 f", "ok"),
    ("gc", "nilled 1 fired 0"),
    ("fetch x w 1", "ok"),
    ("kind x", "nil"),
    ("fetch x w 0", "ok"),
    ("size x", "1 0"),
    ("drop x", "ok"),
    // no number at all
    ("nil n", "ok"),
    ("store k 2 n", "ok"),
    ("gc", "nilled 1 fired 0"),
    ("fetch x w 0", "ok"),
    ("kind x", "nil"),
];

/// The class of a weak object changes contents with an object of one slot.
const NO_NUMBER: [(&str, &str); 14] = [
    ("special s", "ok"),
    ("fetch c s 3", "ok"),
    ("fetch k s 5", "ok"),
    ("new w k 1", "ok"),
    ("new a c 1", "ok"),
    ("new t c 1", "ok"),
    ("store w 0 a", "ok"),
    ("drop a", "ok"),
    ("become k t", "ok"),
    ("gc", "nilled 1 fired 0"),
    ("fetch x w 0", "ok"),
    ("kind x", "nil"),
    ("kind w", "object 53 4"),
    ("size k", "1 0"),
];

#[test]
fn fixed_slots_are_as_many_as_the_class_tells_then(rt: HostRuntime) -> Result<(), Fail> {
    check_moves(&rt, rt.alloc(), 100, &OTHER_NUMBERS)?;
    check_moves(&rt, rt.alloc(), 100, &NO_NUMBER)
}

/// Where the header of the special objects array stands in the file of the base image.
const SPECIAL_HEADER: usize = 50_312;

/// The special objects array is weak, and its class index has no entry.
const NO_CLASS: [(&str, &str); 17] = [
    ("special s", "ok"),
    ("kind s", "object 57 4"),
    ("class n s", "ok"),
    ("kind n", "nil"),
    ("fetch c s 3", "ok"),
    ("new a c 1", "ok"),
    ("new b c 1", "ok"),
    ("store s 0 a", "ok"),
    ("store s 1 b", "ok"),
    ("drop a", "ok"),
    ("gc", "nilled 1 fired 0"),
    ("fetch x s 0", "ok"),
    ("kind x", "nil"),
    ("fetch y s 1", "ok"),
    ("same y b", "true"),
    ("fetch z s 3", "ok"),
    ("same z c", "true"),
];

#[test]
fn without_a_class_no_slot_is_fixed(rt: HostRuntime) -> Result<(), Fail> {
    let mut files = store(rt.alloc(), "")?;
    // class index 57 in place of 51, format 4 in place of 2
    patch(rt.alloc(), &mut files, SPECIAL_HEADER, &[57, 0, 0, 4])?;
    check_session(&rt, rt.alloc(), &mut files, old_space(100), &NO_CLASS)
}

/// Weak slots that name what an ephemeron keeps once it has fired, and what dies.
const KEPT_BY_FIRING: [(&str, &str); 19] = [
    ("special s", "ok"),
    ("fetch c s 3", "ok"),
    ("fetch k s 5", "ok"),
    ("fetch l s 6", "ok"),
    ("new w k 2", "ok"),
    ("new e l 0", "ok"),
    ("new a c 1", "ok"),
    ("new b c 1", "ok"),
    ("store e 0 a", "ok"),
    ("store w 1 a", "ok"),
    ("store w 2 b", "ok"),
    ("drop a", "ok"),
    ("drop b", "ok"),
    ("gc", "nilled 1 fired 1"),
    ("fetch x w 1", "ok"),
    ("fetch y e 0", "ok"),
    ("same x y", "true"),
    ("fetch z w 2", "ok"),
    ("kind z", "nil"),
];

#[test]
fn weak_slots_become_nil_behind_the_last_round(rt: HostRuntime) -> Result<(), Fail> {
    check_moves(&rt, rt.alloc(), 100, &KEPT_BY_FIRING)
}
