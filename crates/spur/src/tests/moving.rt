use super::fixtures::{
    check_moves, check_places, check_session, old_space, old_space_moving, put_method,
    put_overflow_word, store,
};
use std::test::Fail;

/// An object with an overflow word, which a gap before a pinned object just takes.
const LARGE_FITS: [(&str, &str); 18] = [
    ("special s", "ok"),
    ("fetch c s 3", "ok"),
    ("newold a c 255", "ok"),
    ("newold p c 1", "ok"),
    ("newold b c 300", "ok"),
    ("newold z c 255", "ok"),
    ("store z 254 p", "ok"),
    ("store p 0 z", "ok"),
    ("pin p", "ok"),
    ("drop a", "ok"),
    ("drop b", "ok"),
    ("gc", "nilled 0 fired 0"),
    (
        "stat",
        "stat nodes 17 handles 4 mourners 0 free 741 largest 741 eden 0 past 0",
    ),
    ("size z", "255 0"),
    ("fetch x z 254", "ok"),
    ("same x p", "true"),
    ("fetch x p 0", "ok"),
    ("same x z", "true"),
];

const LARGE_IN_GAP: [(&str, u64); 2] = [("z", 6_285), ("p", 6_541)];

/// One that moves up to the pinned object and not past it.
const LARGE_STAYS: [(&str, &str); 21] = [
    ("special s", "ok"),
    ("fetch c s 3", "ok"),
    ("newold a c 254", "ok"),
    ("newold p c 1", "ok"),
    ("newold b c 2", "ok"),
    ("newold z c 255", "ok"),
    ("newold f c 253", "ok"),
    ("store z 0 f", "ok"),
    ("store z 254 p", "ok"),
    ("store f 252 z", "ok"),
    ("pin p", "ok"),
    ("drop a", "ok"),
    ("drop b", "ok"),
    ("gc", "nilled 0 fired 0"),
    (
        "stat",
        "stat nodes 18 handles 5 mourners 0 free 487 largest 255 eden 0 past 0",
    ),
    ("fetch x z 0", "ok"),
    ("same x f", "true"),
    ("fetch x z 254", "ok"),
    ("same x p", "true"),
    ("fetch x f 252", "ok"),
    ("same x z", "true"),
];

const LARGE_BEHIND: [(&str, u64); 3] = [("p", 6_539), ("z", 6_542), ("f", 6_798)];

#[test]
fn an_overflow_word_moves_with_its_object(rt: HostRuntime) -> Result<(), Fail> {
    check_places(&rt, rt.alloc(), 1_000, &LARGE_FITS, &LARGE_IN_GAP)?;
    check_places(&rt, rt.alloc(), 1_000, &LARGE_STAYS, &LARGE_BEHIND)
}

/// Forwarders in slots, in a handle, in the class table, and where the special objects array was.
const FORWARDERS: [(&str, &str); 36] = [
    ("special s", "ok"),
    ("fetch c s 3", "ok"),
    ("fetch k s 7", "ok"),
    ("newold t c 1", "ok"),
    ("become k t", "ok"),
    ("become k t", "ok"),
    ("newold u c 1", "ok"),
    ("become s u", "ok"),
    ("become s u", "ok"),
    ("newold h c 2", "ok"),
    ("newold a c 1", "ok"),
    ("newold b c 3", "ok"),
    ("store h 0 a", "ok"),
    ("store h 1 b", "ok"),
    ("store s 0 a", "ok"),
    ("@2 special s", "ok"),
    ("@2 fetch x s 0", "ok"),
    ("forward a b", "ok"),
    (
        "stat",
        "stat nodes 19 handles 10 mourners 0 free 149 largest 149 eden 0 past 0",
    ),
    ("gc", "nilled 0 fired 0"),
    (
        "stat",
        "stat nodes 19 handles 10 mourners 0 free 189 largest 189 eden 0 past 0",
    ),
    ("same a b", "true"),
    ("fetch y h 0", "ok"),
    ("same y b", "true"),
    ("fetch y s 0", "ok"),
    ("same y b", "true"),
    ("@2 size x", "3 0"),
    ("special z", "ok"),
    ("same z s", "true"),
    ("size z", "10 0"),
    ("newold p k 0", "ok"),
    ("kind p", "object 55 1"),
    ("class y p", "ok"),
    ("same y k", "true"),
    ("fetch y s 7", "ok"),
    ("same y k", "true"),
];

#[test]
fn no_forwarder_is_left(rt: HostRuntime) -> Result<(), Fail> {
    check_moves(&rt, rt.alloc(), 200, &FORWARDERS)
}

/// A class of bytes leaves its place, and all behind it moves: among it a method, an object with an overflow word that it does not need, and bytes.
const OF_EACH_SHAPE: [(&str, &str); 29] = [
    ("special s", "ok"),
    ("fetch c s 3", "ok"),
    ("fetch d s 4", "ok"),
    ("fetch p s 7", "ok"),
    ("fetch m s 8", "ok"),
    ("newold t c 1", "ok"),
    ("newold a c 2", "ok"),
    ("newold y d 9", "ok"),
    ("setunit y 8 7", "ok"),
    ("store m 1 a", "ok"),
    ("setunit m 3 200", "ok"),
    ("store p 1 m", "ok"),
    ("become d t", "ok"),
    ("gc", "nilled 0 fired 0"),
    (
        "stat",
        "stat nodes 18 handles 8 mourners 0 free 92 largest 92 eden 0 past 0",
    ),
    ("kind m", "object 32 24"),
    ("size m", "2 8"),
    ("fetch x m 0", "ok"),
    ("kind x", "int 1"),
    ("fetch x m 1", "ok"),
    ("same x a", "true"),
    ("unit m 3", "200"),
    ("size p", "2 0"),
    ("fetch x p 1", "ok"),
    ("same x m", "true"),
    ("size y", "0 9"),
    ("unit y 8", "7"),
    ("fetch x s 8", "ok"),
    ("same x m", "true"),
];

#[test]
fn what_moves_keeps_its_shape(rt: HostRuntime) -> Result<(), Fail> {
    let mut files = store(rt.alloc(), "")?;
    put_method(rt.alloc(), &mut files)?;
    put_overflow_word(rt.alloc(), &mut files)?;
    let alone = old_space_moving(100, 1);
    check_session(&rt, rt.alloc(), &mut files, alone, &OF_EACH_SHAPE)?;
    check_session(&rt, rt.alloc(), &mut files, old_space(100), &OF_EACH_SHAPE)
}
