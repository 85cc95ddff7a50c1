use super::fixtures::{check_base, check_moves, new_space};
use std::test::Fail;

/// The key of one ephemeron dies, and then that of another, which only the first names.
const ONE_BEHIND_ANOTHER: [(&str, &str); 21] = [
    ("special s", "ok"),
    ("fetch c s 3", "ok"),
    ("fetch k s 6", "ok"),
    ("new e1 k 0", "ok"),
    ("new e2 k 0", "ok"),
    ("new k1 c 1", "ok"),
    ("new k2 c 1", "ok"),
    ("store e1 0 k1", "ok"),
    ("store e1 1 e2", "ok"),
    ("store e2 0 k2", "ok"),
    ("drop k1", "ok"),
    ("drop k2", "ok"),
    ("drop e2", "ok"),
    ("gc", "nilled 0 fired 2"),
    ("mourn m", "ok"),
    ("same m e1", "true"),
    ("mourn p", "ok"),
    ("fetch q e1 1", "ok"),
    ("same p q", "true"),
    ("mourn r", "! none"),
    ("kind e1", "object 54 1"),
];

/// Three rounds.
const TWO_BEHIND_ANOTHER: [(&str, &str); 30] = [
    ("special s", "ok"),
    ("fetch c s 3", "ok"),
    ("fetch k s 6", "ok"),
    ("new e3 k 0", "ok"),
    ("new e2 k 0", "ok"),
    ("new e1 k 0", "ok"),
    ("new a c 1", "ok"),
    ("store e1 0 a", "ok"),
    ("store e1 1 e2", "ok"),
    ("new a c 2", "ok"),
    ("store e2 0 a", "ok"),
    ("store e2 1 e3", "ok"),
    ("new a c 3", "ok"),
    ("store e3 0 a", "ok"),
    ("drop a", "ok"),
    ("drop e2", "ok"),
    ("drop e3", "ok"),
    ("gc", "nilled 0 fired 3"),
    (
        "stat",
        "stat nodes 21 handles 4 mourners 3 free 82 largest 82 eden 0 past 0",
    ),
    ("mourn m", "ok"),
    ("same m e1", "true"),
    ("mourn p", "ok"),
    ("fetch x p 0", "ok"),
    ("size x", "2 0"),
    ("mourn q", "ok"),
    ("fetch x q 0", "ok"),
    ("size x", "3 0"),
    ("fetch y p 1", "ok"),
    ("same y q", "true"),
    ("mourn r", "! none"),
];

#[test]
fn ephemerons_fire_in_rounds(rt: HostRuntime) -> Result<(), Fail> {
    check_moves(&rt, rt.alloc(), 100, &ONE_BEHIND_ANOTHER)?;
    check_base(&rt, rt.alloc(), new_space(100), &ONE_BEHIND_ANOTHER)?;
    check_moves(&rt, rt.alloc(), 100, &TWO_BEHIND_ANOTHER)
}

/// Keys that live: an immediate, what another object names, what gave way to what lives, the ephemeron itself, and what a later ephemeron names whose
/// own key lives. Their values live by them.
const LIVING_KEYS: [(&str, &str); 48] = [
    ("special s", "ok"),
    ("fetch c s 3", "ok"),
    ("fetch k s 6", "ok"),
    ("new e1 k 0", "ok"),
    ("int i 7", "ok"),
    ("store e1 0 i", "ok"),
    ("new v c 1", "ok"),
    ("store e1 1 v", "ok"),
    ("new e2 k 0", "ok"),
    ("new h c 1", "ok"),
    ("new j c 1", "ok"),
    ("store h 0 j", "ok"),
    ("store e2 0 j", "ok"),
    ("new v c 2", "ok"),
    ("store e2 1 v", "ok"),
    ("new e3 k 0", "ok"),
    ("new l c 3", "ok"),
    ("new j c 1", "ok"),
    ("store e3 0 j", "ok"),
    ("forward j l", "ok"),
    ("new v c 3", "ok"),
    ("store e3 1 v", "ok"),
    ("new e4 k 0", "ok"),
    ("store e4 0 e4", "ok"),
    ("new e5 k 0", "ok"),
    ("new e6 k 0", "ok"),
    ("new j c 1", "ok"),
    ("store e6 0 s", "ok"),
    ("store e6 1 j", "ok"),
    ("store e5 0 j", "ok"),
    ("new v c 4", "ok"),
    ("store e5 1 v", "ok"),
    ("drop j", "ok"),
    ("drop v", "ok"),
    ("gc", "nilled 0 fired 0"),
    (
        "stat",
        "stat nodes 29 handles 12 mourners 0 free 58 largest 58 eden 0 past 0",
    ),
    ("fetch x e1 1", "ok"),
    ("size x", "1 0"),
    ("fetch x e2 1", "ok"),
    ("size x", "2 0"),
    ("fetch x e3 1", "ok"),
    ("size x", "3 0"),
    ("fetch x e5 1", "ok"),
    ("size x", "4 0"),
    ("fetch y e3 0", "ok"),
    ("same y l", "true"),
    ("kind e5", "object 54 5"),
    ("mourn m", "! none"),
];

#[test]
fn ephemerons_whose_keys_live_keep_their_values(rt: HostRuntime) -> Result<(), Fail> {
    check_moves(&rt, rt.alloc(), 100, &LIVING_KEYS)
}

/// A key that only the ephemeron's own value names.
const OWN_VALUE: [(&str, &str); 22] = [
    ("special s", "ok"),
    ("fetch c s 3", "ok"),
    ("fetch k s 6", "ok"),
    ("new e k 0", "ok"),
    ("new j c 1", "ok"),
    ("new h c 1", "ok"),
    ("store e 0 j", "ok"),
    ("store e 1 h", "ok"),
    ("store h 0 j", "ok"),
    ("drop j", "ok"),
    ("drop h", "ok"),
    ("gc", "nilled 0 fired 1"),
    (
        "stat",
        "stat nodes 18 handles 4 mourners 1 free 93 largest 93 eden 0 past 0",
    ),
    ("kind e", "object 54 1"),
    ("fetch x e 0", "ok"),
    ("fetch y e 1", "ok"),
    ("fetch z y 0", "ok"),
    ("same z x", "true"),
    ("gc", "nilled 0 fired 0"),
    ("mourn m", "ok"),
    ("same m e", "true"),
    ("mourn n", "! none"),
];

/// A key that gave way to what dies.
const DEAD_BEHIND_A_FORWARDER: [(&str, &str); 14] = [
    ("special s", "ok"),
    ("fetch c s 3", "ok"),
    ("fetch k s 6", "ok"),
    ("new e k 0", "ok"),
    ("new j c 1", "ok"),
    ("new l c 3", "ok"),
    ("store e 0 j", "ok"),
    ("forward j l", "ok"),
    ("drop j", "ok"),
    ("drop l", "ok"),
    ("gc", "nilled 0 fired 1"),
    (
        "stat",
        "stat nodes 17 handles 4 mourners 1 free 93 largest 93 eden 0 past 0",
    ),
    ("fetch x e 0", "ok"),
    ("size x", "3 0"),
];

/// Two ephemerons, each with the key of the other as its value.
const CROSSED: [(&str, &str); 24] = [
    ("special s", "ok"),
    ("fetch c s 3", "ok"),
    ("fetch k s 6", "ok"),
    ("new e1 k 0", "ok"),
    ("new e2 k 0", "ok"),
    ("new a c 1", "ok"),
    ("new b c 2", "ok"),
    ("store e1 0 a", "ok"),
    ("store e1 1 b", "ok"),
    ("store e2 0 b", "ok"),
    ("store e2 1 a", "ok"),
    ("drop a", "ok"),
    ("drop b", "ok"),
    ("gc", "nilled 0 fired 2"),
    (
        "stat",
        "stat nodes 19 handles 5 mourners 2 free 89 largest 89 eden 0 past 0",
    ),
    ("fetch x e1 0", "ok"),
    ("fetch y e2 1", "ok"),
    ("same x y", "true"),
    ("mourn m", "ok"),
    ("mourn p", "ok"),
    ("same m p", "false"),
    ("kind m", "object 54 1"),
    ("kind p", "object 54 1"),
    ("mourn q", "! none"),
];

#[test]
fn an_ephemeron_is_no_cause_that_its_key_lives(rt: HostRuntime) -> Result<(), Fail> {
    check_moves(&rt, rt.alloc(), 100, &OWN_VALUE)?;
    check_moves(&rt, rt.alloc(), 100, &DEAD_BEHIND_A_FORWARDER)?;
    check_moves(&rt, rt.alloc(), 100, &CROSSED)
}

/// Two ephemerons, each the key of the other: first one of them lives, then none does, beside one that dies with its key.
const EACH_OTHERS_KEY: [(&str, &str); 25] = [
    ("special s", "ok"),
    ("fetch c s 3", "ok"),
    ("fetch k s 6", "ok"),
    ("new e1 k 0", "ok"),
    ("new e2 k 0", "ok"),
    ("store e1 0 e2", "ok"),
    ("store e2 0 e1", "ok"),
    ("drop e2", "ok"),
    ("gc", "nilled 0 fired 1"),
    ("kind e1", "object 54 1"),
    ("fetch x e1 0", "ok"),
    ("kind x", "object 54 5"),
    ("mourn m", "ok"),
    ("same m e1", "true"),
    ("mourn n", "! none"),
    ("new e3 k 0", "ok"),
    ("new a c 1", "ok"),
    ("store e3 0 a", "ok"),
    ("drop a", "ok"),
    ("drop e3", "ok"),
    ("drop e1", "ok"),
    ("drop x", "ok"),
    ("drop m", "ok"),
    ("gc", "nilled 0 fired 0"),
    (
        "stat",
        "stat nodes 15 handles 3 mourners 0 free 100 largest 100 eden 0 past 0",
    ),
];

/// An ephemeron without slots, and one with a key alone.
const FEW_SLOTS: [(&str, &str); 25] = [
    ("special s", "ok"),
    ("fetch c s 3", "ok"),
    ("fetch m s 9", "ok"),
    ("new k m 0", "ok"),
    ("int f 327680", "ok"),
    ("store k 2 f", "ok"),
    ("enter k", "1024"),
    ("new e k 0", "ok"),
    ("int f 327681", "ok"),
    ("store k 2 f", "ok"),
    ("new d k 0", "ok"),
    ("new a c 1", "ok"),
    ("store d 0 a", "ok"),
    ("drop a", "ok"),
    ("kind e", "object 1024 5"),
    ("size e", "0 0"),
    ("size d", "1 0"),
    ("gc", "nilled 0 fired 1"),
    ("kind e", "object 1024 5"),
    ("kind d", "object 1024 1"),
    ("fetch x d 0", "ok"),
    ("size x", "1 0"),
    ("mourn q", "ok"),
    ("same q d", "true"),
    ("mourn r", "! none"),
];

#[test]
fn only_an_ephemeron_that_lives_and_has_a_key_fires(rt: HostRuntime) -> Result<(), Fail> {
    check_moves(&rt, rt.alloc(), 100, &EACH_OTHERS_KEY)?;
    check_moves(&rt, rt.alloc(), 100, &FEW_SLOTS)
}

/// Keys that values of other ephemerons are, one behind another: along the order in which the ephemerons are met, and against it. Between them one dies.
const KEYS_FOUND_ONE_BY_ANOTHER: [(&str, &str); 81] = [
    ("special s", "ok"),
    ("fetch c s 3", "ok"),
    ("fetch k s 6", "ok"),
    ("new h c 9", "ok"),
    ("new p c 1", "ok"),
    ("new j c 1", "ok"),
    ("store p 0 j", "ok"),
    ("store h 0 p", "ok"),
    ("new e k 0", "ok"),
    ("store e 0 j", "ok"),
    ("new i c 2", "ok"),
    ("store e 1 i", "ok"),
    ("store h 1 e", "ok"),
    ("new e k 0", "ok"),
    ("store e 0 i", "ok"),
    ("new j c 3", "ok"),
    ("store e 1 j", "ok"),
    ("store h 2 e", "ok"),
    ("new e k 0", "ok"),
    ("store e 0 j", "ok"),
    ("new i c 4", "ok"),
    ("store e 1 i", "ok"),
    ("store h 3 e", "ok"),
    ("new d c 9", "ok"),
    ("new e k 0", "ok"),
    ("store e 0 d", "ok"),
    ("store h 4 e", "ok"),
    ("new p c 1", "ok"),
    ("new j c 1", "ok"),
    ("store p 0 j", "ok"),
    ("store h 5 p", "ok"),
    ("new e k 0", "ok"),
    ("store e 0 j", "ok"),
    ("new i c 5", "ok"),
    ("store e 1 i", "ok"),
    ("store h 8 e", "ok"),
    ("new e k 0", "ok"),
    ("store e 0 i", "ok"),
    ("new j c 6", "ok"),
    ("store e 1 j", "ok"),
    ("store h 7 e", "ok"),
    ("new e k 0", "ok"),
    ("store e 0 j", "ok"),
    ("new i c 7", "ok"),
    ("store e 1 i", "ok"),
    ("store h 6 e", "ok"),
    ("drop p", "ok"),
    ("drop i", "ok"),
    ("drop j", "ok"),
    ("drop e", "ok"),
    ("drop d", "ok"),
    ("gc", "nilled 0 fired 1"),
    ("fetch x h 1", "ok"),
    ("kind x", "object 54 5"),
    ("fetch x x 1", "ok"),
    ("size x", "2 0"),
    ("fetch x h 2", "ok"),
    ("kind x", "object 54 5"),
    ("fetch x x 1", "ok"),
    ("size x", "3 0"),
    ("fetch x h 3", "ok"),
    ("kind x", "object 54 5"),
    ("fetch x x 1", "ok"),
    ("size x", "4 0"),
    ("fetch x h 8", "ok"),
    ("kind x", "object 54 5"),
    ("fetch x x 1", "ok"),
    ("size x", "5 0"),
    ("fetch x h 7", "ok"),
    ("kind x", "object 54 5"),
    ("fetch x x 1", "ok"),
    ("size x", "6 0"),
    ("fetch x h 6", "ok"),
    ("kind x", "object 54 5"),
    ("fetch x x 1", "ok"),
    ("size x", "7 0"),
    ("fetch x h 4", "ok"),
    ("kind x", "object 54 1"),
    ("mourn m", "ok"),
    ("same m x", "true"),
    ("mourn r", "! none"),
];

#[test]
fn keys_are_found_one_by_another_in_either_order(rt: HostRuntime) -> Result<(), Fail> {
    check_moves(&rt, rt.alloc(), 200, &KEYS_FOUND_ONE_BY_ANOTHER)
}
