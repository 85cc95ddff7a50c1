use super::fixtures::check_moves;
use std::test::Fail;

/// Two ephemerons fire at once, and a third one behind them. Those who mourn live by that alone, and are not exchanged.
const GROUPS: [(&str, &str); 38] = [
    ("special s", "ok"),
    ("fetch c s 3", "ok"),
    ("fetch k s 6", "ok"),
    ("new e1 k 0", "ok"),
    ("new e2 k 0", "ok"),
    ("new e3 k 0", "ok"),
    ("new a c 1", "ok"),
    ("store e1 0 a", "ok"),
    ("store e2 0 a", "ok"),
    ("store e1 1 e3", "ok"),
    ("store e2 1 e3", "ok"),
    ("new a c 1", "ok"),
    ("store e3 0 a", "ok"),
    ("drop a", "ok"),
    ("drop e3", "ok"),
    ("gc", "nilled 0 fired 3"),
    ("become e1 e2", "! mourning"),
    ("forward e2 s", "! mourning"),
    ("drop e1", "ok"),
    ("drop e2", "ok"),
    ("gc", "nilled 0 fired 0"),
    (
        "stat",
        "stat nodes 20 handles 3 mourners 3 free 87 largest 87 eden 0 past 0",
    ),
    ("mourn m", "ok"),
    ("mourn p", "ok"),
    ("same m p", "false"),
    ("become m p", "ok"),
    ("mourn q", "ok"),
    ("fetch x m 1", "ok"),
    ("same x q", "true"),
    ("fetch x p 1", "ok"),
    ("same x q", "true"),
    ("mourn r", "! none"),
    ("drop m", "ok"),
    ("drop p", "ok"),
    ("drop q", "ok"),
    ("drop x", "ok"),
    ("gc", "nilled 0 fired 0"),
    (
        "stat",
        "stat nodes 15 handles 3 mourners 0 free 100 largest 100 eden 0 past 0",
    ),
];

#[test]
fn mourners_are_taken_group_by_group(rt: HostRuntime) -> Result<(), Fail> {
    check_moves(&rt, rt.alloc(), 100, &GROUPS)
}
