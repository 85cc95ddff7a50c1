use super::fixtures::{check_lines, new_space, old_space, store};
use replay::Session;
use std::test::Fail;

/// An object of each kind lives by the special objects array: one that is pinned behind a gap, a weak one, an ephemeron of eden that fires, what another
/// gave way to, and one with an overflow word.
const COLLECTED: [(&str, &str); 47] = [
    ("special s", "ok"),
    ("fetch c s 3", "ok"),
    ("fetch k s 5", "ok"),
    ("fetch l s 6", "ok"),
    ("newold h c 6", "ok"),
    ("store s 0 h", "ok"),
    ("newold g c 3", "ok"),
    ("newold p c 1", "ok"),
    ("store h 0 p", "ok"),
    ("store p 0 h", "ok"),
    ("newold w k 1", "ok"),
    ("store h 1 w", "ok"),
    ("newold a c 2", "ok"),
    ("store w 0 a", "ok"),
    ("newold b c 1", "ok"),
    ("store w 1 b", "ok"),
    ("new e l 0", "ok"),
    ("store h 2 e", "ok"),
    ("new j c 3", "ok"),
    ("store e 0 j", "ok"),
    ("new v c 1", "ok"),
    ("store e 1 v", "ok"),
    ("store v 0 w", "ok"),
    ("new x c 1", "ok"),
    ("store h 3 x", "ok"),
    ("new y c 4", "ok"),
    ("hash y", "991766"),
    ("forward x y", "ok"),
    ("newold z c 255", "ok"),
    ("store h 4 z", "ok"),
    ("store z 254 y", "ok"),
    ("pin p", "ok"),
    ("drop h", "ok"),
    ("drop g", "ok"),
    ("drop p", "ok"),
    ("drop w", "ok"),
    ("drop a", "ok"),
    ("drop b", "ok"),
    ("drop e", "ok"),
    ("drop j", "ok"),
    ("drop v", "ok"),
    ("drop x", "ok"),
    ("drop y", "ok"),
    ("drop z", "ok"),
    (
        "stat",
        "stat nodes 26 handles 4 mourners 0 free 722 largest 722 eden 48 past 0",
    ),
    ("gc", "nilled 1 fired 1"),
    (
        "stat",
        "stat nodes 24 handles 4 mourners 1 free 728 largest 724 eden 50 past 0",
    ),
];

/// What is asked of the heap, and of the image that it is saved as.
const ASKED: [(&str, &str); 29] = [
    ("special s", "ok"),
    ("fetch h s 0", "ok"),
    ("size h", "6 0"),
    ("fetch p h 0", "ok"),
    ("fetch q p 0", "ok"),
    ("same q h", "true"),
    ("become p h", "! pinned"),
    ("fetch w h 1", "ok"),
    ("kind w", "object 53 4"),
    ("fetch a w 0", "ok"),
    ("size a", "2 0"),
    ("fetch b w 1", "ok"),
    ("kind b", "nil"),
    ("fetch e h 2", "ok"),
    ("kind e", "object 54 1"),
    ("fetch j e 0", "ok"),
    ("size j", "3 0"),
    ("fetch v e 1", "ok"),
    ("fetch x v 0", "ok"),
    ("same x w", "true"),
    ("fetch y h 3", "ok"),
    ("size y", "4 0"),
    ("hash y", "991766"),
    ("fetch z h 4", "ok"),
    ("size z", "255 0"),
    ("fetch x z 254", "ok"),
    ("same x y", "true"),
    ("gc", "nilled 0 fired 0"),
    ("save out.image", "ok"),
];

/// The free words of the saved image: the gap before the pinned object, and the room.
const LOADED: [(&str, &str); 1] = [(
    "stat",
    "stat nodes 24 handles 13 mourners 0 free 104 largest 100 eden 0 past 0",
)];

#[test]
fn what_is_left_is_saved(rt: HostRuntime) -> Result<(), Fail> {
    let mut files = store(rt.alloc(), "")?;
    let limits = new_space(1_000);
    let mut first = Session::start(rt.alloc(), &mut files, "base.image", "a.script", limits)?;
    check_lines(&rt, &mut first, &mut files, &COLLECTED)?;
    check_lines(&rt, &mut first, &mut files, &ASKED)?;
    let limits = old_space(100);
    let mut again = Session::start(rt.alloc(), &mut files, "out.image", "a.script", limits)?;
    check_lines(&rt, &mut again, &mut files, &ASKED)?;
    check_lines(&rt, &mut again, &mut files, &LOADED)
}
