ghost use Rattle.image_load.specs.Loaded.{AreLimits};

use super::fixtures::{
    check_base, check_lines, check_session, new_space, old_space, put_method, put_overflow_word,
    run_words, store,
};
use replay::{Session, Status};
use spur_graph::{HandleName, Limits};
use spur_io::MemorySink;
use std::alloc::Global;
use std::process::Abort;
use std::test::Fail;

#[test]
fn objects_of_equal_words_change_contents_in_place(rt: HostRuntime) -> Result<(), Fail> {
    check_base(
        &rt,
        rt.alloc(),
        old_space(1_000),
        &[
            ("special s", "ok"),
            ("fetch c s 3", "ok"),
            ("newold a c 1", "ok"),
            ("newold b c 1", "ok"),
            ("store a 0 s", "ok"),
            ("hash b", "991766"),
            ("become a b", "ok"),
            ("size a", "1 0"),
            ("kind a", "object 51 2"),
            ("fetch x a 0", "ok"),
            ("kind x", "nil"),
            ("fetch y b 0", "ok"),
            ("same y s", "true"),
            ("hash b", "991766"),
            ("hash a", "1548833"),
            (
                "stat",
                "stat nodes 17 handles 6 mourners 0 free 996 largest 996 eden 0 past 0",
            ),
        ],
    )
}

#[test]
fn no_slots_change_places_with_one(rt: HostRuntime) -> Result<(), Fail> {
    check_base(
        &rt,
        rt.alloc(),
        old_space(1_000),
        &[
            ("special s", "ok"),
            ("fetch c s 3", "ok"),
            ("newold a c 0", "ok"),
            ("newold b c 1", "ok"),
            ("store b 0 s", "ok"),
            ("become a b", "ok"),
            ("size a", "1 0"),
            ("size b", "0 0"),
            ("fetch x a 0", "ok"),
            ("same x s", "true"),
            ("fetch y b 0", "! index"),
            ("become a b", "ok"),
            ("size a", "0 0"),
            ("size b", "1 0"),
            ("kind a", "object 51 2"),
            ("hash a", "991766"),
            ("hash b", "1548833"),
            (
                "stat",
                "stat nodes 17 handles 5 mourners 0 free 996 largest 996 eden 0 past 0",
            ),
        ],
    )
}

#[test]
fn objects_of_other_words_are_copied_into_one_piece(rt: HostRuntime) -> Result<(), Fail> {
    check_base(
        &rt,
        rt.alloc(),
        old_space(1_000),
        &[
            ("special s", "ok"),
            ("fetch c s 3", "ok"),
            ("newold a c 1", "ok"),
            ("newold b c 3", "ok"),
            ("hash a", "991766"),
            ("store b 2 s", "ok"),
            ("become a b", "ok"),
            ("size a", "3 0"),
            ("size b", "1 0"),
            ("kind b", "object 51 2"),
            ("fetch x a 2", "ok"),
            ("same x s", "true"),
            ("hash a", "991766"),
            ("hash b", "1548833"),
            ("become a a", "ok"),
            (
                "stat",
                "stat nodes 17 handles 5 mourners 0 free 988 largest 988 eden 0 past 0",
            ),
        ],
    )?;
    check_base(
        &rt,
        rt.alloc(),
        old_space(2_000),
        &[
            ("special s", "ok"),
            ("fetch c s 3", "ok"),
            ("newold a c 254", "ok"),
            ("newold b c 255", "ok"),
            ("store b 254 s", "ok"),
            ("become a b", "ok"),
            ("size a", "255 0"),
            ("size b", "254 0"),
            ("fetch x a 254", "ok"),
            ("same x s", "true"),
            ("fetch x b 253", "ok"),
            ("kind x", "nil"),
            ("hash a", "991766"),
            ("hash b", "1548833"),
            (
                "stat",
                "stat nodes 17 handles 5 mourners 0 free 976 largest 976 eden 0 past 0",
            ),
        ],
    )
}

#[test]
fn a_piece_that_nothing_serves_is_told(rt: HostRuntime) -> Result<(), Fail> {
    check_base(
        &rt,
        rt.alloc(),
        old_space(20),
        &[
            ("special s", "ok"),
            ("fetch c s 3", "ok"),
            ("newold a c 1", "ok"),
            ("newold b c 9", "ok"),
            (
                "stat",
                "stat nodes 17 handles 4 mourners 0 free 8 largest 8 eden 0 past 0",
            ),
            ("become a b", "! full 12 8 0"),
            ("size a", "1 0"),
            (
                "stat",
                "stat nodes 17 handles 4 mourners 0 free 8 largest 8 eden 0 past 0",
            ),
        ],
    )
}

#[test]
fn names_behind_forwarders_are_exchanged(rt: HostRuntime) -> Result<(), Fail> {
    check_base(
        &rt,
        rt.alloc(),
        old_space(1_000),
        &[
            ("special s", "ok"),
            ("fetch c s 3", "ok"),
            ("newold a c 1", "ok"),
            ("newold b c 2", "ok"),
            ("newold d c 3", "ok"),
            ("newold e c 5", "ok"),
            ("newold h c 1", "ok"),
            ("store h 0 a", "ok"),
            ("forward a b", "ok"),
            ("forward b d", "ok"),
            ("fetch x h 0", "ok"),
            ("become x e", "ok"),
            ("size a", "5 0"),
            ("size d", "5 0"),
            ("size e", "3 0"),
            ("same a d", "true"),
            ("fetch x h 0", "ok"),
            ("same x b", "true"),
            ("kind x", "object 51 2"),
            ("hash x", "991766"),
            ("hash a", "991766"),
            (
                "stat",
                "stat nodes 18 handles 8 mourners 0 free 973 largest 973 eden 0 past 0",
            ),
        ],
    )
}

#[test]
fn a_class_and_its_instance_are_exchanged(rt: HostRuntime) -> Result<(), Fail> {
    check_base(
        &rt,
        rt.alloc(),
        old_space(1_000),
        &[
            ("special s", "ok"),
            ("fetch p s 7", "ok"),
            ("newold i p 0", "ok"),
            ("become p i", "ok"),
            ("kind p", "object 55 1"),
            ("kind i", "object 32 1"),
            ("size p", "2 0"),
            ("size i", "3 0"),
            ("class k p", "ok"),
            ("same k p", "true"),
            ("fetch y i 2", "ok"),
            ("kind y", "int 65538"),
            ("hash p", "55"),
            ("newold z p 0", "! class"),
            ("newold z i 0", "! class"),
            (
                "stat",
                "stat nodes 16 handles 5 mourners 0 free 990 largest 990 eden 0 past 0",
            ),
        ],
    )?;
    // two entered classes: each name keeps its hash and its entry
    check_base(
        &rt,
        rt.alloc(),
        old_space(1_000),
        &[
            ("special s", "ok"),
            ("fetch p s 7", "ok"),
            ("fetch q s 3", "ok"),
            ("become p q", "ok"),
            ("hash p", "55"),
            ("hash q", "51"),
            ("newold x p 4", "ok"),
            ("kind x", "object 55 2"),
            ("size x", "4 0"),
            ("newold y q 0", "ok"),
            ("kind y", "object 51 1"),
            ("size y", "2 0"),
            ("class k s", "ok"),
            ("same k q", "true"),
        ],
    )
}

#[test]
fn objects_of_each_kind_are_exchanged(rt: HostRuntime) -> Result<(), Fail> {
    check_base(
        &rt,
        rt.alloc(),
        old_space(1_000),
        &[
            ("special s", "ok"),
            ("fetch c s 3", "ok"),
            ("fetch d s 4", "ok"),
            ("fetch w s 5", "ok"),
            ("fetch k s 6", "ok"),
            ("newold a c 2", "ok"),
            ("newold x w 1", "ok"),
            ("become a x", "ok"),
            ("kind a", "object 53 4"),
            ("kind x", "object 51 2"),
            ("newold b c 5", "ok"),
            ("newold e k 0", "ok"),
            ("store e 1 s", "ok"),
            ("become b e", "ok"),
            ("kind b", "object 54 5"),
            ("size b", "2 0"),
            ("size e", "5 0"),
            ("fetch v b 1", "ok"),
            ("same v s", "true"),
            ("newold f c 1", "ok"),
            ("newold t d 3", "ok"),
            ("setunit t 2 255", "ok"),
            ("become f t", "ok"),
            ("kind f", "object 52 21"),
            ("unit f 2", "255"),
            ("size f", "0 3"),
            ("size t", "1 0"),
            ("fetch v t 0", "ok"),
            ("kind v", "nil"),
        ],
    )
}

#[test]
fn a_method_becomes_an_array(rt: HostRuntime) -> Result<(), Fail> {
    let mut files = store(rt.alloc(), "")?;
    put_method(rt.alloc(), &mut files)?;
    check_session(
        &rt,
        rt.alloc(),
        &mut files,
        old_space(100),
        &[
            ("special s", "ok"),
            ("fetch c s 3", "ok"),
            ("fetch m s 8", "ok"),
            ("size m", "2 8"),
            ("newold a c 1", "ok"),
            ("become m a", "ok"),
            ("kind m", "object 51 2"),
            ("size m", "1 0"),
            ("kind a", "object 32 24"),
            ("size a", "2 8"),
            ("unit a 0", "9"),
            ("fetch x a 0", "ok"),
            ("kind x", "int 1"),
            ("hash m", "56"),
            (
                "stat",
                "stat nodes 16 handles 5 mourners 0 free 92 largest 92 eden 0 past 0",
            ),
        ],
    )
}

#[test]
fn an_overflow_word_without_need_is_left_behind(rt: HostRuntime) -> Result<(), Fail> {
    let mut files = store(rt.alloc(), "")?;
    put_overflow_word(rt.alloc(), &mut files)?;
    check_session(
        &rt,
        rt.alloc(),
        &mut files,
        old_space(100),
        &[
            ("special s", "ok"),
            ("fetch c s 3", "ok"),
            ("fetch p s 7", "ok"),
            ("size p", "2 0"),
            ("newold a c 3", "ok"),
            ("become p a", "ok"),
            ("kind p", "object 51 2"),
            ("size p", "3 0"),
            ("kind a", "object 32 1"),
            ("size a", "2 0"),
            ("hash p", "55"),
            ("hash a", "991766"),
            (
                "stat",
                "stat nodes 16 handles 4 mourners 0 free 89 largest 89 eden 0 past 0",
            ),
            // now both are as they are made: three words and four
            ("become p a", "ok"),
            (
                "stat",
                "stat nodes 16 handles 4 mourners 0 free 82 largest 82 eden 0 past 0",
            ),
        ],
    )
}

#[test]
fn an_object_gives_way_to_another(rt: HostRuntime) -> Result<(), Fail> {
    check_base(
        &rt,
        rt.alloc(),
        new_space(100),
        &[
            ("special s", "ok"),
            ("fetch c s 3", "ok"),
            ("new a c 1", "ok"),
            ("new b c 1", "ok"),
            ("new d c 1", "ok"),
            ("become a a", "ok"),
            ("forward a d", "ok"),
            ("forward b d", "ok"),
            ("become a b", "ok"),
            ("same a b", "true"),
            (
                "stat",
                "stat nodes 16 handles 5 mourners 0 free 100 largest 100 eden 58 past 0",
            ),
        ],
    )?;
    check_base(
        &rt,
        rt.alloc(),
        new_space(100),
        &[
            ("special s", "ok"),
            ("fetch c s 3", "ok"),
            ("new a c 1", "ok"),
            ("new b c 1", "ok"),
            ("new d c 1", "ok"),
            ("forward a b", "ok"),
            ("forward b d", "ok"),
            ("same a d", "true"),
            ("new e c 1", "ok"),
            ("nil n", "ok"),
            ("forward e n", "ok"),
            ("kind e", "nil"),
            ("forward n d", "! special"),
            ("enter n", "! special"),
        ],
    )
}

#[test]
fn a_hash_is_handed_on_where_it_is_asked(rt: HostRuntime) -> Result<(), Fail> {
    check_base(
        &rt,
        rt.alloc(),
        old_space(100),
        &[
            ("special s", "ok"),
            ("fetch c s 3", "ok"),
            ("nil n", "ok"),
            ("newold a c 1", "ok"),
            ("newold b c 1", "ok"),
            ("newold d c 1", "ok"),
            ("newold e c 1", "ok"),
            ("hash a", "991766"),
            ("readonly b", "ok"),
            ("forward a n hash", "! special"),
            ("forward a c hash", "! classed"),
            ("forward a b hash", "ok"),
            ("hash b", "991766"),
            ("forward d b hash", "ok"),
            ("hash b", "991766"),
            ("forward b e", "! readonly"),
            ("writable b", "ok"),
            ("forward b e", "ok"),
            ("hash e", "1548833"),
            ("hash a", "1548833"),
            (
                "stat",
                "stat nodes 16 handles 7 mourners 0 free 92 largest 92 eden 0 past 0",
            ),
        ],
    )
}

#[test]
fn pinned_and_readonly_objects_stay(rt: HostRuntime) -> Result<(), Fail> {
    check_base(
        &rt,
        rt.alloc(),
        new_space(100),
        &[
            ("special s", "ok"),
            ("fetch c s 3", "ok"),
            ("new a c 1", "ok"),
            ("new b c 1", "ok"),
            ("pin a", "ok"),
            ("become a b", "! pinned"),
            ("unpin a", "ok"),
            ("readonly b", "ok"),
            ("become a b", "! readonly"),
            ("store b 0 a", "! readonly"),
            ("writable b", "ok"),
            ("forward c a", "! classed"),
            ("int i 1", "ok"),
            ("become i a", "! immediate"),
            ("become zz a", "! unknown"),
            ("pin a", "ok"),
            ("forward a b", "! pinned"),
            ("forward b a", "ok"),
            ("pin i", "! immediate"),
            ("unpin i", "! immediate"),
            ("readonly i", "! immediate"),
            ("writable q", "! unknown"),
        ],
    )
}

#[test]
fn a_young_object_is_copied_to_be_pinned(rt: HostRuntime) -> Result<(), Fail> {
    check_base(
        &rt,
        rt.alloc(),
        new_space(10),
        &[
            ("special s", "ok"),
            ("fetch c s 3", "ok"),
            ("new a c 3", "ok"),
            ("new h c 1", "ok"),
            ("store a 2 h", "ok"),
            ("store h 0 a", "ok"),
            ("hash a", "991766"),
            ("pin a", "ok"),
            ("hash a", "991766"),
            ("fetch x a 2", "ok"),
            ("same x h", "true"),
            ("fetch y h 0", "ok"),
            ("same y a", "true"),
            (
                "stat",
                "stat nodes 17 handles 6 mourners 0 free 6 largest 6 eden 58 past 0",
            ),
            ("new b c 8", "ok"),
            ("pin b", "! full 9 6 0"),
            (
                "stat",
                "stat nodes 18 handles 7 mourners 0 free 6 largest 6 eden 49 past 0",
            ),
            // pinned already, and so without words
            ("pin a", "ok"),
            ("pin s", "ok"),
        ],
    )
}

/// Asserts that the word of a handle names no forwarder.
fn check_settled(rt: &impl Abort, session: &Session, name: &str) -> Result<(), Fail> {
    let read = HandleName::from(name);
    assert!(rt; read.is_ok());
    if let Ok(name) = read {
        let held = session.heap().handle(0, &name);
        assert!(rt; held.is_some());
        if let Some(word) = held {
            assert_eq!(rt; session.heap().follow(word), word);
        }
    }
    Ok(())
}

#[test]
fn a_handle_that_is_read_is_rewritten(rt: HostRuntime) -> Result<(), Fail> {
    let mut files = store(rt.alloc(), "")?;
    let started = Session::start(
        rt.alloc(),
        &mut files,
        "base.image",
        "a.script",
        old_space(1_000),
    );
    assert!(rt; started.is_ok());
    if let Ok(mut session) = started {
        check_lines(
            &rt,
            &mut session,
            &mut files,
            &[
                ("special s", "ok"),
                ("fetch c s 3", "ok"),
                ("newold a c 1", "ok"),
                ("newold b c 2", "ok"),
                ("become a b", "ok"),
                ("become a b", "ok"),
                ("become a b", "ok"),
                ("size a", "2 0"),
                ("kind b", "object 51 2"),
            ],
        )?;
        check_settled(&rt, &session, "a")?;
        check_settled(&rt, &session, "b")?;
    }
    Ok(())
}

/// The words of the region from an index on.
fn words_at(session: &Session, at: usize) -> [u64; 3] {
    let region = &session.heap().parts.region;
    let mut words = [0; 3];
    'words: for (i, word) in words.iter_mut().enumerate() {
        let index = at.saturating_add(i);
        if index < region.len() {
            *word = region.get(index);
        }
    }
    words
}

/// Asserts that the words at `at`, those of an object that is made third, stay while the objects that it names are exchanged and forwarded.
fn check_references(rt: &impl Abort, alloc: Global, limits: Limits, at: usize) -> Result<(), Fail>
    requires { AreLimits limits }
{
    let mut files = store(alloc, "")?;
    let started = Session::start(alloc, &mut files, "base.image", "a.script", limits);
    assert!(rt; started.is_ok());
    if let Ok(mut session) = started {
        check_lines(
            rt,
            &mut session,
            &mut files,
            &[
                ("special s", "ok"),
                ("fetch c s 3", "ok"),
                ("new a c 1", "ok"),
                ("new b c 3", "ok"),
                ("new h c 2", "ok"),
                ("store h 0 a", "ok"),
                ("store h 1 a", "ok"),
            ],
        )?;
        let before = words_at(&session, at);
        assert_eq!(rt; before[1], before[2]);
        check_lines(
            rt,
            &mut session,
            &mut files,
            &[
                ("become a b", "ok"),
                ("fetch x h 0", "ok"),
                ("size x", "3 0"),
            ],
        )?;
        assert_eq!(rt; words_at(&session, at), before);
        check_lines(
            rt,
            &mut session,
            &mut files,
            &[
                ("forward b h", "ok"),
                ("fetch y x 0", "ok"),
                ("kind y", "nil"),
                ("size a", "3 0"),
                ("size b", "2 0"),
            ],
        )?;
        assert_eq!(rt; words_at(&session, at), before);
    }
    Ok(())
}

#[test]
fn no_other_reference_is_changed(rt: HostRuntime) -> Result<(), Fail> {
    check_references(&rt, rt.alloc(), old_space(100), 6_290)?;
    check_references(&rt, rt.alloc(), new_space(100), 6_390)
}

/// A script of exchanges and forwardings, line by line.
const LINES: [&str; 19] = [
    "special s",
    "fetch c s 3",
    "new a c 1",
    "new b c 1",
    "new d c 1",
    "become a a",
    "forward a d",
    "forward b d",
    "become a b",
    "new e c 3",
    "store e 1 d",
    "become d e",
    "nil n",
    "new f c 1",
    "forward f n",
    "pin e",
    "hash a",
    "become a e",
    "stat",
];

#[test]
fn a_session_of_its_own_has_the_words_of_a_run(rt: HostRuntime) -> Result<(), Fail> {
    let alloc = rt.alloc();
    let mut script = String::new(alloc);
    'lines: for line in LINES {
        script.push_str(line)?;
        script.push_str("\n")?;
    }
    let mut files = store(alloc, script.as_str())?;
    let mut out = MemorySink::new(alloc)?;
    let words = ["replay", "base.image", "a.script", "--room", "100"];
    let (status, kept) = run_words(alloc, &words, &mut files, &mut out)?;
    assert_eq!(rt; status, Status::Done);
    let limits = Limits {
        eden: 0,
        survivor: 0,
        room: 100,
        saved: 4_096,
    };
    let started = Session::start(alloc, &mut files, "base.image", "a.script", limits);
    assert!(rt; kept.is_some());
    assert!(rt; started.is_ok());
    if let (Some(left), Ok(mut session)) = (kept, started) {
        'steps: for line in LINES {
            assert!(rt; session.line(&mut files, line.as_bytes()).is_ok());
        }
        let driven = &session.heap().parts.region;
        assert_eq!(rt; left.heap().parts.region.as_slice(), driven.as_slice());
    }
    Ok(())
}
