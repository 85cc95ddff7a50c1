use super::fixtures::{check_lines, run_words, store};
use super::images::{SEGMENT_ROWS, two_segments};
use replay::{LineFault, Session, Status};
use spur_graph::{Answer, Limits};
use spur_io::{CallKind, Files, MemoryFiles, MemorySink, read_full};
use std::alloc::Global;
use std::process::Abort;
use std::test::Fail;

/// Bytes of the base image.
const IMAGE_BYTES: usize = 50_416;

/// Bytes of an image's header, and of a piece of its words.
const HEADER_BYTES: usize = 128;

const PIECE_BYTES: usize = 4_096;

/// Appends of a save of the base image: the header, and thirteen pieces.
const APPENDS: usize = 14;

/// A heap without new space, and no free words behind the objects of its image.
const BARE: Limits = Limits {
    eden: 0,
    survivor: 0,
    room: 0,
    saved: 8,
};

/// A heap with new space, and free words of old space.
const ROOMY: Limits = Limits {
    eden: 64,
    survivor: 16,
    room: 1_000,
    saved: 8,
};

/// A save, with a line before it and one behind it.
const SAVE_SCRIPT: &str = "special s\nsave copy.image\nkind s\n";

/// Asserts that a file has just the first bytes of the base image.
fn check_front(
    rt: &impl Abort,
    alloc: Global,
    files: &mut MemoryFiles,
    name: &str,
    length: usize,
) -> Result<(), Fail> {
    let mut image = Vec::from_elem(alloc, 0, IMAGE_BYTES)?;
    read_full(files, "base.image", 0, image.as_mut_slice())?;
    let mut copy = Vec::from_elem(alloc, 0, 60_000)?;
    let read = read_full(files, name, 0, copy.as_mut_slice())?;
    assert_eq!(rt; read, length);
    assert!(rt;
        image
            .iter()
            .zip(copy.iter().take(length))
            .all(|(a, b)| a == b)
    );
    Ok(())
}

/// Asserts that a script of these lines on an image is answered so, with room for 1,000 words in old space and no new space.
fn check_answers(
    rt: &impl Abort,
    alloc: Global,
    files: &mut MemoryFiles,
    image: &str,
    rows: &[(&str, &str)],
) -> Result<(), Fail> {
    let mut answers = String::new(alloc);
    files.begin("a.script")?;
    'rows: for (line, answer) in rows.iter() {
        files.append("a.script", line.as_bytes())?;
        files.append("a.script", b"\n")?;
        answers.push_str(answer)?;
        answers.push_str("\n")?;
    }
    let words = ["replay", image, "a.script", "--room", "1000"];
    let mut out = MemorySink::new(alloc)?;
    let (status, _kept) = run_words(alloc, &words, files, &mut out)?;
    assert_eq!(rt; status, Status::Done);
    assert_eq!(rt; out.bytes(), answers.as_bytes());
    Ok(())
}

/// Asserts that a save which meets a fault at a call ends the run and the session, with the first bytes of the base image in its file.
fn check_fault(
    rt: &impl Abort,
    alloc: Global,
    kind: CallKind,
    call: u64,
    length: usize,
) -> Result<(), Fail> {
    let mut files = store(alloc, SAVE_SCRIPT)?;
    files.fail_calls(alloc, kind, call)?;
    let mut out = MemorySink::new(alloc)?;
    let words = ["replay", "base.image", "a.script"];
    let (status, kept) = run_words(alloc, &words, &mut files, &mut out)?;
    assert_eq!(rt; status, Status::WriteFault);
    assert_eq!(rt; out.bytes(), "ok\n".as_bytes());
    check_front(rt, alloc, &mut files, "copy.image", length)?;
    let ended = match &kept {
        Some(session) => session.ended(),
        None => false,
    };
    assert!(rt; ended);
    Ok(())
}

/// A save alone.
const COPIED: [(&str, &str); 1] = [("save copy.image", "ok")];

#[test]
fn the_base_image_is_saved_as_it_was(rt: HostRuntime) -> Result<(), Fail> {
    let mut files = store(rt.alloc(), "")?;
    check_answers(&rt, rt.alloc(), &mut files, "base.image", &COPIED)?;
    check_front(&rt, rt.alloc(), &mut files, "copy.image", IMAGE_BYTES)
}

#[test]
fn nothing_is_put_where_the_first_line_meets_a_fault(rt: HostRuntime) -> Result<(), Fail> {
    let mut files = store(rt.alloc(), "save copy.image\n")?;
    // the third append is that of the second piece
    files.fail_calls(rt.alloc(), CallKind::Append, 3)?;
    let mut out = MemorySink::new(rt.alloc())?;
    let words = ["replay", "base.image", "a.script"];
    let (status, _kept) = run_words(rt.alloc(), &words, &mut files, &mut out)?;
    assert_eq!(rt; status, Status::WriteFault);
    assert!(rt; out.bytes().is_empty());
    check_front(&rt, rt.alloc(), &mut files, "copy.image", 4_224)
}

#[test]
fn each_append_may_fail(rt: HostRuntime) -> Result<(), Fail> {
    check_fault(&rt, rt.alloc(), CallKind::Append, 1, 0)?;
    'pieces: for pieces in 0..APPENDS - 1 {
        let length = HEADER_BYTES + PIECE_BYTES * pieces;
        check_fault(&rt, rt.alloc(), CallKind::Append, pieces as u64 + 2, length)?;
    }
    // there is no call more
    let mut files = store(rt.alloc(), SAVE_SCRIPT)?;
    files.fail_calls(rt.alloc(), CallKind::Append, APPENDS as u64 + 1)?;
    files.fail_calls(rt.alloc(), CallKind::Begin, 2)?;
    let mut out = MemorySink::new(rt.alloc())?;
    let words = ["replay", "base.image", "a.script"];
    let (status, _kept) = run_words(rt.alloc(), &words, &mut files, &mut out)?;
    assert_eq!(rt; status, Status::Done);
    assert_eq!(rt; out.bytes(), "ok\nok\nobject 51 2\n".as_bytes());
    check_front(&rt, rt.alloc(), &mut files, "copy.image", IMAGE_BYTES)
}

#[test]
fn the_file_may_stay_as_it_was(rt: HostRuntime) -> Result<(), Fail> {
    check_fault(&rt, rt.alloc(), CallKind::Begin, 1, 0)?;
    let mut files = store(rt.alloc(), SAVE_SCRIPT)?;
    files.append("copy.image", b"before")?;
    files.fail_calls(rt.alloc(), CallKind::Begin, 1)?;
    let mut out = MemorySink::new(rt.alloc())?;
    let words = ["replay", "base.image", "a.script"];
    let (status, _kept) = run_words(rt.alloc(), &words, &mut files, &mut out)?;
    assert_eq!(rt; status, Status::WriteFault);
    let mut bytes = [0; 10];
    assert_eq!(rt; read_full(&mut files, "copy.image", 0, &mut bytes)?, 6);
    assert_eq!(rt; &bytes[..6], "before".as_bytes());
    Ok(())
}

#[test]
fn the_script_is_not_saved_over(rt: HostRuntime) -> Result<(), Fail> {
    let script = "save a.script\nspecial s\nkind s\n";
    let mut files = store(rt.alloc(), script)?;
    let mut out = MemorySink::new(rt.alloc())?;
    let words = ["replay", "base.image", "a.script"];
    let (status, _kept) = run_words(rt.alloc(), &words, &mut files, &mut out)?;
    assert_eq!(rt; status, Status::Done);
    assert_eq!(rt; out.bytes(), "! name\nok\nobject 51 2\n".as_bytes());
    let mut bytes = [0; 100];
    let read = read_full(&mut files, "a.script", 0, &mut bytes)?;
    assert_eq!(rt; &bytes[..read], script.as_bytes());
    Ok(())
}

#[test]
fn a_fault_ends_a_session(rt: HostRuntime) -> Result<(), Fail> {
    let mut files = store(rt.alloc(), "")?;
    let started = Session::start(rt.alloc(), &mut files, "base.image", "a.script", ROOMY);
    assert!(rt; started.is_ok());
    if let Ok(mut session) = started {
        files.fail_calls(rt.alloc(), CallKind::Append, 1)?;
        let lines: [(&str, Result<Answer, LineFault>); 4] = [
            ("special s", Ok(Answer::Done)),
            ("@3 save part.image", Err(LineFault::Write)),
            ("save part.image", Err(LineFault::Ended)),
            ("drop s", Err(LineFault::Ended)),
        ];
        'lines: for (line, want) in lines {
            let answered = session.line(&mut files, line.as_bytes());
            assert_eq!(rt; answered, want);
        }
        assert!(rt; session.ended());
        assert_eq!(rt; session.heap().handle_count(), 1);
        check_front(&rt, rt.alloc(), &mut files, "part.image", 0)?;
    }
    Ok(())
}

/// Exchanges a small object with one of an overflow word, keeps both in the special objects array, and saves.
const EXCHANGED: [(&str, &str); 18] = [
    ("special s", "ok"),
    ("fetch c s 3", "ok"),
    ("new a c 1", "ok"),
    ("new b c 300", "ok"),
    ("new h c 2", "ok"),
    ("store h 0 a", "ok"),
    ("store h 1 b", "ok"),
    ("store b 299 s", "ok"),
    ("become a b", "ok"),
    ("fetch x h 0", "ok"),
    ("size x", "300 0"),
    ("fetch y x 299", "ok"),
    ("same y s", "true"),
    ("fetch z h 1", "ok"),
    ("size z", "1 0"),
    ("store s 0 h", "ok"),
    ("hash z", "991766"),
    ("save out.image", "ok"),
];

/// What is then answered of the saved image.
const KEPT: [(&str, &str); 9] = [
    ("special s", "ok"),
    ("fetch h s 0", "ok"),
    ("fetch x h 0", "ok"),
    ("size x", "300 0"),
    ("fetch y x 299", "ok"),
    ("same y s", "true"),
    ("fetch z h 1", "ok"),
    ("hash z", "991766"),
    ("hash x", "1548833"),
];

#[test]
fn what_was_exchanged_is_saved(rt: HostRuntime) -> Result<(), Fail> {
    let mut files = store(rt.alloc(), "")?;
    check_answers(&rt, rt.alloc(), &mut files, "base.image", &EXCHANGED)?;
    check_answers(&rt, rt.alloc(), &mut files, "out.image", &KEPT)
}

#[test]
fn eden_is_saved(rt: HostRuntime) -> Result<(), Fail> {
    let mut files = store(rt.alloc(), "")?;
    let started = Session::start(rt.alloc(), &mut files, "base.image", "a.script", ROOMY);
    assert!(rt; started.is_ok());
    if let Ok(mut session) = started {
        check_lines(&rt, &mut session, &mut files, &EXCHANGED)?;
    }
    let again = Session::start(rt.alloc(), &mut files, "out.image", "a.script", BARE);
    assert!(rt; again.is_ok());
    if let Ok(mut session) = again {
        check_lines(&rt, &mut session, &mut files, &KEPT)?;
    }
    Ok(())
}

/// One object gives way to another, which is then exchanged with a third.
const GAVE_WAY: [(&str, &str); 19] = [
    ("special s", "ok"),
    ("fetch c s 3", "ok"),
    ("new a c 1", "ok"),
    ("new b c 2", "ok"),
    ("new d c 3", "ok"),
    ("new h c 3", "ok"),
    ("store h 0 a", "ok"),
    ("store h 1 b", "ok"),
    ("store h 2 d", "ok"),
    ("store s 0 h", "ok"),
    ("forward a b", "ok"),
    ("become b d", "ok"),
    ("save out.image", "ok"),
    ("fetch x h 0", "ok"),
    ("fetch y h 1", "ok"),
    ("same x y", "true"),
    ("size x", "3 0"),
    ("fetch z h 2", "ok"),
    ("size z", "2 0"),
];

/// What is then answered of the saved image.
const KEPT_AFTER: [(&str, &str); 8] = [
    ("special s", "ok"),
    ("fetch h s 0", "ok"),
    ("fetch x h 0", "ok"),
    ("fetch y h 1", "ok"),
    ("same x y", "true"),
    ("size x", "3 0"),
    ("fetch z h 2", "ok"),
    ("size z", "2 0"),
];

#[test]
fn what_gave_way_is_saved(rt: HostRuntime) -> Result<(), Fail> {
    let mut files = store(rt.alloc(), "")?;
    check_answers(&rt, rt.alloc(), &mut files, "base.image", &GAVE_WAY)?;
    check_answers(&rt, rt.alloc(), &mut files, "out.image", &KEPT_AFTER)
}

/// A save, and a save of what was saved.
const SAVED: [(&str, &str); 1] = [("save out.image", "ok")];

const SAVED_AGAIN: [(&str, &str); 1] = [("save again.image", "ok")];

/// Asserts that two files have the same bytes, this many.
fn check_alike(
    rt: &impl Abort,
    alloc: Global,
    files: &mut MemoryFiles,
    names: [&str; 2],
    length: usize,
) -> Result<(), Fail> {
    let mut first = Vec::from_elem(alloc, 0, 60_000)?;
    let mut second = Vec::from_elem(alloc, 0, 60_000)?;
    let read = read_full(files, names[0], 0, first.as_mut_slice())?;
    assert_eq!(rt; read, length);
    let read = read_full(files, names[1], 0, second.as_mut_slice())?;
    assert_eq!(rt; read, length);
    assert_eq!(rt; first.as_slice(), second.as_slice());
    Ok(())
}

#[test]
fn two_segments_are_saved_as_one(rt: HostRuntime) -> Result<(), Fail> {
    let mut files = two_segments(rt.alloc(), 1_106_920)?;
    check_answers(&rt, rt.alloc(), &mut files, "base.image", &SAVED)?;
    check_answers(&rt, rt.alloc(), &mut files, "out.image", &SEGMENT_ROWS)?;
    check_answers(&rt, rt.alloc(), &mut files, "out.image", &SAVED_AGAIN)?;
    // 6,284 words of the first segment, 16 of the second, and the bridge
    let length = HEADER_BYTES + 8 * (6_284 + 16 + 2);
    let names = ["out.image", "again.image"];
    check_alike(&rt, rt.alloc(), &mut files, names, length)
}
