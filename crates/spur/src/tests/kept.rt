use super::fixtures::{FIRST_SCRIPT, run_words, store};
use replay::{LineFault, Status};
use spur_graph::{Answer, Limits, Shown};
use spur_io::{CallKind, Files, MemoryFiles, MemorySink, read_full};
use std::alloc::Global;
use std::process::Abort;
use std::test::Fail;

/// Reads of the base image at 12 bytes a read.
const IMAGE_READS: u64 = 4_204;

/// Asserts the status of a replay and what was put, that the session which is kept has not ended, and that it answers a further line so.
fn check_kept(
    rt: &impl Abort,
    alloc: Global,
    files: &mut MemoryFiles,
    out: &mut MemorySink,
    want: Status,
    put: &str,
    line: &str,
    answer: Answer,
) -> Result<(), Fail> {
    let words = ["replay", "base.image", "a.script"];
    let (status, kept) = run_words(alloc, &words, files, out)?;
    assert_eq!(rt; status, want);
    assert_eq!(rt; out.bytes(), put.as_bytes());
    assert!(rt; kept.is_some());
    if let Some(mut session) = kept {
        assert!(rt; !session.ended());
        let answered: Result<Answer, LineFault> = session.line(files, line.as_bytes());
        assert_eq!(rt; answered, Ok(answer));
    }
    Ok(())
}

/// Asserts the status of a run with these words, and that no session is kept.
fn check_none(
    rt: &impl Abort,
    alloc: Global,
    files: &mut MemoryFiles,
    words: &[&str],
    want: Status,
) -> Result<(), Fail> {
    let mut out = MemorySink::new(alloc)?;
    let (status, kept) = run_words(alloc, words, files, &mut out)?;
    assert_eq!(rt; status, want);
    assert!(rt; kept.is_none());
    Ok(())
}

#[test]
fn lines_are_answered_before_more_is_read(rt: HostRuntime) -> Result<(), Fail> {
    // the first 12 bytes of the script end one line, and the first 24 two
    let mut files = store(rt.alloc(), FIRST_SCRIPT)?;
    files.limit_reads(12);
    files.fail_calls(rt.alloc(), CallKind::Read, IMAGE_READS + 2)?;
    check_kept(
        &rt,
        rt.alloc(),
        &mut files,
        &mut MemorySink::new(rt.alloc())?,
        Status::ReadFault,
        "ok\n",
        "kind s",
        Answer::Shown(Shown::Object {
            class: 51,
            format: 2,
        }),
    )?;
    let mut files = store(rt.alloc(), FIRST_SCRIPT)?;
    files.limit_reads(12);
    files.fail_calls(rt.alloc(), CallKind::Read, IMAGE_READS + 3)?;
    check_kept(
        &rt,
        rt.alloc(),
        &mut files,
        &mut MemorySink::new(rt.alloc())?,
        Status::ReadFault,
        "ok\nok\n",
        "kind c",
        Answer::Shown(Shown::Object {
            class: 32,
            format: 1,
        }),
    )
}

#[test]
fn a_refused_put_leaves_the_session(rt: HostRuntime) -> Result<(), Fail> {
    let mut files = store(rt.alloc(), FIRST_SCRIPT)?;
    let mut out = MemorySink::new(rt.alloc())?;
    out.fail_put(rt.alloc(), 2)?;
    check_kept(
        &rt,
        rt.alloc(),
        &mut files,
        &mut out,
        Status::WriteFault,
        "ok\n",
        "kind c",
        Answer::Shown(Shown::Object {
            class: 32,
            format: 1,
        }),
    )
}

#[test]
fn no_session_is_left_without_an_image(rt: HostRuntime) -> Result<(), Fail> {
    let mut files = store(rt.alloc(), FIRST_SCRIPT)?;
    files.fail_calls(rt.alloc(), CallKind::Read, 1)?;
    check_none(
        &rt,
        rt.alloc(),
        &mut files,
        &["replay", "base.image", "a.script"],
        Status::ReadFault,
    )?;
    check_none(
        &rt,
        rt.alloc(),
        &mut files,
        &["replay", "no.image", "a.script"],
        Status::Refused,
    )?;
    check_none(
        &rt,
        rt.alloc(),
        &mut files,
        &["replay", "base.image"],
        Status::Usage,
    )
}

/// Asserts that a session keeps the header of its image, and these limits where these words are run.
fn check_limits(
    rt: &impl Abort,
    alloc: Global,
    words: &[&str],
    limits: Limits,
) -> Result<(), Fail> {
    let mut files = store(alloc, FIRST_SCRIPT)?;
    let mut out = MemorySink::new(alloc)?;
    let (_, kept) = run_words(alloc, words, &mut files, &mut out)?;
    let mut header = [0; 128];
    read_full(&mut files, "base.image", 0, &mut header)?;
    assert!(rt; kept.is_some());
    if let Some(session) = kept {
        let parts = &session.heap().parts;
        assert_eq!(rt; parts.limits, limits);
        assert_eq!(rt; &parts.carried, &header);
    }
    Ok(())
}

/// A room of ten words, and a table of so many entries.
fn ten_words(saved: usize) -> Limits {
    Limits {
        eden: 0,
        survivor: 0,
        room: 10,
        saved,
    }
}

#[test]
fn a_session_keeps_the_header_and_the_limits(rt: HostRuntime) -> Result<(), Fail> {
    let words = ["replay", "base.image", "a.script", "--room", "10"];
    check_limits(&rt, rt.alloc(), &words, ten_words(4_096))?;
    let words = [
        "replay",
        "base.image",
        "a.script",
        "--room",
        "10",
        "--saved",
        "2",
    ];
    check_limits(&rt, rt.alloc(), &words, ten_words(2))
}
