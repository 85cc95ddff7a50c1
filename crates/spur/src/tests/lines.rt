use super::fixtures::{FIRST_ANSWERS, FIRST_SCRIPT, check, check_rows, store};
use replay::Status;
use spur_io::Files;
use std::process::Abort;
use std::test::Fail;

#[test]
fn a_line_of_no_command_is_refused(rt: HostRuntime) -> Result<(), Fail> {
    let mut files = store(rt.alloc(), "")?;
    check_rows(
        &rt,
        rt.alloc(),
        &mut files,
        &[
            ("fetch a", "! syntax"),
            ("", "! syntax"),
            ("special s ", "! syntax"),
            ("special S", "! syntax"),
            ("@16 stat", "! syntax"),
            ("@01 stat", "! syntax"),
            ("@ stat", "! syntax"),
            ("segstore h o c a.seg", "! unsupported"),
            ("@7 scavenge", "! unsupported"),
            ("segload h a a.seg", "! unsupported"),
            ("kind q", "! unknown"),
        ],
    )
}

#[test]
fn a_long_line_is_told_from_a_wrong_one(rt: HostRuntime) -> Result<(), Fail> {
    let letters = [b'a'; 4_096];
    for (length, answer) in [
        (1_024, "! syntax\n! unsupported\n"),
        (1_025, "! long\n! unsupported\n"),
        (4_095, "! long\n! unsupported\n"),
        (4_096, "! long\n! unsupported\n"),
    ] {
        let mut files = store(rt.alloc(), "")?;
        files.append("a.script", &letters[..length])?;
        files.append("a.script", b"\nscavenge\n")?;
        check(&rt, rt.alloc(), &mut files, Status::Done, answer)?;
    }
    Ok(())
}

#[test]
fn lines_may_lie_across_reads(rt: HostRuntime) -> Result<(), Fail> {
    let mut files = store(rt.alloc(), FIRST_SCRIPT)?;
    files.limit_reads(1);
    check(&rt, rt.alloc(), &mut files, Status::Done, FIRST_ANSWERS)?;
    // four lines of 1,023 bytes, so that the fifth lies across two pieces of 4,096
    let mut files = store(rt.alloc(), "")?;
    let letters = [b'a'; 1_022];
    for _ in 0..4 {
        files.append("a.script", &letters)?;
        files.append("a.script", b"\n")?;
    }
    files.append("a.script", FIRST_SCRIPT.as_bytes())?;
    check(
        &rt,
        rt.alloc(),
        &mut files,
        Status::Done,
        "! syntax\n! syntax\n! syntax\n! syntax\nok\nok\nobject 32 1\n",
    )
}
