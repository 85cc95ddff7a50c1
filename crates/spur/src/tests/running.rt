use super::fixtures::{FIRST_ANSWERS, FIRST_SCRIPT, check, status, store};
use replay::Status;
use spur_io::{CallKind, MemorySink};
use std::process::Abort;
use std::test::Fail;

#[test]
fn the_last_line_needs_no_line_feed(rt: HostRuntime) -> Result<(), Fail> {
    check(
        &rt,
        rt.alloc(),
        &mut store(rt.alloc(), FIRST_SCRIPT)?,
        Status::Done,
        FIRST_ANSWERS,
    )?;
    check(
        &rt,
        rt.alloc(),
        &mut store(rt.alloc(), "special s\nfetch c s 3\nkind c")?,
        Status::Done,
        FIRST_ANSWERS,
    )?;
    check(
        &rt,
        rt.alloc(),
        &mut store(rt.alloc(), "")?,
        Status::Done,
        "",
    )
}

#[test]
fn reads_of_the_image_may_fail(rt: HostRuntime) -> Result<(), Fail> {
    'reads: for k in 1..3 {
        let mut files = store(rt.alloc(), FIRST_SCRIPT)?;
        files.fail_calls(rt.alloc(), CallKind::Read, k)?;
        check(&rt, rt.alloc(), &mut files, Status::ReadFault, "")?;
    }
    Ok(())
}

#[test]
fn each_put_may_fail(rt: HostRuntime) -> Result<(), Fail> {
    'puts: for (k, put) in ["", "ok\n", "ok\nok\n"].iter().enumerate() {
        let mut files = store(rt.alloc(), FIRST_SCRIPT)?;
        let mut out = MemorySink::new(rt.alloc())?;
        out.fail_put(rt.alloc(), k as u64 + 1)?;
        let status = status(
            rt.alloc(),
            &["replay", "base.image", "a.script"],
            &mut files,
            &mut out,
        )?;
        assert_eq!(rt; status, Status::WriteFault);
        assert_eq!(rt; out.bytes(), put.as_bytes());
    }
    Ok(())
}

#[test]
fn reads_may_be_short(rt: HostRuntime) -> Result<(), Fail> {
    let mut files = store(rt.alloc(), FIRST_SCRIPT)?;
    files.limit_reads(1);
    check(&rt, rt.alloc(), &mut files, Status::Done, FIRST_ANSWERS)
}
