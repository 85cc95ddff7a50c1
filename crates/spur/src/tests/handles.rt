use super::fixtures::{check, check_rows, store};
use replay::Status;
use std::process::Abort;
use std::test::Fail;

/// How many handles all mutators hold together at most.
const MOST_HANDLES: usize = 65_536;

#[test]
fn each_mutator_has_its_own_handles(rt: HostRuntime) -> Result<(), Fail> {
    let mut files = store(rt.alloc(), "")?;
    check_rows(
        &rt,
        rt.alloc(),
        &mut files,
        &[
            ("@1 int a 1", "ok"),
            ("@2 int a 2", "ok"),
            ("@1 kind a", "int 1"),
            ("@1 drop a", "ok"),
            ("@2 kind a", "int 2"),
            ("@1 kind a", "! unknown"),
            ("@0 int a 0", "ok"),
            ("kind a", "int 0"),
            ("@15 kind a", "! unknown"),
        ],
    )
}

#[test]
fn what_is_not_held_is_unknown(rt: HostRuntime) -> Result<(), Fail> {
    let mut files = store(rt.alloc(), "")?;
    check_rows(
        &rt,
        rt.alloc(),
        &mut files,
        &[
            ("kind q", "! unknown"),
            ("copy a q", "! unknown"),
            ("class a q", "! unknown"),
            ("drop q", "! unknown"),
            ("int q 1", "ok"),
            ("drop q", "ok"),
            ("drop q", "! unknown"),
            ("kind q", "! unknown"),
        ],
    )
}

#[test]
fn no_more_than_65536_are_held(rt: HostRuntime) -> Result<(), Fail> {
    let mut script = String::new(rt.alloc());
    let mut answers = String::new(rt.alloc());
    for n in 0..MOST_HANDLES {
        let line = format!(in rt.alloc(); "@{} int h{n} 1\n", n % 16)?;
        script.push_str(line.as_str())?;
        answers.push_str("ok\n")?;
    }
    script.push_str("int x 1\n@3 int h3 2\nint h3 2\ncopy q h0\n@1 drop h1\ncopy q h0\n")?;
    answers.push_str("! handles\nok\n! handles\n! handles\nok\nok\n")?;
    let mut files = store(rt.alloc(), script.as_str())?;
    check(&rt, rt.alloc(), &mut files, Status::Done, answers.as_str())
}
