use super::fixtures::store;
use image_load::LoadError;
use replay::{LineFault, Session};
use spur_graph::{Answer, Limits, Refusal, Shown};
use std::test::Fail;

const LIMITS: Limits = Limits {
    eden: 0,
    survivor: 0,
    room: 10,
    saved: 4_096,
};

#[test]
fn lines_are_steps_of_a_session(rt: HostRuntime) -> Result<(), Fail> {
    let mut files = store(rt.alloc(), "")?;
    let started = Session::start(rt.alloc(), &mut files, "base.image", "a.script", LIMITS);
    assert!(rt; started.is_ok());
    if let Ok(mut session) = started {
        let lines = [
            ("special s", Ok(Answer::Done)),
            (
                "kind s",
                Ok(Answer::Shown(Shown::Object {
                    class: 51,
                    format: 2,
                })),
            ),
            ("kind q", Ok(Answer::Refused(Refusal::Unknown))),
        ];
        'lines: for (line, want) in lines {
            let answer: Result<Answer, LineFault> = session.line(&mut files, line.as_bytes());
            assert_eq!(rt; answer, want);
        }
        assert_eq!(rt; session.heap().handle_count(), 1);
        assert!(rt; !session.ended());
    }
    Ok(())
}

#[test]
fn no_session_starts_without_an_image(rt: HostRuntime) -> Result<(), Fail> {
    let mut files = store(rt.alloc(), "")?;
    let started = Session::start(rt.alloc(), &mut files, "no.image", "a.script", LIMITS);
    if let Err(error) = started {
        assert_eq!(rt; error, LoadError::Short(0));
    }
    Ok(())
}
