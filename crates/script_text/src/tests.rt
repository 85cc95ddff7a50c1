// Lines and answers as the language's own description has them.

use crate::{Syntax, read_line, write_answer};
use arrayvec::ArrayVec;
use spur_graph::{Answer, Command, FileName, Full, HandleName, Refusal, SegmentCause, Shown, Stat};
use std::process::Abort;

fn handle(rt: &impl Abort, text: &str) -> HandleName {
    HandleName::from(text).expect(rt, "a handle's name has at most 16 bytes")
}

fn file(rt: &impl Abort, text: &str) -> FileName {
    FileName::from(text).expect(rt, "a file's name has at most 64 bytes")
}

/// A line without a mark is read as this command of mutator 0.
fn check(rt: &impl Abort, text: &str, command: Command) {
    let same = match read_line(text.as_bytes()) {
        Ok(line) => line.mutator == 0 && line.command == command,
        Err(_) => false,
    };
    assert!(rt; same, "at {text}");
}

fn is_bad(line: &[u8]) -> bool {
    match read_line(line) {
        Err(Syntax::Bad) => true,
        _ => false,
    }
}

#[test]
fn commands_of_at_most_one_word(rt: HostRuntime) {
    let h = handle(&rt, "h_1");
    check(&rt, "special h_1", Command::Special { h });
    check(&rt, "nil h_1", Command::Nil { h });
    check(&rt, "true h_1", Command::Yes { h });
    check(&rt, "false h_1", Command::No { h });
    check(&rt, "drop h_1", Command::Drop { h });
    check(&rt, "kind h_1", Command::Kind { o: h });
    check(&rt, "size h_1", Command::Size { o: h });
    check(&rt, "hash h_1", Command::Hash { o: h });
    check(&rt, "enter h_1", Command::Enter { c: h });
    check(&rt, "pin h_1", Command::Pin { o: h });
    check(&rt, "unpin h_1", Command::Unpin { o: h });
    check(&rt, "readonly h_1", Command::ReadOnly { o: h });
    check(&rt, "writable h_1", Command::Writable { o: h });
    check(&rt, "mourn h_1", Command::Mourn { h });
    let name = file(&rt, "9Out-a_b.image");
    check(&rt, "save 9Out-a_b.image", Command::Save { name });
    check(&rt, "scavenge", Command::Scavenge);
    check(&rt, "gc", Command::Gc);
    check(&rt, "stat", Command::Stat);
}

#[test]
fn commands_of_several_words(rt: HostRuntime) {
    let a = handle(&rt, "a");
    let b = handle(&rt, "b2");
    let c = handle(&rt, "c");
    let name = file(&rt, "part.seg");
    check(&rt, "int a -12", Command::Int { h: a, n: -12 });
    check(
        &rt,
        "char a 1073741824",
        Command::Char {
            h: a,
            n: 1073741824,
        },
    );
    check(
        &rt,
        "float a 3ff000000000000c",
        Command::Float {
            h: a,
            word: 0x3ff0_0000_0000_000c,
        },
    );
    check(&rt, "copy a b2", Command::Copy { h: a, o: b });
    check(&rt, "class a b2", Command::Class { h: a, o: b });
    check(&rt, "same a b2", Command::Same { a, b });
    check(&rt, "become a b2", Command::Become { a, b });
    check(&rt, "forward a b2", Command::Forward { a, b, hash: false });
    check(
        &rt,
        "forward a b2 hash",
        Command::Forward { a, b, hash: true },
    );
    check(&rt, "unit a 0", Command::Unit { o: a, i: 0 });
    check(&rt, "fetch a b2 255", Command::Fetch { h: a, o: b, i: 255 });
    check(&rt, "store a 10 b2", Command::Store { o: a, i: 10, v: b });
    check(
        &rt,
        "setunit a 2 256",
        Command::SetUnit { o: a, i: 2, n: 256 },
    );
    check(&rt, "new a b2 7", Command::New { h: a, c: b, n: 7 });
    check(&rt, "newold a b2 7", Command::NewOld { h: a, c: b, n: 7 });
    check(
        &rt,
        "segstore a b2 c part.seg",
        Command::SegStore {
            h: a,
            o: b,
            c,
            name,
        },
    );
    check(
        &rt,
        "segload a b2 part.seg",
        Command::SegLoad { h: a, a: b, name },
    );
}

#[test]
fn numbers_have_20_digits_and_no_leading_zero(rt: HostRuntime) {
    let h = handle(&rt, "a");
    let n = 99999999999999999999;
    check(&rt, "char a 99999999999999999999", Command::Char { h, n });
    check(
        &rt,
        "int a 99999999999999999999",
        Command::Int {
            h,
            n: 99999999999999999999,
        },
    );
    check(
        &rt,
        "int a -99999999999999999999",
        Command::Int {
            h,
            n: -99999999999999999999,
        },
    );
    for text in [
        "char a 100000000000000000000",
        "int a -100000000000000000000",
        "char a 01",
        "char a 00",
        "char a -1",
        "char a +1",
        "char a 1a",
        "char a ",
        "int a -0",
        "int a -01",
        "int a -",
        "int a --1",
        "float a 4000000000000004 ",
        "float a 400000000000000",
        "float a 40000000000000040",
        "float a 400000000000000A",
        "float a 400000000000000g",
    ] {
        assert!(rt; is_bad(text.as_bytes()), "at {text}");
    }
}

#[test]
fn names_have_their_bytes_and_lengths(rt: HostRuntime) {
    check(
        &rt,
        "nil abcdefghijklmnop",
        Command::Nil {
            h: handle(&rt, "abcdefghijklmnop"),
        },
    );
    check(
        &rt,
        "nil z_9",
        Command::Nil {
            h: handle(&rt, "z_9"),
        },
    );
    let name = "0123456789012345678901234567890123456789012345678901234567890123";
    check(
        &rt,
        "save 0123456789012345678901234567890123456789012345678901234567890123",
        Command::Save {
            name: file(&rt, name),
        },
    );
    for text in [
        "nil abcdefghijklmnopq",
        "nil A",
        "nil aB",
        "nil 9a",
        "nil _a",
        "nil a-b",
        "nil a.b",
        "nil ",
        "save 01234567890123456789012345678901234567890123456789012345678901234",
        "save .image",
        "save _image",
        "save -image",
        "save a/b",
        "save ",
    ] {
        assert!(rt; is_bad(text.as_bytes()), "at {text}");
    }
}

#[test]
fn a_mark_names_one_of_16_mutators(rt: HostRuntime) {
    for (text, mutator) in [("@0 gc", 0), ("@7 gc", 7), ("@15 gc", 15)] {
        let same = match read_line(text.as_bytes()) {
            Ok(line) => line.mutator == mutator && line.command == Command::Gc,
            Err(_) => false,
        };
        assert!(rt; same, "at {text}");
    }
    for text in [
        "@16 gc", "@01 gc", "@-1 gc", "@ gc", "@3", "@3 ", "@a gc", "@1 @2 gc", "@2  gc", "gc @2",
    ] {
        assert!(rt; is_bad(text.as_bytes()), "at {text}");
    }
}

#[test]
fn words_stand_one_space_apart(rt: HostRuntime) {
    for text in [
        "",
        " ",
        " gc",
        "gc ",
        "gc gc",
        "copy a",
        "copy a  b",
        "copy a b ",
        "copy a b c",
        "fetch a b",
        "fetch a b 1 2",
        "forward a b hash ",
        "forward a b has",
        "segstore a b c d e",
        "Gc",
        "collect",
        "h",
    ] {
        assert!(rt; is_bad(text.as_bytes()), "at {text}");
    }
}

#[test]
fn other_bytes_are_in_no_line(rt: HostRuntime) {
    assert!(rt; is_bad(b"gc\t"));
    assert!(rt; is_bad(b"nil\ta"));
    assert!(rt; is_bad(b"gc\r"));
    assert!(rt; is_bad(b"gc\n"));
    assert!(rt; is_bad(b"gc\0"));
    assert!(rt; is_bad(b"nil a\0"));
    assert!(rt; is_bad(b"nil \xc3\xa9"));
    assert!(rt; is_bad(b"save a\xff"));
    assert!(rt; is_bad(b"save \x80"));
}

#[test]
fn a_line_has_at_most_1024_bytes(rt: HostRuntime) {
    assert!(rt; is_bad(&[b'a'; 1024]));
    let long = match read_line(&[b'a'; 1025]) {
        Err(Syntax::Long) => true,
        _ => false,
    };
    assert!(rt; long);
}

fn check_answer(rt: &impl Abort, answer: Answer, want: &str) {
    let mut out = ArrayVec::<u8, 256>::new();
    write_answer(&answer, &mut out);
    assert_eq!(rt; out.as_slice(), want.as_bytes());
}

#[test]
fn answers_of_commands(rt: HostRuntime) {
    check_answer(&rt, Answer::Done, "ok\n");
    check_answer(&rt, Answer::Truth(true), "true\n");
    check_answer(&rt, Answer::Truth(false), "false\n");
    check_answer(&rt, Answer::Number(0), "0\n");
    check_answer(
        &rt,
        Answer::Number(18446744073709551615),
        "18446744073709551615\n",
    );
    check_answer(
        &rt,
        Answer::Size {
            pointers: 255,
            units: 0,
        },
        "255 0\n",
    );
    check_answer(
        &rt,
        Answer::Counts {
            nilled: 1,
            fired: 10,
        },
        "nilled 1 fired 10\n",
    );
    let stat = Stat {
        nodes: 18,
        handles: 7,
        mourners: 0,
        free: 1742,
        largest: 1741,
        eden: 88,
        past: 5,
    };
    check_answer(
        &rt,
        Answer::Stat(stat),
        "stat nodes 18 handles 7 mourners 0 free 1742 largest 1741 eden 88 past 5\n",
    );
}

#[test]
fn kinds_of_values(rt: HostRuntime) {
    check_answer(
        &rt,
        Answer::Shown(Shown::Int(-1152921504606846976)),
        "int -1152921504606846976\n",
    );
    check_answer(&rt, Answer::Shown(Shown::Int(0)), "int 0\n");
    check_answer(
        &rt,
        Answer::Shown(Shown::Char(1073741823)),
        "char 1073741823\n",
    );
    check_answer(
        &rt,
        Answer::Shown(Shown::Float(0xfedc_ba98_7654_3214)),
        "float fedcba9876543214\n",
    );
    check_answer(
        &rt,
        Answer::Shown(Shown::Float(4)),
        "float 0000000000000004\n",
    );
    check_answer(&rt, Answer::Shown(Shown::Nil), "nil\n");
    check_answer(&rt, Answer::Shown(Shown::No), "false\n");
    check_answer(&rt, Answer::Shown(Shown::Yes), "true\n");
    check_answer(
        &rt,
        Answer::Shown(Shown::Object {
            class: 51,
            format: 2,
        }),
        "object 51 2\n",
    );
}

#[test]
fn refusals_of_one_word(rt: HostRuntime) {
    for (refusal, want) in [
        (Refusal::Long, "! long\n"),
        (Refusal::Syntax, "! syntax\n"),
        (Refusal::Unsupported, "! unsupported\n"),
        (Refusal::Unknown, "! unknown\n"),
        (Refusal::Handles, "! handles\n"),
        (Refusal::Immediate, "! immediate\n"),
        (Refusal::Special, "! special\n"),
        (Refusal::Pinned, "! pinned\n"),
        (Refusal::ReadOnly, "! readonly\n"),
        (Refusal::Mourning, "! mourning\n"),
        (Refusal::Classed, "! classed\n"),
        (Refusal::Index, "! index\n"),
        (Refusal::Raw, "! raw\n"),
        (Refusal::Range, "! range\n"),
        (Refusal::Size, "! size\n"),
        (Refusal::Class, "! class\n"),
        (Refusal::Hashed, "! hashed\n"),
        (Refusal::Inside, "! inside\n"),
        (Refusal::Outs, "! outs\n"),
        (Refusal::NoMourner, "! none\n"),
        (Refusal::Name, "! name\n"),
        (Refusal::Table, "! table\n"),
    ] {
        check_answer(&rt, Answer::Refused(refusal), want);
    }
}

#[test]
fn refusals_with_numbers(rt: HostRuntime) {
    let full = Full {
        need: 9,
        largest: 10,
        eden: 0,
    };
    check_answer(&rt, Answer::Refused(Refusal::Full(full)), "! full 9 10 0\n");
    for (cause, want) in [
        (SegmentCause::Short, "! segment short 71\n"),
        (SegmentCause::Magic, "! segment magic 71\n"),
        (SegmentCause::Count, "! segment count 71\n"),
        (SegmentCause::Tail, "! segment tail 71\n"),
        (SegmentCause::Head, "! segment head 71\n"),
        (SegmentCause::Slot, "! segment slot 71\n"),
    ] {
        check_answer(
            &rt,
            Answer::Refused(Refusal::Segment { cause, at: 71 }),
            want,
        );
    }
}
