use super::fixtures::{patch, run_words, store};
use replay::Status;
use spur_io::{Files, MemoryFiles, MemorySink};
use std::alloc::Global;
use std::process::Abort;
use std::test::Fail;

/// Where slot 2 of the class 56 stands in the file; the class is slot 8 of the special objects array.
const LAYOUT: usize = 128 + 8 * 6_272;

/// Where the header of the file tells the last identity hash.
const LAST_HASH: usize = 32;

/// Asserts that a script is answered so, where there are so many free words behind the objects of the base image.
fn check_room(
    rt: &impl Abort,
    alloc: Global,
    files: &mut MemoryFiles,
    room: &str,
    script: &str,
    answers: &str,
) -> Result<(), Fail> {
    files.begin("a.script")?;
    files.append("a.script", script.as_bytes())?;
    let mut out = MemorySink::new(alloc)?;
    let words = ["replay", "base.image", "a.script", "--room", room];
    let (status, _kept) = run_words(alloc, &words, files, &mut out)?;
    assert_eq!(rt; status, Status::Done);
    assert_eq!(rt; out.bytes(), answers.as_bytes());
    Ok(())
}

/// Rooms, scripts and their answers.
const SCRIPTS: [(&str, &str, &str); 10] = [
    // two objects are counted, and a hash is drawn once
    (
        "100",
        "special s\nfetch c s 3\nnew a c 8\nnewold b c 1\nstat\nhash a\nhash a\nhash b\nhash q\nint i 1\nhash i\nstat\n",
        "ok\nok\nok\nok\nstat nodes 17 handles 4 mourners 0 free 89 largest 89 eden 0 past 0\n991766\n991766\n1548833\n! unknown\nok\n! immediate\nstat nodes 17 handles 5 mourners 0 free 89 largest 89 eden 0 past 0\n",
    ),
    // a need of nine words does not leave one of ten
    (
        "10",
        "special s\nfetch c s 3\nstat\nnewold a c 8\nstat\nnewold a c 7\nnewold b c 1\nnewold d c 1\nstat\n",
        "ok\nok\nstat nodes 15 handles 2 mourners 0 free 10 largest 10 eden 0 past 0\n! full 9 10 0\nstat nodes 15 handles 2 mourners 0 free 10 largest 10 eden 0 past 0\nok\nok\n! full 2 0 0\nstat nodes 17 handles 4 mourners 0 free 0 largest 0 eden 0 past 0\n",
    ),
    // three bytes
    (
        "100",
        "special s\nfetch c s 3\nfetch d s 4\nnew t d 3\nsize t\nkind t\nsetunit t 2 255\nsetunit t 2 256\nunit t 2\nunit t 3\nfetch x t 0\n",
        "ok\nok\nok\nok\n0 3\nobject 52 21\nok\n! range\n255\n! index\n! raw\n",
    ),
    // a class is entered, and then has instances
    (
        "100",
        "special s\nfetch c s 3\nfetch m s 9\nnew k m 0\nint f 131072\nstore k 2 f\nnew x k 0\nenter k\nhash k\nnew x k 2\nkind x\nenter k\n",
        "ok\nok\nok\nok\nok\nok\n! class\n1024\n1024\nok\nobject 1024 2\n! hashed\n",
    ),
    // what enter refuses, in its order; nothing is changed
    (
        "10",
        "special s\nfetch c s 3\nnil n\nint i 1\nstat\nenter q\nenter i\nenter n\nenter c\nstat\n",
        "ok\nok\nok\nok\nstat nodes 15 handles 4 mourners 0 free 10 largest 10 eden 0 past 0\n! unknown\n! immediate\n! special\n! hashed\nstat nodes 15 handles 4 mourners 0 free 10 largest 10 eden 0 past 0\n",
    ),
    // slots are nil and units 0
    (
        "100",
        "special s\nfetch c s 3\nnew a c 2\nfetch x a 0\nkind x\nfetch x a 1\nkind x\nfetch x a 2\nfetch d s 4\nnew t d 9\nunit t 0\nunit t 7\nunit t 8\nunit t 9\n",
        "ok\nok\nok\nok\nnil\nok\nnil\n! index\nok\nok\n0\n0\n0\n! index\n",
    ),
    // what refuses an instance, in its order; nothing is changed
    (
        "10",
        "special s\nfetch c s 3\nnil n\nint i 1\nstat\nnew x q 1\nnew x i 1\nnew x s 1\nnew x n 1\nfetch p s 7\nnew x p 1\nnew x c 134217729\nnew x c 134217728\nnewold x c 134217728\nstat\n",
        "ok\nok\nok\nok\nstat nodes 15 handles 4 mourners 0 free 10 largest 10 eden 0 past 0\n! unknown\n! immediate\n! class\n! class\nok\n! size\n! size\n! full 134217730 10 0\n! full 134217730 10 0\nstat nodes 15 handles 5 mourners 0 free 10 largest 10 eden 0 past 0\n",
    ),
    // the least chunk that serves is cut at its low end
    (
        "20",
        "special s\nfetch c s 3\nnewold a c 3\nnewold b c 3\nstat\nnewold d c 11\nstat\n",
        "ok\nok\nok\nok\nstat nodes 17 handles 4 mourners 0 free 12 largest 12 eden 0 past 0\nok\nstat nodes 18 handles 5 mourners 0 free 0 largest 0 eden 0 past 0\n",
    ),
    // an object of 254 slots has no overflow word, one of 255 has one
    (
        "600",
        "special s\nfetch c s 3\nnew a c 254\nstat\nnew b c 255\nstat\nsize b\nstore b 254 s\nfetch x b 254\nsame x s\nfetch y a 253\nkind y\n",
        "ok\nok\nok\nstat nodes 16 handles 3 mourners 0 free 345 largest 345 eden 0 past 0\nok\nstat nodes 17 handles 4 mourners 0 free 88 largest 88 eden 0 past 0\n255 0\nok\nok\ntrue\nok\nnil\n",
    ),
    // nil with a hash is no class
    (
        "100",
        "special s\nnil n\nhash n\nnew x n 0\nclass k n\nkind k\nnew x k 0\nsize x\nkind x\n",
        "ok\nok\n991766\n! class\nok\nobject 32 1\nok\n0 0\nobject 33 0\n",
    ),
];

#[test]
fn objects_are_made_and_counted(rt: HostRuntime) -> Result<(), Fail> {
    for (room, script, answers) in SCRIPTS {
        let mut files = store(rt.alloc(), "")?;
        check_room(&rt, rt.alloc(), &mut files, room, script, answers)?;
    }
    Ok(())
}

/// What slot 2 of a class says, a size, how many pointer slots and units an instance has, its format, and the words that it takes.
const INSTANCES: [(u32, u64, u64, u64, u64, u64); 34] = [
    (0, 0, 0, 0, 0, 2),
    (65_536, 0, 0, 0, 1, 2),
    (65_538, 0, 2, 0, 1, 3),
    (131_072, 0, 0, 0, 2, 2),
    (131_072, 1, 1, 0, 2, 2),
    (131_072, 254, 254, 0, 2, 255),
    (131_072, 255, 255, 0, 2, 257),
    (196_609, 0, 1, 0, 3, 2),
    (196_609, 253, 254, 0, 3, 255),
    (196_609, 254, 255, 0, 3, 257),
    (262_145, 1, 2, 0, 4, 3),
    (327_682, 0, 2, 0, 5, 3),
    (589_824, 0, 0, 0, 9, 2),
    (589_824, 1, 0, 1, 9, 2),
    (589_824, 254, 0, 254, 9, 255),
    (589_824, 255, 0, 255, 9, 257),
    (655_360, 0, 0, 0, 10, 2),
    (655_360, 1, 0, 1, 11, 2),
    (655_360, 2, 0, 2, 10, 2),
    (655_360, 508, 0, 508, 10, 255),
    (655_360, 509, 0, 509, 11, 257),
    (786_432, 0, 0, 0, 12, 2),
    (786_432, 1, 0, 1, 15, 2),
    (786_432, 3, 0, 3, 13, 2),
    (786_432, 4, 0, 4, 12, 2),
    (786_432, 5, 0, 5, 15, 3),
    (1_048_576, 0, 0, 0, 16, 2),
    (1_048_576, 1, 0, 1, 23, 2),
    (1_048_576, 7, 0, 7, 17, 2),
    (1_048_576, 8, 0, 8, 16, 2),
    (1_048_576, 9, 0, 9, 23, 3),
    (1_048_576, 254, 0, 254, 18, 33),
    (1_048_576, 255, 0, 255, 17, 33),
    (1_048_576, 2_040, 0, 2_040, 16, 257),
];

/// A store with the base image, in which slot 2 of the class 56 is this number.
fn with_layout(alloc: Global, layout: u32) -> Result<MemoryFiles, Fail> {
    let mut files = store(alloc, "")?;
    patch(
        alloc,
        &mut files,
        LAYOUT,
        &(8 * layout as u64 + 1).to_le_bytes(),
    )?;
    Ok(files)
}

#[test]
fn instances_of_each_format_have_their_sizes(rt: HostRuntime) -> Result<(), Fail> {
    for (layout, n, pointers, units, format, words) in INSTANCES {
        let left = 1_000_u64.saturating_sub(words);
        let script = format!(in rt.alloc();
            "special s\nfetch k s 8\nnew x k {n}\nsize x\nkind x\nstat\n"
        )?;
        let answers = format!(in rt.alloc();
            "ok\nok\nok\n{pointers} {units}\nobject 56 {format}\nstat nodes 16 handles 3 mourners 0 free {left} largest {left} eden 0 past 0\n",
        )?;
        let mut files = with_layout(rt.alloc(), layout)?;
        check_room(
            &rt,
            rt.alloc(),
            &mut files,
            "1000",
            script.as_str(),
            answers.as_str(),
        )?;
    }
    Ok(())
}

/// What slot 2 of a class says, a size, and why no instance is made.
const REFUSED: [(u32, u64, &str); 13] = [
    (1, 0, "! class"),
    (0, 1, "! size"),
    (65_538, 1, "! size"),
    (327_682, 1, "! size"),
    (393_216, 0, "! class"),
    (524_288, 0, "! class"),
    (589_825, 0, "! class"),
    (720_896, 0, "! class"),
    (1_114_112, 0, "! class"),
    (131_072, 134_217_729, "! size"),
    (589_824, 134_217_728, "! full 134217730 100 0"),
    (1_048_576, 134_217_728, "! full 16777218 100 0"),
    (1_048_576, 134_217_729, "! size"),
];

#[test]
fn a_refused_instance_changes_nothing(rt: HostRuntime) -> Result<(), Fail> {
    for (layout, n, refusal) in REFUSED {
        let script = format!(in rt.alloc();
            "special s\nfetch k s 8\nstat\nnew x k {n}\nnewold x k {n}\nstat\n"
        )?;
        let stat = "stat nodes 15 handles 2 mourners 0 free 100 largest 100 eden 0 past 0";
        let answers = format!(in rt.alloc(); "ok\nok\n{stat}\n{refusal}\n{refusal}\n{stat}\n")?;
        let mut files = with_layout(rt.alloc(), layout)?;
        check_room(
            &rt,
            rt.alloc(),
            &mut files,
            "100",
            script.as_str(),
            answers.as_str(),
        )?;
    }
    Ok(())
}

#[test]
fn a_hash_of_zero_is_drawn_as_one(rt: HostRuntime) -> Result<(), Fail> {
    let mut files = store(rt.alloc(), "")?;
    patch(
        rt.alloc(),
        &mut files,
        LAST_HASH,
        &634_785_765_u64.to_le_bytes(),
    )?;
    check_room(
        &rt,
        rt.alloc(),
        &mut files,
        "0",
        "special s\nhash s\nhash s\nnil n\nhash n\n",
        "ok\n1\n1\nok\n990140\n",
    )
}

/// A script that enters so many classes, each bound to `k`, and then one more.
fn entering(alloc: Global, count: u64) -> Result<String, Fail> {
    let mut script = String::new(alloc);
    script.push_str("special s\nfetch m s 9\n")?;
    'classes: for _ in 0..count {
        script.push_str("new k m 0\nenter k\n")?;
    }
    script.push_str("new k m 0\nenter k\nstat\n")?;
    Ok(script)
}

/// The answers to it: indices from 1,024 on up to this one, this answer to the last line but one, and these counts.
fn entered(alloc: Global, end: u64, last: &str, stat: &str) -> Result<String, Fail> {
    let mut answers = String::new(alloc);
    answers.push_str("ok\nok\n")?;
    'classes: for index in 1_024..end {
        let line = format!(in alloc; "ok\n{index}\n")?;
        answers.push_str(line.as_str())?;
    }
    answers.push_str("ok\n")?;
    answers.push_str(last)?;
    answers.push_str(stat)?;
    Ok(answers)
}

#[test]
fn a_page_is_made_where_it_is_absent(rt: HostRuntime) -> Result<(), Fail> {
    let alloc = rt.alloc();
    let script = entering(alloc, 1_024)?;
    let made = entered(
        alloc,
        2_048,
        "2048\n",
        "stat nodes 1040 handles 3 mourners 0 free 74 largest 74 eden 0 past 0\n",
    )?;
    let mut files = store(alloc, "")?;
    check_room(
        &rt,
        alloc,
        &mut files,
        "5200",
        script.as_str(),
        made.as_str(),
    )?;
    let full = entered(
        alloc,
        2_048,
        "! full 1026 1000 0\n",
        "stat nodes 1040 handles 3 mourners 0 free 1000 largest 1000 eden 0 past 0\n",
    )?;
    let mut files = store(alloc, "")?;
    check_room(
        &rt,
        alloc,
        &mut files,
        "5100",
        script.as_str(),
        full.as_str(),
    )
}
