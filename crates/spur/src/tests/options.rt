use super::fixtures::{FIRST_SCRIPT, patch, status, store};
use replay::Status;
use spur_io::{MemoryFiles, MemorySink};
use std::alloc::Global;
use std::process::Abort;
use std::test::Fail;

const USAGE: &str =
    "usage: spur replay IMAGE SCRIPT [--eden W] [--survivor W] [--room W] [--saved W] | spur drill START LINES\n";

/// Asserts the status of a run with these words, and what was put.
fn check_words(
    rt: &impl Abort,
    alloc: Global,
    files: &mut MemoryFiles,
    words: &[&str],
    want: Status,
    put: &str,
) -> Result<(), Fail> {
    let mut out = MemorySink::new(alloc)?;
    let status = status(alloc, words, files, &mut out)?;
    assert_eq!(rt; status, want);
    assert_eq!(rt; out.bytes(), put.as_bytes());
    Ok(())
}

/// Words, how a run of the line `stat` ends, and what it puts.
const TOLD: [(&[&str], Status, &str); 8] = [
    (
        &["replay", "base.image", "a.script"],
        Status::Done,
        "stat nodes 15 handles 0 mourners 0 free 1048576 largest 1048576 eden 0 past 0\n",
    ),
    (
        &["replay", "base.image", "a.script", "--room", "0"],
        Status::Done,
        "stat nodes 15 handles 0 mourners 0 free 0 largest 0 eden 0 past 0\n",
    ),
    (
        &["replay", "base.image", "a.script", "--room", "2"],
        Status::Done,
        "stat nodes 15 handles 0 mourners 0 free 2 largest 2 eden 0 past 0\n",
    ),
    (
        &[
            "replay",
            "base.image",
            "a.script",
            "--room",
            "10",
            "--saved",
            "2",
        ],
        Status::Done,
        "stat nodes 15 handles 0 mourners 0 free 10 largest 10 eden 0 past 0\n",
    ),
    (
        &[
            "replay",
            "base.image",
            "a.script",
            "--saved",
            "2",
            "--room",
            "10",
        ],
        Status::Done,
        "stat nodes 15 handles 0 mourners 0 free 10 largest 10 eden 0 past 0\n",
    ),
    (
        &["replay", "base.image", "a.script", "--saved", "1"],
        Status::Done,
        "stat nodes 15 handles 0 mourners 0 free 1048576 largest 1048576 eden 0 past 0\n",
    ),
    // no table is made where there is no image
    (
        &["replay", "no.image", "a.script", "--saved", "16777216"],
        Status::Refused,
        "image: short 0\n",
    ),
    (
        &["replay", "no.image", "a.script", "--room", "67108864"],
        Status::Refused,
        "image: short 0\n",
    ),
];

#[test]
fn options_are_told(rt: HostRuntime) -> Result<(), Fail> {
    let mut files = store(rt.alloc(), "stat\n")?;
    for (words, want, put) in TOLD {
        check_words(&rt, rt.alloc(), &mut files, words, want, put)?;
    }
    Ok(())
}

#[test]
fn the_room_counts_among_the_words_of_a_heap(rt: HostRuntime) -> Result<(), Fail> {
    let mut files = store(rt.alloc(), FIRST_SCRIPT)?;
    patch(rt.alloc(), &mut files, 8, &((1u64 << 29) + 8).to_le_bytes())?;
    let words = ["replay", "base.image", "a.script", "--room", "67108864"];
    check_words(
        &rt,
        rt.alloc(),
        &mut files,
        &words,
        Status::Refused,
        "image: large 134217729\n",
    )
}

/// Words that are in no known form.
const MISUSED: [&[&str]; 21] = [
    &[],
    &["replay", "x"],
    &["play", "base.image", "a.script"],
    &["replay", "", "a.script"],
    &["replay", "base.image", "-"],
    &["replay", "base.image", "a.script", "--room"],
    &["replay", "base.image", "a.script", "--room", "1"],
    &["replay", "base.image", "a.script", "--room", "05"],
    &["replay", "base.image", "a.script", "--room", "67108865"],
    &["replay", "base.image", "a.script", "--room=5"],
    &[
        "replay",
        "base.image",
        "a.script",
        "--room",
        "5",
        "--room",
        "5",
    ],
    &["replay", "base.image", "a.script", "--saved"],
    &["replay", "base.image", "a.script", "--saved", "0"],
    &["replay", "base.image", "a.script", "--saved", "01"],
    &["replay", "base.image", "a.script", "--saved", "16777217"],
    &[
        "replay",
        "base.image",
        "a.script",
        "--saved",
        "8",
        "--saved",
        "8",
    ],
    &[
        "replay",
        "base.image",
        "a.script",
        "--saved",
        "8",
        "--room",
        "5",
        "--saved",
        "8",
    ],
    &["replay", "base.image", "a.script", "--saved", "--room", "5"],
    &["replay", "base.image", "a.script", "--eden", "5"],
    &["replay", "--room", "5", "base.image", "a.script"],
    &["replay", "base.image", "a.script", "5"],
];

#[test]
fn other_words_are_misused(rt: HostRuntime) -> Result<(), Fail> {
    let mut files = store(rt.alloc(), FIRST_SCRIPT)?;
    for words in MISUSED {
        check_words(&rt, rt.alloc(), &mut files, words, Status::Usage, USAGE)?;
    }
    Ok(())
}
