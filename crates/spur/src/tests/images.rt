use super::fixtures::{FIRST_ANSWERS, FIRST_SCRIPT, check, check_rows, patch, store};
use replay::Status;
use spur_io::{Files, MemoryFiles, read_full};
use std::alloc::Global;
use std::process::Abort;
use std::test::Fail;

/// Bytes of the base image.
const IMAGE_BYTES: usize = 50_416;

/// Bytes of its header.
const HEADER_BYTES: usize = 128;

/// Where the format of the special objects array is in the file, and its slot 0.
const SPECIAL_FORMAT: usize = 50_315;

const SPECIAL_SLOT: usize = 50_320;

/// Asserts that the image is refused by this line.
fn check_refused(
    rt: &impl Abort,
    alloc: Global,
    files: &mut MemoryFiles,
    line: &str,
) -> Result<(), Fail> {
    check(rt, alloc, files, Status::Refused, line)
}

/// A store with the first script and the base image, in which these bytes are put in place of others.
fn patched(alloc: Global, at: usize, bytes: &[u8]) -> Result<MemoryFiles, Fail> {
    let mut files = store(alloc, FIRST_SCRIPT)?;
    patch(alloc, &mut files, at, bytes)?;
    Ok(files)
}

/// A store with the first script and the first bytes of the base image.
fn cut(alloc: Global, size: usize) -> Result<MemoryFiles, Fail> {
    let mut files = store(alloc, FIRST_SCRIPT)?;
    let mut image = Vec::from_elem(alloc, 0, size)?;
    read_full(&mut files, "base.image", 0, image.as_mut_slice())?;
    files.begin("base.image")?;
    files.append("base.image", image.as_slice())?;
    Ok(files)
}

/// The header word of an object without a hash.
fn header(count: u64, format: u64, class: u64) -> u64 {
    count << 56 | format << 24 | class
}

/// A store with the base image and a second segment of 18 words behind it, 1,000 words on: an array with this word in slot 0, a free chunk,
/// an object of format 3 with two slots of no value, and an object-stack page.
pub(crate) fn two_segments(alloc: Global, slot: u64) -> Result<MemoryFiles, Fail> {
    let mut files = store(alloc, "")?;
    // the length of the heap
    patch(alloc, &mut files, 8, &50_432u64.to_le_bytes())?;
    // the bridge
    patch(
        alloc,
        &mut files,
        HEADER_BYTES + 8 * 6_284,
        &((255u64 << 56) + 1_000).to_le_bytes(),
    )?;
    patch(
        alloc,
        &mut files,
        HEADER_BYTES + 8 * 6_285,
        &144u64.to_le_bytes(),
    )?;
    patch(alloc, &mut files, SPECIAL_SLOT, &1_106_864u64.to_le_bytes())?;
    // slot 4096 of the hidden roots
    patch(
        alloc,
        &mut files,
        HEADER_BYTES + 8 * 4_169,
        &1_106_952u64.to_le_bytes(),
    )?;
    let words = [
        header(2, 2, 51),
        slot,
        1_098_760,
        header(3, 9, 0),
        0,
        0,
        0,
        header(3, 3, 56),
        57,
        5,
        1_098_768,
        header(4, 9, 19),
        1,
        2,
        3,
        4,
        0,
        0,
    ];
    'words: for word in words.iter() {
        files.append("base.image", &word.to_le_bytes())?;
    }
    Ok(files)
}

#[test]
fn headers_are_refused(rt: HostRuntime) -> Result<(), Fail> {
    check_refused(
        &rt,
        rt.alloc(),
        &mut cut(rt.alloc(), 127)?,
        "image: short 127\n",
    )?;
    check_refused(
        &rt,
        rt.alloc(),
        &mut cut(rt.alloc(), IMAGE_BYTES - 1)?,
        "image: short 50415\n",
    )?;
    let mut files = patched(rt.alloc(), 0, &68_533u32.to_le_bytes())?;
    check_refused(&rt, rt.alloc(), &mut files, "image: format 68533\n")?;
    // more words than a region has, with the room where no option tells it
    let mut files = patched(rt.alloc(), 8, &(1u64 << 30).to_le_bytes())?;
    check_refused(&rt, rt.alloc(), &mut files, "image: large 135266304\n")
}

#[test]
fn each_cause_is_told(rt: HostRuntime) -> Result<(), Fail> {
    // Bytes of the base image that are changed at a place, and the first cause.
    let rows: [(usize, &[u8], &str); 8] = [
        (4, &[64], "image: header 64\n"),
        (16, &[1], "image: base 1048577\n"),
        // 2^60 + 2^20
        (23, &[16], "image: base 1152921504607895552\n"),
        (72, &[12, 0], "image: segment 0\n"),
        // false's header stands where the first bridge tells the next segment's size: 33 bytes
        (72, &[24, 0], "image: segment 1\n"),
        // nil is a free chunk, then the hidden roots have another format: the place is that of their overflow word
        (128, &[0], "image: roots 128\n"),
        (707, &[1], "image: roots 696\n"),
        (24, &[4, 0, 0x10], "image: special 1048580\n"),
    ];
    'rows: for (at, bytes, line) in rows {
        let mut files = patched(rt.alloc(), at, bytes)?;
        check_refused(&rt, rt.alloc(), &mut files, line)?;
    }
    Ok(())
}

#[test]
fn the_first_of_two_causes_is_told(rt: HostRuntime) -> Result<(), Fail> {
    // a slot and the special objects reference are both bad
    let mut files = patched(rt.alloc(), 24, &[4, 0, 0x10])?;
    patch(rt.alloc(), &mut files, SPECIAL_SLOT, &[0x10, 0xc4])?;
    check_refused(&rt, rt.alloc(), &mut files, "image: slot 50320\n")
}

#[test]
fn forwarders_do_not_lead_to_themselves(rt: HostRuntime) -> Result<(), Fail> {
    // a class is a forwarder to itself
    let mut files = patched(rt.alloc(), 50_280, &[8])?;
    patch(rt.alloc(), &mut files, 50_288, &[0xe8, 0xc3, 0x10])?;
    check_refused(&rt, rt.alloc(), &mut files, "image: forwarder 50288\n")
}

#[test]
fn bytes_behind_the_last_segment_are_told(rt: HostRuntime) -> Result<(), Fail> {
    let mut files = patched(rt.alloc(), 8, &50_304u64.to_le_bytes())?;
    files.append("base.image", &[0; 16])?;
    check_refused(&rt, rt.alloc(), &mut files, "image: end 16\n")
}

#[test]
fn forwarders_are_followed(rt: HostRuntime) -> Result<(), Fail> {
    // the class of index 56 is a forwarder to the one of index 55
    let mut files = patched(rt.alloc(), 50_280, &[8])?;
    patch(rt.alloc(), &mut files, 50_288, &[0xc8, 0xc3, 0x10])?;
    check_rows(
        &rt,
        rt.alloc(),
        &mut files,
        &[
            ("special s", "ok"),
            ("fetch a s 8", "ok"),
            ("fetch b s 7", "ok"),
            ("same a b", "true"),
            ("kind a", "object 32 1"),
        ],
    )
}

#[test]
fn without_its_length_the_first_segment_is_the_heap(rt: HostRuntime) -> Result<(), Fail> {
    let mut files = patched(rt.alloc(), 72, &[0; 8])?;
    check(&rt, rt.alloc(), &mut files, Status::Done, FIRST_ANSWERS)
}

#[test]
fn slots_name_ordinary_objects(rt: HostRuntime) -> Result<(), Fail> {
    // the slot's own word, then a page of the class table
    let mut files = patched(rt.alloc(), SPECIAL_SLOT, &1_098_768u64.to_le_bytes())?;
    check_refused(&rt, rt.alloc(), &mut files, "image: slot 50320\n")?;
    let mut files = patched(rt.alloc(), SPECIAL_SLOT, &1_082_000u64.to_le_bytes())?;
    check_refused(&rt, rt.alloc(), &mut files, "image: slot 50320\n")?;
    // in an object of format 3 a slot without a value reads as nil
    let mut files = patched(rt.alloc(), SPECIAL_SLOT, &1_098_768u64.to_le_bytes())?;
    patch(rt.alloc(), &mut files, SPECIAL_FORMAT, &[3])?;
    check_rows(
        &rt,
        rt.alloc(),
        &mut files,
        &[
            ("special s", "ok"),
            ("fetch a s 0", "ok"),
            ("kind a", "nil"),
        ],
    )?;
    // a format that no object has
    let mut files = patched(rt.alloc(), SPECIAL_FORMAT, &[6])?;
    check_refused(&rt, rt.alloc(), &mut files, "image: object 50312\n")
}

#[test]
fn class_tables_name_classes(rt: HostRuntime) -> Result<(), Fail> {
    // the hash of the class of arrays is not that of its entry
    let mut files = patched(rt.alloc(), HEADER_BYTES + 8 * 6_249 + 4, &[0; 3])?;
    check_refused(&rt, rt.alloc(), &mut files, "image: class 33968\n")?;
    // the second place of the hidden roots names the first page again
    let mut files = patched(
        rt.alloc(),
        HEADER_BYTES + 8 * 74,
        &1_082_000u64.to_le_bytes(),
    )?;
    check_refused(&rt, rt.alloc(), &mut files, "image: class 720\n")?;
    // entry 51 names another class
    let mut files = patched(
        rt.alloc(),
        HEADER_BYTES + 8 * 4_230,
        &1_098_600u64.to_le_bytes(),
    )?;
    check_rows(
        &rt,
        rt.alloc(),
        &mut files,
        &[
            ("special s", "ok"),
            ("class k s", "ok"),
            ("fetch b s 4", "ok"),
            ("same k b", "true"),
        ],
    )
}

/// What is answered of the second segment, where the array's slot names the object of format 3.
pub(crate) const SEGMENT_ROWS: [(&str, &str); 11] = [
    ("special s", "ok"),
    ("fetch a s 0", "ok"),
    ("fetch c a 0", "ok"),
    ("fetch x c 0", "ok"),
    ("kind x", "int 7"),
    ("fetch y c 1", "ok"),
    ("kind y", "nil"),
    ("fetch z c 2", "ok"),
    ("kind z", "nil"),
    ("fetch t a 1", "ok"),
    ("same s t", "true"),
];

#[test]
fn references_lead_from_segment_to_segment(rt: HostRuntime) -> Result<(), Fail> {
    let mut files = two_segments(rt.alloc(), 1_106_920)?;
    check_rows(&rt, rt.alloc(), &mut files, &SEGMENT_ROWS)
}

#[test]
fn places_in_a_later_segment_are_told(rt: HostRuntime) -> Result<(), Fail> {
    // the array's slot names its own word, then an address in the gap between the segments
    'slots: for slot in [1_106_872, 1_098_872] {
        let mut files = two_segments(rt.alloc(), slot)?;
        check_refused(&rt, rt.alloc(), &mut files, "image: slot 50424\n")?;
    }
    Ok(())
}
