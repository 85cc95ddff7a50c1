use super::*;
use image_header::{ImageHeader, write};
use spur_graph::Limits;
use spur_io::{CallKind, Files, MemoryFiles};
use spur_words::Region;
use std::test::Fail;

const LIMITS: Limits = Limits {
    eden: 0,
    survivor: 0,
    room: 0,
    saved: 1,
};

// The bytes of a header.
fn header(heap_bytes: u64, base: u64, first_segment: u64) -> [u8; 128] {
    let mut carried = [0; 128];
    carried[4] = 128;
    write(&ImageHeader {
        format: 68021,
        heap_bytes,
        base,
        special: 0,
        last_hash: 0,
        first_segment,
        carried,
    })
}

// Makes the file anew, of a header and words.
fn make(files: &mut MemoryFiles, header: [u8; 128], words: &[u64]) -> Result<(), Fail> {
    files.begin("an.image")?;
    files.append("an.image", &header)?;
    for word in words.iter() {
        files.append("an.image", &word.to_le_bytes())?;
    }
    Ok(())
}

fn cause(files: &mut MemoryFiles, rt: &HostRuntime) -> Result<(), LoadError> {
    read_front(rt.alloc(), files, "an.image", LIMITS)?;
    Ok(())
}

#[test]
fn header_is_refused_by_its_first_cause(rt: HostRuntime) -> Result<(), Fail> {
    let mut files = MemoryFiles::new(rt.alloc())?;
    assert_eq!(rt; cause(&mut files, &rt), Err(LoadError::Short(0)));
    files.append("an.image", &[0; 127])?;
    assert_eq!(rt; cause(&mut files, &rt), Err(LoadError::Short(127)));
    files.append("an.image", &[0])?;
    assert_eq!(rt; cause(&mut files, &rt), Err(LoadError::Format(0)));
    files.begin("an.image")?;
    files.append("an.image", &68021u32.to_le_bytes())?;
    files.append("an.image", &[0; 124])?;
    assert_eq!(rt; cause(&mut files, &rt), Err(LoadError::HeaderSize(0)));
    make(&mut files, header(16, 4, 0), &[0, 0])?;
    assert_eq!(rt; cause(&mut files, &rt), Err(LoadError::Base(4)));
    Ok(())
}

#[test]
fn image_that_asks_for_too_much_is_refused(rt: HostRuntime) -> Result<(), Fail> {
    let mut files = MemoryFiles::new(rt.alloc())?;
    make(&mut files, header(16, 4096, 0), &[0, 0])?;
    let limits = Limits {
        eden: 1 << 26,
        survivor: 1 << 25,
        room: 1,
        saved: 1,
    };
    let result = read_front(rt.alloc(), &mut files, "an.image", limits);
    assert!(rt; matches!(result, Err(LoadError::Large(134_217_731))));
    make(&mut files, header(1 << 63, 4096, 0), &[])?;
    assert_eq!(rt; cause(&mut files, &rt), Err(LoadError::Large(1 << 60)));
    Ok(())
}

#[test]
fn length_of_a_cut_heap_is_told(rt: HostRuntime) -> Result<(), Fail> {
    let mut files = MemoryFiles::new(rt.alloc())?;
    make(&mut files, header(1 << 30, 4096, 0), &[])?;
    assert_eq!(rt; cause(&mut files, &rt), Err(LoadError::Short(128)));
    files.append("an.image", &[0; 999])?;
    assert_eq!(rt; cause(&mut files, &rt), Err(LoadError::Short(1127)));
    make(&mut files, header(32, 4096, 0), &[0, 0, 0])?;
    assert_eq!(rt; cause(&mut files, &rt), Err(LoadError::Short(152)));
    Ok(())
}

#[test]
fn segment_that_cannot_stand_is_told(rt: HostRuntime) -> Result<(), Fail> {
    let mut files = MemoryFiles::new(rt.alloc())?;
    make(&mut files, header(0, 4096, 0), &[])?;
    assert_eq!(rt; cause(&mut files, &rt), Err(LoadError::Segment(0)));
    make(&mut files, header(24, 4096, 20), &[0, 0, 0])?;
    assert_eq!(rt; cause(&mut files, &rt), Err(LoadError::Segment(0)));
    make(&mut files, header(24, 4096, 8), &[0, 0, 0])?;
    assert_eq!(rt; cause(&mut files, &rt), Err(LoadError::Segment(0)));
    make(&mut files, header(40, 4096, 16), &[0, 32, 0, 0, 0])?;
    assert_eq!(rt; cause(&mut files, &rt), Err(LoadError::Segment(1)));
    make(&mut files, header(40, 4096, 16), &[0, 0, 0, 0, 0])?;
    assert_eq!(rt; cause(&mut files, &rt), Err(LoadError::End(24)));
    Ok(())
}

#[test]
fn words_of_two_segments_are_read(rt: HostRuntime) -> Result<(), Fail> {
    let mut files = MemoryFiles::new(rt.alloc())?;
    let words = [5, 6, (255 << 56) + 3, 24, 7, 0, 0];
    make(&mut files, header(56, 4096, 32), &words)?;
    files.limit_reads(3);
    let front = read_front(rt.alloc(), &mut files, "an.image", LIMITS)?;
    assert_eq!(rt; (front.map.len(), front.map.words()), (2, 3));
    assert_eq!(rt; front.map.to_region(4096 + 32 + 24), Some(2));
    let mut region = Region::new(rt.alloc(), 4)?;
    read_words(rt.alloc(), &mut files, "an.image", &front.map, &mut region)?;
    assert_eq!(rt; region.window(0, 4), [5, 6, 7, 0].as_slice());
    Ok(())
}

#[test]
fn first_segment_of_no_length_is_the_whole_heap(rt: HostRuntime) -> Result<(), Fail> {
    let mut files = MemoryFiles::new(rt.alloc())?;
    make(&mut files, header(32, 4096, 0), &[5, 6, 0, 0])?;
    let front = read_front(rt.alloc(), &mut files, "an.image", LIMITS)?;
    assert_eq!(rt; (front.map.len(), front.map.words()), (1, 2));
    files.fail_calls(rt.alloc(), CallKind::Read, 1)?;
    assert_eq!(rt; cause(&mut files, &rt), Err(LoadError::ReadFault));
    Ok(())
}
