use super::*;
use drill_files::write_base_image;
use spur_graph::Limits;
use spur_io::{Files, MemoryFiles, read_full};
use std::test::Fail;

const LIMITS: Limits = Limits {
    eden: 0,
    survivor: 0,
    room: 0,
    saved: 1,
};

fn loaded(files: &mut MemoryFiles, rt: &HostRuntime) -> Result<(), LoadError> {
    let _heap = load(rt.alloc(), files, "an.image", LIMITS)?;
    Ok(())
}

/// A header of zeros but for its format, its size and the bytes of its heap.
fn put_header(files: &mut MemoryFiles, size: u32, heap: u64) -> Result<(), Fail> {
    files.begin("an.image")?;
    files.append("an.image", &68021u32.to_le_bytes())?;
    files.append("an.image", &size.to_le_bytes())?;
    files.append("an.image", &heap.to_le_bytes())?;
    files.append("an.image", &[0; 112])?;
    Ok(())
}

#[test]
fn short_file_is_told_its_length(rt: HostRuntime) -> Result<(), Fail> {
    let mut files = MemoryFiles::new(rt.alloc())?;
    assert_eq!(rt; loaded(&mut files, &rt), Err(LoadError::Short(0)));
    files.append("an.image", &[0; 127])?;
    assert_eq!(rt; loaded(&mut files, &rt), Err(LoadError::Short(127)));
    files.append("an.image", &[0])?;
    assert_eq!(rt; loaded(&mut files, &rt), Err(LoadError::Format(0)));
    put_header(&mut files, 128, 16)?;
    assert_eq!(rt; loaded(&mut files, &rt), Err(LoadError::Short(128)));
    Ok(())
}

#[test]
fn causes_of_a_header_come_in_order(rt: HostRuntime) -> Result<(), Fail> {
    let mut files = MemoryFiles::new(rt.alloc())?;
    put_header(&mut files, 0, 1 << 40)?;
    assert_eq!(rt; loaded(&mut files, &rt), Err(LoadError::HeaderSize(0)));
    put_header(&mut files, 128, (1 << 30) + 8)?;
    assert_eq!(rt;
        loaded(&mut files, &rt),
        Err(LoadError::Large((1 << 27) + 1))
    );
    put_header(&mut files, 128, 0)?;
    assert_eq!(rt; loaded(&mut files, &rt), Err(LoadError::Segment(0)));
    Ok(())
}

#[test]
fn place_is_told_as_an_offset_in_the_file(rt: HostRuntime) -> Result<(), Fail> {
    let mut files = MemoryFiles::new(rt.alloc())?;
    put_header(&mut files, 128, 16)?;
    files.append("an.image", &[0; 16])?;
    assert_eq!(rt; loaded(&mut files, &rt), Err(LoadError::Roots(128)));
    put_header(&mut files, 128, 32)?;
    files.append("an.image", &[0xFF; 16])?;
    files.append("an.image", &[0; 16])?;
    assert_eq!(rt; loaded(&mut files, &rt), Err(LoadError::Object(128)));
    Ok(())
}

/// The same limits with new space.
const WIDE: Limits = Limits {
    eden: 64,
    survivor: 16,
    room: 0,
    saved: 1,
};

/// Words of the base image's objects.
const BASE_WORDS: usize = 6_284;

#[test]
fn new_space_stands_behind_old_space(rt: HostRuntime) -> Result<(), Fail> {
    let mut files = MemoryFiles::new(rt.alloc())?;
    write_base_image(&mut files, "an.image")?;
    let heap = load(rt.alloc(), &mut files, "an.image", WIDE)?;
    let parts = &heap.parts;
    assert_eq!(rt; parts.limits, WIDE);
    assert_eq!(rt; parts.region.len(), BASE_WORDS + 64 + 16 + 16);
    assert_eq!(rt; parts.old_end, BASE_WORDS);
    assert_eq!(rt; parts.eden_at, BASE_WORDS);
    assert_eq!(rt; parts.first_at, BASE_WORDS + 64);
    assert_eq!(rt; parts.second_at, BASE_WORDS + 64 + 16);
    assert_eq!(rt; parts.past_at, parts.first_at);
    assert_eq!(rt; parts.eden_used, 0);
    assert_eq!(rt; parts.past_used, 0);
    Ok(())
}

#[test]
fn heap_with_new_space_reads_as_without(rt: HostRuntime) -> Result<(), Fail> {
    let mut files = MemoryFiles::new(rt.alloc())?;
    write_base_image(&mut files, "an.image")?;
    let heap = load(rt.alloc(), &mut files, "an.image", LIMITS)?;
    let wide = load(rt.alloc(), &mut files, "an.image", WIDE)?;
    // objects stand in the order of the file: nil, false and true are the first, and the special objects array is the last
    assert_eq!(rt; (wide.nil(), wide.no(), wide.yes()), (0, 16, 32));
    assert_eq!(rt; (heap.nil(), heap.no(), heap.yes()), (0, 16, 32));
    let special = wide.special();
    assert_eq!(rt; special, 8 * 6_273);
    assert_eq!(rt; heap.special(), special);
    assert_eq!(rt; wide.follow(special), special);
    assert_eq!(rt;
        wide.parts.region.as_slice().get(..BASE_WORDS),
        heap.parts.region.as_slice().get(..BASE_WORDS)
    );
    // its slot 3 refers to the class of index 51
    assert_eq!(rt;
        wide.parts.region.as_slice().get(6_277),
        Some(&wide.class_at(51))
    );
    'classes: for index in 1..60 {
        assert_eq!(rt; wide.class_at(index), heap.class_at(index));
    }
    assert_eq!(rt; wide.class_at(1), 8 * 6_229);
    assert_eq!(rt; wide.class_at(3), wide.nil());
    assert_eq!(rt; wide.class_at(1 << 22), wide.nil());
    assert_eq!(rt; wide.class_at(u32::MAX), wide.nil());
    Ok(())
}

/// Puts bytes in place of those from `at` on.
fn patch(image: &mut [u8], at: usize, bytes: &[u8]) {
    'bytes: for (i, byte) in bytes.iter().enumerate() {
        if let Some(old) = image.get_mut(at.saturating_add(i)) {
            *old = *byte;
        }
    }
}

#[test]
fn heap_carries_the_bytes_of_the_header(rt: HostRuntime) -> Result<(), Fail> {
    let mut files = MemoryFiles::new(rt.alloc())?;
    write_base_image(&mut files, "an.image")?;
    let mut image = Vec::from_elem(rt.alloc(), 0, 50_416)?;
    read_full(&mut files, "an.image", 0, image.as_mut_slice())?;
    patch(image.as_mut_slice(), 40, &[7; 32]);
    patch(image.as_mut_slice(), 88, &[9; 40]);
    files.begin("an.image")?;
    files.append("an.image", image.as_slice())?;
    let heap = load(rt.alloc(), &mut files, "an.image", WIDE)?;
    assert_eq!(rt;
        Some(heap.parts.carried.as_slice()),
        image.as_slice().get(..128)
    );
    assert_eq!(rt;
        heap.parts.carried.as_slice().get(40..72),
        Some([7; 32].as_slice())
    );
    assert_eq!(rt;
        heap.parts.carried.as_slice().get(88..),
        Some([9; 40].as_slice())
    );
    Ok(())
}
