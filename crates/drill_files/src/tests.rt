// What no clause says: that the image goes out with memory at hand, and the bytes that its format's description names.
use crate::write_base_image;
use spur_io::{CallKind, FileFault, Files, MemoryFiles, read_full};
use std::test::Fail;

const IMAGE_BYTES: usize = 50_416;

#[test]
fn the_image_has_the_described_bytes(rt: HostRuntime) -> Result<(), Fail> {
    let mut files = MemoryFiles::new(rt.alloc())?;
    files.append("base.image", b"an older file")?;
    files.append("other", b"kept")?;
    write_base_image(&mut files, "base.image")?;

    let mut image = Vec::from_elem(rt.alloc(), 0, IMAGE_BYTES + 1)?;
    let size = read_full(&mut files, "base.image", 0, &mut image)?;
    assert_eq!(rt; size, IMAGE_BYTES);
    let mut format = [0u8; 4];
    read_full(&mut files, "base.image", 0, &mut format)?;
    assert_eq!(rt; &format, &[0xb5, 0x09, 0x01, 0x00]);

    // the headers of the class of arrays and of the special objects array
    let mut word = [0u8; 8];
    read_full(&mut files, "base.image", 128 + 8 * 6249, &mut word)?;
    assert_eq!(rt; &word, &[0x20, 0, 0, 0x01, 0x33, 0, 0, 0x03]);
    read_full(&mut files, "base.image", 128 + 8 * 6273, &mut word)?;
    assert_eq!(rt; &word, &[0x33, 0, 0, 0x02, 0, 0, 0, 0x0a]);

    let mut other = [0u8; 5];
    assert_eq!(rt; read_full(&mut files, "other", 0, &mut other)?, 4);
    assert_eq!(rt; &other, b"kept\0");
    Ok(())
}

#[test]
fn a_refused_append_leaves_what_went_before(rt: HostRuntime) -> Result<(), Fail> {
    let mut files = MemoryFiles::new(rt.alloc())?;
    files.fail_calls(rt.alloc(), CallKind::Append, 2)?;
    let answer = write_base_image(&mut files, "base.image");
    assert_eq!(rt; answer, Err(FileFault::Failed));
    assert_eq!(rt; files.write_faults(), 1);
    let mut front = [0u8; 129];
    assert_eq!(rt; read_full(&mut files, "base.image", 0, &mut front)?, 128);
    Ok(())
}

#[test]
fn a_refused_begin_leaves_the_file(rt: HostRuntime) -> Result<(), Fail> {
    let mut files = MemoryFiles::new(rt.alloc())?;
    files.append("base.image", b"as it was")?;
    files.fail_calls(rt.alloc(), CallKind::Begin, 1)?;
    let answer = write_base_image(&mut files, "base.image");
    assert_eq!(rt; answer, Err(FileFault::Failed));
    let mut front = [0u8; 16];
    assert_eq!(rt; read_full(&mut files, "base.image", 0, &mut front)?, 9);
    assert_eq!(rt; &front[..9], b"as it was".as_slice());
    Ok(())
}
