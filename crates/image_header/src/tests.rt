use super::*;
use std::test::Fail;

// The header of an image of one segment, whose carried bytes are 7, its free bytes too.
fn base_image() -> [u8; 128] {
    let mut bytes = [7; 128];
    let front = [
        0xb5, 0x09, 0x01, 0, // the format
        128, 0, 0, 0, // the size of the header
        0x70, 0xc4, 0, 0, 0, 0, 0, 0, // the bytes of the heap
        0, 0, 0x10, 0, 0, 0, 0, 0, // the base
        0x08, 0xc4, 0x10, 0, 0, 0, 0, 0, // the special objects
        1, 0, 0, 0, 0, 0, 0, 0, // the last hash
    ];
    bytes[..40].copy_from_slice(&front);
    bytes[72..80].copy_from_slice(&[0x70, 0xc4, 0, 0, 0, 0, 0, 0]);
    bytes
}

#[test]
fn fields_of_the_base_image_are_read(rt: HostRuntime) -> Result<(), Fail> {
    let bytes = base_image();
    let header = ImageHeader {
        format: 68021,
        heap_bytes: 50288,
        base: 1_048_576,
        special: 1_098_760,
        last_hash: 1,
        first_segment: 50288,
        carried: bytes,
    };
    assert_eq!(rt; read(&bytes), Ok(header));
    Ok(())
}

#[test]
fn free_bytes_are_written_as_zero_and_all_others_as_they_were_read(
    rt: HostRuntime,
) -> Result<(), Fail> {
    let bytes = base_image();
    let mut wanted = bytes;
    wanted[80..88].copy_from_slice(&[0; 8]);
    let header = read(&bytes)?;
    assert!(rt; write(&header) == wanted);
    Ok(())
}

#[test]
fn first_fault_is_told(rt: HostRuntime) -> Result<(), Fail> {
    let mut bytes = base_image();
    bytes[16] = 4;
    assert_eq!(rt; read(&bytes), Err(HeaderError::Base(1_048_580)));
    bytes[4] = 64;
    assert_eq!(rt; read(&bytes), Err(HeaderError::HeaderSize(64)));
    bytes[0] = 0xb4;
    assert_eq!(rt; read(&bytes), Err(HeaderError::Format(68020)));
    Ok(())
}

#[test]
fn base_may_be_2_to_the_60(rt: HostRuntime) -> Result<(), Fail> {
    let mut bytes = base_image();
    bytes[16..24].copy_from_slice(&[0, 0, 0, 0, 0, 0, 0, 0x10]);
    assert!(rt; read(&bytes).is_ok());
    bytes[16] = 8;
    assert_eq!(rt; read(&bytes), Err(HeaderError::Base((1 << 60) + 8)));
    Ok(())
}
