// Why an image is not loaded.
ghost use Rattle.std.specs.Prelude.{◌≡◌};

use image_header::HeaderError;
use spur_io::FileFault;
use spur_words::NoMemory;

/// Why there is no heap, with the number that is told: of bytes, of words, of a segment, or a place in the file.
#[derive(Clone, Copy, Debug, PartialEq, Eq)]
pub enum LoadError {
    /// The file has so many bytes, too few for its header or its heap.
    Short(u64),
    /// The format is this number, not that of a 64-bit Spur image.
    Format(u32),
    /// The header tells this size of itself, not 128 bytes.
    HeaderSize(u32),
    /// The base address is no multiple of 8 or too great.
    Base(u64),
    /// Image and limits ask for so many words, more than a region has.
    Large(u128),
    /// The segment of this number can't stand.
    Segment(u64),
    /// The chain of segments ends, and so many bytes of the heap are left.
    End(u64),
    /// The chunk at this place is refused.
    Object(u64),
    /// One of the first five chunks, at this place, is not what it has to be.
    Roots(u64),
    /// The chain of the forwarder whose first slot is at this place ends in no object.
    Forwarder(u64),
    /// The place of a page, or the class table's entry, that is at this place names neither nil nor what it may name.
    Class(u64),
    /// The pointer slot at this place has no value.
    Slot(u64),
    /// The special objects reference is this word, which names no ordinary object.
    Special(u64),
    /// A read failed.
    ReadFault,
    /// There is no memory for the heap, or the store found none.
    Memory,
}

impl From<FileFault> for LoadError {
    ghost use Rattle.spur_io.specs.declared.files.FileFault.{FileFault};
    ghost use Rattle.image_file.specs.Errors.{file_error};

    ghost from_gives = { λ f e. e ≡ file_error f };

    fn from(fault: FileFault) -> Self {
        match fault {
            FileFault::Failed => LoadError::ReadFault,
            FileFault::Memory => LoadError::Memory,
        }
    }
}

impl From<HeaderError> for LoadError {
    ghost use Rattle.image_header.specs.declared.header.HeaderError.{HeaderError};
    ghost use Rattle.image_file.specs.Errors.{header_error};

    ghost from_gives = { λ f e. e ≡ header_error f };

    fn from(error: HeaderError) -> Self {
        match error {
            HeaderError::Format(format) => LoadError::Format(format),
            HeaderError::HeaderSize(size) => LoadError::HeaderSize(size),
            HeaderError::Base(base) => LoadError::Base(base),
        }
    }
}

impl From<NoMemory> for LoadError {
    ghost use Rattle.image_file.specs.declared.error.LoadError.TheVariants.{Memory};

    ghost from_gives = { λ _ e. e ≡ Memory };

    fn from(_: NoMemory) -> Self {
        LoadError::Memory
    }
}
