// Laws of reading and writing.
ghost use Rattle.image_header.specs.Headers.{Carries, ReadsBack, WritesBack};

/// A header that is written reads as the fields that were written.
pub fn reads_back()
    ensures { ReadsBack }
{}

/// A header that was read is written as the bytes that it was read from, but for the free bytes, which are 0.
pub fn writes_back()
    ensures { WritesBack }
{}

/// The bytes that are no fields are written as they were carried, but for the free bytes, which are 0.
pub fn carries()
    ensures { Carries }
{}
