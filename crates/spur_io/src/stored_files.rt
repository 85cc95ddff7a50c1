// Files by name, as a list without two of one name.
ghost use Rattle.std.specs.Prelude.{◌≡◌, ℕ, List, [], ◌++◌, Some, IfOk, OnOk, OnErr};
ghost use Rattle.std.specs.List.{position};
ghost use Rattle.std.specs.String.{string_bytes};
ghost use Rattle.spur_io.specs.Store.{ChangesOnly};
ghost use Rattle.spur_io.specs.Stored.{is_named, stored};

use std::alloc::{AllocError, Global};

#[derive(Drop)]
pub struct StoredFile {
    name: String,
    bytes: Vec<u8>,
}

impl StoredFile {
    fn empty(alloc: Global, name: &str) -> Result<StoredFile, AllocError>
        ensures name { IfOk result (λ f. string_bytes f.name ≡ name.now) }
        ensures bytes { IfOk result (λ f. f.bytes.items ≡ []) }
    {
        Ok(StoredFile {
            name: String::from_str(alloc, name)?,
            bytes: Vec::new(alloc),
        })
    }
}

#[derive(Drop)]
pub struct StoredFiles {
    alloc: Global,
    list: Vec<StoredFile>,
}

impl StoredFiles {
    pub fn new(alloc: Global) -> Self
        ensures { result.list.items ≡ [] }
    {
        StoredFiles {
            alloc,
            list: Vec::new(alloc),
        }
    }

    fn place_of(&self, name: &str) -> Option<usize>
        ensures { result ≡ position (is_named name.now) self.now.list.items }
    {
        self.list.iter().position(|file| file.name.as_str() == name)
    }

    pub fn bytes_of(&self, name: &str) -> &[u8]
        ensures { result.now ≡ stored self.now.list.items name.now }
    {
        match self.place_of(name) {
            Some(place) => self.list[place].bytes.as_slice(),
            None => &[],
        }
    }

    // Where the file of a name stands, which is made if there is none. The bytes of no name change by that.
    fn find_or_make(&mut self, name: &str) -> Result<usize, AllocError>
        ensures place { IfOk result (λ place. position (is_named name.now) self.new.list.items ≡ Some place) }
        ensures same { (n : List ℕ) → stored self.new.list.items n ≡ stored self.old.list.items n }
    {
        match self.place_of(name) {
            Some(place) => Ok(place),
            None => {
                let place = self.list.len();
                self.list.push(StoredFile::empty(self.alloc, name)?)?;
                Ok(place)
            }
        }
    }

    pub fn make_empty(&mut self, name: &str) -> Result<(), AllocError>
        ensures ok { OnOk result (ChangesOnly (stored self.old.list.items) (stored self.new.list.items) name.now (λ old new. new ≡ [])) }
        ensures err { OnErr result ((n : List ℕ) → stored self.new.list.items n ≡ stored self.old.list.items n) }
    {
        let place = self.find_or_make(name)?;
        self.list[place].bytes.clear();
        Ok(())
    }

    // Adds bytes at a file's end, in place.
    pub fn extend(&mut self, name: &str, bytes: &[u8]) -> Result<(), AllocError>
        ensures ok { OnOk result (ChangesOnly (stored self.old.list.items) (stored self.new.list.items) name.now (λ old new. new ≡ old ++ bytes.now)) }
        ensures err { OnErr result ((n : List ℕ) → stored self.new.list.items n ≡ stored self.old.list.items n) }
    {
        let place = self.find_or_make(name)?;
        self.list[place].bytes.extend_from_slice(bytes)?;
        Ok(())
    }
}
