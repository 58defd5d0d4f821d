//! Files in memory.
ghost use Rattle.std.specs.Prelude.{◌≡◌, ◌<◌, ◌≤◌, All, false, length, take, vec_len, option_map, IfOk, IfSome};
ghost use Rattle.crp_memory_files.specs.Memory.{bytes_at, is_one, known_in, place_of, readable_at};

use crp_files::{Files, NotFinished, NotOpened};
use crp_plan::Received;
use std::alloc::{AllocError, Global};

/// A file in memory.
#[derive(Clone, Copy)]
pub struct StoredFile<'a> {
    /// Its name.
    pub name: &'a str,
    /// Another name that leads to it, or the same once more.
    pub link: &'a str,
    /// Its bytes, if it is there from the beginning.
    pub given: Option<&'a [u8]>,
    /// Whether it can be finished where it was written.
    pub finishes: bool,
}

/// What was written to a file.
#[derive(Drop)]
pub struct Written {
    /// Whether it was made, or emptied, to be written.
    pub begun: bool,
    /// The bytes that it then got, once it was finished.
    pub bytes: Vec<u8>,
}

/// Files in memory, of which all is known. Whoever makes them lists all names. A file that was written is not read again.
#[derive(Drop)]
pub struct FilesInMemory<'a> {
    /// The files.
    pub stored: &'a [StoredFile<'a>],
    /// What was written to each.
    pub written: Vec<Written>,
    /// How many could not be opened or finished, and how many calls of those that were closed have failed, up to the largest u64.
    pub failed: u64,
    alloc: Global,
    ghost as_many: { vec_len written ≡ length stored.now },
}

// The place of the file with this name, if there is one.
fn place_of(stored: &[StoredFile<'_>], name: &str) -> Option<usize>
    ensures place { result ≡ place_of stored.now name.now }
    ensures within { IfSome result (λ place. place < length stored.now) }
{
    stored
        .iter()
        .position(|file| file.name == name || file.link == name)
}

// What the bytes begin with, at most so many.
fn front_of(alloc: Global, bytes: &[u8], most: usize) -> Option<Vec<u8>>
    ensures front { IfSome result (λ front. front.items ≡ take most bytes.now) }
    ensures few { IfSome result (λ front. vec_len front ≤ most) }
{
    Vec::from_slice(alloc, &bytes[..bytes.len().min(most)]).ok()
}

impl<'a> FilesInMemory<'a> {
    /// These files, to none of which anything was written.
    pub fn new(alloc: Global, stored: &'a [StoredFile<'a>]) -> Result<FilesInMemory<'a>, AllocError>
        ensures stored { IfOk result (λ files. files.stored.now ≡ stored.now) }
        ensures unwritten { IfOk result (λ files. All (λ written. written.begun ≡ false) files.written.items) }
        ensures count { IfOk result (λ files. files.failed ≡ 0) }
    {
        let mut written = Vec::new(alloc);
        for _ in stored {
            written.push(Written {
                begun: false,
                bytes: Vec::new(alloc),
            })?;
        }
        Ok(FilesInMemory {
            stored,
            written,
            failed: 0,
            alloc,
        })
    }

    // The bytes of the file of this name that can be read, if they can.
    fn readable(&self, name: &str) -> Option<&'a [u8]>
        ensures { option_map (λ bytes. bytes.now) result ≡ readable_at self.now.stored.now self.now.written.items (place_of self.now.stored.now name.now) }
    {
        let place = place_of(self.stored, name)?;
        if self.written[place].begun {
            return None;
        }
        self.stored[place].given
    }
}

impl<'a> Files for FilesInMemory<'a> {
    type Input = &'a [u8];

    type Output = Received;

    ghost known = { λ files. known_in files.stored.now files.written.items };

    ghost failures = { λ files. files.failed };

    fn is_one_file(&self, name: &str, other: &str) -> bool {
        let Some(place) = place_of(self.stored, name) else {
            return false;
        };
        let Some(second) = place_of(self.stored, other) else {
            return false;
        };
        place == second
    }

    #[tactic(auto, using(crate::proofs::Stored::begins_with))]
    fn begins(&self, alloc: Global, name: &str, most: usize) -> Option<Vec<u8>> {
        let bytes = self.readable(name)?;
        front_of(alloc, bytes, most)
    }

    fn size(&self, name: &str) -> Option<u64> {
        let bytes = self.readable(name)?;
        Some(bytes.len() as u64)
    }

    #[tactic(auto, using(crate::proofs::Stored::readable_given))]
    fn open(&mut self, name: &str) -> Result<&'a [u8], NotOpened> {
        match self.readable(name) {
            Some(bytes) => Ok(bytes),
            None => {
                self.failed = self.failed.saturating_add(1);
                Err(NotOpened)
            }
        }
    }

    #[tactic(auto, using(crate::proofs::Stored::other_kept, crate::proofs::Stored::made_kept))]
    fn prepare(&mut self, name: &str) {
        let Some(place) = place_of(self.stored, name) else {
            return;
        };
        if self.stored[place].given.is_none() && !self.written[place].begun {
            self.written[place] = Written {
                begun: true,
                bytes: Vec::new(self.alloc),
            };
        }
    }

    #[tactic(auto, using(crate::proofs::Stored::other_kept))]
    fn create(&mut self, name: &str) -> Result<Received, NotOpened> {
        match place_of(self.stored, name) {
            Some(place) => {
                self.written[place] = Written {
                    begun: true,
                    bytes: Vec::new(self.alloc),
                };
                Ok(Received::new(self.alloc))
            }
            None => {
                self.failed = self.failed.saturating_add(1);
                Err(NotOpened)
            }
        }
    }

    fn close(&mut self, _file: &'a [u8]) {}

    #[tactic(auto, using(crate::proofs::Stored::other_kept, crate::proofs::Stored::stands))]
    fn finish(&mut self, name: &str, file: Received) -> Result<(), NotFinished> {
        let Received { bytes, failed } = file;
        self.failed = self.failed.saturating_add(failed);
        if let Some(place) = place_of(self.stored, name) {
            if self.stored[place].finishes {
                self.written[place] = Written { begun: true, bytes };
                return Ok(());
            }
        }
        self.failed = self.failed.saturating_add(1);
        Err(NotFinished)
    }
}
