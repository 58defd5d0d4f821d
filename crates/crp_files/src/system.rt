//! The files of the system.
ghost use Rattle.std.specs.Prelude.{◌≡◌};

use crate::files::{Files, NotFinished, NotOpened};
use crp_plan::{Counted, read_all};
use std::alloc::Global;
use std::fs::{self, File, OpenOptions};
use std::io::{self, ErrorKind, Read};
use std::os::unix::fs::MetadataExt;

/// The files of the system, of whose bytes nothing is known.
#[derive(Drop)]
pub struct SystemFiles<'a> {
    rt: &'a HostRuntime,
    failed: u64,
}

impl<'a> SystemFiles<'a> {
    /// All files, none of which has failed yet.
    pub fn new(rt: &'a HostRuntime) -> SystemFiles<'a>
        ensures { ⟦<SystemFiles<'a> as Files>⟧.failures result ≡ 0 }
    {
        SystemFiles { rt, failed: 0 }
    }
}

// Whether all that was written stands on the disk, as far as there is one: a pipe, a terminal and other devices have nothing to bring
// there, and say so.
fn is_kept(synced: &io::Result<()>) -> bool {
    match synced {
        Ok(()) => true,
        Err(error) => matches!(
            error.kind(),
            ErrorKind::InvalidInput | ErrorKind::Unsupported | ErrorKind::ReadOnlyFilesystem
        ),
    }
}

impl Files for SystemFiles<'_> {
    type Input = Counted<File>;

    type Output = Counted<File>;

    ghost failures = { λ files. files.failed };

    fn is_one_file(&self, name: &str, other: &str) -> bool {
        let Ok(first) = fs::metadata(self.rt, name) else {
            return false;
        };
        let Ok(second) = fs::metadata(self.rt, other) else {
            return false;
        };
        first.is_file()
            && second.is_file()
            && first.dev() == second.dev()
            && first.ino() == second.ino()
    }

    fn begins(&self, alloc: Global, name: &str, most: usize) -> Option<Vec<u8>> {
        match fs::metadata(self.rt, name) {
            Ok(found) if found.is_file() => {}
            _ => return None,
        }
        let Ok(file) = File::open(self.rt, name) else {
            return None;
        };
        let mut front = Counted::new(file.take(most as u64));
        let mut interruptions = 0;
        match read_all(alloc, &mut front, most, &mut interruptions) {
            Ok(bytes) => Some(bytes),
            Err(_) => None,
        }
    }

    fn size(&self, name: &str) -> Option<u64> {
        match fs::metadata(self.rt, name) {
            Ok(found) if found.is_file() => Some(found.len()),
            _ => None,
        }
    }

    fn open(&mut self, name: &str) -> Result<Counted<File>, NotOpened> {
        match File::open(self.rt, name) {
            Ok(file) => Ok(Counted::new(file)),
            Err(_) => {
                self.failed = self.failed.saturating_add(1);
                Err(NotOpened)
            }
        }
    }

    fn prepare(&mut self, name: &str) {
        if fs::metadata(self.rt, name).is_err() {
            let mut making = OpenOptions::new();
            making.write(true).create(true);
            let _made = making.open(self.rt, name);
        }
    }

    fn create(&mut self, name: &str) -> Result<Counted<File>, NotOpened> {
        match File::create(self.rt, name) {
            Ok(file) => Ok(Counted::new(file)),
            Err(_) => {
                self.failed = self.failed.saturating_add(1);
                Err(NotOpened)
            }
        }
    }

    fn close(&mut self, file: Counted<File>) {
        self.failed = self.failed.saturating_add(file.failed);
    }

    // A quota or a disk behind a network may fail only here.
    fn finish(&mut self, _name: &str, file: Counted<File>) -> Result<(), NotFinished> {
        self.failed = self.failed.saturating_add(file.failed);
        if is_kept(&file.device.sync_all()) {
            return Ok(());
        }
        self.failed = self.failed.saturating_add(1);
        Err(NotFinished)
    }
}
