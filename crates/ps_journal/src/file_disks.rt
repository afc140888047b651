//! Disks that are files of the system: what they do is trusted, and tested by hand.
ghost use Rattle.std.specs.Prelude.{◌≡◌, ◌<◌, ◌≤◌, None, IfOk, length};
ghost use Rattle.ps_journal.specs.Disks.{IsWithin};

use crate::{Disk, DiskFault, Disks};
use ps_data::Text;
use ps_io::Failed;
use std::alloc::Global;
use std::fs::{File, OpenOptions};
use std::os::fd::AsRawFd;
use std::os::unix::fs::{FileExt, OpenOptionsExt};
use std::{fs, io};

const CHUNK: usize = 65536;

/// A file of the system. No other process and no other handle has it open as a disk meanwhile. What it holds is not told.
#[derive(Drop)]
pub struct FileDisk {
    file: File,
    faults: u64,
    // A sync failed. The system may then have dropped what was written, so that no later sync could promise it.
    is_unsure: bool,
}

/// The files of the system, as disks.
#[derive(Drop)]
pub struct FileDisks<R: std::rt::Files<File = File> + AllocGlobal + Drop> {
    rt: R,
    faults: u64,
}

impl<R: std::rt::Files<File = File> + AllocGlobal + Drop> FileDisks<R> {
    /// The files that the runtime reaches.
    pub fn new(rt: R) -> FileDisks<R>
        ensures { ⟦<FileDisks<R> as Disks>⟧.faults result ≡ 0 }
    {
        FileDisks { rt, faults: 0 }
    }
}

// Reads to the end, or until more than the limit was seen.
fn read_within(alloc: Global, file: &File, limit: u64) -> Result<Vec<u8>, DiskFault>
    ensures { IsWithin limit result }
{
    let Ok(found) = file.metadata() else {
        return Err(DiskFault::Failed);
    };
    let mut bytes = Vec::with_capacity(alloc, found.len().min(limit) as usize)?;
    let mut buffer = [0u8; CHUNK];
    'chunks: for _ in 0..u64::MAX {
        let count = match file.read_at(&mut buffer, bytes.len() as u64) {
            Ok(count) => count,
            Err(_) => return Err(DiskFault::Failed),
        };
        if count == 0 {
            return Ok(bytes);
        }
        bytes.extend_from_slice(&buffer[..count])?;
        let seen = bytes.len() as u64;
        if seen > limit {
            return Err(DiskFault::TooLong { seen });
        }
    }
    // No file has as many chunks.
    Err(DiskFault::Failed)
}

// The file of that name, which is made where it is missing, with a lock on it. Its name stands in its folder for good, and what an earlier failed
// sync may have left in the system's memory is read from the disk again.
fn open_locked<R: std::rt::Files<File = File> + AllocGlobal>(
    rt: &R,
    name: &str,
) -> io::Result<File> {
    let file = OpenOptions::new()
        .read(true)
        .write(true)
        .create(true)
        .mode(0o600)
        .open(rt, name)?;
    file.try_lock()?;
    file.sync_all()?;
    let advised = libc::posix_fadvise(file.as_raw_fd(), 0, 0, libc::POSIX_FADV_DONTNEED);
    if advised != 0 {
        return Err(io::Error::from_raw_os_error(advised));
    }
    let mut folder = fs::canonicalize(rt, name)?;
    folder.pop();
    File::open(rt, folder.as_str())?.sync_all()?;
    Ok(file)
}

impl Disk for FileDisk {
    ghost told = { λ _. None };

    ghost faults = { λ disk. disk.faults };

    ghost possible = { λ disk known is. Prim.cc };

    fn read_all(&mut self, alloc: Global, limit: u64) -> Result<Vec<u8>, DiskFault> {
        match read_within(alloc, &self.file, limit) {
            Ok(bytes) => Ok(bytes),
            Err(DiskFault::TooLong { seen }) => Err(DiskFault::TooLong { seen }),
            Err(DiskFault::Memory) => Err(DiskFault::Memory),
            Err(DiskFault::Failed) => {
                self.faults = self.faults.saturating_add(1);
                Err(DiskFault::Failed)
            }
        }
    }

    fn write_at(&mut self, at: u64, bytes: &[u8]) -> Result<(), Failed> {
        if self.is_unsure || self.file.write_all_at(bytes, at).is_err() {
            self.faults = self.faults.saturating_add(1);
            return Err(Failed);
        }
        Ok(())
    }

    fn sync(&mut self) -> Result<(), Failed> {
        if self.is_unsure || self.file.sync_all().is_err() {
            self.is_unsure = true;
            self.faults = self.faults.saturating_add(1);
            return Err(Failed);
        }
        Ok(())
    }

    fn disk_faults(&self) -> u64 {
        self.faults
    }
}

impl<R: std::rt::Files<File = File> + AllocGlobal + Drop> Disks for FileDisks<R> {
    type D = FileDisk;

    ghost held = { λ _. None };

    ghost began = { λ _. 0 };

    ghost faults = { λ all. all.faults };

    fn open(&mut self, name: &Text) -> Result<FileDisk, Failed> {
        match open_locked(&self.rt, name.as_str()) {
            Ok(file) => Ok(FileDisk {
                file,
                faults: 0,
                is_unsure: false,
            }),
            Err(_) => {
                self.faults = self.faults.saturating_add(1);
                Err(Failed)
            }
        }
    }

    fn close(&mut self, disk: FileDisk) {
        if disk.faults > 0 {
            self.faults = self.faults.saturating_add(1);
        }
    }

    fn open_faults(&self) -> u64 {
        self.faults
    }
}
