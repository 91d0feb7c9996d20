//! Makes and locks the folder of a disk that outputs go to.

use crate::disk_tree::{is_absent, join};
use std::alloc::{AllocError, Global};
use std::fs::{File, TryLockError};
use std::io::{ErrorKind, Write};
use std::rt::Files;
use std::{fs, io};

/// Holds the folder that outputs go to, and the lock that keeps other runs out of it.
///
/// A stranger may have written what is below the root, so no link there is followed. If a folder on the way to an output is a link or no
/// folder, the call fails.
#[derive(Drop)]
pub(crate) struct DiskFolder<'a, R: Files<File = File>> {
    pub(crate) files: &'a R,
    pub(crate) alloc: Global,
    // The trusted folder, and the path of the output folder below it.
    root: String,
    folder: String,
    // The folder, opened and locked, from the first output on.
    lock: Option<File>,
}

// Returns whether the path is a folder, and not a link to one.
fn is_folder<R: Files>(files: &R, path: &str) -> io::Result<bool> {
    Ok(fs::symlink_metadata(files, path)?.is_dir())
}

// Makes a folder, unless there is one. Fails if something else has the path.
fn make_folder<R: Files>(files: &R, path: &str) -> io::Result<()> {
    match fs::create_dir(files, path) {
        Err(error) if error.kind() == ErrorKind::AlreadyExists => match is_folder(files, path) {
            Ok(true) => Ok(()),
            Ok(false) => Err(error),
            Err(other) => Err(other),
        },
        made => made,
    }
}

// Appends this part to the path and makes that folder.
fn make_next<R: Files>(files: &R, path: &mut String, part: &str) -> io::Result<()> {
    path.push_str("/")?;
    path.push_str(part)?;
    make_folder(files, path.as_str())
}

// Makes the folders that these parts name below `root`, each below the one before.
fn make_folders<R: Files>(files: &R, alloc: Global, root: &str, parts: &str) -> io::Result<()> {
    let mut path = String::from_str(alloc, root)?;
    for part in parts.split('/') {
        make_next(files, &mut path, part)?;
    }
    Ok(())
}

// Opens the folder and locks it. Returns `None` if another run has locked it.
fn lock_folder<R: Files<File = File>>(files: &R, path: &str) -> io::Result<Option<File>> {
    let opened = fs::open(files, path)?;
    match opened.try_lock() {
        Ok(()) => Ok(Some(opened)),
        Err(TryLockError::WouldBlock) => Ok(None),
        Err(TryLockError::Error(error)) => Err(error),
    }
}

// Reports that another run has locked the folder, and returns an error.
fn refuse_another_run<F: Write>(folder: &str, faults: &mut F) -> io::Result<()> {
    faults.write_all(b"meson: another run is at work in ")?;
    faults.write_all(folder.as_bytes())?;
    faults.write_all(b"\n")?;
    faults.flush()?;
    Err(io::Error::from(ErrorKind::WouldBlock))
}

impl<'a, R: Files<File = File>> DiskFolder<'a, R> {
    /// Returns the folder `folder` below `root`. Nothing is made yet.
    pub(crate) fn new(files: &'a R, alloc: Global, root: String, folder: String) -> Self {
        DiskFolder {
            files,
            alloc,
            root,
            folder,
            lock: None,
        }
    }

    // Returns the whole path of the folder.
    fn path(&self) -> Result<String, AllocError> {
        join(self.alloc, self.root.as_str(), self.folder.as_str())
    }

    /// Returns the whole path of `path` below the folder.
    pub(crate) fn whole(&self, path: &str) -> Result<String, AllocError> {
        let folder = self.path()?;
        join(self.alloc, folder.as_str(), path)
    }

    /// Locks the folder for this run, if it exists. Fails, with a fault line, if another run has locked it.
    pub(crate) fn claim<F: Write>(&mut self, faults: &mut F) -> io::Result<()> {
        let path = self.path()?;
        match is_folder(self.files, path.as_str()) {
            Ok(true) => self.take(faults),
            Ok(false) => Ok(()),
            Err(error) if is_absent(&error) => Ok(()),
            Err(error) => Err(error),
        }
    }

    // Makes the folder, opens it and locks it. Returns `None` if another run has locked it.
    fn make_and_lock(&self) -> io::Result<Option<File>> {
        make_folders(
            self.files,
            self.alloc,
            self.root.as_str(),
            self.folder.as_str(),
        )?;
        let path = self.path()?;
        lock_folder(self.files, path.as_str())
    }

    /// Makes the folder and locks it for this run, unless this run has it already. Fails, with a fault line, if another run has locked it.
    pub(crate) fn take<F: Write>(&mut self, faults: &mut F) -> io::Result<()> {
        if self.lock.is_some() {
            return Ok(());
        }
        self.lock = self.make_and_lock()?;
        if self.lock.is_some() {
            return Ok(());
        }
        refuse_another_run(self.folder.as_str(), faults)
    }

    /// Makes the folders that the output of this name needs.
    pub(crate) fn make_folders_of(&self, name: &str) -> io::Result<()> {
        match name.rsplit_once('/') {
            Some((folders, _)) => {
                let folder = self.path()?;
                make_folders(self.files, self.alloc, folder.as_str(), folders)
            }
            None => Ok(()),
        }
    }
}
