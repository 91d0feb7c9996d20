//! Reads files below a folder of a disk.
ghost use Rattle.std.specs.Prelude.{◌≡◌, ◌≤◌, length, string_bytes, IfOk};
ghost use Rattle.ports.specs.DiskTree.{disk_state};

use crate::{DeviceFault, Tree};
use std::alloc::{AllocError, Global};
use std::io::{ErrorKind, Read, Seek, SeekFrom};
use std::rt::Files;
use std::{fs, io};

/// Reads the files of a folder of a disk, by their paths below it. Its contracts say nothing of their bytes.
///
/// The file that is being read stays open from one call of `read_at` to the next. `size` looks at the disk again, except for the file that
/// its last call found, and such a file is opened without another look. Something that is no file, such as a folder, is absent, and so is a
/// path that no file can have. A call that runs out of memory returns a device fault.
#[derive(Drop)]
pub struct DiskTree<'a, R: Files> {
    files: &'a R,
    alloc: Global,
    folder: String,
    // What `size` looked at in its last call.
    last: Look,
    // The file that was read last.
    current: Option<OpenFile<R::File>>,
    failures: u64,
}

// Holds the whole path that was looked at, and the size of the file there. The next look reuses the memory of this path.
#[derive(Drop)]
struct Look {
    whole: String,
    size: Option<u64>,
}

// Holds a file that is being read.
#[derive(Drop)]
struct OpenFile<F: Drop> {
    path: String,
    file: F,
    // The position in the file at which the next read begins.
    place: u64,
}

// Returns the path `path` below `folder`.
pub(crate) fn join(alloc: Global, folder: &str, path: &str) -> Result<String, AllocError> {
    let mut whole = String::with_capacity(alloc, folder.len() + 1 + path.len())?;
    whole.push_str(folder)?;
    whole.push_str("/")?;
    whole.push_str(path)?;
    Ok(whole)
}

// Returns whether this error says that no file has the path. The path may not exist, lead through a file, contain a NUL, or have a part
// that is too long for a file name.
pub(crate) fn is_absent(error: &io::Error) -> bool {
    matches!(
        error.kind(),
        ErrorKind::NotFound
            | ErrorKind::NotADirectory
            | ErrorKind::InvalidInput
            | ErrorKind::InvalidFilename
    )
}

// Returns the size in bytes of the file at this whole path, or `None` if there is no file.
fn file_size<R: Files>(files: &R, whole: &str) -> io::Result<Option<u64>> {
    match fs::metadata(files, whole) {
        Ok(found) if found.is_file() => Ok(Some(found.len())),
        Ok(_) => Ok(None),
        Err(error) if is_absent(&error) => Ok(None),
        Err(error) => Err(error),
    }
}

// Returns whether `whole` is `path` below `folder`.
fn is_at(whole: &str, folder: &str, path: &str) -> bool {
    let Some(below) = whole.strip_prefix(folder) else {
        return false;
    };
    match below.strip_prefix("/") {
        Some(below) => below == path,
        None => false,
    }
}

impl Look {
    // Looks at this path, unless the last call found a file there, and returns the size of the file, or `None` if there is no file.
    fn at<R: Files>(&mut self, files: &R, folder: &str, path: &str) -> io::Result<Option<u64>> {
        if self.size.is_some() && is_at(self.whole.as_str(), folder, path) {
            return Ok(self.size);
        }
        self.size = None;
        self.whole.clear();
        self.whole.push_str(folder)?;
        self.whole.push_str("/")?;
        self.whole.push_str(path)?;
        self.size = file_size(files, self.whole.as_str())?;
        Ok(self.size)
    }
}

// Opens the file at this path. Returns `None` if there is no file.
fn open_file<R: Files>(
    files: &R,
    alloc: Global,
    folder: &str,
    path: &str,
    last: &Look,
) -> io::Result<Option<OpenFile<R::File>>> {
    let whole = join(alloc, folder, path)?;
    let is_found = last.size.is_some() && last.whole.as_str() == whole.as_str();
    if !is_found && file_size(files, whole.as_str())?.is_none() {
        return Ok(None);
    }
    let file = fs::open(files, whole.as_str())?;
    Ok(Some(OpenFile {
        path: String::from_str(alloc, path)?,
        file,
        place: 0,
    }))
}

impl<F: Read + Seek + Drop> OpenFile<F> {
    // Reads bytes from position `at` on into the buffer, and returns how many.
    fn read_part(&mut self, at: u64, buf: &mut [u8]) -> io::Result<usize>
        ensures { IfOk result (λ n. n ≤ length buf.old) }
    {
        if at != self.place {
            self.file.seek(SeekFrom::Start(at))?;
        }
        let count = self.file.read(buf)?;
        self.place = at.saturating_add(count as u64);
        Ok(count)
    }
}

impl<'a, R: Files> DiskTree<'a, R> {
    /// Returns the tree of the files below this folder. Nothing is read yet.
    pub fn new(files: &'a R, alloc: Global, folder: String) -> Self
        ensures { (⟦<DiskTree<'a, R> as Tree>⟧.seen result).failures ≡ 0 }
    {
        DiskTree {
            files,
            alloc,
            folder,
            last: Look {
                whole: String::new(alloc),
                size: None,
            },
            current: None,
            failures: 0,
        }
    }

    fn is_current(&self, path: &str) -> bool {
        match &self.current {
            Some(open) => open.path.as_str() == path,
            None => false,
        }
    }
}

impl<'a, R: Files> Tree for DiskTree<'a, R> {
    ghost seen = { λ t. disk_state (string_bytes t.folder) t.failures };

    fn failures(&self) -> u64 {
        self.failures
    }

    fn size(&mut self, path: &str) -> Result<Option<u64>, DeviceFault> {
        self.current = None;
        match self.last.at(self.files, self.folder.as_str(), path) {
            Ok(size) => Ok(size),
            Err(_) => {
                self.failures += 1;
                Err(DeviceFault)
            }
        }
    }

    fn read_at(&mut self, path: &str, at: u64, buf: &mut [u8]) -> Result<usize, DeviceFault> {
        if !self.is_current(path) {
            match open_file(
                self.files,
                self.alloc,
                self.folder.as_str(),
                path,
                &self.last,
            ) {
                Ok(opened) => self.current = opened,
                Err(_) => {
                    self.failures += 1;
                    return Err(DeviceFault);
                }
            }
        }
        let Some(open) = &mut self.current else {
            return Ok(0);
        };
        match open.read_part(at, buf) {
            Ok(count) => Ok(count),
            Err(_) => {
                self.current = None;
                self.failures += 1;
                Err(DeviceFault)
            }
        }
    }
}
