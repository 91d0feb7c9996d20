//! Writes a file of a disk under a temporary name, and renames it to its path when it is whole.
ghost use Rattle.std.specs.Prelude.{◌≡◌, IfOk, string_bytes};

use crate::disk_folder::DiskFolder;
use std::alloc::{AllocError, Global};
use std::fs::{File, OpenFile};
use std::io::{BufWriter, ErrorKind, Read, Write};
use std::rt::Files;
use std::{fs, io};

// The size in bytes of the buffer of an output, and of the buffers with which two files are compared.
const BUFFER: usize = 65_536;

/// Holds an output that is being written.
#[derive(Drop)]
pub(crate) struct DiskOutput<W: Write + Drop> {
    pub(crate) paths: Paths,
    pub(crate) file: BufWriter<W>,
}

/// Holds an output's name, its whole path, and the path of the temporary file that is written until it is whole.
#[derive(Drop)]
pub(crate) struct Paths {
    pub(crate) name: String,
    place: String,
    beside: String,
}

// Returns the path of the temporary file. Its ending `|new` is in no output's name, because `|` has another meaning in a `build.ninja`.
fn beside(place: &String) -> Result<String, AllocError> {
    let mut beside = place.clone()?;
    beside.push_str("|new")?;
    Ok(beside)
}

fn paths_of<R: Files<File = File>>(
    disk: &DiskFolder<'_, R>,
    name: &str,
) -> Result<Paths, AllocError>
    ensures { IfOk result (λ made. string_bytes made.name ≡ name.now) }
{
    let place = disk.whole(name)?;
    let beside = beside(&place)?;
    let name = String::from_str(disk.alloc, name)?;
    Ok(Paths {
        name,
        place,
        beside,
    })
}

// Makes a new file. Whatever has the path, such as a file of an earlier run or a link, is removed and not followed.
fn make_file<R: Files>(files: &R, path: &str) -> io::Result<R::File> {
    match fs::remove_file(files, path) {
        Err(error) if error.kind() != ErrorKind::NotFound => return Err(error),
        _ => {}
    }
    File::create_new(files, path)
}

// Makes the folders that an output of these paths needs, and begins its temporary file.
fn begin_file<R: Files<File = File>>(
    disk: &DiskFolder<'_, R>,
    paths: &Paths,
) -> io::Result<BufWriter<File>> {
    disk.make_folders_of(paths.name.as_str())?;
    let file = make_file(disk.files, paths.beside.as_str())?;
    let begun = BufWriter::with_capacity(disk.alloc, BUFFER, file);
    if begun.is_err() {
        // The error that is returned is the one that counts, also if the file can't be removed.
        let _ = fs::remove_file(disk.files, paths.beside.as_str());
    }
    begun
}

/// Begins the output of this name, below the folder.
pub(crate) fn begin_output<R: Files<File = File>>(
    disk: &DiskFolder<'_, R>,
    name: &str,
) -> io::Result<DiskOutput<File>>
    ensures { IfOk result (λ made. string_bytes made.paths.name ≡ name.now) }
{
    let paths = paths_of(disk, name)?;
    let file = begin_file(disk, &paths)?;
    Ok(DiskOutput { paths, file })
}

// Returns whether two readers have the same bytes left. Both buffers have the same length.
fn have_same_bytes<A: Read, B: Read>(
    left: &mut A,
    right: &mut B,
    here: &mut [u8],
    there: &mut [u8],
) -> io::Result<bool> {
    for _ in 0..u64::MAX {
        let count = left.read(here)?;
        if count == 0 {
            return Ok(right.read(there)? == 0);
        }
        if count > there.len() {
            return Ok(false);
        }
        right.read_exact(&mut there[..count])?;
        if here[..count] != there[..count] {
            return Ok(false);
        }
    }
    Ok(false)
}

// Returns whether two files have the same bytes.
fn are_equal<A: Read, B: Read>(alloc: Global, left: &mut A, right: &mut B) -> io::Result<bool> {
    let mut here = vec![in alloc; 0; BUFFER]?;
    let mut there = vec![in alloc; 0; BUFFER]?;
    have_same_bytes(left, right, &mut here, &mut there)
}

// Returns whether `left` is a file, and not a link, with the same size as the file at `right`.
fn have_same_size<R: Files>(files: &R, left: &str, right: &str) -> io::Result<bool> {
    let old = fs::symlink_metadata(files, left)?;
    Ok(old.is_file() && old.len() == fs::metadata(files, right)?.len())
}

// Returns whether `left` is a file, and not a link, with the same bytes as the file at `right`.
fn are_same_files<R: Files>(files: &R, alloc: Global, left: &str, right: &str) -> io::Result<bool> {
    if !have_same_size(files, left, right)? {
        return Ok(false);
    }
    let mut left = fs::open(files, left)?;
    let mut right = fs::open(files, right)?;
    are_equal(alloc, &mut left, &mut right)
}

// Returns whether the output of this name is synced to the disk. Syncing each generated header would make a run many times as long.
fn is_synced(name: &str) -> bool {
    matches!(name, "build.ninja" | "meson-info/introspect.json")
}

/// Flushes the output and renames it to its path. `build.ninja` and the introspection document are synced first. If the old file has the
/// same bytes, it stays instead.
pub(crate) fn finish_output<R: Files<File = File>>(
    disk: &DiskFolder<'_, R>,
    output: &mut DiskOutput<File>,
) -> io::Result<()>
    ensures { string_bytes output.new.paths.name ≡ string_bytes output.old.paths.name }
{
    output.file.flush()?;
    let place = output.paths.place.as_str();
    let beside = output.paths.beside.as_str();
    if are_same_files(disk.files, disk.alloc, place, beside).unwrap_or(false) {
        return fs::remove_file(disk.files, beside);
    }
    if is_synced(output.paths.name.as_str()) {
        output.file.get_ref().sync_data()?;
    }
    fs::rename(disk.files, beside, place)
}

/// Removes the temporary file of an output that is given up. The file at the output's own path stays.
pub(crate) fn remove_output<R: Files<File = File>>(
    disk: &DiskFolder<'_, R>,
    output: &DiskOutput<File>,
) -> io::Result<()> {
    fs::remove_file(disk.files, output.paths.beside.as_str())
}
