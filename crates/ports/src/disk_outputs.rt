//! Writes outputs below a folder of a disk.
ghost use Rattle.std.specs.Prelude.{◌≡◌, ◌≤◌, ◌<◌, Some, length, IfOk, string_bytes, if◌then◌else◌};
ghost use Rattle.std.specs.Option.{option_map};
ghost use Rattle.ports.specs.DiskOutputs.{disk_state, name_of};

use crate::disk_file::{DiskOutput, begin_output, finish_output, remove_output};
use crate::disk_folder::DiskFolder;
use crate::{DeviceFault, Outputs};
use std::alloc::{AllocError, Global};
use std::fs::File;
use std::io;
use std::io::{BufWriter, Write};
use std::rt::Files;

// The size in bytes of the buffers of the log and of fault lines, which hold a line until its end.
const LINE_BUFFER: usize = 1024;

/// Writes outputs as files below a folder, and keeps a log and a stream of fault lines. Its contracts say nothing of the bytes on the disk.
///
/// An output is written as `NAME|new`, a name that no output can have. `close` renames it to `NAME` once the disk has taken its bytes. So
/// an old `NAME` stays unchanged until the new one is whole, even if a device fails or the program is killed. An old file with the same
/// bytes stays, and keeps its time. Whatever has the name `NAME|new` is removed. No link is followed: if a folder on the way from the root
/// is a link, the call returns a device fault.
///
/// The folder stays locked as long as the outputs exist. `claim` locks it, or the first `open`, which makes it. If another run has locked
/// it, a fault line says so, and the call returns a device fault.
///
/// `open` makes the folders that an output needs, and gives up an output that was open. A buffer holds what is put. It is written out when
/// it is full, at `close`, before another output is begun, and before a fault's bytes are taken. If that fails, the call returns a device
/// fault. A line of the log or of a fault is written out at its end, after everything before it, so a user sees both in order. A call that
/// runs out of memory returns a device fault.
#[derive(Drop)]
pub struct DiskOutputs<'a, R: Files<File = File>, L: Write + Drop, F: Write + Drop> {
    disk: DiskFolder<'a, R>,
    current: Option<DiskOutput<File>>,
    log: BufWriter<L>,
    faults: BufWriter<F>,
    failures: u64,
}

/// Says where outputs go: `root` is the whole path of a trusted folder, `folder` the path of the output folder below it.
#[derive(Drop)]
pub struct OutputPlace {
    pub root: String,
    pub folder: String,
}

// Flushes the open output, if there is one.
fn flush_output<W: Write + Drop>(current: &mut Option<DiskOutput<W>>) -> io::Result<()>
    ensures { option_map name_of current.new ≡ option_map name_of current.old }
{
    match current {
        Some(output) => output.file.flush(),
        None => Ok(()),
    }
}

// Flushes the open output, then begins the output of this name.
fn make_output<R: Files<File = File>, F: Write>(
    disk: &mut DiskFolder<'_, R>,
    faults: &mut F,
    current: &mut Option<DiskOutput<File>>,
    name: &str,
) -> io::Result<DiskOutput<File>>
    ensures made { IfOk result (λ made. string_bytes made.paths.name ≡ name.now) }
    ensures name { option_map name_of current.new ≡ option_map name_of current.old }
{
    flush_output(current)?;
    disk.take(faults)?;
    begin_output(disk, name)
}

// Finishes the open output, if there is one.
fn end_output<R: Files<File = File>>(
    disk: &DiskFolder<'_, R>,
    current: &mut Option<DiskOutput<File>>,
) -> io::Result<()>
    ensures { option_map name_of current.new ≡ option_map name_of current.old }
{
    match current {
        Some(output) => finish_output(disk, output),
        None => Ok(()),
    }
}

// Writes the first of these bytes, at least one if there are any, and returns how many.
fn write_some<W: Write>(writer: &mut W, bytes: &[u8]) -> Result<usize, DeviceFault>
    ensures within { IfOk result (λ n. n ≤ length bytes.now) }
    ensures some { IfOk result (λ n. 0 < length bytes.now → 0 < n) }
{
    if bytes.is_empty() {
        return Ok(0);
    }
    match writer.write(bytes) {
        Ok(count) if count > 0 => Ok(count),
        _ => Err(DeviceFault),
    }
}

// Writes the first of these bytes into the open output, and returns how many. Fails if no output is open.
fn write_output<W: Write + Drop>(
    current: &mut Option<DiskOutput<W>>,
    bytes: &[u8],
) -> Result<usize, DeviceFault>
    ensures within { IfOk result (λ n. n ≤ length bytes.now) }
    ensures some { IfOk result (λ n. 0 < length bytes.now → 0 < n) }
    ensures name { option_map name_of current.new ≡ option_map name_of current.old }
{
    match current {
        Some(output) => write_some(&mut output.file, bytes),
        None => Err(DeviceFault),
    }
}

// Writes the first of these bytes of a line, and flushes the writer after the end of the line. The other stream's bytes are flushed first.
fn write_line<V: Write, W: Write>(
    others: &mut V,
    writer: &mut W,
    bytes: &[u8],
) -> Result<usize, DeviceFault>
    ensures within { IfOk result (λ n. n ≤ length bytes.now) }
    ensures some { IfOk result (λ n. 0 < length bytes.now → 0 < n) }
{
    if others.flush().is_err() {
        return Err(DeviceFault);
    }
    let count = write_some(writer, bytes)?;
    if bytes[..count].ends_with(b"\n") && writer.flush().is_err() {
        return Err(DeviceFault);
    }
    Ok(count)
}

// Writes the first of these bytes of a fault's line, after flushing the open output and the log.
fn write_fault<W: Write + Drop, L: Write, F: Write>(
    current: &mut Option<DiskOutput<W>>,
    log: &mut L,
    faults: &mut F,
    bytes: &[u8],
) -> Result<usize, DeviceFault>
    ensures within { IfOk result (λ n. n ≤ length bytes.now) }
    ensures some { IfOk result (λ n. 0 < length bytes.now → 0 < n) }
    ensures name { option_map name_of current.new ≡ option_map name_of current.old }
{
    match flush_output(current) {
        Ok(()) => write_line(log, faults, bytes),
        Err(_) => Err(DeviceFault),
    }
}

impl<'a, R: Files<File = File>, L: Write + Drop, F: Write + Drop> DiskOutputs<'a, R, L, F> {
    /// Returns outputs as files below `place`, with this log and this stream of fault lines. The file system stays unchanged until the
    /// first `open`.
    ///
    /// Fails if no memory is left for the buffers of both streams.
    pub fn new(
        files: &'a R,
        alloc: Global,
        place: OutputPlace,
        log: L,
        faults: F,
    ) -> Result<Self, AllocError>
        ensures failures { IfOk result (λ out. (⟦<DiskOutputs<'a, R, L, F> as Outputs>⟧.seen out).failures ≡ 0) }
        ensures name { IfOk result (λ out. (⟦<DiskOutputs<'a, R, L, F> as Outputs>⟧.seen out).open_name ≡ None) }
    {
        let Ok(log) = BufWriter::with_capacity(alloc, LINE_BUFFER, log) else {
            return Err(AllocError);
        };
        let Ok(faults) = BufWriter::with_capacity(alloc, LINE_BUFFER, faults) else {
            return Err(AllocError);
        };
        let OutputPlace { root, folder } = place;
        Ok(DiskOutputs {
            disk: DiskFolder::new(files, alloc, root, folder),
            current: None,
            log,
            faults,
            failures: 0,
        })
    }

    /// Locks the folder for this run, if it exists. Otherwise the first `open` makes and locks it.
    ///
    /// Fails if another run has locked the folder, which a fault line says, or if it can't be locked.
    pub fn claim(&mut self) -> io::Result<()>
        ensures { ⟦<DiskOutputs<'a, R, L, F> as Outputs>⟧.seen self.new ≡ ⟦<DiskOutputs<'a, R, L, F> as Outputs>⟧.seen self.old }
    {
        self.disk.claim(&mut self.faults)
    }

    /// Removes the temporary file of the open output, if one is open. A run that ends before an output is whole calls this last.
    pub fn clean_up(&self) -> io::Result<()> {
        match &self.current {
            Some(output) => remove_output(&self.disk, output),
            None => Ok(()),
        }
    }
}

impl<'a, R: Files<File = File>, L: Write + Drop, F: Write + Drop> Outputs
    for DiskOutputs<'a, R, L, F> {
    ghost seen = { λ d. disk_state d.current d.failures };

    fn failures(&self) -> u64 {
        self.failures
    }

    fn open(&mut self, name: &str) -> Result<(), DeviceFault> {
        let made = make_output(&mut self.disk, &mut self.faults, &mut self.current, name);
        let Ok(output) = made else {
            self.failures += 1;
            return Err(DeviceFault);
        };
        self.current = Some(output);
        Ok(())
    }

    fn close(&mut self) -> Result<(), DeviceFault> {
        if end_output(&self.disk, &mut self.current).is_err() {
            self.failures += 1;
            return Err(DeviceFault);
        }
        self.current = None;
        Ok(())
    }

    fn put(&mut self, bytes: &[u8]) -> Result<usize, DeviceFault> {
        let taken = write_output(&mut self.current, bytes);
        if taken.is_err() {
            self.failures += 1;
        }
        taken
    }

    fn log(&mut self, bytes: &[u8]) -> Result<usize, DeviceFault> {
        let taken = write_line(&mut self.faults, &mut self.log, bytes);
        if taken.is_err() {
            self.failures += 1;
        }
        taken
    }

    fn fault(&mut self, bytes: &[u8]) -> Result<usize, DeviceFault> {
        let taken = write_fault(&mut self.current, &mut self.log, &mut self.faults, bytes);
        if taken.is_err() {
            self.failures += 1;
        }
        taken
    }
}
