//! Runs the program over a folder of a disk.
ghost use Rattle.std.specs.Prelude.{◌≡◌, ◌≢◌, ◌<◌, ◌≤◌, map, string_bytes};
ghost use Rattle.std.specs.IoError.{error_kind};
ghost use Rattle.command_line.specs.CommandLine.{IsLine, IsRefused, IsTaken};
ghost use Rattle.ports.specs.Endings.{HasRoom};
ghost use Rattle.backend.specs.Concluding.{Agrees, exit_status};
ghost use Rattle.interp.specs.Evaluation.{IsSaid, MachineSaid};
ghost use Rattle.world.specs.MakingSettings.{settings_of};
ghost use Rattle.world.specs.Prelude.{Files as DeviceFiles, Holds};
ghost use Rattle.meson.specs.Tasks.{run_by};

use meson::{
    Inputs, Line, LineFault, Settings, SettingsFault, Status, Task, command_line, perform,
};
use ports::{DiskOutputs, DiskTree, OutputPlace, Outputs, Tree};
use std::alloc::{AllocError, Global};
use std::fs::File;
use std::io::{ErrorKind, Read, Write};
use std::rt::Files;
use std::{fs, io};
use support::paths::path_below;

// The exit status for arguments that are no command line.
const BAD_LINE: u8 = 4;

// The path below which the sources are read. With this path, the system need not walk through the folders above for each file.
const CURRENT_FOLDER: &str = ".";

// The maximum number of bytes that are read of a machine file, which may be a pipe or a device. Every text that is short enough for a value
// fits.
const MACHINE_FILE_BYTES: usize = 33_554_432;

/// Runs the command line `words` for the project in the current folder, whose path is `root`. The first argument is the program's name.
///
/// `setup` configures the project, `questions` prints what that asks of the machine file, and `fault` prints the fault in which it ends.
/// The log goes to `log`, fault lines and the program's own texts to `faults`, and outputs to the folder that the arguments name, below
/// `root`.
///
/// Returns the exit status: 0 done, 1 a fault of the sources, 2 a device failed, 3 memory ran out, 4 the command line is wrong.
pub fn run<R: Files<File = File> + AllocGlobal, L: Write + Drop, F: Write + Drop>(
    rt: &R,
    words: &[String],
    root: &str,
    mut log: L,
    mut faults: F,
) -> u8
    ensures known { result ≤ 4 }
    ensures taken { result < 3 → IsTaken (map string_bytes words.now) }
    ensures fault { result ≡ 1 → IsLine (map string_bytes words.now) }
    ensures bad_line { result ≡ 4 → IsRefused (map string_bytes words.now) }
{
    match command_line(rt.alloc(), words) {
        Ok(line) => {
            let status = match perform_line(rt, line, root, &mut log, &mut faults) {
                Ok(status) => status,
                Err(error) => status_of(&error),
            };
            say_ending(status, &mut faults)
        }
        Err(LineFault::Help(text)) => match log.write_all(text.as_str().as_bytes()) {
            Ok(()) => say_ending(Status::Done, &mut faults),
            Err(_) => say_ending(Status::Device, &mut faults),
        },
        Err(LineFault::Usage(text)) => {
            let _ = faults.write_all(text.as_str().as_bytes());
            BAD_LINE
        }
        Err(LineFault::Memory(_)) => say_ending(Status::Memory, &mut faults),
    }
}

// Does what the line says. A folder with a `meson.build` is a source directory, so nothing is built in it.
fn perform_line<R: Files<File = File> + AllocGlobal, L: Write + Drop, F: Write + Drop>(
    rt: &R,
    line: Line,
    root: &str,
    log: &mut L,
    faults: &mut F,
) -> io::Result<Status> {
    if holds_sources(rt, root, line.folder.as_str())? {
        tell_of_sources(line.folder.as_str(), faults)?;
        return Ok(Status::Device);
    }
    let machine = machine_bytes(rt, root, &line.machine_file)?;
    let place = place_below(rt.alloc(), root, line.folder.as_str())?;
    let mut out = DiskOutputs::new(rt, rt.alloc(), place, log, faults)?;
    let current = String::from_str(rt.alloc(), CURRENT_FOLDER)?;
    let mut tree = DiskTree::new(rt, rt.alloc(), current);
    // Only `setup` writes, so only it locks the build directory.
    if matches!(line.task, Task::Setup) {
        out.claim()?;
    }
    let given = RunInputs {
        root,
        machine: &machine,
    };
    let status = perform_over(rt.alloc(), line, &given, &mut tree, &mut out);
    // The status says how the run ended, even if an unfinished output can't be removed.
    let _ = out.clean_up();
    Ok(status)
}

fn place_below(alloc: Global, root: &str, folder: &str) -> Result<OutputPlace, AllocError> {
    Ok(OutputPlace {
        root: String::from_str(alloc, root)?,
        folder: String::from_str(alloc, folder)?,
    })
}

// Holds the path of the source directory and the bytes of the machine file.
#[derive(Clone, Copy)]
struct RunInputs<'a> {
    root: &'a str,
    machine: &'a [u8],
}

// Does what the line says over these devices.
fn perform_over<T: Tree, O: Outputs>(
    alloc: Global,
    line: Line,
    place: &RunInputs<'_>,
    tree: &mut T,
    out: &mut O,
) -> Status
    requires tree { HasRoom (T.seen tree.old).failures }
    requires out { HasRoom (O.seen out.old).failures }

    // If the tree is steady, status `Done` or `Fault` is that of the run of the line's task. The run is over this root, the line's folder
    // and arguments, and these bytes of a machine file. With status `Device` or `Memory` the outputs took a beginning of it.
    ensures run { (files : DeviceFiles) (said : MachineSaid) → Holds (T.seen tree.old) files → IsSaid place.now.machine.now said
        → Agrees (run_by line.task files
        (settings_of place.now.root.now (string_bytes line.folder) (map string_bytes line.words.items)) said)
        result (O.seen out.old) (O.seen out.new) }
{
    let task = line.task;
    let words = line.words;
    match Settings::new(alloc, place.root, line.folder.as_str(), words) {
        Ok(settings) => {
            let inputs = Inputs {
                settings: &settings,
                machine: place.machine,
            };
            perform(alloc, task, tree, &inputs, out)
        }
        Err(SettingsFault::Memory) => Status::Memory,
        Err(_) => Status::Device,
    }
}

// Returns whether there is a `meson.build` in the folder below this root.
fn holds_sources<R: Files + AllocGlobal>(rt: &R, root: &str, folder: &str) -> io::Result<bool> {
    let path = format!(in rt.alloc(); "{root}/{folder}/meson.build")?;
    match fs::symlink_metadata(rt, path.as_str()) {
        Ok(_) => Ok(true),
        Err(error) if matches!(error.kind(), ErrorKind::NotFound | ErrorKind::NotADirectory) => {
            Ok(false)
        }
        Err(error) => Err(error),
    }
}

// Writes why nothing is built in the folder.
fn tell_of_sources<F: Write>(folder: &str, faults: &mut F) -> io::Result<()> {
    faults.write_all(b"meson: ")?;
    faults.write_all(folder.as_bytes())?;
    faults.write_all(b" holds a meson.build: it is a folder of sources\n")
}

// Returns the bytes of the machine file, or none if none is named.
fn machine_bytes<R: Files<File = File> + AllocGlobal>(
    rt: &R,
    root: &str,
    machine_file: &Option<String>,
) -> io::Result<Vec<u8>> {
    let mut bytes = Vec::new(rt.alloc());
    let Some(name) = machine_file else {
        return Ok(bytes);
    };
    let path = path_below(rt.alloc(), root, name.as_str())?;
    let file = fs::open(rt, path.as_str())?;
    file.take(MACHINE_FILE_BYTES as u64 + 1)
        .read_to_end(&mut bytes)?;
    if bytes.len() > MACHINE_FILE_BYTES {
        return Err(io::Error::from(ErrorKind::FileTooLarge));
    }
    Ok(bytes)
}

// Returns the status of a run that failed with this error before its outputs were begun.
fn status_of(error: &io::Error) -> Status
    ensures memory { error_kind error.now ≡ ErrorKind.OutOfMemory → result ≡ Status.Memory }
    ensures device { error_kind error.now ≢ ErrorKind.OutOfMemory → result ≡ Status.Device }
{
    if error.kind() == ErrorKind::OutOfMemory {
        Status::Memory
    } else {
        Status::Device
    }
}

// Writes why a run ended early, and returns its exit status.
fn say_ending<F: Write>(status: Status, faults: &mut F) -> u8
    ensures { result ≡ exit_status status }
{
    match status {
        Status::Done => 0,
        Status::Fault => 1,
        Status::Device => {
            let _ = faults.write_all(b"meson: device fault\n");
            2
        }
        Status::Memory => {
            let _ = faults.write_all(b"meson: out of memory\n");
            3
        }
    }
}
