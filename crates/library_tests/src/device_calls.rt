//! Tests devices, in memory and on a disk, call by call.
ghost use Rattle.ports.specs.Endings.{HasRoom};
ghost use Rattle.ports.specs.memory.MemTree.{mem_tree_seen};
ghost use Rattle.std.specs.Prelude.{◌≡◌, ◌+◌, ◌<◌, ◌≤◌, IfOk};

use crate::shown::shown;
use meson::ports::memory::{Event, MemOutputs, MemTree, OutputCall, TreeCall};
use meson::ports::{
    DeviceFault, DiskOutputs, DiskTree, OutputPlace, Outputs, Tree, fault_all, log_all, put_all,
};
use meson::support::text_lists::strings;
use std::alloc::{AllocError, Global};
use std::test::Fail;
use std::time::SystemTime;
use std::{env, fs, process};

// The files `a`, with `hello`, and `b/c`, without bytes. If two pairs have the same path, the first holds.
fn small_tree(alloc: Global) -> Result<MemTree, AllocError>
    ensures { IfOk result (λ tree. (mem_tree_seen tree).failures ≡ 0) }
{
    let mut files = Vec::new(alloc);
    for (path, text) in [("a", "hello"), ("b/c", ""), ("a", "other..")] {
        files.push((
            String::from_str(alloc, path)?,
            text.as_bytes().to_vec(alloc)?,
        ))?;
    }
    MemTree::new(alloc, files)
}

// A call of a tree: for the size of a path, or a read of four bytes at most from an offset on.
#[derive(Clone, Copy)]
enum Call {
    Size(&'static str),
    Read(&'static str, u64),
}

// A call with its answer: a size, or how many bytes were read.
type Answered = (Call, Result<Option<u64>, DeviceFault>);

fn answer<T: Tree>(tree: &mut T, call: Call) -> Result<Option<u64>, DeviceFault>
    requires { HasRoom (T.seen tree.old).failures }
    ensures { (T.seen tree.new).failures ≤ (T.seen tree.old).failures + 1 }
{
    match call {
        Call::Size(path) => tree.size(path),
        Call::Read(path, at) => {
            let mut buf = [0u8; 4];
            let count = tree.read_at(path, at, &mut buf)?;
            Ok(Some(count as u64))
        }
    }
}

// Whether the tree answers these calls so, one after the other.
fn answers<T: Tree>(tree: &mut T, expected: &[Answered]) -> bool
    requires { (T.seen tree.old).failures ≡ 0 }
{
    for (call, wanted) in expected {
        if answer(tree, *call) != *wanted {
            return false;
        }
    }
    true
}

// The four bytes, or fewer, that a call reads at a place of a path.
fn four_bytes<T: Tree>(alloc: Global, tree: &mut T, path: &str, at: u64) -> Result<String, Fail>
    requires { HasRoom (T.seen tree.old).failures }
{
    let mut buf = [0u8; 4];
    let count = tree.read_at(path, at, &mut buf)?;
    Ok(String::from_utf8_lossy(alloc, &buf[..count])?)
}

#[test]
fn a_tree_in_memory_answers_from_its_files(rt: HostRuntime) -> Result<(), Fail> {
    let mut tree = small_tree(rt.alloc())?;
    let expected = [
        (Call::Size("a"), Ok(Some(5))),
        (Call::Size("b/c"), Ok(Some(0))),
        (Call::Size("b"), Ok(None)),
        (Call::Read("a", 0), Ok(Some(4))),
        (Call::Read("a", 4), Ok(Some(1))),
        (Call::Read("a", 5), Ok(Some(0))),
        (Call::Read("b", 0), Ok(Some(0))),
    ];
    assert!(rt; answers(&mut tree, &expected));
    assert_eq!(rt; tree.failures(), 0);
    Ok(())
}

#[test]
fn a_tree_in_memory_is_read_from_a_place_on(rt: HostRuntime) -> Result<(), Fail> {
    for (path, at, bytes) in [("a", 0, "hell"), ("a", 4, "o"), ("a", 5, ""), ("b", 0, "")] {
        let mut tree = small_tree(rt.alloc())?;
        assert_eq!(rt;
            four_bytes(rt.alloc(), &mut tree, path, at)?.as_str(),
            bytes,
            "{path} {at}"
        );
    }
    Ok(())
}

#[test]
fn a_tree_in_memory_fails_once_as_planned(rt: HostRuntime) -> Result<(), Fail> {
    let mut tree = small_tree(rt.alloc())?.with_plan(3, Some((TreeCall::ReadAt, 2)));
    let expected = [
        (Call::Read("a", 0), Ok(Some(3))),
        (Call::Size("a"), Ok(Some(5))),
        (Call::Read("a", 3), Err(DeviceFault)),
        (Call::Read("a", 3), Ok(Some(2))),
    ];
    assert!(rt; answers(&mut tree, &expected));
    assert_eq!(rt; tree.failures(), 1);
    Ok(())
}

#[test]
fn a_tree_of_some_paths_fails_at_others(rt: HostRuntime) -> Result<(), Fail> {
    let paths = strings(rt.alloc(), &["a", "none"])?;
    let mut tree = small_tree(rt.alloc())?.only(rt.alloc(), paths)?;
    let expected = [
        (Call::Size("a"), Ok(Some(5))),
        (Call::Size("none"), Ok(None)),
        (Call::Size("b/c"), Err(DeviceFault)),
        (Call::Read("b/c", 0), Err(DeviceFault)),
    ];
    assert!(rt; answers(&mut tree, &expected));
    assert_eq!(rt; tree.failures(), 2);
    Ok(())
}

// Writes an output, the log and a fault line.
#[tactic(auto, using(ports::proofs::Sending::sending))]
fn write_sample<O: Outputs>(out: &mut O) -> Result<(), DeviceFault>
    requires { HasRoom (O.seen out.old).failures }
{
    out.open("b/a")?;
    put_all(out, b"xy")?;
    log_all(out, b"log\n")?;
    put_all(out, b"z")?;
    out.close()?;
    fault_all(out, b"fault\n")
}

#[test]
fn outputs_in_memory_keep_each_event(rt: HostRuntime) -> Result<(), Fail> {
    let mut out = MemOutputs::new(rt.alloc(), 15)?;
    assert!(rt; write_sample(&mut out).is_ok());
    assert_eq!(rt;
        shown(rt.alloc(), &out)?.as_str(),
        "⟦open b/a⟧xy⟦log⟧log\n⟦put⟧z⟦close b/a⟧⟦fault⟧fault\n"
    );
    assert_eq!(rt; out.event_count(), 15);
    assert_eq!(rt; out.event(1), Some(Event::Byte(b"b/a".as_slice(), b'x')));
    assert_eq!(rt; out.event(2), Some(Event::Byte(b"b/a".as_slice(), b'y')));
    assert_eq!(rt; out.event(15), None);
    Ok(())
}

// Each byte is a call here.
#[test]
fn outputs_in_memory_fail_once_as_planned(rt: HostRuntime) -> Result<(), Fail> {
    for (call, number, events) in [
        (OutputCall::Open, 1, 0),
        (OutputCall::Put, 1, 1),
        (OutputCall::Put, 2, 2),
        (OutputCall::Put, 3, 7),
        (OutputCall::Log, 1, 3),
        (OutputCall::Close, 1, 8),
        (OutputCall::Fault, 1, 9),
        (OutputCall::Any, 4, 3),
        (OutputCall::Any, 16, 15),
        (OutputCall::Put, 4, 15),
    ] {
        let planned = Some((call, number));
        let mut out = MemOutputs::new(rt.alloc(), 15)?.with_plan(1, planned);
        let is_whole = write_sample(&mut out).is_ok();
        assert_eq!(rt; (is_whole, out.event_count()), (events == 15, events));
    }
    Ok(())
}

// An event that doesn't fit is a device fault.
#[test]
fn outputs_in_memory_have_room_for_so_many_events(rt: HostRuntime) -> Result<(), Fail> {
    for room in 3..15 {
        let mut out = MemOutputs::new(rt.alloc(), room)?;
        assert!(rt; write_sample(&mut out).is_err());
        assert_eq!(rt; (out.event_count(), out.failures()), (room, 1));
    }
    Ok(())
}

// Here a call takes three bytes at most, and eleven events fit.
#[test]
fn a_call_of_outputs_takes_some_of_its_bytes(rt: HostRuntime) -> Result<(), Fail> {
    let mut out = MemOutputs::new(rt.alloc(), 11)?.with_plan(3, None);
    out.open("o")?;
    assert_eq!(rt; out.put(b"hello")?, 3);
    assert_eq!(rt; out.log(b"hello")?, 3);
    assert_eq!(rt; out.fault(b"he")?, 2);
    assert_eq!(rt;
        shown(rt.alloc(), &out)?.as_str(),
        "⟦open o⟧hel⟦log⟧hel⟦fault⟧he"
    );
    out.open("p")?;
    assert_eq!(rt; out.put(b"hello")?, 1);
    assert!(rt; out.open("q").is_err() && out.failures() == 1);
    Ok(())
}

// The path of a folder of the disk that no other process has.
fn own_folder(rt: &HostRuntime, word: &str) -> Result<String, Fail> {
    let base = env::temp_dir(rt)?.into_string();
    let id = process::id(rt.process());
    Ok(format!(in rt.alloc(); "{base}/{word}-{id}")?)
}

// The place of a folder of the disk.
fn place_of(alloc: Global, folder: &str) -> Result<OutputPlace, Fail> {
    let (root, name) = folder.rsplit_once('/').ok_or("a whole path")?;
    Ok(OutputPlace {
        root: String::from_str(alloc, root)?,
        folder: String::from_str(alloc, name)?,
    })
}

// Writes the sample below a folder of the disk.
fn write_on_disk(rt: &HostRuntime, folder: &str) -> Result<(), Fail> {
    let alloc = rt.alloc();
    let place = place_of(alloc, folder)?;
    let mut out = DiskOutputs::new(rt, alloc, place, Vec::new(alloc), Vec::new(alloc))?;
    write_sample(&mut out)?;
    Ok(())
}

#[test]
fn a_folder_of_a_disk_is_written_and_read(rt: HostRuntime) -> Result<(), Fail> {
    let alloc = rt.alloc();
    let folder = own_folder(&rt, "library")?;
    write_on_disk(&rt, folder.as_str())?;
    let expected = [
        (Call::Size("b/a"), Ok(Some(3))),
        (Call::Read("b/a", 0), Ok(Some(3))),
        (Call::Read("b/a", 1), Ok(Some(2))),
        (Call::Size("b/none"), Ok(None)),
        (Call::Size("b/a/x"), Ok(None)),
        (Call::Size("b"), Ok(None)),
        (Call::Size("a\0b"), Ok(None)),
        (Call::Read("b/none", 0), Ok(Some(0))),
    ];
    let mut tree = DiskTree::new(&rt, alloc, folder.clone()?);
    let answers_so = answers(&mut tree, &expected);
    let mut tree = DiskTree::new(&rt, alloc, folder.clone()?);
    let bytes = four_bytes(alloc, &mut tree, "b/a", 1)?;
    fs::remove_dir_all(&rt, folder.as_str())?;
    assert!(rt; answers_so);
    assert_eq!(rt; bytes.as_str(), "yz");
    Ok(())
}

// Begins the output `a`, writes these bytes to it, and ends it if `is_whole`.
fn write_output<O: Outputs>(out: &mut O, bytes: &[u8], is_whole: bool) -> Result<(), DeviceFault>
    requires { HasRoom (O.seen out.old).failures }
{
    out.open("a")?;
    put_all(out, bytes)?;
    if is_whole { out.close() } else { Ok(()) }
}

// Writes the output `a` below this folder, and gives its text and time then, and whether an unfinished one is there too.
fn after_output(
    rt: &HostRuntime,
    folder: &str,
    bytes: &[u8],
    is_whole: bool,
) -> Result<(String, SystemTime, bool), Fail> {
    let alloc = rt.alloc();
    let place = place_of(alloc, folder)?;
    let mut out = DiskOutputs::new(rt, alloc, place, Vec::new(alloc), Vec::new(alloc))?;
    write_output(&mut out, bytes, is_whole)?;
    let place = format!(in alloc; "{folder}/a")?;
    let unfinished = format!(in alloc; "{folder}/a|new")?;
    let text = fs::read_to_string(rt, place.as_str())?;
    let time = fs::metadata(rt, place.as_str())?.modified()?;
    Ok((text, time, fs::exists(rt, unfinished.as_str())?))
}

#[test]
fn an_old_file_stays_until_the_new_one_is_whole(rt: HostRuntime) -> Result<(), Fail> {
    let folder = own_folder(&rt, "outputs")?;
    let first = after_output(&rt, folder.as_str(), b"one", true)?;
    let unfinished = after_output(&rt, folder.as_str(), b"two", false)?;
    let same = after_output(&rt, folder.as_str(), b"one", true)?;
    let other = after_output(&rt, folder.as_str(), b"two", true)?;
    fs::remove_dir_all(&rt, folder.as_str())?;
    assert_eq!(rt; (first.0.as_str(), first.2), ("one", false));
    assert_eq!(rt; (unfinished.0.as_str(), unfinished.2), ("one", true));
    assert_eq!(rt; (same.0.as_str(), same.2), ("one", false));
    assert!(rt; unfinished.1 == first.1 && same.1 == first.1);
    assert_eq!(rt; (other.0.as_str(), other.2), ("two", false));
    Ok(())
}
