//! Tests the caller that `docs/LIBRARY.md` shows: it configures a project whose files are in memory.
use meson::ports::memory::{MemOutputs, MemTree};
use meson::{Settings, Status, setup};
use std::alloc::{AllocError, Global};
use std::test::Fail;

const DEFINITIONS: &str = "project('p','c')\nexecutable('prog','main.c')\n";

// So many events are kept, one for each byte. What doesn't fit is a device fault.
const ROOM: usize = 65_536;

fn configure(alloc: Global) -> Result<Status, AllocError> {
    let mut files = Vec::new(alloc);
    let definitions = DEFINITIONS.as_bytes().to_vec(alloc)?;
    files.push((String::from_str(alloc, "meson.build")?, definitions))?;
    files.push((String::from_str(alloc, "main.c")?, Vec::new(alloc)))?;
    let mut tree = MemTree::new(alloc, files)?;
    let mut out = MemOutputs::new(alloc, ROOM)?;
    match Settings::new(alloc, "/s", "build", Vec::new(alloc)) {
        Ok(settings) => Ok(setup(alloc, &mut tree, &settings, &[], &mut out)),
        Err(_) => Err(AllocError),
    }
}

#[test]
fn a_caller_configures_a_project_in_memory(rt: HostRuntime) -> Result<(), Fail> {
    assert_eq!(rt; configure(rt.alloc())?, Status::Done);
    Ok(())
}
