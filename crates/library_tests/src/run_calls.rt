//! Tests whole runs, call by call: settings, `setup`, `questions`, `fault`, `perform` and the command line.
//!
//! The laws are called too. Their contracts are proved where they are written, for all values, and a call has nothing to give them. So the
//! tests show that a caller reaches them.
ghost use Rattle.ports.specs.memory.MemTree.{mem_tree_seen};
ghost use Rattle.std.specs.Prelude.{◌≡◌, IfOk};

use crate::rows::PROGRAM;
use crate::shown::shown;
use meson::interp::calls_as_evaluated;
use meson::ports::memory::{MemOutputs, MemTree};
use meson::support::text_lists::strings;
use meson::{
    Inputs, Line, LineFault, Settings, SettingsFault, Status, Task, command_line, fault, perform,
    questions, setup,
};
use std::alloc::Global;
use std::test::Fail;

const ROOM: usize = 16_384;

fn settings(alloc: Global) -> Result<Settings, Fail> {
    Ok(Settings::new(alloc, "/s", "build", Vec::new(alloc))?)
}

#[test]
fn settings_are_made_or_refused(rt: HostRuntime) -> Result<(), Fail> {
    for (root, folder, fault) in [
        ("s", "build", SettingsFault::Root),
        ("", "build", SettingsFault::Root),
        ("/s", "/build", SettingsFault::Folder),
        ("/s", "../b", SettingsFault::Folder),
        ("/s", "", SettingsFault::Folder),
        ("/s", "./.", SettingsFault::Folder),
    ] {
        let made = Settings::new(rt.alloc(), root, folder, Vec::new(rt.alloc()));
        assert_eq!(rt; made.err(), Some(fault), "{root} {folder}");
    }
    Ok(())
}

#[test]
fn settings_have_a_depth_and_roots(rt: HostRuntime) -> Result<(), Fail> {
    for (folder, depth, build_root) in [
        ("build", 1, "/s/build"),
        ("./build/", 1, "/s/build"),
        ("out//debug", 2, "/s/out/debug"),
    ] {
        let made = Settings::new(
            rt.alloc(),
            "/s",
            folder,
            strings(rt.alloc(), &["werror=true"])?,
        )?;
        assert_eq!(rt;
            (made.depth(), made.source_root(), made.build_root()),
            (depth, "/s", build_root)
        );
        assert_eq!(rt; made.words().join(rt.alloc(), " ")?.as_str(), "werror=true");
    }
    Ok(())
}

// The tree of a root file with this text and of `main.c`.
fn tree(alloc: Global, definitions: &str) -> Result<MemTree, Fail>
    ensures { IfOk result (λ tree. (mem_tree_seen tree).failures ≡ 0) }
{
    let mut files = Vec::new(alloc);
    files.push((
        String::from_str(alloc, "meson.build")?,
        definitions.as_bytes().to_vec(alloc)?,
    ))?;
    files.push((String::from_str(alloc, "main.c")?, Vec::new(alloc)))?;
    Ok(MemTree::new(alloc, files)?)
}

const ZLIB: &[u8] = b"[dependency zlib]\nversion = '1.3'\n";

// Does a run over these definitions, by its own call, with a machine file that has `zlib`.
fn ran(alloc: Global, task: Task, definitions: &str) -> Result<(Status, String), Fail> {
    let settings = settings(alloc)?;
    let mut tree = tree(alloc, definitions)?;
    let mut out = MemOutputs::new(alloc, ROOM)?;
    let status = match task {
        Task::Setup => setup(alloc, &mut tree, &settings, ZLIB, &mut out),
        Task::Questions => questions(alloc, &mut tree, &settings, ZLIB, &mut out),
        Task::Fault => fault(alloc, &mut tree, &settings, ZLIB, &mut out),
    };
    Ok((status, shown(alloc, &out)?))
}

// The same, by the task.
fn performed(alloc: Global, task: Task, definitions: &str) -> Result<(Status, String), Fail> {
    let settings = settings(alloc)?;
    let inputs = Inputs {
        settings: &settings,
        machine: ZLIB,
    };
    let mut tree = tree(alloc, definitions)?;
    let mut out = MemOutputs::new(alloc, ROOM)?;
    let status = perform(alloc, task, &mut tree, &inputs, &mut out);
    Ok((status, shown(alloc, &out)?))
}

const GOOD: &str = "project('p','c')\nexecutable('prog','main.c')\n";

const FAULTY: &str =
    "project('p','c')\nmessage(dependency('zlib').found())\nexecutable('prog', 'no.c')\n";

#[test]
fn a_setup_is_run(rt: HostRuntime) -> Result<(), Fail> {
    let (status, text) = ran(rt.alloc(), Task::Setup, GOOD)?;
    let expected = PROGRAM.events.concat(rt.alloc())?;
    assert_eq!(rt; (status, text.as_str()), (Status::Done, expected.as_str()));
    let (status, text) = ran(rt.alloc(), Task::Setup, FAULTY)?;
    let expected = "⟦log⟧Message: true\n⟦fault⟧meson.build:3: ERROR: E14 file missing: no.c\n";
    assert_eq!(rt; (status, text.as_str()), (Status::Fault, expected));
    Ok(())
}

// Without a log, the line of the fault and a line of what it is about.
#[test]
fn a_fault_is_reported_alone(rt: HostRuntime) -> Result<(), Fail> {
    let (status, text) = ran(rt.alloc(), Task::Fault, FAULTY)?;
    let expected = "⟦fault⟧meson.build:3: ERROR: E14 file missing: no.c\n⟦log⟧no.c\n";
    assert_eq!(rt; (status, text.as_str()), (Status::Fault, expected));
    let (status, text) = ran(rt.alloc(), Task::Fault, GOOD)?;
    assert_eq!(rt; (status, text.as_str()), (Status::Done, ""));
    Ok(())
}

// The last question is that of the dependency, and the fault ends the list.
#[test]
fn questions_are_listed_up_to_the_fault(rt: HostRuntime) -> Result<(), Fail> {
    let (status, text) = ran(rt.alloc(), Task::Questions, FAULTY)?;
    let (log, end) = text.split_once("⟦fault⟧").ok_or("a fault")?;
    assert_eq!(rt;
        (status, end),
        (
            Status::Fault,
            "meson.build:3: ERROR: E14 file missing: no.c\n"
        )
    );
    let lines = log.strip_prefix("⟦log⟧").ok_or("a log")?;
    let last = lines.lines().last().ok_or("a question")?;
    for part in [
        "\"section\":\"dependency zlib\"",
        "\"key\":null",
        "\"version\":\"1.3\"",
        "\"file\":\"meson.build\"",
        "\"line\":2",
    ] {
        assert!(rt; last.contains(part), "{last}");
    }
    Ok(())
}

#[test]
fn a_task_is_performed_as_its_own_call_does_it(rt: HostRuntime) -> Result<(), Fail> {
    for definitions in [GOOD, FAULTY, ""] {
        for task in [Task::Setup, Task::Questions, Task::Fault] {
            let (status, text) = ran(rt.alloc(), task, definitions)?;
            let (other, other_text) = performed(rt.alloc(), task, definitions)?;
            assert_eq!(rt;
                (status, text.as_str()),
                (other, other_text.as_str()),
                "{definitions}"
            );
        }
    }
    Ok(())
}

// The arguments of a command line, divided by blanks.
fn words(alloc: Global, line: &str) -> Result<Vec<String>, Fail> {
    let mut words = Vec::new(alloc);
    for word in line.split(' ') {
        words.push(String::from_str(alloc, word)?)?;
    }
    Ok(words)
}

// The line that a good command line is read as.
fn accepted(alloc: Global, line: &str) -> Result<Line, Fail> {
    let answer = command_line(alloc, &words(alloc, line)?);
    Ok(answer.ok().ok_or("a line")?)
}

#[test]
fn a_command_line_is_read(rt: HostRuntime) -> Result<(), Fail> {
    let alloc = rt.alloc();
    let line = accepted(
        alloc,
        "meson setup -Da=b -Dc=d --native-file m.ini ./build/",
    )?;
    assert!(rt; matches!(line.task, Task::Setup));
    assert_eq!(rt; line.words.join(alloc, " ")?.as_str(), "a=b c=d");
    assert_eq!(rt;
        line.machine_file.as_ref().map(|file| file.as_str()),
        Some("m.ini")
    );
    assert_eq!(rt; line.folder.as_str(), "build");
    Ok(())
}

#[test]
fn a_bad_command_line_is_refused(rt: HostRuntime) -> Result<(), Fail> {
    let alloc = rt.alloc();
    for line in [
        "meson",
        "meson setup",
        "meson setup ../b",
        "meson setup /b",
        "meson build b",
        "meson setup -x b",
        "meson setup a b",
    ] {
        let answer = command_line(alloc, &words(alloc, line)?);
        assert!(rt; matches!(answer, Err(LineFault::Usage(_))), "{line}");
    }
    Ok(())
}

#[test]
fn the_laws_are_called() {
    meson::depends_on_looked();
    meson::lists_what_it_looks_at();
    meson::needs_are_there();
    meson::machine_files_say();
    calls_as_evaluated();
}
