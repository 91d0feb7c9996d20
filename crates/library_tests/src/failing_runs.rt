//! Runs over devices in memory that take and give a few bytes a call, and that fail: at each call once, or from one call on.
ghost use Rattle.ports.specs.Endings.{HasRoom};
ghost use Rattle.ports.specs.memory.MemOutputs.{mem_outputs_seen};
ghost use Rattle.ports.specs.memory.MemTree.{mem_tree_seen};
ghost use Rattle.std.specs.Prelude.{◌≡◌, ◌<◌, IfOk};

use crate::rows::{CAPTURED, DISABLED, EMPTY, FOLDERS, PROGRAM, REFUSED, ROWS, Row, WARNED};
use crate::shown::shown;
use meson::ports::memory::{MemOutputs, MemTree, OutputCall, TreeCall};
use meson::ports::{Outputs, Tree};
use meson::support::text_lists::strings;
use meson::{Settings, Status, setup};
use std::alloc::{AllocError, Global};
use std::test::Fail;

// More events than any of these runs has.
const ROOM: usize = 4_096;

/// Holds a run that has ended: its status, its outputs, and how many calls of devices failed.
#[derive(Drop)]
pub struct Ran {
    pub status: Status,
    pub out: MemOutputs,
    pub failures: u64,
}

impl Ran {
    // Whether the outputs took the first events of another run.
    fn is_front(&self, whole: &Ran) -> bool {
        (0..self.out.event_count()).all(|at| self.out.event(at) == whole.out.event(at))
    }

    // Whether the outputs took fewer events than those of another run.
    fn is_shorter(&self, whole: &Ran) -> bool {
        self.out.event_count() < whole.out.event_count()
    }

    /// Returns whether this run equals another one, to the end.
    pub fn is_same(&self, whole: &Ran) -> bool {
        let counts = (self.out.event_count(), self.failures);
        counts == (whole.out.event_count(), 0)
            && self.status == whole.status
            && self.is_front(whole)
    }

    /// Returns whether this run ended early with this status and this number of failed calls, and its events begin those of another run.
    pub fn is_cut(&self, whole: &Ran, status: Status, failures: u64) -> bool {
        self.status == status
            && self.failures == failures
            && self.is_shorter(whole)
            && self.is_front(whole)
    }
}

/// Says how the devices of a run behave: how many bytes a call takes or gives at most, and which call fails once.
#[derive(Clone, Copy)]
pub struct Plan {
    pub piece: usize,
    pub tree: Option<(TreeCall, u64)>,
    pub outputs: Option<(OutputCall, u64)>,
    pub ghost some: { 0 < piece },
}

/// Holds the plan of devices that don't fail and take all bytes at once.
pub const WHOLE: Plan = Plan {
    piece: usize::MAX,
    tree: None,
    outputs: None,
};

/// Says which device of a run fails.
#[derive(Clone, Copy, Debug)]
pub enum Device {
    Tree,
    Outputs,
}

impl Device {
    /// Returns the plan by which this device fails once, at the call with this number.
    pub fn fails(self, piece: usize, number: u64) -> Plan
        requires { 0 < piece }
    {
        match self {
            Device::Tree => Plan {
                piece,
                tree: Some((TreeCall::Any, number)),
                outputs: None,
            },
            Device::Outputs => Plan {
                piece,
                tree: None,
                outputs: Some((OutputCall::Any, number)),
            },
        }
    }
}

impl Row {
    /// Returns the files, as a tree.
    pub fn tree(&self, alloc: Global) -> Result<MemTree, AllocError>
        ensures { IfOk result (λ tree. (mem_tree_seen tree).failures ≡ 0) }
    {
        let mut files = Vec::new(alloc);
        for (path, text) in self.files {
            files.push((
                String::from_str(alloc, path)?,
                text.as_bytes().to_vec(alloc)?,
            ))?;
        }
        MemTree::new(alloc, files)
    }

    // Runs over these devices.
    fn run_over(
        &self,
        alloc: Global,
        mut tree: MemTree,
        mut out: MemOutputs,
    ) -> Result<Ran, AllocError>
        requires tree { HasRoom (mem_tree_seen tree).failures }
        requires out { HasRoom (mem_outputs_seen out).failures }
    {
        let words = strings(alloc, self.words)?;
        let Ok(settings) = Settings::new(alloc, "/s", "build", words) else {
            return Err(AllocError);
        };
        let status = setup(
            alloc,
            &mut tree,
            &settings,
            self.machine.as_bytes(),
            &mut out,
        );
        let failures = tree.failures().saturating_add(out.failures());
        Ok(Ran {
            status,
            out,
            failures,
        })
    }

    /// Runs over devices that behave by this plan.
    pub fn run(&self, alloc: Global, plan: Plan) -> Result<Ran, AllocError> {
        let tree = self.tree(alloc)?.with_plan(plan.piece, plan.tree);
        let out = MemOutputs::new(alloc, ROOM)?.with_plan(plan.piece, plan.outputs);
        self.run_over(alloc, tree, out)
    }

    // Runs over outputs that take so many events and fail at each call from then on.
    fn run_in_room(&self, alloc: Global, room: usize) -> Result<Ran, AllocError> {
        let tree = self.tree(alloc)?;
        let out = MemOutputs::new(alloc, room)?;
        self.run_over(alloc, tree, out)
    }

    // How many calls of a device a run makes, if it is cut whichever of them fails. None if one of these runs goes wrong.
    fn calls(
        &self,
        alloc: Global,
        device: Device,
        piece: usize,
        whole: &Ran,
    ) -> Result<Option<u64>, AllocError>
        requires { 0 < piece }
    {
        for number in 1..u64::MAX {
            let ran = self.run(alloc, device.fails(piece, number))?;
            if ran.is_same(whole) {
                return Ok(Some(number - 1));
            }
            if !ran.is_cut(whole, Status::Device, 1) {
                return Ok(None);
            }
        }
        Ok(None)
    }

    // Whether a run is cut at the first call that fails, if all calls fail once the outputs have taken so many events.
    fn stops_at_a_full_device(&self, alloc: Global, whole: &Ran) -> Result<bool, AllocError> {
        for room in 0..whole.out.event_count() {
            if !self
                .run_in_room(alloc, room)?
                .is_cut(whole, Status::Device, 1)
            {
                return Ok(false);
            }
        }
        Ok(true)
    }
}

#[test]
fn a_run_writes_what_its_definitions_say(rt: HostRuntime) -> Result<(), Fail> {
    for row in ROWS {
        let ran = row.run(rt.alloc(), WHOLE)?;
        let expected = row.events.concat(rt.alloc())?;
        assert_eq!(rt;
            shown(rt.alloc(), &ran.out)?.as_str(),
            expected.as_str(),
            "{}",
            row.name
        );
        assert_eq!(rt; (ran.status, ran.failures), (row.status, 0), "{}", row.name);
    }
    Ok(())
}

#[test]
fn pieces_change_nothing(rt: HostRuntime) -> Result<(), Fail> {
    for row in ROWS {
        let whole = row.run(rt.alloc(), WHOLE)?;
        for piece in [1, 7] {
            let plan = Plan {
                piece,
                tree: None,
                outputs: None,
            };
            assert!(rt;
                row.run(rt.alloc(), plan)?.is_same(&whole),
                "{} in pieces of {piece}",
                row.name
            );
        }
    }
    Ok(())
}

impl Row {
    // Whether the run is cut whichever byte of the outputs, or begin or end of one, fails. Each event is a call of its own.
    fn is_cut_at_each_event(&self, alloc: Global) -> Result<bool, AllocError> {
        let whole = self.run(alloc, WHOLE)?;
        let calls = self.calls(alloc, Device::Outputs, 1, &whole)?;
        Ok(calls == Some(whole.out.event_count() as u64))
    }
}

// These three tests make some ten thousand runs. `rt try` builds them without optimization, so they need more than the minute that it
// gives: `rt try --test --seconds 900`.
#[test]
fn each_event_fails_once(rt: HostRuntime) -> Result<(), Fail> {
    for row in [PROGRAM, EMPTY, REFUSED] {
        assert!(rt; row.is_cut_at_each_event(rt.alloc())?, "{}", row.name);
    }
    Ok(())
}

#[test]
fn each_event_of_projects_that_compile_nothing_fails_once(rt: HostRuntime) -> Result<(), Fail> {
    for row in [WARNED, CAPTURED, DISABLED] {
        assert!(rt; row.is_cut_at_each_event(rt.alloc())?, "{}", row.name);
    }
    Ok(())
}

#[test]
fn each_event_of_two_folders_fails_once(rt: HostRuntime) -> Result<(), Fail> {
    assert!(rt; FOLDERS.is_cut_at_each_event(rt.alloc())?);
    Ok(())
}

#[test]
fn each_call_of_the_outputs_fails_once(rt: HostRuntime) -> Result<(), Fail> {
    for row in ROWS {
        let whole = row.run(rt.alloc(), WHOLE)?;
        for piece in [7, usize::MAX] {
            let calls = row.calls(rt.alloc(), Device::Outputs, piece, &whole)?;
            assert!(rt; calls.is_some(), "{} in pieces of {piece}", row.name);
        }
    }
    Ok(())
}

#[test]
fn each_call_of_the_tree_fails_once(rt: HostRuntime) -> Result<(), Fail> {
    for row in ROWS {
        let whole = row.run(rt.alloc(), WHOLE)?;
        for piece in [1, 7, usize::MAX] {
            let calls = row.calls(rt.alloc(), Device::Tree, piece, &whole)?;
            assert!(rt; calls.is_some(), "{} in pieces of {piece}", row.name);
        }
    }
    Ok(())
}

// Counts 777 bytes of `build.ninja`, 1236 bytes of the document, and the begin and end of both; and one call for each byte of a fault line.
#[test]
fn each_event_is_counted(rt: HostRuntime) -> Result<(), Fail> {
    for (row, events) in [(PROGRAM, 2017), (EMPTY, 39)] {
        let whole = row.run(rt.alloc(), WHOLE)?;
        assert_eq!(rt; whole.out.event_count(), events, "{}", row.name);
    }
    Ok(())
}

// Counts one `read_at` for each byte of the definition file, and one `size` for it and for each of the three other paths that the run looks
// at.
#[test]
fn each_call_of_the_tree_is_counted(rt: HostRuntime) -> Result<(), Fail> {
    let whole = PROGRAM.run(rt.alloc(), WHOLE)?;
    let calls = PROGRAM.calls(rt.alloc(), Device::Tree, 1, &whole)?;
    assert_eq!(rt; calls, Some(49));
    Ok(())
}

// A run makes no call after the one that failed: it would fail too, and be counted.
#[test]
fn nothing_is_called_after_a_failed_call(rt: HostRuntime) -> Result<(), Fail> {
    for row in [EMPTY, WARNED, REFUSED] {
        let whole = row.run(rt.alloc(), WHOLE)?;
        assert!(rt;
            row.stops_at_a_full_device(rt.alloc(), &whole)?,
            "{}",
            row.name
        );
    }
    Ok(())
}

// A run in pieces of one byte in which one call fails: the row, the call, how many events the outputs take, and how these end.
type Failing = (
    Row,
    Option<(TreeCall, u64)>,
    Option<(OutputCall, u64)>,
    usize,
    &'static str,
);

const FAILING: &[Failing] = &[
    (
        PROGRAM,
        None,
        Some((OutputCall::Put, 40)),
        40,
        "\n\nrule c_co",
    ),
    (
        PROGRAM,
        None,
        Some((OutputCall::Open, 2)),
        779,
        "\ndefault all\n⟦close build.ninja⟧",
    ),
    (PROGRAM, Some((TreeCall::Size, 1)), None, 0, ""),
    (EMPTY, None, Some((OutputCall::Fault, 1)), 0, ""),
    (
        WARNED,
        None,
        Some((OutputCall::Log, 2)),
        13,
        "#define A\nx⟦log⟧W",
    ),
    (
        REFUSED,
        None,
        Some((OutputCall::Close, 1)),
        57,
        "#define A 1\n",
    ),
    (
        REFUSED,
        None,
        Some((OutputCall::Fault, 1)),
        67,
        "⟦open b.h⟧one\ntwo\n",
    ),
];

#[test]
fn a_failed_call_leaves_what_was_written_before(rt: HostRuntime) -> Result<(), Fail> {
    for (row, tree, outputs, events, end) in FAILING {
        let plan = Plan {
            piece: 1,
            tree: *tree,
            outputs: *outputs,
        };
        let ran = row.run(rt.alloc(), plan)?;
        let text = shown(rt.alloc(), &ran.out)?;
        let whole = row.events.concat(rt.alloc())?;
        assert_eq!(rt;
            (ran.status, ran.out.event_count()),
            (Status::Device, *events),
            "{}",
            row.name
        );
        assert!(rt;
            whole.starts_with(text.as_str()) && text.ends_with(end),
            "{}",
            row.name
        );
    }
    Ok(())
}
