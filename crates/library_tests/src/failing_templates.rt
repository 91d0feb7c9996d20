//! Tests templates over devices in memory that take and give a few bytes a call, and of which one fails: at which point the log is written,
//! whichever call fails.
ghost use Rattle.ports.specs.Endings.{HasRoom};
ghost use Rattle.ports.specs.memory.MemTree.{mem_tree_seen};
ghost use Rattle.std.specs.Prelude.{◌≡◌, ◌<◌, length, IfOk};

use crate::failing_runs::{Device, Plan};
use crate::shown::shown;
use crate::template_calls::line_room;
use meson::ports::memory::{MemOutputs, MemTree};
use meson::ports::{Outputs, Tree};
use meson::template::{ConfigData, ConfigValue, PassStop, header, pass};
use std::alloc::{AllocError, Global};
use std::test::Fail;

// Says how a template was written over devices of which one was to fail once.
#[derive(Clone, Copy, Debug, PartialEq, Eq)]
enum Outcome {
    // The call did not come: all was written.
    Whole,
    // The call failed, and a beginning was written.
    Failed,
    Wrong,
}

// Writes a header without template, a template that is written whole, and one with a line that is refused.
fn write_three<T: Tree, O: Outputs>(
    tree: &mut T,
    config: &ConfigData,
    line: &mut [u8],
    out: &mut O,
) -> Result<(), PassStop>
    requires tree { HasRoom (T.seen tree.old).failures }
    requires out { HasRoom (O.seen out.old).failures }
    requires line_len { length line.old ≡ 65536 }
{
    out.open("a.h")?;
    header(config, out)?;
    out.close()?;
    out.open("c.h")?;
    pass(tree, "c.h.in", config, line, out)?;
    out.close()?;
    out.open("b.h")?;
    pass(tree, "b.h.in", config, line, out)
}

const TEMPLATES: &[(&str, &str)] = &[
    ("c.h.in", "#mesondefine A\nx@B@y\n@B@@C@@A@\\\\@B@"),
    ("b.h.in", "one\ntwo\n#mesondefine A B\n"),
];

const WRITTEN: &str =
    "⟦open a.h⟧/* Generated. Do not edit. */\n#pragma once\n\n#define A\n⟦close a.h⟧\
    ⟦open c.h⟧#define A\nx⟦log⟧WARNING: c.h.in:2: no value for B\n⟦put⟧y\n\
    ⟦log⟧WARNING: c.h.in:3: no value for B\nWARNING: c.h.in:3: no value for C\n⟦put⟧true\\⟦log⟧WARNING: c.h.in:3: no value for B\n⟦close c.h⟧\
    ⟦open b.h⟧one\ntwo\n";

// The files that are read, over a tree that behaves by this plan.
fn tree_of(alloc: Global, plan: Plan) -> Result<MemTree, AllocError>
    ensures { IfOk result (λ tree. (mem_tree_seen tree).failures ≡ 0) }
{
    let mut files = Vec::new(alloc);
    for (path, text) in TEMPLATES {
        files.push((
            String::from_str(alloc, path)?,
            text.as_bytes().to_vec(alloc)?,
        ))?;
    }
    Ok(MemTree::new(alloc, files)?.with_plan(plan.piece, plan.tree))
}

// How the three are written over a tree and outputs that behave by these plans. `A` is true, and nothing else has a value.
fn ran(alloc: Global, reading: Plan, writing: Plan) -> Result<Outcome, Fail> {
    let mut config = ConfigData::new(alloc);
    config.set("A", ConfigValue::Boolean(true))?;
    let mut tree = tree_of(alloc, reading)?;
    let mut out = MemOutputs::new(alloc, 500)?.with_plan(writing.piece, writing.outputs);
    let mut line = line_room(alloc)?;
    let stop = write_three(&mut tree, &config, line.as_mut_slice(), &mut out).err();
    let text = shown(alloc, &out)?;
    Ok(judge(writing.outputs.is_some(), stop, text.as_str()))
}

// The outcome of a run. If a call of the outputs failed, less than everything was written. A call of the tree may fail after the last byte
// is written.
fn judge(outputs_fail: bool, stop: Option<PassStop>, text: &str) -> Outcome {
    let is_whole = text == WRITTEN;
    if is_whole && stop == Some(PassStop::Template(3)) {
        Outcome::Whole
    } else if WRITTEN.starts_with(text)
        && !(is_whole && outputs_fail)
        && stop == Some(PassStop::Device)
    {
        Outcome::Failed
    } else {
        Outcome::Wrong
    }
}

// The plan of a device that doesn't fail.
fn in_pieces(piece: usize) -> Plan
    requires { 0 < piece }
{
    Plan {
        piece,
        tree: None,
        outputs: None,
    }
}

#[test]
fn pieces_change_nothing(rt: HostRuntime) -> Result<(), Fail> {
    for read in [1, 7, usize::MAX] {
        for put in [1, 7, usize::MAX] {
            assert_eq!(rt;
                ran(rt.alloc(), in_pieces(read), in_pieces(put))?,
                Outcome::Whole
            );
        }
    }
    Ok(())
}

// More than the calls of one device in each run of these tests.
const CALLS: u64 = 1000;

// How many calls of this device a run makes. None if a run goes wrong after one of them failed.
fn calls_of(alloc: Global, device: Device, piece: usize) -> Result<Option<u64>, Fail>
    requires { 0 < piece }
{
    for number in 1..CALLS {
        let plan = device.fails(piece, number);
        match ran(alloc, plan, plan)? {
            Outcome::Failed => {}
            Outcome::Whole => return Ok(Some(number - 1)),
            Outcome::Wrong => return Ok(None),
        }
    }
    Ok(None)
}

// The calls of the tree are for the 35 and the 25 bytes of the templates, and for their sizes. Those of the outputs are for the begin and
// the end of outputs, and for each byte that is written.
#[test]
fn each_call_fails(rt: HostRuntime) -> Result<(), Fail> {
    for (device, piece, calls) in [
        (Device::Tree, 1, 62),
        (Device::Tree, 7, 11),
        (Device::Tree, usize::MAX, 4),
        (Device::Outputs, 1, 221),
    ] {
        let made = calls_of(rt.alloc(), device, piece)?;
        assert_eq!(rt;
            made,
            Some(calls),
            "calls of {device:?} in pieces of {piece}"
        );
    }
    for piece in [7, usize::MAX] {
        assert!(rt; calls_of(rt.alloc(), Device::Outputs, piece)?.is_some());
    }
    Ok(())
}
