//! Tests the evaluation of definition files by itself, and counts its steps.
ghost use Rattle.std.specs.Prelude.{◌≡◌, ◌<◌};

use crate::rows::{EMPTY, PROGRAM, Row};
use meson::ports::memory::MemOutputs;
use meson::ports::{Outputs, Tree};
use meson::world::{Steps, Stop, Store, new_steps};
use meson::{Inputs, Settings};
use std::alloc::{AllocError, Global};
use std::marker::Brand;
use std::sync::ledger::{Blank, Ledger};
use std::test::Fail;

// How an evaluation ended: how many targets the project has and how many events the outputs took, or the number of the fault.
#[derive(Clone, Copy, Debug, PartialEq, Eq)]
enum Evaluated {
    Done { targets: usize, events: usize },
    Fault(u8),
    Stopped,
}

impl Evaluated {
    // Describes the answer of an evaluation, after which the outputs have these events.
    fn of(answer: &Result<Store, Stop>, events: usize) -> Evaluated {
        match answer {
            Ok(store) => Evaluated::Done {
                targets: store.project().targets().len(),
                events,
            },
            Err(Stop::Refused(fault)) => Evaluated::Fault(fault.number()),
            Err(_) => Evaluated::Stopped,
        }
    }
}

// Evaluates the files of a row with this counter, which counts one step more afterwards.
fn evaluate_with<L: Ledger>(
    alloc: Global,
    row: &Row,
    steps: &mut Steps<L>,
) -> Result<Evaluated, AllocError> {
    let mut tree = row.tree(alloc)?;
    let mut out = MemOutputs::new(alloc, 64)?;
    let Ok(settings) = Settings::new(alloc, "/s", "build", Vec::new(alloc)) else {
        return Err(AllocError);
    };
    let inputs = Inputs {
        settings: &settings,
        machine: row.machine.as_bytes(),
    };
    let answer = meson::interp::evaluate(alloc, &mut tree, &inputs, &mut out, steps);
    steps.tick();
    Ok(Evaluated::of(&answer, out.event_count()))
}

// Evaluates the files of a row, with its steps counted on this ledger.
fn evaluate_on<L: Ledger>(alloc: Global, row: &Row, blank: Blank) -> Result<Evaluated, AllocError>
    requires name { blank.name ≡ L.name }
    requires parts { blank.parts ≡ L.parts }
    requires some { 0 < blank.parts }
{
    let mut steps = new_steps::<L>(blank);
    evaluate_with(alloc, row, &mut steps)
}

fn evaluate_row(alloc: Global, row: &Row) -> Result<Evaluated, AllocError> {
    evaluate_on::<Brand>(alloc, row, Blank::new(1))
}

// An evaluation writes no output: the files of a project are written after it.
#[test]
fn an_evaluation_returns_the_project(rt: HostRuntime) -> Result<(), Fail> {
    let expected = Evaluated::Done {
        targets: 1,
        events: 0,
    };
    assert_eq!(rt; evaluate_row(rt.alloc(), &PROGRAM)?, expected);
    Ok(())
}

// E13: the first statement is no call of `project`. The caller of `evaluate` reports the fault, which is no event of the outputs.
#[test]
fn an_evaluation_stops_at_a_fault(rt: HostRuntime) -> Result<(), Fail> {
    assert_eq!(rt; evaluate_row(rt.alloc(), &EMPTY)?, Evaluated::Fault(13));
    Ok(())
}
