//! Tests functions and methods that are looked up and called by their names.
use crate::shown::shown;
use meson::Settings;
use meson::arguments::no_arguments;
use meson::interp::{CallName, call, lookup};
use meson::options::Machine;
use meson::ports::memory::{MemOutputs, MemTree};
use meson::values::{Object, Value};
use meson::world::{Caller, Stop, Store};
use std::alloc::{AllocError, Global};
use std::rc::Rc;
use std::test::Fail;

// The receiver of a method, or the argument of a call. A function has no receiver.
#[derive(Clone, Copy, Debug)]
enum Thing {
    Nothing,
    Two,
    Compiler,
    Disabler,
}

impl Thing {
    fn value(self, alloc: Global) -> Result<Option<Value>, AllocError> {
        match self {
            Thing::Nothing => Ok(None),
            Thing::Two => Ok(Some(Value::Integer(2))),
            Thing::Compiler => Ok(Some(Value::of_object(alloc, Object::Compiler)?)),
            Thing::Disabler => Ok(Some(Value::of_object(alloc, Object::Disabler)?)),
        }
    }
}

fn call_name(alloc: Global, name: &str) -> Result<CallName, Fail> {
    Ok(CallName::new(alloc, name)?.ok().ok_or("a name")?)
}

#[test]
fn a_name_is_looked_up(rt: HostRuntime) -> Result<(), Fail> {
    for (receiver, name, refused) in [
        (Thing::Nothing, "message", None),
        (Thing::Nothing, "add_project_link_arguments", None),
        (Thing::Nothing, "import", Some(23)),
        (Thing::Nothing, "to_upper", Some(8)),
        (Thing::Two, "is_even", None),
        (Thing::Two, "to_upper", Some(8)),
        (Thing::Two, "run", Some(8)),
        (Thing::Compiler, "get_id", None),
        (Thing::Compiler, "run", Some(23)),
        (Thing::Compiler, "message", Some(8)),
        (Thing::Disabler, "anything", None),
    ] {
        let value = receiver.value(rt.alloc())?;
        let answer = lookup(value.as_ref(), &call_name(rt.alloc(), name)?);
        assert_eq!(rt;
            answer.err().map(|refusal| refusal.number()),
            refused,
            "{name}"
        );
    }
    Ok(())
}

// How a call ends.
#[derive(Clone, Copy, Debug, PartialEq, Eq)]
enum Ended {
    Gave(bool),
    GaveDisabler,
    GaveOther,
    GaveNothing,
    Refused(u8),
    Failed,
}

impl Ended {
    fn of(answer: &Result<Option<Value>, Stop>) -> Ended {
        match answer {
            Ok(Some(Value::Boolean(boolean))) => Ended::Gave(*boolean),
            Ok(Some(value)) if value.is_disabler() => Ended::GaveDisabler,
            Ok(Some(_)) => Ended::GaveOther,
            Ok(None) => Ended::GaveNothing,
            Err(Stop::Refused(fault)) => Ended::Refused(fault.number()),
            Err(_) => Ended::Failed,
        }
    }
}

// The world of a run in `/s` over this machine file, before `project` is called.
fn first_world(alloc: Global, machine: &[u8]) -> Result<Store, Fail> {
    let machine = Machine::read(alloc, machine)?.ok().ok_or("a machine file")?;
    let settings = Settings::new(alloc, "/s", "build", Vec::new(alloc))?;
    Ok(Store::new(alloc, settings, Rc::new(alloc, machine)?)?)
}

// Calls a function or a method in a new world, and gives how that ended and what it wrote.
fn called(
    alloc: Global,
    receiver: Thing,
    name: &str,
    argument: Thing,
) -> Result<(Ended, String), Fail> {
    let mut tree = MemTree::new(alloc, Vec::new(alloc))?;
    let mut out = MemOutputs::new(alloc, 64)?;
    let mut store = first_world(alloc, b"[compiler]\nid = 'clang'\n")?;
    let mut arguments = no_arguments(alloc);
    if let Some(value) = argument.value(alloc)? {
        arguments.positional.push(value)?;
    }
    let receiver = receiver.value(alloc)?;
    let name = call_name(alloc, name)?;
    let mut caller = Caller {
        alloc,
        store: &mut store,
        tree: &mut tree,
        out: &mut out,
    };
    let answer = call(&mut caller, receiver.as_ref(), &name, &arguments);
    Ok((Ended::of(&answer), shown(alloc, &out)?))
}

#[test]
fn a_function_is_called(rt: HostRuntime) -> Result<(), Fail> {
    for (name, argument, ended, events) in [
        (
            "message",
            Thing::Two,
            Ended::GaveNothing,
            "⟦log⟧Message: 2\n",
        ),
        (
            "warning",
            Thing::Two,
            Ended::GaveNothing,
            "⟦log⟧WARNING: 2\n",
        ),
        ("error", Thing::Two, Ended::Refused(18), ""),
        ("error", Thing::Nothing, Ended::Refused(18), ""),
        ("error", Thing::Disabler, Ended::GaveDisabler, ""),
        ("range", Thing::Two, Ended::GaveOther, ""),
        ("range", Thing::Nothing, Ended::Refused(9), ""),
        ("disabler", Thing::Nothing, Ended::GaveDisabler, ""),
        ("is_disabler", Thing::Disabler, Ended::Gave(true), ""),
        ("is_disabler", Thing::Two, Ended::Gave(false), ""),
        ("import", Thing::Nothing, Ended::Refused(23), ""),
        ("to_upper", Thing::Nothing, Ended::Refused(8), ""),
    ] {
        let (found, text) = called(rt.alloc(), Thing::Nothing, name, argument)?;
        assert_eq!(rt;
            (found, text.as_str()),
            (ended, events),
            "{name} of {argument:?}"
        );
    }
    Ok(())
}

#[test]
fn a_method_is_called(rt: HostRuntime) -> Result<(), Fail> {
    for (receiver, name, argument, ended) in [
        (Thing::Two, "is_even", Thing::Nothing, Ended::Gave(true)),
        (Thing::Two, "is_even", Thing::Two, Ended::Refused(9)),
        (Thing::Two, "found", Thing::Nothing, Ended::Refused(8)),
        (Thing::Two, "is_even", Thing::Disabler, Ended::GaveDisabler),
        (Thing::Compiler, "get_id", Thing::Nothing, Ended::GaveOther),
        (Thing::Compiler, "get_id", Thing::Two, Ended::Refused(9)),
        (Thing::Compiler, "run", Thing::Nothing, Ended::Refused(23)),
        (Thing::Disabler, "found", Thing::Nothing, Ended::Gave(false)),
        (Thing::Disabler, "found", Thing::Two, Ended::GaveDisabler),
    ] {
        let (found, text) = called(rt.alloc(), receiver, name, argument)?;
        assert_eq!(rt;
            (found, text.as_str()),
            (ended, ""),
            "{name} of {receiver:?}"
        );
    }
    Ok(())
}
