//! Implements the methods of a machine: the type `build_machine` of the page "Reference manual".
ghost use Rattle.std.specs.Prelude.{option_map};
ghost use Rattle.values.specs.language_names.ObjectMethods.{machine_method_named};
ghost use Rattle.world.specs.Prelude.{Does, data_of};
ghost use Rattle.methods.specs.Machines.{host_machine_value, told_by};

use crate::machine_keys::read_key;
use ports::{Outputs, Tree};
use support::faults::Refusal;
use values::Value;
use values::language_names::{MachineMethod, MethodName};
use world::{Caller, Stop};

// Returns the result of a method.
fn tell_machine<T: Tree, O: Outputs>(
    caller: &mut Caller<'_, T, O>,
    method: MachineMethod,
) -> Result<Option<Value>, Stop>
    ensures { Does T.seen O.seen (option_map data_of) (host_machine_value method) caller.old result caller.new }
{
    match method {
        MachineMethod::Cpu => read_key(caller, "host_machine", "cpu", "x86_64"),
        MachineMethod::CpuFamily => read_key(caller, "host_machine", "cpu_family", "x86_64"),
        MachineMethod::Endian => read_key(caller, "host_machine", "endian", "little"),
        MachineMethod::System => read_key(caller, "host_machine", "system", "linux"),
    }
}

/// Returns the result of the method of the build, host or target machine with this name: `system`, `cpu_family`, `cpu` or `endian`, as the
/// machine file has it. Refuses an unknown name with E8, and a result that is too long with E22.
pub fn machine_answer<T: Tree, O: Outputs>(
    caller: &mut Caller<'_, T, O>,
    name: &MethodName,
) -> Result<Option<Value>, Stop>
    ensures { Does T.seen O.seen (option_map data_of) (told_by (machine_method_named name.now)) caller.old result caller.new }
{
    match name.of_machine() {
        Some(method) => tell_machine(caller, method),
        None => caller.refuse(Refusal::UnknownFunction, ""),
    }
}
