//! Calls methods of objects.
ghost use Rattle.std.specs.Prelude.{◌≡◌, option_map};
ghost use Rattle.arguments.specs.RowView.{row_data};
ghost use Rattle.arguments.specs.Stops.{Gives};
ghost use Rattle.world.specs.Prelude.{Does, MayFail, arguments_data, data_of, world_of};
ghost use Rattle.methods.specs.Methods.{breaking_text, has_method, object_method, rule_of, tell, told_of};
ghost use Rattle.methods.specs.Rows.{row_of};

use crate::compiler::{compiler_method, has_compiler_method};
use crate::dependencies::dependency_answer;
use crate::features::feature_answer;
use crate::machines::machine_answer;
use crate::meson_object::meson_answer;
use crate::programs::program_answer;
use crate::target_methods::{output_answer, target_answer};
use arguments::{ArgumentKind, Arguments, CallStop, Row, Rule};
use configuration_calls::{configuration_method, has_configuration_method};
use ports::{Outputs, Tree};
use std::alloc::Global;
use values::language_names::MethodName;
use values::{Object, OperationRefusal, Value};
use world::{Caller, Stop, Store};

/// Returns whether the type of an object has a supported method with this name. It allocates nothing.
pub fn has_object_method(object: &Object, name: &MethodName) -> bool
    ensures { result ≡ has_method object.now name.now }
{
    match object {
        Object::Feature(_) => name.of_feature().is_some(),
        Object::Dependency(_) => name.of_dependency().is_some(),
        Object::Program(_) => name.of_program().is_some(),
        Object::BuildTarget(_) => name.of_build_target().is_some(),
        Object::CustomTarget { .. } => name.of_custom_target().is_some(),
        Object::CustomOutput { .. } => name.of_output().is_some(),
        Object::Machine => name.of_machine().is_some(),
        Object::Meson => name.of_meson().is_some(),
        Object::Compiler => has_compiler_method(name),
        Object::ConfigurationData(_) => has_configuration_method(name),
        _ => false,
    }
}

// Returns the result of a method that depends only on its receiver and the facts of the run.
fn tell_of(
    alloc: Global,
    store: &Store,
    object: &Object,
    name: &MethodName,
    arguments: &Arguments,
) -> Result<Value, CallStop>
    ensures { Gives data_of (told_of (world_of store.now).facts object.now name.now (arguments_data arguments.now)) result }
{
    match object {
        Object::Feature(feature) => Ok(feature_answer(*feature, name)?),
        Object::Dependency(dependency) => dependency_answer(alloc, dependency, name),
        Object::Program(program) => program_answer(alloc, store, program, name),
        Object::BuildTarget(number) => {
            target_answer(alloc, store, name.of_build_target(), *number, 1)
        }
        Object::CustomTarget { number, outputs } => {
            target_answer(alloc, store, name.of_custom_target(), *number, *outputs)
        }
        Object::CustomOutput { target, output } => {
            output_answer(alloc, store, *target, *output, name)
        }
        Object::Meson => meson_answer(alloc, store, name, arguments),
        _ => Err(OperationRefusal::UnknownMethod.into()),
    }
}

// Returns the row of a method of `meson`.
fn meson_row(name: &str) -> Row
    ensures { row_data result ≡ row_of Object.Meson name.now }
{
    if name == "get_compiler" {
        Row::of(&[ArgumentKind::Text], 1, &[])
    } else {
        Row::of(&[], 0, &[])
    }
}

// Returns the arguments that the method with this name takes.
fn row_of(object: &Object, name: &MethodName) -> Row
    ensures { row_data result ≡ row_of object.now name.now }
{
    match object {
        Object::Meson => meson_row(name.as_str()),
        _ => Row::of(&[], 0, &[]),
    }
}

// Returns the rule that a method requires of its receiver, or of its argument.
fn rule_of(object: &Object) -> Rule
    ensures { result ≡ rule_of object.now }
{
    match object {
        Object::Program(_) => Rule::HasProgram,
        Object::Meson => Rule::HasCompiler,
        _ => Rule::HasOneOutput,
    }
}

// Returns what breaks that rule: the language given to `meson.get_compiler`, or the name of the method.
fn breaking<'a>(object: &Object, name: &'a MethodName, arguments: &'a Arguments) -> &'a str
    ensures { result.now ≡ breaking_text object.now name.now (arguments_data arguments.now) }
{
    match object {
        Object::Meson => arguments.text_at(0),
        _ => name.as_str(),
    }
}

// Runs a method that depends only on its receiver and the facts of the run.
fn tell<T: Tree, O: Outputs>(
    caller: &Caller<'_, T, O>,
    object: &Object,
    name: &MethodName,
    arguments: &Arguments,
) -> Result<Option<Value>, Stop>
    ensures { Does T.seen O.seen (option_map data_of) (tell object.now name.now (arguments_data arguments.now))
        caller.now result caller.now }
{
    let row = row_of(object, name);
    caller.fit(&row, arguments)?;
    let answer = tell_of(caller.alloc, caller.store, object, name, arguments);
    let text = breaking(object, name, arguments);
    let value = caller.settle_by(rule_of(object), text, answer)?;
    Ok(Some(value))
}

/// Checks the arguments of a method by its row, and then runs it. It returns a value or `None`.
///
/// [`has_object_method`] must be true for the name; any other name is refused with E8.
pub fn object_method<T: Tree, O: Outputs>(
    caller: &mut Caller<'_, T, O>,
    object: &Object,
    name: &MethodName,
    arguments: &Arguments,
) -> Result<Option<Value>, Stop>
    requires { MayFail T.seen O.seen caller.old }
    ensures { Does T.seen O.seen (option_map data_of) (object_method object.now name.now (arguments_data arguments.now))
        caller.old result caller.new }
{
    match object {
        Object::Compiler => compiler_method(caller, name, arguments),
        Object::Machine => {
            caller.fit(&Row::of(&[], 0, &[]), arguments)?;
            machine_answer(caller, name)
        }
        Object::ConfigurationData(number) => {
            configuration_method(caller, *number, name, arguments)
        }
        _ => tell(caller, object, name, arguments),
    }
}
