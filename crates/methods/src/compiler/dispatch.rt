//! Calls methods of the compiler.
ghost use Rattle.std.specs.Prelude.{◌≡◌, IfOk, OnOk, Some, map, option_map};
ghost use Rattle.arguments.specs.Given.{text_or_none};
ghost use Rattle.values.specs.Data.{integer, items_append, no_items};
ghost use Rattle.machine_file.specs.Questions.{answer_to, check_topic, question_about};
ghost use Rattle.machine_file.specs.View.{machine_in};
ghost use Rattle.world.specs.Prelude.{Does, arguments_data, data_of, items_of};
ghost use Rattle.world.specs.Deed.{consult};
ghost use Rattle.methods.specs.CompilerMethods.{compiler_method, does, get_supported_arguments, argument_if_supported, number};
ghost use Rattle.methods.specs.CompilerMethods.{supported_arguments};
ghost use Rattle.methods.specs.CompilerSaid.{argument_topic, is_true, integer_answer};

use crate::compiler::answers::{integer_answer, is_true};
use crate::compiler::checks::{ask_check, check, find_library};
use crate::compiler::rows::row;
use crate::machine_keys::read_key;
use crate::new_values::list_value;
use arguments::Arguments;
use machine_file::{Machine, Question, Topic};
use ports::{Outputs, Tree};
use std::alloc::{AllocError, Global};
use values::Value;
use values::language_names::{CompilerMethod, MethodName};
use world::{Caller, Stop};

fn integer_value(number: i64) -> Value
    ensures { data_of result ≡ integer number }
{
    Value::Integer(number as i128)
}

fn number_value(
    alloc: Global,
    machine: &Machine,
    method: &str,
    texts: &[&str],
) -> Result<Value, AllocError>
    ensures { IfOk result (λ v. data_of v
        ≡ integer (integer_answer (answer_to (machine_in machine.now) (check_topic method.now (map (λ t. t.now) texts.now))))) }
{
    let number = integer_answer(alloc, machine, method, texts)?;
    Ok(integer_value(number))
}

// Runs `sizeof(type)` or `alignment(type)`. The result is -1 if the machine file has none.
fn number<T: Tree, O: Outputs>(
    caller: &mut Caller<'_, T, O>,
    method: &str,
    arguments: &Arguments,
) -> Result<Option<Value>, Stop>
    ensures { Does T.seen O.seen (option_map data_of) (number method.now (arguments_data arguments.now)) caller.old result caller.new }
{
    let texts = arguments.all_texts(caller.alloc)?;
    ask_check(caller, method, &texts, arguments)?;
    let number = number_value(caller.alloc, caller.store.machine(), method, &texts)?;
    Ok(Some(number))
}

// ---- the arguments that the compiler supports

fn text_of(value: &Value) -> &str
    ensures { result.now ≡ text_or_none (Some (data_of value.now)) }
{
    match value.as_text() {
        Some(text) => text.as_str(),
        None => "",
    }
}

// Asks the machine file whether the compiler supports a value as an argument.
fn ask_argument<T: Tree, O: Outputs>(
    caller: &mut Caller<'_, T, O>,
    value: &Value,
) -> Result<(), Stop>
    ensures deed { Does T.seen O.seen
        (λ u. answer_to caller.old.store.now.machine (argument_topic (text_or_none (Some (data_of value.now)))))
        (consult (question_about (argument_topic (text_or_none (Some (data_of value.now)))))) caller.old result caller.new }
    ensures machine { caller.new.store.now.machine ≡ caller.old.store.now.machine }
{
    let topic = Topic::check(caller.alloc, "has_argument", &[text_of(value)])?;
    caller.ask(Question::about(caller.alloc, topic))
}

fn is_supported(alloc: Global, machine: &Machine, value: &Value) -> Result<bool, AllocError>
    ensures { IfOk result (λ b. b
        ≡ is_true (answer_to (machine_in machine.now) (argument_topic (text_or_none (Some (data_of value.now)))))) }
{
    is_true(alloc, machine, "has_argument", &[text_of(value)])
}

// Appends a value if the compiler supports it. The value is shared, and no byte is copied.
fn keep(
    alloc: Global,
    machine: &Machine,
    taken: &mut Vec<Value>,
    value: &Value,
) -> Result<(), AllocError>
    ensures { OnOk result (items_of taken.new.items ≡ items_append (items_of taken.old.items)
        (argument_if_supported (data_of value.now)
        (answer_to (machine_in machine.now) (argument_topic (text_or_none (Some (data_of value.now))))))) }
{
    if is_supported(alloc, machine, value)? {
        taken.push(value.clone()?)?;
    }
    Ok(())
}

// Returns the values that the compiler supports.
fn keep_supported<T: Tree, O: Outputs>(
    caller: &mut Caller<'_, T, O>,
    values: &[&Value],
) -> Result<Vec<Value>, Stop>
    ensures { Does T.seen O.seen (λ vs. items_of vs.items) (supported_arguments no_items (map (λ v. data_of v.now) values.now))
        caller.old result caller.new }
{
    let mut taken = Vec::new(caller.alloc);
    for value in values {
        ask_argument(caller, value)?;
        keep(caller.alloc, caller.store.machine(), &mut taken, value)?;
    }
    Ok(taken)
}

// Runs `get_supported_arguments(texts..)`.
fn get_supported_arguments<T: Tree, O: Outputs>(
    caller: &mut Caller<'_, T, O>,
    arguments: &Arguments,
) -> Result<Option<Value>, Stop>
    ensures { Does T.seen O.seen (option_map data_of) (get_supported_arguments (arguments_data arguments.now))
        caller.old result caller.new }
{
    let values = arguments.leaves_behind(caller.alloc, 0)?;
    let taken = keep_supported(caller, &values)?;
    let value = caller.settle(list_value(caller.alloc, taken))?;
    Ok(Some(value))
}

// ---- calls

// Runs a method with arguments that its row has accepted.
fn act<T: Tree, O: Outputs>(
    caller: &mut Caller<'_, T, O>,
    method: CompilerMethod,
    name: &str,
    arguments: &Arguments,
) -> Result<Option<Value>, Stop>
    ensures { Does T.seen O.seen (option_map data_of) (does method name.now (arguments_data arguments.now)) caller.old result caller.new }
{
    match method {
        CompilerMethod::Check => check(caller, name, arguments),
        CompilerMethod::CheckInside => check(caller, name, arguments),
        CompilerMethod::FindLibrary => find_library(caller, arguments),
        CompilerMethod::Id => read_key(caller, "compiler", "id", "gcc"),
        CompilerMethod::Number => number(caller, name, arguments),
        CompilerMethod::SupportedArguments => get_supported_arguments(caller, arguments),
        CompilerMethod::Version => read_key(caller, "compiler", "version", "unknown"),
    }
}

/// Checks the arguments of the method with a name by its row, and then runs it.
///
/// [`has_compiler_method`](crate::compiler::has_compiler_method) must be true for the name; any other name is refused with E8.
pub fn compiler_method<T: Tree, O: Outputs>(
    caller: &mut Caller<'_, T, O>,
    name: &MethodName,
    arguments: &Arguments,
) -> Result<Option<Value>, Stop>
    ensures { Does T.seen O.seen (option_map data_of) (compiler_method name.now (arguments_data arguments.now))
        caller.old result caller.new }
{
    match name.of_compiler() {
        Some(method) => {
            caller.fit(&row(method), arguments)?;
            act(caller, method, name.as_str(), arguments)
        }
        None => caller.refuse(support::faults::Refusal::UnknownFunction, ""),
    }
}
