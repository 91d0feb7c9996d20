//! Implements the functions that take the name of a variable as a text.
ghost use Rattle.std.specs.Prelude.{◌≡◌, ◌&&◌, ◌||◌, is_some, option_map};
ghost use Rattle.values.specs.language_names.Names.{is_predefined};
ghost use Rattle.world.specs.Prelude.{Does, arguments_data, data_of};
ghost use Rattle.language_calls.specs.Variables.{get_variable, is_settable, is_variable, set_or, set_to, set_variable};
ghost use Rattle.language_calls.specs.Variables.{unset_variable};
ghost use Rattle.language_calls.specs.Variables.{predefined_variable, value_or, variable_or};

use arguments::{Arguments, Rule};
use ports::{Outputs, Tree};
use support::faults::Refusal;
use values::Value;
use values::language_names::{is_predefined, is_variable_name, predefined_value};
use world::{Caller, Stop};

// Returns whether definition files may assign a variable with this name.
fn is_settable(name: &str) -> bool
    ensures { result ≡ is_settable name.now }
{
    is_variable_name(name) && !is_predefined(name)
}

// Returns whether a variable has a value.
fn is_known(value: Option<Value>) -> bool
    ensures { result ≡ is_some (option_map data_of value) }
{
    value.is_some()
}

// Returns whether a name is predefined, or its variable has a value.
fn is_set(name: &str, value: Option<Value>) -> bool
    ensures { result ≡ (is_predefined name.now || is_some (option_map data_of value)) }
{
    is_predefined(name) || is_known(value)
}

// Assigns a value to a variable. The row of the call makes sure that there is a value.
fn set_to<T: Tree, O: Outputs>(
    caller: &mut Caller<'_, T, O>,
    name: &str,
    value: Option<&Value>,
) -> Result<(), Stop>
    ensures { Does T.seen O.seen (λ u. u) (set_to name.now (option_map (λ v. data_of v.now) value.entry)) caller.old result caller.new }
{
    match value {
        Some(value) => {
            let value = value.clone()?;
            caller.store.set(name, value)?;
            Ok(())
        }
        None => caller.refuse(Refusal::Arguments, ""),
    }
}

/// Runs `set_variable(name, value)`.
pub fn set_variable<T: Tree, O: Outputs>(
    caller: &mut Caller<'_, T, O>,
    arguments: &Arguments,
) -> Result<Option<Value>, Stop>
    ensures { Does T.seen O.seen (option_map data_of) (set_variable (arguments_data arguments.now)) caller.old result caller.new }
{
    let name = arguments.text_at(0);
    caller.obey(is_settable(name), Rule::IsSettable, name)?;
    set_to(caller, name, arguments.argument(1))?;
    Ok(None)
}

// Returns the value of a variable, and otherwise the fallback. Without either it refuses with E5.
fn value_or<T: Tree, O: Outputs>(
    caller: &Caller<'_, T, O>,
    name: &str,
    value: Option<Value>,
    fallback: Option<&Value>,
) -> Result<Option<Value>, Stop>
    ensures { Does T.seen O.seen (option_map data_of)
        (value_or name.now (option_map data_of value) (option_map (λ v. data_of v.now) fallback.entry)) caller.now result caller.now }
{
    match value {
        Some(value) => Ok(Some(value)),
        None => match fallback {
            Some(fallback) => Ok(Some(fallback.clone()?)),
            None => caller.refuse(Refusal::UndefinedName, name),
        },
    }
}

// Returns the value of a variable that definition files assign, and otherwise the fallback.
fn set_or<T: Tree, O: Outputs>(
    caller: &Caller<'_, T, O>,
    name: &str,
    fallback: Option<&Value>,
) -> Result<Option<Value>, Stop>
    ensures { Does T.seen O.seen (option_map data_of) (set_or name.now (option_map (λ v. data_of v.now) fallback.entry))
        caller.now result caller.now }
{
    let value = caller.store.find(name)?;
    value_or(caller, name, value, fallback)
}

// Returns the object of a predefined variable.
fn thing<T: Tree, O: Outputs>(caller: &Caller<'_, T, O>, name: &str) -> Result<Option<Value>, Stop>
    ensures { Does T.seen O.seen (option_map data_of) (predefined_variable name.now) caller.now result caller.now }
{
    let value = predefined_value(caller.alloc, name)?;
    Ok(Some(value))
}

// Returns the value of a variable, and otherwise the fallback. A predefined name gives its object.
fn variable_or<T: Tree, O: Outputs>(
    caller: &Caller<'_, T, O>,
    name: &str,
    fallback: Option<&Value>,
) -> Result<Option<Value>, Stop>
    ensures { Does T.seen O.seen (option_map data_of)
        (variable_or (is_predefined name.now) name.now (option_map (λ v. data_of v.now) fallback.entry)) caller.now result caller.now }
{
    if is_predefined(name) {
        thing(caller, name)
    } else {
        set_or(caller, name, fallback)
    }
}

/// Runs `get_variable(name, fallback)`, which refuses a variable without a value or fallback with E5.
pub fn get_variable<T: Tree, O: Outputs>(
    caller: &Caller<'_, T, O>,
    arguments: &Arguments,
) -> Result<Option<Value>, Stop>
    ensures { Does T.seen O.seen (option_map data_of) (get_variable (arguments_data arguments.now)) caller.now result caller.now }
{
    let name = arguments.text_at(0);
    caller.obey(is_variable_name(name), Rule::IsVariableName, name)?;
    variable_or(caller, name, arguments.argument(1))
}

/// Runs `is_variable(name)`.
pub fn is_variable<T: Tree, O: Outputs>(
    caller: &Caller<'_, T, O>,
    arguments: &Arguments,
) -> Result<Option<Value>, Stop>
    ensures { Does T.seen O.seen (option_map data_of) (is_variable (arguments_data arguments.now)) caller.now result caller.now }
{
    let name = arguments.text_at(0);
    caller.obey(is_variable_name(name), Rule::IsVariableName, name)?;
    let value = caller.store.find(name)?;
    Ok(Some(Value::Boolean(is_set(name, value))))
}

/// Runs `unset_variable(name)`, which refuses a variable without a value with E5.
pub fn unset_variable<T: Tree, O: Outputs>(
    caller: &mut Caller<'_, T, O>,
    arguments: &Arguments,
) -> Result<Option<Value>, Stop>
    ensures { Does T.seen O.seen (option_map data_of) (unset_variable (arguments_data arguments.now)) caller.old result caller.new }
{
    let name = arguments.text_at(0);
    caller.obey(is_settable(name), Rule::IsSettable, name)?;
    let value = caller.store.find(name)?;
    caller.need(is_known(value), Refusal::UndefinedName, name)?;
    caller.store.unset(name);
    Ok(None)
}
