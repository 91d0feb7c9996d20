//! Implements the methods of configuration data: the type `cfg_data` of the page "Reference manual".
ghost use Rattle.std.specs.Prelude.{◌≡◌, IfOk, map, option_and_then, option_map};
ghost use Rattle.arguments.specs.Given.{argument};
ghost use Rattle.template.specs.Config.{names, value_of};
ghost use Rattle.template.specs.ConfigData.{content_of};
ghost use Rattle.world.specs.Prelude.{Does, arguments_data, data_of, world_of};
ghost use Rattle.configuration_calls.specs.Contents.{content_in};
ghost use Rattle.configuration_calls.specs.Given.{entries_of, number_in};
ghost use Rattle.configuration_calls.specs.Methods.{configuration_method, content_given, does, get, has};
ghost use Rattle.configuration_calls.specs.Methods.{has_method, keys, merge_from, name_given, one_or_zero, other_given};
ghost use Rattle.configuration_calls.specs.Methods.{set, set10, set_text_quoted};

use crate::contents::{Quotes, content_in, is_placeholder_name, take_or};
use crate::rows::row_of;
use arguments::{Arguments, Rule};
use operations::operators::text_list;
use ports::{Outputs, Tree};
use std::alloc::{AllocError, Global};
use support::faults::Refusal;
use template::ConfigValue;
use values::language_names::{ConfigurationMethod, MethodName};
use values::{Object, Value};
use world::{Caller, Stop, Store};

/// Returns whether configuration data has a method with this name. It allocates nothing.
pub fn has_configuration_method(name: &MethodName) -> bool
    ensures { result ≡ has_method name.now }
{
    name.of_configuration().is_some()
}

// Returns the first argument of a call, and refuses with E9 one that is no name of configuration data.
fn name_given<'a, T: Tree, O: Outputs>(
    caller: &Caller<'_, T, O>,
    arguments: &'a Arguments,
) -> Result<&'a str, Stop>
    ensures { Does T.seen O.seen (λ n. n.now) (name_given (arguments_data arguments.now)) caller.now result caller.now }
{
    let name = arguments.text_at(0);
    caller.obey(is_placeholder_name(name), Rule::IsValueName, name)?;
    Ok(name)
}

// Returns the content of a name in the data with a number.
fn content_at<'s>(store: &'s Store, number: usize, name: &str) -> Option<&'s ConfigValue>
    ensures { option_map (λ c. content_of c.now) result ≡ value_of (entries_of (world_of store.now).facts number) name.now }
{
    match store.configuration(number) {
        Some(values) => values.get(name),
        None => None,
    }
}

// Returns the names in the data with a number.
fn names_at(alloc: Global, store: &Store, number: usize) -> Result<Vec<&str>, AllocError>
    ensures { IfOk result (λ v. map (λ n. n.now) v.items ≡ names (entries_of (world_of store.now).facts number)) }
{
    match store.configuration(number) {
        Some(values) => values.keys(),
        None => Ok(Vec::new(alloc)),
    }
}

fn get<T: Tree, O: Outputs>(
    caller: &Caller<'_, T, O>,
    number: usize,
    quotes: Quotes,
    arguments: &Arguments,
) -> Result<Option<Value>, Stop>
    ensures { Does T.seen O.seen (option_map data_of) (get number quotes (arguments_data arguments.now)) caller.now result caller.now }
{
    let name = name_given(caller, arguments)?;
    let content = content_at(caller.store, number, name);
    let value = caller.settle(take_or(caller.alloc, quotes, content, arguments.argument(1)))?;
    Ok(Some(value))
}

fn has<T: Tree, O: Outputs>(
    caller: &Caller<'_, T, O>,
    number: usize,
    arguments: &Arguments,
) -> Result<Option<Value>, Stop>
    ensures { Does T.seen O.seen (option_map data_of) (has number (arguments_data arguments.now)) caller.now result caller.now }
{
    let name = name_given(caller, arguments)?;
    let content = content_at(caller.store, number, name);
    Ok(Some(Value::Boolean(content.is_some())))
}

fn keys<T: Tree, O: Outputs>(
    caller: &Caller<'_, T, O>,
    number: usize,
) -> Result<Option<Value>, Stop>
    ensures { Does T.seen O.seen (option_map data_of) (keys number) caller.now result caller.now }
{
    let names = names_at(caller.alloc, caller.store, number)?;
    let answer = text_list(caller.alloc, &names)?;
    let value = caller.answer(answer)?;
    Ok(Some(value))
}

/// Returns the number of the configuration data of a value, and `None` for any other value.
pub fn number_in(value: &Value) -> Option<usize>
    ensures { result ≡ number_in (data_of value.now) }
{
    match value {
        Value::Object(object) => match &**object {
            Object::ConfigurationData(number) => Some(*number),
            _ => None,
        },
        _ => None,
    }
}

fn first_number(arguments: &Arguments) -> Option<usize>
    ensures { result ≡ option_and_then number_in (argument 0 (arguments_data arguments.now)) }
{
    match arguments.argument(0) {
        Some(value) => number_in(value),
        None => None,
    }
}

// Returns the number of the data given to a call.
fn other_given<T: Tree, O: Outputs>(
    caller: &Caller<'_, T, O>,
    arguments: &Arguments,
) -> Result<usize, Stop>
    ensures { Does T.seen O.seen (λ n. n) (other_given (arguments_data arguments.now)) caller.now result caller.now }
{
    caller.fitting(first_number(arguments).ok_or(Refusal::Arguments))
}

fn merge_from<T: Tree, O: Outputs>(
    caller: &mut Caller<'_, T, O>,
    number: usize,
    arguments: &Arguments,
) -> Result<Option<Value>, Stop>
    ensures { Does T.seen O.seen (option_map data_of) (merge_from number (arguments_data arguments.now)) caller.old result caller.new }
{
    let other = other_given(caller, arguments)?;
    let others = caller.store.copy_of_configuration(caller.alloc, other)?;
    caller.merge_configured(number, &others)?;
    Ok(None)
}

fn content_or_none(alloc: Global, value: Option<&Value>) -> Result<Option<ConfigValue>, AllocError>
    ensures { IfOk result (λ c. option_map content_of c ≡ option_and_then content_in (option_map (λ v. data_of v.now) value.entry)) }
{
    match value {
        Some(value) => content_in(alloc, value),
        None => Ok(None),
    }
}

// Returns the value that a call sets.
fn content_given<T: Tree, O: Outputs>(
    caller: &Caller<'_, T, O>,
    arguments: &Arguments,
) -> Result<ConfigValue, Stop>
    ensures { Does T.seen O.seen content_of (content_given (arguments_data arguments.now)) caller.now result caller.now }
{
    let found = content_or_none(caller.alloc, arguments.argument(1))?;
    caller.fitting(found.ok_or(Refusal::Arguments))
}

fn set<T: Tree, O: Outputs>(
    caller: &mut Caller<'_, T, O>,
    number: usize,
    arguments: &Arguments,
) -> Result<Option<Value>, Stop>
    ensures { Does T.seen O.seen (option_map data_of) (set number (arguments_data arguments.now)) caller.old result caller.new }
{
    let name = name_given(caller, arguments)?;
    let content = content_given(caller, arguments)?;
    caller.set_configured(number, name, content)?;
    Ok(None)
}

fn one_or_zero(is_so: bool) -> ConfigValue
    ensures { content_of result ≡ one_or_zero is_so }
{
    ConfigValue::Integer(if is_so { 1 } else { 0 })
}

fn set10<T: Tree, O: Outputs>(
    caller: &mut Caller<'_, T, O>,
    number: usize,
    arguments: &Arguments,
) -> Result<Option<Value>, Stop>
    ensures { Does T.seen O.seen (option_map data_of) (set10 number (arguments_data arguments.now)) caller.old result caller.new }
{
    let name = name_given(caller, arguments)?;
    let content = one_or_zero(arguments.flag_at(1, false));
    caller.set_configured(number, name, content)?;
    Ok(None)
}

fn set_text_quoted<T: Tree, O: Outputs>(
    caller: &mut Caller<'_, T, O>,
    number: usize,
    arguments: &Arguments,
) -> Result<Option<Value>, Stop>
    ensures { Does T.seen O.seen (option_map data_of) (set_text_quoted number (arguments_data arguments.now)) caller.old result caller.new }
{
    let name = name_given(caller, arguments)?;
    caller.set_quoted(number, name, arguments.text_at(1))?;
    Ok(None)
}

// Runs a method with arguments that its row has accepted.
fn act<T: Tree, O: Outputs>(
    caller: &mut Caller<'_, T, O>,
    method: ConfigurationMethod,
    number: usize,
    arguments: &Arguments,
) -> Result<Option<Value>, Stop>
    ensures { Does T.seen O.seen (option_map data_of) (does method number (arguments_data arguments.now)) caller.old result caller.new }
{
    match method {
        ConfigurationMethod::Get => get(caller, number, Quotes::Kept, arguments),
        ConfigurationMethod::GetUnquoted => get(caller, number, Quotes::Cut, arguments),
        ConfigurationMethod::Has => has(caller, number, arguments),
        ConfigurationMethod::Keys => keys(caller, number),
        ConfigurationMethod::MergeFrom => merge_from(caller, number, arguments),
        ConfigurationMethod::Set => set(caller, number, arguments),
        ConfigurationMethod::Set10 => set10(caller, number, arguments),
        ConfigurationMethod::SetQuoted => set_text_quoted(caller, number, arguments),
    }
}

/// Checks the arguments of a method of the data with a number by its row, and then runs it. It returns a value or `None`.
///
/// [`has_configuration_method`] must be true for the name; any other name is refused with E8.
pub fn configuration_method<T: Tree, O: Outputs>(
    caller: &mut Caller<'_, T, O>,
    number: usize,
    name: &MethodName,
    arguments: &Arguments,
) -> Result<Option<Value>, Stop>
    ensures { Does T.seen O.seen (option_map data_of) (configuration_method number name.now (arguments_data arguments.now))
        caller.old result caller.new }
{
    match name.of_configuration() {
        Some(method) => {
            caller.fit(&row_of(method), arguments)?;
            act(caller, method, number, arguments)
        }
        None => caller.refuse(Refusal::UnknownFunction, ""),
    }
}
