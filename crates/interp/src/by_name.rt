//! Looks up and calls functions and methods by their names.
ghost use Rattle.std.specs.Prelude.{◌≡◌, IfErr, IfOk, None, OnErr, Some, map, option_map};
ghost use Rattle.interp.specs.ByName.{call_by_name, result_without_value, function_call, function_called, function_of, known_name, lookup};
ghost use Rattle.interp.specs.ByName.{method_answered};
ghost use Rattle.interp.specs.ByName.{method_call, method_called, method_of, refusal_of_name, value_method};
ghost use Rattle.methods.specs.Left.{is_left_out as is_left_out_of};
ghost use Rattle.methods.specs.Methods.{has_method as has_method_of};
ghost use Rattle.values.specs.language_names.Functions.{function_named};
ghost use Rattle.world.specs.Prelude.{Does, MayFail, Refuses, arguments_data, data_of, state_of, within_bytes, world_of};
ghost use Rattle.world.specs.World.{fault_here};

use crate::functions;
use arguments::{Arguments, any_values, gives_disabler};
use expressions::{disabler_method, method_detail};
use language_calls::disabler_effect::is_turned_off;
use methods::{has_object_method, is_left_out_method, object_method};
use operations::methods::{has_method, method};
use ports::{Outputs, Tree};
use std::alloc::{AllocError, Global};
use std::marker::Model;
use support::faults::Refusal;
use values::language_names::{Function, FunctionName, MethodName, is_left_out};
use values::{Object, Text, Value};
use world::{Caller, Stop, of_operation};

/// Holds the name of a function or of a method. `CallName::new` looks the text up once, so later calls compare no names. Contracts see a
/// name as its text.
#[derive(Drop)]
pub struct CallName {
    function: FunctionName,
    method: MethodName,
}

impl Model for CallName {
    ghost use Rattle.std.specs.Prelude.{◌≡◌, List, ℕ};

    ghost Value = { List ℕ };

    ghost view = { λ n. n.function };

    ghost invariant = { λ n. n.method ≡ n.function };
}

impl CallName {
    /// Returns the name with this text. Fails with E22 if the text is longer than a text value can be.
    pub fn new(
        alloc: Global,
        text: &str,
    ) -> Result<Result<CallName, values::OperationRefusal>, AllocError>
        ensures { IfOk result (λ r. r ≡ within_bytes text.now) }
    {
        match Text::of_str(alloc, text)? {
            Ok(text) => {
                let function = FunctionName::new(text.clone()?);
                let method = MethodName::new(text);
                Ok(Ok(CallName { function, method }))
            }
            Err(refusal) => Ok(Err(refusal)),
        }
    }

    /// Returns the text.
    pub fn as_str(&self) -> &str
        ensures { result.now ≡ self.now }
    {
        self.function.as_str()
    }

    // Returns the function with this name.
    fn function(&self) -> Option<Function>
        ensures { result ≡ function_named self.now }
    {
        self.function.function()
    }

    // Returns the name in the form that methods take.
    fn method(&self) -> &MethodName
        ensures { result.now ≡ self.now }
    {
        &self.method
    }
}

// Returns the refusal of a name that names nothing.
fn unnamed(is_left_out: bool) -> Refusal
    ensures { result ≡ refusal_of_name is_left_out }
{
    if is_left_out {
        Refusal::LeftOut
    } else {
        Refusal::UnknownFunction
    }
}

// Returns the function with a name. Fails with E23 if Meson has the function and this program leaves it out, or with E8 if the name is
// unknown.
fn function_of(name: &CallName) -> Result<Function, Refusal>
    ensures { result ≡ function_of name.now }
{
    match name.function() {
        Some(function) => Ok(function),
        None => Err(unnamed(is_left_out(name.as_str()))),
    }
}

// Succeeds if there is a method. Fails with E23 if its name is left out, or else with E8.
fn known(is_there: bool, is_left_out: bool) -> Result<(), Refusal>
    ensures { result ≡ known_name is_there is_left_out }
{
    if is_there {
        Ok(())
    } else {
        Err(unnamed(is_left_out))
    }
}

// Looks up a method of an object.
fn object_method_of(object: &Object, name: &CallName) -> Result<(), Refusal>
    ensures { result ≡ known_name (has_method_of object.now name.now) (is_left_out_of object.now name.now) }
{
    let is_there = has_object_method(object, name.method());
    let is_left_out = is_left_out_method(object, name.as_str());
    known(is_there, is_left_out)
}

// Looks up a method of a receiver. A disabler has every method.
fn method_of(receiver: &Value, name: &CallName) -> Result<(), Refusal>
    ensures { result ≡ method_of (data_of receiver.now) name.now }
{
    if receiver.is_disabler() {
        return Ok(());
    }
    match receiver.as_object() {
        Some(object) => object_method_of(object, name),
        None => known(has_method(receiver, name.method()), false),
    }
}

// Looks up a function.
fn function_known(name: &CallName) -> Result<(), Refusal>
    ensures { result ≡ result_without_value (function_of name.now) }
{
    match function_of(name) {
        Ok(_) => Ok(()),
        Err(refusal) => Err(refusal),
    }
}

/// Looks up a function, or a method of the receiver if there is one. Fails with E23 if the name is left out, or with E8 if it is unknown.
/// Allocates nothing.
pub fn lookup(receiver: Option<&Value>, name: &CallName) -> Result<(), Refusal>
    ensures { result ≡ lookup (option_map (λ v. data_of v.now) receiver.entry) name.now }
{
    match receiver {
        Some(receiver) => method_of(receiver, name),
        None => function_known(name),
    }
}

// Calls a function on evaluated arguments. A disabler among them turns the call off.
fn function_called<T: Tree, O: Outputs>(
    caller: &mut Caller<'_, T, O>,
    function: Function,
    arguments: &Arguments,
) -> Result<Option<Value>, Stop>
    requires { MayFail T.seen O.seen caller.old }
    ensures { Does T.seen O.seen (option_map data_of) (function_called function (arguments_data arguments.now)) caller.old result
        caller.new }
{
    if is_turned_off(function, arguments) {
        return Ok(Some(Value::of_object(caller.alloc, Object::Disabler)?));
    }
    functions::call(caller, function, arguments)
}

// Returns the value of a method of a plain value. A refusal gets its details.
fn method_answered<T: Tree, O: Outputs>(
    caller: &Caller<'_, T, O>,
    receiver: &Value,
    name: &MethodName,
    values: &[Value],
) -> Result<Value, Stop>
    ensures { Does T.seen O.seen data_of (method_answered (data_of receiver.now) name.now (map data_of values.now))
        caller.now result caller.now }
{
    match method(caller.alloc, receiver, name, values)? {
        Ok(value) => Ok(value),
        Err(refusal) => {
            let detail = method_detail(caller.alloc, receiver, name, values, refusal)?;
            caller.refuse(of_operation(refusal), detail.as_str())
        }
    }
}

// Calls a method of a value that is no object.
fn value_method<T: Tree, O: Outputs>(
    caller: &Caller<'_, T, O>,
    receiver: &Value,
    name: &MethodName,
    arguments: &Arguments,
) -> Result<Option<Value>, Stop>
    ensures { Does T.seen O.seen (option_map data_of) (value_method (data_of receiver.now) name.now (arguments_data arguments.now))
        caller.now result caller.now }
{
    caller.fit(&any_values(), arguments)?;
    let value = method_answered(caller, receiver, name, &arguments.positional)?;
    Ok(Some(value))
}

// Calls a method of a receiver on evaluated arguments. A disabler among them turns the call off.
fn method_called<T: Tree, O: Outputs>(
    caller: &mut Caller<'_, T, O>,
    receiver: &Value,
    name: &MethodName,
    arguments: &Arguments,
) -> Result<Option<Value>, Stop>
    requires { MayFail T.seen O.seen caller.old }
    ensures { Does T.seen O.seen (option_map data_of) (method_called (data_of receiver.now) name.now (arguments_data arguments.now))
        caller.old result caller.new }
{
    if receiver.is_disabler() {
        return Ok(Some(disabler_method(caller.alloc, name, arguments)?));
    }
    if gives_disabler(arguments) {
        return Ok(Some(Value::of_object(caller.alloc, Object::Disabler)?));
    }
    match receiver.as_object() {
        Some(object) => object_method(caller, object, name, arguments),
        None => value_method(caller, receiver, name, arguments),
    }
}

// Looks up a function and calls it.
fn call_function<T: Tree, O: Outputs>(
    caller: &mut Caller<'_, T, O>,
    name: &CallName,
    arguments: &Arguments,
) -> Result<Option<Value>, Stop>
    requires { MayFail T.seen O.seen caller.old }
    ensures does { Does T.seen O.seen (option_map data_of) (function_call (function_of name.now) name.now (arguments_data arguments.now))
        caller.old result caller.new }
    ensures refused { IfErr (lookup None name.now)
        (λ refusal. Refuses (fault_here (world_of caller.old.store.now) refusal name.now) result) }
    ensures same { OnErr (lookup None name.now) (state_of T.seen O.seen caller.new ≡ state_of T.seen O.seen caller.old) }
{
    match function_of(name) {
        Ok(function) => function_called(caller, function, arguments),
        Err(refusal) => caller.refuse(refusal, name.as_str()),
    }
}

// Looks up a method of a receiver and calls it.
fn call_method<T: Tree, O: Outputs>(
    caller: &mut Caller<'_, T, O>,
    receiver: &Value,
    name: &CallName,
    arguments: &Arguments,
) -> Result<Option<Value>, Stop>
    requires { MayFail T.seen O.seen caller.old }
    ensures does { Does T.seen O.seen (option_map data_of)
        (method_call (method_of (data_of receiver.now) name.now) (data_of receiver.now) name.now (arguments_data arguments.now))
        caller.old result caller.new }
    ensures refused { IfErr (lookup (Some (data_of receiver.now)) name.now)
        (λ refusal. Refuses (fault_here (world_of caller.old.store.now) refusal name.now) result) }
    ensures same { OnErr (lookup (Some (data_of receiver.now)) name.now)
        (state_of T.seen O.seen caller.new ≡ state_of T.seen O.seen caller.old) }
{
    match method_of(receiver, name) {
        Ok(()) => method_called(caller, receiver, name.method(), arguments),
        Err(refusal) => caller.refuse(refusal, name.as_str()),
    }
}

/// Calls a function by its name, or a method of the receiver if there is one, on evaluated arguments. Returns the value of the call, or
/// `None` if it has none.
///
/// First the name is looked up, as [`lookup`] does. If it is refused, the caller stays unchanged. Then a disabler among the arguments turns
/// the call off. Then the arguments are checked against what the function or method takes.
///
/// `subdir` checks its arguments and does nothing else: only [`evaluate`](crate::evaluate) enters folders. Only `evaluate` requires that
/// `project` is called first.
pub fn call<T: Tree, O: Outputs>(
    caller: &mut Caller<'_, T, O>,
    receiver: Option<&Value>,
    name: &CallName,
    arguments: &Arguments,
) -> Result<Option<Value>, Stop>
    requires { MayFail T.seen O.seen caller.old }
    ensures does { Does T.seen O.seen (option_map data_of)
        (call_by_name (option_map (λ v. data_of v.now) receiver.entry) name.now (arguments_data arguments.now)) caller.old result
        caller.new }
    ensures refused { IfErr (lookup (option_map (λ v. data_of v.now) receiver.entry) name.now)
        (λ refusal. Refuses (fault_here (world_of caller.old.store.now) refusal name.now) result) }
    ensures same { OnErr (lookup (option_map (λ v. data_of v.now) receiver.entry) name.now)
        (state_of T.seen O.seen caller.new ≡ state_of T.seen O.seen caller.old) }
{
    match receiver {
        Some(receiver) => call_method(caller, receiver, name, arguments),
        None => call_function(caller, name, arguments),
    }
}
