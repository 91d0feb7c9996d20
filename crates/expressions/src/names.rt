//! Looks names up: of variables, of functions, and of the methods of values.
ghost use Rattle.std.specs.Prelude.{◌≡◌, ◌<◌, ◌||◌, ◌&&◌, ℕ, IfOk, [], false, length, map, option_map, slice_index_or};
ghost use Rattle.arguments.specs.Misfits.{arguments_check};
ghost use Rattle.arguments.specs.Rows.{any_values};
ghost use Rattle.operations.specs.methods.Methods.{has_name};
ghost use Rattle.world.specs.Prelude.{arguments_data, data_of, failures_after};
ghost use Rattle.expressions.specs.Forms.{asked_of, disabler_method, check_at_line, function_at, function_inside, known_value};
ghost use Rattle.expressions.specs.Forms.{known_method};
ghost use Rattle.expressions.specs.Forms.{may_be_asked_first, may_come_first, method_answered, predefined_object, value_method, variable};

use crate::context::Context;
use crate::details::method_detail;
use arguments::{Arguments, any_values, check};
use operations::methods::{has_method, method};
use ports::{Outputs, Tree};
use std::alloc::{AllocError, Global};
use std::sync::ledger::Ledger;
use support::faults::Refusal;
use values::language_names::{
    Function, FunctionName, MethodName, is_left_out, is_predefined, predefined_value,
};
use values::{Object, Value};
use world::{Stop, of_operation};

// Returns whether a function may be called in the arguments of `project`.
fn may_come_first(function: Function) -> bool
    ensures { result ≡ Rattle.expressions.specs.Forms.may_come_first function }
{
    matches!(function, Function::Disabler | Function::SubdirDone)
}

// Returns whether an object's methods may be called in the arguments of `project`.
fn may_be_asked_first(object: &Object) -> bool
    ensures { result ≡ Rattle.expressions.specs.Forms.may_be_asked_first object.now }
{
    !matches!(object, Object::Meson)
}

fn is_empty(arguments: &Arguments) -> bool
    ensures { result ≡ Rattle.expressions.specs.Forms.is_empty (arguments_data arguments.now) }
{
    match (arguments.positional.as_slice(), arguments.named.as_slice()) {
        ([], []) => true,
        _ => false,
    }
}

/// Returns the result of a method of a disabler: `found()` is false, and any other method returns a disabler.
pub fn disabler_method(
    alloc: Global,
    name: &MethodName,
    arguments: &Arguments,
) -> Result<Value, AllocError>
    ensures { IfOk result (λ v. data_of v ≡ disabler_method name.now (arguments_data arguments.now)) }
{
    if name.as_str() == "found" && is_empty(arguments) {
        Ok(Value::Boolean(false))
    } else {
        Value::of_object(alloc, Object::Disabler)
    }
}

impl<'a, T: Tree, O: Outputs, L: Ledger> Context<'a, T, O, L> {
    ghost use Rattle.expressions.specs.Contexts.{Answers};

    /// Returns the object of a predefined variable.
    pub fn thing(&self, name: &str) -> Result<Value, Stop>
        ensures gives { Answers T.seen O.seen data_of (predefined_object name.now) self.now result self.now }
        ensures quiet { (n : ℕ) → failures_after n result ≡ n }
    {
        let value = predefined_value(self.alloc, name)?;
        Ok(value)
    }

    /// Returns the value of the variable whose name has this number, and refuses one without a value with E5.
    #[inline(always)]
    pub fn variable(&self, number: usize, line: usize) -> Result<Value, Stop>
        ensures gives { number < length self.now.store.now.names
            → Answers T.seen O.seen data_of (variable line (slice_index_or self.now.store.now.names number [])) self.now result self.now }
        ensures quiet { (n : ℕ) → failures_after n result ≡ n }
    {
        let name = self.store.name(number);
        if is_predefined(name) {
            return Ok(self.thing(name)?);
        }
        let value = self.store.value(number)?;
        self.require_known(line, name, value)
    }

    /// Returns the value of the variable with a name, and refuses one without a value with E5. The name is tried at this number first.
    pub fn variable_at(&self, line: usize, number: Option<usize>, name: &str) -> Result<Value, Stop>
        ensures gives { Answers T.seen O.seen data_of (variable line name.now) self.now result self.now }
        ensures quiet { (n : ℕ) → failures_after n result ≡ n }
    {
        if is_predefined(name) {
            return self.thing(name);
        }
        let value = self.store.find_at(number, name)?;
        self.require_known(line, name, value)
    }

    // Returns the value of a variable, and refuses one without a value with E5.
    fn require_known(&self, line: usize, name: &str, value: Option<Value>) -> Result<Value, Stop>
        ensures gives { Answers T.seen O.seen data_of (known_value line name.now (option_map data_of value)) self.now result self.now }
        ensures quiet { (n : ℕ) → failures_after n result ≡ n }
    {
        match value {
            Some(value) => Ok(value),
            None => Ok(self.refuse(line, Refusal::UndefinedName, name)?),
        }
    }

    /// Returns the function with a name. Refuses an unsupported function of Meson with E23, and any other unknown name with E8.
    pub fn function_at(&self, line: usize, name: &FunctionName) -> Result<Function, Stop>
        ensures gives { Answers T.seen O.seen (λ f. f) (function_at line name.now) self.now result self.now }
        ensures quiet { (n : ℕ) → failures_after n result ≡ n }
    {
        match name.function() {
            Some(function) => Ok(function),
            None => {
                let text = name.as_str();
                if is_left_out(text) {
                    self.refuse_left_out(line, text)
                } else {
                    self.refuse(line, Refusal::UnknownFunction, text)
                }
            }
        }
    }

    // Returns whether a function may already be called inside an expression.
    fn is_allowed(&self, function: Function) -> bool
        ensures { result ≡ (self.now.store.now.is_begun || may_come_first function) }
    {
        self.store.is_begun() || may_come_first(function)
    }

    /// Returns the function of a call that is part of an expression. In addition to the refusals of `function_at`, it refuses most
    /// functions before `project` with E13.
    pub fn function_inside(&self, line: usize, name: &FunctionName) -> Result<Function, Stop>
        ensures gives { Answers T.seen O.seen (λ f. f) (function_inside line name.now) self.now result self.now }
        ensures quiet { (n : ℕ) → failures_after n result ≡ n }
    {
        let function = self.function_at(line, name)?;
        let is_allowed = self.is_allowed(function);
        if is_allowed {
            Ok(function)
        } else {
            self.refuse(line, Refusal::ProjectCall, "")
        }
    }

    // Returns whether an object's methods may already be called.
    fn may_be_asked(&self, object: &Object) -> bool
        ensures { result ≡ (self.now.store.now.is_begun || may_be_asked_first object.now) }
    {
        self.store.is_begun() || may_be_asked_first(object)
    }

    /// Refuses a method of an object that may not be called before `project` (E13).
    pub fn allow_asking(&self, line: usize, object: &Object) -> Result<(), Stop>
        ensures gives { Answers T.seen O.seen (λ u. u) (asked_of line object.now) self.now result self.now }
        ensures quiet { (n : ℕ) → failures_after n result ≡ n }
    {
        let may_be_asked = self.may_be_asked(object);
        if may_be_asked {
            Ok(())
        } else {
            self.refuse(line, Refusal::ProjectCall, "")
        }
    }

    /// Refuses a name that no method of a value has (E8).
    pub fn value_method_at(&self, line: usize, whole: &Value, name: &MethodName) -> Result<(), Stop>
        ensures gives { Answers T.seen O.seen (λ u. u) (known_method (has_name (data_of whole.now) name.now) line name.now)
            self.now result self.now }
        ensures quiet { (n : ℕ) → failures_after n result ≡ n }
    {
        if has_method(whole, name) {
            Ok(())
        } else {
            self.refuse(line, Refusal::UnknownFunction, name.as_str())
        }
    }

    // Returns the result of a method of a value, or stops with its refusal and detail.
    fn method_answered(
        &self,
        line: usize,
        whole: &Value,
        name: &MethodName,
        values: &[Value],
    ) -> Result<Value, Stop>
        ensures gives { Answers T.seen O.seen data_of
            (method_answered line (data_of whole.now) name.now (map data_of values.now)) self.now result self.now }
        ensures quiet { (n : ℕ) → failures_after n result ≡ n }
    {
        match method(self.alloc, whole, name, values)? {
            Ok(value) => Ok(value),
            Err(refusal) => {
                let detail = method_detail(self.alloc, whole, name, values, refusal)?;
                self.refuse(line, of_operation(refusal), detail.as_str())
            }
        }
    }

    // Refuses keyword arguments, which no method of a value takes. Positional arguments of any type and number are accepted here.
    fn require_no_keyword(&self, line: usize, arguments: &Arguments) -> Result<(), Stop>
        ensures gives { Answers T.seen O.seen (λ u. u) (check_at_line line (arguments_check any_values (arguments_data arguments.now)))
            self.now result self.now }
        ensures quiet { (n : ℕ) → failures_after n result ≡ n }
    {
        if arguments.named.is_empty() {
            return Ok(());
        }
        let fits = check(self.alloc, &any_values(), arguments)?;
        self.fit(line, fits)
    }

    /// Calls a method of a value other than an object, and returns its result.
    pub fn value_method(
        &self,
        line: usize,
        whole: &Value,
        name: &MethodName,
        arguments: &Arguments,
    ) -> Result<Option<Value>, Stop>
        ensures gives { Answers T.seen O.seen (option_map data_of)
            (value_method line (data_of whole.now) name.now (arguments_data arguments.now)) self.now result self.now }
        ensures quiet { (n : ℕ) → failures_after n result ≡ n }
    {
        self.require_no_keyword(line, arguments)?;
        let value = self.method_answered(line, whole, name, &arguments.positional)?;
        Ok(Some(value))
    }
}
