//! Calls functions, and methods of values.
ghost use Rattle.std.specs.Prelude.{◌≡◌, ℕ, option_map};
ghost use Rattle.expressions.specs.Contexts.{Answers, Fails, HasRoom, Same};
ghost use Rattle.world.specs.Prelude.{arguments_data, data_of, failures_after};
ghost use Rattle.interp.specs.Expressions.{plan_of_call, method_at, method_called, object_method_at, object_method_called};

use crate::evaluator::Evaluator;
use crate::functions::call;
use arguments::{Arguments, gives_disabler};
use expressions::{Context, disabler_method};
use language_calls::disabler_effect::is_turned_off;
use methods::{has_object_method, is_left_out_method, object_method};
use ports::{Outputs, Tree};
use std::sync::ledger::Ledger;
use support::faults::Refusal;
use values::language_names::{Function, MethodName};
use values::{Object, Value};
use world::{Caller, Stop};

/// Calls a function on evaluated arguments. Returns its value, or `None` if it has none. A disabler among the arguments turns the call off.
pub fn call_function<T: Tree, O: Outputs, L: Ledger>(
    context: &mut Context<'_, T, O, L>,
    line: usize,
    function: Function,
    arguments: &Arguments,
) -> Result<Option<Value>, Stop>
    requires room { HasRoom T.seen O.seen context.old }
    ensures same { Same context.old context.new }
    ensures device { Fails T.seen O.seen context.old result context.new }
    ensures gives { Answers T.seen O.seen (option_map data_of) (plan_of_call line function (arguments_data arguments.now))
        context.old result context.new }
{
    if is_turned_off(function, arguments) {
        return Ok(Some(Value::of_object(context.alloc, Object::Disabler)?));
    }
    context.store.at(line);
    let mut caller = Caller {
        alloc: context.alloc,
        store: context.store,
        tree: context.tree,
        out: context.out,
    };
    call(&mut caller, function, arguments)
}

// Calls a method of an object on its arguments, at a line.
fn object_method_of<T: Tree, O: Outputs, L: Ledger>(
    context: &mut Context<'_, T, O, L>,
    line: usize,
    object: &Object,
    name: &MethodName,
    arguments: &Arguments,
) -> Result<Option<Value>, Stop>
    requires room { HasRoom T.seen O.seen context.old }
    ensures same { Same context.old context.new }
    ensures device { Fails T.seen O.seen context.old result context.new }
    ensures gives { Answers T.seen O.seen (option_map data_of)
        (object_method_called line object.now name.now (arguments_data arguments.now)) context.old result context.new }
{
    context.store.at(line);
    let mut caller = Caller {
        alloc: context.alloc,
        store: context.store,
        tree: context.tree,
        out: context.out,
    };
    object_method(&mut caller, object, name, arguments)
}

impl<'a, T: Tree, O: Outputs, L: Ledger> Evaluator<'a, T, O, L> {
    // Refuses a name that no method of an object has, and an object that may not be queried yet.
    fn object_method_at(&self, line: usize, object: &Object, name: &MethodName) -> Result<(), Stop>
        ensures gives { Answers T.seen O.seen (λ u. u) (object_method_at line object.now name.now)
            self.now.context result self.now.context }
        ensures quiet { (n : ℕ) → failures_after n result ≡ n }
    {
        if has_object_method(object, name) {
            return self.context.allow_asking(line, object);
        }
        let text = name.as_str();
        if is_left_out_method(object, text) {
            self.context.refuse_left_out(line, text)
        } else {
            self.context.refuse(line, Refusal::UnknownFunction, text)
        }
    }

    /// Fails with E8 for a name that no method of a receiver has, and with E23 for one that is left out. Fails with E13 for an object that
    /// may not be queried yet. A disabler takes any name.
    pub fn method_at(&self, line: usize, whole: &Value, name: &MethodName) -> Result<(), Stop>
        ensures gives { Answers T.seen O.seen (λ u. u) (method_at line (data_of whole.now) name.now)
            self.now.context result self.now.context }
        ensures quiet { (n : ℕ) → failures_after n result ≡ n }
    {
        if whole.is_disabler() {
            return Ok(());
        }
        match whole.as_object() {
            Some(object) => self.object_method_at(line, object, name),
            None => self.context.value_method_at(line, whole, name),
        }
    }

    /// Calls a method of a receiver on evaluated arguments. Returns its value, or `None` if it has none.
    pub fn method_called(
        &mut self,
        line: usize,
        whole: &Value,
        name: &MethodName,
        arguments: &Arguments,
    ) -> Result<Option<Value>, Stop>
        requires room { HasRoom T.seen O.seen self.old.context }
        ensures same { Same self.old.context self.new.context }
        ensures device { Fails T.seen O.seen self.old.context result self.new.context }
        ensures gives { Answers T.seen O.seen (option_map data_of)
            (method_called line (data_of whole.now) name.now (arguments_data arguments.now)) self.old.context result self.new.context }
    {
        if whole.is_disabler() {
            return Ok(Some(disabler_method(self.context.alloc, name, arguments)?));
        }
        if gives_disabler(arguments) {
            return Ok(Some(Value::of_object(self.context.alloc, Object::Disabler)?));
        }
        match whole.as_object() {
            Some(object) => object_method_of(&mut self.context, line, object, name, arguments),
            None => self.context.value_method(line, whole, name, arguments),
        }
    }
}
