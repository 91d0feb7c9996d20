//! Calls methods by the type of the receiver.

ghost use Rattle.std.specs.Prelude.{◌≡◌, IfOk, map};
ghost use Rattle.values.specs.Prelude.{Answers, data_of};
ghost use Rattle.operations.specs.methods.Methods.{answer, has_name};

use crate::methods::booleans::boolean_method;
use crate::methods::dictionaries::dictionary_method;
use crate::methods::integers::integer_method;
use crate::methods::lists::list_method;
use crate::methods::stop::MethodStop;
use crate::methods::text_methods::text_method;
use std::alloc::{AllocError, Global};
use values::language_names::MethodName;
use values::{OperationRefusal, Value};

/// Calls the method of the receiver with this name and returns its result.
///
/// The refusal is E8 if the receiver's type has no method with this name, and otherwise E9 for a wrong count or type of the arguments.
/// After these come the refusals of the method: E7, E9, E10 and E22. This function knows no methods of objects.
pub fn method(
    alloc: Global,
    receiver: &Value,
    name: &MethodName,
    arguments: &[Value],
) -> Result<Result<Value, OperationRefusal>, AllocError>
    ensures { IfOk result (λ r. Answers (answer (data_of receiver.now) name.now (map data_of arguments.now)) r) }
{
    let answer = match receiver {
        Value::Boolean(boolean) => boolean_method(alloc, *boolean, name, arguments),
        Value::Integer(integer) => integer_method(alloc, *integer, name, arguments),
        Value::List(list) => list_method(list, name, arguments),
        Value::Dictionary(dictionary) => dictionary_method(alloc, dictionary, name, arguments),
        Value::Text(text) => text_method(alloc, text, name, arguments),
        Value::Object(_) => Err(MethodStop::Refused(OperationRefusal::UnknownMethod)),
    };
    match answer {
        Ok(value) => Ok(Ok(value)),
        Err(MethodStop::Refused(refusal)) => Ok(Err(refusal)),
        Err(MethodStop::Memory(error)) => Err(error),
    }
}

/// Returns whether the receiver's type has a method with this name. It allocates nothing.
pub fn has_method(receiver: &Value, name: &MethodName) -> bool
    ensures { result ≡ has_name (data_of receiver.now) name.now }
{
    match receiver {
        Value::Boolean(_) => name.of_boolean().is_some(),
        Value::Integer(_) => name.of_integer().is_some(),
        Value::List(_) => name.of_list().is_some(),
        Value::Dictionary(_) => name.of_dictionary().is_some(),
        Value::Text(_) => name.of_text().is_some(),
        Value::Object(_) => false,
    }
}
