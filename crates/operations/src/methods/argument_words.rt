//! Describes in words what each method takes.
ghost use Rattle.std.specs.Prelude.{◌≡◌};
ghost use Rattle.values.specs.Prelude.{data_of};
ghost use Rattle.operations.specs.methods.Takes.{takes_words};

use crate::methods::{booleans, dictionaries, integers, lists, text_methods};
use values::Value;
use values::language_names::MethodName;

/// Returns in words what the method with this name takes, by the type of the receiver. The text is empty if there is no such method.
pub fn takes_words(receiver: &Value, name: &MethodName) -> &'static str
    ensures { result.now ≡ takes_words (data_of receiver.now) name.now }
{
    match receiver {
        Value::Boolean(_) => name.of_boolean().map_or("", booleans::argument_words),
        Value::Integer(_) => name.of_integer().map_or("", integers::argument_words),
        Value::List(_) => name.of_list().map_or("", lists::argument_words),
        Value::Dictionary(_) => name
            .of_dictionary()
            .map_or("", dictionaries::argument_words),
        Value::Text(_) => name.of_text().map_or("", text_methods::argument_words),
        Value::Object(_) => "",
    }
}
