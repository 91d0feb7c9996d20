//! Decides which texts are names, and which names the language gives a meaning to.
ghost use Rattle.std.specs.Prelude.{◌≡◌, IfOk};
ghost use Rattle.std.specs.List.{list_all};
ghost use Rattle.values.specs.language_names.Names.{begins_name, is_left_out, is_variable_name, is_name_byte, is_predefined};
ghost use Rattle.values.specs.language_names.Names.{predefined_value};
ghost use Rattle.values.specs.Prelude.{data_of};

use crate::{Object, Value};
use std::alloc::{AllocError, Global};
use support::text_lists::is_among;

/// The keywords, which cannot be names.
const KEYWORDS: [&str; 14] = [
    "true",
    "false",
    "if",
    "elif",
    "else",
    "endif",
    "and",
    "or",
    "not",
    "in",
    "foreach",
    "endforeach",
    "break",
    "continue",
];

/// The functions of Meson that are not supported, in alphabetical order.
const LEFT_OUT: [&str; 21] = [
    "add_global_arguments",
    "add_global_link_arguments",
    "add_languages",
    "add_test_setup",
    "alias_target",
    "benchmark",
    "both_libraries",
    "build_target",
    "debug",
    "environment",
    "generator",
    "import",
    "install_emptydir",
    "install_subdir",
    "install_symlink",
    "run_command",
    "run_target",
    "shared_module",
    "subproject",
    "summary",
    "vcs_tag",
];

/// Returns whether a name is a predefined variable, such as `meson`. Most names differ from these in length, so the length is compared
/// first.
pub fn is_predefined(name: &str) -> bool
    ensures { result ≡ is_predefined name.now }
{
    match name.len() {
        5 | 12 | 13 | 14 => matches!(
            name,
            "meson" | "host_machine" | "build_machine" | "target_machine"
        ),
        _ => false,
    }
}

/// Returns the value of a predefined variable: the object `meson`, or the machine. The methods of the machine object read the machine file
/// later.
pub fn predefined_value(alloc: Global, name: &str) -> Result<Value, AllocError>
    ensures { IfOk result (λ value. data_of value ≡ predefined_value name.now) }
{
    if name == "meson" {
        Value::of_object(alloc, Object::Meson)
    } else {
        Value::of_object(alloc, Object::Machine)
    }
}

/// Returns whether a name is a function of Meson that is not supported.
pub fn is_left_out(name: &str) -> bool
    ensures { result ≡ is_left_out name.now }
{
    is_among(&LEFT_OUT, name)
}

fn begins_name(text: &[u8]) -> bool
    ensures { result ≡ begins_name text.now }
{
    match text.first() {
        Some(byte) => byte.is_ascii_alphabetic() || *byte == b'_',
        None => false,
    }
}

fn is_name_byte(byte: u8) -> bool
    ensures { result ≡ is_name_byte byte }
{
    byte.is_ascii_alphanumeric() || byte == b'_'
}

fn are_name_bytes(text: &[u8]) -> bool
    ensures { result ≡ list_all is_name_byte text.now }
{
    text.iter().all(|byte| is_name_byte(*byte))
}

/// Returns whether a text is a name: letters, digits and underscores, not beginning with a digit, and no keyword.
pub fn is_variable_name(text: &str) -> bool
    ensures { result ≡ is_variable_name text.now }
{
    begins_name(text.as_bytes()) && are_name_bytes(text.as_bytes()) && !is_among(&KEYWORDS, text)
}
