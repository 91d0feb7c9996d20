//! Reads the flags of compilers and linkers from the options.
ghost use Rattle.std.specs.Prelude.{◌≡◌, IfOk};
ghost use Rattle.build.specs.edge.Texts.{texts};
ghost use Rattle.option_values.specs.Settings.{value_named};
ghost use Rattle.option_values.specs.SettingsView.{options_in};
ghost use Rattle.build.specs.View.{flags_view};
ghost use Rattle.project_calls.specs.Flags.{flags_in, is_set, items_in, level_of, text_in};

use build::Flags;
use build::edge::copies;
use options::{OptionValue, Options};
use std::alloc::{AllocError, Global};

fn text_of<'a>(options: &'a Options, name: &str) -> &'a str
    ensures { result.now ≡ text_in (value_named (options_in options.now) name.now) }
{
    match options.get(name) {
        Some(OptionValue::Text(text)) => text.as_str(),
        Some(OptionValue::Combo(choice)) => choice.as_str(),
        _ => "",
    }
}

fn is_set(options: &Options, name: &str) -> bool
    ensures { result ≡ is_set (value_named (options_in options.now) name.now) }
{
    match options.get(name) {
        Some(OptionValue::Boolean(boolean)) => *boolean,
        _ => false,
    }
}

fn items_of<'a>(options: &'a Options, name: &str) -> &'a [String]
    ensures { texts result.now ≡ items_in (value_named (options_in options.now) name.now) }
{
    match options.get(name) {
        Some(OptionValue::Array(items)) => items.as_slice(),
        _ => &[],
    }
}

fn level_of(text: &str) -> usize
    ensures { result ≡ level_of text.now }
{
    match text {
        "1" => 1,
        "2" => 2,
        "3" => 3,
        _ => 0,
    }
}

/// Returns the flags of the compiler and the linker that the options set.
pub fn flags_of(alloc: Global, options: &Options) -> Result<Flags, AllocError>
    ensures { IfOk result (λ f. flags_view f ≡ flags_in (options_in options.now)) }
{
    Ok(Flags {
        warning_level: level_of(text_of(options, "warning_level")),
        is_werror: is_set(options, "werror"),
        c_std: String::from_str(alloc, text_of(options, "c_std"))?,
        optimization: String::from_str(alloc, text_of(options, "optimization"))?,
        is_debug: is_set(options, "debug"),
        c_args: copies(alloc, items_of(options, "c_args"))?,
        c_link_args: copies(alloc, items_of(options, "c_link_args"))?,
    })
}
