//! Implements `configure_file`, which makes a file while the definition files are evaluated.
ghost use Rattle.std.specs.Prelude.{◌≡◌, IfOk, Some, option_map, string_bytes};
ghost use Rattle.support.specs.paths.Paths.{path_in};
ghost use Rattle.build.specs.project.View.{install_view};
ghost use Rattle.world.specs.Prelude.{Does, MayFail, arguments_data, data_of, state_of, world_of};
ghost use Rattle.configuration_calls.specs.ConfigureFile.{configure_file, configured_output, frozen_by, install_at};
ghost use Rattle.configuration_calls.specs.ConfigureFile.{installed_output, output_file};
ghost use Rattle.configuration_calls.specs.ConfigureFile.{output_made};
ghost use Rattle.configuration_calls.specs.ConfigureFile.{prepared_path};
ghost use Rattle.configuration_calls.specs.GivenView.{given_view};
ghost use Rattle.configuration_calls.specs.Written.{CarriesOf, filling_in};

use crate::configure_arguments::{GivenValues, has_meson_format, input_given, values_given};
use crate::output_file::write_output;
use arguments::{Arguments, Rule};
use build::project::Install;
use ports::{Outputs, Tree};
use resources::destination;
use std::alloc::{AllocError, Global};
use support::faults::Refusal;
use support::paths::{is_file_name, path_below, path_in};
use values::{Object, Text, Value};
use world::{Caller, Stop, Store};

// Returns where an output is installed.
fn install_at(
    alloc: Global,
    store: &Store,
    path: &str,
    name: &str,
    folder: &str,
) -> Result<Install, AllocError>
    ensures { IfOk result (λ i. install_view i ≡ install_at (world_of store.now).facts path.now name.now folder.now) }
{
    let build_root = store.settings().build_root();
    Ok(Install {
        source: path_below(alloc, build_root, path)?,
        destination: destination(alloc, store.option_text("prefix"), folder, name)?,
    })
}

// Records that the output is installed if there is an `install_dir`.
fn install<T: Tree, O: Outputs>(
    caller: &mut Caller<'_, T, O>,
    path: &str,
    arguments: &Arguments,
) -> Result<(), Stop>
    ensures { Does T.seen O.seen (λ u. u) (installed_output path.now (arguments_data arguments.now)) caller.old result caller.new }
{
    match arguments.text_given("install_dir") {
        Some(folder) => {
            let name = arguments.text("output");
            let install = install_at(caller.alloc, caller.store, path, name, folder.as_str())?;
            caller.add_install(install)
        }
        None => Ok(()),
    }
}

// Freezes configuration data. A dictionary has nothing to freeze.
fn freeze<T: Tree, O: Outputs>(
    caller: &mut Caller<'_, T, O>,
    number: Option<usize>,
) -> Result<(), Stop>
    ensures { Does T.seen O.seen (λ u. u) (frozen_by number) caller.old result caller.new }
{
    match number {
        Some(number) => caller.freeze_configured(number),
        None => Ok(()),
    }
}

// Runs after the path of an output is reserved: returns the path as a text, and freezes the data.
fn prepare<T: Tree, O: Outputs>(
    caller: &mut Caller<'_, T, O>,
    folder: &str,
    name: &str,
    number: Option<usize>,
) -> Result<Text, Stop>
    ensures carries { Does T.seen O.seen (λ t. t) (prepared_path (path_in folder.now name.now) number) caller.old result caller.new }
    ensures path { IfOk result (λ t. t ≡ path_in folder.now name.now) }
{
    let path = path_in(caller.alloc, folder, name)?;
    let answer = Text::new(caller.alloc, path)?;
    let text = caller.answer(answer)?;
    freeze(caller, number)?;
    Ok(text)
}

// Makes the output, with a template or without one, and returns its path.
fn output_made<T: Tree, O: Outputs>(
    caller: &mut Caller<'_, T, O>,
    arguments: &Arguments,
    given: &GivenValues,
    template: Option<&str>,
) -> Result<Text, Stop>
    requires { MayFail T.seen O.seen caller.old }
    ensures { CarriesOf (λ t. t) (λ files. output_made (arguments_data arguments.now) (given_view given.now)
        (filling_in (given_view given.now).entries (option_map (λ t. t.now) template.entry) files))
        (state_of T.seen O.seen caller.old) result (state_of T.seen O.seen caller.new) }
{
    let name = arguments.text("output");
    let folder = String::from_str(caller.alloc, caller.store.folder())?;
    caller.take_output(folder.as_str(), name)?;
    let path = prepare(caller, folder.as_str(), name, given.number)?;
    write_output(caller, path.as_str(), &given.values, template)?;
    Ok(path)
}

// Makes the output, and returns it as a file.
fn make<T: Tree, O: Outputs>(
    caller: &mut Caller<'_, T, O>,
    arguments: &Arguments,
    given: &GivenValues,
    template: Option<&str>,
) -> Result<Option<Value>, Stop>
    requires { MayFail T.seen O.seen caller.old }
    ensures { CarriesOf (option_map data_of) (λ files. output_file (arguments_data arguments.now) (given_view given.now)
        (filling_in (given_view given.now).entries (option_map (λ t. t.now) template.entry) files))
        (state_of T.seen O.seen caller.old) result (state_of T.seen O.seen caller.new) }
{
    let path = output_made(caller, arguments, given, template)?;
    install(caller, path.as_str(), arguments)?;
    let is_built = true;
    let value = Value::of_object(caller.alloc, Object::File { path, is_built })?;
    Ok(Some(value))
}

// Makes the output with the template at a path.
fn make_from<T: Tree, O: Outputs>(
    caller: &mut Caller<'_, T, O>,
    arguments: &Arguments,
    given: &GivenValues,
    template: &str,
) -> Result<Option<Value>, Stop>
    requires { MayFail T.seen O.seen caller.old }
    ensures { Does T.seen O.seen (option_map data_of)
        (configured_output (arguments_data arguments.now) (Some template.now) (given_view given.now)) caller.old result caller.new }
{
    caller.require_file(template)?;
    make(caller, arguments, given, Some(template))
}

fn configure<T: Tree, O: Outputs>(
    caller: &mut Caller<'_, T, O>,
    arguments: &Arguments,
    given: &GivenValues,
    input: &Option<String>,
) -> Result<Option<Value>, Stop>
    requires { MayFail T.seen O.seen caller.old }
    ensures { Does T.seen O.seen (option_map data_of)
        (configured_output (arguments_data arguments.now) (option_map string_bytes input.now) (given_view given.now))
        caller.old result caller.new }
{
    match input {
        Some(template) => make_from(caller, arguments, given, template.as_str()),
        None => make(caller, arguments, given, None),
    }
}

/// Runs `configure_file()`. Refuses with E9, E14, E21, E11 in this order. Refuses with E19 or E22 at the first bad line of the template,
/// after the lines before it are written.
pub fn configure_file<T: Tree, O: Outputs>(
    caller: &mut Caller<'_, T, O>,
    arguments: &Arguments,
) -> Result<Option<Value>, Stop>
    requires { MayFail T.seen O.seen caller.old }
    ensures { Does T.seen O.seen (option_map data_of) (configure_file (arguments_data arguments.now)) caller.old result caller.new }
{
    caller.need(has_meson_format(arguments), Refusal::LeftOut, "")?;
    let output = arguments.text("output");
    caller.obey(is_file_name(output), Rule::IsFileName, output)?;
    let input = input_given(caller, arguments)?;
    let given = values_given(caller, arguments)?;
    configure(caller, arguments, &given, &input)
}
