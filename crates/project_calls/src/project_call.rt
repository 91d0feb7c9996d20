//! Implements `project`.
ghost use Rattle.std.specs.Prelude.{◌≡◌, ◌++◌, codes, map, option_map, string_bytes, unwrap_or, IfOk};
ghost use Rattle.values.specs.Data.{text_in};
ghost use Rattle.option_values.specs.View.{strings_in};
ghost use Rattle.options.specs.View.{outcome_in, resolved_in};
ghost use Rattle.option_values.specs.SettingsView.{options_in};
ghost use Rattle.build.specs.View.{facts_view};
ghost use Rattle.world.specs.Prelude.{Does, MayFail, arguments_data, data_of, world_of};
ghost use Rattle.project_calls.specs.DefaultsView.{strings_of};
ghost use Rattle.project_calls.specs.Project.{begin, only_c, defaults_printed, facts_of, languages_taken, other_language};
ghost use Rattle.project_calls.specs.Project.{project, settled_options, texts_behind, version_of, option_warnings};
ghost use Rattle.project_calls.specs.ProgramsView.{programs_in};

use crate::defaults::{first_unprinted, keys_given, print_all, values_given};
use crate::flags::flags_of;
use crate::option_file::option_file;
use crate::programs::{Programs, ask_programs};
use crate::resolution::resolution;
use crate::shown_options::option_entries;
use arguments::{Arguments, CallStop, Rule};
use build::Facts;
use options::{OptionFault, Options, Resolved};
use ports::{Outputs, Tree};
use std::alloc::{AllocError, Global};
use support::faults::Refusal;
use values::Value;
use world::{Caller, Stop, Store, of_operation};

// Returns the first language that is not C.
fn other_language<'a>(languages: &[&'a str]) -> Option<&'a str>
    ensures { option_map (λ l. l.now) result ≡ other_language (map (λ l. l.now) languages.now) }
{
    for language in languages {
        if *language != "c" {
            return Some(*language);
        }
    }
    None
}

// Refuses a language other than C (E23).
fn refuse_other<T: Tree, O: Outputs>(
    caller: &Caller<'_, T, O>,
    language: Option<&str>,
) -> Result<(), Stop>
    ensures { Does T.seen O.seen (λ u. u) (only_c (option_map (λ l. l.now) language.entry)) caller.now result caller.now }
{
    match language {
        None => Ok(()),
        Some(language) => caller.refuse_for(Refusal::LeftOut, Rule::IsC, language),
    }
}

// Warns the user of names that no option has.
fn warn<T: Tree, O: Outputs>(caller: &mut Caller<'_, T, O>, names: &[String]) -> Result<(), Stop>
    requires { MayFail T.seen O.seen caller.old }
    ensures { Does T.seen O.seen (λ u. u) (option_warnings (strings_in names.now)) caller.old result caller.new }
{
    for name in names {
        let line = warning_of(caller.alloc, name.as_str())?;
        caller.say(line.as_str())?;
    }
    Ok(())
}

// Returns the log line that warns of a name.
fn warning_of(alloc: Global, name: &str) -> Result<String, AllocError>
    ensures { IfOk result (λ line. string_bytes line ≡ (codes "WARNING: unknown option " ++ name.now) ++ codes "\n") }
{
    let mut line = String::from_str(alloc, "WARNING: unknown option ")?;
    line.push_str(name)?;
    line.push_str("\n")?;
    Ok(line)
}

// Returns the options with their values, or stops with the first fault of a value, where `path` is the path of the option file.
fn settle<T: Tree, O: Outputs>(
    caller: &Caller<'_, T, O>,
    path: &str,
    outcome: Result<Options, OptionFault>,
) -> Result<Options, Stop>
    ensures { Does T.seen O.seen options_in (settled_options path.now (outcome_in outcome) caller.now.store.now.line) caller.now result
        caller.now }
{
    match outcome {
        Ok(options) => Ok(options),
        Err(fault) => {
            let line = caller.store.line();
            Err(Stop::Refused(fault.tell_in(caller.alloc, path, line)?))
        }
    }
}

fn version_of(arguments: &Arguments) -> &str
    ensures { result.now ≡ version_of (arguments_data arguments.now) }
{
    match arguments.keyword("version") {
        Some(value) => text_or_undefined(value),
        None => "undefined",
    }
}

fn text_or_undefined(value: &Value) -> &str
    ensures { result.now ≡ unwrap_or (text_in (data_of value.now)) (codes "undefined") }
{
    match value.as_text() {
        Some(text) => text.as_str(),
        None => "undefined",
    }
}

// Returns the facts of the project: from the arguments, the options and the programs.
fn facts_of(
    alloc: Global,
    arguments: &Arguments,
    options: &Options,
    programs: Programs,
    store: &Store,
) -> Result<Facts, AllocError>
    ensures { IfOk result (λ f. facts_view f
        ≡ facts_of (arguments_data arguments.now) (options_in options.now) (programs_in programs) (world_of store.now).facts) }
{
    let Programs { compiler, archiver } = programs;
    let settings = store.settings();
    Ok(Facts {
        name: String::from_str(alloc, arguments.text_at(0))?,
        version: String::from_str(alloc, version_of(arguments))?,
        license: arguments.texts(alloc, "license")?,
        depth: settings.depth(),
        source_root: String::from_str(alloc, settings.source_root())?,
        build_root: String::from_str(alloc, settings.build_root())?,
        compiler,
        archiver,
        flags: flags_of(alloc, options)?,
        options: option_entries(alloc, options)?,
    })
}

// Writes the warnings, requests the programs, sets the options, and begins the project.
fn begin<T: Tree, O: Outputs>(
    caller: &mut Caller<'_, T, O>,
    arguments: &Arguments,
    path: &str,
    resolved: Resolved,
) -> Result<(), Stop>
    requires { MayFail T.seen O.seen caller.old }
    ensures { Does T.seen O.seen (λ u. u) (begin (arguments_data arguments.now) path.now (resolved_in resolved))
        caller.old result caller.new }
{
    let Resolved { unknown, outcome } = resolved;
    warn(caller, &unknown)?;
    let options = settle(caller, path, outcome)?;
    let programs = ask_programs(caller)?;
    let facts = facts_of(caller.alloc, arguments, &options, programs, caller.store)?;
    caller.store.set_options(options);
    caller.begin(facts)
}

// Returns the printed values of a dictionary of defaults, or refuses with the name of the first that cannot be printed.
fn print_defaults<T: Tree, O: Outputs>(
    caller: &Caller<'_, T, O>,
    arguments: &Arguments,
) -> Result<Vec<String>, Stop>
    ensures { Does T.seen O.seen strings_of (defaults_printed (arguments_data arguments.now)) caller.now result caller.now }
{
    let (keys, values) = (keys_given(arguments), values_given(arguments));
    match print_all(caller.alloc, values) {
        Ok(texts) => Ok(texts),
        Err(CallStop::Operation(refusal)) => {
            let name = first_unprinted(caller.alloc, keys, values)?;
            caller.refuse_for(of_operation(refusal), Rule::IsPrinted, name)
        }
        Err(CallStop::Arguments(refused)) => caller.pass(Err(refused)),
        Err(CallStop::Memory) => Err(Stop::Memory),
    }
}

// Refuses a project without a language, and languages other than C.
fn require_c<T: Tree, O: Outputs>(
    caller: &Caller<'_, T, O>,
    arguments: &Arguments,
) -> Result<(), Stop>
    ensures { Does T.seen O.seen (λ u. u) (languages_taken (texts_behind (arguments_data arguments.now))) caller.now result caller.now }
{
    let languages = arguments.texts_behind(caller.alloc, 1)?;
    check_languages(caller, &languages)
}

fn check_languages<T: Tree, O: Outputs>(
    caller: &Caller<'_, T, O>,
    languages: &[&str],
) -> Result<(), Stop>
    ensures { Does T.seen O.seen (λ u. u) (languages_taken (map (λ l. l.now) languages.now)) caller.now result caller.now }
{
    match languages {
        [] => caller.refuse(Refusal::ProjectCall, "'project': names no language"),
        _ => refuse_other(caller, other_language(languages)),
    }
}

/// Runs `project(name, language.., version:, license:, default_options:, meson_version:)`. Refuses a second call with any arguments.
pub fn project<T: Tree, O: Outputs>(
    caller: &mut Caller<'_, T, O>,
    arguments: &Arguments,
) -> Result<Option<Value>, Stop>
    requires { MayFail T.seen O.seen caller.old }
    ensures { Does T.seen O.seen (option_map data_of) (project (arguments_data arguments.now)) caller.old result caller.new }
{
    let is_begun = caller.store.is_begun();
    caller.need(
        !is_begun,
        Refusal::ProjectCall,
        "'project': was called before",
    )?;
    let printed = print_defaults(caller, arguments)?;
    require_c(caller, arguments)?;
    let file = option_file(caller)?;
    let resolved = resolution(caller, arguments, &printed, &file.declared)?;
    begin(caller, arguments, file.path, resolved)?;
    Ok(None)
}
