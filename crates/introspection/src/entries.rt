//! Builds the value of one option, dependency, target or test.
ghost use Rattle.std.specs.Prelude.{◌≡◌, IfOk, OnOk, fold, map, string_bytes, take};
ghost use Rattle.build.specs.edge.Texts.{texts};
ghost use Rattle.serde_json.specs.Data.{no_members, number, object};
ghost use Rattle.serde_json.specs.Find.{of_integer};
ghost use Rattle.serde_json.specs.View.{members_view, view};
ghost use Rattle.build.specs.Data.{Build, Custom};
ghost use Rattle.build.specs.Files.{default_paths};
ghost use Rattle.build.specs.View.{build_view, custom_view, facts_view, option_entry_view, option_view, target_view};
ghost use Rattle.build.specs.project.View.{answer_view, install_view, test_view};
ghost use Rattle.introspection.specs.Document.{build_entry, custom_entry, definition_file, dependency_entry, kind_name};
ghost use Rattle.introspection.specs.Document.{option_entry, option_value, project_entry, target_entry, test_entry, type_name};
ghost use Rattle.introspection.specs.Document.{with_installed};
ghost use Rattle.introspection.specs.Pieces.{entry_of};
ghost use Rattle.introspection.specs.Sending.{Reads};

use crate::json_values::{Shown, put_text, put_texts, strings};
use build::project::{Answer, Install, Test};
use build::{
    BuildTarget, CustomTarget, DeclaredTarget, Facts, OptionEntry, OptionType, OptionValue, Target,
    TargetKind,
};
use serde_json::{Map, Value, put};
use std::alloc::{AllocError, Global};
use support::paths::path_in;

fn type_name(kind: OptionType) -> &'static str
    ensures { result.now ≡ type_name kind }
{
    match kind {
        OptionType::String => "string",
        OptionType::Boolean => "boolean",
        OptionType::Combo => "combo",
        OptionType::Integer => "integer",
        OptionType::Array => "array",
        OptionType::Feature => "feature",
    }
}

// Returns a number. It fits in 64 bits, so its digits are read as the same number.
fn integer(n: i64) -> Value
    ensures shows { view result ≡ number (of_integer n) }
    ensures reads { Reads (number (of_integer n)) }
{
    Value::from(n)
}

fn option_value(alloc: Global, value: &OptionValue) -> Result<Value, AllocError>
    ensures shows { IfOk result (λ v. view v ≡ option_value (option_view value.now)) }
    ensures reads { IfOk result (λ _. Reads (option_value (option_view value.now))) }
{
    match value {
        OptionValue::Text(text) => Value::try_from_str(alloc, text),
        OptionValue::Boolean(truth) => Ok(Value::from(*truth)),
        OptionValue::Integer(number) => Ok(integer(*number)),
        OptionValue::Texts(texts) => strings(alloc, texts),
    }
}

fn put_option(
    members: &mut Map<String, Value>,
    alloc: Global,
    option: &OptionEntry,
) -> Result<(), AllocError>
    requires { members_view members.old.entries ≡ no_members }
    ensures shows { OnOk result (object (members_view members.new.entries) ≡ option_entry (option_entry_view option.now)) }
    ensures reads { OnOk result (Reads (option_entry (option_entry_view option.now))) }
{
    put_text(members, alloc, "name", &option.name)?;
    put_text(members, alloc, "type", type_name(option.kind))?;
    let value = option_value(alloc, &option.value)?;
    put(members, alloc, "value", value)
}

impl Shown for OptionEntry {
    ghost shown = { λ o. option_entry (option_entry_view o) };

    fn value(&self, alloc: Global) -> Result<Value, AllocError> {
        let mut members = Map::new(alloc);
        put_option(&mut members, alloc, self)?;
        Ok(Value::from(members))
    }
}

fn put_answer(
    members: &mut Map<String, Value>,
    alloc: Global,
    answer: &Answer,
) -> Result<(), AllocError>
    requires { members_view members.old.entries ≡ no_members }
    ensures { OnOk result (object (members_view members.new.entries) ≡ dependency_entry (answer_view answer.now)) }
{
    put(members, alloc, "found", Value::from(answer.is_found))?;
    put_text(members, alloc, "name", &answer.name)?;
    put_text(members, alloc, "version", &answer.version)
}

impl Shown for Answer {
    ghost shown = { λ a. dependency_entry (answer_view a) };

    fn value(&self, alloc: Global) -> Result<Value, AllocError> {
        let mut members = Map::new(alloc);
        put_answer(&mut members, alloc, self)?;
        Ok(Value::from(members))
    }
}

fn put_test(members: &mut Map<String, Value>, alloc: Global, test: &Test) -> Result<(), AllocError>
    requires { members_view members.old.entries ≡ no_members }
    ensures shows { OnOk result (object (members_view members.new.entries) ≡ test_entry (test_view test.now)) }
    ensures reads { OnOk result (Reads (test_entry (test_view test.now))) }
{
    put_texts(members, alloc, "cmd", &test.command)?;
    put_texts(members, alloc, "env", &test.environment)?;
    put_text(members, alloc, "name", &test.name)?;
    put(members, alloc, "should_fail", Value::from(test.should_fail))?;
    put_texts(members, alloc, "suite", &test.suites)?;
    put(members, alloc, "timeout", integer(test.timeout))
}

impl Shown for Test {
    ghost shown = { λ t. test_entry (test_view t) };

    fn value(&self, alloc: Global) -> Result<Value, AllocError> {
        let mut members = Map::new(alloc);
        put_test(&mut members, alloc, self)?;
        Ok(Value::from(members))
    }
}

fn kind_name(kind: TargetKind) -> &'static str
    ensures { result.now ≡ kind_name kind }
{
    match kind {
        TargetKind::Executable => "executable",
        TargetKind::StaticLibrary => "static library",
        TargetKind::SharedLibrary => "shared library",
    }
}

// Returns the definition file of a folder.
fn definition_file(alloc: Global, folder: &str) -> Result<String, AllocError>
    ensures { IfOk result (λ s. string_bytes s ≡ definition_file folder.now) }
{
    path_in(alloc, folder, "meson.build")
}

// Holds what both kinds of target show.
#[derive(Clone, Copy)]
struct Entry<'a> {
    is_default: bool,
    folder: &'a str,
    files: &'a [String],
    is_installed: bool,
    name: &'a str,
    kind: &'a str,
}

fn put_entry(
    members: &mut Map<String, Value>,
    alloc: Global,
    entry: &Entry,
) -> Result<(), AllocError>
    requires { members_view members.old.entries ≡ no_members }
    ensures { let e = entry.now in
        let all = entry_of e.is_default e.folder.now (texts e.files.now) e.is_installed e.name.now e.kind.now in
        OnOk result (object (members_view members.new.entries) ≡ all) }
{
    put(
        members,
        alloc,
        "build_by_default",
        Value::from(entry.is_default),
    )?;
    let file = definition_file(alloc, entry.folder)?;
    put(members, alloc, "defined_in", Value::from(file))?;
    put_texts(members, alloc, "filename", entry.files)?;
    put(members, alloc, "installed", Value::from(entry.is_installed))?;
    put_text(members, alloc, "name", entry.name)?;
    put_text(members, alloc, "type", entry.kind)
}

fn entry_value(alloc: Global, entry: &Entry) -> Result<Value, AllocError>
    ensures { let e = entry.now in
        let all = entry_of e.is_default e.folder.now (texts e.files.now) e.is_installed e.name.now e.kind.now in
        IfOk result (λ v. view v ≡ all) }
{
    let mut members = Map::new(alloc);
    put_entry(&mut members, alloc, entry)?;
    Ok(Value::from(members))
}

// Returns a list of the first of the paths, if there is one.
fn first_alone(paths: &[String]) -> &[String]
    ensures { result.now ≡ take 1 paths.now }
{
    let count = paths.len().min(1);
    &paths[..count]
}

// Returns the value of a build target. The first of the paths is its file.
fn build_value(alloc: Global, target: &BuildTarget, paths: &[String]) -> Result<Value, AllocError>
    requires { texts paths.now ≡ default_paths (Build (build_view target.now)) }
    ensures { IfOk result (λ v. view v ≡ build_entry (build_view target.now)) }
{
    let entry = Entry {
        is_default: target.is_default,
        folder: &target.folder,
        files: first_alone(paths),
        is_installed: target.is_installed,
        name: &target.name,
        kind: kind_name(target.kind),
    };
    entry_value(alloc, &entry)
}

fn custom_value(alloc: Global, target: &CustomTarget, paths: &[String]) -> Result<Value, AllocError>
    requires { texts paths.now ≡ default_paths (Custom (custom_view target.now)) }
    ensures { IfOk result (λ v. view v ≡ custom_entry (custom_view target.now)) }
{
    let entry = Entry {
        is_default: target.is_default,
        folder: &target.folder,
        files: paths,
        is_installed: target.is_installed,
        name: &target.name,
        kind: "custom",
    };
    entry_value(alloc, &entry)
}

impl Shown for DeclaredTarget {
    ghost shown = { λ l. target_entry (target_view l.target) };

    fn value(&self, alloc: Global) -> Result<Value, AllocError> {
        match &self.target {
            Target::Build(target) => build_value(alloc, target, &self.paths),
            Target::Custom(target) => custom_value(alloc, target, &self.paths),
        }
    }
}

fn put_info(
    members: &mut Map<String, Value>,
    alloc: Global,
    facts: &Facts,
) -> Result<(), AllocError>
    requires { members_view members.old.entries ≡ no_members }
    ensures { OnOk result (object (members_view members.new.entries) ≡ project_entry (facts_view facts.now)) }
{
    put_texts(members, alloc, "license", &facts.license)?;
    put_text(members, alloc, "name", &facts.name)?;
    put_text(members, alloc, "version", &facts.version)
}

impl Shown for Facts {
    ghost shown = { λ f. project_entry (facts_view f) };

    fn value(&self, alloc: Global) -> Result<Value, AllocError> {
        let mut members = Map::new(alloc);
        put_info(&mut members, alloc, self)?;
        Ok(Value::from(members))
    }
}

/// Shows the destination of each installed file, under the file's path.
#[derive(Clone, Copy)]
pub struct Destinations<'a> {
    pub installs: &'a [Install],
}

impl Shown for Destinations<'_> {
    ghost shown = { λ d. object (fold with_installed no_members (map install_view d.installs.now)) };

    fn value(&self, alloc: Global) -> Result<Value, AllocError> {
        installed_at(alloc, self.installs)
    }
}

fn installed_at(alloc: Global, installs: &[Install]) -> Result<Value, AllocError>
    ensures { IfOk result (λ v. view v ≡ object (fold with_installed no_members (map install_view installs.now))) }
{
    let mut members = Map::new(alloc);
    for install in installs {
        let destination = Value::try_from_str(alloc, &install.destination)?;
        put(&mut members, alloc, &install.source, destination)?;
    }
    Ok(Value::from(members))
}
