//! Reads a custom target from the arguments of a call.
ghost use Rattle.std.specs.Prelude.{◌≡◌, ◌++◌, ◌∷◌, [], IfOk, IfSome, Ok, codes, count_by, map, option_map, string_bytes, unwrap_or};
ghost use Rattle.std.specs.Bool.{OnTrue};
ghost use Rattle.arguments.specs.Arguments.{named_data};
ghost use Rattle.arguments.specs.Given.{texts as texts_given};
ghost use Rattle.arguments.specs.Said.{found_value};
ghost use Rattle.arguments.specs.Stops.{Says};
ghost use Rattle.arguments.specs.declared.rule.Rule.TheVariants.{HasMeaning as Meaningful};
ghost use Rattle.build.specs.edge.Texts.{texts};
ghost use Rattle.build.specs.edge.Folders.{build_folder, source_folder};
ghost use Rattle.build.specs.edge.Paths.{source_root};
ghost use Rattle.sources.specs.Holes.{first_of};
ghost use Rattle.sources.specs.HolesView.{place_view};
ghost use Rattle.support.specs.paths.Paths.{path_in as path_of_file};
ghost use Rattle.build.specs.View.{custom_view, source_view};
ghost use Rattle.sources.specs.SourcesView.{named_views};
ghost use Rattle.world.specs.Prelude.{arguments_data, data_of, here_view};
ghost use Rattle.target_calls.specs.BuildTargetsView.{named_target_view};
ghost use Rattle.target_calls.specs.CommandsView.{part_view};
ghost use Rattle.target_calls.specs.CustomNames.{names_in, names_of, place_of};
ghost use Rattle.target_calls.specs.CustomTargets.{IsAllInput, captures_one, count_named, custom_from, custom_target, declared_by};
ghost use Rattle.target_calls.specs.CustomTargets.{declared_files, has_place, is_source_keyword, longest, names_from, part_by, rule_broken};
ghost use Rattle.target_calls.specs.CustomTargets.{sources_by, sources_made, whole_command, sources_in_call, written_in, written_sources};
ghost use Rattle.target_calls.specs.CustomTargetsView.{names_view};
ghost use Rattle.target_calls.specs.LongCommands.{short_makers, short_sources};
ghost use Rattle.target_calls.specs.Sources.{sources_in};

use crate::build_target::NamedTarget;
use crate::command::{Part, command_of};
use crate::source_lookup::{files_among, short_sources, sources_in};
use arguments::{Arguments, CallStop, Named, Rule};
use build::{CustomTarget, Source, Target, paths_in, source_paths};
use sources::{NamedSource, PlaceholderScope, PlaceholderValues, fill, sources_named, sources_of};
use std::alloc::{AllocError, Global};
use support::paths::path_in;
use values::{Value, flat, flatten_value, flattened_count};
use world::Here;

/// Holds the names of output files in the folder of the call.
#[derive(Drop)]
pub struct OutputNames {
    pub outputs: Vec<String>,
    pub depfile: Option<String>,
}

// ---- checks of the arguments

/// Returns how many items a keyword has, with nested lists flattened.
pub fn count_named(arguments: &Arguments, name: &str) -> usize
    ensures { result ≡ count_named name.now (arguments_data arguments.now) }
{
    match arguments.keyword(name) {
        Some(value) => flattened_count(value),
        None => 0,
    }
}

// Returns the length of the longest list of the call.
fn longest(arguments: &Arguments) -> usize
    ensures { result ≡ longest (arguments_data arguments.now) }
{
    let outputs = count_named(arguments, "output");
    let words = count_named(arguments, "command");
    let inputs = count_named(arguments, "input");
    let files = count_named(arguments, "depend_files");
    let targets = count_named(arguments, "depends");
    outputs.max(words.max(inputs.max(files.max(targets))))
}

// Returns whether the call does not capture the command's standard output, or has exactly one output for it.
fn captures_one(arguments: &Arguments) -> bool
    ensures { result ≡ captures_one (arguments_data arguments.now) }
{
    !arguments.flag("capture", false) || count_named(arguments, "output") == 1
}

// Returns whether the call installs nothing, or gives an `install_dir`.
fn has_place(arguments: &Arguments) -> bool
    ensures { result ≡ has_place (arguments_data arguments.now) }
{
    !arguments.flag("install", false) || arguments.text_given("install_dir").is_some()
}

// Returns the first rule that is broken and its keyword: an empty list, captured output without exactly one output file, or an install
// without a directory.
fn rule_broken(arguments: &Arguments) -> Option<(Rule, &'static str)>
    ensures { option_map (λ b. (b.0, b.1.now)) result ≡ rule_broken (arguments_data arguments.now) }
{
    if count_named(arguments, "output") == 0 {
        Some((Rule::HasItems, "output"))
    } else if count_named(arguments, "command") == 0 {
        Some((Rule::HasItems, "command"))
    } else if !captures_one(arguments) {
        Some((Rule::TakesOneOutput, "capture"))
    } else if !has_place(arguments) {
        Some((Rule::IsNeeded, "install_dir"))
    } else {
        None
    }
}

// ---- sources

fn is_source_keyword(name: &str) -> bool
    ensures { result ≡ is_source_keyword name.now }
{
    matches!(name, "input" | "depend_files")
}

fn push_values<'v>(values: &mut Vec<&'v Value>, mut more: Vec<&'v Value>) -> Result<(), AllocError>
    ensures { IfOk result (λ _. map (λ v. data_of v.now) values.new.items
        ≡ map (λ v. data_of v.now) values.old.items ++ map (λ v. data_of v.now) more.entry.items) }
{
    if values.is_empty() {
        *values = more;
        Ok(())
    } else {
        values.append(&mut more)
    }
}

fn push_written<'v>(
    values: &mut Vec<&'v Value>,
    alloc: Global,
    named: &'v Named,
) -> Result<(), AllocError>
    ensures { IfOk result (λ _. map (λ v. data_of v.now) values.new.items
        ≡ map (λ v. data_of v.now) values.old.items ++ written_in (named_data named.now)) }
{
    if is_source_keyword(named.name.as_str()) {
        let more = flatten_value(alloc, &named.value)?;
        push_values(values, more)?;
    }
    Ok(())
}

// Returns the sources that a call gives, in the order in which its keywords are written.
fn list_written(alloc: Global, arguments: &Arguments) -> Result<Vec<&Value>, AllocError>
    ensures { IfOk result (λ vs. map (λ v. data_of v.now) vs.items ≡ sources_in_call (arguments_data arguments.now)) }
{
    let mut values = Vec::new(alloc);
    for named in &arguments.named {
        push_written(&mut values, alloc, named)?;
    }
    Ok(values)
}

// Returns how many keywords give sources.
fn count_sources(named: &[Named]) -> usize
    ensures { result ≡ count_by (λ n. is_source_keyword n.name) named.now }
{
    let mut count: usize = 0;
    for one in named {
        if is_source_keyword(one.name.as_str()) {
            count += 1;
        }
    }
    count
}

// Returns whether `input` alone gives sources, and occurs once.
fn is_only_input(arguments: &Arguments) -> bool
    ensures { OnTrue result (IsAllInput (arguments_data arguments.now)) }
{
    count_sources(&arguments.named) == 1 && arguments.keyword("input").is_some()
}

// Returns the only value that gives sources, if there is one and it is no list.
fn only_written(arguments: &Arguments, input_alone: bool) -> Option<&Value>
    requires { OnTrue input_alone (IsAllInput (arguments_data arguments.now)) }
    ensures { IfSome result (λ v. sources_in_call (arguments_data arguments.now) ≡ data_of v.now ∷ []) }
{
    if !input_alone {
        return None;
    }
    match arguments.keyword("input") {
        Some(Value::List(_)) | None => None,
        Some(value) => Some(value),
    }
}

// Returns the sources that a call names. Most often one value gives them all, and no list is made.
fn written_sources(
    here: &Here<'_>,
    arguments: &Arguments,
    input_alone: bool,
) -> Result<Vec<NamedSource>, CallStop>
    requires { OnTrue input_alone (IsAllInput (arguments_data arguments.now)) }
    ensures { Says named_views (written_sources (here_view here.now) (arguments_data arguments.now)) result }
{
    match only_written(arguments, input_alone) {
        Some(value) => sources_of(here.alloc, here.source_root, here.folder, &[value]),
        None => {
            let values = list_written(here.alloc, arguments)?;
            sources_of(here.alloc, here.source_root, here.folder, &values)
        }
    }
}

// Returns these sources, which a keyword names, or the refusal of an output that no target has.
fn sources_said(
    here: &Here<'_>,
    named: Vec<NamedSource>,
    name: &str,
) -> Result<Vec<Source>, CallStop>
    ensures { Says (λ v. map source_view v.items)
        (found_value (sources_in (here_view here.now).earlier (named_views named)) Meaningful name.now) result }
{
    match sources_in(here.alloc, here.earlier, named)? {
        Some(sources) => Ok(sources),
        None => Err(Rule::HasMeaning.refuse(here.alloc, name)?.into()),
    }
}

// Returns the sources that a keyword names, or the refusal of a bad path or output.
fn sources_by(here: &Here<'_>, arguments: &Arguments, name: &str) -> Result<Vec<Source>, CallStop>
    ensures { Says (λ v. map source_view v.items) (sources_by (here_view here.now) (arguments_data arguments.now) name.now) result }
{
    let named = sources_named(here.alloc, here.source_root, here.folder, arguments, name)?;
    sources_said(here, named, name)
}

// Returns the files that `depend_files` names, or the refusal of a bad path or output. If there are too many, no list of outputs is repeated.
fn files_by(here: &Here<'_>, arguments: &Arguments) -> Result<Vec<Source>, CallStop>
    ensures { Says (λ v. map source_view v.items)
        (sources_made short_sources (here_view here.now) (arguments_data arguments.now) (codes "depend_files")) result }
{
    let keyword = "depend_files";
    let named = sources_named(
        here.alloc,
        here.source_root,
        here.folder,
        arguments,
        keyword,
    )?;
    match short_sources(here.alloc, here.earlier, named)? {
        Some(files) => Ok(files),
        None => Err(Rule::HasMeaning.refuse(here.alloc, keyword)?.into()),
    }
}

// Returns the sources that `input` names, given all that the call names. Most often these are the same, and they are not looked up again.
fn inputs_among(
    here: &Here<'_>,
    arguments: &Arguments,
    named: Vec<NamedSource>,
    input_alone: bool,
) -> Result<Vec<Source>, CallStop>
    requires input { OnTrue input_alone (IsAllInput (arguments_data arguments.now)) }
    requires named { written_sources (here_view here.now) (arguments_data arguments.now) ≡ Ok (named_views named) }
    ensures { Says (λ v. map source_view v.items)
        (sources_by (here_view here.now) (arguments_data arguments.now) (codes "input")) result }
{
    if input_alone {
        sources_said(here, named, "input")
    } else {
        sources_by(here, arguments, "input")
    }
}

// ---- names

// Returns the values that the placeholders of a call in this folder refer to.
fn place_with<'p>(
    folder: &'p str,
    depth: usize,
    inputs: &'p [String],
    outputs: &'p [String],
    depfile: Option<&'p str>,
) -> PlaceholderValues<'p>
    ensures { place_view result ≡ record {
      inputs = texts inputs.now;
      outputs = texts outputs.now;
      depfile = option_map (λ d. d.now) depfile.entry;
      build_folder = build_folder folder.now;
      source_folder = source_folder depth folder.now;
      source_root = source_root depth;
    } }
{
    PlaceholderValues {
        inputs,
        outputs,
        depfile,
        folder,
        depth,
    }
}

// Returns names of files with their placeholders replaced, and `None` if a placeholder has no value.
fn names_in(
    alloc: Global,
    place: &PlaceholderValues<'_>,
    texts: &[&str],
) -> Result<Option<Vec<String>>, AllocError>
    ensures { IfOk result (λ ns. option_map (λ v. map string_bytes v.items) ns
        ≡ names_in (place_view place.now) (map (λ t. t.now) texts.now)) }
{
    let mut names = Vec::with_capacity(alloc, texts.len())?;
    for text in texts {
        match fill(alloc, PlaceholderScope::FileName, place, text)? {
            Some(name) => names.push(name)?,
            None => return Ok(None),
        }
    }
    Ok(Some(names))
}

fn first_of(names: Vec<String>) -> Option<String>
    ensures { option_map string_bytes result ≡ first_of (texts names.items) }
{
    names.into_iter().next()
}

// Returns the names that a keyword gives. Most often it is one text, and no list is made.
fn names_given(
    alloc: Global,
    place: &PlaceholderValues<'_>,
    arguments: &Arguments,
    name: &str,
) -> Result<Option<Vec<String>>, AllocError>
    ensures { IfOk result (λ ns. option_map (λ v. map string_bytes v.items) ns
        ≡ names_in (place_view place.now) (texts_given name.now (arguments_data arguments.now))) }
{
    match arguments.keyword(name) {
        Some(Value::Text(text)) => names_in(alloc, place, &[text.as_str()]),
        Some(value) => {
            let texts = flat(alloc, value)?;
            names_in(alloc, place, &texts)
        }
        None => names_in(alloc, place, &[]),
    }
}

// Returns the names of the outputs and the depfile, whose placeholders refer to the inputs alone.
fn names_of(
    alloc: Global,
    place: &PlaceholderValues<'_>,
    arguments: &Arguments,
) -> Result<Option<OutputNames>, AllocError>
    ensures { IfOk result (λ n. option_map names_view n ≡ names_of (place_view place.now) (arguments_data arguments.now)) }
{
    let Some(outputs) = names_given(alloc, place, arguments, "output")? else {
        return Ok(None);
    };
    let Some(depfile) = names_given(alloc, place, arguments, "depfile")? else {
        return Ok(None);
    };
    let depfile = first_of(depfile);
    Ok(Some(OutputNames { outputs, depfile }))
}

fn path_of(alloc: Global, folder: &str, name: &Option<String>) -> Result<Option<String>, AllocError>
    ensures { IfOk result (λ p. option_map string_bytes p
        ≡ option_map (path_of_file folder.now) (option_map string_bytes name.now)) }
{
    match name {
        Some(name) => Ok(Some(path_in(alloc, folder, name)?)),
        None => Ok(None),
    }
}

// Returns the paths of the files with these names. Returns `None` in the root, where the names are the paths.
fn files_below(here: &Here<'_>, names: &OutputNames) -> Result<Option<OutputNames>, AllocError>
    ensures { let folder = here.now.folder.now in
        IfOk result (λ files. unwrap_or (option_map names_view files) (names_view names.now) ≡ record {
          outputs = map (path_of_file folder) (names_view names.now).outputs;
          depfile = option_map (path_of_file folder) (names_view names.now).depfile;
        }) }
{
    if here.folder.is_empty() {
        return Ok(None);
    }
    let outputs = paths_in(here.alloc, here.folder, &names.outputs)?;
    let depfile = path_of(here.alloc, here.folder, &names.depfile)?;
    Ok(Some(OutputNames { outputs, depfile }))
}

fn lend(path: &Option<String>) -> Option<&str>
    ensures { option_map (λ p. p.now) result ≡ option_map string_bytes path.now }
{
    match path {
        Some(path) => Some(path.as_str()),
        None => None,
    }
}

// ---- the target

fn custom_target(
    here: &Here<'_>,
    arguments: &Arguments,
    names: OutputNames,
    inputs: Vec<Source>,
    command: Part,
) -> Result<CustomTarget, AllocError>
    ensures { IfOk result (λ t. custom_view t ≡ custom_target (here_view here.now) (arguments_data arguments.now)
        (names_view names) (map source_view inputs.items) (part_view command)) }
{
    let is_installed = arguments.flag("install", false);
    Ok(CustomTarget {
        name: String::from_str(here.alloc, arguments.text_at(0))?,
        folder: String::from_str(here.alloc, here.folder)?,
        outputs: names.outputs,
        inputs,
        needs: command.needs,
        words: command.words,
        captures: arguments.flag("capture", false),
        depfile: names.depfile,
        longest: longest(arguments),
        is_default: arguments.flag("build_by_default", is_installed),
        is_installed,
    })
}

// Returns the part of the command that a keyword gives, or its refusal.
fn part_by(
    here: &Here<'_>,
    arguments: &Arguments,
    place: &PlaceholderValues<'_>,
    name: &str,
) -> Result<Part, CallStop>
    ensures { Says part_view
        (part_by short_makers (here_view here.now) (arguments_data arguments.now) (place_view place.now) name.now) result }
{
    let values = arguments.leaves(here.alloc, name)?;
    match command_of(here, place, &values)? {
        Some(part) => Ok(part),
        None => Err(Rule::HasMeaning.refuse(here.alloc, name)?.into()),
    }
}

// Returns the command, and the files that it needs: files and targets in it, then `depends`, then `depend_files`.
fn whole_command(
    here: &Here<'_>,
    arguments: &Arguments,
    place: &PlaceholderValues<'_>,
) -> Result<Part, CallStop>
    ensures { Says part_view
        (whole_command short_makers (here_view here.now) (arguments_data arguments.now) (place_view place.now)) result }
{
    let mut command = part_by(here, arguments, place, "command")?;
    let mut depends = part_by(here, arguments, place, "depends")?;
    let mut files = files_by(here, arguments)?;
    depends.needs.append(&mut files)?;
    command.needs.append(&mut depends.needs)?;
    Ok(command)
}

// Returns the names of the files that the target makes, or the refusal of a placeholder without a value. `folder` is the folder of the
// call.
fn names_from<'p>(
    here: &Here<'_>,
    arguments: &Arguments,
    folder: &'p str,
    inputs: &'p [String],
) -> Result<OutputNames, CallStop>
    requires { folder.now ≡ here.now.folder.now }
    ensures { Says names_view (names_from (here_view here.now) (arguments_data arguments.now) (texts inputs.now)) result }
{
    let place = place_with(folder, here.depth, inputs, &[], None);
    match names_of(here.alloc, &place, arguments)? {
        Some(names) => Ok(names),
        None => Err(Rule::HasMeaning.refuse(here.alloc, "output")?.into()),
    }
}

// Returns the command, whose placeholders refer to the files with these names too. `folder` is the folder of the call.
fn command_from<'p>(
    here: &Here<'_>,
    arguments: &Arguments,
    folder: &'p str,
    inputs: &'p [String],
    names: &'p OutputNames,
) -> Result<Part, CallStop>
    requires { folder.now ≡ here.now.folder.now }
    ensures { Says part_view (whole_command short_makers (here_view here.now) (arguments_data arguments.now)
        (place_of (here_view here.now) (texts inputs.now) (names_view names.now))) result }
{
    let below = files_below(here, names)?;
    let files = below.as_ref().unwrap_or(names);
    let depfile = lend(&files.depfile);
    let place = place_with(folder, here.depth, inputs, &files.outputs, depfile);
    whole_command(here, arguments, &place)
}

fn custom_from(
    here: &Here<'_>,
    arguments: &Arguments,
    inputs: Vec<Source>,
) -> Result<CustomTarget, CallStop>
    ensures { Says custom_view
        (custom_from short_makers (here_view here.now) (arguments_data arguments.now) (map source_view inputs.items)) result }
{
    let paths = source_paths(here.alloc, here.depth, &inputs)?;
    let folder = String::from_str(here.alloc, here.folder)?;
    let names = names_from(here, arguments, &folder, &paths)?;
    let command = command_from(here, arguments, &folder, &paths, &names)?;
    Ok(custom_target(here, arguments, names, inputs, command)?)
}

fn declare_files(
    here: &Here<'_>,
    arguments: &Arguments,
    inputs: Vec<Source>,
    files: Vec<String>,
) -> Result<NamedTarget, CallStop>
    ensures { Says named_target_view (declared_files short_makers (here_view here.now) (arguments_data arguments.now)
        (map source_view inputs.items) (texts files.items)) result }
{
    let target = custom_from(here, arguments, inputs)?;
    Ok(NamedTarget {
        target: Target::Custom(Box::new(here.alloc, target)?),
        files,
    })
}

/// Returns what a call of `custom_target` declares, or its refusal.
///
/// Refused are an empty list, captured output without exactly one output file, and an install without a directory. Further refusals are a
/// path that leads out of the source directory, a placeholder without a value, and a program that was not found.
#[tactic(auto, unfolding(crate::specs::CustomTargets::declared_by))]
pub fn declare_custom(here: &Here<'_>, arguments: &Arguments) -> Result<NamedTarget, CallStop>
    ensures { Says named_target_view (declared_by short_makers (here_view here.now) (arguments_data arguments.now)) result }
{
    if let Some((rule, keyword)) = rule_broken(arguments) {
        return Err(rule.refuse(here.alloc, keyword)?.into());
    }
    let input_alone = is_only_input(arguments);
    let named = written_sources(here, arguments, input_alone)?;
    let files = files_among(here.alloc, &named)?;
    let inputs = inputs_among(here, arguments, named, input_alone)?;
    declare_files(here, arguments, inputs, files)
}
