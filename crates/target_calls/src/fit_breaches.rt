//! Finds the rule that a refused target breaks. It runs only when a call is refused.
ghost use Rattle.std.specs.Prelude.{◌≡◌, ◌++◌, ◌∷◌, IfOk, map, option_map, string_bytes};
ghost use Rattle.std.specs.Option.{option_to_list};
ghost use Rattle.build.specs.edge.Texts.{texts};
ghost use Rattle.build.specs.project.Adding.{is_target_name};
ghost use Rattle.build.specs.Files.{file_name, link_names};
ghost use Rattle.build.specs.Sources.{is_header};
ghost use Rattle.build.specs.DeclaredTargetViews.{declared_target_views};
ghost use Rattle.build.specs.View.{build_view, custom_view, lists_view, source_view, target_view};
ghost use Rattle.target_calls.specs.FitBreaches.{bad_name, build_fit, custom_fit, file_breach, fit_breach, foreign_among, foreign_in};
ghost use Rattle.target_calls.specs.FitBreaches.{foreign_of, foreign_path, source_breach};

use arguments::Rule;
use build::project::Project;
use build::{
    BuildTarget, CustomTarget, DeclaredTarget, Lists, Source, Target, file_name, is_c, link_names,
    links_libraries,
};
use std::alloc::{AllocError, Global};
use std::rc::Rc;
use support::paths::{has_slash, is_file_name};

// ---- names

fn is_target_name(name: &str) -> bool
    ensures { result ≡ is_target_name name.now }
{
    !(name == "" || has_slash(name) || matches!(name.as_bytes(), [b'-', ..]))
}

// Returns the first name that no file may have.
fn bad_name(names: &[String]) -> Option<&str>
    ensures { option_map (λ n. n.now) result ≡ bad_name (texts names.now) }
{
    for name in names {
        if !is_file_name(name.as_str()) {
            return Some(name.as_str());
        }
    }
    None
}

// ---- sources

#[tactic(auto, using(std::proofs::lemmas::Str::Pattern::ends_text))]
fn is_header(path: &str) -> bool
    ensures { result ≡ is_header path.now }
{
    path.ends_with(".h")
}

// Returns the path of a file that is neither a C source nor a header.
fn foreign_path(source: &Source) -> Option<&str>
    ensures { option_map (λ p. p.now) result ≡ foreign_path (source_view source.now) }
{
    match source {
        Source::Tree(path) | Source::Built(path) => {
            if is_c(path) || is_header(path) {
                None
            } else {
                Some(path.as_str())
            }
        }
        Source::Made(_) => None,
    }
}

fn foreign_in(sources: &[Source]) -> Option<&str>
    ensures { option_map (λ p. p.now) result ≡ foreign_in (map source_view sources.now) }
{
    for source in sources {
        match foreign_path(source) {
            Some(path) => return Some(path),
            None => {}
        }
    }
    None
}

fn foreign_among(lists: &[Rc<Lists>]) -> Option<&str>
    ensures { option_map (λ p. p.now) result ≡ foreign_among (map (λ l. lists_view l.value) lists.now) }
{
    for one in lists {
        match foreign_in(&one.sources) {
            Some(path) => return Some(path),
            None => {}
        }
    }
    None
}

// Returns the first such file among the sources of the target, and then of its dependencies.
fn foreign_of(target: &BuildTarget) -> Option<&str>
    ensures { option_map (λ p. p.now) result ≡ foreign_of (build_view target.now) }
{
    match foreign_in(&target.own.sources) {
        Some(path) => Some(path),
        None => foreign_among(&target.dependencies),
    }
}

// ---- the target

fn source_breach<'t>(earlier: &[DeclaredTarget], target: &'t BuildTarget) -> (Rule, &'t str)
    ensures { (result.0, result.1.now)
        ≡ source_breach (declared_target_views earlier.now) (build_view target.now) (foreign_of (build_view target.now)) }
{
    match foreign_of(target) {
        Some(path) => (Rule::IsSource, path),
        None => {
            if links_libraries(earlier, target) {
                (Rule::HasSource, target.name.as_str())
            } else {
                (Rule::TakesLibraries, "link_with")
            }
        }
    }
}

// Returns the rule that a target breaks whose file may have its name, and what breaks it.
fn link_breach(
    alloc: Global,
    earlier: &[DeclaredTarget],
    target: &BuildTarget,
) -> Result<(Rule, String), AllocError>
    ensures { IfOk result (λ b. (b.0, string_bytes b.1) ≡ file_breach (declared_target_views earlier.now) (build_view target.now)
        (bad_name (link_names (build_view target.now)))) }
{
    let names = link_names(alloc, target)?;
    let (rule, text) = match bad_name(&names) {
        Some(name) => (Rule::IsFileName, name),
        None => source_breach(earlier, target),
    };
    Ok((rule, String::from_str(alloc, text)?))
}

fn file_breach(
    alloc: Global,
    earlier: &[DeclaredTarget],
    target: &BuildTarget,
) -> Result<(Rule, String), AllocError>
    ensures { IfOk result (λ b. (b.0, string_bytes b.1) ≡ file_breach (declared_target_views earlier.now) (build_view target.now)
        (bad_name (file_name (build_view target.now) ∷ link_names (build_view target.now)))) }
{
    let name = file_name(alloc, target)?;
    if is_file_name(&name) {
        link_breach(alloc, earlier, target)
    } else {
        Ok((Rule::IsFileName, name))
    }
}

fn build_fit(
    alloc: Global,
    earlier: &[DeclaredTarget],
    target: &BuildTarget,
) -> Result<(Rule, String), AllocError>
    ensures { IfOk result (λ b. (b.0, string_bytes b.1) ≡ build_fit (declared_target_views earlier.now) (build_view target.now)) }
{
    let name = target.name.as_str();
    if is_target_name(name) {
        file_breach(alloc, earlier, target)
    } else {
        Ok((Rule::IsTargetName, String::from_str(alloc, name)?))
    }
}

// Returns the name of the depfile if no file may have that name.
fn bad_depfile(target: &CustomTarget) -> Option<&str>
    ensures { option_map (λ n. n.now) result ≡ bad_name (option_to_list (custom_view target.now).depfile) }
{
    match &target.depfile {
        Some(name) if !is_file_name(name.as_str()) => Some(name.as_str()),
        _ => None,
    }
}

// Returns the first name of the target's files that no file may have.
#[tactic(auto, using(crate::proofs::Names::bad_behind))]
fn bad_name_of(target: &CustomTarget) -> Option<&str>
    ensures { option_map (λ n. n.now) result
        ≡ bad_name ((custom_view target.now).outputs ++ option_to_list (custom_view target.now).depfile) }
{
    match bad_name(&target.outputs) {
        Some(name) => Some(name),
        None => bad_depfile(target),
    }
}

fn custom_fit(alloc: Global, target: &CustomTarget) -> Result<(Rule, String), AllocError>
    ensures { IfOk result (λ b. (b.0, string_bytes b.1) ≡ custom_fit (custom_view target.now)) }
{
    let name = bad_name_of(target).unwrap_or("");
    Ok((Rule::IsFileName, String::from_str(alloc, name)?))
}

/// Returns the rule that a refused target breaks, and the text or the keyword that breaks it.
pub fn fit_breach(
    alloc: Global,
    project: &Project,
    target: &Target,
) -> Result<(Rule, String), AllocError>
    ensures { IfOk result (λ b. (b.0, string_bytes b.1) ≡ fit_breach project.now (target_view target.now)) }
{
    match target {
        Target::Build(target) => build_fit(alloc, project.targets(), target),
        Target::Custom(target) => custom_fit(alloc, target),
    }
}
