//! Looks up the sources of a target.
ghost use Rattle.std.specs.Prelude.{◌≡◌, ◌++◌, IfOk, flat_map, map, option_map, string_bytes};
ghost use Rattle.build.specs.edge.Texts.{texts};
ghost use Rattle.build.specs.Data.{Made};
ghost use Rattle.build.specs.DeclaredTargetViews.{declared_target_views};
ghost use Rattle.build.specs.View.{source_view};
ghost use Rattle.sources.specs.Outputs.{output_at, outputs_at};
ghost use Rattle.sources.specs.SourcesView.{named_view};
ghost use Rattle.target_calls.specs.LongCommands.{short_sources};
ghost use Rattle.target_calls.specs.Sources.{file_in, one_made, source_in, sources_in};

use crate::repeated_lists::no_lists;
use build::edge::push_copies;
use build::{DeclaredTarget, Source};
use sources::{NamedSource, output_at, outputs_at};
use std::alloc::{AllocError, Global};
use std::rc::Rc;

/// Returns a source made of these outputs of one target.
pub fn make_of(alloc: Global, paths: &[String]) -> Result<Source, AllocError>
    ensures { IfOk result (λ s. source_view s ≡ Made (texts paths.now)) }
{
    let mut own = Vec::with_capacity(alloc, paths.len())?;
    push_copies(&mut own, paths)?;
    Ok(Source::Made(Rc::new(alloc, own)?))
}

/// Returns a source made of one output of a target.
pub fn one_made_of(alloc: Global, path: String) -> Result<Source, AllocError>
    ensures { IfOk result (λ s. source_view s ≡ one_made (string_bytes path)) }
{
    let mut paths = Vec::with_capacity(alloc, 1)?;
    paths.push(path)?;
    Ok(Source::Made(Rc::new(alloc, paths)?))
}

fn all_made(
    alloc: Global,
    earlier: &[DeclaredTarget],
    number: usize,
) -> Result<Option<Source>, AllocError>
    ensures { IfOk result (λ s. option_map source_view s ≡ option_map Made (outputs_at (declared_target_views earlier.now) number)) }
{
    match outputs_at(earlier, number) {
        Some(outputs) => Ok(Some(make_of(alloc, outputs)?)),
        None => Ok(None),
    }
}

fn one_made(
    alloc: Global,
    earlier: &[DeclaredTarget],
    number: usize,
    place: usize,
) -> Result<Option<Source>, AllocError>
    ensures { IfOk result (λ s. option_map source_view s
        ≡ option_map one_made (output_at (declared_target_views earlier.now) number place)) }
{
    match output_at(earlier, number, place) {
        Some(output) => {
            let path = String::from_str(alloc, output)?;
            Ok(Some(one_made_of(alloc, path)?))
        }
        None => Ok(None),
    }
}

fn source_in(
    alloc: Global,
    earlier: &[DeclaredTarget],
    named: NamedSource,
) -> Result<Option<Source>, AllocError>
    ensures { IfOk result (λ s. option_map source_view s ≡ source_in (declared_target_views earlier.now) (named_view named)) }
{
    match named {
        NamedSource::Tree(path) => Ok(Some(Source::Tree(path))),
        NamedSource::Built(path) => {
            Ok(Some(Source::Built(String::from_str(alloc, path.as_str())?)))
        }
        NamedSource::Outputs(number) => all_made(alloc, earlier, number),
        NamedSource::Output { target, place } => one_made(alloc, earlier, target, place),
    }
}

/// Returns the sources that are named, and `None` if one is an output that no target has.
pub fn sources_in(
    alloc: Global,
    earlier: &[DeclaredTarget],
    named: Vec<NamedSource>,
) -> Result<Option<Vec<Source>>, AllocError>
    ensures { IfOk result (λ ss. option_map (λ v. map source_view v.items) ss
        ≡ sources_in (declared_target_views earlier.now) (map named_view named.items)) }
{
    let mut sources = Vec::with_capacity(alloc, named.len())?;
    for one in named {
        match source_in(alloc, earlier, one)? {
            Some(source) => sources.push(source)?,
            None => return Ok(None),
        }
    }
    Ok(Some(sources))
}

/// Returns the sources that are named, and `None` if one is an output that no target has. If there are too many, no list of outputs is
/// repeated: the call is refused, as it is with all sources.
pub fn short_sources(
    alloc: Global,
    earlier: &[DeclaredTarget],
    named: Vec<NamedSource>,
) -> Result<Option<Vec<Source>>, AllocError>
    ensures { IfOk result (λ ss. option_map (λ v. map source_view v.items) ss
        ≡ short_sources (declared_target_views earlier.now) (map named_view named.items)) }
{
    let mut sources = Vec::with_capacity(alloc, named.len())?;
    let mut had = no_lists(alloc);
    for one in named {
        if had.leaves_source(earlier, &one)? {
            continue;
        }
        match source_in(alloc, earlier, one)? {
            Some(source) => sources.push(source)?,
            None => return Ok(None),
        }
    }
    Ok(Some(sources))
}

fn push_file(files: &mut Vec<String>, named: &NamedSource) -> Result<(), AllocError>
    ensures { IfOk result (λ _. texts files.new.items ≡ texts files.old.items ++ file_in (named_view named.now)) }
{
    match named {
        NamedSource::Tree(path) => {
            files.push(path.clone()?)?;
            Ok(())
        }
        NamedSource::Built(_) | NamedSource::Outputs(_) | NamedSource::Output { .. } => Ok(()),
    }
}

/// Returns the paths of sources that are files in the source directory.
pub fn files_among(alloc: Global, named: &[NamedSource]) -> Result<Vec<String>, AllocError>
    ensures { IfOk result (λ v. texts v.items ≡ flat_map file_in (map named_view named.now)) }
{
    let mut files = Vec::new(alloc);
    for one in named {
        push_file(&mut files, one)?;
    }
    Ok(files)
}
