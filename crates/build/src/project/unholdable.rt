//! Finds the text of a target that `build.ninja` can't hold. It runs only if a call is refused.
ghost use Rattle.std.specs.Prelude.{◌≡◌, map, option_map, string_bytes};
ghost use Rattle.build.specs.edge.Texts.{texts};
ghost use Rattle.build.specs.View.{build_view, custom_view, lists_view, source_view, target_view};
ghost use Rattle.build.specs.project.Unheld.{unheld_text, unheld_brought, unheld_lists, unheld_of_build, unheld_of_custom, unheld_path};
ghost use Rattle.build.specs.project.Unheld.{unheld_path_if, unheld_paths, unheld_source, unheld_sources, unheld_word, unheld_word_if};
ghost use Rattle.build.specs.project.Unheld.{unheld_words};

use crate::edge::{can_hold_path, can_hold_value};
use crate::{BuildTarget, CustomTarget, Lists, Source, Target};
use std::rc::Rc;

// ---- the first that it can't hold

fn unheld_path(path: &str) -> Option<&str>
    ensures { option_map (λ p. p.now) result ≡ unheld_path path.now }
{
    if can_hold_path(path) {
        None
    } else {
        Some(path)
    }
}

fn unheld_paths(paths: &[String]) -> Option<&str>
    ensures { option_map (λ p. p.now) result ≡ unheld_paths (texts paths.now) }
{
    for path in paths {
        if !can_hold_path(path.as_str()) {
            return Some(path.as_str());
        }
    }
    None
}

fn unheld_words(words: &[String]) -> Option<&str>
    ensures { option_map (λ w. w.now) result ≡ unheld_words (texts words.now) }
{
    for word in words {
        if !can_hold_value(word.as_str()) {
            return Some(word.as_str());
        }
    }
    None
}

fn unheld_path_if(path: &Option<String>) -> Option<&str>
    ensures { option_map (λ p. p.now) result ≡ unheld_path_if (option_map string_bytes path.now) }
{
    match path {
        None => None,
        Some(path) => unheld_path(path.as_str()),
    }
}

fn unheld_word_if(word: &Option<String>) -> Option<&str>
    ensures { option_map (λ w. w.now) result ≡ unheld_word_if (option_map string_bytes word.now) }
{
    match word {
        Some(word) if !can_hold_value(word.as_str()) => Some(word.as_str()),
        _ => None,
    }
}

fn unheld_source(source: &Source) -> Option<&str>
    ensures { option_map (λ p. p.now) result ≡ unheld_source (source_view source.now) }
{
    match source {
        Source::Tree(path) | Source::Built(path) => unheld_path(path.as_str()),
        Source::Made(_) => None,
    }
}

fn unheld_sources(sources: &[Source]) -> Option<&str>
    ensures { option_map (λ p. p.now) result ≡ unheld_sources (map source_view sources.now) }
{
    for source in sources {
        match unheld_source(source) {
            Some(path) => return Some(path),
            None => {}
        }
    }
    None
}

// ---- of a target

fn unheld_lists(lists: &Lists) -> Option<&str>
    ensures { option_map (λ t. t.now) result ≡ unheld_lists (lists_view lists.now) }
{
    unheld_sources(&lists.sources)
        .or(unheld_words(&lists.include_folders))
        .or(unheld_words(&lists.compile_args))
        .or(unheld_words(&lists.link_args))
}

fn unheld_brought(dependencies: &[Rc<Lists>]) -> Option<&str>
    ensures { option_map (λ t. t.now) result ≡ unheld_brought (map (λ l. lists_view l.value) dependencies.now) }
{
    for lists in dependencies {
        match unheld_lists(lists) {
            Some(text) => return Some(text),
            None => {}
        }
    }
    None
}

fn unheld_of_build(target: &BuildTarget) -> Option<&str>
    ensures { option_map (λ t. t.now) result ≡ unheld_of_build (build_view target.now) }
{
    unheld_path(&target.folder)
        .or(unheld_path(&target.name))
        .or(unheld_path_if(&target.soversion))
        .or(unheld_lists(&target.own))
        .or(unheld_brought(&target.dependencies))
}

fn unheld_of_custom(target: &CustomTarget) -> Option<&str>
    ensures { option_map (λ t. t.now) result ≡ unheld_of_custom (custom_view target.now) }
{
    unheld_path(&target.folder)
        .or(unheld_paths(&target.outputs))
        .or(unheld_sources(&target.inputs))
        .or(unheld_sources(&target.needs))
        .or(unheld_words(&target.words))
        .or(unheld_word_if(&target.depfile))
}

/// Returns the first text of the target that `build.ninja` can't hold, or else the target's name.
pub fn unheld(target: &Target) -> &str
    ensures { result.now ≡ unheld_text (target_view target.now) }
{
    match target {
        Target::Build(target) => unheld_of_build(target).unwrap_or(target.name.as_str()),
        Target::Custom(target) => unheld_of_custom(target).unwrap_or(target.name.as_str()),
    }
}

/// Returns the first of the words that `build.ninja` can't hold, or else an empty text.
pub fn unheld_word(words: &[String]) -> &str
    ensures { result.now ≡ unheld_word (texts words.now) }
{
    unheld_words(words).unwrap_or("")
}
