//! Decides whether `build.ninja` can hold the words of compile commands, before they are made.
ghost use Rattle.std.specs.Prelude.{◌≡◌};
ghost use Rattle.std.specs.List.{list_all};
ghost use Rattle.build.specs.edge.Holding.{value_held};
ghost use Rattle.build.specs.Sources.{items_of_dependencies};
ghost use Rattle.build.specs.View.{build_view, flags_view, lists_view, surroundings_view};
ghost use Rattle.build.specs.target_edges.Words.{texts_of};
ghost use Rattle.build.specs.target_edges.Parts.{arguments_held, includes_held, options_held, words_held};

use crate::edge::{can_hold_value, can_hold_values};
use crate::target_edges::words::Brought;
use crate::{BuildTarget, Flags, Surroundings};

fn options_are_held(flags: &Flags) -> bool
    ensures { result ≡ options_held (flags_view flags.now) }
{
    can_hold_value(&flags.c_std) && can_hold_value(&flags.optimization)
}

fn each_is_held(target: &BuildTarget, what: Brought) -> bool
    ensures { result ≡ list_all (λ l. list_all value_held (texts_of what (lists_view l.value))) target.now.dependencies.items }
{
    target
        .dependencies
        .iter()
        .all(|lists| can_hold_values(what.of(lists)))
}

fn brought_are_held(target: &BuildTarget, what: Brought) -> bool
    ensures { result ≡ list_all value_held (items_of_dependencies (λ l. texts_of what l) (build_view target.now)) }
{
    each_is_held(target, what)
}

fn includes_are_held(target: &BuildTarget) -> bool
    ensures { result ≡ includes_held (build_view target.now) }
{
    can_hold_value(&target.folder)
        && can_hold_values(&target.own.include_folders)
        && brought_are_held(target, Brought::IncludeFolders)
}

fn arguments_are_held(surroundings: &Surroundings, target: &BuildTarget) -> bool
    ensures { result ≡ arguments_held (surroundings_view surroundings.now) (build_view target.now) }
{
    can_hold_values(&surroundings.arguments)
        && brought_are_held(target, Brought::CompileArgs)
        && can_hold_values(&surroundings.facts.flags.c_args)
        && can_hold_values(&target.own.compile_args)
}

/// Returns whether `build.ninja` can hold the words of the target's compile commands, up to the first that names the object.
pub fn words_are_held(surroundings: &Surroundings, target: &BuildTarget) -> bool
    ensures { result ≡ words_held (surroundings_view surroundings.now) (build_view target.now) }
{
    can_hold_values(&surroundings.facts.compiler)
        && includes_are_held(target)
        && options_are_held(&surroundings.facts.flags)
        && arguments_are_held(surroundings, target)
}
