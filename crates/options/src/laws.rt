//! States laws of all final values of [`resolve`](crate::resolve), as functions that do nothing and whose contracts hold.

ghost use Rattle.std.specs.Prelude.{◌≡◌, ◌++◌, ℕ, List, Ok, Some, true, false};
ghost use Rattle.machine_file.specs.Files.{Section};
ghost use Rattle.options.specs.option_file.View.{options_in as declared_in};
ghost use Rattle.options.specs.FillIns.{is_auto};
ghost use Rattle.options.specs.Laws.{all_fit, names_in, built_in_names, declared_names, last_setting};
ghost use Rattle.options.specs.Resolves.{resolved_options, verdicts};
ghost use Rattle.option_values.specs.Settings.{value_named, Setting as SettingSaid};
ghost use Rattle.options.specs.Verdicts.{Default};

use crate::option_file::Declared;

/// Proves that each final value has its option's type, and is within its choices and bounds.
pub fn values_fit(declared: &Declared)
    ensures { (defaults : List Default) (sections : List Section) (words : List (List ℕ)) (settings : List SettingSaid)
        → (resolved_options (declared_in declared.now) defaults sections words).outcome ≡ Ok settings
        → all_fit (declared_in declared.now) settings ≡ true }
{
    let _declared = declared;
}

/// Proves that the options are those that every project has, in the order of their table, followed by the declared ones in the order of
/// their declarations.
pub fn names_are_in_order(declared: &Declared)
    ensures { (defaults : List Default) (sections : List Section) (words : List (List ℕ)) (settings : List SettingSaid)
        → (resolved_options (declared_in declared.now) defaults sections words).outcome ≡ Ok settings
        → names_in settings ≡ built_in_names ++ declared_names (declared_in declared.now) }
{
    let _declared = declared;
}

/// Proves that the last of `default_options`, the machine file and the command line that gives an option a value decides. A feature that
/// stays `auto` is as `auto_features` says.
pub fn last_place_decides(declared: &Declared)
    ensures { (defaults : List Default) (sections : List Section) (words : List (List ℕ)) (settings : List SettingSaid)
        → (resolved_options (declared_in declared.now) defaults sections words).outcome ≡ Ok settings
        → (name : List ℕ) (last : SettingSaid)
        → last_setting (verdicts (declared_in declared.now) defaults sections words) name ≡ Some last
        → last.given ≡ true → is_auto last.value ≡ false → value_named settings name ≡ Some last.value }
{
    let _declared = declared;
}
