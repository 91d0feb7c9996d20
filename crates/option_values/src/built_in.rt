//! Lists the options that every project has.

ghost use Rattle.std.specs.Prelude.{◌≡◌, IfOk, map, OnOk};
ghost use Rattle.option_values.specs.BuiltIns.{built_ins, is_built_in, put_kind, add_kind};
ghost use Rattle.option_values.specs.View.{AreBuiltIns, form_kind, form_value, kind_in, kinds_in, list_in, row_in, strings_in};
ghost use Rattle.option_values.specs.View.{value_in};

use crate::choices::Choices;
use crate::kind::{FeatureState, OptionKind, OptionValue};
use std::alloc::{AllocError, Global};
use support::tables::{SipMap, new_map};
use support::text_lists::strings;

/// Names the choices of a combo.
#[derive(Clone, Copy)]
pub enum ChoiceList {
    BuildTypes,
    Levels,
    Warnings,
    Standards,
    Libraries,
}

/// Says what an option takes, and its default value.
#[derive(Clone, Copy)]
pub enum Form {
    Text(&'static str),
    Boolean(bool),
    Combo(ChoiceList, &'static str),
    /// Words, by default none.
    Words,
    /// A feature, by default `auto`.
    Feature,
}

/// Describes an option that every project has.
#[derive(Clone, Copy)]
pub struct BuiltIn {
    pub name: &'static str,
    pub form: Form,
}

const BUILT_INS: &[BuiltIn] = &[
    BuiltIn {
        name: "prefix",
        form: Form::Text("/usr/local"),
    },
    BuiltIn {
        name: "bindir",
        form: Form::Text("bin"),
    },
    BuiltIn {
        name: "libdir",
        form: Form::Text("lib"),
    },
    BuiltIn {
        name: "includedir",
        form: Form::Text("include"),
    },
    BuiltIn {
        name: "datadir",
        form: Form::Text("share"),
    },
    BuiltIn {
        name: "mandir",
        form: Form::Text("share/man"),
    },
    BuiltIn {
        name: "sysconfdir",
        form: Form::Text("etc"),
    },
    BuiltIn {
        name: "buildtype",
        form: Form::Combo(ChoiceList::BuildTypes, "debug"),
    },
    BuiltIn {
        name: "debug",
        form: Form::Boolean(true),
    },
    BuiltIn {
        name: "optimization",
        form: Form::Combo(ChoiceList::Levels, "0"),
    },
    BuiltIn {
        name: "warning_level",
        form: Form::Combo(ChoiceList::Warnings, "1"),
    },
    BuiltIn {
        name: "werror",
        form: Form::Boolean(false),
    },
    BuiltIn {
        name: "c_std",
        form: Form::Combo(ChoiceList::Standards, "none"),
    },
    BuiltIn {
        name: "default_library",
        form: Form::Combo(ChoiceList::Libraries, "shared"),
    },
    BuiltIn {
        name: "c_args",
        form: Form::Words,
    },
    BuiltIn {
        name: "c_link_args",
        form: Form::Words,
    },
    BuiltIn {
        name: "auto_features",
        form: Form::Feature,
    },
];

/// Returns these options in the order of the Meson manual's page "Built-in options".
#[tactic(auto, unfolding(crate::specs::BuiltIns::built_ins))]
pub fn built_ins() -> &'static [BuiltIn]
    ensures { map row_in result.now ≡ built_ins }
{
    BUILT_INS
}

/// Returns whether every project has an option of this name.
pub fn is_built_in(name: &str) -> bool
    ensures { result ≡ is_built_in name.now }
{
    built_ins().iter().any(|row| name == row.name)
}

fn to_list(alloc: Global, choices: ChoiceList) -> Result<Vec<String>, AllocError>
    ensures { IfOk result (λ v. strings_in v.items ≡ list_in choices) }
{
    match choices {
        ChoiceList::BuildTypes => strings(
            alloc,
            &["plain", "debug", "debugoptimized", "release", "minsize"],
        ),
        ChoiceList::Levels => strings(alloc, &["plain", "0", "g", "1", "2", "3", "s"]),
        ChoiceList::Warnings => strings(alloc, &["0", "1", "2", "3"]),
        ChoiceList::Standards => strings(
            alloc,
            &[
                "none", "c89", "c99", "c11", "c17", "gnu89", "gnu99", "gnu11", "gnu17",
            ],
        ),
        ChoiceList::Libraries => strings(alloc, &["shared", "static"]),
    }
}

// Returns what an option of this form takes.
fn kind_of(alloc: Global, form: Form) -> Result<OptionKind, AllocError>
    ensures { IfOk result (λ k. kind_in k ≡ form_kind form) }
{
    match form {
        Form::Text(_) => Ok(OptionKind::Text),
        Form::Boolean(_) => Ok(OptionKind::Boolean),
        Form::Combo(choices, _) => {
            let choices = Choices::new(alloc, to_list(alloc, choices)?)?;
            Ok(OptionKind::Combo(choices))
        }
        Form::Words => Ok(OptionKind::Words),
        Form::Feature => Ok(OptionKind::Feature),
    }
}

/// Returns the default value of an option of this form.
pub fn built_in_value(alloc: Global, form: Form) -> Result<OptionValue, AllocError>
    ensures { IfOk result (λ v. value_in v ≡ form_value form) }
{
    match form {
        Form::Text(text) => Ok(OptionValue::Text(String::from_str(alloc, text)?)),
        Form::Boolean(boolean) => Ok(OptionValue::Boolean(boolean)),
        Form::Combo(_, choice) => Ok(OptionValue::Combo(String::from_str(alloc, choice)?)),
        Form::Words => Ok(OptionValue::Array(Vec::new(alloc))),
        Form::Feature => Ok(OptionValue::Feature(FeatureState::Auto)),
    }
}

// Records what the option of this name takes.
fn put_kind(
    alloc: Global,
    kinds: &mut SipMap<String, OptionKind>,
    name: &str,
    kind: OptionKind,
) -> Result<(), AllocError>
    ensures { OnOk result (kinds_in kinds.new.entries
        ≡ put_kind (record { name = name.now; kind = kind_in kind }) (kinds_in kinds.old.entries)) }
{
    let name = String::from_str(alloc, name)?;
    kinds.insert(name, kind)?;
    Ok(())
}

// Records what the option of a row of the table takes.
fn put_kind_of(
    alloc: Global,
    kinds: &mut SipMap<String, OptionKind>,
    row: &BuiltIn,
) -> Result<(), AllocError>
    ensures { OnOk result (kinds_in kinds.new.entries ≡ add_kind (kinds_in kinds.old.entries) (row_in row.now)) }
{
    let kind = kind_of(alloc, row.form)?;
    put_kind(alloc, kinds, row.name, kind)
}

/// Returns what each of these options takes.
pub fn built_in_kinds(alloc: Global) -> Result<SipMap<String, OptionKind>, AllocError>
    ensures { IfOk result (λ kinds. AreBuiltIns kinds.entries) }
{
    let mut kinds = new_map(alloc);
    for row in built_ins() {
        put_kind_of(alloc, &mut kinds, row)?;
    }
    Ok(kinds)
}
