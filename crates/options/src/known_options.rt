//! Looks up which options a place knows.

ghost use Rattle.std.specs.Prelude.{◌≡◌, IfOk};
ghost use Rattle.std.specs.Option.{option_map};
ghost use Rattle.options.specs.option_file.View.{options_in as declared_in};
ghost use Rattle.option_values.specs.BuiltIns.{built_in_kind};
ghost use Rattle.option_values.specs.View.{AreBuiltIns, kind_in};
ghost use Rattle.options.specs.Verdicts.{scope_of, declared_kind, kind_named, kind_in_scope};

use crate::option_file::Declared;
use option_values::{OptionKind, built_in_kinds};
use std::alloc::{AllocError, Global};
use support::tables::SipMap;

/// Says which options a section of the machine file knows.
#[derive(Clone, Copy)]
pub enum OptionScope {
    /// `[built-in options]`: the options that every project has.
    BuiltIn,
    /// `[project options]`: the declared options.
    OfProject,
}

/// Returns which options the section of this name knows, or `None` if it gives no option a value.
pub fn scope_of(section: &str) -> Option<OptionScope>
    ensures { result ≡ scope_of section.now }
{
    match section {
        "built-in options" => Some(OptionScope::BuiltIn),
        "project options" => Some(OptionScope::OfProject),
        _ => None,
    }
}

/// Holds all options, with what each takes.
pub struct Known<'a> {
    built_ins: SipMap<String, OptionKind>,
    declared: &'a Declared,
    ghost are: { AreBuiltIns built_ins.entries },
}

impl Drop for Known<'_> {
    fn drop(self) {
        let Known {
            built_ins: _,
            declared: _,
        } = self;
    }
}

impl<'a> Known<'a> {
    /// Returns the options that every project has, with these declared ones.
    pub fn new(alloc: Global, declared: &'a Declared) -> Result<Known<'a>, AllocError>
        ensures { IfOk result (λ known. known.declared.now ≡ declared.now) }
    {
        let built_ins = built_in_kinds(alloc)?;
        Ok(Known {
            built_ins,
            declared,
        })
    }

    // Returns what the built-in option with this name takes.
    fn built_in_kind(&self, name: &str) -> Option<&OptionKind>
        ensures { option_map (λ k. kind_in k.now) result ≡ built_in_kind name.now }
    {
        self.built_ins.get(name)
    }

    // Returns what the declared option with this name takes.
    //
    // The declared options come after the built-in ones among the settings, in their order. So `setting`, the number of the setting with
    // this name, is a hint where to look first. Any other number is allowed too.
    #[tactic(auto, unfolding(crate::specs::Verdicts::declared_kind))]
    fn declared_kind(&self, setting: usize, name: &str) -> Option<&OptionKind>
        ensures { option_map (λ k. kind_in k.now) result ≡ declared_kind (declared_in self.now.declared.now) name.now }
    {
        let near = setting.saturating_sub(self.built_ins.len());
        match self.declared.get_near(near, name) {
            Some(declaration) => Some(&declaration.kind),
            None => None,
        }
    }

    /// Returns what the option with this name takes, built-in or declared. The number of its setting makes the look-up faster.
    #[tactic(auto, unfolding(crate::specs::Verdicts::kind_named))]
    pub fn kind_named(&self, setting: usize, name: &str) -> Option<&OptionKind>
        ensures { option_map (λ k. kind_in k.now) result ≡ kind_named (declared_in self.now.declared.now) name.now }
    {
        match self.built_in_kind(name) {
            Some(kind) => Some(kind),
            None => self.declared_kind(setting, name),
        }
    }

    /// Returns what the option with this name takes, if a section with this scope knows it. The number of its setting makes the look-up
    /// faster.
    pub fn kind_in_scope(
        &self,
        scope: OptionScope,
        setting: usize,
        name: &str,
    ) -> Option<&OptionKind>
        ensures { option_map (λ k. kind_in k.now) result ≡ kind_in_scope scope (declared_in self.now.declared.now) name.now }
    {
        match scope {
            OptionScope::BuiltIn => self.built_in_kind(name),
            OptionScope::OfProject => self.declared_kind(setting, name),
        }
    }
}
