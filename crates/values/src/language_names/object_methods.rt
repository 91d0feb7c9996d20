//! Looks methods of objects up by name, for each type of the page "Reference manual".
ghost use Rattle.std.specs.Prelude.{◌≡◌};
ghost use Rattle.values.specs.language_names.ObjectMethods.{build_target_method_named, compiler_method_named, configuration_method_named};
ghost use Rattle.values.specs.language_names.ObjectMethods.{custom_target_method_named, dependency_method_named, feature_method_named};
ghost use Rattle.values.specs.language_names.ObjectMethods.{machine_method_named, meson_method_named, output_method_named};
ghost use Rattle.values.specs.language_names.ObjectMethods.{program_method_named};

use crate::language_names::rows::named;

/// Names a method of a compiler, by what it returns.
#[derive(Clone, Copy)]
pub enum CompilerMethod {
    /// A check of one text, such as `has_function`, which returns a boolean.
    Check,
    /// A check of one text inside another, such as `has_member`, which returns a boolean.
    CheckInside,
    /// `find_library`.
    FindLibrary,
    /// `get_id`.
    Id,
    /// `sizeof` and `alignment`.
    Number,
    /// `get_supported_arguments`.
    SupportedArguments,
    /// `version`.
    Version,
}

// The methods of a compiler.
const COMPILER_METHODS: [(&str, CompilerMethod); 14] = [
    ("alignment", CompilerMethod::Number),
    ("check_header", CompilerMethod::Check),
    ("find_library", CompilerMethod::FindLibrary),
    ("get_id", CompilerMethod::Id),
    (
        "get_supported_arguments",
        CompilerMethod::SupportedArguments,
    ),
    ("has_argument", CompilerMethod::Check),
    ("has_function", CompilerMethod::Check),
    ("has_header", CompilerMethod::Check),
    ("has_header_symbol", CompilerMethod::CheckInside),
    ("has_link_argument", CompilerMethod::Check),
    ("has_member", CompilerMethod::CheckInside),
    ("has_type", CompilerMethod::Check),
    ("sizeof", CompilerMethod::Number),
    ("version", CompilerMethod::Version),
];

impl CompilerMethod {
    /// Returns the method with this name, and `None` if there is none.
    pub(crate) fn from_name(name: &str) -> Option<CompilerMethod>
        ensures { result ≡ compiler_method_named name.now }
    {
        named(&COMPILER_METHODS, name)
    }
}

/// Names a method of a configuration data object.
#[derive(Clone, Copy)]
pub enum ConfigurationMethod {
    Get,
    GetUnquoted,
    Has,
    Keys,
    MergeFrom,
    Set,
    Set10,
    SetQuoted,
}

// The methods of a configuration data object.
const CONFIGURATION_METHODS: [(&str, ConfigurationMethod); 8] = [
    ("get", ConfigurationMethod::Get),
    ("get_unquoted", ConfigurationMethod::GetUnquoted),
    ("has", ConfigurationMethod::Has),
    ("keys", ConfigurationMethod::Keys),
    ("merge_from", ConfigurationMethod::MergeFrom),
    ("set", ConfigurationMethod::Set),
    ("set10", ConfigurationMethod::Set10),
    ("set_quoted", ConfigurationMethod::SetQuoted),
];

impl ConfigurationMethod {
    /// Returns the method with this name, and `None` if there is none.
    pub(crate) fn from_name(name: &str) -> Option<ConfigurationMethod>
        ensures { result ≡ configuration_method_named name.now }
    {
        named(&CONFIGURATION_METHODS, name)
    }
}

/// Names a method of a dependency.
#[derive(Clone, Copy)]
pub enum DependencyMethod {
    Found,
    Name,
    Version,
}

impl DependencyMethod {
    /// Returns the method with this name, and `None` if there is none.
    pub(crate) fn from_name(name: &str) -> Option<DependencyMethod>
        ensures { result ≡ dependency_method_named name.now }
    {
        match name {
            "found" => Some(DependencyMethod::Found),
            "name" => Some(DependencyMethod::Name),
            "version" => Some(DependencyMethod::Version),
            _ => None,
        }
    }
}

/// Names a method of a feature.
#[derive(Clone, Copy)]
pub enum FeatureMethod {
    Allowed,
    Auto,
    Disabled,
    Enabled,
}

impl FeatureMethod {
    /// Returns the method with this name, and `None` if there is none.
    pub(crate) fn from_name(name: &str) -> Option<FeatureMethod>
        ensures { result ≡ feature_method_named name.now }
    {
        match name {
            "allowed" => Some(FeatureMethod::Allowed),
            "auto" => Some(FeatureMethod::Auto),
            "disabled" => Some(FeatureMethod::Disabled),
            "enabled" => Some(FeatureMethod::Enabled),
            _ => None,
        }
    }
}

/// Names a method of a machine.
#[derive(Clone, Copy)]
pub enum MachineMethod {
    Cpu,
    CpuFamily,
    Endian,
    System,
}

impl MachineMethod {
    /// Returns the method with this name, and `None` if there is none.
    pub(crate) fn from_name(name: &str) -> Option<MachineMethod>
        ensures { result ≡ machine_method_named name.now }
    {
        match name {
            "cpu" => Some(MachineMethod::Cpu),
            "cpu_family" => Some(MachineMethod::CpuFamily),
            "endian" => Some(MachineMethod::Endian),
            "system" => Some(MachineMethod::System),
            _ => None,
        }
    }
}

/// Names a method of `meson`.
#[derive(Clone, Copy)]
pub enum MesonMethod {
    Backend,
    /// `build_root` and `project_build_root`.
    BuildRoot,
    CurrentBuildDir,
    CurrentSourceDir,
    GetCompiler,
    IsCrossBuild,
    IsSubproject,
    ProjectName,
    ProjectVersion,
    /// `source_root` and `project_source_root`.
    SourceRoot,
    Version,
}

// The methods of `meson`.
const MESON_METHODS: [(&str, MesonMethod); 13] = [
    ("backend", MesonMethod::Backend),
    ("build_root", MesonMethod::BuildRoot),
    ("current_build_dir", MesonMethod::CurrentBuildDir),
    ("current_source_dir", MesonMethod::CurrentSourceDir),
    ("get_compiler", MesonMethod::GetCompiler),
    ("is_cross_build", MesonMethod::IsCrossBuild),
    ("is_subproject", MesonMethod::IsSubproject),
    ("project_build_root", MesonMethod::BuildRoot),
    ("project_name", MesonMethod::ProjectName),
    ("project_source_root", MesonMethod::SourceRoot),
    ("project_version", MesonMethod::ProjectVersion),
    ("source_root", MesonMethod::SourceRoot),
    ("version", MesonMethod::Version),
];

impl MesonMethod {
    /// Returns the method with this name, and `None` if there is none.
    pub(crate) fn from_name(name: &str) -> Option<MesonMethod>
        ensures { result ≡ meson_method_named name.now }
    {
        named(&MESON_METHODS, name)
    }
}

/// Names a method of a program.
#[derive(Clone, Copy)]
pub enum ProgramMethod {
    Found,
    /// `full_path` and `path`.
    FullPath,
}

impl ProgramMethod {
    /// Returns the method with this name, and `None` if there is none.
    pub(crate) fn from_name(name: &str) -> Option<ProgramMethod>
        ensures { result ≡ program_method_named name.now }
    {
        match name {
            "found" => Some(ProgramMethod::Found),
            "full_path" => Some(ProgramMethod::FullPath),
            "path" => Some(ProgramMethod::FullPath),
            _ => None,
        }
    }
}

/// Names a method of a target.
#[derive(Clone, Copy)]
pub enum TargetMethod {
    FullPath,
    Name,
    ToList,
}

impl TargetMethod {
    /// Returns the method of an executable or a library with this name, and `None` if there is none.
    pub(crate) fn build_named(name: &str) -> Option<TargetMethod>
        ensures { result ≡ build_target_method_named name.now }
    {
        match name {
            "full_path" => Some(TargetMethod::FullPath),
            "name" => Some(TargetMethod::Name),
            _ => None,
        }
    }

    /// Returns the method of a custom target with this name, and `None` if there is none.
    pub(crate) fn custom_named(name: &str) -> Option<TargetMethod>
        ensures { result ≡ custom_target_method_named name.now }
    {
        match name {
            "full_path" => Some(TargetMethod::FullPath),
            "name" => Some(TargetMethod::Name),
            "to_list" => Some(TargetMethod::ToList),
            _ => None,
        }
    }

    /// Returns the method of an output of a custom target with this name, and `None` if there is none.
    pub(crate) fn output_named(name: &str) -> Option<TargetMethod>
        ensures { result ≡ output_method_named name.now }
    {
        match name {
            "full_path" => Some(TargetMethod::FullPath),
            _ => None,
        }
    }
}
