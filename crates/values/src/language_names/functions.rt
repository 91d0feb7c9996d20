//! Looks functions up by name.
ghost use Rattle.std.specs.Prelude.{◌≡◌, option_map};
ghost use Rattle.values.specs.language_names.Functions.{function_named};
ghost use Rattle.values.specs.declared.language_names.functions.Function.TheVariants as functions;

use crate::Text;
use crate::language_names::rows::named;
use std::marker::Model;

/// Names a function of the page "Reference manual".
#[derive(Clone, Copy)]
pub enum Function {
    Assert,
    Disabler,
    Error,
    GetVariable,
    IsDisabler,
    IsVariable,
    JoinPaths,
    Message,
    /// A function that declares something about the project.
    OfProject(ProjectFunction),
    Project,
    Range,
    SetVariable,
    Subdir,
    SubdirDone,
    UnsetVariable,
    Warning,
}

/// Names a function that declares something about the project: its targets and their arguments, its options, what is installed and what is
/// tested.
#[derive(Clone, Copy)]
pub enum ProjectFunction {
    AddProjectArguments,
    AddProjectLinkArguments,
    ConfigurationData,
    ConfigureFile,
    CustomTarget,
    DeclareDependency,
    Dependency,
    Executable,
    Files,
    FindProgram,
    GetOption,
    IncludeDirectories,
    InstallData,
    InstallHeaders,
    InstallMan,
    Library,
    SharedLibrary,
    StaticLibrary,
    Test,
}

// The functions that declare nothing about the project.
const FUNCTIONS: [(&str, Function); 15] = [
    ("assert", Function::Assert),
    ("disabler", Function::Disabler),
    ("error", Function::Error),
    ("get_variable", Function::GetVariable),
    ("is_disabler", Function::IsDisabler),
    ("is_variable", Function::IsVariable),
    ("join_paths", Function::JoinPaths),
    ("message", Function::Message),
    ("project", Function::Project),
    ("range", Function::Range),
    ("set_variable", Function::SetVariable),
    ("subdir", Function::Subdir),
    ("subdir_done", Function::SubdirDone),
    ("unset_variable", Function::UnsetVariable),
    ("warning", Function::Warning),
];

// The functions that declare something about the project.
const PROJECT_FUNCTIONS: [(&str, ProjectFunction); 19] = [
    (
        "add_project_arguments",
        ProjectFunction::AddProjectArguments,
    ),
    (
        "add_project_link_arguments",
        ProjectFunction::AddProjectLinkArguments,
    ),
    ("configuration_data", ProjectFunction::ConfigurationData),
    ("configure_file", ProjectFunction::ConfigureFile),
    ("custom_target", ProjectFunction::CustomTarget),
    ("declare_dependency", ProjectFunction::DeclareDependency),
    ("dependency", ProjectFunction::Dependency),
    ("executable", ProjectFunction::Executable),
    ("files", ProjectFunction::Files),
    ("find_program", ProjectFunction::FindProgram),
    ("get_option", ProjectFunction::GetOption),
    ("include_directories", ProjectFunction::IncludeDirectories),
    ("install_data", ProjectFunction::InstallData),
    ("install_headers", ProjectFunction::InstallHeaders),
    ("install_man", ProjectFunction::InstallMan),
    ("library", ProjectFunction::Library),
    ("shared_library", ProjectFunction::SharedLibrary),
    ("static_library", ProjectFunction::StaticLibrary),
    ("test", ProjectFunction::Test),
];

/// Holds the name by which a definition file calls a function. The function is looked up once, when the name is made. The view of a name is
/// its text alone.
#[derive(Drop)]
pub struct FunctionName {
    text: Text,
    function: Option<Function>,
}

impl Model for FunctionName {
    ghost use Rattle.std.specs.Prelude.{◌≡◌, List, ℕ};
    ghost use Rattle.values.specs.language_names.Functions.{function_named};

    ghost Value = { List ℕ };

    ghost view = { λ n. n.text };

    ghost invariant = { λ n. n.function ≡ function_named n.text };
}

impl FunctionName {
    /// Returns the name with this text.
    pub fn new(text: Text) -> FunctionName
        ensures { result ≡ text }
    {
        let function = function_named(text.as_str());
        FunctionName { text, function }
    }

    /// Returns the name's text.
    pub fn as_str(&self) -> &str
        ensures { result.now ≡ self.now }
    {
        self.text.as_str()
    }

    /// Returns the function with this name, and `None` if there is none.
    pub fn function(&self) -> Option<Function>
        ensures { result ≡ function_named self.now }
    {
        self.function
    }
}

// Returns the function with this name, and `None` if there is none.
fn function_named(name: &str) -> Option<Function>
    ensures { result ≡ function_named name.now }
{
    match named(&FUNCTIONS, name) {
        Some(function) => Some(function),
        None => of_project(named(&PROJECT_FUNCTIONS, name)),
    }
}

fn of_project(function: Option<ProjectFunction>) -> Option<Function>
    ensures { result ≡ option_map functions.OfProject function }
{
    Some(Function::OfProject(function?))
}
