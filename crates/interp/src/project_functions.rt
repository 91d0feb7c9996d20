//! Calls the functions that declare something of the project.
ghost use Rattle.std.specs.Prelude.{◌≡◌, option_map};
ghost use Rattle.arguments.specs.RowView.{row_data};
ghost use Rattle.world.specs.Prelude.{Does, MayFail, arguments_data, data_of};
ghost use Rattle.interp.specs.ProjectFunctions.{project_function, project_function_row};

use arguments::{Arguments, Row};
use build::TargetKind;
use configuration_calls::{
    configuration_data, configuration_data_row, configure_file, configure_file_row,
};
use ports::{Outputs, Tree};
use project_calls::{get_option, get_option_row};
use resource_calls::{
    Sort, declare_dependency, declare_dependency_row, dependency, dependency_row, find_program,
    find_program_row, install, install_data_row, install_headers_row, install_man_row, test,
    test_row,
};
use target_calls::{
    add_project_arguments, add_project_link_arguments, custom_target, custom_target_row, declare,
    files, files_row, include_directories, include_directories_row, library, project_words_row,
    shared_library_row, target_row,
};
use values::Value;
use values::language_names::ProjectFunction;
use world::{Caller, Stop};

/// Returns what arguments a function takes.
pub fn project_function_row(function: ProjectFunction) -> Row
    ensures { row_data result ≡ project_function_row function }
{
    match function {
        ProjectFunction::AddProjectArguments | ProjectFunction::AddProjectLinkArguments => {
            project_words_row()
        }
        ProjectFunction::CustomTarget => custom_target_row(),
        ProjectFunction::Executable | ProjectFunction::StaticLibrary => target_row(),
        ProjectFunction::Files => files_row(),
        ProjectFunction::IncludeDirectories => include_directories_row(),
        ProjectFunction::ConfigurationData => configuration_data_row(),
        ProjectFunction::ConfigureFile => configure_file_row(),
        ProjectFunction::DeclareDependency => declare_dependency_row(),
        ProjectFunction::Dependency => dependency_row(),
        ProjectFunction::FindProgram => find_program_row(),
        ProjectFunction::GetOption => get_option_row(),
        ProjectFunction::InstallData => install_data_row(),
        ProjectFunction::InstallHeaders => install_headers_row(),
        ProjectFunction::InstallMan => install_man_row(),
        ProjectFunction::Test => test_row(),
        ProjectFunction::Library | ProjectFunction::SharedLibrary => shared_library_row(),
    }
}

/// Runs a function on arguments that its row accepts. Returns its value, or `None` if it has none.
pub fn project_function<T: Tree, O: Outputs>(
    caller: &mut Caller<'_, T, O>,
    function: ProjectFunction,
    arguments: &Arguments,
) -> Result<Option<Value>, Stop>
    requires { MayFail T.seen O.seen caller.old }
    ensures { Does T.seen O.seen (option_map data_of) (project_function function (arguments_data arguments.now))
        caller.old result caller.new }
{
    match function {
        ProjectFunction::AddProjectArguments => add_project_arguments(caller, arguments),
        ProjectFunction::AddProjectLinkArguments => add_project_link_arguments(caller, arguments),
        ProjectFunction::CustomTarget => custom_target(caller, arguments),
        ProjectFunction::Executable => declare(caller, TargetKind::Executable, arguments),
        ProjectFunction::Files => files(caller, arguments),
        ProjectFunction::IncludeDirectories => include_directories(caller, arguments),
        ProjectFunction::ConfigurationData => configuration_data(caller, arguments),
        ProjectFunction::ConfigureFile => configure_file(caller, arguments),
        ProjectFunction::DeclareDependency => declare_dependency(caller, arguments),
        ProjectFunction::Dependency => dependency(caller, arguments),
        ProjectFunction::FindProgram => find_program(caller, arguments),
        ProjectFunction::GetOption => get_option(caller, arguments),
        ProjectFunction::InstallData => install(caller, Sort::Data, arguments),
        ProjectFunction::InstallHeaders => install(caller, Sort::Header, arguments),
        ProjectFunction::InstallMan => install(caller, Sort::ManPage, arguments),
        ProjectFunction::Test => test(caller, arguments),
        ProjectFunction::Library => library(caller, arguments),
        ProjectFunction::SharedLibrary => declare(caller, TargetKind::SharedLibrary, arguments),
        ProjectFunction::StaticLibrary => declare(caller, TargetKind::StaticLibrary, arguments),
    }
}
