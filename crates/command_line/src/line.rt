//! Says what a command line asks for.
ghost use Rattle.std.specs.Prelude.{IsTrue, string_bytes};
ghost use Rattle.support.specs.paths.BuildFolders.{is_tidy_folder};

/// Names what is done with a project.
#[derive(Clone, Copy)]
pub enum Task {
    /// Configure a build directory.
    Setup,
    /// Print what that asks of the machine file.
    Questions,
    /// Print the fault in which that ends, and its details.
    Fault,
}

/// Holds what a command line asks for.
#[derive(Drop)]
pub struct Line {
    /// The task.
    pub task: Task,
    /// The values of `-D`, in their order.
    pub words: Vec<String>,
    /// The machine file, as the user named it.
    pub machine_file: Option<String>,
    /// The path of the build directory, relative to the source root: 1 to 64 parts separated by `/`, none of them empty, `.` or `..`.
    pub folder: String,
    pub ghost tidy: { IsTrue (is_tidy_folder (string_bytes folder)) },
}
