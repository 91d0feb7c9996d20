//! Holds targets as they are declared.
ghost use Rattle.std.specs.Prelude.{◌≡◌};
ghost use Rattle.build.specs.Files.{is_static, is_library, is_shared};

use std::rc::Rc;

/// Lists the kinds of build targets.
#[derive(Clone, Copy)]
pub enum TargetKind {
    Executable,
    StaticLibrary,
    SharedLibrary,
}

impl TargetKind {
    /// Returns whether the kind is that of a library.
    pub fn is_library(self) -> bool
        ensures { result ≡ is_library self }
    {
        match self {
            TargetKind::Executable => false,
            TargetKind::StaticLibrary | TargetKind::SharedLibrary => true,
        }
    }

    /// Returns whether the kind is that of a static library.
    pub fn is_static(self) -> bool
        ensures { result ≡ is_static self }
    {
        match self {
            TargetKind::StaticLibrary => true,
            TargetKind::Executable | TargetKind::SharedLibrary => false,
        }
    }

    /// Returns whether the kind is that of a shared library.
    pub fn is_shared(self) -> bool
        ensures { result ≡ is_shared self }
    {
        match self {
            TargetKind::SharedLibrary => true,
            TargetKind::Executable | TargetKind::StaticLibrary => false,
        }
    }
}

/// Holds a source of a target.
#[derive(Drop)]
pub enum Source {
    /// A file of the source tree, by its path there.
    Tree(String),
    /// An output of `configure_file`, by its path in the build directory.
    Built(String),
    /// Outputs of one earlier target, all or one, by their paths in the build directory.
    Made(Rc<Vec<String>>),
}

/// Holds the lists of a build target itself, or those that one call of `declare_dependency` or `dependency` adds to the targets that name
/// it.
///
/// A dependency that names others consists of its own lists, followed by theirs. So a dependency is a list of `Lists`, which targets share.
pub struct Lists {
    pub sources: Vec<Source>,
    /// Folders of the source tree, with `""` for its root.
    pub include_folders: Vec<String>,
    pub compile_args: Vec<String>,
    pub link_args: Vec<String>,
    /// The numbers of the libraries.
    pub link_with: Vec<usize>,
}

impl Drop for Lists {
    fn drop(self) {
        let Lists {
            sources: _,
            include_folders: _,
            compile_args: _,
            link_args: _,
            link_with: _,
        } = self;
    }
}

/// Holds an executable or a library (Meson reference manual, `executable`, `static_library` and `shared_library`).
pub struct BuildTarget {
    pub kind: TargetKind,
    /// The folder of the definition file, `""` for the root.
    pub folder: String,
    pub name: String,
    pub own: Lists,
    pub dependencies: Vec<Rc<Lists>>,
    /// For a shared library: `1.2.3` in `libfoo.so.1.2.3`.
    pub version: Option<String>,
    /// For a shared library: `1` in `libfoo.so.1`. By default it is the first number of `version`.
    pub soversion: Option<String>,
    pub is_default: bool,
    pub is_installed: bool,
}

impl Drop for BuildTarget {
    fn drop(self) {
        let BuildTarget {
            kind: _,
            folder: _,
            name: _,
            own: _,
            dependencies: _,
            version: _,
            soversion: _,
            is_default: _,
            is_installed: _,
        } = self;
    }
}

/// Holds a command that makes files (Meson reference manual, `custom_target`), with its placeholders replaced.
pub struct CustomTarget {
    pub name: String,
    /// The folder of the definition file, `""` for the root.
    pub folder: String,
    /// The names of its files, in the folder.
    pub outputs: Vec<String>,
    pub inputs: Vec<Source>,
    /// Other files that the command needs: files and targets in the command, `depends`, `depend_files`.
    pub needs: Vec<Source>,
    /// The words of the command.
    pub words: Vec<String>,
    /// Whether the first output receives what the command prints.
    pub captures: bool,
    /// The name of the file, in the folder, in which the command lists what it has read.
    pub depfile: Option<String>,
    /// The length of the longest list in its declaration.
    pub longest: usize,
    pub is_default: bool,
    pub is_installed: bool,
}

impl Drop for CustomTarget {
    fn drop(self) {
        let CustomTarget {
            name: _,
            folder: _,
            outputs: _,
            inputs: _,
            needs: _,
            words: _,
            captures: _,
            depfile: _,
            longest: _,
            is_default: _,
            is_installed: _,
        } = self;
    }
}

/// Holds a target. It is boxed because it is moved often before a project keeps it.
pub enum Target {
    Build(Box<BuildTarget>),
    Custom(Box<CustomTarget>),
}

impl Drop for Target {
    fn drop(self) {
        match self {
            Target::Build(_) => {}
            Target::Custom(_) => {}
        }
    }
}
