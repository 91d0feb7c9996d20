//! Holds what a project knows from `project`, its options and the machine file.
ghost use Rattle.std.specs.Prelude.{◌≡◌};
ghost use Rattle.build.specs.Data.{unset_flags};
ghost use Rattle.build.specs.View.{flags_view};

use std::alloc::Global;

/// Holds what edges take from the options.
pub struct Flags {
    /// `warning_level`, 0 to 3.
    pub warning_level: usize,
    /// `werror`.
    pub is_werror: bool,
    /// `c_std`: `none` if no standard is requested.
    pub c_std: String,
    /// `optimization`: `plain` if no argument sets it.
    pub optimization: String,
    /// `debug`.
    pub is_debug: bool,
    pub c_args: Vec<String>,
    pub c_link_args: Vec<String>,
}

impl Drop for Flags {
    fn drop(self) {
        let Flags {
            warning_level: _,
            is_werror: _,
            c_std: _,
            optimization: _,
            is_debug: _,
            c_args: _,
            c_link_args: _,
        } = self;
    }
}

impl Flags {
    /// Returns the flags of a project before `project` is called: all are off, empty or 0.
    pub fn unset(alloc: Global) -> Flags
        ensures { flags_view result ≡ unset_flags }
    {
        Flags {
            warning_level: 0,
            is_werror: false,
            c_std: String::new(alloc),
            optimization: String::new(alloc),
            is_debug: false,
            c_args: Vec::new(alloc),
            c_link_args: Vec::new(alloc),
        }
    }
}

/// Lists the types of options (Meson manual, page "Build options").
#[derive(Clone, Copy)]
pub enum OptionType {
    String,
    Boolean,
    Combo,
    Integer,
    Array,
    Feature,
}

/// Holds the value of an option.
#[derive(Drop)]
pub enum OptionValue {
    Text(String),
    Boolean(bool),
    Integer(i64),
    Texts(Vec<String>),
}

/// Holds an option as it is listed.
#[derive(Drop)]
pub struct OptionEntry {
    pub name: String,
    pub kind: OptionType,
    pub value: OptionValue,
}

/// Holds what `project`, the options and the machine file say of a project.
pub struct Facts {
    pub name: String,
    pub version: String,
    pub license: Vec<String>,
    /// How many folders the build directory is below the source root, at least one.
    pub depth: usize,
    /// An absolute path.
    pub source_root: String,
    /// An absolute path.
    pub build_root: String,
    /// The words of the compiler's command.
    pub compiler: Vec<String>,
    /// The words of the archiver's command.
    pub archiver: Vec<String>,
    pub flags: Flags,
    /// Every option: the built-in ones in the order of their list, then the declared ones.
    pub options: Vec<OptionEntry>,
}

impl Drop for Facts {
    fn drop(self) {
        let Facts {
            name: _,
            version: _,
            license: _,
            depth: _,
            source_root: _,
            build_root: _,
            compiler: _,
            archiver: _,
            flags: _,
            options: _,
        } = self;
    }
}

/// Holds what edges take from the project: its facts, and the arguments of `add_project_arguments` and `add_project_link_arguments`.
pub struct Surroundings {
    pub facts: Facts,
    pub arguments: Vec<String>,
    pub link_arguments: Vec<String>,
}

impl Drop for Surroundings {
    fn drop(self) {
        let Surroundings {
            facts: _,
            arguments: _,
            link_arguments: _,
        } = self;
    }
}
