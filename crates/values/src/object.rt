//! Defines objects: small plain data, equal by structure. Targets and configuration data are referred to by number.

ghost use Rattle.std.specs.Prelude.{◌≡◌, ◌++◌, ◌∷◌, [], List, ℕ, OnOk};

use crate::text::{Text, Texts};
use std::alloc::{AllocError, Global};
use std::marker::Model;

/// Holds an object of the page "Reference manual".
pub enum Object {
    /// The value of a feature option.
    Feature(Feature),
    Dependency(Dependency),
    Program(Program),
    /// An executable or a library, by its target number.
    BuildTarget(usize),
    /// A custom target, by its target number, and how many outputs it has.
    CustomTarget { number: usize, outputs: usize },
    /// An output of a custom target, by the numbers of both.
    CustomOutput { target: usize, output: usize },
    /// A file in the source directory, or one that is built, by its path.
    File { path: Text, is_built: bool },
    /// The paths of include directories.
    IncludeDirectories(Texts),
    /// The build, host or target machine: all three are the same machine.
    Machine,
    /// The object `meson`.
    Meson,
    /// The C compiler.
    Compiler,
    /// Configuration data, by its number.
    ConfigurationData(usize),
    Disabler,
}

impl Drop for Object {
    fn drop(self) {
        match self {
            Object::Feature(_) => {}
            Object::Dependency(_) => {}
            Object::Program(_) => {}
            Object::BuildTarget(_) => {}
            Object::CustomTarget {
                number: _,
                outputs: _,
            } => {}
            Object::CustomOutput {
                target: _,
                output: _,
            } => {}
            Object::File {
                path: _,
                is_built: _,
            } => {}
            Object::IncludeDirectories(_) => {}
            Object::Machine => {}
            Object::Meson => {}
            Object::Compiler => {}
            Object::ConfigurationData(_) => {}
            Object::Disabler => {}
        }
    }
}

/// Names the value of a feature option.
#[derive(Clone, Copy, PartialEq, Eq)]
pub enum Feature {
    Enabled,
    Disabled,
    Auto,
}

/// Holds the result of `dependency` and `declare_dependency`.
pub struct Dependency {
    pub is_found: bool,
    pub name: Text,
    pub version: Text,
    pub include_directories: Texts,
    pub compile_args: Texts,
    pub link_args: Texts,
    /// The target numbers of the libraries to link with.
    pub link_with: Numbers,
    pub sources: Sources,
}

impl Drop for Dependency {
    fn drop(self) {
        let Dependency {
            is_found: _,
            name: _,
            version: _,
            include_directories: _,
            compile_args: _,
            link_args: _,
            link_with: _,
            sources: _,
        } = self;
    }
}

/// Holds the result of `find_program`.
pub enum Program {
    NotFound,
    /// A command of the machine file, word by word.
    Words(Texts),
    /// A file in the source directory, by its path.
    File(Text),
}

impl Drop for Program {
    fn drop(self) {
        match self {
            Program::NotFound => {}
            Program::Words(_) => {}
            Program::File(_) => {}
        }
    }
}

/// Holds a source that a dependency adds to a target.
pub enum Source {
    File { path: Text, is_built: bool },
    CustomTarget { number: usize, outputs: usize },
    CustomOutput { target: usize, output: usize },
}

impl Drop for Source {
    fn drop(self) {
        match self {
            Source::File {
                path: _,
                is_built: _,
            } => {}
            Source::CustomTarget {
                number: _,
                outputs: _,
            } => {}
            Source::CustomOutput {
                target: _,
                output: _,
            } => {}
        }
    }
}

impl Clone for Source {
    ghost use Rattle.std.specs.Prelude.{◌≡◌};

    ghost is_clone = { λ s t. t ≡ s };

    fn clone(&self) -> Result<Source, AllocError> {
        match self {
            Source::File { path, is_built } => Ok(Source::File {
                path: path.clone()?,
                is_built: *is_built,
            }),
            Source::CustomTarget { number, outputs } => Ok(Source::CustomTarget {
                number: *number,
                outputs: *outputs,
            }),
            Source::CustomOutput { target, output } => Ok(Source::CustomOutput {
                target: *target,
                output: *output,
            }),
        }
    }
}

/// Holds a list of target numbers.
#[derive(Drop)]
pub struct Numbers {
    items: Vec<usize>,
}

impl Model for Numbers {
    ghost Value = { List ℕ };

    ghost view = { λ n. n.items.items };
}

impl Numbers {
    /// Returns an empty list.
    pub fn new(alloc: Global) -> Numbers
        ensures { result ≡ [] }
    {
        Numbers {
            items: Vec::new(alloc),
        }
    }

    /// Appends a number.
    pub fn push(&mut self, number: usize) -> Result<(), AllocError>
        ensures { OnOk result (self.new ≡ self.old ++ number ∷ []) }
    {
        self.items.push(number)?;
        Ok(())
    }

    /// Appends further numbers.
    pub fn extend(&mut self, others: &[usize]) -> Result<(), AllocError>
        ensures { OnOk result (self.new ≡ self.old ++ others.now) }
    {
        for number in others {
            self.push(*number)?;
        }
        Ok(())
    }

    /// Returns the numbers as a slice.
    pub fn as_slice(&self) -> &[usize]
        ensures { result.now ≡ self.now }
    {
        &self.items
    }
}

/// Holds a list of sources.
#[derive(Drop)]
pub struct Sources {
    items: Vec<Source>,
}

impl Model for Sources {
    ghost use Rattle.std.specs.Prelude.{List};
    ghost use Rattle.values.specs.declared.object.Source.{Source};

    ghost Value = { List Source };

    ghost view = { λ s. s.items.items };
}

impl Sources {
    /// Returns an empty list.
    pub fn new(alloc: Global) -> Sources
        ensures { result ≡ [] }
    {
        Sources {
            items: Vec::new(alloc),
        }
    }

    /// Appends a source.
    pub fn push(&mut self, source: Source) -> Result<(), AllocError>
        ensures { OnOk result (self.new ≡ self.old ++ source ∷ []) }
    {
        self.items.push(source)?;
        Ok(())
    }

    /// Appends further sources. Their paths are shared, and no byte is copied.
    pub fn extend(&mut self, others: &[Source]) -> Result<(), AllocError>
        ensures { OnOk result (self.new ≡ self.old ++ others.now) }
    {
        for source in others {
            self.push(source.clone()?)?;
        }
        Ok(())
    }

    /// Returns the sources as a slice.
    pub fn as_slice(&self) -> &[Source]
        ensures { result.now ≡ self.now }
    {
        &self.items
    }
}
