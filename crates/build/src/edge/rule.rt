//! Lists the rules that edges name.

/// Lists the rules of `build.ninja`. Each edge names one.
#[derive(Clone, Copy)]
pub enum EdgeRule {
    /// Compiles a C source, and learns from the compiler which headers it read.
    CCompile,
    /// Makes a static library from objects.
    Ar,
    /// Links objects and libraries into a program or a shared library.
    CLink,
    /// Makes a symbolic link.
    Symlink,
    /// Runs a custom target's command.
    Custom,
    /// Runs a custom target's command, which lists what it has read in a file.
    CustomDep,
}
