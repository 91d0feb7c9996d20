//! States the laws of every run, as functions that do nothing and whose contracts hold.
ghost use Rattle.interp.specs.Laws.{MachineFilesSay};
ghost use Rattle.meson.specs.Laws.{DependsOnLooked, ListsWhatItLooksAt, NeedsAreThere};

/// Proves that a run depends only on what it looks at.
///
/// If two trees agree on the paths that the first run looks at, and two machine files agree on the questions that it asks, both runs are
/// equal.
pub fn depends_on_looked()
    ensures { DependsOnLooked }
{
    interp::depends_on_looked();
}

/// Proves that the document lists the paths that a run looks at: each once, in the order of the first look, as present or absent.
pub fn lists_what_it_looks_at()
    ensures { ListsWhatItLooksAt }
{
    interp::notes_what_it_looks_at();
}

/// Proves that each input of an edge of `build.ninja` exists when Ninja needs it.
///
/// An earlier edge makes the input, or it is a file of the tree that the run looked at, or an output that the run closed.
pub fn needs_are_there()
    ensures { NeedsAreThere }
{
    lists_what_it_looks_at();
    interp::closes_what_it_makes();
}

/// Proves that every sequence of bytes has exactly one reading as a machine file: its sections, or a fault.
pub fn machine_files_say()
    ensures { MachineFilesSay }
{
    interp::machine_files_say();
}
