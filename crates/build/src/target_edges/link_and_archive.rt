//! Computes the edges that link and archive objects.
ghost use Rattle.std.specs.Prelude.{◌≡◌, [], ◌∷◌, ◌++◌, ◌&&◌, None, Some, map, flat_map, IfOk, string_bytes, codes};
ghost use Rattle.std.specs.List.{list_all};
ghost use Rattle.build.specs.edge.Holding.{is_path as is_path_of, is_writable, value_held};
ghost use Rattle.build.specs.edge.Texts.{texts};
ghost use Rattle.build.specs.edge.View.{edge_view};
ghost use Rattle.build.specs.DeclaredTargetViews.{declared_target_views};
ghost use Rattle.build.specs.View.{surroundings_view, build_view};
ghost use Rattle.build.specs.Files.{so_name as so_name_of};
ghost use Rattle.build.specs.target_edges.Words.{library_file, library_files, shared_folder_in, shared_folder, static_arguments_in};
ghost use Rattle.build.specs.target_edges.Words.{static_arguments, search_word, search_words, shared_words};
ghost use Rattle.build.specs.target_edges.Words.{shared_library_words, link_arguments, library_words, link_words};
ghost use Rattle.build.specs.target_edges.Edges.{archive_edge, link_edge, file_edge, symlink_edge};
ghost use Rattle.build.specs.target_edges.Parts.{archive_held, link_held};

use crate::edge::{
    Edge, EdgeRule, are_paths, can_hold_values, copies, first_kept, is_path, push_all, push_copies,
    push_text, strings,
};
use crate::target_edges::relative_paths::push_way;
use crate::target_edges::words::{Brought, join, push_brought, push_joined};
use crate::{
    BuildTarget, DeclaredTarget, Surroundings, TargetKind, build_target_at, file_at, so_name,
};
use std::alloc::{AllocError, Global};

/// Holds what a target's edges are computed from, apart from the target.
#[derive(Clone, Copy)]
pub struct LinkContext<'a> {
    pub alloc: Global,
    pub surroundings: &'a Surroundings,
    /// The earlier targets.
    pub earlier: &'a [DeclaredTarget],
    /// The numbers of the libraries that it links.
    pub libraries: &'a [u32],
}

// ---- libraries

// Appends the file of the library with this number.
fn push_library(
    files: &mut Vec<String>,
    earlier: &[DeclaredTarget],
    number: usize,
) -> Result<(), AllocError>
    ensures { IfOk result (λ _. texts files.new.items ≡ texts files.old.items ++ library_file (declared_target_views earlier.now) number) }
{
    if let Some(file) = file_at(earlier, number) {
        push_text(files, file)?;
    }
    Ok(())
}

// Returns the files of the libraries.
fn library_files(
    alloc: Global,
    earlier: &[DeclaredTarget],
    numbers: &[u32],
) -> Result<Vec<String>, AllocError>
    ensures { IfOk result (λ v. texts v.items ≡ library_files (declared_target_views earlier.now) numbers.now) }
{
    let mut files = Vec::with_capacity(alloc, numbers.len())?;
    for number in numbers {
        push_library(&mut files, earlier, *number as usize)?;
    }
    Ok(files)
}

fn library_is_held(earlier: &[DeclaredTarget], number: usize) -> bool
    ensures { result ≡ list_all is_path_of (library_file (declared_target_views earlier.now) number) }
{
    match file_at(earlier, number) {
        Some(file) => is_path(file),
        None => true,
    }
}

fn each_library_is_held(earlier: &[DeclaredTarget], numbers: &[u32]) -> bool
    ensures { result ≡ list_all (λ n. list_all is_path_of (library_file (declared_target_views earlier.now) n)) numbers.now }
{
    numbers
        .iter()
        .all(|number| library_is_held(earlier, *number as usize))
}

// Returns whether `build.ninja` can hold the files of the libraries.
fn libraries_are_held(earlier: &[DeclaredTarget], numbers: &[u32]) -> bool
    ensures { result ≡ list_all is_path_of (library_files (declared_target_views earlier.now) numbers.now) }
{
    each_library_is_held(earlier, numbers)
}

// Appends the folder of a shared library.
fn push_if_shared(folders: &mut Vec<String>, target: &BuildTarget) -> Result<(), AllocError>
    ensures { IfOk result (λ _. texts folders.new.items ≡ texts folders.old.items ++ shared_folder_in (Some (build_view target.now))) }
{
    if target.kind.is_shared() {
        folders.push(target.folder.clone()?)?;
    }
    Ok(())
}

fn push_shared_folder(
    folders: &mut Vec<String>,
    earlier: &[DeclaredTarget],
    number: usize,
) -> Result<(), AllocError>
    ensures { IfOk result (λ _. texts folders.new.items
        ≡ texts folders.old.items ++ shared_folder (declared_target_views earlier.now) number) }
{
    match build_target_at(earlier, number) {
        Some(target) => push_if_shared(folders, target),
        None => Ok(()),
    }
}

// Returns the folders of the shared libraries among these.
fn shared_folders(
    alloc: Global,
    earlier: &[DeclaredTarget],
    numbers: &[u32],
) -> Result<Vec<String>, AllocError>
    ensures { IfOk result (λ v. texts v.items ≡ flat_map (shared_folder (declared_target_views earlier.now)) numbers.now) }
{
    let mut folders = Vec::new(alloc);
    for number in numbers {
        push_shared_folder(&mut folders, earlier, *number as usize)?;
    }
    Ok(folders)
}

// Appends the link arguments of a static library's dependencies.
fn push_if_static(words: &mut Vec<String>, target: &BuildTarget) -> Result<(), AllocError>
    ensures { IfOk result (λ _. texts words.new.items ≡ texts words.old.items ++ static_arguments_in (Some (build_view target.now))) }
{
    if target.kind.is_static() {
        push_brought(words, target, Brought::LinkArgs)?;
    }
    Ok(())
}

fn push_static_argument(
    words: &mut Vec<String>,
    earlier: &[DeclaredTarget],
    number: usize,
) -> Result<(), AllocError>
    ensures { IfOk result (λ _. texts words.new.items
        ≡ texts words.old.items ++ static_arguments (declared_target_views earlier.now) number) }
{
    match build_target_at(earlier, number) {
        Some(target) => push_if_static(words, target),
        None => Ok(()),
    }
}

// Appends the link arguments of the dependencies of the static libraries among these.
fn push_static_arguments(
    words: &mut Vec<String>,
    earlier: &[DeclaredTarget],
    numbers: &[u32],
) -> Result<(), AllocError>
    ensures { IfOk result (λ _. texts words.new.items
        ≡ texts words.old.items ++ flat_map (static_arguments (declared_target_views earlier.now)) numbers.now) }
{
    for number in numbers {
        push_static_argument(words, earlier, *number as usize)?;
    }
    Ok(())
}

// ---- words

// Returns the argument that makes a program in `from` look for a shared library in `to`.
fn search_word(alloc: Global, from: &str, to: &str) -> Result<String, AllocError>
    ensures { IfOk result (λ s. string_bytes s ≡ search_word from.now to.now) }
{
    let mut word = String::from_str(alloc, "-Wl,-rpath,$ORIGIN")?;
    push_way(&mut word, alloc, from, to)?;
    Ok(word)
}

// Appends such an argument for each of the folders.
fn push_words_for(words: &mut Vec<String>, from: &str, folders: &[String]) -> Result<(), AllocError>
    ensures { IfOk result (λ _. texts words.new.items ≡ texts words.old.items ++ map (search_word from.now) (texts folders.now)) }
{
    for folder in folders {
        let word = search_word(*words.allocator(), from, folder)?;
        words.push(word)?;
    }
    Ok(())
}

fn push_search_words(
    words: &mut Vec<String>,
    context: &LinkContext,
    from: &str,
) -> Result<(), AllocError>
    ensures { IfOk result (λ _. texts words.new.items
        ≡ texts words.old.items ++ search_words (declared_target_views context.now.earlier.now) from.now context.now.libraries.now) }
{
    let all = shared_folders(context.alloc, context.earlier, context.libraries)?;
    let folders = first_kept(context.alloc, &all)?;
    push_words_for(words, from, &folders)
}

fn push_if_linked_shared(words: &mut Vec<String>, target: &BuildTarget) -> Result<(), AllocError>
    ensures { IfOk result (λ _. texts words.new.items ≡ texts words.old.items ++ shared_library_words (build_view target.now)) }
{
    push_all(words, &["-shared", "-fPIC"])?;
    let name = so_name(*words.allocator(), target)?;
    push_joined(words, "-Wl,-soname,", &name)
}

fn push_shared(words: &mut Vec<String>, target: &BuildTarget) -> Result<(), AllocError>
    ensures { IfOk result (λ _. texts words.new.items ≡ texts words.old.items ++ shared_words target.now.kind (build_view target.now)) }
{
    match target.kind {
        TargetKind::Executable | TargetKind::StaticLibrary => Ok(()),
        TargetKind::SharedLibrary => push_if_linked_shared(words, target),
    }
}

fn push_link_arguments(
    words: &mut Vec<String>,
    context: &LinkContext,
    target: &BuildTarget,
) -> Result<(), AllocError>
    ensures { IfOk result (λ _. texts words.new.items
        ≡ texts words.old.items ++ link_arguments (surroundings_view context.now.surroundings.now)
        (declared_target_views context.now.earlier.now) context.now.libraries.now (build_view target.now)) }
{
    let surroundings = context.surroundings;
    push_copies(words, &surroundings.facts.flags.c_link_args)?;
    push_copies(words, &surroundings.link_arguments)?;
    push_copies(words, &target.own.link_args)?;
    push_brought(words, target, Brought::LinkArgs)?;
    push_static_arguments(words, context.earlier, context.libraries)
}

// Appends what follows the files of the libraries.
fn push_behind(
    words: &mut Vec<String>,
    context: &LinkContext,
    target: &BuildTarget,
) -> Result<(), AllocError>
    ensures { let earlier = declared_target_views context.now.earlier.now in
        let t = build_view target.now in
        IfOk result (λ _. texts words.new.items
        ≡ texts words.old.items ++ (search_words earlier t.folder context.now.libraries.now
        ++ link_arguments (surroundings_view context.now.surroundings.now) earlier context.now.libraries.now t)) }
{
    push_search_words(words, context, &target.folder)?;
    push_link_arguments(words, context, target)
}

fn link_words(
    context: &LinkContext,
    target: &BuildTarget,
    file: &str,
    objects: &[String],
    libraries: &[String],
) -> Result<Vec<String>, AllocError>
    requires { texts libraries.now ≡ library_files (declared_target_views context.now.earlier.now) context.now.libraries.now }
    ensures { IfOk result (λ v. texts v.items
        ≡ link_words (surroundings_view context.now.surroundings.now) (declared_target_views context.now.earlier.now)
        context.now.libraries.now
        (build_view target.now) file.now (texts objects.now)) }
{
    let mut words = Vec::new(context.alloc);
    push_copies(&mut words, &context.surroundings.facts.compiler)?;
    push_shared(&mut words, target)?;
    push_all(&mut words, &["-o", file])?;
    push_copies(&mut words, objects)?;
    push_copies(&mut words, libraries)?;
    push_behind(&mut words, context, target)?;
    Ok(words)
}

// ---- edges

// Returns the edge with this rule that makes this file from these inputs, by a command of these words.
fn edge_of(
    rule: EdgeRule,
    file: &str,
    inputs: Vec<String>,
    words: Vec<String>,
    doing: &str,
) -> Result<Edge, AllocError>
    ensures { IfOk result (λ e. edge_view e ≡ record {
      rule = rule;
      outputs = file.now ∷ [];
      inputs = texts inputs.items;
      implicit = [];
      order_only = [];
      words = texts words.items;
      redirect = None;
      description = doing.now ++ file.now;
      depfile = None;
    }) }
{
    let alloc = *inputs.allocator();
    let description = join(alloc, doing, file)?;
    let outputs = strings(alloc, &[file])?;
    Ok(Edge {
        rule,
        outputs,
        inputs,
        implicit: Vec::new(alloc),
        order_only: Vec::new(alloc),
        words,
        redirect: None,
        description,
        depfile: None,
    })
}

fn archive_words(
    alloc: Global,
    archiver: &[String],
    file: &str,
    objects: &[String],
) -> Result<Vec<String>, AllocError>
    ensures { IfOk result (λ v. texts v.items ≡ texts archiver.now ++ (codes "csr" ∷ file.now ∷ texts objects.now)) }
{
    let mut words = copies(alloc, archiver)?;
    push_all(&mut words, &["csr", file])?;
    push_copies(&mut words, objects)?;
    Ok(words)
}

fn archive_edge(
    alloc: Global,
    archiver: &[String],
    file: &str,
    objects: Vec<String>,
) -> Result<Edge, AllocError>
    ensures { IfOk result (λ e. edge_view e ≡ archive_edge (texts archiver.now) file.now (texts objects.items)) }
{
    let words = archive_words(alloc, archiver, file, &objects)?;
    edge_of(EdgeRule::Ar, file, objects, words, "Archiving ")
}

fn link_edge(
    context: &LinkContext,
    target: &BuildTarget,
    file: &str,
    objects: Vec<String>,
) -> Result<Edge, AllocError>
    ensures { IfOk result (λ e. edge_view e
        ≡ link_edge (link_words (surroundings_view context.now.surroundings.now)
        (declared_target_views context.now.earlier.now) context.now.libraries.now (build_view target.now) file.now
        (texts objects.items)) file.now (texts objects.items)
        (library_files (declared_target_views context.now.earlier.now) context.now.libraries.now)) }
{
    let libraries = library_files(context.alloc, context.earlier, context.libraries)?;
    let words = link_words(context, target, file, &objects, &libraries)?;
    let mut edge = edge_of(EdgeRule::CLink, file, objects, words, "Linking target ")?;
    edge.implicit = libraries;
    Ok(edge)
}

/// Returns the edge that makes the target's file from its objects.
pub fn file_edge(
    context: &LinkContext,
    target: &BuildTarget,
    file: &str,
    objects: Vec<String>,
) -> Result<Edge, AllocError>
    ensures { IfOk result (λ e. edge_view e
        ≡ file_edge (surroundings_view context.now.surroundings.now) (declared_target_views context.now.earlier.now)
        context.now.libraries.now
        (build_view target.now) file.now (texts objects.items)) }
{
    if target.kind.is_static() {
        archive_edge(
            context.alloc,
            &context.surroundings.facts.archiver,
            file,
            objects,
        )
    } else {
        link_edge(context, target, file, objects)
    }
}

// ---- checks before the edges are made

fn archive_is_held(archiver: &[String], file: &str, objects: &[String]) -> bool
    ensures { result ≡ archive_held (texts archiver.now) file.now (texts objects.now) }
{
    is_path(file) && are_paths(objects) && can_hold_values(archiver)
}

// Returns whether `build.ninja` can hold the edge of a file that is linked with these words, apart from the files.
fn parts_are_held(context: &LinkContext, file: &str, objects: &[String], words: &[String]) -> bool
    ensures { let libraries = library_files (declared_target_views context.now.earlier.now) context.now.libraries.now in
        let compiler = texts context.now.surroundings.now.facts.compiler.items in
        result ≡ (is_path_of file.now && (list_all is_path_of (texts objects.now) && (list_all is_path_of libraries
        && (list_all value_held compiler && list_all value_held (texts words.now))))) }
{
    is_path(file)
        && are_paths(objects)
        && libraries_are_held(context.earlier, context.libraries)
        && can_hold_values(&context.surroundings.facts.compiler)
        && can_hold_values(words)
}

// Returns whether `build.ninja` can hold the edge that links. The files of the libraries are words too, but each valid path is a valid
// word.
fn link_is_held(
    context: &LinkContext,
    target: &BuildTarget,
    file: &str,
    objects: &[String],
) -> Result<bool, AllocError>
    ensures { let earlier = declared_target_views context.now.earlier.now in
        let t = build_view target.now in
        let words = shared_words target.now.kind t
        ++ library_words (surroundings_view context.now.surroundings.now) earlier context.now.libraries.now t in
        IfOk result (λ held. held ≡ link_held (texts context.now.surroundings.now.facts.compiler.items) words file.now (texts objects.now)
        (library_files earlier context.now.libraries.now)) }
{
    let mut words = Vec::new(context.alloc);
    push_shared(&mut words, target)?;
    push_behind(&mut words, context, target)?;
    Ok(parts_are_held(context, file, objects, &words))
}

/// Returns whether `build.ninja` can hold the edge that makes the target's file from its objects.
pub fn file_is_held(
    context: &LinkContext,
    target: &BuildTarget,
    file: &str,
    objects: &[String],
) -> Result<bool, AllocError>
    ensures { IfOk result (λ held. held
        ≡ is_writable (file_edge (surroundings_view context.now.surroundings.now)
        (declared_target_views context.now.earlier.now) context.now.libraries.now (build_view target.now) file.now (texts objects.now))) }
{
    if target.kind.is_static() {
        let archiver = &context.surroundings.facts.archiver;
        Ok(archive_is_held(archiver, file, objects))
    } else {
        link_is_held(context, target, file, objects)
    }
}

// ---- symbolic links

fn naming_edge(alloc: Global, file: &str, name: &str, link: &str) -> Result<Edge, AllocError>
    ensures { IfOk result (λ e. edge_view e ≡ symlink_edge file.now name.now link.now) }
{
    let words = strings(alloc, &["ln", "-f", "-s", name, link])?;
    let inputs = strings(alloc, &[file])?;
    edge_of(EdgeRule::Symlink, link, inputs, words, "Linking name ")
}

/// Returns the edges that make these symbolic links to the file of this name.
pub fn link_edges(
    alloc: Global,
    file: &str,
    name: &str,
    links: &[String],
) -> Result<Vec<Edge>, AllocError>
    ensures { IfOk result (λ v. map edge_view v.items ≡ map (symlink_edge file.now name.now) (texts links.now)) }
{
    let mut edges = Vec::new(alloc);
    for link in links {
        edges.push(naming_edge(alloc, file, name, link)?)?;
    }
    Ok(edges)
}
