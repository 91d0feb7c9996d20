//! Keeps what a project declares, and accepts or refuses each further declaration.
ghost use Rattle.std.specs.Prelude.{◌≡◌, ℕ, ◌<◌, [], ◌++◌, ◌&&◌, not, true, map, IfOk, OnOk, OnErr, Result, Ok, string_bytes};
ghost use Rattle.std.specs.Prelude.{if◌then◌else◌};
ghost use Rattle.build.specs.edge.Texts.{texts};
ghost use Rattle.build.specs.edge.View.{edge_view};
ghost use Rattle.build.specs.DeclaredTargetViews.{declared_target_views};
ghost use Rattle.build.specs.View.{facts_view, surroundings_view, target_view};
ghost use Rattle.build.specs.Libraries.{LinkBack, declared_target, linked_of};
ghost use Rattle.build.specs.project.View.{answer_view, install_view, test_view};
ghost use Rattle.build.specs.project.Whole.{IsNext};
ghost use Rattle.build.specs.project.Earlier.{refer_back};
ghost use Rattle.build.specs.project.Adding.{is_fit, target_answer, after_target, place_answer, with_target, after_answer, target_fits};
ghost use Rattle.build.specs.project.Adding.{output_answer, place_output_answer, with_output, with_present, with_absent, with_file};
ghost use Rattle.build.specs.project.Adding.{with_dependency};
ghost use Rattle.support.specs.paths.Names.{is_file_name as is_name};
ghost use Rattle.build.specs.project.Adding.{with_install, with_test, edges_at, is_folder as is_folder_of};
ghost use Rattle.build.specs.project.Adding.{edges_by_number, arguments_answer, with_arguments, with_link_arguments};
ghost use Rattle.build.specs.project.Adding.{first_build, is_build as is_build_target};
ghost use Rattle.std.specs.List.{list_any};
ghost use Rattle.build.specs.edge.Paths.{is_upward};
ghost use Rattle.build.specs.edge.Holding.{are_writable};
ghost use Rattle.support.specs.paths.Paths.{path_in as path_of};
ghost use Rattle.build.specs.Files.{default_paths};
ghost use Rattle.build.specs.project.Laws.{AtMostOnce, all_made, Reaches};
ghost use Rattle.build.specs.project.World.{new_world, edges_in, known_in, reserved_paths, taken_in};
ghost use Rattle.build.specs.project.Refused.{answer_data};
ghost use Rattle.build.specs.target_edges.Claims.{AreClaims};
ghost use Rattle.build.specs.target_edges.Edges.{target_edges as target_edges_of, edges_of};
ghost use Rattle.build.specs.target_edges.PartsView.{parts_edges};

use crate::edge::{Edge, can_hold_path, can_hold_values, copies, strings};
use crate::project::acceptance::{
    build_fits, custom_fits, has_made_sources, has_present_sources, is_build, is_folder, is_within,
};
use crate::project::records::{Answer, Install, Test};
use crate::project::refusal::{ProjectError, refuse};
use crate::project::unholdable::{unheld, unheld_word};
use crate::target_edges::{Claims, LinkContext, TargetParts, claims_of, no_parts, target_parts};
use crate::{DeclaredTarget, Facts, Surroundings, Target, linked_libraries};
use path_set::claim;
use std::alloc::{AllocError, Global};
use std::marker::Model;
use support::faults::Refusal;
use support::paths::{is_file_name, path_in};
use support::tables::{SipSet, new_set};

// Holds the paths that were looked at, and what was only noted.
struct Notes {
    present: SipSet<String>,
    absent: SipSet<String>,
    dependencies: Vec<Answer>,
    installs: Vec<Install>,
    tests: Vec<Test>,
}

impl Drop for Notes {
    fn drop(self) {
        let Notes {
            present: _,
            absent: _,
            dependencies: _,
            installs: _,
            tests: _,
        } = self;
    }
}

/// Holds a project: what `project`, the options and the machine file say of it, and what its definition files declare.
///
/// A target refers only to earlier targets, and no two outputs have the same path. Each file that an edge needs exists or is made earlier,
/// and `build.ninja` can hold each edge. A call that refuses leaves the project unchanged.
pub struct Project {
    alloc: Global,
    surroundings: Surroundings,
    linked: Vec<DeclaredTarget>,
    outputs: Vec<String>,
    // The paths that targets and `configure_file` make, and the reserved paths.
    taken: SipSet<String>,
    notes: Notes,
}

impl Drop for Project {
    fn drop(self) {
        let Project {
            alloc: _,
            surroundings: _,
            linked: _,
            outputs: _,
            taken: _,
            notes: _,
        } = self;
    }
}

impl Model for Project {
    ghost use Rattle.build.specs.project.World.{WorldData};

    ghost Value = { WorldData };

    ghost use Rattle.std.specs.Prelude.{map};
    ghost use Rattle.build.specs.edge.Texts.{texts};
    ghost use Rattle.build.specs.DeclaredTargetViews.{declared_target_views};
    ghost use Rattle.build.specs.View.{surroundings_view};
    ghost use Rattle.build.specs.project.View.{world_of};
    ghost use Rattle.build.specs.project.NotesView.{notes_view};
    ghost use Rattle.build.specs.project.Whole.{IsWhole};

    ghost view = { λ p. world_of (surroundings_view p.surroundings) (declared_target_views p.linked.items) (texts p.outputs.items)
        (notes_view p.notes) };

    ghost invariant = { λ p. IsWhole (surroundings_view p.surroundings) (declared_target_views p.linked.items) (texts p.outputs.items)
        (texts p.notes.present.keys) (texts p.taken.keys) };
}

impl Project {
    /// Returns a project in which nothing is declared yet.
    pub fn new(alloc: Global, facts: Facts) -> Result<Self, AllocError>
        ensures { IfOk result (λ p. p ≡ new_world (facts_view facts)) }
    {
        let taken = reserved_paths(alloc)?;
        Ok(Project {
            alloc,
            surroundings: Surroundings {
                facts,
                arguments: Vec::new(alloc),
                link_arguments: Vec::new(alloc),
            },
            linked: Vec::new(alloc),
            outputs: Vec::new(alloc),
            taken,
            notes: Notes {
                present: new_set(alloc),
                absent: new_set(alloc),
                dependencies: Vec::new(alloc),
                installs: Vec::new(alloc),
                tests: Vec::new(alloc),
            },
        })
    }

    // Returns whether the target fits by itself: its folder, its names, and what its kind requires.
    fn target_fits(&self, target: &Target) -> Result<bool, AllocError>
        ensures { IfOk result (λ fit. fit ≡ target_fits (linked_of self.now.targets) (target_view target.now)) }
    {
        match target {
            Target::Build(target) => build_fits(self.alloc, &self.linked, target),
            Target::Custom(target) => Ok(custom_fits(target)),
        }
    }

    /// Returns whether the target's names, sources and libraries fit. If not, `add_target` refuses it with E9. If so, the caller may look
    /// for its files.
    pub fn fits(&self, target: &Target) -> Result<bool, AllocError>
        ensures { IfOk result (λ fit. fit ≡ is_fit self.now (target_view target.now)) }
    {
        let fits = self.target_fits(target)?;
        Ok(fits && has_made_sources(&self.taken, target))
    }

    // Adds a target that fits, unless one of its paths is taken or one of its lists is too long. `objects` are the paths that its edges
    // make in addition to those by which `all` names it.
    fn place(
        &mut self,
        one: DeclaredTarget,
        objects: &[String],
        within: bool,
    ) -> Result<Result<usize, ProjectError>, AllocError>
        requires { IsNext self.old.surroundings self.old.targets self.old.outputs self.old.present
            (declared_target (linked_of self.old.targets) (target_view one.target)) (texts objects.now ++ texts one.paths.items) }
        ensures answer { IfOk result (λ r. answer_data r ≡ place_answer self.old (texts objects.now ++ texts one.paths.items) within) }
        ensures ok { OnOk result (self.new
            ≡ after_answer (place_answer self.old (texts objects.now ++ texts one.paths.items) within)
            (with_target self.old (target_view one.target)) self.old) }
        ensures err { OnErr result (self.new ≡ self.old) }
    {
        let number = self.linked.len();
        self.linked.push(one)?;
        match claim(&mut self.taken, objects, &self.linked[number].paths, within) {
            Ok(None) => {
                if within {
                    Ok(Ok(number))
                } else {
                    self.linked.truncate(number);
                    refuse(self.alloc, Refusal::Limit, "")
                }
            }
            Ok(Some(path)) => {
                let answer = refuse(self.alloc, Refusal::Duplicate, path);
                self.linked.truncate(number);
                answer
            }
            Err(refused) => {
                self.linked.truncate(number);
                Err(refused)
            }
        }
    }

    /// Adds a target and returns its number.
    ///
    /// It is refused with E9 if it does not fit. Then it is E14 if a file of the tree that it names was not looked at or is absent, and E21
    /// if `build.ninja` can't hold one of its edges. Then it is E11 if something else makes one of its paths or one occurs twice, and E22
    /// if one of its lists has more than 65,536 items.
    pub fn add_target(&mut self, target: Target) -> Result<Result<usize, ProjectError>, AllocError>
        ensures answer { IfOk result (λ r. answer_data r ≡ target_answer self.old (target_view target)) }
        ensures ok { OnOk result (self.new ≡ after_target self.old (target_view target)) }
        ensures err { OnErr result (self.new ≡ self.old) }
    {
        let fits = self.fits(&target)?;
        if !fits {
            return refuse(self.alloc, Refusal::Arguments, "");
        }
        let present = has_present_sources(&self.notes.present, &target);
        if !present {
            return refuse(self.alloc, Refusal::FileMissing, "");
        }
        let libraries = linked_libraries(self.alloc, &self.linked, &target)?;
        let claims = self.claims_with(&target, &libraries)?;
        let writable = claims.writable;
        if !writable {
            return refuse(self.alloc, Refusal::NinjaName, unheld(&target));
        }
        let within = is_within(&target);
        let one = DeclaredTarget {
            target,
            paths: claims.asked,
        };
        self.place(one, &claims.objects, within)
    }

    // Returns what the project needs to know of the edges that a target with these libraries would have.
    fn claims_with(&self, target: &Target, libraries: &[u32]) -> Result<Claims, AllocError>
        ensures { let edges = target_edges_of self.now.surroundings (linked_of self.now.targets) libraries.now (target_view target.now) in
            IfOk result (λ c. AreClaims c edges (default_paths (target_view target.now))) }
    {
        let context = LinkContext {
            alloc: self.alloc,
            surroundings: &self.surroundings,
            earlier: &self.linked,
            libraries,
        };
        claims_of(&context, target)
    }

    // Reserves the path of an output, unless it is reserved already.
    fn place_output(&mut self, path: String) -> Result<Result<(), ProjectError>, AllocError>
        requires { not (is_upward (string_bytes path)) ≡ true }
        ensures answer { IfOk result (λ r. answer_data r ≡ place_output_answer self.old (string_bytes path)) }
        ensures ok { OnOk result (self.new
            ≡ after_answer (place_output_answer self.old (string_bytes path)) (with_output self.old (string_bytes path)) self.old) }
        ensures err { OnErr result (self.new ≡ self.old) }
    {
        let own = [path.clone()?];
        let number = self.outputs.len();
        self.outputs.push(path)?;
        match claim(&mut self.taken, &own, &[], true) {
            Ok(None) => Ok(Ok(())),
            Ok(Some(path)) => {
                self.outputs.truncate(number);
                refuse(self.alloc, Refusal::Duplicate, path)
            }
            Err(refused) => {
                self.outputs.truncate(number);
                Err(refused)
            }
        }
    }

    /// Takes the path of a file that `configure_file` makes in the folder.
    ///
    /// Refuses it with the first of these: E9 if no file may have the name, E21 if `build.ninja` can't hold the path, E11 if something else
    /// makes it.
    pub fn add_output(
        &mut self,
        folder: &str,
        name: &str,
    ) -> Result<Result<(), ProjectError>, AllocError>
        ensures answer { IfOk result (λ r. answer_data r ≡ output_answer self.old folder.now name.now) }
        ensures ok { OnOk result (self.new
            ≡ after_answer (output_answer self.old folder.now name.now) (with_output self.old (path_of folder.now name.now)) self.old) }
        ensures err { OnErr result (self.new ≡ self.old) }
    {
        let fits = output_fits(folder, name);
        if !fits {
            return refuse(self.alloc, Refusal::Arguments, "");
        }
        let path = path_in(self.alloc, folder, name)?;
        let held = can_hold_path(&path);
        if !held {
            return refuse(self.alloc, Refusal::NinjaName, &path);
        }
        self.place_output(path)
    }

    /// Adds arguments of `add_project_arguments` to all compile commands.
    ///
    /// Refuses them with the first of these: E21 if `build.ninja` can't hold one of them, E24 if a build target was declared before.
    pub fn add_arguments(
        &mut self,
        words: &[String],
    ) -> Result<Result<(), ProjectError>, AllocError>
        ensures answer { IfOk result (λ r. answer_data r ≡ arguments_answer self.old (texts words.now)) }
        ensures ok { OnOk result (self.new
            ≡ after_answer (arguments_answer self.old (texts words.now)) (with_arguments self.old (texts words.now)) self.old) }
        ensures err { OnErr result (self.new ≡ self.old) }
    {
        let held = can_hold_values(words);
        if !held {
            return refuse(self.alloc, Refusal::NinjaName, unheld_word(words));
        }
        let late = some_build(&self.linked);
        if late {
            return refuse(
                self.alloc,
                Refusal::LateArguments,
                first_build(&self.linked),
            );
        }
        append(&mut self.surroundings.arguments, self.alloc, words)?;
        Ok(Ok(()))
    }

    /// Adds arguments of `add_project_link_arguments` to all link commands.
    ///
    /// Refuses them with the first of these: E21 if `build.ninja` can't hold one of them, E24 if a build target was declared before.
    pub fn add_link_arguments(
        &mut self,
        words: &[String],
    ) -> Result<Result<(), ProjectError>, AllocError>
        ensures answer { IfOk result (λ r. answer_data r ≡ arguments_answer self.old (texts words.now)) }
        ensures ok { OnOk result (self.new
            ≡ after_answer (arguments_answer self.old (texts words.now)) (with_link_arguments self.old (texts words.now)) self.old) }
        ensures err { OnErr result (self.new ≡ self.old) }
    {
        let held = can_hold_values(words);
        if !held {
            return refuse(self.alloc, Refusal::NinjaName, unheld_word(words));
        }
        let late = some_build(&self.linked);
        if late {
            return refuse(
                self.alloc,
                Refusal::LateArguments,
                first_build(&self.linked),
            );
        }
        append(&mut self.surroundings.link_arguments, self.alloc, words)?;
        Ok(Ok(()))
    }

    /// Notes a path of the tree that was looked at and is present, once.
    pub fn add_present(&mut self, path: String) -> Result<(), AllocError>
        ensures ok { OnOk result (self.new ≡ with_present self.old (string_bytes path)) }
        ensures err { OnErr result (self.new ≡ self.old) }
    {
        self.notes.present.insert(path)?;
        Ok(())
    }

    /// Notes a path of the tree that was looked at and is absent, once.
    pub fn add_absent(&mut self, path: String) -> Result<(), AllocError>
        ensures ok { OnOk result (self.new ≡ with_absent self.old (string_bytes path)) }
        ensures err { OnErr result (self.new ≡ self.old) }
    {
        self.notes.absent.insert(path)?;
        Ok(())
    }

    /// Notes a path of the tree that was looked at, once, as present or absent.
    pub fn add_file(&mut self, path: String, is_present: bool) -> Result<(), AllocError>
        ensures ok { OnOk result (self.new ≡ with_file self.old (string_bytes path) is_present) }
        ensures err { OnErr result (self.new ≡ self.old) }
    {
        if is_present {
            self.add_present(path)
        } else {
            self.add_absent(path)
        }
    }

    /// Notes the result of a call of `dependency`.
    pub fn add_dependency(&mut self, answer: Answer) -> Result<(), AllocError>
        ensures ok { OnOk result (self.new ≡ with_dependency self.old (answer_view answer)) }
        ensures err { OnErr result (self.new ≡ self.old) }
    {
        self.notes.dependencies.push(answer)?;
        Ok(())
    }

    /// Notes a file that is installed.
    pub fn add_install(&mut self, install: Install) -> Result<(), AllocError>
        ensures ok { OnOk result (self.new ≡ with_install self.old (install_view install)) }
        ensures err { OnErr result (self.new ≡ self.old) }
    {
        self.notes.installs.push(install)?;
        Ok(())
    }

    /// Notes a test.
    pub fn add_test(&mut self, test: Test) -> Result<(), AllocError>
        ensures ok { OnOk result (self.new ≡ with_test self.old (test_view test)) }
        ensures err { OnErr result (self.new ≡ self.old) }
    {
        self.notes.tests.push(test)?;
        Ok(())
    }

    // ---- readers

    /// Returns what `project`, the options and the machine file say.
    pub fn facts(&self) -> &Facts
        ensures { facts_view result.now ≡ self.now.surroundings.facts }
    {
        &self.surroundings.facts
    }

    /// Returns the targets in the order of their declaration, each with the paths by which the edge `all` names it.
    pub fn targets(&self) -> &[DeclaredTarget]
        ensures { declared_target_views result.now ≡ linked_of self.now.targets }
    {
        &self.linked
    }

    /// Returns the paths that `configure_file` makes, in order.
    pub fn outputs(&self) -> &[String]
        ensures { texts result.now ≡ self.now.outputs }
    {
        &self.outputs
    }

    /// Returns the paths of the tree that were looked at and are present, in the order of the first look.
    pub fn present(&self) -> &[String]
        ensures { texts result.now ≡ self.now.present }
    {
        self.notes.present.as_slice()
    }

    /// Returns the paths of the tree that were looked at and are absent, in the order of the first look.
    pub fn absent(&self) -> &[String]
        ensures { texts result.now ≡ self.now.absent }
    {
        self.notes.absent.as_slice()
    }

    /// Returns the results of the calls of `dependency`, in order.
    pub fn dependencies(&self) -> &[Answer]
        ensures { map answer_view result.now ≡ self.now.dependencies }
    {
        &self.notes.dependencies
    }

    /// Returns the files that are installed, in order.
    pub fn installs(&self) -> &[Install]
        ensures { map install_view result.now ≡ self.now.installs }
    {
        &self.notes.installs
    }

    /// Returns the tests, in order.
    pub fn tests(&self) -> &[Test]
        ensures { map test_view result.now ≡ self.now.tests }
    {
        &self.notes.tests
    }
}

// Returns the set of the reserved paths.
fn reserved_paths(alloc: Global) -> Result<SipSet<String>, AllocError>
    ensures { IfOk result (λ taken. texts taken.keys ≡ reserved_paths) }
{
    let reserved = strings(alloc, &["all", "build.ninja", "meson-info/introspect.json"])?;
    let mut taken = new_set(alloc);
    let _taken = claim(&mut taken, &reserved, &[], true)?;
    Ok(taken)
}

// Appends copies of the strings, or leaves the list unchanged if memory runs out.
fn append(all: &mut Vec<String>, alloc: Global, more: &[String]) -> Result<(), AllocError>
    ensures ok { OnOk result (texts all.new.items ≡ texts all.old.items ++ texts more.now) }
    ensures err { OnErr result (all.new.items ≡ all.old.items) }
{
    let mut copies = copies(alloc, more)?;
    all.append(&mut copies)
}

// Returns whether one of the targets is a build target.
fn some_build(targets: &[DeclaredTarget]) -> bool
    ensures { result ≡ list_any (λ l. is_build_target (target_view l.target)) targets.now }
{
    targets.iter().any(|linked| is_build(&linked.target))
}

// Returns the name of the first build target.
fn first_build(targets: &[DeclaredTarget]) -> &str
    ensures { result.now ≡ first_build (map (λ l. target_view l.target) targets.now) }
{
    for linked in targets {
        match &linked.target {
            Target::Build(target) => return target.name.as_str(),
            Target::Custom(_) => {}
        }
    }
    ""
}

// Returns whether `configure_file` may make a file of this name in the folder.
fn output_fits(folder: &str, name: &str) -> bool
    ensures { result ≡ (is_folder_of folder.now && is_name name.now) }
{
    is_folder(folder) && is_file_name(name)
}

// Returns the edges of a target, in parts, given the earlier targets.
fn parts_behind<'a>(
    alloc: Global,
    surroundings: &Surroundings,
    earlier: &[DeclaredTarget],
    one: &'a DeclaredTarget,
) -> Result<TargetParts<'a>, AllocError>
    requires { LinkBack (map (λ l. target_view l.target) earlier.now) }
    ensures { IfOk result (λ p. parts_edges p ≡ edges_of (surroundings_view surroundings.now) (declared_target_views earlier.now)
        (declared_target (declared_target_views earlier.now) (target_view one.now.target))) }
{
    let libraries = linked_libraries(alloc, earlier, &one.target)?;
    let context = LinkContext {
        alloc,
        surroundings,
        earlier,
        libraries: &libraries,
    };
    target_parts(&context, one)
}

/// Returns the edges of a target in parts, computed anew at each call. A number without a target has none.
pub fn parts(project: &Project, target: usize) -> Result<TargetParts<'_>, AllocError>
    ensures { IfOk result (λ p. parts_edges p ≡ edges_at project.now target) }
{
    match project.linked.get(target) {
        None => Ok(no_parts(project.alloc)),
        Some(one) => parts_behind(
            project.alloc,
            &project.surroundings,
            &project.linked[..target],
            one,
        ),
    }
}

/// Returns the edges of a target, in the order of `build.ninja`, computed anew at each call. A number without a target has none.
pub fn edges(project: &Project, target: usize) -> Result<Vec<Edge>, AllocError>
    ensures { IfOk result (λ es. map edge_view es.items ≡ edges_at project.now target) }
{
    parts(project, target)?.into_edges(project.alloc)
}

/// Proves that no path is made twice: not by two edges, nor by an edge and `configure_file`. None is reserved: `all`, `build.ninja` or the
/// path of the document.
pub fn outputs_differ(project: &Project)
    ensures { AtMostOnce (taken_in project.now) }
{
    let _ = &project.linked;
}

/// Proves that each path that an edge needs is a present file of the tree that was looked at, an output of `configure_file`, or an output
/// of an earlier edge.
pub fn needs_are_made(project: &Project)
    ensures { all_made (known_in project.now) (edges_in project.now) ≡ true }
{
    let _ = &project.linked;
}

/// Proves that no edge depends on itself.
pub fn no_circle(project: &Project)
    ensures { (i : ℕ) → ¬ Reaches (edges_in project.now) i i }
{
    let _ = &project.linked;
}

/// Proves that a target refers only to earlier targets.
///
/// Each number in its lists of libraries, and in those of its dependencies, is that of an earlier library. Each path of the build directory
/// that its sources name is an output of an edge of an earlier target, or is made by `configure_file`.
pub fn targets_refer_back(project: &Project)
    ensures { refer_back project.now ≡ true }
{
    let _ = &project.linked;
}

/// Proves that `build.ninja` can hold each edge.
pub fn edges_are_writable(project: &Project)
    ensures { are_writable (edges_in project.now) ≡ true }
{
    let _ = &project.linked;
}

/// Proves that the edges of the targets, in the order of their numbers, are all edges.
pub fn edges_stand_in_order(project: &Project)
    ensures { edges_by_number project.now ≡ edges_in project.now }
{
    let _ = &project.linked;
}
