//! Keeps the project of a run.
ghost use Rattle.std.specs.Prelude.{◌≡◌, IfOk, OnOk, string_bytes};
ghost use Rattle.build.specs.edge.Texts.{put_all_new, texts};
ghost use Rattle.build.specs.View.{facts_view};
ghost use Rattle.std.specs.Borrow.{sem};
ghost use Rattle.world.specs.Lending.{LendsProject};
ghost use Rattle.world.specs.Store.{world_after_change, world_of};
ghost use Rattle.world.specs.World.{facts_after_project, begun_project, world_after_look};

use crate::store::Store;
use build::Facts;
use build::project::Project;
use std::alloc::{AllocError, Global};

// Notes again which paths were present.
fn note_present(project: &mut Project, paths: &[String]) -> Result<(), AllocError>
    ensures { OnOk result (project.new ≡ record project.old { present = put_all_new project.old.present (texts paths.now) }) }
{
    for path in paths {
        project.add_present(path.clone()?)?;
    }
    Ok(())
}

// Notes again which paths were absent.
fn note_absent(project: &mut Project, paths: &[String]) -> Result<(), AllocError>
    ensures { OnOk result (project.new ≡ record project.old { absent = put_all_new project.old.absent (texts paths.now) }) }
{
    for path in paths {
        project.add_absent(path.clone()?)?;
    }
    Ok(())
}

// Returns a project without declarations, which notes the paths that were looked at before.
fn begun_project(alloc: Global, facts: Facts, before: &Project) -> Result<Project, AllocError>
    ensures { IfOk result (λ p. p ≡ begun_project (facts_view facts) before.now) }
{
    let mut project = Project::new(alloc, facts)?;
    note_present(&mut project, before.present())?;
    note_absent(&mut project, before.absent())?;
    Ok(project)
}

impl Store {
    /// Returns the project so far.
    pub fn project(&self) -> &Project
        ensures { result.now ≡ self.now.project }
    {
        &self.project
    }

    /// Returns whether `project` was called.
    pub fn is_begun(&self) -> bool
        ensures { result ≡ self.now.is_begun }
    {
        self.is_begun
    }

    /// Records that `project` was called with these facts, and begins a project without declarations.
    pub fn begin(&mut self, alloc: Global, facts: Facts) -> Result<(), AllocError>
        ensures world { OnOk result (world_of self.new ≡ world_after_change (facts_after_project (facts_view facts)) (world_of self.old)) }
        ensures names { self.new.names ≡ self.old.names }
    {
        let project = begun_project(alloc, facts, &self.project)?;
        self.project = project;
        self.is_begun = true;
        Ok(())
    }

    /// Records that a path was looked at, and whether a file is there.
    pub fn note_look(&mut self, alloc: Global, path: &str, is_there: bool) -> Result<(), AllocError>
        ensures world { OnOk result (world_of self.new ≡ world_after_look (world_of self.old) path.now is_there) }
        ensures names { self.new.names ≡ self.old.names }
    {
        self.note_own_look(String::from_str(alloc, path)?, is_there)
    }

    /// Records that a path, which is passed by value, was looked at, and whether a file is there.
    pub fn note_own_look(&mut self, path: String, is_there: bool) -> Result<(), AllocError>
        ensures world { OnOk result (world_of self.new ≡ world_after_look (world_of self.old) (string_bytes path) is_there) }
        ensures names { self.new.names ≡ self.old.names }
    {
        self.looked.push(&path)?;
        if is_there {
            self.project.add_present(path)
        } else {
            self.project.add_absent(path)
        }
    }

    /// Lends the project, for a declaration.
    pub fn project_mut(&mut self) -> &mut Project
        ensures* writes_back { sem 𝓛 (LendsProject self.entry result) }
        ensures value { result.now ≡ self.old.project }
    {
        &mut self.project
    }
}
