//! Declares for a function what the project has.
ghost use Rattle.std.specs.Prelude.{◌≡◌, Result};
ghost use Rattle.build.specs.edge.Texts.{texts};
ghost use Rattle.build.specs.project.View.{answer_view, install_view, test_view};
ghost use Rattle.build.specs.View.{facts_view, target_view};
ghost use Rattle.world.specs.Answering.{Acts, IsAllowed};
ghost use Rattle.world.specs.Declaring.{add_arguments, add_dependency, add_install, add_link_arguments, add_target, add_test};
ghost use Rattle.world.specs.Deed.{begin_project};
ghost use Rattle.world.specs.Making.{reserved_output};
ghost use Rattle.world.specs.Store.{world_of};

use crate::caller::Caller;
use crate::stop::Stop;
use build::project::{Answer, Install, ProjectError, Test};
use build::{Facts, Target};
use ports::{Outputs, Tree};

impl<'a, T: Tree, O: Outputs> Caller<'a, T, O> {
    ghost use Rattle.world.specs.Caller.{Does, state_of};

    /// Returns what the project returned, or stops with its refusal and detail.
    pub fn allow<A>(&self, answer: Result<A, ProjectError>) -> Result<A, Stop>
        ensures { IsAllowed (world_of self.now.store.now) answer result }
    {
        match answer {
            Ok(value) => Ok(value),
            Err(refused) => self.refuse(refused.why, refused.detail.as_str()),
        }
    }

    /// Begins the project, with nothing declared yet.
    pub fn begin(&mut self, facts: Facts) -> Result<(), Stop>
        ensures { Does T.seen O.seen (λ u. u) (begin_project (facts_view facts)) self.old result self.new }
    {
        self.store.begin(self.alloc, facts)?;
        Ok(())
    }

    /// Adds a target and returns its number, or refuses the call as the project does.
    pub fn add_target(&mut self, target: Target) -> Result<usize, Stop>
        ensures { Does T.seen O.seen (λ n. n) (add_target (target_view target)) self.old result self.new }
    {
        let answer = self.store.project_mut().add_target(target)?;
        self.allow(answer)
    }

    /// Reserves the path of a file of a folder that `configure_file` makes, or refuses the call as the project does. This begins the deed
    /// `make`, and the caller has to finish it.
    pub fn take_output(&mut self, folder: &str, name: &str) -> Result<(), Stop>
        ensures { Acts (λ u. u) (λ files. reserved_output folder.now name.now)
            (state_of T.seen O.seen self.old) result (state_of T.seen O.seen self.new) }
    {
        let answer = self.store.project_mut().add_output(folder, name)?;
        self.allow(answer)
    }

    /// Adds arguments to all compile commands, or refuses the call as the project does.
    pub fn add_arguments(&mut self, words: &[String]) -> Result<(), Stop>
        ensures { Does T.seen O.seen (λ u. u) (add_arguments (texts words.now)) self.old result self.new }
    {
        let answer = self.store.project_mut().add_arguments(words)?;
        self.allow(answer)
    }

    /// Adds arguments to all link commands, or refuses the call as the project does.
    pub fn add_link_arguments(&mut self, words: &[String]) -> Result<(), Stop>
        ensures { Does T.seen O.seen (λ u. u) (add_link_arguments (texts words.now)) self.old result self.new }
    {
        let answer = self.store.project_mut().add_link_arguments(words)?;
        self.allow(answer)
    }

    /// Records the result of a call of `dependency`.
    pub fn add_dependency(&mut self, answer: Answer) -> Result<(), Stop>
        ensures { Does T.seen O.seen (λ u. u) (add_dependency (answer_view answer)) self.old result self.new }
    {
        self.store.project_mut().add_dependency(answer)?;
        Ok(())
    }

    /// Records a file to be installed.
    pub fn add_install(&mut self, install: Install) -> Result<(), Stop>
        ensures { Does T.seen O.seen (λ u. u) (add_install (install_view install)) self.old result self.new }
    {
        self.store.project_mut().add_install(install)?;
        Ok(())
    }

    /// Records a test.
    pub fn add_test(&mut self, test: Test) -> Result<(), Stop>
        ensures { Does T.seen O.seen (λ u. u) (add_test (test_view test)) self.old result self.new }
    {
        self.store.project_mut().add_test(test)?;
        Ok(())
    }
}
