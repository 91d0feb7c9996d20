//! Defines what a user sets for a run.
ghost use Rattle.std.specs.Prelude.{◌≡◌, ◌≤◌, IfOk, IsTrue, map, string_bytes};
ghost use Rattle.support.specs.paths.Below.{is_absolute};

use build::edge::copies;
use std::alloc::{AllocError, Global};
use support::paths::{depth_of, is_absolute, path_below, tidy_folder};
use thiserror::Error;

/// Says why there are no [`Settings`] for some arguments.
#[derive(Clone, Copy, Debug, PartialEq, Eq, Drop, Error)]
pub enum SettingsFault {
    /// The source root does not begin with `/`.
    #[error("the source root is no absolute path")]
    Root,
    /// The build directory is absolute, has a part `..`, or has no part or more than 64.
    #[error("the build folder is no relative path of 1 to 64 parts, none of them `..`")]
    Folder,
    /// Memory ran out.
    #[error("out of memory")]
    Memory,
}

impl From<AllocError> for SettingsFault {
    ghost use Rattle.world.specs.declared.settings.SettingsFault.TheVariants.{Memory};

    ghost from_gives = { λ _ fault. fault ≡ Memory };

    fn from(_error: AllocError) -> SettingsFault {
        SettingsFault::Memory
    }
}

/// Holds the settings of a run: the option arguments, the source root and the build directory.
///
/// They are always valid: both roots are absolute, and the build directory is 1 to 64 levels below the source root.
#[derive(Drop)]
pub struct Settings {
    words: Vec<String>,
    depth: usize,
    source_root: String,
    build_root: String,
    pub ghost some_depth: { 1 ≤ depth },
    pub ghost depth_limit: { depth ≤ 64 },
    pub ghost absolute_source_root: { IsTrue (is_absolute (string_bytes source_root)) },
    pub ghost absolute_build_root: { IsTrue (is_absolute (string_bytes build_root)) },
}

impl Settings {
    ghost use Rattle.world.specs.MakingSettings.{MakesSettings};
    ghost use Rattle.world.specs.SettingsView.{settings_view};

    /// Returns the settings of a run in `source_root`, an absolute path, with the build directory `build_folder`, relative to it.
    ///
    /// `build_folder` has 1 to 64 parts divided by `/`, none of them `..`. Empty parts and `.` are removed. `words` are option arguments,
    /// `name=value` each, in the order in which they were given.
    pub fn new(
        alloc: Global,
        source_root: &str,
        build_folder: &str,
        words: Vec<String>,
    ) -> Result<Settings, SettingsFault>
        ensures { MakesSettings source_root.now build_folder.now (map string_bytes words.items) result }
    {
        if !is_absolute(source_root) {
            return Err(SettingsFault::Root);
        }
        let Some(folder) = tidy_folder(alloc, build_folder)? else {
            return Err(SettingsFault::Folder);
        };
        let build_root = path_below(alloc, source_root, folder.as_str())?;
        Ok(Settings {
            words,
            depth: depth_of(folder.as_str()),
            source_root: String::from_str(alloc, source_root)?,
            build_root,
        })
    }

    /// Returns a copy of the settings.
    pub fn copy(&self, alloc: Global) -> Result<Settings, AllocError>
        ensures { IfOk result (λ s. settings_view s ≡ settings_view self.now) }
    {
        Ok(Settings {
            words: copies(alloc, &self.words)?,
            depth: self.depth,
            source_root: String::from_str(alloc, self.source_root.as_str())?,
            build_root: String::from_str(alloc, self.build_root.as_str())?,
        })
    }

    /// Returns the option arguments, `name=value` each, in the order in which they were given.
    pub fn words(&self) -> &[String]
        ensures { map string_bytes result.now ≡ (settings_view self.now).words }
    {
        &self.words
    }

    /// Returns how many levels the build directory is below the source root, from 1 to 64.
    pub fn depth(&self) -> usize
        ensures value { result ≡ (settings_view self.now).depth }
        ensures some { 1 ≤ result }
        ensures limit { result ≤ 64 }
    {
        self.depth
    }

    /// Returns the source root, an absolute path.
    pub fn source_root(&self) -> &str
        ensures value { result.now ≡ (settings_view self.now).source_root }
        ensures absolute { IsTrue (is_absolute result.now) }
    {
        self.source_root.as_str()
    }

    /// Returns the build directory, an absolute path.
    pub fn build_root(&self) -> &str
        ensures value { result.now ≡ (settings_view self.now).build_root }
        ensures absolute { IsTrue (is_absolute result.now) }
    {
        self.build_root.as_str()
    }
}
