//! Holds what a caller passes for a run.
ghost use Rattle.embedding.specs.GivenView.{given_view};
ghost use Rattle.embedding.specs.MakingSettings.{MakesSettings};

use byte_devices::{TextsFault, texts};
use std::alloc::Global;
use world::{Settings, SettingsFault};

/// Holds what a caller passes for a run, as bytes.
#[derive(Clone, Copy)]
pub struct InputSlices<'a> {
    /// The paths of the files, each ended by a zero byte.
    pub paths: &'a [u8],
    /// The sizes of the files, in bytes.
    pub sizes: &'a [u64],
    /// The contents of the files, joined.
    pub contents: &'a [u8],
    /// The option arguments, each `name=value` and ended by a zero byte.
    pub words: &'a [u8],
    /// The bytes of the machine file, or none if there is no machine file.
    pub machine: &'a [u8],
    /// The path of the source directory, an absolute path.
    pub source_root: &'a [u8],
    /// The path of the build directory, relative to the source directory.
    pub build_folder: &'a [u8],
}

/// Says why a run can't begin.
#[derive(Clone, Copy, Debug, PartialEq, Eq)]
pub enum InputError {
    /// The slices spell no tree of files or no option arguments, or a directory isn't UTF-8.
    Slices,
    /// The source directory is no absolute path, or nothing can be built in the build directory.
    Settings,
    /// Memory ran out.
    Memory,
}

/// Returns the settings that a caller passes.
pub fn make_settings(alloc: Global, given: &InputSlices<'_>) -> Result<Settings, InputError>
    ensures { MakesSettings (given_view given.now) result }
{
    let Ok(root) = str::from_utf8(given.source_root) else {
        return Err(InputError::Slices);
    };
    let Ok(folder) = str::from_utf8(given.build_folder) else {
        return Err(InputError::Slices);
    };
    let words = match texts(alloc, given.words) {
        Ok(words) => words,
        Err(TextsFault::Bytes) => return Err(InputError::Slices),
        Err(TextsFault::Memory) => return Err(InputError::Memory),
    };
    match Settings::new(alloc, root, folder, words) {
        Ok(settings) => Ok(settings),
        Err(SettingsFault::Root) => Err(InputError::Settings),
        Err(SettingsFault::Folder) => Err(InputError::Settings),
        Err(SettingsFault::Memory) => Err(InputError::Memory),
    }
}
