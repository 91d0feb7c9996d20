//! Decides where files are installed: <https://mesonbuild.com/Reference-manual_functions.html#install_data> and its like.
ghost use Rattle.std.specs.Prelude.{◌≡◌, ◌<◌, option_map, IfOk, IfSome, string_bytes};
ghost use Rattle.resources.specs.Installs.{destination, headers_folder, last_digit, man_folder};

use std::alloc::{AllocError, Global};
use support::paths::path_below;

/// Returns the absolute path at which a file with this name is installed. `folder` is relative to `prefix` or absolute.
pub fn destination(
    alloc: Global,
    prefix: &str,
    folder: &str,
    name: &str,
) -> Result<String, AllocError>
    ensures { IfOk result (λ path. string_bytes path ≡ destination prefix.now folder.now name.now) }
{
    let below = path_below(alloc, prefix, folder)?;
    path_below(alloc, below.as_str(), name)
}

/// Returns the default directory of headers: `subdir` below `includedir`. An empty `subdir` gives that directory itself.
pub fn headers_folder(alloc: Global, includedir: &str, subdir: &str) -> Result<String, AllocError>
    ensures { IfOk result (λ folder. string_bytes folder ≡ headers_folder includedir.now subdir.now) }
{
    path_below(alloc, includedir, subdir)
}

// Returns the last decimal digit of a name.
fn last_digit(name: &[u8]) -> Option<u8>
    ensures last { result ≡ last_digit name.now }
    ensures ascii { IfSome result (λ digit. digit < 128) }
{
    let mut found = None;
    for byte in name {
        if byte.is_ascii_digit() {
            found = Some(*byte);
        }
    }
    found
}

// Returns the directory of a digit's man section.
#[tactic(auto, using(crate::proofs::Digits::section_bytes))]
fn section_folder(alloc: Global, mandir: &str, digit: u8) -> Result<String, AllocError>
    requires { digit < 128 }
    ensures { IfOk result (λ folder. string_bytes folder ≡ Rattle.resources.specs.Installs.section_folder mandir.now digit) }
{
    let mut section = String::from_str(alloc, "man")?;
    section.push(char::from(digit))?;
    path_below(alloc, mandir, section.as_str())
}

/// Returns the default directory of a man page with this name in `mandir`: its section is the last digit of the name. Returns `None` if the
/// name has no digit.
pub fn man_folder(alloc: Global, mandir: &str, name: &str) -> Result<Option<String>, AllocError>
    ensures { IfOk result (λ folder. option_map string_bytes folder ≡ man_folder mandir.now name.now) }
{
    match last_digit(name.as_bytes()) {
        Some(digit) => Ok(Some(section_folder(alloc, mandir, digit)?)),
        None => Ok(None),
    }
}
