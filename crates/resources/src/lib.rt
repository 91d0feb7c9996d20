//! Handles what a project takes from outside and what it provides: dependencies, programs, installed files and tests, as on the page
//! "Reference manual".
//!
//! These parts read only their arguments and the machine file. They make values of the crate `values`, and return its refusals, so the
//! function of the language that calls them refuses at its own place.
//!
//! # Decisions
//!
//! **A growing dependency is measured before it grows further.** `declare_dependency` may name others many times, each with up to 65,536
//! items. So [`join`] checks the limit before it appends each of them, and no list is longer than two such lists. A list that is too long
//! stays too long, so the refusal is that of the whole.
//!
//! **A missing directory of headers is an empty one.** If `subdir` of `install_headers` is missing or empty, `includedir` gets a slash at
//! its end, which does not show in the path of the file.
#![tactic(auto)]

mod dependency_merge;
mod installs;
mod machine_dependency;
mod question_context;
mod result_objects;
mod test_arguments;

pub use dependency_merge::{dependencies_in, join};
pub use installs::{destination, headers_folder, man_folder};
pub use machine_dependency::{dependency_that_fits, program_words};
pub use question_context::call_question;
pub use result_objects::{found_dependency, missing_dependency};
pub use test_arguments::{environment, seconds_of};
