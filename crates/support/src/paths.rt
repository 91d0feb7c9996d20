//! Implements the rules of paths: the paths that texts of a definition file name, paths below others, and the names of files.
//!
//! A text is relative to the folder of the definition file, or an absolute path below the source root. Parts `.` are removed, and `..`
//! removes the part before it. The resulting path has no such parts, and is empty for the root.

mod below;
mod folders;
mod named;
mod names;

pub use below::{before_path, ends_with_slash, is_absolute, path_below};
pub use folders::{depth_of, tidy_folder};
pub use named::{folder_below, folder_path, join_parts, path_in, tree_path};
pub use names::{base_name, has_slash, is_file_name, plain_name};
