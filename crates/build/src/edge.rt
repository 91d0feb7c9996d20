//! Defines edges of `build.ninja`, their paths, and which of them Ninja's text can hold.

mod edge;
mod folders;
mod holdable_texts;
mod parts;
mod rule;
mod seen_paths;
mod texts;

pub use edge::Edge;
pub use folders::{build_folder, source_folder};
pub use holdable_texts::{
    are_paths, are_writable, can_hold_path, can_hold_value, can_hold_values, is_path, is_some_list,
};
pub use parts::{LentEdge, OwnParts, SharedParts};
pub use rule::EdgeRule;
pub use seen_paths::{is_upward, object_path, source_path, source_root};
pub use support::text_lists::{copies, strings};
pub use texts::{first_kept, holds, lend_text, push_all, push_copies, push_text};
