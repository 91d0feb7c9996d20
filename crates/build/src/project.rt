//! Keeps a project: its targets, its other declarations, and the edges that build it.

mod acceptance;
mod project;
mod records;
mod refusal;
mod unholdable;

pub use project::{
    Project, edges, edges_are_writable, edges_stand_in_order, needs_are_made, no_circle,
    outputs_differ, parts, targets_refer_back,
};
pub use records::{Answer, Install, Test};
pub use refusal::ProjectError;
