//! Provides devices in memory: a tree of given files, and outputs that keep each event. They are for tests, for measurements, and for runs
//! of a project without a disk. The program uses disks.
//!
//! A plan lets each take a few bytes a call and fail once, so that a test sees short calls and failures. Contracts see them as any device
//! of `ports`: [`MemTree`] is always steady, and [`MemOutputs`] always tell.
//!
//! # Decisions
//!
//! **A device in memory states its plan, not its progress.** `with_plan` and `only` state what is planned. Private functions state which
//! call then fails, and tests show it. The clauses of the traits let any call fail, and a caller has to expect that.

mod event;
mod outputs;
mod plan;
mod tree;

pub use event::Event;
pub use outputs::MemOutputs;
pub use plan::{OutputCall, TreeCall};
pub use tree::MemTree;
