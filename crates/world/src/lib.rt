//! Defines the world in which definition files are evaluated, and the terms in which evaluation is described.
//!
//! A *world* has the present place, the variables, the project so far, the folders entered and the paths looked at. A *deed* is what a
//! function does with its evaluated arguments, and a *plan* is what evaluation does. Both are descriptions made from a few steps, which
//! compute to a *run*. A run is a value or a fault, the world after it, and the *marks* that it leaves: the steps sent to the outputs, and
//! the ends of rules.
//!
//! A deed reads the file tree by one step alone, reads the machine file by another, and makes an output by a third. Only a plan ends rules
//! and enters folders. So four laws hold of all of them, each proved by one induction. They say what a run depends on, how many rules it
//! ends, that the project notes the paths that it looks at, and that each output is closed.
//!
//! The code works alongside these definitions. A [`Store`] keeps the world, [`Steps`] counts the rules, and a [`Caller`] is what the code
//! of a function works on: a store and the devices. One relation, `Carries` of `specs/Answering.antt`, connects a result of the code with
//! the run of a deed.
//!
//! # Decisions
//!
//! **A ledger counts the steps of a run.** The counter of steps takes no bytes. It is a book and a share of `std::sync::ledger`, whose
//! total only `tick` raises. A machine integer would need a bound on the steps of a run.
#![tactic(auto)]

mod asked_question;
mod caller;
pub mod definition_files;
mod operation;
mod settings;
mod steps;
mod stop;
mod store;
mod text_buffer;

pub use asked_question::Asked;
pub use caller::{Caller, Here};
pub use operation::of_operation;
pub use settings::{Settings, SettingsFault};
pub use steps::{Steps, end_rule, ends_keep_up, new_steps};
pub use stop::Stop;
pub use store::{Place, Store};
