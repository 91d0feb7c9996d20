//! Describes what a run asks a machine file.

ghost use Rattle.std.specs.Prelude.{◌≡◌, IfOk, map, string_bytes};
ghost use Rattle.machine_file.specs.Lookups.{check_key};
ghost use Rattle.machine_file.specs.Questions.{Key, check_topic, dependency_topic, question_about};
ghost use Rattle.machine_file.specs.QuestionsView.{all_shown_in, question_in, topic_in};

use crate::aside::{Aside, ShownAside};
use std::alloc::{AllocError, Global};

/// Names the topic of a question to the machine file.
pub enum Topic {
    /// The value of a key in a section, such as `has_function fsync` in `[checks]`.
    Key(String, String),
    /// A whole section, such as `[dependency zlib]`.
    Whole(String),
    /// The sections of options: the names of the built-in options, and of those that the project declares.
    Options(Vec<String>, Vec<String>),
}

impl Drop for Topic {
    fn drop(self) {
        match self {
            Topic::Key(_, _) => {}
            Topic::Whole(_) => {}
            Topic::Options(_, _) => {}
        }
    }
}

/// Holds a question, and what else the call states.
#[derive(Drop)]
pub struct Question {
    pub topic: Topic,
    pub asides: Vec<Aside>,
}

impl Topic {
    /// Returns the topic of a key in a section.
    pub fn key(alloc: Global, section: &str, key: &str) -> Result<Topic, AllocError>
        ensures { IfOk result (λ t. topic_in t ≡ Key section.now key.now) }
    {
        let section = String::from_str(alloc, section)?;
        Ok(Topic::Key(section, String::from_str(alloc, key)?))
    }

    /// Returns the topic of a check of the compiler, given its method and its arguments.
    pub fn check(alloc: Global, method: &str, arguments: &[&str]) -> Result<Topic, AllocError>
        ensures { IfOk result (λ t. topic_in t ≡ check_topic method.now (map (λ a. a.now) arguments.now)) }
    {
        let section = String::from_str(alloc, "checks")?;
        Ok(Topic::Key(section, check_key(alloc, method, arguments)?))
    }

    /// Returns the topic of the dependency with this name.
    pub fn dependency(alloc: Global, name: &str) -> Result<Topic, AllocError>
        ensures { IfOk result (λ t. topic_in t ≡ dependency_topic name.now) }
    {
        let mut section = String::from_str(alloc, "dependency ")?;
        section.push_str(name)?;
        Ok(Topic::Whole(section))
    }
}

impl Question {
    /// Returns a question whose call states nothing else.
    pub fn about(alloc: Global, topic: Topic) -> Question
        ensures { question_in result ≡ question_about (topic_in topic) }
    {
        Question {
            topic,
            asides: Vec::new(alloc),
        }
    }

    /// Returns the asides with their words.
    pub fn shown_asides(&self, alloc: Global) -> Result<Vec<ShownAside>, AllocError>
        ensures { IfOk result (λ shown. all_shown_in shown.items ≡ (question_in self.now).asides) }
    {
        let mut shown = Vec::new(alloc);
        for aside in &self.asides {
            shown.push(aside.shown(alloc)?)?;
        }
        Ok(shown)
    }
}

// Returns the key of a check: the method, and each argument after a space.
pub(crate) fn check_key(
    alloc: Global,
    method: &str,
    arguments: &[&str],
) -> Result<String, AllocError>
    ensures { IfOk result (λ key. string_bytes key ≡ check_key method.now (map (λ a. a.now) arguments.now)) }
{
    let mut key = String::from_str(alloc, method)?;
    for argument in arguments {
        key.push_str(" ")?;
        key.push_str(argument)?;
    }
    Ok(key)
}
