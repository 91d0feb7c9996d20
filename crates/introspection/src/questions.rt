//! Writes what a run asks a machine file, as lines of JSON.
ghost use Rattle.std.specs.Prelude.{◌≡◌, ◌++◌, IfOk, OnOk, codes, map, option_map, string_bytes};
ghost use Rattle.serde_json.specs.Events.{SendsValue};
ghost use Rattle.machine_file.specs.QuestionsView.{all_shown_in, topic_in};
ghost use Rattle.machine_file.specs.Questions.{answer_to};
ghost use Rattle.machine_file.specs.View.{entries_of, machine_in, strings_in, value_in};
ghost use Rattle.introspection.specs.Questions.{beside_text, entry_member, head_of, head_text, line_of, line_text, option_line, topic_lines};
ghost use Rattle.introspection.specs.Questions.{ordered_object, shown_beside, shown_key, shown_reply, shown_value};
ghost use Rattle.introspection.specs.QuestionsView.{line_in, reply_in};

use crate::serialization::printed;
use machine_file::{Machine, MachineValue, Section, ShownAside, Topic};
use serde::{Described, Serialize, Serializer};
use serde_json::Value;
use std::alloc::{AllocError, Global};

/// Holds the answer of a machine file.
#[derive(Clone, Copy)]
pub enum Reply<'a> {
    /// The value of a key, if the file has it.
    Value(Option<&'a MachineValue>),
    /// The entries of a section, if the file has it.
    Section(Option<&'a Section>),
}

/// Holds the topic of a question, the answer, and what else the call stated.
#[derive(Clone, Copy)]
pub struct QuestionLine<'a> {
    pub section: &'a str,
    /// The key, or `None` if the question is about the whole section.
    pub key: Option<&'a str>,
    pub reply: Reply<'a>,
    pub asides: &'a [ShownAside],
}

// Appends the lines of the options with these names.
fn add_options<'a>(
    lines: &mut Vec<QuestionLine<'a>>,
    machine: &'a Machine,
    section: &'a str,
    names: &'a [String],
    asides: &'a [ShownAside],
) -> Result<(), AllocError>
    ensures { IfOk result (λ _. map line_in lines.new.items ≡ map line_in lines.old.items
        ++ map (option_line (machine_in machine.now) (all_shown_in asides.now) section.now) (strings_in names.now)) }
{
    for name in names {
        lines.push(QuestionLine {
            section,
            key: Some(name.as_str()),
            reply: Reply::Value(machine.get(section, name.as_str())),
            asides,
        })?;
    }
    Ok(())
}

// Returns the lines of options: first the built-in ones, then those that the project declares.
fn option_lines<'a>(
    alloc: Global,
    machine: &'a Machine,
    built_in: &'a [String],
    declared: &'a [String],
    asides: &'a [ShownAside],
) -> Result<Vec<QuestionLine<'a>>, AllocError>
    ensures { IfOk result (λ lines. map line_in lines.items
        ≡ map (option_line (machine_in machine.now) (all_shown_in asides.now) (codes "built-in options")) (strings_in built_in.now)
        ++ map (option_line (machine_in machine.now) (all_shown_in asides.now) (codes "project options")) (strings_in declared.now)) }
{
    let mut lines = Vec::new(alloc);
    add_options(&mut lines, machine, "built-in options", built_in, asides)?;
    add_options(&mut lines, machine, "project options", declared, asides)?;
    Ok(lines)
}

/// Returns the lines of a question about this topic, with the answer of this machine file: one, or one for each requested option. Each has
/// these asides.
pub fn question_lines<'a>(
    alloc: Global,
    machine: &'a Machine,
    topic: &'a Topic,
    asides: &'a [ShownAside],
) -> Result<Vec<QuestionLine<'a>>, AllocError>
    ensures { IfOk result (λ lines. map line_in lines.items
        ≡ topic_lines (topic_in topic.now) (answer_to (machine_in machine.now) (topic_in topic.now)) (all_shown_in asides.now)) }
{
    match topic {
        Topic::Key(section, key) => {
            let line = QuestionLine {
                section: section.as_str(),
                key: Some(key.as_str()),
                reply: Reply::Value(machine.get(section.as_str(), key.as_str())),
                asides,
            };
            Ok(vec![in alloc; line]?)
        }
        Topic::Whole(section) => {
            let line = QuestionLine {
                section: section.as_str(),
                key: None,
                reply: Reply::Section(machine.section(section.as_str())),
                asides,
            };
            Ok(vec![in alloc; line]?)
        }
        Topic::Options(built_in, declared) => {
            option_lines(alloc, machine, built_in, declared, asides)
        }
    }
}

// Serializes a value of a machine file.
fn send_value<S: Serializer>(value: &MachineValue, out: &mut S) -> Result<(), S::Error>
    ensures { OnOk result (SendsValue (shown_value (value_in value.now)) (S.written out.old) (S.written out.new)) }
{
    match value {
        MachineValue::Text(text) => out.str(text.as_str()),
        MachineValue::Integer(number) => Value::from(*number).serialize(out),
        MachineValue::Boolean(truth) => out.bool(*truth),
        MachineValue::Texts(texts) => texts.serialize(out),
    }
}

// Serializes the entries of a section, in the order of its lines.
fn send_section<S: Serializer>(section: &Section, out: &mut S) -> Result<(), S::Error>
    ensures { OnOk result
        (SendsValue (ordered_object (map entry_member (entries_of section.now))) (S.written out.old) (S.written out.new)) }
{
    out.begin_map(Some(section.len()))?;
    for i in 0..section.len() {
        let Some((key, entry)) = section.at(i) else {
            return out.end_map();
        };
        out.key(key)?;
        send_value(&entry.value, out)?;
    }
    out.end_map()
}

fn send_reply<S: Serializer>(reply: Reply<'_>, out: &mut S) -> Result<(), S::Error>
    ensures { OnOk result (SendsValue (shown_reply (reply_in reply.entry)) (S.written out.old) (S.written out.new)) }
{
    match reply {
        Reply::Value(Some(value)) => send_value(value, out),
        Reply::Section(Some(section)) => send_section(section, out),
        Reply::Value(None) | Reply::Section(None) => out.unit(),
    }
}

fn send_key<S: Serializer>(key: Option<&str>, out: &mut S) -> Result<(), S::Error>
    ensures { OnOk result (SendsValue (shown_key (option_map (λ k. k.now) key.entry)) (S.written out.old) (S.written out.new)) }
{
    match key {
        Some(key) => out.str(key),
        None => out.unit(),
    }
}

fn send_beside<S: Serializer>(asides: &[ShownAside], out: &mut S) -> Result<(), S::Error>
    ensures { OnOk result (SendsValue (shown_beside (all_shown_in asides.now)) (S.written out.old) (S.written out.new)) }
{
    out.begin_map(Some(asides.len()))?;
    for aside in asides.iter() {
        out.key(aside.name.as_str())?;
        aside.texts.serialize(out)?;
    }
    out.end_map()
}

// Holds a line that was asked in the definition file `file`, at the line `place`.
#[derive(Clone, Copy)]
struct Placed<'a, 'q> {
    line: &'a QuestionLine<'q>,
    file: &'a str,
    place: usize,
}

impl Described for Placed<'_, '_> {
    ghost writes = { λ p. SendsValue (line_of (line_in p.line.now) p.file.now p.place) };
}

impl Serialize for Placed<'_, '_> {
    fn serialize<S: Serializer>(&self, out: &mut S) -> Result<(), S::Error> {
        out.begin_map(Some(6))?;
        out.key("section")?;
        out.str(self.line.section)?;
        out.key("key")?;
        send_key(self.line.key, out)?;
        out.key("answer")?;
        send_reply(self.line.reply, out)?;
        out.key("file")?;
        out.str(self.file)?;
        out.key("line")?;
        self.place.serialize(out)?;
        out.key("beside")?;
        send_beside(self.line.asides, out)?;
        out.end_map()
    }
}

// Holds a line, of which its place and what else the call stated are left out.
#[derive(Clone, Copy)]
struct Head<'a, 'q> {
    line: &'a QuestionLine<'q>,
}

impl Described for Head<'_, '_> {
    ghost writes = { λ h. SendsValue (head_of (line_in h.line.now)) };
}

impl Serialize for Head<'_, '_> {
    fn serialize<S: Serializer>(&self, out: &mut S) -> Result<(), S::Error> {
        out.begin_map(Some(3))?;
        out.key("section")?;
        out.str(self.line.section)?;
        out.key("key")?;
        send_key(self.line.key, out)?;
        out.key("answer")?;
        send_reply(self.line.reply, out)?;
        out.end_map()
    }
}

// Holds what else a call stated.
#[derive(Clone, Copy)]
struct Beside<'a> {
    asides: &'a [ShownAside],
}

impl Described for Beside<'_> {
    ghost writes = { λ b. SendsValue (shown_beside (all_shown_in b.asides.now)) };
}

impl Serialize for Beside<'_> {
    fn serialize<S: Serializer>(&self, out: &mut S) -> Result<(), S::Error> {
        send_beside(self.asides, out)
    }
}

impl QuestionLine<'_> {
    /// Returns the text of this line, asked in the definition file `file` at the line `place`, from 1. It is a JSON object without a
    /// newline.
    pub fn text(&self, alloc: Global, file: &str, place: usize) -> Result<String, AllocError>
        ensures { IfOk result (λ s. string_bytes s ≡ line_text (line_in self.now) file.now place) }
    {
        let placed = Placed {
            line: self,
            file,
            place,
        };
        printed(alloc, &placed)
    }

    /// Returns the text without the place and the asides. Two lines are the same question if these texts are equal, and their asides.
    pub fn head(&self, alloc: Global) -> Result<String, AllocError>
        ensures { IfOk result (λ s. string_bytes s ≡ head_text (line_in self.now)) }
    {
        let head = Head { line: self };
        printed(alloc, &head)
    }
}

/// Returns the text of some asides, which is a JSON object without a newline.
pub fn beside_text(alloc: Global, asides: &[ShownAside]) -> Result<String, AllocError>
    ensures { IfOk result (λ s. string_bytes s ≡ beside_text (all_shown_in asides.now)) }
{
    let beside = Beside { asides };
    printed(alloc, &beside)
}
