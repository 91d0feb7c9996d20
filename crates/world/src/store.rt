//! Keeps the world of a run.
ghost use Rattle.std.specs.Prelude.{◌≡◌, ◌≢◌, ◌<◌, ◌≤◌, ◌+◌, ◌==◌, ℕ, IfOk, OnOk, None, Some, false, length};
ghost use Rattle.std.specs.Prelude.{max, option_map, slice_index_or, string_bytes, [], bytes_eq, IsTrue};
ghost use Rattle.std.specs.List.{list_any};
ghost use Rattle.code.specs.Code.{code_tree};
ghost use Rattle.code.specs.Draft.{IsFront};
ghost use Rattle.values.specs.View.{data_of};
ghost use Rattle.syntax.specs.Tree.{file_of};
ghost use Rattle.machine_file.specs.QuestionsView.{question_in};
ghost use Rattle.machine_file.specs.View.{machine_in};
ghost use Rattle.option_values.specs.View.{value_in};
ghost use Rattle.option_values.specs.Settings.{value_named};
ghost use Rattle.option_values.specs.SettingsView.{options_in};
ghost use Rattle.build.specs.View.{facts_view};
ghost use Rattle.world.specs.Answering.{Refuses};
ghost use Rattle.world.specs.AskedView.{all_asked_in};
ghost use Rattle.world.specs.SettingsView.{settings_view};
ghost use Rattle.world.specs.Options.{option_text};
ghost use Rattle.world.specs.Start.{first_world, facts_before_project};
ghost use Rattle.world.specs.Store.{world_after_change, slot_value, world_of};
ghost use Rattle.world.specs.World.{world_after_question, world_in_folder, with_line, with_options, with_place, with_variable};

mod configuration;
mod declarations;

use crate::asked_question::Asked;
use crate::settings::Settings;
use crate::stop::Stop;
use crate::text_buffer::Trail;
use build::project::Project;
use build::{Facts, Flags};
use code::{Code, Names, flatten};
use machine_file::{Machine, Question};
use option_values::{OptionValue, Options};
use std::alloc::{AllocError, Global};
use std::marker::Model;
use std::mem;
use std::rc::Rc;
use support::faults::{Fault, Refusal};
use syntax::tree::File;
use template::ConfigData;
use values::Value;

/// Holds a place in the definition files.
#[derive(Drop)]
pub struct Place {
    /// The definition file.
    pub file: String,
    /// The folder of the file, empty for the root.
    pub folder: String,
    /// The line, from 1.
    pub line: usize,
}

/// Holds the world of a run. The value of each variable is in the slot with the number of its name.
pub struct Store {
    place: Place,
    settings: Settings,
    names: Names,
    slots: Vec<Option<Value>>,
    machine: Rc<Machine>,
    options: Option<Options>,
    configurations: Vec<ConfigData>,
    is_begun: bool,
    project: Project,
    entered: Names,
    looked: Trail,
    asked: Vec<Asked>,
}

impl Drop for Store {
    fn drop(self) {
        let Store {
            place: _,
            settings: _,
            names: _,
            slots: _,
            machine: _,
            options: _,
            configurations: _,
            is_begun: _,
            project: _,
            entered: _,
            looked: _,
            asked: _,
        } = self;
    }
}

impl Model for Store {
    ghost use Rattle.std.specs.Prelude.{◌≤◌, length, string_bytes};
    ghost use Rattle.world.specs.SettingsView.{settings_view};
    ghost use Rattle.machine_file.specs.View.{machine_in};
    ghost use Rattle.world.specs.AskedView.{all_asked_in};
    ghost use Rattle.world.specs.Store.{Kept, options_of};

    ghost Value = { Kept };

    ghost use Rattle.values.specs.contracts.value.Value as value_row;
    ghost use Rattle.std.specs.Coded.{codes};

    ghost coded = { Prim.hlevel (codes, value_row.the_row.coded) };

    ghost view = { λ s. record {
      file = string_bytes s.place.file;
      folder = string_bytes s.place.folder;
      line = s.place.line;
      settings = settings_view s.settings;
      names = s.names;
      slots = s.slots.items;
      machine = machine_in s.machine.value;
      options = options_of s.options;
      configurations = s.configurations.items;
      is_begun = s.is_begun;
      project = s.project;
      entered = s.entered;
      looked = s.looked;
      asked = all_asked_in s.asked.items;
    } };

    ghost invariant = { λ s. length s.slots.items ≤ length s.names };
}

// Adds empty slots until there is one with this number.
fn reach(slots: &mut Vec<Option<Value>>, number: usize) -> Result<(), AllocError>
    ensures same { (i : ℕ) → slice_index_or slots.new.items i None ≡ slice_index_or slots.old.items i None }
    ensures room { OnOk result (number < length slots.new.items) }
    ensures few { length slots.new.items ≤ max (length slots.old.items) (number + 1) }
{
    while slots.len() <= number {
        slots.push(None)?;
    }
    Ok(())
}

// Returns a shared copy of the value in a slot, if there is one.
#[inline(always)]
fn slot(slots: &[Option<Value>], number: usize) -> Result<Option<Value>, AllocError>
    ensures { IfOk result (λ v. option_map data_of v ≡ slot_value slots.now number) }
{
    match slots.get(number) {
        Some(Some(value)) => Ok(Some(value.clone()?)),
        _ => Ok(None),
    }
}

// Takes the value out of a slot, if there is one.
fn take_value(slots: &mut Vec<Option<Value>>, number: usize) -> Option<Value>
    ensures value { option_map data_of result ≡ slot_value slots.old.items number }
    ensures same { (i : ℕ) → i ≢ number → slice_index_or slots.new.items i None ≡ slice_index_or slots.old.items i None }
    ensures none { slice_index_or slots.new.items number None ≡ None }
    ensures length { length slots.new.items ≡ length slots.old.items }
{
    if number < slots.len() {
        mem::replace(&mut slots[number], None)
    } else {
        None
    }
}

// Returns what is known of a project before `project` is called.
fn unnamed_facts(alloc: Global, settings: &Settings) -> Result<Facts, AllocError>
    ensures { IfOk result (λ f. facts_view f ≡ facts_before_project (settings_view settings.now)) }
{
    Ok(Facts {
        name: String::new(alloc),
        version: String::new(alloc),
        license: Vec::new(alloc),
        depth: settings.depth(),
        source_root: String::from_str(alloc, settings.source_root())?,
        build_root: String::from_str(alloc, settings.build_root())?,
        compiler: Vec::new(alloc),
        archiver: Vec::new(alloc),
        flags: Flags::unset(alloc),
        options: Vec::new(alloc),
    })
}

impl Store {
    /// Returns the world in which a run begins, with this machine file.
    pub fn new(alloc: Global, settings: Settings, machine: Rc<Machine>) -> Result<Store, AllocError>
        ensures world { IfOk result (λ s. world_of s ≡ first_world (settings_view settings) (machine_in machine.value)) }
        ensures names { IfOk result (λ s. s.names ≡ []) }
    {
        let project = Project::new(alloc, unnamed_facts(alloc, &settings)?)?;
        Ok(Store {
            place: Place {
                file: String::from_str(alloc, "meson.build")?,
                folder: String::new(alloc),
                line: 1,
            },
            settings,
            names: Names::new(alloc),
            slots: Vec::new(alloc),
            machine,
            options: None,
            configurations: Vec::new(alloc),
            is_begun: false,
            project,
            entered: Names::new(alloc),
            looked: Trail::new(alloc),
            asked: Vec::new(alloc),
        })
    }

    // ---- the place

    /// Returns the present definition file.
    pub fn file(&self) -> &str
        ensures { result.now ≡ self.now.file }
    {
        self.place.file.as_str()
    }

    /// Returns the folder of the present definition file, empty for the root.
    pub fn folder(&self) -> &str
        ensures { result.now ≡ self.now.folder }
    {
        self.place.folder.as_str()
    }

    /// Returns the line of the present call, from 1.
    pub fn line(&self) -> usize
        ensures { result ≡ self.now.line }
    {
        self.place.line
    }

    /// Refuses a line of the present file, with a name, path or text as detail.
    #[cold]
    pub fn refuse<A>(
        &self,
        alloc: Global,
        line: usize,
        refusal: Refusal,
        detail: &str,
    ) -> Result<A, Stop>
        ensures { Refuses (record { file = self.now.file; line = line; refusal = refusal; detail = detail.now }) result }
    {
        match Fault::new(alloc, self.file(), line, refusal, detail) {
            Ok(fault) => Err(Stop::Refused(fault)),
            Err(_) => Err(Stop::Memory),
        }
    }

    /// Makes a line the present one.
    pub fn at(&mut self, line: usize)
        ensures world { world_of self.new ≡ world_after_change (with_line line) (world_of self.old) }
        ensures names { self.new.names ≡ self.old.names }
    {
        self.place.line = line;
    }

    /// Makes a place the present one, and returns the place before.
    pub fn go(&mut self, place: Place) -> Place
        ensures moved { world_of self.new
            ≡ world_after_change (with_place (string_bytes place.file) (string_bytes place.folder) place.line) (world_of self.old) }
        ensures names { self.new.names ≡ self.old.names }
        ensures file { string_bytes result.file ≡ self.old.file }
        ensures folder { string_bytes result.folder ≡ self.old.folder }
        ensures line { result.line ≡ self.old.line }
    {
        mem::replace(&mut self.place, place)
    }

    /// Returns what the user sets.
    pub fn settings(&self) -> &Settings
        ensures { settings_view result.now ≡ self.now.settings }
    {
        &self.settings
    }

    // ---- variables

    /// Returns the code of a file. Its names are added to the table.
    pub fn flatten(&mut self, alloc: Global, file: &File<'_>) -> Result<Code, AllocError>
        ensures tree { IfOk result (λ code. code_tree self.new.names code ≡ file_of file.now) }
        ensures count { IfOk result (λ code. code.names ≡ length self.new.names) }
        ensures names { IsFront self.old.names self.new.names }
        ensures world { world_of self.new ≡ world_of self.old }
    {
        flatten(alloc, file, &mut self.names)
    }

    /// Returns the value of the variable whose name has this number.
    #[inline(always)]
    pub fn value(&self, number: usize) -> Result<Option<Value>, AllocError>
        ensures { IfOk result (λ v. number < length self.now.names → option_map data_of v
            ≡ (world_of self.now).facts.variables (slice_index_or self.now.names number [])) }
    {
        if number >= self.names.len() {
            return Ok(None);
        }
        slot(&self.slots, number)
    }

    /// Returns the name with a number, and `""` if there is none.
    pub fn name(&self, number: usize) -> &str
        ensures { number < length self.now.names → result.now ≡ slice_index_or self.now.names number [] }
    {
        self.names.name(number).unwrap_or("")
    }

    /// Returns the value of the variable with a name.
    pub fn find(&self, name: &str) -> Result<Option<Value>, AllocError>
        ensures { IfOk result (λ v. option_map data_of v ≡ (world_of self.now).facts.variables name.now) }
    {
        match self.names.number_of(name) {
            Some(number) => slot(&self.slots, number),
            None => Ok(None),
        }
    }

    // Returns whether a name has this number.
    fn is_named(&self, number: usize, name: &str) -> bool
        ensures { IsTrue result → (number < length self.now.names) × (slice_index_or self.now.names number [] ≡ name.now) }
    {
        number < self.names.len() && self.name(number) == name
    }

    /// Returns the value of the variable with a name. If the name has this number, no search is needed.
    pub fn find_at(&self, number: Option<usize>, name: &str) -> Result<Option<Value>, AllocError>
        ensures { IfOk result (λ v. option_map data_of v ≡ (world_of self.now).facts.variables name.now) }
    {
        if let Some(number) = number {
            if self.is_named(number, name) {
                return self.value(number);
            }
        }
        self.find(name)
    }

    /// Sets the variable with a name, which may be new, to a value.
    pub fn set(&mut self, name: &str, value: Value) -> Result<(), AllocError>
        ensures names { IsFront self.old.names self.new.names }
        ensures world { OnOk result
            (world_of self.new ≡ world_after_change (with_variable name.now (Some (data_of value))) (world_of self.old)) }
    {
        let number = self.names.put(name)?;
        reach(&mut self.slots, number)?;
        self.slots[number] = Some(value);
        Ok(())
    }

    /// Sets the variable whose name has this number to a value. A number without a name changes nothing.
    #[inline(always)]
    pub fn put(&mut self, number: usize, value: Value) -> Result<(), AllocError>
        ensures names { self.new.names ≡ self.old.names }
        ensures world { number < length self.old.names → OnOk result (world_of self.new
            ≡ world_after_change (with_variable (slice_index_or self.old.names number []) (Some (data_of value))) (world_of self.old)) }
    {
        let count = self.names.len();
        if number >= count {
            return Ok(());
        }
        reach(&mut self.slots, number)?;
        self.slots[number] = Some(value);
        Ok(())
    }

    /// Takes the value of the variable whose name has this number, and unsets the variable.
    pub fn take(&mut self, number: usize) -> Option<Value>
        ensures value { number < length self.old.names
            → option_map data_of result ≡ (world_of self.old).facts.variables (slice_index_or self.old.names number []) }
        ensures world { number < length self.old.names
            → world_of self.new ≡ world_after_change (with_variable (slice_index_or self.old.names number []) None) (world_of self.old) }
        ensures names { self.new.names ≡ self.old.names }
    {
        let _distinct = self.names.len();
        take_value(&mut self.slots, number)
    }

    /// Unsets the variable with a name.
    pub fn unset(&mut self, name: &str)
        ensures world { world_of self.new ≡ world_after_change (with_variable name.now None) (world_of self.old) }
        ensures names { self.new.names ≡ self.old.names }
    {
        if let Some(number) = self.names.number_of(name) {
            let _value = self.take(number);
        }
    }

    // ---- the machine file and the options

    /// Returns the machine file.
    pub fn machine(&self) -> &Machine
        ensures { machine_in result.now ≡ self.now.machine }
    {
        &self.machine
    }

    /// Records a question to the machine file, at the present place.
    pub fn ask(&mut self, alloc: Global, question: Question) -> Result<(), AllocError>
        ensures world { OnOk result (world_of self.new ≡ world_after_question (world_of self.old) (question_in question)) }
        ensures machine { self.new.machine ≡ self.old.machine }
        ensures names { self.new.names ≡ self.old.names }
    {
        let file = self.place.file.clone()?;
        let line = self.place.line;
        self.asked.push(Asked {
            question,
            file,
            line,
        })?;
        Ok(())
    }

    /// Returns the questions that were asked of the machine file, in order.
    pub fn questions(&self) -> &[Asked]
        ensures { all_asked_in result.now ≡ self.now.asked }
    {
        &self.asked
    }

    /// Returns the value of the option with a name, which also shows the option's type.
    pub fn option(&self, name: &str) -> Option<&OptionValue>
        ensures { option_map (λ v. value_in v.now) result ≡ value_named self.now.options name.now }
    {
        match &self.options {
            Some(options) => options.get(name),
            None => None,
        }
    }

    /// Returns the text of the option with a name. The text is empty if there is no such option, or if it has another type.
    pub fn option_text(&self, name: &str) -> &str
        ensures { result.now ≡ option_text self.now.options name.now }
    {
        match self.option(name) {
            Some(OptionValue::Text(text)) => text.as_str(),
            _ => "",
        }
    }

    /// Sets the options.
    pub fn set_options(&mut self, options: Options)
        ensures world { world_of self.new ≡ world_after_change (with_options (options_in options)) (world_of self.old) }
        ensures names { self.new.names ≡ self.old.names }
    {
        self.options = Some(options);
    }

    // ---- folders and paths

    /// Returns whether a folder was entered.
    pub fn is_entered(&self, folder: &str) -> bool
        ensures { result ≡ list_any (bytes_eq folder.now) self.now.entered }
    {
        self.entered.number_of(folder).is_some()
    }

    /// Returns how many folders were entered.
    pub fn folders_entered(&self) -> usize
        ensures { result ≡ length self.now.entered }
    {
        self.entered.len()
    }

    /// Records that a folder is entered, which was not entered before.
    pub fn enter(&mut self, folder: &str) -> Result<(), AllocError>
        requires { list_any (bytes_eq folder.now) self.old.entered ≡ false }
        ensures world { OnOk result (world_of self.new ≡ world_in_folder (world_of self.old) folder.now) }
        ensures names { self.new.names ≡ self.old.names }
    {
        self.entered.put(folder)?;
        Ok(())
    }
}
