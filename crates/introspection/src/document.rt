//! Builds and prints the document, member by member.
ghost use Rattle.std.specs.Prelude.{◌≡◌, IfOk, OnOk, Some, string_bytes};
ghost use Rattle.serde_json.specs.Data.{no_members, object};
ghost use Rattle.serde_json.specs.Read.{read};
ghost use Rattle.serde_json.specs.View.{members_view, view};
ghost use Rattle.introspection.specs.Document.{document_of, document_text, files_read};
ghost use Rattle.introspection.specs.Sending.{Sends};

use crate::entries::Destinations;
use crate::json_values::{Shown, list_of, put_texts};
use crate::serialization::{printed, send, send_list};
use build::project::Project;
use serde::{Described, Serialize, Serializer};
use serde_json::{Map, Value, put};
use std::alloc::{AllocError, Global};

fn put_files(
    members: &mut Map<String, Value>,
    alloc: Global,
    project: &Project,
) -> Result<(), AllocError>
    requires { members_view members.old.entries ≡ no_members }
    ensures { OnOk result (object (members_view members.new.entries) ≡ files_read project.now) }
{
    put_texts(members, alloc, "absent", project.absent())?;
    put_texts(members, alloc, "present", project.present())
}

fn files_read(alloc: Global, project: &Project) -> Result<Value, AllocError>
    ensures { IfOk result (λ v. view v ≡ files_read project.now) }
{
    let mut members = Map::new(alloc);
    put_files(&mut members, alloc, project)?;
    Ok(Value::from(members))
}

fn put_parts(
    members: &mut Map<String, Value>,
    alloc: Global,
    project: &Project,
) -> Result<(), AllocError>
    requires { members_view members.old.entries ≡ no_members }
    ensures { OnOk result (object (members_view members.new.entries) ≡ document_of project.now) }
{
    let options = list_of(alloc, &project.facts().options)?;
    put(members, alloc, "buildoptions", options)?;
    put(
        members,
        alloc,
        "buildsystem_files",
        files_read(alloc, project)?,
    )?;
    put(
        members,
        alloc,
        "dependencies",
        list_of(alloc, project.dependencies())?,
    )?;
    let installs = Destinations {
        installs: project.installs(),
    };
    put(members, alloc, "installed", installs.value(alloc)?)?;
    put(members, alloc, "projectinfo", project.facts().value(alloc)?)?;
    put(
        members,
        alloc,
        "targets",
        list_of(alloc, project.targets())?,
    )?;
    put(members, alloc, "tests", list_of(alloc, project.tests())?)
}

/// Returns the introspection document of a project.
pub fn introspect(alloc: Global, project: &Project) -> Result<Value, AllocError>
    ensures { IfOk result (λ v. view v ≡ document_of project.now) }
{
    let mut members = Map::new(alloc);
    put_parts(&mut members, alloc, project)?;
    Ok(Value::from(members))
}

// ---- the text

fn send_files<S: Serializer>(alloc: Global, project: &Project, out: &mut S) -> Result<(), S::Error>
    ensures { OnOk result (Sends (files_read project.now) (S.written out.old) (S.written out.new)) }
{
    out.begin_map(Some(2))?;
    out.key("absent")?;
    send_list(alloc, project.absent(), out)?;
    out.key("present")?;
    send_list(alloc, project.present(), out)?;
    out.end_map()
}

// Borrows a project for its document, which is serialized with one value at a time for each entry of a list and each other member.
#[derive(Clone, Copy)]
struct Document<'a> {
    alloc: Global,
    project: &'a Project,
}

impl Described for Document<'_> {
    ghost writes = { λ d. Sends (document_of d.project.now) };
}

impl Serialize for Document<'_> {
    fn serialize<S: Serializer>(&self, out: &mut S) -> Result<(), S::Error> {
        out.begin_map(Some(7))?;
        out.key("buildoptions")?;
        send_list(self.alloc, &self.project.facts().options, out)?;
        out.key("buildsystem_files")?;
        send_files(self.alloc, self.project, out)?;
        out.key("dependencies")?;
        send_list(self.alloc, self.project.dependencies(), out)?;
        out.key("installed")?;
        let installs = Destinations {
            installs: self.project.installs(),
        };
        send(self.alloc, &installs, out)?;
        out.key("projectinfo")?;
        send(self.alloc, self.project.facts(), out)?;
        out.key("targets")?;
        send_list(self.alloc, self.project.targets(), out)?;
        out.key("tests")?;
        send_list(self.alloc, self.project.tests(), out)?;
        out.end_map()
    }
}

/// Returns the text of the introspection document, with no space between its parts. A reader of JSON reads it as the document.
pub fn document_text(alloc: Global, project: &Project) -> Result<String, AllocError>
    ensures text { IfOk result (λ s. string_bytes s ≡ document_text project.now) }
    ensures reads_back { IfOk result (λ s. read (string_bytes s) ≡ Some (document_of project.now)) }
{
    let document = Document { alloc, project };
    printed(alloc, &document)
}
