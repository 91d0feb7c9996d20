//! Tests projects that are declared call by call, their edges, and the document that shows them.
use meson::build::edge::Edge;
use meson::build::project::{Answer, Install, Project, ProjectError, Test, edges};
use meson::build::{
    BuildTarget, CustomTarget, Facts, Flags, Lists, OptionEntry, OptionType, OptionValue, Source,
    Target, TargetKind,
};
use meson::introspection::{document_text, introspect};
use meson::support::text_lists::strings;
use std::alloc::{AllocError, Global};
use std::rc::Rc;
use std::test::Fail;

fn text(alloc: Global, text: &str) -> Result<String, AllocError> {
    String::from_str(alloc, text)
}

fn flags(alloc: Global) -> Result<Flags, AllocError> {
    Ok(Flags {
        warning_level: 1,
        is_werror: false,
        c_std: text(alloc, "none")?,
        optimization: text(alloc, "0")?,
        is_debug: true,
        c_args: Vec::new(alloc),
        c_link_args: Vec::new(alloc),
    })
}

// The one option that is listed: `prefix`.
fn options(alloc: Global) -> Result<Vec<OptionEntry>, AllocError> {
    let prefix = OptionEntry {
        name: text(alloc, "prefix")?,
        kind: OptionType::String,
        value: OptionValue::Text(text(alloc, "/usr/local")?),
    };
    Ok(vec![in alloc; prefix]?)
}

/// Returns a project in `/s`, built in `/s/build`, without a target. `main.c` is there and `no.c` is absent.
pub fn empty_project(alloc: Global) -> Result<Project, AllocError> {
    let facts = Facts {
        name: text(alloc, "p")?,
        version: text(alloc, "undefined")?,
        license: strings(alloc, &["MIT"])?,
        depth: 1,
        source_root: text(alloc, "/s")?,
        build_root: text(alloc, "/s/build")?,
        compiler: strings(alloc, &["cc"])?,
        archiver: strings(alloc, &["ar"])?,
        flags: flags(alloc)?,
        options: options(alloc)?,
    };
    let mut project = Project::new(alloc, facts)?;
    project.add_file(text(alloc, "no.c")?, false)?;
    project.add_file(text(alloc, "main.c")?, true)?;
    Ok(project)
}

/// Returns an executable of the root folder with one source.
pub fn executable(alloc: Global, name: &str, source: &str) -> Result<Target, AllocError> {
    executable_with(alloc, name, source, Vec::new(alloc))
}

// The same, with what its dependencies bring.
fn executable_with(
    alloc: Global,
    name: &str,
    source: &str,
    dependencies: Vec<Rc<Lists>>,
) -> Result<Target, AllocError> {
    let own = Lists {
        sources: vec![in alloc; Source::Tree(text(alloc, source)?)]?,
        include_folders: Vec::new(alloc),
        compile_args: Vec::new(alloc),
        link_args: Vec::new(alloc),
        link_with: Vec::new(alloc),
    };
    let target = BuildTarget {
        kind: TargetKind::Executable,
        folder: String::new(alloc),
        name: text(alloc, name)?,
        own,
        dependencies,
        version: None,
        soversion: None,
        is_default: true,
        is_installed: false,
    };
    Ok(Target::Build(Box::new(alloc, target)?))
}

// Returns a custom target that makes `g.c`, and for which a list with so many items was declared.
fn custom(alloc: Global, longest: usize) -> Result<Target, AllocError> {
    let target = CustomTarget {
        name: text(alloc, "g")?,
        folder: String::new(alloc),
        outputs: strings(alloc, &["g.c"])?,
        inputs: vec![in alloc; Source::Tree(text(alloc, "main.c")?)]?,
        needs: Vec::new(alloc),
        words: strings(alloc, &["gen", "../main.c"])?,
        captures: true,
        depfile: None,
        longest,
        is_default: false,
        is_installed: false,
    };
    Ok(Target::Custom(Box::new(alloc, target)?))
}

// The number of a refusal.
fn number<A>(answer: &Result<A, ProjectError>) -> Option<u8> {
    match answer {
        Ok(_) => None,
        Err(refused) => Some(refused.why.number()),
    }
}

#[test]
fn a_target_is_added_or_refused(rt: HostRuntime) -> Result<(), Fail> {
    let alloc = rt.alloc();
    let mut project = empty_project(alloc)?;
    for (name, source, refused, targets) in [
        ("a/b", "main.c", Some(9), 0),
        ("-a", "main.c", Some(9), 0),
        ("a", "main.h", Some(9), 0),
        ("a", "no.c", Some(14), 0),
        ("a|b", "main.c", Some(21), 0),
        ("all", "main.c", Some(11), 0),
        ("a", "main.c", None, 1),
        ("a", "main.c", Some(11), 1),
        ("b", "main.c", None, 2),
    ] {
        let answer = project.add_target(executable(alloc, name, source)?)?;
        assert_eq!(rt; number(&answer), refused, "{name} of {source}");
        assert_eq!(rt; project.targets().len(), targets, "{name} of {source}");
    }
    Ok(())
}

#[test]
fn a_list_past_the_limit_is_refused(rt: HostRuntime) -> Result<(), Fail> {
    let mut project = empty_project(rt.alloc())?;
    let longer = project.add_target(custom(rt.alloc(), 65_537)?)?;
    assert_eq!(rt; (number(&longer), project.targets().len()), (Some(22), 0));
    let longest = project.add_target(custom(rt.alloc(), 65_536)?)?;
    assert_eq!(rt; (number(&longest), project.targets().len()), (None, 1));
    Ok(())
}

#[test]
fn an_output_is_added_or_refused(rt: HostRuntime) -> Result<(), Fail> {
    let mut project = empty_project(rt.alloc())?;
    for (folder, name, refused) in [
        ("", "../x", Some(9)),
        ("", "..", Some(9)),
        ("", "a|b", Some(21)),
        ("", "build.ninja", Some(11)),
        ("", "a.h", None),
        ("", "a.h", Some(11)),
        ("sub", "a.h", None),
    ] {
        let answer = project.add_output(folder, name)?;
        assert_eq!(rt; number(&answer), refused, "{folder} {name}");
    }
    assert_eq!(rt;
        project.outputs().join(rt.alloc(), " ")?.as_str(),
        "a.h sub/a.h"
    );
    Ok(())
}

// Words may be added before the first build target, and they must be words that `build.ninja` can hold.
#[test]
fn arguments_are_added_before_targets(rt: HostRuntime) -> Result<(), Fail> {
    let alloc = rt.alloc();
    let mut project = empty_project(alloc)?;
    let good = strings(alloc, &["-DA"])?;
    let bad = strings(alloc, &["-DA", "a\nb"])?;
    assert_eq!(rt; number(&project.add_arguments(&bad)?), Some(21));
    assert_eq!(rt; number(&project.add_link_arguments(&bad)?), Some(21));
    assert_eq!(rt; number(&project.add_arguments(&good)?), None);
    assert_eq!(rt; number(&project.add_link_arguments(&good)?), None);
    assert_eq!(rt;
        number(&project.add_target(executable(alloc, "prog", "main.c")?)?),
        None
    );
    assert_eq!(rt; number(&project.add_arguments(&good)?), Some(24));
    assert_eq!(rt; number(&project.add_link_arguments(&good)?), Some(24));
    assert_eq!(rt;
        words_of(alloc, &project, 1)?.as_str(),
        "cc -o prog prog.p/main.c.o -DA"
    );
    Ok(())
}

// The words of an edge of the first target.
fn words_of(alloc: Global, project: &Project, at: usize) -> Result<String, Fail> {
    let made = edges(project, 0)?;
    let edge: &Edge = made.get(at).ok_or("an edge")?;
    Ok(edge.words.join(alloc, " ")?)
}

#[test]
fn an_executable_has_an_edge_for_its_object_and_one_for_itself(
    rt: HostRuntime,
) -> Result<(), Fail> {
    let alloc = rt.alloc();
    let mut project = empty_project(alloc)?;
    assert_eq!(rt;
        number(&project.add_target(executable(alloc, "prog", "main.c")?)?),
        None
    );
    let made = edges(&project, 0)?;
    assert_eq!(rt; made.len(), 2);
    assert_eq!(rt; made[0].inputs.join(alloc, " ")?.as_str(), "../main.c");
    assert_eq!(rt;
        made[0].outputs.join(alloc, " ")?.as_str(),
        "prog.p/main.c.o"
    );
    assert_eq!(rt;
        words_of(alloc, &project, 0)?.as_str(),
        "cc -I. -I.. -Wall -O0 -g -MD -MQ prog.p/main.c.o -MF prog.p/main.c.o.d -o prog.p/main.c.o -c ../main.c"
    );
    assert_eq!(rt; made[1].outputs.join(alloc, " ")?.as_str(), "prog");
    assert_eq!(rt;
        words_of(alloc, &project, 1)?.as_str(),
        "cc -o prog prog.p/main.c.o"
    );
    assert_eq!(rt; edges(&project, 1)?.len(), 0);
    Ok(())
}

#[test]
fn a_dependency_brings_its_words(rt: HostRuntime) -> Result<(), Fail> {
    let alloc = rt.alloc();
    let mut project = empty_project(alloc)?;
    let brought = Lists {
        sources: Vec::new(alloc),
        include_folders: Vec::new(alloc),
        compile_args: Vec::new(alloc),
        link_args: strings(alloc, &["-lz"])?,
        link_with: Vec::new(alloc),
    };
    let dependencies = vec![in alloc; Rc::new(alloc, brought)?]?;
    let target = executable_with(alloc, "prog", "main.c", dependencies)?;
    assert_eq!(rt; number(&project.add_target(target)?), None);
    assert_eq!(rt;
        words_of(alloc, &project, 1)?.as_str(),
        "cc -o prog prog.p/main.c.o -lz"
    );
    Ok(())
}

// Notes a dependency, an installed file and a test.
fn note_all(alloc: Global, project: &mut Project) -> Result<(), AllocError> {
    project.add_dependency(Answer {
        name: text(alloc, "zlib")?,
        version: text(alloc, "1.3")?,
        is_found: true,
    })?;
    project.add_install(Install {
        source: text(alloc, "/s/build/prog")?,
        destination: text(alloc, "/usr/local/bin/prog")?,
    })?;
    project.add_test(Test {
        name: text(alloc, "t")?,
        command: strings(alloc, &["/s/build/prog", "-v"])?,
        environment: strings(alloc, &["K=V"])?,
        suites: strings(alloc, &["s"])?,
        should_fail: false,
        timeout: 30,
    })
}

const DOCUMENT: &str =
    "{\"buildoptions\":[{\"name\":\"prefix\",\"type\":\"string\",\"value\":\"/usr/local\"}],\
\"buildsystem_files\":{\"absent\":[\"no.c\"],\"present\":[\"main.c\"]},\
\"dependencies\":[{\"found\":true,\"name\":\"zlib\",\"version\":\"1.3\"}],\
\"installed\":{\"/s/build/prog\":\"/usr/local/bin/prog\"},\
\"projectinfo\":{\"license\":[\"MIT\"],\"name\":\"p\",\"version\":\"undefined\"},\
\"targets\":[{\"build_by_default\":true,\"defined_in\":\"meson.build\",\
\"filename\":[\"prog\"],\"installed\":false,\"name\":\"prog\",\"type\":\"executable\"}],\
\"tests\":[{\"cmd\":[\"/s/build/prog\",\"-v\"],\"env\":[\"K=V\"],\"name\":\"t\",\"should_fail\":false,\"suite\":[\"s\"],\"timeout\":30}]}";

#[test]
fn the_document_shows_what_was_declared(rt: HostRuntime) -> Result<(), Fail> {
    let alloc = rt.alloc();
    let mut project = empty_project(alloc)?;
    assert_eq!(rt;
        number(&project.add_target(executable(alloc, "prog", "main.c")?)?),
        None
    );
    note_all(alloc, &mut project)?;
    assert_eq!(rt; document_text(alloc, &project)?.as_str(), DOCUMENT);
    assert_eq!(rt;
        introspect(alloc, &project)?.to_string(alloc)?.as_str(),
        DOCUMENT
    );
    Ok(())
}

#[test]
fn a_project_is_read(rt: HostRuntime) -> Result<(), Fail> {
    let alloc = rt.alloc();
    let mut project = empty_project(alloc)?;
    note_all(alloc, &mut project)?;
    assert_eq!(rt;
        (project.facts().name.as_str(), project.facts().depth),
        ("p", 1)
    );
    assert_eq!(rt; project.present().join(alloc, " ")?.as_str(), "main.c");
    assert_eq!(rt; project.absent().join(alloc, " ")?.as_str(), "no.c");
    assert_eq!(rt;
        (
            project.dependencies().len(),
            project.installs().len(),
            project.tests().len()
        ),
        (1, 1, 1)
    );
    let test = project.tests().first().ok_or("a test")?;
    assert_eq!(rt; test.timeout, 30);
    Ok(())
}
