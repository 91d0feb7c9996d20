//! Tests the writing of `build.ninja`, call by call.
use crate::build_calls::{empty_project, executable};
use crate::rows::{HEAD, PROG};
use crate::shown::shown;
use meson::build::edge::{Edge, EdgeRule, OwnParts, SharedParts, are_writable};
use meson::build::project::{Project, edges};
use meson::ninja::{
    can_hold_path, can_hold_value, write_edge, write_head, write_joined, write_path, write_tail,
    write_value, write_words,
};
use meson::ports::Outputs;
use meson::ports::memory::MemOutputs;
use meson::support::text_lists::strings;
use std::alloc::{AllocError, Global};
use std::test::Fail;

// More events than any of these texts takes.
const ROOM: usize = 4_096;

// The outputs `f`, begun.
const OPEN: &str = "⟦open f⟧";

#[test]
fn a_text_can_be_held_or_not(rt: HostRuntime) {
    for (text, as_path, as_value) in [
        ("a b:c$", true, true),
        ("é", true, true),
        ("a|b", false, true),
        ("a#b", false, true),
        ("\u{7f}", false, true),
        ("\t", false, true),
        ("\n", false, false),
        ("\r", false, false),
        ("\0", false, false),
    ] {
        assert_eq!(rt;
            (can_hold_path(text), can_hold_value(text)),
            (as_path, as_value),
            "{text:?}"
        );
    }
}

// The text of a path.
fn path_text(alloc: Global, path: &str) -> Result<String, Fail> {
    let mut out = MemOutputs::new(alloc, ROOM)?;
    out.open("f")?;
    write_path(path, &mut out)?;
    Ok(shown(alloc, &out)?)
}

// The text of a value.
fn value_text(alloc: Global, value: &str) -> Result<String, Fail> {
    let mut out = MemOutputs::new(alloc, ROOM)?;
    out.open("f")?;
    write_value(value, &mut out)?;
    Ok(shown(alloc, &out)?)
}

#[test]
fn a_path_and_a_value_are_escaped(rt: HostRuntime) -> Result<(), Fail> {
    let path = path_text(rt.alloc(), "a b:c$")?;
    let value = value_text(rt.alloc(), " a$")?;
    assert_eq!(rt; path.strip_prefix(OPEN), Some("a$ b$:c$$"));
    assert_eq!(rt; value.strip_prefix(OPEN), Some("$ a$$"));
    Ok(())
}

// The text of a command.
fn command(alloc: Global, words: &[&str], file: Option<&str>) -> Result<String, Fail> {
    let words = strings(alloc, words)?;
    let mut out = MemOutputs::new(alloc, ROOM)?;
    out.open("f")?;
    write_words(&words, file, &mut out)?;
    Ok(shown(alloc, &out)?)
}

#[test]
fn words_are_quoted_for_the_shell(rt: HostRuntime) -> Result<(), Fail> {
    for (words, file, expected) in [
        (["A=b", "x"].as_slice(), None, "'A=b' x"),
        (["x", "A=b"].as_slice(), None, "x A=b"),
        (["if"].as_slice(), None, "'if'"),
        ([""].as_slice(), None, "''"),
        (["a", "it's", "$x"].as_slice(), None, "a 'it'\"'\"'s' '$$x'"),
        (
            ["sed", "s/x/y z/"].as_slice(),
            Some("g.c"),
            "sed 's/x/y z/' > g.c",
        ),
        (
            ["sed", "s/x/y z/", "../g.in"].as_slice(),
            Some("g.c"),
            "sed 's/x/y z/' ../g.in > g.c",
        ),
    ] {
        let found = command(rt.alloc(), words, file)?;
        assert_eq!(rt; found.strip_prefix(OPEN), Some(expected));
    }
    Ok(())
}

// The text before all edges.
fn head_text(alloc: Global) -> Result<String, Fail> {
    let mut out = MemOutputs::new(alloc, ROOM)?;
    out.open("f")?;
    write_head(&mut out)?;
    Ok(shown(alloc, &out)?)
}

// The text of an edge.
fn edge_text(alloc: Global, edge: &Edge) -> Result<String, Fail> {
    let mut out = MemOutputs::new(alloc, ROOM)?;
    out.open("f")?;
    write_edge(&edge.lend(), &mut out)?;
    Ok(shown(alloc, &out)?)
}

// The text after all edges.
fn tail_text(alloc: Global, project: &Project) -> Result<String, Fail> {
    let mut out = MemOutputs::new(alloc, ROOM)?;
    out.open("f")?;
    write_tail(project, &mut out)?;
    Ok(shown(alloc, &out)?)
}

#[test]
fn a_build_file_is_its_head_its_edges_and_its_tail(rt: HostRuntime) -> Result<(), Fail> {
    let alloc = rt.alloc();
    let mut project = empty_project(alloc)?;
    let added = project.add_target(executable(alloc, "prog", "main.c")?)?;
    assert!(rt; added.is_ok());
    let mut texts = vec![in alloc; head_text(alloc)?]?;
    for edge in &edges(&project, 0)? {
        texts.push(edge_text(alloc, edge)?)?;
    }
    texts.push(tail_text(alloc, &project)?)?;
    let mut whole = String::from_str(alloc, "⟦open build.ninja⟧")?;
    for text in &texts {
        whole.push_str(text.strip_prefix(OPEN).ok_or("an output")?)?;
    }
    let expected = [HEAD, PROG].concat(alloc)?;
    assert_eq!(rt; whole.as_str(), expected.as_str());
    Ok(())
}

const BLOCK: &str = "build q.p/a$ b$:c$$.c.o: c_compile ../a$ b$:c$$.c || o
 COMMAND = cc -I. 'it'\"'\"'s' -c '../a b:c$$.c'
 DESC = Compiling C object q.p/a b:c$$.c.o
 DEPFILE = q.p/a b:c$$.c.o.d

";

// The same with an implicit input.
const BLOCK_WITH_IMPLICIT: &str = "build q.p/a$ b$:c$$.c.o: c_compile ../a$ b$:c$$.c | i || o
 COMMAND = cc -I. 'it'\"'\"'s' -c '../a b:c$$.c'
 DESC = Compiling C object q.p/a b:c$$.c.o
 DEPFILE = q.p/a b:c$$.c.o.d

";

// An edge whose paths have a blank, a colon and a dollar.
fn odd_edge(alloc: Global, implicit: &[&str]) -> Result<Edge, AllocError> {
    Ok(Edge {
        rule: EdgeRule::CCompile,
        outputs: strings(alloc, &["q.p/a b:c$.c.o"])?,
        inputs: strings(alloc, &["../a b:c$.c"])?,
        implicit: strings(alloc, implicit)?,
        order_only: strings(alloc, &["o"])?,
        words: strings(alloc, &["cc", "-I.", "it's", "-c", "../a b:c$.c"])?,
        redirect: None,
        description: String::from_str(alloc, "Compiling C object q.p/a b:c$.c.o")?,
        depfile: Some(String::from_str(alloc, "q.p/a b:c$.c.o.d")?),
    })
}

#[test]
fn an_edge_is_written(rt: HostRuntime) -> Result<(), Fail> {
    let plain: &[&str] = &[];
    for (implicit, block) in [(plain, BLOCK), (["i"].as_slice(), BLOCK_WITH_IMPLICIT)] {
        let odd = [odd_edge(rt.alloc(), implicit)?];
        assert!(rt; are_writable(&odd));
        let text = edge_text(rt.alloc(), &odd[0])?;
        assert_eq!(rt; text.strip_prefix(OPEN), Some(block));
    }
    Ok(())
}

#[test]
fn an_edge_that_shares_its_first_words_is_written(rt: HostRuntime) -> Result<(), Fail> {
    let first = strings(rt.alloc(), &["cc", "-I.", "it's"])?;
    let order_only = strings(rt.alloc(), &["o"])?;
    let shared = SharedParts {
        rule: EdgeRule::CCompile,
        order_only: &order_only,
        words: &first,
    };
    let own = OwnParts {
        output: "q.p/a b:c$.c.o",
        input: "../a b:c$.c",
        words: &["-c", "../a b:c$.c"],
        description: "Compiling C object q.p/a b:c$.c.o",
        depfile: "q.p/a b:c$.c.o.d",
    };
    let mut out = MemOutputs::new(rt.alloc(), ROOM)?;
    out.open("f")?;
    write_joined(&shared, &own, &mut out)?;
    assert_eq!(rt; shown(rt.alloc(), &out)?.strip_prefix(OPEN), Some(BLOCK));
    Ok(())
}
