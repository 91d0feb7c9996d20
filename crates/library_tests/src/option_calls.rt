//! Tests option files, machine files, and the final values of options.
use meson::options::{
    Declared, Machine, MachineValue, OptionValue, Options, Origin, ProjectDefault, Resolved,
    declare, resolve,
};
use meson::support::text_lists::strings;
use meson::syntax::parse;
use std::alloc::Global;
use std::test::Fail;

const MODE: &str = "option('mode', type: 'combo', choices: ['fast', 'slow', 'safe'])\n";

// The declarations of an option file, or the number and the line of its fault.
fn declared(alloc: Global, source: &str) -> Result<Result<Declared, (u8, usize)>, Fail> {
    let file = parse(alloc, source).ok().ok_or("a file")?;
    match declare(alloc, &file, "meson.options")? {
        Ok(declared) => Ok(Ok(declared)),
        Err(fault) => Ok(Err((fault.number(), fault.line()))),
    }
}

#[test]
fn an_option_file_declares_its_options(rt: HostRuntime) -> Result<(), Fail> {
    let declared = declared(rt.alloc(), MODE)?.ok().ok_or("options")?;
    assert_eq!(rt; declared.len(), 1);
    assert!(rt; declared.get("mode").is_some() && declared.get("made").is_none());
    Ok(())
}

#[test]
fn an_option_file_is_refused_at_its_statement(rt: HostRuntime) -> Result<(), Fail> {
    for (source, fault) in [
        ("option('n', type: 'integer')\n", (15, 1)),
        (
            "option('a', type: 'string')\noption('a', type: 'string')\n",
            (15, 2),
        ),
        ("\nx = 1\n", (15, 2)),
        ("option('prefix', type: 'string')\n", (15, 1)),
        ("option('a', type: 'string', deprecated: true)\n", (23, 1)),
    ] {
        assert_eq!(rt;
            declared(rt.alloc(), source)?.err(),
            Some(fault),
            "{source}"
        );
    }
    Ok(())
}

// The content of a machine file, or the number and the line of its fault.
fn read(alloc: Global, bytes: &[u8]) -> Result<Result<Machine, (u8, usize)>, Fail> {
    match Machine::read(alloc, bytes)? {
        Ok(machine) => Ok(Ok(machine)),
        Err(fault) => Ok(Err((fault.number(), fault.line()))),
    }
}

const MACHINE: &[u8] = b"# one machine
[binaries]
c = ['ccache', 'gcc']
[project options]
mode = 'fast'
[dependency zlib]
[checks]
has_function puts = true
sizeof a=b = 4
";

// The texts of the list at a key.
fn texts_at<'m>(machine: &'m Machine, section: &str, key: &str) -> &'m [String] {
    match machine.get(section, key) {
        Some(MachineValue::Texts(texts)) => texts,
        _ => &[],
    }
}

#[test]
fn a_machine_file_says_its_values(rt: HostRuntime) -> Result<(), Fail> {
    let machine = read(rt.alloc(), MACHINE)?.ok().ok_or("a machine file")?;
    let compiler = texts_at(&machine, "binaries", "c");
    assert_eq!(rt; compiler.len(), 2);
    assert_eq!(rt;
        (compiler[0].as_str(), compiler[1].as_str()),
        ("ccache", "gcc")
    );
    let mode = machine.get("project options", "mode").ok_or("a mode")?;
    assert_eq!(rt; mode.text(), Some("fast"));
    let version = machine
        .get("dependency zlib", "version")
        .ok_or("a version")?;
    assert_eq!(rt; version.text(), Some("unknown"));
    let puts = machine.get("checks", "has_function puts").ok_or("puts")?;
    assert_eq!(rt; puts.boolean(), Some(true));
    let size = machine.get("checks", "sizeof a=b").ok_or("a size")?;
    assert_eq!(rt; size.integer(), Some(4));
    assert!(rt; machine.get("binaries", "ar").is_none() && machine.get("compiler", "id").is_none());
    Ok(())
}

#[test]
fn a_machine_file_is_refused_at_its_line(rt: HostRuntime) -> Result<(), Fail> {
    for (bytes, fault) in [
        (b"\xff".as_slice(), (1, 1)),
        (b"[binaries]\n\xff\n".as_slice(), (1, 2)),
        (b"[binaries]\nc = []\n".as_slice(), (16, 2)),
        (b"[binaries]\nc = 'a'\nc = 'b'\n".as_slice(), (16, 3)),
        (b"c = 'a'\n".as_slice(), (16, 1)),
        (b"[constants]\n".as_slice(), (16, 1)),
    ] {
        assert_eq!(rt; read(rt.alloc(), bytes)?.err(), Some(fault));
    }
    Ok(())
}

// Resolves the option `mode` over the machine file.
fn resolved(
    alloc: Global,
    defaults: &[ProjectDefault<'_>],
    words: &[&str],
) -> Result<Resolved, Fail> {
    let declared = declared(alloc, MODE)?.ok().ok_or("options")?;
    let machine = read(alloc, MACHINE)?.ok().ok_or("a machine file")?;
    let words = strings(alloc, words)?;
    Ok(resolve(alloc, &declared, defaults, &machine, &words)?)
}

// The text that a combo option has.
fn choice<'o>(options: &'o Options, name: &str) -> Option<&'o str> {
    match options.get(name) {
        Some(OptionValue::Combo(text)) => Some(text.as_str()),
        _ => None,
    }
}

// The last of the default, the project's default, the machine file and the words decides.
#[test]
fn the_last_value_of_an_option_decides(rt: HostRuntime) -> Result<(), Fail> {
    let defaults = [
        ProjectDefault::Assignment("mode=safe"),
        ProjectDefault::Entry("zz", "1"),
    ];
    for (words, mode) in [
        ([].as_slice(), "fast"),
        (["mode=fast", "mode=slow"].as_slice(), "slow"),
    ] {
        let resolved = resolved(rt.alloc(), &defaults, words)?;
        let options = resolved.outcome.ok().ok_or("options")?;
        assert_eq!(rt; choice(&options, "mode"), Some(mode));
        assert_eq!(rt; choice(&options, "buildtype"), Some("debug"));
        assert!(rt; options.get("zz").is_none());
        assert_eq!(rt; resolved.unknown.len(), 1);
        assert_eq!(rt; resolved.unknown[0].as_str(), "zz");
    }
    Ok(())
}

// Seventeen options are built in, and the declared one comes after them.
#[test]
fn options_are_read_in_their_order(rt: HostRuntime) -> Result<(), Fail> {
    let options = resolved(rt.alloc(), &[], &[])?
        .outcome
        .ok()
        .ok_or("options")?;
    for (at, name) in [
        (0, "prefix"),
        (7, "buildtype"),
        (16, "auto_features"),
        (17, "mode"),
    ] {
        let (found, _) = options.at(at).ok_or("an option")?;
        assert_eq!(rt; found, name);
    }
    assert!(rt; options.at(18).is_none());
    Ok(())
}

// The number of the word at fault, and the number of the fault.
fn word_at_fault(alloc: Global, words: &[&str]) -> Result<Option<(usize, u8)>, Fail> {
    let Some(fault) = resolved(alloc, &[], words)?.outcome.err() else {
        return Ok(None);
    };
    let refusal = fault.refusal.number();
    match fault.place {
        Origin::CommandLine(number) => Ok(Some((number, refusal))),
        _ => Ok(None),
    }
}

#[test]
fn the_first_bad_word_is_the_fault(rt: HostRuntime) -> Result<(), Fail> {
    for (words, fault) in [
        (["mode=odd"].as_slice(), Some((1, 15))),
        (["mode=slow", "zz=1", "mode=odd"].as_slice(), Some((2, 15))),
        (["mode"].as_slice(), Some((1, 15))),
        (["default_library=both"].as_slice(), Some((1, 23))),
        (["mode=slow"].as_slice(), None),
    ] {
        assert_eq!(rt; word_at_fault(rt.alloc(), words)?, fault);
    }
    Ok(())
}
