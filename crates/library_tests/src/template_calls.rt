//! Tests configuration data, templates and headers.
ghost use Rattle.std.specs.Prelude.{◌≡◌, [], length, false, IfOk};

use crate::shown::shown;
use meson::ports::memory::{MemOutputs, MemTree};
use meson::ports::{DeviceFault, Outputs, Tree};
use meson::template::{ConfigData, ConfigValue, LINE_LIMIT, PassStop, SetStop, header, pass};
use std::alloc::{AllocError, Global};
use std::test::Fail;

// The integer that a name stands for.
fn number(config: &ConfigData, name: &str) -> Option<i128> {
    match config.get(name) {
        Some(ConfigValue::Integer(number)) => Some(*number),
        _ => None,
    }
}

// The text that a name stands for.
fn text<'c>(config: &'c ConfigData, name: &str) -> Option<&'c str> {
    match config.get(name) {
        Some(ConfigValue::Text(text)) => Some(text.as_str()),
        _ => None,
    }
}

#[test]
fn configuration_data_is_a_map_ordered_by_name(rt: HostRuntime) -> Result<(), Fail> {
    let mut config = ConfigData::new(rt.alloc());
    config.set("b", ConfigValue::Integer(2))?;
    config.set10("c", true)?;
    config.set10("d", false)?;
    config.set_quoted("V", "a\"b")?;
    config.set("b", ConfigValue::Integer(3))?;
    assert_eq!(rt;
        (
            number(&config, "b"),
            number(&config, "c"),
            number(&config, "d")
        ),
        (Some(3), Some(1), Some(0))
    );
    assert_eq!(rt; text(&config, "V"), Some("\"a\\\"b\""));
    assert!(rt; config.has("V") && !config.has("v") && config.get("v").is_none());
    let keys = config.keys()?;
    assert_eq!(rt; keys.as_slice(), ["V", "b", "c", "d"].as_slice());
    Ok(())
}

fn is_frozen(answer: Result<(), SetStop>) -> bool {
    matches!(answer, Err(SetStop::Frozen))
}

#[test]
fn frozen_data_is_not_changed_but_its_copy_is(rt: HostRuntime) -> Result<(), Fail> {
    let mut other = ConfigData::new(rt.alloc());
    other.set("a", ConfigValue::Integer(7))?;
    let mut config = ConfigData::new(rt.alloc());
    config.set("a", ConfigValue::Integer(1))?;
    config.freeze();
    assert!(rt; is_frozen(config.set("a", ConfigValue::Integer(2))));
    assert!(rt; is_frozen(config.set10("a", true)) && is_frozen(config.set_quoted("a", "x")));
    assert!(rt; is_frozen(config.merge_from(&other)));
    let mut copy = config.copy()?;
    copy.merge_from(&other)?;
    copy.set("b", ConfigValue::Boolean(true))?;
    assert_eq!(rt; (number(&config, "a"), config.has("b")), (Some(1), false));
    assert_eq!(rt; (number(&copy, "a"), copy.has("b")), (Some(7), true));
    Ok(())
}

// `A` is true, `B` is 2, `C` a text and `D` false.
fn sample(alloc: Global) -> Result<ConfigData, Fail> {
    let mut config = ConfigData::new(alloc);
    config.set("D", ConfigValue::Boolean(false))?;
    config.set("C", ConfigValue::Text(String::from_str(alloc, "x")?))?;
    config.set("B", ConfigValue::Integer(2))?;
    config.set("A", ConfigValue::Boolean(true))?;
    Ok(config)
}

#[test]
fn a_header_has_a_line_for_each_name(rt: HostRuntime) -> Result<(), Fail> {
    let config = sample(rt.alloc())?;
    let mut out = MemOutputs::new(rt.alloc(), 1_000)?;
    out.open("c.h")?;
    header(&config, &mut out)?;
    assert_eq!(rt;
        shown(rt.alloc(), &out)?.as_str(),
        "⟦open c.h⟧/* Generated. Do not edit. */\n#pragma once\n\n#define A\n#define B 2\n#define C x\n#undef D\n"
    );
    Ok(())
}

/// Returns room for a line of a template.
pub fn line_room(alloc: Global) -> Result<Vec<u8>, AllocError>
    ensures { IfOk result (λ room. length room.items ≡ 65536) }
{
    vec![in alloc; 0u8; LINE_LIMIT]
}

// Writes the template `t` with these bytes to the output `o`, and gives how that ended and what the outputs took.
fn passed(
    alloc: Global,
    template: &str,
    room: usize,
) -> Result<(Option<PassStop>, MemOutputs), Fail> {
    let config = sample(alloc)?;
    let bytes = template.as_bytes().to_vec(alloc)?;
    let mut tree = MemTree::new(
        alloc,
        vec![in alloc; (String::from_str(alloc, "t")?, bytes)]?,
    )?;
    let mut out = MemOutputs::new(alloc, room)?;
    let mut line = line_room(alloc)?;
    out.open("o")?;
    let stop = pass(&mut tree, "t", &config, line.as_mut_slice(), &mut out).err();
    Ok((stop, out))
}

#[test]
fn the_names_of_a_template_are_replaced(rt: HostRuntime) -> Result<(), Fail> {
    for (template, stop, events) in [
        (
            "#mesondefine A\nx@Z@y\nz",
            None,
            "#define A\nx⟦log⟧WARNING: t:2: no value for Z\n⟦put⟧y\nz",
        ),
        (
            "#mesondefine D\n#mesondefine Z\n",
            None,
            "#undef D\n/* undef Z */\n",
        ),
        ("x\\@A@B@\n\\\\@B@\n@B@B@\n", None, "x@A2\n\\2\n2B@\n"),
        ("@C@@A@@D@", None, "xtruefalse"),
        (
            "one\ntwo\n#mesondefine A B\n",
            Some(PassStop::Template(3)),
            "one\ntwo\n",
        ),
        ("", None, ""),
    ] {
        let (ended, out) = passed(rt.alloc(), template, 1_000)?;
        assert_eq!(rt; ended, stop, "{template}");
        let expected = format!(in rt.alloc(); "⟦open o⟧{events}")?;
        assert_eq!(rt;
            shown(rt.alloc(), &out)?.as_str(),
            expected.as_str(),
            "{template}"
        );
    }
    Ok(())
}

// A line of 65,536 bytes, its end counted, is the longest.
#[test]
fn a_line_past_the_limit_is_refused(rt: HostRuntime) -> Result<(), Fail> {
    let alloc = rt.alloc();
    let most = "a".repeat(alloc, 65_535)?;
    let short = format!(in alloc; "{most}\n")?;
    let unended = format!(in alloc; "{most}a")?;
    let long = format!(in alloc; "x\n{most}a\n")?;
    for (template, stop, bytes) in [
        (&short, None, 65_536),
        (&unended, None, 65_536),
        (&long, Some(PassStop::Limit(2)), 2),
    ] {
        let (ended, out) = passed(alloc, template.as_str(), 70_000)?;
        assert_eq!(rt; (ended, out.event_count()), (stop, bytes + 1));
    }
    Ok(())
}

// A tree whose only file has this size, or is absent, and has so many `a`.
#[derive(Drop)]
struct OddTree {
    size: Option<u64>,
    bytes: u64,
}

impl Tree for OddTree {
    ghost seen = { λ _. record { files = []; failures = 0; steady = false } };

    fn failures(&self) -> u64 {
        0
    }

    fn size(&mut self, _path: &str) -> Result<Option<u64>, DeviceFault> {
        Ok(self.size)
    }

    fn read_at(&mut self, _path: &str, at: u64, buf: &mut [u8]) -> Result<usize, DeviceFault> {
        let left = self.bytes.saturating_sub(at);
        let count = (buf.len() as u64).min(left) as usize;
        for byte in buf[..count].iter_mut() {
            *byte = b'a';
        }
        Ok(count)
    }
}

// Passes the odd file, and gives how that ended and how many bytes it wrote.
fn pass_odd(
    alloc: Global,
    size: Option<u64>,
    bytes: u64,
) -> Result<(Option<PassStop>, usize), Fail> {
    let config = ConfigData::new(alloc);
    let mut line = line_room(alloc)?;
    let mut tree = OddTree { size, bytes };
    let mut out = MemOutputs::new(alloc, 70_000)?;
    out.open("o")?;
    let stop = pass(&mut tree, "t", &config, line.as_mut_slice(), &mut out).err();
    Ok((stop, out.event_count().saturating_sub(1)))
}

// No more is read than the size says, an earlier end is the end of the file, and an absent file is empty.
#[test]
fn files_end_before_or_behind_their_size(rt: HostRuntime) -> Result<(), Fail> {
    for (size, bytes, stop, written) in [
        (None, 3, None, 0),
        (Some(3), 0, None, 0),
        (Some(3), 10, None, 3),
        (Some(65_536), 65_540, None, 65_536),
        (Some(65_540), 65_536, None, 65_536),
        (Some(65_540), 65_537, Some(PassStop::Limit(1)), 0),
    ] {
        assert_eq!(rt;
            pass_odd(rt.alloc(), size, bytes)?,
            (stop, written),
            "{size:?} {bytes}"
        );
    }
    Ok(())
}
