//! Tests values, operators and methods.
use meson::operations::methods::{format_text, has_method, method};
use meson::operations::operators::{Binary, Unary, binary, dictionary, index, unary};
use meson::values::language_names::MethodName;
use meson::values::texts::version_compare;
use meson::values::{List, Object, OperationRefusal, Text, Value};
use std::alloc::Global;
use std::test::Fail;

// What an operation gives: a plain value, how many items a list or a dictionary has, or the number of a refusal.
#[derive(Clone, Copy, Debug, PartialEq, Eq)]
enum Given<'a> {
    Boolean(bool),
    Integer(i128),
    Text(&'a str),
    Items(usize),
    Object,
    Refused(u8),
}

// The number of a refusal.
fn number(refusal: OperationRefusal) -> u8 {
    match refusal {
        OperationRefusal::Type => 6,
        OperationRefusal::Range => 7,
        OperationRefusal::UnknownMethod => 8,
        OperationRefusal::Arguments => 9,
        OperationRefusal::Absent => 10,
        OperationRefusal::Duplicate => 11,
        OperationRefusal::Limit => 22,
    }
}

impl Given<'_> {
    fn of(answer: &Result<Value, OperationRefusal>) -> Given<'_> {
        match answer {
            Ok(Value::Boolean(boolean)) => Given::Boolean(*boolean),
            Ok(Value::Integer(integer)) => Given::Integer(*integer),
            Ok(Value::Text(text)) => Given::Text(text.as_str()),
            Ok(Value::List(list)) => Given::Items(list.len()),
            Ok(Value::Dictionary(dictionary)) => Given::Items(dictionary.len()),
            Ok(Value::Object(_)) => Given::Object,
            Err(refusal) => Given::Refused(number(*refusal)),
        }
    }
}

// A plain value, or a list of a text and an integer.
#[derive(Clone, Copy)]
enum Plain {
    Boolean(bool),
    Integer(i128),
    Text(&'static str),
    List(&'static str, i128),
}

impl Plain {
    fn value(self, alloc: Global) -> Result<Value, Fail> {
        match self {
            Plain::Boolean(boolean) => Ok(Value::Boolean(boolean)),
            Plain::Integer(integer) => Ok(Value::Integer(integer)),
            Plain::Text(text) => text_value(alloc, text),
            Plain::List(text, integer) => {
                let items = vec![in alloc; text_value(alloc, text)?, Value::Integer(integer)]?;
                let list = List::from_items(items).ok().ok_or("a list")?;
                Ok(Value::of_list(alloc, list)?)
            }
        }
    }
}

fn text_value(alloc: Global, text: &str) -> Result<Value, Fail> {
    Ok(Value::of_str(alloc, text)?.ok().ok_or("a text")?)
}

fn values(alloc: Global, plain: &[Plain]) -> Result<Vec<Value>, Fail> {
    let mut values = Vec::new(alloc);
    for it in plain {
        values.push(it.value(alloc)?)?;
    }
    Ok(values)
}

#[test]
fn a_value_is_read_by_its_type(rt: HostRuntime) -> Result<(), Fail> {
    let alloc = rt.alloc();
    let list = Plain::List("ab", 7).value(alloc)?;
    let disabler = Value::of_object(alloc, Object::Disabler)?;
    assert_eq!(rt; Value::Boolean(true).as_boolean(), Some(true));
    assert_eq!(rt; Value::Integer(7).as_integer(), Some(7));
    assert_eq!(rt; Value::Integer(7).as_boolean(), None);
    assert!(rt; list.as_list().is_some() && list.as_text().is_none());
    assert!(rt; disabler.as_object().is_some() && disabler.is_disabler());
    Ok(())
}

// A text weighs its bytes and one, a list one and its items, anything else one.
#[test]
fn a_value_has_a_weight_and_levels(rt: HostRuntime) -> Result<(), Fail> {
    let alloc = rt.alloc();
    for (plain, weight, depth) in [
        (Plain::Integer(7), 1, 0),
        (Plain::Text("ab"), 3, 0),
        (Plain::List("ab", 7), 5, 1),
    ] {
        let value = plain.value(alloc)?;
        assert_eq!(rt; (value.weight(), value.depth()), (weight, depth));
    }
    Ok(())
}

#[test]
fn an_operator_takes_one_operand(rt: HostRuntime) -> Result<(), Fail> {
    for (operator, operand, given) in [
        (Unary::Not, Value::Boolean(true), Given::Boolean(false)),
        (Unary::Not, Value::Integer(1), Given::Refused(6)),
        (Unary::Negate, Value::Integer(5), Given::Integer(-5)),
        (Unary::Negate, Value::Boolean(true), Given::Refused(6)),
        (Unary::Negate, Value::Integer(i128::MIN), Given::Refused(7)),
    ] {
        assert_eq!(rt; Given::of(&unary(operator, operand)), given);
    }
    Ok(())
}

const INTEGERS: &[(i128, Binary, i128, Given<'static>)] = &[
    (
        9_223_372_036_854_775_807,
        Binary::Add,
        1,
        Given::Integer(9_223_372_036_854_775_808),
    ),
    (i128::MAX, Binary::Add, 1, Given::Refused(7)),
    (3, Binary::Subtract, 5, Given::Integer(-2)),
    (3, Binary::Multiply, 5, Given::Integer(15)),
    (-7, Binary::Divide, 2, Given::Integer(-4)),
    (7, Binary::Divide, -2, Given::Integer(-4)),
    (7, Binary::Divide, 0, Given::Refused(7)),
    (i128::MIN, Binary::Divide, -1, Given::Refused(7)),
    (7, Binary::Remainder, -2, Given::Integer(-1)),
    (-7, Binary::Remainder, -2, Given::Integer(-1)),
    (i128::MIN, Binary::Remainder, -1, Given::Integer(0)),
    (3, Binary::Equal, 3, Given::Boolean(true)),
    (3, Binary::NotEqual, 3, Given::Boolean(false)),
    (3, Binary::Less, 3, Given::Boolean(false)),
    (3, Binary::GreaterOrEqual, 3, Given::Boolean(true)),
    (3, Binary::In, 3, Given::Refused(6)),
];

#[test]
fn an_operator_takes_two_integers(rt: HostRuntime) -> Result<(), Fail> {
    for (left, operator, right, given) in INTEGERS {
        let answer = binary(
            rt.alloc(),
            *operator,
            Value::Integer(*left),
            Value::Integer(*right),
        )?;
        assert_eq!(rt; Given::of(&answer), *given, "{left} and {right}");
    }
    Ok(())
}

const OTHERS: &[(Plain, Binary, Plain, Given<'static>)] = &[
    (
        Plain::Text("a"),
        Binary::Add,
        Plain::Text("b"),
        Given::Text("ab"),
    ),
    (
        Plain::Text("a"),
        Binary::Add,
        Plain::Integer(1),
        Given::Refused(6),
    ),
    (
        Plain::List("a", 1),
        Binary::Add,
        Plain::List("b", 2),
        Given::Items(4),
    ),
    (
        Plain::List("a", 1),
        Binary::Add,
        Plain::Integer(2),
        Given::Items(3),
    ),
    (
        Plain::Text("a"),
        Binary::Divide,
        Plain::Text("b"),
        Given::Text("a/b"),
    ),
    (
        Plain::Text("a/"),
        Binary::Divide,
        Plain::Text("b"),
        Given::Text("a/b"),
    ),
    (
        Plain::Text("a"),
        Binary::Divide,
        Plain::Text("/c"),
        Given::Text("/c"),
    ),
    (
        Plain::Text(""),
        Binary::Divide,
        Plain::Text("b"),
        Given::Text("b"),
    ),
    (
        Plain::List("a", 1),
        Binary::Equal,
        Plain::List("a", 1),
        Given::Boolean(true),
    ),
    (
        Plain::Integer(1),
        Binary::Equal,
        Plain::Text("1"),
        Given::Refused(6),
    ),
    (
        Plain::Text("a"),
        Binary::Less,
        Plain::Text("b"),
        Given::Boolean(true),
    ),
    (
        Plain::Text("b"),
        Binary::In,
        Plain::Text("abc"),
        Given::Boolean(true),
    ),
    (
        Plain::Integer(1),
        Binary::In,
        Plain::List("a", 1),
        Given::Boolean(true),
    ),
    (
        Plain::Integer(2),
        Binary::NotIn,
        Plain::List("a", 1),
        Given::Boolean(true),
    ),
];

#[test]
fn an_operator_takes_texts_and_lists(rt: HostRuntime) -> Result<(), Fail> {
    let alloc = rt.alloc();
    for (left, operator, right, given) in OTHERS {
        let answer = binary(alloc, *operator, left.value(alloc)?, right.value(alloc)?)?;
        assert_eq!(rt; Given::of(&answer), *given);
    }
    Ok(())
}

// A text of 16,777,216 bytes is the longest.
#[test]
fn a_text_past_the_limit_is_refused(rt: HostRuntime) -> Result<(), Fail> {
    let alloc = rt.alloc();
    let half = "x".repeat(alloc, 8_388_608)?;
    let whole = binary(
        alloc,
        Binary::Add,
        text_value(alloc, half.as_str())?,
        text_value(alloc, half.as_str())?,
    )?;
    let whole = whole.ok().ok_or("a text")?;
    let longer = binary(alloc, Binary::Add, whole, text_value(alloc, "x")?)?;
    assert_eq!(rt; Given::of(&longer), Given::Refused(22));
    Ok(())
}

const INDEXED: &[(Plain, Plain, Given<'static>)] = &[
    (Plain::List("a", 20), Plain::Integer(0), Given::Text("a")),
    (Plain::List("a", 20), Plain::Integer(-1), Given::Integer(20)),
    (Plain::List("a", 20), Plain::Integer(2), Given::Refused(10)),
    (
        Plain::List("a", 20),
        Plain::Integer(9_223_372_036_854_775_808),
        Given::Refused(10),
    ),
    (Plain::Text("é1"), Plain::Integer(0), Given::Text("é")),
    (Plain::Text("é1"), Plain::Text("a"), Given::Refused(6)),
    (Plain::Integer(7), Plain::Integer(0), Given::Refused(6)),
];

#[test]
fn a_part_is_read_at_an_index(rt: HostRuntime) -> Result<(), Fail> {
    let alloc = rt.alloc();
    for (whole, at, given) in INDEXED {
        let answer = index(alloc, &whole.value(alloc)?, &at.value(alloc)?)?;
        assert_eq!(rt; Given::of(&answer), *given);
    }
    Ok(())
}

#[test]
fn a_value_is_read_at_a_key(rt: HostRuntime) -> Result<(), Fail> {
    let alloc = rt.alloc();
    let entries = vec![in alloc; (text_value(alloc, "k")?, Value::Integer(5))]?;
    let whole = dictionary(alloc, entries)?.ok().ok_or("a dictionary")?;
    let there = index(alloc, &whole, &text_value(alloc, "k")?)?;
    let absent = index(alloc, &whole, &text_value(alloc, "l")?)?;
    assert_eq!(rt; Given::of(&there), Given::Integer(5));
    assert_eq!(rt; Given::of(&absent), Given::Refused(10));
    Ok(())
}

fn method_name(alloc: Global, name: &str) -> Result<MethodName, Fail> {
    let text = Text::of_str(alloc, name)?.ok().ok_or("a text")?;
    Ok(MethodName::new(text))
}

const METHODS: &[(Plain, &str, &[Plain], Given<'static>)] = &[
    (
        Plain::Text("a_B-é"),
        "underscorify",
        &[],
        Given::Text("a_B__"),
    ),
    (
        Plain::Text("a,,b,"),
        "split",
        &[Plain::Text(",")],
        Given::Items(4),
    ),
    (Plain::Text(" a  b "), "split", &[], Given::Items(2)),
    (
        Plain::Text("abcde"),
        "substring",
        &[Plain::Integer(-3), Plain::Integer(-1)],
        Given::Text("cd"),
    ),
    (
        Plain::Text("1.10"),
        "version_compare",
        &[Plain::Text(">1.9")],
        Given::Boolean(true),
    ),
    (Plain::Text("x"), "to_int", &[], Given::Refused(9)),
    (
        Plain::Text("170141183460469231731687303715884105728"),
        "to_int",
        &[],
        Given::Refused(7),
    ),
    (Plain::Text("x"), "is_even", &[], Given::Refused(8)),
    (Plain::Integer(2), "is_even", &[], Given::Boolean(true)),
    (
        Plain::Integer(2),
        "is_even",
        &[Plain::Integer(1)],
        Given::Refused(9),
    ),
    (Plain::Boolean(true), "to_int", &[], Given::Integer(1)),
    (Plain::List("a", 1), "length", &[], Given::Integer(2)),
    (
        Plain::List("a", 1),
        "get",
        &[Plain::Integer(2)],
        Given::Refused(10),
    ),
    (
        Plain::List("a", 1),
        "get",
        &[Plain::Integer(2), Plain::Integer(9)],
        Given::Integer(9),
    ),
];

#[test]
fn a_method_is_called(rt: HostRuntime) -> Result<(), Fail> {
    let alloc = rt.alloc();
    for (receiver, name, arguments, given) in METHODS {
        let arguments = values(alloc, arguments)?;
        let answer = method(
            alloc,
            &receiver.value(alloc)?,
            &method_name(alloc, name)?,
            &arguments,
        )?;
        assert_eq!(rt; Given::of(&answer), *given, "{name}");
    }
    Ok(())
}

#[test]
fn a_type_has_its_methods_and_no_others(rt: HostRuntime) -> Result<(), Fail> {
    let alloc = rt.alloc();
    for (receiver, name, is_there) in [
        (Plain::Text(""), "split", true),
        (Plain::Text(""), "is_even", false),
        (Plain::Integer(0), "is_even", true),
        (Plain::Boolean(false), "to_int", true),
        (Plain::List("", 0), "contains", true),
        (Plain::List("", 0), "has_key", false),
    ] {
        let name_of = method_name(alloc, name)?;
        assert_eq!(rt;
            has_method(&receiver.value(alloc)?, &name_of),
            is_there,
            "{name}"
        );
    }
    Ok(())
}

// What a text gives with values at its places.
fn formatted(
    alloc: Global,
    text: &str,
    values: &[Value],
) -> Result<Result<Value, OperationRefusal>, Fail> {
    match format_text(alloc, text, values)? {
        Ok(text) => Ok(Ok(Value::Text(text))),
        Err(refusal) => Ok(Err(refusal)),
    }
}

#[test]
fn a_text_has_values_at_its_places(rt: HostRuntime) -> Result<(), Fail> {
    let alloc = rt.alloc();
    let texts = values(alloc, &[Plain::Text("x"), Plain::Text("@0@")])?;
    let objects = vec![in alloc; Value::of_object(alloc, Object::Meson)?]?;
    for (text, values, given) in [
        ("@1@ @0@", &texts, Given::Text("@0@ x")),
        ("@2@", &texts, Given::Refused(10)),
        ("@0@", &objects, Given::Refused(9)),
    ] {
        assert_eq!(rt;
            Given::of(&formatted(alloc, text, values)?),
            given,
            "{text}"
        );
    }
    Ok(())
}

#[test]
fn versions_are_compared_by_their_runs(rt: HostRuntime) -> Result<(), Fail> {
    for (version, condition, meets) in [
        ("1.10", ">1.9", true),
        ("1.0rc1", ">1.0", true),
        (
            "1000000000000000000000000000000000000000",
            ">999999999999999999999999999999999999999",
            true,
        ),
        ("1.2", "== 1.2", true),
        ("1.2", "1.2.0", false),
        ("1.2", "!=1.2", false),
        ("1.a", "<1.0", true),
    ] {
        assert_eq!(rt;
            version_compare(version, condition),
            meets,
            "{version} {condition}"
        );
    }
    Ok(())
}
