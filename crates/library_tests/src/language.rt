//! Tests the way from the text of a definition file to its code.
use meson::code::node::{Node, OperandNode};
use meson::code::{Code, Names, flatten};
use meson::syntax::fault::{FaultKind, SyntaxError};
use meson::syntax::lexer::text_of;
use meson::syntax::token::{Token, TokenKind};
use meson::syntax::tree::{Expression, File, Operator, Statement};
use meson::syntax::{parse, tokens};
use std::alloc::{AllocError, Global};
use std::test::Fail;

#[test]
fn a_source_is_cut_into_tokens(rt: HostRuntime) -> Result<(), Fail> {
    let source = "x += [0x1F, # one\n'a']\n";
    let found = tokens(rt.alloc(), source).ok().ok_or("tokens")?;
    let expected = [
        ("x", 1),
        ("+=", 1),
        ("[", 1),
        ("0x1F", 1),
        (",", 1),
        ("'a'", 2),
        ("]", 2),
        ("\n", 2),
    ];
    assert_eq!(rt; found.len(), expected.len());
    for (token, (text, line)) in found.iter().zip(expected) {
        assert_eq!(rt; token.text, text);
        assert_eq!(rt; token.line, line, "{text}");
    }
    Ok(())
}

// The text of the first token of a source.
fn first_text(alloc: Global, source: &str) -> Result<String, Fail> {
    let found = tokens(alloc, source).ok().ok_or("tokens")?;
    let token: &Token<'_> = found.first().ok_or("a token")?;
    Ok(text_of(alloc, token)?)
}

#[test]
fn a_string_token_has_the_text_after_its_escapes(rt: HostRuntime) -> Result<(), Fail> {
    for (source, text) in [
        (r"'\x41\u00e9\101\q\''", r"AéA\q'"),
        (r"'\1234'", "S4"),
        (r"'\400'", "\u{100}"),
        (r"'\x4'", r"\x4"),
        (r"'''a\n'b'''", r"a\n'b"),
        ("f'@a@'", "@a@"),
        ("name", "name"),
        ("0x1F", "0x1F"),
    ] {
        assert_eq!(rt; first_text(rt.alloc(), source)?.as_str(), text);
    }
    Ok(())
}

// The number and the line of the fault of a source, or none if it is a file.
fn fault_of(alloc: Global, source: &str) -> Result<Option<(u8, usize)>, AllocError> {
    match parse(alloc, source) {
        Ok(_) => Ok(None),
        Err(SyntaxError::Memory) => Err(AllocError),
        Err(SyntaxError::Fault(fault)) => {
            let number = match fault.kind {
                FaultKind::Token => 2,
                FaultKind::Grammar => 3,
                FaultKind::Nesting => 4,
            };
            Ok(Some((number, fault.line)))
        }
    }
}

#[test]
fn a_source_is_refused_at_its_first_fault(rt: HostRuntime) -> Result<(), Fail> {
    for (source, fault) in [
        ("x = 1\nx = 012\n", (2, 2)),
        ("x = 1\nx = 'a", (2, 2)),
        ("x = 1\nx = '\\ud800'\n", (2, 2)),
        ("x = 1\nx = 1 == 2 ==\n3", (3, 2)),
        ("x = 1\nx = true ? (\nfalse ? 'a' : 'b') : 'c'\n", (3, 3)),
        ("x = 1\nmessage(a: 1,\nb\n)\n", (3, 4)),
        ("x = 1\nbreak\n", (3, 2)),
        ("x = 1\nx = [1,\n", (3, 3)),
    ] {
        assert_eq!(rt; fault_of(rt.alloc(), source)?, Some(fault), "{source}");
    }
    Ok(())
}

#[test]
fn sixty_four_levels_are_parsed_and_one_more_is_refused(rt: HostRuntime) -> Result<(), Fail> {
    let alloc = rt.alloc();
    let signs = "-".repeat(alloc, 64)?;
    let deep = format!(in alloc; "x = 1\nx = {signs}1\n")?;
    let deeper = format!(in alloc; "x = 1\nx = -{signs}1\n")?;
    assert_eq!(rt; fault_of(alloc, deep.as_str())?, None);
    assert_eq!(rt; fault_of(alloc, deeper.as_str())?, Some((4, 2)));
    Ok(())
}

// Whether the file is the one statement `x = z + 1 - 2` on the first line, its sum one chain.
fn is_sum(file: &File<'_>) -> bool {
    let Some(Statement::Assign { name, line, value }) = file.statements.first() else {
        return false;
    };
    let Expression::Chain { others, .. } = &**value else {
        return false;
    };
    *name == "x"
        && *line == 1
        && others.len() == 2
        && matches!(others[0].operator, Operator::Add)
        && matches!(others[1].operator, Operator::Subtract)
}

#[test]
fn a_chain_of_operators_is_one_expression(rt: HostRuntime) -> Result<(), Fail> {
    let file = parse(rt.alloc(), "x = z + 1 - 2\n").ok().ok_or("a file")?;
    assert_eq!(rt; file.statements.len(), 1);
    assert!(rt; is_sum(&file));
    Ok(())
}

#[test]
fn names_keep_their_numbers(rt: HostRuntime) -> Result<(), Fail> {
    let mut names = Names::new(rt.alloc());
    assert!(rt; names.is_empty());
    for (name, number) in [("b", 0), ("a", 1), ("b", 0), ("c", 2)] {
        assert_eq!(rt; names.put(name)?, number, "{name}");
    }
    assert_eq!(rt; names.len(), 3);
    assert_eq!(rt; names.number_of("a"), Some(1));
    assert_eq!(rt; names.number_of("d"), None);
    assert_eq!(rt; names.name(2), Some("c"));
    assert_eq!(rt; names.name(3), None);
    Ok(())
}

// Whether the node is a chain of the node `first` and two others before the fourth.
fn is_chain(node: &Node, nodes_before: usize) -> bool {
    let Node::Chain { first, others, .. } = node else {
        return false;
    };
    let is_before = |other: &OperandNode| other.value < nodes_before;
    (*first as usize) < nodes_before && others.len() == 2 && others.iter().all(is_before)
}

// The names `z` and `x`, the literals 1 and 2, and the chain, which is numbered after its parts.
#[test]
fn a_file_is_made_flat(rt: HostRuntime) -> Result<(), Fail> {
    let alloc = rt.alloc();
    let mut names = Names::new(alloc);
    names.put("z")?;
    let file = parse(alloc, "x = z + 1 - 2\n").ok().ok_or("a file")?;
    let code: Code = flatten(alloc, &file, &mut names)?;
    assert_eq!(rt;
        (names.number_of("z"), names.number_of("x")),
        (Some(0), Some(1))
    );
    assert_eq!(rt; (code.names, names.len()), (2, 2));
    assert_eq!(rt; code.body.as_slice(), [0].as_slice());
    assert_eq!(rt; (code.statements.len(), code.nodes.len()), (1, 4));
    let chain = code.nodes.get(3).ok_or("a chain")?;
    assert!(rt; is_chain(chain, 3));
    Ok(())
}

#[test]
fn a_keyword_is_no_name(rt: HostRuntime) -> Result<(), Fail> {
    let found = tokens(rt.alloc(), "endif endifs").ok().ok_or("tokens")?;
    assert_eq!(rt; found.len(), 2);
    assert!(rt; found[0].is(TokenKind::EndIf) && found[1].is(TokenKind::Name));
    Ok(())
}
