//! Reads calls of `option`.

ghost use Rattle.std.specs.Prelude.{◌≡◌, ◌++◌, [], ◌∷◌, IfOk, IsTrue, false, map, not, string_bytes};
ghost use Rattle.std.specs.List.{list_any};
ghost use Rattle.std.specs.Option.{option_and_then, option_map};
ghost use Rattle.syntax.specs.ExpressionTree.{argument_of, argument_trees};
ghost use Rattle.support.specs.Among.{is_among};
ghost use Rattle.option_values.specs.View.{strings_in};
ghost use Rattle.options.specs.option_file.Calls.{stands_key, with_key, gives_twice, is_left_out_key, is_free_name, name_in, with_argument};
ghost use Rattle.options.specs.option_file.Calls.{first_left_out, first_twice, key_said, keywords_from, option_of, call_declares};
ghost use Rattle.options.specs.option_file.FirstName.{first_name};
ghost use Rattle.options.specs.option_file.Keywords.{asked_by, nothing_given};
ghost use Rattle.options.specs.option_file.KeywordsView.{asked_in, keywords_in};
ghost use Rattle.options.specs.option_file.MisfitView.{refused_in};
ghost use Rattle.options.specs.option_file.Misfits.{Twice, refused_as};
ghost use Rattle.options.specs.option_file.View.{given_in, entry_in, call_in};

use crate::option_file::argument_values::read_given;
use crate::option_file::declaration::{Declaration, DeclaredValue};
use crate::option_file::keyword::{Keywords, OptionKeyword, is_left_out};
use crate::option_file::names::is_option_name;
use crate::option_file::refusals::unfit;
use crate::option_file::statement_problem::{StatementError, StatementProblem};
use option_values::{OptionKind, is_built_in};
use std::alloc::{AllocError, Global};
use support::tables::{SipSet, new_set};
use syntax::tree::Argument;

// Appends a key, or returns false if it is among the others.
fn put_new(keys: &mut SipSet<String>, key: String) -> Result<bool, AllocError>
    ensures tested { IfOk result (λ new. new ≡ not (is_among (strings_in keys.old.keys) (string_bytes key))) }
    ensures added { IfOk result (λ new. IsTrue new → strings_in keys.new.keys ≡ strings_in keys.old.keys ++ string_bytes key ∷ []) }
{
    let new = keys.insert(key)?;
    Ok(new)
}

// Returns whether an argument's key is among these. If not, it is appended.
fn comes_again(
    alloc: Global,
    keys: &mut SipSet<String>,
    argument: &Argument<'_>,
) -> Result<bool, AllocError>
    ensures tested { IfOk result (λ again. again ≡ stands_key (strings_in keys.old.keys) (argument_of argument.now).0) }
    ensures added { IfOk result (λ again. again ≡ false
        → strings_in keys.new.keys ≡ with_key (strings_in keys.old.keys) (argument_of argument.now).0) }
{
    let Some(key) = argument.name else {
        return Ok(false);
    };
    let key = String::from_str(alloc, key)?;
    let new = put_new(keys, key)?;
    Ok(!new)
}

// Returns whether a keyword occurs twice.
fn gives_twice(alloc: Global, arguments: &[Argument<'_>]) -> Result<bool, AllocError>
    ensures { IfOk result (λ twice. twice ≡ gives_twice [] (argument_trees arguments.now)) }
{
    let mut keys = new_set(alloc);
    for argument in arguments {
        if comes_again(alloc, &mut keys, argument)? {
            return Ok(true);
        }
    }
    Ok(false)
}

fn key_said<'a>(argument: &Argument<'a>) -> &'a str
    ensures { result.now ≡ key_said (argument_of argument.now).0 }
{
    match argument.name {
        Some(key) => key,
        None => "",
    }
}

// Returns the first keyword that occurs twice.
fn first_twice<'a>(alloc: Global, arguments: &[Argument<'a>]) -> Result<&'a str, AllocError>
    ensures { IfOk result (λ key. key.now ≡ first_twice [] (map argument_of arguments.now)) }
{
    let mut keys = new_set(alloc);
    for argument in arguments {
        if comes_again(alloc, &mut keys, argument)? {
            return Ok(key_said(argument));
        }
    }
    Ok("")
}

fn is_left_out_key(argument: &Argument<'_>) -> bool
    ensures { result ≡ is_left_out_key (argument_of argument.now).0 }
{
    match argument.name {
        Some(key) => is_left_out(key),
        None => false,
    }
}

// Returns whether a keyword occurs that is left out.
fn gives_left_out(arguments: &[Argument<'_>]) -> bool
    ensures { result ≡ list_any (λ a. is_left_out_key (argument_of a).0) arguments.now }
{
    arguments.iter().any(|argument| is_left_out_key(argument))
}

// Returns the first keyword that is left out.
fn first_left_out<'a>(arguments: &[Argument<'a>]) -> &'a str
    ensures { result.now ≡ first_left_out (map argument_of arguments.now) }
{
    for argument in arguments {
        if is_left_out_key(argument) {
            return key_said(argument);
        }
    }
    ""
}

// Returns whether a project may give an option this name.
fn is_free_name(name: &str) -> bool
    ensures { result ≡ is_free_name name.now }
{
    is_option_name(name) && !is_built_in(name)
}

// Returns the name that is given, if a project may give it to an option.
fn name_in(given: Option<DeclaredValue>) -> Option<String>
    ensures { option_map string_bytes result ≡ name_in (option_map given_in given) }
{
    let DeclaredValue::Text(name) = given? else {
        return None;
    };
    if is_free_name(name.as_str()) {
        Some(name)
    } else {
        None
    }
}

// Adds one more argument, or returns `None` if no known keyword gives it or its value is wrong.
fn with_argument(
    alloc: Global,
    keywords: Keywords,
    argument: &Argument<'_>,
) -> Result<Option<Keywords>, AllocError>
    ensures { IfOk result (λ k. option_map keywords_in k ≡ with_argument (keywords_in keywords) (argument_of argument.now)) }
{
    let Some(key) = argument.name else {
        return Ok(None);
    };
    let Some(keyword) = OptionKeyword::from_name(key) else {
        return Ok(None);
    };
    let Some(given) = read_given(alloc, &argument.value)? else {
        return Ok(None);
    };
    keywords.note(alloc, keyword, given)
}

/// Returns what these arguments give, or `None` if one of them has no known keyword or a wrong value.
pub(crate) fn keywords_from(
    alloc: Global,
    arguments: &[Argument<'_>],
) -> Result<Option<Keywords>, AllocError>
    ensures { IfOk result (λ k. option_map keywords_in k ≡ keywords_from nothing_given (argument_trees arguments.now)) }
{
    let mut keywords = Keywords::new();
    for argument in arguments {
        let Some(next) = with_argument(alloc, keywords, argument)? else {
            return Ok(None);
        };
        keywords = next;
    }
    Ok(Some(keywords))
}

// Returns the name that the first argument gives, which has no keyword.
fn first_name(alloc: Global, first: &Argument<'_>) -> Result<Option<String>, AllocError>
    ensures { IfOk result (λ name. option_map string_bytes name ≡ first_name (argument_of first.now)) }
{
    if first.is_named() {
        return Ok(None);
    }
    Ok(name_in(read_given(alloc, first.value())?))
}

// Returns what the option with these keywords takes, and its default.
fn asked_by(
    alloc: Global,
    others: &[Argument<'_>],
) -> Result<Option<(OptionKind, Option<DeclaredValue>)>, AllocError>
    ensures { IfOk result (λ asked. option_map asked_in asked
        ≡ option_and_then asked_by (keywords_from nothing_given (argument_trees others.now))) }
{
    match keywords_from(alloc, others)? {
        Some(keywords) => Ok(keywords.finish()),
        None => Ok(None),
    }
}

// Returns the option that these arguments declare on this line: its name, followed by keywords.
fn option_of(
    alloc: Global,
    line: usize,
    arguments: &[Argument<'_>],
) -> Result<Option<(String, Declaration)>, AllocError>
    ensures { IfOk result (λ option. option_map entry_in option ≡ option_of line (argument_trees arguments.now)) }
{
    let Some((first, others)) = arguments.split_first() else {
        return Ok(None);
    };
    let Some(name) = first_name(alloc, first)? else {
        return Ok(None);
    };
    match asked_by(alloc, others)? {
        Some((kind, value)) => Ok(Some((name, Declaration { kind, value, line }))),
        None => Ok(None),
    }
}

fn refuse_twice(alloc: Global, arguments: &[Argument<'_>]) -> Result<StatementError, AllocError>
    ensures { IfOk result (λ r. refused_in r ≡ refused_as (Twice (first_twice [] (map argument_of arguments.now)))) }
{
    let key = first_twice(alloc, arguments)?;
    StatementProblem::Twice(key).refuse(alloc)
}

/// Returns the option that a call of `option` declares, with its name, or what is wrong with the call. A keyword that occurs twice is
/// reported first, then one that is left out, then everything else.
pub fn call_declares(
    alloc: Global,
    line: usize,
    arguments: &[Argument<'_>],
) -> Result<Result<(String, Declaration), StatementError>, AllocError>
    ensures { IfOk result (λ option. call_in option ≡ call_declares line (argument_trees arguments.now)) }
{
    if gives_twice(alloc, arguments)? {
        return Ok(Err(refuse_twice(alloc, arguments)?));
    }
    if gives_left_out(arguments) {
        let key = first_left_out(arguments);
        let refused = StatementProblem::LeftOut(key).refuse(alloc)?;
        return Ok(Err(refused));
    }
    match option_of(alloc, line, arguments)? {
        Some(option) => Ok(Ok(option)),
        None => {
            let refused = unfit(alloc, arguments)?;
            Ok(Err(refused))
        }
    }
}
