//! Finds why a call of `option` declares no option. It runs only if the call is refused.

ghost use Rattle.std.specs.Prelude.{◌≡◌, IfOk, map};
ghost use Rattle.std.specs.Option.{option_map};
ghost use Rattle.syntax.specs.ExpressionTree.{argument_of};
ghost use Rattle.options.specs.option_file.Calls.{keywords_from, others_unfit, unfit};
ghost use Rattle.options.specs.option_file.MisfitView.{misfit_in, refused_in};
ghost use Rattle.options.specs.option_file.FirstName.{first_argument_refused};
ghost use Rattle.options.specs.option_file.Unfit.{argument_refused, first_refused, given_refused, missing_keyword_refusal};
ghost use Rattle.options.specs.option_file.Unfit.{name_refused, needed_by, noted_refused, plain_refused, unless};
ghost use Rattle.options.specs.option_file.KeywordsView.{keywords_in};
ghost use Rattle.options.specs.option_file.View.{given_in};

use crate::option_file::argument_values::read_given;
use crate::option_file::call::keywords_from;
use crate::option_file::declaration::DeclaredValue;
use crate::option_file::keyword::{Keywords, OptionKeyword, read_bound, type_in};
use crate::option_file::names::is_option_name;
use crate::option_file::statement_problem::{StatementError, StatementProblem};
use option_values::{OptionType, is_built_in};
use std::alloc::{AllocError, Global};
use syntax::tree::Argument;

fn unless(
    alloc: Global,
    is_so: bool,
    misfit: StatementProblem<'_>,
) -> Result<Option<StatementError>, AllocError>
    ensures { IfOk result (λ r. option_map refused_in r ≡ unless is_so (misfit_in misfit.entry)) }
{
    if is_so {
        return Ok(None);
    }
    let refused = misfit.refuse(alloc)?;
    Ok(Some(refused))
}

// ---- the name

fn name_refused(alloc: Global, name: &str) -> Result<Option<StatementError>, AllocError>
    ensures { IfOk result (λ r. option_map refused_in r ≡ name_refused name.now) }
{
    if is_option_name(name) {
        unless(alloc, !is_built_in(name), StatementProblem::BuiltIn(name))
    } else {
        unless(alloc, false, StatementProblem::NoName(name))
    }
}

fn refuse_given(
    alloc: Global,
    given: &Option<DeclaredValue>,
) -> Result<Option<StatementError>, AllocError>
    ensures { IfOk result (λ r. option_map refused_in r ≡ given_refused (option_map given_in given.now)) }
{
    match given {
        Some(DeclaredValue::Text(name)) => name_refused(alloc, name),
        _ => unless(alloc, false, StatementProblem::Nameless),
    }
}

fn refuse_first(alloc: Global, first: &Argument<'_>) -> Result<Option<StatementError>, AllocError>
    ensures { IfOk result (λ r. option_map refused_in r ≡ first_argument_refused (argument_of first.now)) }
{
    if first.is_named() {
        return unless(alloc, false, StatementProblem::Nameless);
    }
    let given = read_given(alloc, first.value())?;
    refuse_given(alloc, &given)
}

// ---- the other arguments, each by its keyword

fn refuse_noted(
    alloc: Global,
    key: &str,
    keyword: OptionKeyword,
    given: &DeclaredValue,
) -> Result<Option<StatementError>, AllocError>
    ensures { IfOk result (λ r. option_map refused_in r ≡ noted_refused key.now keyword (given_in given.now)) }
{
    match keyword {
        OptionKeyword::Kind => unless(
            alloc,
            type_in(given).is_some(),
            StatementProblem::NoType(key),
        ),
        OptionKeyword::Choices => {
            let fits = matches!(given, DeclaredValue::Texts(_));
            unless(alloc, fits, StatementProblem::NoChoices(key))
        }
        OptionKeyword::Min => unless(
            alloc,
            read_bound(given).is_some(),
            StatementProblem::NoBound(key),
        ),
        OptionKeyword::Max => unless(
            alloc,
            read_bound(given).is_some(),
            StatementProblem::NoBound(key),
        ),
        OptionKeyword::Value => Ok(None),
        OptionKeyword::NoEffect => Ok(None),
    }
}

fn plain_refused(
    alloc: Global,
    key: &str,
    keyword: OptionKeyword,
    given: &Option<DeclaredValue>,
) -> Result<Option<StatementError>, AllocError>
    ensures { IfOk result (λ r. option_map refused_in r ≡ plain_refused key.now keyword (option_map given_in given.now)) }
{
    match given {
        Some(given) => refuse_noted(alloc, key, keyword, given),
        None => unless(alloc, false, StatementProblem::NoPlain(key)),
    }
}

fn argument_refused(
    alloc: Global,
    argument: &Argument<'_>,
) -> Result<Option<StatementError>, AllocError>
    ensures { IfOk result (λ r. option_map refused_in r ≡ argument_refused (argument_of argument.now)) }
{
    match argument.name {
        None => unless(alloc, false, StatementProblem::TooMany),
        Some(key) => match OptionKeyword::from_name(key) {
            None => unless(alloc, false, StatementProblem::Unknown(key)),
            Some(keyword) => {
                let given = read_given(alloc, &argument.value)?;
                plain_refused(alloc, key, keyword, &given)
            }
        },
    }
}

fn first_refused(
    alloc: Global,
    arguments: &[Argument<'_>],
) -> Result<Option<StatementError>, AllocError>
    ensures { IfOk result (λ r. option_map refused_in r ≡ first_refused (map argument_of arguments.now)) }
{
    for argument in arguments {
        match argument_refused(alloc, argument)? {
            Some(refused) => return Ok(Some(refused)),
            None => {}
        }
    }
    Ok(None)
}

// ---- a required keyword

fn need_for(kind: Option<OptionType>) -> StatementProblem<'static>
    ensures { misfit_in result ≡ needed_by kind }
{
    match kind {
        None => StatementProblem::Missing("type"),
        Some(OptionType::Combo) => StatementProblem::Missing("choices"),
        Some(_) => StatementProblem::Missing("value"),
    }
}

fn lacking(alloc: Global, keywords: &Option<Keywords>) -> Result<StatementError, AllocError>
    ensures { IfOk result (λ r. refused_in r ≡ missing_keyword_refusal (option_map keywords_in keywords.now)) }
{
    match keywords {
        Some(keywords) => need_for(keywords.kind).refuse(alloc),
        None => StatementProblem::Nameless.refuse(alloc),
    }
}

fn others_unfit(alloc: Global, others: &[Argument<'_>]) -> Result<StatementError, AllocError>
    ensures { IfOk result (λ r. refused_in r ≡ others_unfit (map argument_of others.now)) }
{
    match first_refused(alloc, others)? {
        Some(refused) => Ok(refused),
        None => {
            let keywords = keywords_from(alloc, others)?;
            lacking(alloc, &keywords)
        }
    }
}

/// Returns the first fault in the arguments of a call that declares no option.
pub fn unfit(alloc: Global, arguments: &[Argument<'_>]) -> Result<StatementError, AllocError>
    ensures { IfOk result (λ r. refused_in r ≡ unfit (map argument_of arguments.now)) }
{
    let Some((first, others)) = arguments.split_first() else {
        return StatementProblem::Nameless.refuse(alloc);
    };
    match refuse_first(alloc, first)? {
        Some(refused) => Ok(refused),
        None => others_unfit(alloc, others),
    }
}
