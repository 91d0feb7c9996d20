//! Checks whether the arguments of a call fit its row.
ghost use Rattle.std.specs.Prelude.{◌≡◌, ◌&&◌, ◌||◌, ◌++◌, ◌∷◌, [], IfOk, IsTrue, bytes_eq, false, not};
ghost use Rattle.std.specs.Prelude.{flat_map, map, option_map, string_bytes};
ghost use Rattle.std.specs.List.{list_any};
ghost use Rattle.support.specs.Among.{is_among};
ghost use Rattle.arguments.specs.Refused.{answer_data};
ghost use Rattle.values.specs.Prelude.{data_of};
ghost use Rattle.arguments.specs.Arguments.{arguments_data, named_data};
ghost use Rattle.arguments.specs.MisfitView.{misfit_data};
ghost use Rattle.arguments.specs.Misfits.{at_place, arguments_check, left_out, misfit, keyword_misfit, positional_misfit, missing_keyword};
ghost use Rattle.arguments.specs.Misfits.{of_keyword, too_few, twice, unfit};
ghost use Rattle.arguments.specs.Row.{common_left_out, is_of, keyword_kind, kind_at};
ghost use Rattle.arguments.specs.RowView.{keyword_data, row_data};

use crate::arguments::{Arguments, Named};
use crate::list_pieces::{are_pieces, is_command, is_configuration, is_feature, is_file};
use crate::mismatch::Mismatch;
use crate::readers::value_named;
use crate::refused::ArgumentError;
use crate::row::{ArgumentKind, Keyword, Row};
use std::alloc::{AllocError, Global};
use support::tables::{SipSet, new_set};
use support::text_lists::is_among;
use values::{Value, is_texts};

// Returns whether a value is a text, an integer or a boolean.
fn is_setting(value: &Value) -> bool
    ensures { result ≡ is_of ArgumentKind.Setting (data_of value.now) }
{
    matches!(
        value,
        Value::Boolean(_) | Value::Integer(_) | Value::Text(_)
    )
}

fn is_of(kind: ArgumentKind, value: &Value) -> bool
    ensures { result ≡ is_of kind (data_of value.now) }
{
    match kind {
        ArgumentKind::Any => true,
        ArgumentKind::Boolean => value.as_boolean().is_some(),
        ArgumentKind::Integer => value.as_integer().is_some(),
        ArgumentKind::Text => value.as_text().is_some(),
        ArgumentKind::IntegerOrText => value.as_integer().is_some() || value.as_text().is_some(),
        ArgumentKind::Setting => is_setting(value),
        ArgumentKind::Requirement => value.as_boolean().is_some()
            || value.as_object().is_some_and(is_feature),
        ArgumentKind::Texts => is_texts(value),
        ArgumentKind::Dictionary => value.as_dictionary().is_some(),
        ArgumentKind::TextsOrDictionary => is_texts(value) || value.as_dictionary().is_some(),
        ArgumentKind::ConfigurationData => value.as_object().is_some_and(is_configuration),
        ArgumentKind::Configuration => value.as_object().is_some_and(is_configuration)
            || value.as_dictionary().is_some(),
        ArgumentKind::File => value.as_object().is_some_and(is_file),
        ArgumentKind::Command => value.as_object().is_some_and(is_command),
        ArgumentKind::Flat(piece) => are_pieces(piece, value),
    }
}

// Returns the kind of the positional argument at an index, and `None` if the row takes none there.
fn kind_at(row: &Row, place: usize) -> Option<ArgumentKind>
    ensures { result ≡ kind_at (row_data row.now) place }
{
    match row.positional.get(place) {
        Some(kind) => Some(*kind),
        None => row.others,
    }
}

fn at_place(place: usize, kind: Option<ArgumentKind>, value: &Value) -> Option<Mismatch<'_>>
    ensures { option_map misfit_data result ≡ at_place place kind (data_of value.now) }
{
    match kind {
        None => Some(Mismatch::TooMany(place)),
        Some(kind) if is_of(kind, value) => None,
        Some(kind) => Some(Mismatch::Place(place, kind, value)),
    }
}

// Returns the first positional argument that does not fit the row.
fn find_misplaced<'a>(row: &Row, values: &'a [Value]) -> Option<Mismatch<'a>>
    ensures { option_map misfit_data result ≡ positional_misfit (row_data row.now) 0 (map data_of values.now) }
{
    for (i, value) in values.iter().enumerate() {
        let misfit = at_place(i, kind_at(row, i), value);
        if misfit.is_some() {
            return misfit;
        }
    }
    None
}

fn keyword_kind(name: &str, lists: &[&[Keyword]]) -> Option<ArgumentKind>
    ensures { result ≡ keyword_kind name.now (flat_map (λ ks. map keyword_data ks.now) lists.now) }
{
    for keywords in lists {
        for keyword in *keywords {
            if keyword.name() == name {
                return Some(keyword.kind());
            }
        }
    }
    None
}

fn of_keyword<'a>(
    name: &'a str,
    kind: Option<ArgumentKind>,
    value: &'a Value,
) -> Option<Mismatch<'a>>
    ensures { option_map misfit_data result ≡ of_keyword name.now kind (data_of value.now) }
{
    match kind {
        None => Some(Mismatch::Unknown(name)),
        Some(kind) if is_of(kind, value) => None,
        Some(kind) => Some(Mismatch::Keyword(name, kind, value)),
    }
}

// Returns the first keyword that does not fit the row.
fn find_misnamed<'a>(lists: &[&[Keyword]], named: &'a [Named]) -> Option<Mismatch<'a>>
    ensures { option_map misfit_data result
        ≡ keyword_misfit (flat_map (λ ks. map keyword_data ks.now) lists.now) (map named_data named.now) }
{
    for one in named {
        let name = one.name.as_str();
        let misfit = of_keyword(name, keyword_kind(name, lists), &one.value);
        if misfit.is_some() {
            return misfit;
        }
    }
    None
}

// Returns the first required keyword that is missing.
fn missing<'a>(lists: &[&[Keyword]], named: &[Named]) -> Option<Mismatch<'a>>
    ensures { option_map misfit_data result
        ≡ missing_keyword (flat_map (λ ks. map keyword_data ks.now) lists.now) (map named_data named.now) }
{
    for keywords in lists {
        for keyword in *keywords {
            if keyword.is_needed() && value_named(keyword.name(), named).is_none() {
                return Some(Mismatch::Missing(keyword.name()));
            }
        }
    }
    None
}

// Appends a name, and returns false if it is already among the names.
fn put_new(names: &mut SipSet<String>, name: String) -> Result<bool, AllocError>
    ensures tested { IfOk result (λ new. new ≡ not (list_any (bytes_eq (string_bytes name)) (map string_bytes names.old.keys))) }
    ensures added { IfOk result (λ new. IsTrue new
        → map string_bytes names.new.keys ≡ map string_bytes names.old.keys ++ string_bytes name ∷ []) }
{
    let new = names.insert(name)?;
    Ok(new)
}

// Returns whether a name is already among these, and appends it otherwise.
fn comes_again(alloc: Global, names: &mut SipSet<String>, name: &str) -> Result<bool, AllocError>
    ensures tested { IfOk result (λ again. again ≡ list_any (bytes_eq name.now) (map string_bytes names.old.keys)) }
    ensures added { IfOk result (λ again. again ≡ false
        → map string_bytes names.new.keys ≡ map string_bytes names.old.keys ++ name.now ∷ []) }
{
    let name = String::from_str(alloc, name)?;
    let new = put_new(names, name)?;
    Ok(!new)
}

// Up to this many keywords are compared with each other. If there are more, each is looked up.
const FEW: usize = 8;

fn is_named(name: &str, named: &[Named]) -> bool
    ensures { result ≡ list_any (λ n. bytes_eq name.now n.name) named.now }
{
    named.iter().any(|one| name == one.name.as_str())
}

// Returns the first keyword that occurs twice. Each is compared with those before it.
fn twice_in_few<'a>(named: &'a [Named]) -> Option<Mismatch<'a>>
    ensures { option_map misfit_data result ≡ twice (map named_data named.now) }
{
    for (i, one) in named.iter().enumerate() {
        if is_named(one.name.as_str(), &named[..i]) {
            return Some(Mismatch::Twice(one.name.as_str()));
        }
    }
    None
}

// Returns the first keyword that occurs twice, by a set.
fn twice_in_many<'a>(alloc: Global, named: &'a [Named]) -> Result<Option<Mismatch<'a>>, AllocError>
    ensures { IfOk result (λ found. option_map misfit_data found ≡ twice (map named_data named.now)) }
{
    let mut names = new_set(alloc);
    for one in named {
        if comes_again(alloc, &mut names, one.name.as_str())? {
            return Ok(Some(Mismatch::Twice(one.name.as_str())));
        }
    }
    Ok(None)
}

// Returns the first keyword that occurs twice.
fn twice<'a>(alloc: Global, named: &'a [Named]) -> Result<Option<Mismatch<'a>>, AllocError>
    ensures { IfOk result (λ found. option_map misfit_data found ≡ twice (map named_data named.now)) }
{
    if named.len() <= FEW {
        Ok(twice_in_few(named))
    } else {
        twice_in_many(alloc, named)
    }
}

// Returns whether no call supports a keyword with this name.
fn is_common_left_out(name: &str) -> bool
    ensures { result ≡ is_among common_left_out name.now }
{
    is_among(&["kwargs", "fallback", "deprecated"], name)
}

// Returns the first keyword that is not supported.
fn find_left_out<'a>(names: &[&str], named: &'a [Named]) -> Option<Mismatch<'a>>
    ensures { option_map misfit_data result ≡ left_out (map (λ n. n.now) names.now) (map named_data named.now) }
{
    for one in named {
        let name = one.name.as_str();
        if is_common_left_out(name) || is_among(names, name) {
            return Some(Mismatch::LeftOut(name));
        }
    }
    None
}

fn too_few<'a>(needed: usize, given: usize) -> Option<Mismatch<'a>>
    ensures { option_map misfit_data result ≡ too_few needed given }
{
    if needed <= given {
        None
    } else {
        Some(Mismatch::TooFew(needed, given))
    }
}

// Returns the first misfit apart from repeated keywords.
fn unfit<'a>(row: &Row, arguments: &'a Arguments) -> Option<Mismatch<'a>>
    ensures { option_map misfit_data result ≡ unfit (row_data row.now) (arguments_data arguments.now) }
{
    if let Some(misfit) = find_left_out(row.left_out, &arguments.named) {
        return Some(misfit);
    }
    if let Some(misfit) = too_few(row.needed, arguments.positional.len()) {
        return Some(misfit);
    }
    if let Some(misfit) = find_misplaced(row, &arguments.positional) {
        return Some(misfit);
    }
    if let Some(misfit) = find_misnamed(row.keywords, &arguments.named) {
        return Some(misfit);
    }
    missing(row.keywords, &arguments.named)
}

fn misfit<'a>(
    alloc: Global,
    row: &Row,
    arguments: &'a Arguments,
) -> Result<Option<Mismatch<'a>>, AllocError>
    ensures { IfOk result (λ found. option_map misfit_data found ≡ misfit (row_data row.now) (arguments_data arguments.now)) }
{
    if let Some(misfit) = twice(alloc, &arguments.named)? {
        return Ok(Some(misfit));
    }
    Ok(unfit(row, arguments))
}

/// Checks the arguments by the row of the call, in time linear in their number.
///
/// Refuses a repeated keyword with E11, and otherwise an unsupported one with E23. Otherwise refuses with E9 a wrong count or type, a
/// keyword that the call does not take, or the lack of one that it requires. The detail describes the bad argument.
pub fn check(
    alloc: Global,
    row: &Row,
    arguments: &Arguments,
) -> Result<Result<(), ArgumentError>, AllocError>
    ensures { IfOk result (λ r. answer_data r ≡ arguments_check (row_data row.now) (arguments_data arguments.now)) }
{
    match misfit(alloc, row, arguments)? {
        Some(misfit) => Ok(Err(misfit.refuse(alloc)?)),
        None => Ok(Ok(())),
    }
}
