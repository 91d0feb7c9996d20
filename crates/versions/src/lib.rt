//! Compares versions as Meson does: `1.10` is greater than `1.9`, and numbers of any length are compared exactly.
//!
//! # Decisions
//!
//! **A version is a list of runs.** [`version_compare`] compares runs of digits as integers of any length, and runs of letters by bytes.
#![tactic(auto)]

ghost use Rattle.std.specs.Prelude.{◌≡◌, ◌≢◌, Some, slice_get, ◌<◌, ◌≤◌, ◌∷◌, [], length, drop, MatchOption, IfSome};
ghost use Rattle.std.specs.Ordering.{nat_cmp};
ghost use Rattle.std.specs.List.{prefix_len, AllPass};
ghost use Rattle.std.specs.Char.{is_ascii_digit, is_ascii_alphabetic};
ghost use Rattle.versions.specs.Version.{runs, integer_of_digits, run_order, version_order};
ghost use Rattle.versions.specs.Condition.{relation_of, sign_length, allows, meets};
ghost use Rattle.versions.specs.Code.{run_in, IsWellFormed};

use std::cmp::Ordering;

/// The relation that a condition requires between a version and the one that it names.
#[derive(Clone, Copy)]
enum Relation {
    AtLeast,
    AtMost,
    NotEqual,
    Equal,
    Above,
    Below,
}

/// A run of a version: at least one decimal digit, or at least one ASCII letter.
#[derive(Clone, Copy)]
enum Run<'a> {
    Number(&'a [u8]),
    Word(&'a [u8]),
}

/// Returns whether `version` meets `condition`: one of `>= <= != == = > <` (none means `==`), blanks and a version.
///
/// A version is a sequence of runs of digits and runs of ASCII letters; all other bytes separate runs. The runs are compared in order. A
/// run of digits counts as the integer that it spells, of any length, and is greater than a run of letters; letters are compared by bytes.
/// If all runs agree, the version with more runs is greater. This is `version_compare` of the page "Reference manual", type `str`. It
/// allocates nothing and never fails.
pub fn version_compare(version: &str, condition: &str) -> bool
    ensures { result ≡ meets version.now condition.now }
{
    let (relation, other) = split_condition(condition.as_bytes());
    relation.allows(compare_versions(version.as_bytes(), other))
}

impl Relation {
    fn allows(self, order: Ordering) -> bool
        ensures { result ≡ allows self order }
    {
        match self {
            Relation::AtLeast => order.is_ge(),
            Relation::AtMost => order.is_le(),
            Relation::NotEqual => order.is_ne(),
            Relation::Equal => order.is_eq(),
            Relation::Above => order.is_gt(),
            Relation::Below => order.is_lt(),
        }
    }
}

// Returns the relation of a condition, and the text after its operator.
fn split_condition(condition: &[u8]) -> (Relation, &[u8])
    ensures relation { result.0 ≡ relation_of condition.now }
    ensures version { result.1.now ≡ drop (sign_length condition.now) condition.now }
{
    match condition {
        [b'>', b'=', other @ ..] => (Relation::AtLeast, other),
        [b'<', b'=', other @ ..] => (Relation::AtMost, other),
        [b'!', b'=', other @ ..] => (Relation::NotEqual, other),
        [b'=', b'=', other @ ..] => (Relation::Equal, other),
        [b'=', other @ ..] => (Relation::Equal, other),
        [b'>', other @ ..] => (Relation::Above, other),
        [b'<', other @ ..] => (Relation::Below, other),
        _ => (Relation::Equal, condition),
    }
}

fn compare_versions(version: &[u8], other: &[u8]) -> Ordering
    ensures { result ≡ version_order version.now other.now }
{
    let mut left = version;
    let mut right = other;
    loop {
        match (first_run(left), first_run(right)) {
            (Some((run, left_rest)), Some((other_run, right_rest))) => {
                let order = compare_runs(run, other_run);
                if order.is_ne() {
                    return order;
                }
                left = left_rest;
                right = right_rest;
            }
            (Some(_), None) => return Ordering::Greater,
            (None, Some(_)) => return Ordering::Less,
            (None, None) => return Ordering::Equal,
        }
    }
}

// Returns the first run of a version, and the rest of the version. Returns `None` if there is no run.
fn first_run(version: &[u8]) -> Option<(Run<'_>, &[u8])>
    ensures first { MatchOption result (runs version.now ≡ []) (λ r. runs version.now ≡ run_in r.0 ∷ runs r.1.now) }
    ensures digits { IfSome result (λ r. IsWellFormed r.0) }
    ensures shorter { IfSome result (λ r. length r.1.now < length version.now) }
{
    let from = without_separators(version);
    let (number, rest) = from.split_at(digit_count(from));
    if !number.is_empty() {
        return Some((Run::Number(number), rest));
    }
    let (word, rest) = from.split_at(letter_count(from));
    if word.is_empty() {
        return None;
    }
    Some((Run::Word(word), rest))
}

// Returns a version from its first run on.
fn without_separators(version: &[u8]) -> &[u8]
    ensures same { runs result.now ≡ runs version.now }
    ensures begins { prefix_len is_ascii_digit result.now ≡ 0 → prefix_len is_ascii_alphabetic result.now ≡ 0 → result.now ≡ [] }
    ensures within { length result.now ≤ length version.now }
{
    let mut from = version;
    while let Some((first, rest)) = from.split_first() {
        if first.is_ascii_alphanumeric() {
            break;
        }
        from = rest;
    }
    from
}

/// Returns how many ASCII digits a text begins with.
pub fn digit_count(bytes: &[u8]) -> usize
    ensures count { result ≡ prefix_len is_ascii_digit bytes.now }
    ensures within { result ≤ length bytes.now }
{
    for (i, b) in bytes.iter().enumerate() {
        if !b.is_ascii_digit() {
            return i;
        }
    }
    bytes.len()
}

// Returns how many ASCII letters a text begins with.
fn letter_count(bytes: &[u8]) -> usize
    ensures count { result ≡ prefix_len is_ascii_alphabetic bytes.now }
    ensures within { result ≤ length bytes.now }
{
    for (i, b) in bytes.iter().enumerate() {
        if !b.is_ascii_alphabetic() {
            return i;
        }
    }
    bytes.len()
}

// Compares two runs: numbers by value, words by bytes; a number is greater than a word.
fn compare_runs(run: Run<'_>, other: Run<'_>) -> Ordering
    requires number { IsWellFormed run }
    requires other_number { IsWellFormed other }
    ensures { result ≡ run_order (run_in run.entry) (run_in other.entry) }
{
    match (run, other) {
        (Run::Number(digits), Run::Number(other_digits)) => compare_numbers(digits, other_digits),
        (Run::Number(_), Run::Word(_)) => Ordering::Greater,
        (Run::Word(_), Run::Number(_)) => Ordering::Less,
        (Run::Word(letters), Run::Word(other_letters)) => letters.cmp(&other_letters),
    }
}

// Compares the numbers that two texts of digits spell. Without leading zeros, the longer one is greater.
fn compare_numbers(digits: &[u8], other: &[u8]) -> Ordering
    requires digits { AllPass is_ascii_digit digits.now }
    requires other_digits { AllPass is_ascii_digit other.now }
    ensures { result ≡ nat_cmp (integer_of_digits digits.now) (integer_of_digits other.now) }
{
    let digits = without_zeros(digits);
    let other = without_zeros(other);
    if digits.len() != other.len() {
        return digits.len().cmp(&other.len());
    }
    digits.cmp(&other)
}

fn without_zeros(digits: &[u8]) -> &[u8]
    requires { AllPass is_ascii_digit digits.now }
    ensures same { integer_of_digits result.now ≡ integer_of_digits digits.now }
    ensures digits { AllPass is_ascii_digit result.now }
    ensures no_zero { slice_get result.now 0 ≢ Some 48 }
{
    let mut left = digits;
    while let Some((first, rest)) = left.split_first() {
        if *first != b'0' {
            break;
        }
        left = rest;
    }
    left
}
