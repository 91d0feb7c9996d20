//! Finds the first piece of a text.

ghost use Rattle.std.specs.Prelude.{◌≡◌, ◌<◌, ◌∷◌, [], length, MatchOption, IfSome, IsTrue, nat_eq, slice_index};
ghost use Rattle.std.specs.List.{prefix_len, position_or_len};
ghost use Rattle.values.specs.texts.Strip.{is_blank};
ghost use Rattle.values.specs.texts.Pieces.{parts, words, lines, is_line_end};
ghost use Rattle.values.specs.texts.Cut.{pieces, pieces_of_rest, lines_behind, end_length, CanCut};

/// Says where a text is cut: at a separator, at runs of ASCII white space, or at line endings.
#[derive(Clone, Copy)]
pub enum Cut<'s> {
    At(&'s str),
    Blanks,
    Lines,
}

impl Cut<'_> {
    /// Returns the first piece of a text, and the rest of the text if more pieces follow. Returns `None` if there is no piece.
    pub fn first<'a>(&self, text: &'a str) -> Option<(&'a str, Option<&'a str>)>
        requires { CanCut self.now }
        ensures first { MatchOption result (pieces self.now text.now ≡ [])
            (λ p. pieces self.now text.now ≡ p.0.now ∷ pieces_of_rest (pieces self.now) p.1) }
        ensures shorter { IfSome result (λ p. IfSome p.1 (λ r. length r.now < length text.now)) }
    {
        match self {
            Cut::At(separator) => Some(first_part(text, separator)),
            Cut::Blanks => first_word(text),
            Cut::Lines => first_line(text),
        }
    }
}

/// Returns the part of a text before the first separator, and the text after that separator, if there is one. The separator must not be
/// empty.
pub fn first_part<'a>(text: &'a str, separator: &str) -> (&'a str, Option<&'a str>)
    requires { 0 < length separator.now }
    ensures first { parts separator.now text.now ≡ result.0.now ∷ pieces_of_rest (parts separator.now) result.1 }
    ensures shorter { IfSome result.1 (λ r. length r.now < length text.now) }
{
    // Most separators are one byte, and a search for a string takes longer to begin.
    if let [byte] = separator.as_bytes() {
        if byte.is_ascii() {
            return part_before(text, *byte);
        }
    }
    match text.split_once(separator) {
        Some((part, rest)) => (part, Some(rest)),
        None => (text, None),
    }
}

// Returns the part of a text before the first separator, which is one ASCII character, and the text after it.
fn part_before(text: &str, byte: u8) -> (&str, Option<&str>)
    requires { byte < 128 }
    ensures first { parts (byte ∷ []) text.now ≡ result.0.now ∷ pieces_of_rest (parts (byte ∷ [])) result.1 }
    ensures shorter { IfSome result.1 (λ r. length r.now < length text.now) }
{
    let (part, rest) = text.split_at(length_before(text.as_bytes(), byte));
    if rest.is_empty() {
        return (part, None);
    }
    let (_, behind) = rest.split_at(1);
    (part, Some(behind))
}

// Returns how many bytes precede the first byte with this value.
fn length_before(bytes: &[u8], byte: u8) -> usize
    ensures { result ≡ position_or_len (λ b. nat_eq b byte) bytes.now }
{
    for (i, b) in bytes.iter().enumerate() {
        if *b == byte {
            return i;
        }
    }
    bytes.len()
}

// Returns the first word of a text, and the rest of the text.
fn first_word(text: &str) -> Option<(&str, Option<&str>)>
    ensures first { MatchOption result (words text.now ≡ []) (λ p. words text.now ≡ p.0.now ∷ pieces_of_rest words p.1) }
    ensures shorter { IfSome result (λ p. IfSome p.1 (λ r. length r.now < length text.now)) }
{
    let (_, rest) = text.split_at(blank_length(text.as_bytes()));
    if rest.is_empty() {
        return None;
    }
    let (word, rest) = rest.split_at(word_length(rest.as_bytes()));
    Some((word, Some(rest)))
}

// Returns the first line of a text, and the rest of the text if more lines follow.
fn first_line(text: &str) -> Option<(&str, Option<&str>)>
    ensures first { MatchOption result (lines text.now ≡ []) (λ p. lines text.now ≡ p.0.now ∷ pieces_of_rest lines p.1) }
    ensures shorter { IfSome result (λ p. IfSome p.1 (λ r. length r.now < length text.now)) }
{
    if text.is_empty() {
        return None;
    }
    let (line, end) = text.split_at(line_length(text.as_bytes()));
    Some((line, without_end(end)))
}

// Returns the text after the line ending with which a text begins, and `None` for an empty text.
fn without_end(text: &str) -> Option<&str>
    requires { 0 < length text.now → IsTrue (is_line_end (slice_index text.now 0)) }
    ensures lines { lines_behind text.now ≡ pieces_of_rest lines result }
    ensures shorter { IfSome result (λ r. length r.now < length text.now) }
{
    if text.is_empty() {
        return None;
    }
    let (_, rest) = text.split_at(end_length(text.as_bytes()));
    Some(rest)
}

fn end_length(text: &[u8]) -> usize
    ensures { result ≡ end_length text.now }
{
    if text.starts_with(b"\r\n") { 2 } else { 1 }
}

// Returns how many bytes of white space a text begins with.
fn blank_length(bytes: &[u8]) -> usize
    ensures { result ≡ prefix_len is_blank bytes.now }
{
    for (i, b) in bytes.iter().enumerate() {
        if !is_blank(*b) {
            return i;
        }
    }
    bytes.len()
}

// Returns how many bytes precede the first white space.
fn word_length(bytes: &[u8]) -> usize
    ensures { result ≡ position_or_len is_blank bytes.now }
{
    for (i, b) in bytes.iter().enumerate() {
        if is_blank(*b) {
            return i;
        }
    }
    bytes.len()
}

// Returns how many bytes precede the first line ending.
fn line_length(bytes: &[u8]) -> usize
    ensures { result ≡ position_or_len is_line_end bytes.now }
{
    for (i, b) in bytes.iter().enumerate() {
        if is_line_end(*b) {
            return i;
        }
    }
    bytes.len()
}

fn is_blank(b: u8) -> bool
    ensures { result ≡ is_blank b }
{
    matches!(b, b'\t'..=b'\r' | b' ')
}

fn is_line_end(b: u8) -> bool
    ensures { result ≡ is_line_end b }
{
    b == b'\n' || b == b'\r'
}
