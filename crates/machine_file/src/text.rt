//! Removes blanks at the ends of texts, and cuts texts in two.

ghost use Rattle.std.specs.Prelude.{◌≡◌, ◌<◌};
ghost use Rattle.std.specs.Option.{option_map};
ghost use Rattle.machine_file.specs.Texts.{is_blank, from_word, to_word, trimmed_text, before_last_byte, cut_first, cut_last};

/// Says which blanks are removed at the ends of a text.
#[derive(Clone, Copy)]
pub enum Blanks {
    Spaces,
    /// Spaces, tabs and carriage returns.
    All,
}

fn is_blank(blanks: Blanks, byte: u8) -> bool
    ensures { result ≡ is_blank blanks byte }
{
    match blanks {
        Blanks::Spaces => byte == b' ',
        Blanks::All => byte == b' ' || byte == b'\t' || byte == b'\r',
    }
}

// Returns a text from its first byte that is no blank.
fn from_word(blanks: Blanks, text: &str) -> &str
    ensures { result.now ≡ from_word blanks text.now }
{
    let bytes = text.as_bytes();
    let mut start = 0;
    while start < bytes.len() && is_blank(blanks, bytes[start]) {
        start += 1;
    }
    let (_, words) = text.split_at(start);
    words
}

// Returns a text up to its last byte that is no blank.
fn to_word(blanks: Blanks, text: &str) -> &str
    ensures { result.now ≡ to_word blanks text.now }
{
    let bytes = text.as_bytes();
    let mut end = bytes.len();
    while end > 0 && is_blank(blanks, bytes[end - 1]) {
        end -= 1;
    }
    let (words, _) = text.split_at(end);
    words
}

/// Returns a text without blanks at its ends.
pub fn trim(blanks: Blanks, text: &str) -> &str
    ensures { result.now ≡ trimmed_text blanks text.now }
{
    to_word(blanks, from_word(blanks, text))
}

/// Returns the text before its last character, if that is this ASCII character.
pub fn before_last_byte(text: &str, last: char) -> Option<&str>
    requires { last < 128 }
    ensures { option_map (λ t. t.now) result ≡ before_last_byte last text.now }
{
    text.strip_suffix(last)
}

/// Returns the parts before and after the first such ASCII character.
pub fn cut_first(text: &str, at: char) -> Option<(&str, &str)>
    requires { at < 128 }
    ensures { option_map (λ parts. (parts.0.now, parts.1.now)) result ≡ cut_first at text.now }
{
    text.split_once(at)
}

/// Returns the parts before and after the last such ASCII character.
pub fn cut_last(text: &str, at: char) -> Option<(&str, &str)>
    requires { at < 128 }
    ensures { option_map (λ parts. (parts.0.now, parts.1.now)) result ≡ cut_last at text.now }
{
    text.rsplit_once(at)
}
