//! Replaces the placeholders of one line of a template (Meson manual, page "Configuration").
ghost use Rattle.std.specs.Prelude.{MatchOption, length, None, ◌≡◌, ◌≤◌, ◌++◌, IfSome, codes, decimal};
ghost use Rattle.ports.specs.Endings.{HasRoom, ending_of_result};
ghost use Rattle.ports.specs.Outputs.{IsOpen, Writes, logs, puts};
ghost use Rattle.std.specs.List.{prefix_len, list_all, AllPass};
ghost use Rattle.template.specs.Config.{value_of, printed_content};
ghost use Rattle.template.specs.ConfigData.{content_of};
ghost use Rattle.template.specs.Template.{Agrees, ending_of, first_fault};
ghost use Rattle.template.specs.Line.{Defines, Malformed, body_length, defined_in, definition, definition_or_comment, is_blank};
ghost use Rattle.template.specs.Line.{is_placeholder_name};
ghost use Rattle.template.specs.Line.{ending_backslashes, line_fault, line_steps, in_place, no_value, replaced_line, warning, words, is_name_byte};
ghost use Rattle.template.specs.Scan.{is_word_byte, IsFirstWord, IsPlain, IsSign, name_length};

use crate::{ConfigData, ConfigValue, PassStop};
use itoa::Buffer;
use memchr::memchr;
use ports::{DeviceFault, Outputs, log_all, put_all};

/// Returns whether a byte is valid in a name.
fn is_name_byte(b: u8) -> bool
    ensures { result ≡ is_name_byte b }
{
    b.is_ascii_alphanumeric() || b == b'-' || b == b'_'
}

/// Returns how many bytes from the front on are valid in a name.
fn name_prefix(bytes: &[u8]) -> usize
    ensures same { result ≡ prefix_len is_name_byte bytes.now }
    ensures within { result ≤ length bytes.now }
{
    for (n, b) in bytes.iter().enumerate() {
        if !is_name_byte(*b) {
            return n;
        }
    }
    bytes.len()
}

/// Returns the length of the name that begins here and ends before an `@`, or 0 if there is none.
#[tactic(auto, unfolding(crate::specs::Scan::name_length))]
fn name_length(bytes: &[u8]) -> usize
    ensures { result ≡ name_length bytes.now }
{
    let n = name_prefix(bytes);
    if n < bytes.len() && bytes[n] == b'@' {
        n
    } else {
        0
    }
}

/// Returns the number of backslashes at the end.
fn count_slashes(bytes: &[u8]) -> usize
    ensures { result ≡ ending_backslashes bytes.now }
{
    let mut slashes = 0;
    for b in bytes {
        if *b == b'\\' {
            slashes += 1;
        } else {
            slashes = 0;
        }
    }
    slashes
}

/// Locates the first `@` of some bytes.
#[derive(Clone, Copy)]
struct Sign {
    /// How many bytes before it are written.
    text: usize,
    at: usize,
    /// The length of the name that it begins, or 0 if it begins none.
    name: usize,
}

/// Finds the first `@`.
fn find_sign(rest: &[u8]) -> Option<Sign>
    ensures { MatchOption result (IsPlain rest.now) (λ s. IsSign rest.now s.text s.at s.name) }
{
    let Some(at) = memchr(b'@', rest) else {
        return None;
    };
    let slashes = count_slashes(&rest[..at]);
    let text = at - (slashes - slashes / 2);
    let name = if slashes % 2 == 0 {
        name_length(&rest[at + 1..])
    } else {
        0
    };
    Some(Sign { text, at, name })
}

/// Writes the line with its names replaced.
fn put_replaced<O: Outputs>(
    config: &ConfigData,
    path: &str,
    number: u64,
    line: &[u8],
    out: &mut O,
) -> Result<(), DeviceFault>
    requires { IsOpen (O.seen out.old) }
    ensures { Writes (O.seen out.old) (replaced_line config.now.entries path.now number line.now) (ending_of_result result)
        (O.seen out.new) }
{
    let mut from = 0;
    while let Some(sign) = find_sign(&line[from..]) {
        put_all(out, &line[from..from + sign.text])?;
        from += sign.at + 1;
        if sign.name > 0 {
            put_in_place(config, path, number, &line[from..from + sign.name], out)?;
            from += sign.name + 1;
        } else {
            put_all(out, b"@")?;
        }
    }
    put_all(out, &line[from..])
}

/// Writes the value of a name, or logs that it has none.
#[tactic(auto, unfolding(crate::specs::Line::in_place, crate::specs::Line::value_or_warning))]
fn put_in_place<O: Outputs>(
    config: &ConfigData,
    path: &str,
    number: u64,
    name: &[u8],
    out: &mut O,
) -> Result<(), DeviceFault>
    requires out { IsOpen (O.seen out.old) }
    requires named { AllPass is_name_byte name.now }
    ensures { Writes (O.seen out.old) (in_place config.now.entries path.now number name.now) (ending_of_result result) (O.seen out.new) }
{
    match config.value_at(name) {
        Some(value) => put_value(value, out),
        None => log_warning(path, number, name, out),
    }
}

/// Writes a value in printed form.
#[tactic(auto, using(ports::proofs::Sending::sending), unfolding(crate::specs::Config::printed_content))]
fn put_value<O: Outputs>(value: &ConfigValue, out: &mut O) -> Result<(), DeviceFault>
    requires { IsOpen (O.seen out.old) }
    ensures { Writes (O.seen out.old) (puts (printed_content (content_of value.now))) (ending_of_result result) (O.seen out.new) }
{
    match value {
        ConfigValue::Boolean(true) => put_all(out, b"true"),
        ConfigValue::Boolean(false) => put_all(out, b"false"),
        ConfigValue::Integer(number) => put_all(out, Buffer::new().format(*number).as_bytes()),
        ConfigValue::Text(text) => put_all(out, text.as_bytes()),
    }
}

// Logs the end of the line that says that a name has no value.
#[tactic(auto, using(ports::proofs::Sending::sending), unfolding(crate::specs::Line::no_value))]
fn log_no_value<O: Outputs>(name: &[u8], out: &mut O) -> Result<(), DeviceFault>
    requires { HasRoom (O.seen out.old).failures }
    ensures { Writes (O.seen out.old) (no_value name.now) (ending_of_result result) (O.seen out.new) }
{
    log_all(out, b": no value for ")?;
    log_all(out, name)?;
    log_all(out, b"\n")
}

// Logs the number of a line, and that a name there has no value.
#[tactic(auto, using(ports::proofs::Sending::sending))]
fn log_numbered<O: Outputs>(number: u64, name: &[u8], out: &mut O) -> Result<(), DeviceFault>
    requires { HasRoom (O.seen out.old).failures }
    ensures { let run = logs (codes ":") ++ (logs (decimal number) ++ no_value name.now) in
        Writes (O.seen out.old) run (ending_of_result result) (O.seen out.new) }
{
    log_all(out, b":")?;
    log_all(out, Buffer::new().format(number).as_bytes())?;
    log_no_value(name, out)
}

/// Logs that a name has no value.
#[tactic(auto, using(ports::proofs::Sending::sending), unfolding(crate::specs::Line::warning))]
fn log_warning<O: Outputs>(
    path: &str,
    number: u64,
    name: &[u8],
    out: &mut O,
) -> Result<(), DeviceFault>
    requires { HasRoom (O.seen out.old).failures }
    ensures { Writes (O.seen out.old) (warning path.now number name.now) (ending_of_result result) (O.seen out.new) }
{
    log_all(out, b"WARNING: ")?;
    log_all(out, path.as_bytes())?;
    log_numbered(number, name, out)
}

/// Returns how many bytes precede a line's end.
#[tactic(auto, unfolding(crate::specs::Line::body_length))]
fn body_length(line: &[u8]) -> usize
    ensures same { result ≡ body_length line.now }
    ensures within { result ≤ length line.now }
{
    let n = line.len();
    if n > 0 && line[n - 1] == b'\n' {
        if n > 1 && line[n - 2] == b'\r' {
            n - 2
        } else {
            n - 1
        }
    } else {
        n
    }
}

/// Returns how many blanks are at the front.
fn blank_prefix(bytes: &[u8]) -> usize
    ensures same { result ≡ prefix_len is_blank bytes.now }
    ensures within { result ≤ length bytes.now }
{
    for (n, b) in bytes.iter().enumerate() {
        if *b != b' ' && *b != b'\t' && *b != b'\r' {
            return n;
        }
    }
    bytes.len()
}

/// Returns how many bytes from the front on are no blanks.
fn word_prefix(bytes: &[u8]) -> usize
    ensures same { result ≡ prefix_len is_word_byte bytes.now }
    ensures within { result ≤ length bytes.now }
{
    for (n, b) in bytes.iter().enumerate() {
        if *b == b' ' || *b == b'\t' || *b == b'\r' {
            return n;
        }
    }
    bytes.len()
}

/// Holds the first word of some bytes, which is empty if there is none, and the bytes after it.
#[derive(Clone, Copy)]
struct FirstWord<'a> {
    word: &'a [u8],
    rest: &'a [u8],
}

/// Cuts off the first word.
fn first_word(bytes: &[u8]) -> FirstWord<'_>
    ensures { IsFirstWord bytes.now result.word.now result.rest.now }
{
    let text = &bytes[blank_prefix(bytes)..];
    let len = word_prefix(text);
    FirstWord {
        word: &text[..len],
        rest: &text[len..],
    }
}

/// Returns whether each of these bytes is valid in a name.
fn are_name_bytes(bytes: &[u8]) -> bool
    ensures { result ≡ list_all is_name_byte bytes.now }
{
    bytes.iter().all(|b| is_name_byte(*b))
}

/// Returns whether these bytes are a name.
#[tactic(auto, unfolding(crate::specs::Line::is_placeholder_name))]
fn is_placeholder_name(bytes: &[u8]) -> bool
    ensures { result ≡ is_placeholder_name bytes.now }
{
    !bytes.is_empty() && are_name_bytes(bytes)
}

/// Returns the name after the word `#mesondefine`, or `None` if the line has anything else.
fn defined_name<'a>(word: &[u8], rest: &'a [u8]) -> Option<&'a [u8]>
    ensures read { let read = defined_in word.now (words rest.now) in
        MatchOption result (read ≡ Malformed) (λ name. read ≡ Defines name.now) }
    ensures named { IfSome result (λ name. AllPass is_name_byte name.now) }
{
    let second = first_word(rest);
    let third = first_word(second.rest);
    if word == b"#mesondefine".as_slice()
        && is_placeholder_name(second.word)
        && third.word.is_empty()
    {
        Some(second.word)
    } else {
        None
    }
}

/// Writes a word, and a name after it.
#[tactic(auto, using(ports::proofs::Sending::sending))]
fn put_behind<O: Outputs>(word: &[u8], name: &[u8], out: &mut O) -> Result<(), DeviceFault>
    requires { IsOpen (O.seen out.old) }
    ensures { Writes (O.seen out.old) (puts word.now ++ puts name.now) (ending_of_result result) (O.seen out.new) }
{
    put_all(out, word)?;
    put_all(out, name)
}

/// Writes the line that defines a name, without its end.
#[tactic(auto, using(ports::proofs::Sending::sending), unfolding(crate::specs::Line::definition_or_comment, crate::specs::Line::definition))]
fn put_define<O: Outputs>(config: &ConfigData, name: &[u8], out: &mut O) -> Result<(), DeviceFault>
    requires out { IsOpen (O.seen out.old) }
    requires named { AllPass is_name_byte name.now }
    ensures { let run = definition_or_comment name.now (value_of config.now.entries name.now) in
        Writes (O.seen out.old) run (ending_of_result result) (O.seen out.new) }
{
    match config.value_at(name) {
        None => {
            put_behind(b"/* undef ", name, out)?;
            put_all(out, b" */")
        }
        Some(value) => put_key(name, value, out),
    }
}

/// Writes the line that defines a name with a value, without its end.
#[tactic(auto, using(ports::proofs::Sending::sending), unfolding(crate::specs::Line::definition))]
pub(crate) fn put_key<O: Outputs>(
    name: &[u8],
    value: &ConfigValue,
    out: &mut O,
) -> Result<(), DeviceFault>
    requires { IsOpen (O.seen out.old) }
    ensures { Writes (O.seen out.old) (definition name.now (content_of value.now)) (ending_of_result result) (O.seen out.new) }
{
    match value {
        ConfigValue::Boolean(true) => put_behind(b"#define ", name, out),
        ConfigValue::Boolean(false) => put_behind(b"#undef ", name, out),
        ConfigValue::Integer(_) | ConfigValue::Text(_) => {
            put_behind(b"#define ", name, out)?;
            put_all(out, b" ")?;
            put_value(value, out)
        }
    }
}

/// Writes one line of a template.
pub(crate) fn replace_line<O: Outputs>(
    config: &ConfigData,
    path: &str,
    number: u64,
    line: &[u8],
    out: &mut O,
) -> Result<(), PassStop>
    requires out { IsOpen (O.seen out.old) }
    requires len { length line.now ≤ 65536 }
    ensures writes { Writes (O.seen out.old) (line_steps config.now.entries path.now number line.now) (ending_of result) (O.seen out.new) }
    ensures fault { Agrees result (first_fault number (line_fault line.now) None) }
{
    let len = body_length(line);
    let first = first_word(&line[..len]);
    if first.word.starts_with(b"#mesondefine") {
        let Some(name) = defined_name(first.word, first.rest) else {
            return Err(PassStop::Template(number));
        };
        put_define(config, name, out)?;
        put_all(out, &line[len..])?;
    } else {
        put_replaced(config, path, number, line, out)?;
    }
    Ok(())
}
