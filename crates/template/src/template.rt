//! Writes a template to outputs line by line, through one lent buffer.
ghost use Rattle.std.specs.Prelude.{◌≡◌, ℕ, ◌+◌, ◌-◌, ◌^◌, ◌<◌, ◌≤◌, ◌++◌, List, take, drop, length, nat_lt, IsTrue, IfOk};
ghost use Rattle.ports.specs.Endings.{HasRoom, ending_of_result, is_whole};
ghost use Rattle.ports.specs.Outputs.{IsOpen, Sends, Writes};
ghost use Rattle.ports.specs.Tree.{bytes_at, Asks, Stays};
ghost use Rattle.template.specs.Given.{Gave, Passed, UnlessFailed};
ghost use Rattle.template.specs.Template.{Agrees, Lacks, PassFailures, ending_of, fault_from, lines_of, steps_from, template_fault};
ghost use Rattle.template.specs.Template.{template_steps};

use crate::replace::replace_line;
use crate::{ConfigData, PassStop};
use memchr::memchr;
use ports::{DeviceFault, Outputs, Tree};
use support::limits::LINE_BYTES;

/// States how many bytes a line of a template may have, including its line ending.
pub const LINE_LIMIT: usize = LINE_BYTES;

/// Moves the bytes from `start` to `end` to the front, and returns their number.
fn keep_rest(line: &mut [u8], start: usize, end: usize) -> usize
    requires start { start ≤ end }
    requires end { end ≤ length line.old }
    ensures count { result ≡ end - start }
    ensures rest { take (end - start) line.new ≡ take (end - start) (drop start line.old) }
{
    line.copy_within(start..end, 0);
    end - start
}

/// Returns how many bytes to read, given how many are left and how much room there is.
fn ask_for(left: u64, room: usize) -> usize
    ensures left { result ≤ left }
    ensures room { result ≤ room }
    ensures some { 0 < left → 0 < room → 0 < result }
{
    if left < room as u64 {
        left as usize
    } else {
        room
    }
}

/// Reads bytes of the file after the first `filled` bytes of the line, and returns how many.
fn fill<T: Tree>(
    tree: &mut T,
    path: &str,
    at: u64,
    size: u64,
    line: &mut [u8],
    filled: usize,
) -> Result<usize, DeviceFault>
    requires room { HasRoom (T.seen tree.old).failures }
    requires at { at ≤ size }
    requires filled { filled ≤ length line.old }
    ensures within { IfOk result (λ n. filled + n ≤ length line.old) }
    ensures size { IfOk result (λ n. at + n ≤ size) }
    ensures kept { take filled line.new ≡ take filled line.old }
    ensures bytes { let file = bytes_at (T.seen tree.old).files path.now in IsTrue (T.seen tree.old).steady
        → IfOk result (λ n. take (filled + n) line.new ≡ take filled line.old ++ take n (drop at file)) }
    ensures some { let file = bytes_at (T.seen tree.old).files path.now in IsTrue (T.seen tree.old).steady
        → IfOk result (λ n. filled < length line.old → at < size → at < length file → 0 < n) }
    ensures given { filled < length line.old
        → IfOk result (λ n. Gave T.gives path.now size at tree.old (take n (drop filled line.new)) tree.new) }
    ensures asks { Asks (T.seen tree.old) (ending_of_result result) (T.seen tree.new) }
{
    let left = size - at;
    let want = ask_for(left, line.len() - filled);
    if want == 0 {
        return Ok(0);
    }
    tree.read_at(path, at, &mut line[filled..filled + want])
}

/// Returns whether the file has a byte at this position. Its end may come before the size that the tree returned.
fn has_more<T: Tree>(tree: &mut T, path: &str, at: u64, size: u64) -> Result<bool, DeviceFault>
    requires { HasRoom (T.seen tree.old).failures }
    ensures more { let file = bytes_at (T.seen tree.old).files path.now in IsTrue (T.seen tree.old).steady
        → size ≡ length file → IfOk result (λ more. more ≡ nat_lt at size) }
    ensures given { IfOk result (λ more. (piece : List ℕ) × (more ≡ nat_lt 0 (length piece))
        × Gave T.gives path.now size at tree.old piece tree.new) }
    ensures asks { Asks (T.seen tree.old) (ending_of_result result) (T.seen tree.new) }
{
    if at >= size {
        return Ok(false);
    }
    let mut next = [0];
    let count = tree.read_at(path, at, &mut next)?;
    Ok(count > 0)
}

/// Writes the template at this path to the open output, with its names replaced by the values of `config`.
///
/// The rules are those of `configure_file` (Meson manual, page "Configuration"). An absent template is empty. `line` is a buffer of
/// [`LINE_LIMIT`] bytes, and nothing is allocated. A line is written before the next one is read in full, so the lines before an E19 or E22
/// are written. The call ends whatever the tree answers.
///
/// Fails with [`PassStop::Template`] (E19) for a line with no name after `#mesondefine`, and with [`PassStop::Limit`] (E22) for a line
/// longer than the limit. Both have the number of the line, from 1. Fails with [`PassStop::Device`] if a device fails.
pub fn pass<T: Tree, O: Outputs>(
    tree: &mut T,
    path: &str,
    config: &ConfigData,
    line: &mut [u8],
    out: &mut O,
) -> Result<(), PassStop>
    requires tree { HasRoom (T.seen tree.old).failures }
    requires out { IsOpen (O.seen out.old) }
    requires line_len { length line.old ≡ LINE_LIMIT }
    ensures events { let file = bytes_at (T.seen tree.old).files path.now in IsTrue (T.seen tree.old).steady
        → Sends (O.seen out.old) (O.seen out.new) (template_steps config.now.entries path.now file) (is_whole (ending_of result)) }
    ensures fault { IsTrue (T.seen tree.old).steady
        → Agrees result (template_fault (bytes_at (T.seen tree.old).files path.now)) }

    // For any tree, steady or not: the template is the bytes that the tree gave.
    ensures given { UnlessFailed result (Passed T.tells_size T.gives config.now.entries path.now tree.old tree.new
        (O.seen out.old) (O.seen out.new) result) }
    ensures name { (O.seen out.new).open_name ≡ (O.seen out.old).open_name }
    ensures stays { Stays (T.seen tree.old) (T.seen tree.new) }
    ensures failures { let tree_old = (T.seen tree.old).failures in
        PassFailures tree_old (T.seen tree.new).failures (O.seen out.old).failures (O.seen out.new).failures result }
{
    let size = tree.size(path)?.unwrap_or(0);
    let mut at = 0;
    let mut start = 0;
    let mut end = 0;
    let mut lines = 0;
    'lines: loop {
        match memchr(b'\n', &line[start..end]) {
            Some(len) => {
                replace_line(config, path, lines + 1, &line[start..start + len + 1], out)?;
                start += len + 1;
                lines += 1;
            }
            None => {
                end = keep_rest(line, start, end);
                start = 0;
                if end == line.len() {
                    if has_more(tree, path, at, size)? {
                        return Err(PassStop::Limit(lines + 1));
                    }
                    return put_last(config, path, lines, line, out);
                }
                let count = fill(tree, path, at, size, line, end)?;
                if count == 0 {
                    return put_last(config, path, lines, &line[..end], out);
                }
                at += count as u64;
                end += count;
            }
        }
    }
}

/// Writes a line without an end, if it has any bytes.
fn put_last<O: Outputs>(
    config: &ConfigData,
    path: &str,
    lines: u64,
    bytes: &[u8],
    out: &mut O,
) -> Result<(), PassStop>
    requires out { IsOpen (O.seen out.old) }
    requires len { length bytes.now ≤ LINE_LIMIT }
    requires number { 0 < length bytes.now → lines + 1 < 2 ^ 64 }
    requires lacks { Lacks 10 bytes.now }
    ensures writes { let run = steps_from config.now.entries path.now (lines + 1) (lines_of bytes.now) in
        Writes (O.seen out.old) run (ending_of result) (O.seen out.new) }
    ensures fault { Agrees result (fault_from (lines + 1) (lines_of bytes.now)) }
{
    if bytes.is_empty() {
        Ok(())
    } else {
        replace_line(config, path, lines + 1, bytes, out)
    }
}
