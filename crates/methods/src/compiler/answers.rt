//! Reads what the machine file answers in place of a compiler.
ghost use Rattle.std.specs.Prelude.{◌≡◌, IfOk, map};
ghost use Rattle.machine_file.specs.Questions.{answer_to, check_topic};
ghost use Rattle.machine_file.specs.View.{machine_in};
ghost use Rattle.methods.specs.CompilerSaid.{is_true, integer_answer};

use machine_file::Machine;
use std::alloc::{AllocError, Global};

/// Returns whether a check is true. Without an answer it is false.
pub fn is_true(
    alloc: Global,
    machine: &Machine,
    method: &str,
    texts: &[&str],
) -> Result<bool, AllocError>
    ensures { IfOk result (λ b. b ≡ is_true (answer_to (machine_in machine.now) (check_topic method.now (map (λ t. t.now) texts.now)))) }
{
    match machine.check(alloc, method, texts)? {
        Some(value) => Ok(value.boolean().unwrap_or(false)),
        None => Ok(false),
    }
}

/// Returns the number of `sizeof` or `alignment`, and -1 if the machine file has none.
pub fn integer_answer(
    alloc: Global,
    machine: &Machine,
    method: &str,
    texts: &[&str],
) -> Result<i64, AllocError>
    ensures { IfOk result (λ n. n
        ≡ integer_answer (answer_to (machine_in machine.now) (check_topic method.now (map (λ t. t.now) texts.now)))) }
{
    match machine.check(alloc, method, texts)? {
        Some(value) => Ok(value.integer().unwrap_or(-1)),
        None => Ok(-1),
    }
}
