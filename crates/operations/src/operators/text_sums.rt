//! Concatenates texts and joins paths.

ghost use Rattle.std.specs.Prelude.{◌≡◌, ◌++◌, IfOk};
ghost use Rattle.values.specs.Data.{text as text_data};
ghost use Rattle.values.specs.Prelude.{Answers, within, within_bytes};
ghost use Rattle.support.specs.paths.Below.{path_below};

use std::alloc::{AllocError, Global};
use support::paths::before_path;
use values::texts::join;
use values::{OperationRefusal, Text, Value};

/// Returns one text followed by another, or E22 past the limit. The first one grows in place if nobody else shares it.
pub fn concatenate(
    alloc: Global,
    mut first: Text,
    second: &str,
) -> Result<Result<Value, OperationRefusal>, AllocError>
    ensures { IfOk result (λ r. Answers (within (text_data (first ++ second.now))) r) }
{
    match first.push(alloc, second)? {
        Ok(()) => Ok(Ok(Value::Text(first))),
        Err(refusal) => Ok(Err(refusal)),
    }
}

/// Returns the path of `path` below `folder`, or `OperationRefusal::Limit` if it is too long. A short one is not allocated.
pub fn path_text(
    alloc: Global,
    folder: &str,
    path: &str,
) -> Result<Result<Text, OperationRefusal>, AllocError>
    ensures { IfOk result (λ r. r ≡ within_bytes (path_below folder.now path.now)) }
{
    let (before, slash) = before_path(folder, path);
    join(alloc, slash, &[before, path])
}
