//! Reads texts and lists of texts as arguments.

ghost use Rattle.std.specs.Prelude.{◌≡◌, map, IfOk};
ghost use Rattle.values.specs.Prelude.{data_of};
ghost use Rattle.operations.specs.methods.FlatTexts.{flat_texts};
ghost use Rattle.values.specs.texts.Answers.{pieces_in};

use std::alloc::{AllocError, Global};
use values::{OperationRefusal, Value, are_texts, flat_all};

/// Returns the texts in the arguments, with all lists flattened, or `OperationRefusal::Arguments` if they contain anything else.
pub fn flat_texts(
    alloc: Global,
    arguments: &[Value],
) -> Result<Result<Vec<&str>, OperationRefusal>, AllocError>
    ensures { IfOk result (λ r. pieces_in r ≡ flat_texts (map data_of arguments.now)) }
{
    if !are_texts(arguments) {
        return Ok(Err(OperationRefusal::Arguments));
    }
    Ok(Ok(flat_all(alloc, arguments)?))
}
