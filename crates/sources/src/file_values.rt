//! Makes the results of `files` and `include_directories`.
ghost use Rattle.std.specs.Prelude.{◌≡◌, map, string_bytes};
ghost use Rattle.arguments.specs.Stops.{Gives};
ghost use Rattle.values.specs.Prelude.{data_of, items_of};
ghost use Rattle.values.specs.Data.{no_items};
ghost use Rattle.sources.specs.Values.{directories_at, files_at, files_behind};

use arguments::CallStop;
use std::alloc::Global;
use values::{List, Object, Text, Value, short_texts};

// Returns the files at these paths, or `OperationRefusal::Limit` if a path is too long.
fn files(alloc: Global, paths: &[String]) -> Result<Vec<Value>, CallStop>
    ensures { Gives (λ vs. items_of vs.items) (files_behind no_items (map string_bytes paths.now)) result }
{
    let mut files = Vec::new(alloc);
    for path in paths {
        let path = Text::of_str(alloc, path.as_str())??;
        let is_built = false;
        files.push(Value::of_object(alloc, Object::File { path, is_built })?)?;
    }
    Ok(files)
}

/// Returns the list of the files in the source directory at these paths, or `OperationRefusal::Limit` if a path or the list is too long.
pub fn files_at(alloc: Global, paths: &[String]) -> Result<Value, CallStop>
    ensures { Gives data_of (files_at (map string_bytes paths.now)) result }
{
    let list = List::from_items(files(alloc, paths)?)?;
    Ok(Value::of_list(alloc, list)?)
}

/// Returns the object with the directories at these paths, or `OperationRefusal::Limit` if a path is too long.
pub fn directories_at(alloc: Global, paths: &[String]) -> Result<Value, CallStop>
    ensures { Gives data_of (directories_at (map string_bytes paths.now)) result }
{
    let texts = short_texts(alloc, paths)??;
    Ok(Value::of_object(alloc, Object::IncludeDirectories(texts))?)
}
