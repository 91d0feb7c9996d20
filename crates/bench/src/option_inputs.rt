//! Makes option files and command lines with a given number of items.

use std::alloc::{AllocError, Global};

/// Returns an option file of so many options.
pub fn option_file(alloc: Global, count: usize) -> Result<String, AllocError> {
    let mut text = String::new(alloc);
    for i in 0..count {
        let line = format!(in alloc; "option('option{i}', type: 'string', value: 'default')\n")?;
        text.push_str(line.as_str())?;
    }
    Ok(text)
}

/// Returns a machine file that gives so many options values.
pub fn keys(alloc: Global, count: usize) -> Result<String, AllocError> {
    let mut text = String::from_str(alloc, "[project options]\n")?;
    for i in 0..count {
        let line = format!(in alloc; "option{i} = 'key'\n")?;
        text.push_str(line.as_str())?;
    }
    Ok(text)
}

/// Returns a machine file with so many dependencies.
pub fn sections(alloc: Global, count: usize) -> Result<String, AllocError> {
    let mut text = String::new(alloc);
    for i in 0..count {
        let lines = format!(in alloc; "[dependency d{i}]\nversion = '1'\nlink_args = ['-ld']\n")?;
        text.push_str(lines.as_str())?;
    }
    Ok(text)
}

/// Returns `count` arguments of a command line, each for an option of its own.
pub fn words(alloc: Global, count: usize) -> Result<Vec<String>, AllocError> {
    let mut all = Vec::new(alloc);
    for i in 0..count {
        all.push(format!(in alloc; "option{i}=word")?)?;
    }
    Ok(all)
}

/// Returns the names of so many things.
pub fn names(alloc: Global, kind: &str, count: usize) -> Result<Vec<String>, AllocError> {
    let mut all = Vec::new(alloc);
    for i in 0..count {
        all.push(format!(in alloc; "{kind}{i}")?)?;
    }
    Ok(all)
}

/// Returns an option file of one array with so many choices.
pub fn array_of_choices(alloc: Global, count: usize) -> Result<String, AllocError> {
    let mut text = String::from_str(
        alloc,
        "option('array', type: 'array', value: [], choices: [",
    )?;
    for i in 0..count {
        text.push_str(format!(in alloc; "'choice{i}',")?.as_str())?;
    }
    text.push_str("])\n")?;
    Ok(text)
}

/// Returns the argument that gives this array all of its choices.
pub fn all_choices(alloc: Global, count: usize) -> Result<String, AllocError> {
    let mut text = String::from_str(alloc, "array=choice0")?;
    for i in 1..count {
        text.push_str(format!(in alloc; ",choice{i}")?.as_str())?;
    }
    Ok(text)
}
