//! Splits f-strings into their parts.
ghost use Rattle.std.specs.Prelude.{◌≡◌, IfOk, map};
ghost use Rattle.values.specs.texts.Segments.{segment_data};
ghost use Rattle.code.specs.FormatStrings.{is_split, part_data, text_of_parts};

use crate::names::Names;
use std::alloc::{AllocError, Global};
use values::texts::{Places, Segment, segments};

/// Holds a part of an f-string.
#[derive(Drop)]
pub enum Part {
    /// The text between placeholders. It is not empty.
    Text(String),
    /// The placeholder of a variable, by its name. The number is that of the name in the table, if the table had it before the f-string.
    Place { name: String, number: Option<usize> },
}

/// Holds an f-string, by its parts after its escapes are decoded.
#[derive(Drop)]
pub struct FormatString {
    pub parts: Vec<Part>,
    pub ghost split: { is_split parts.items },
}

// Returns a part with its own copy of the text.
fn own_part(alloc: Global, names: &Names, segment: Segment<'_>) -> Result<Part, AllocError>
    ensures { IfOk result (λ p. part_data p ≡ segment_data segment.entry) }
{
    match segment {
        Segment::Text(text) => Ok(Part::Text(String::from_str(alloc, text)?)),
        Segment::Place(name) => Ok(Part::Place {
            name: String::from_str(alloc, name)?,
            number: names.number_of(name),
        }),
    }
}

fn own_parts(
    alloc: Global,
    names: &Names,
    segments: &[Segment<'_>],
) -> Result<Vec<Part>, AllocError>
    ensures { IfOk result (λ v. map part_data v.items ≡ map segment_data segments.now) }
{
    let mut parts = Vec::new(alloc);
    for segment in segments {
        parts.push(own_part(alloc, names, *segment)?)?;
    }
    Ok(parts)
}

impl FormatString {
    /// Returns the f-string with this text, whose escapes are decoded, and looks its names up in a table.
    pub fn new(alloc: Global, names: &Names, text: &str) -> Result<FormatString, AllocError>
        ensures { IfOk result (λ f. text_of_parts f.parts.items ≡ text.now) }
    {
        let segments = segments(alloc, Places::Names, text)?;
        let parts = own_parts(alloc, names, &segments)?;
        Ok(FormatString { parts })
    }
}
