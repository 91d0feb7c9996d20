//! Formats texts: fills placeholders with values.

ghost use Rattle.std.specs.Prelude.{◌≡◌, map, option_map, IfOk};
ghost use Rattle.std.specs.List.{list_all, flat_map};
ghost use Rattle.values.specs.Prelude.{Appends, data_of};
ghost use Rattle.values.specs.printing.Printed.{is_printable};
ghost use Rattle.values.specs.texts.Segments.{segment_data};
ghost use Rattle.operations.specs.methods.Formatted.{formatted_text, has_value, value_at, text_of_filled_segment};

use std::alloc::{AllocError, Global};
use values::printing::{is_printable, write};
use values::texts::{Places, Segment, place_number, segments};
use values::{OperationRefusal, Text, Value};

/// Returns the text with each placeholder `@N@` replaced by the printed value number N, counted from 0.
///
/// This is the method `format` of the type `str` of the page "Reference manual". Returns `OperationRefusal::Arguments` if one of the values
/// is or contains an object, even if no placeholder refers to it. Otherwise returns `OperationRefusal::Absent` if a placeholder has no
/// value, and then `OperationRefusal::Limit` if the result is longer than 16,777,216 bytes. A value that no placeholder refers to is not
/// printed.
pub fn format_text(
    alloc: Global,
    text: &str,
    values: &[Value],
) -> Result<Result<Text, OperationRefusal>, AllocError>
    ensures { IfOk result (λ r. r ≡ formatted_text text.now (map data_of values.now)) }
{
    if !are_printable(values) {
        return Ok(Err(OperationRefusal::Arguments));
    }
    let segments = segments(alloc, Places::Numbers, text)?;
    if !have_values(&segments, values) {
        return Ok(Err(OperationRefusal::Absent));
    }
    let mut made = Text::empty();
    match write_segments(alloc, &mut made, &segments, values)? {
        Ok(()) => Ok(Ok(made)),
        Err(refusal) => Ok(Err(refusal)),
    }
}

fn are_printable(values: &[Value]) -> bool
    ensures { result ≡ list_all (λ v. is_printable (data_of v)) values.now }
{
    values.iter().all(|value| is_printable(value))
}

fn have_values(segments: &[Segment<'_>], values: &[Value]) -> bool
    ensures { result ≡ list_all (has_value (map data_of values.now)) (map segment_data segments.now) }
{
    for segment in segments {
        if !has_value(*segment, values) {
            return false;
        }
    }
    true
}

fn has_value(segment: Segment<'_>, values: &[Value]) -> bool
    ensures { result ≡ has_value (map data_of values.now) (segment_data segment.entry) }
{
    match segment {
        Segment::Text(_) => true,
        Segment::Place(name) => value_at(name, values).is_some(),
    }
}

fn value_at<'v>(name: &str, values: &'v [Value]) -> Option<&'v Value>
    ensures { option_map (λ v. data_of v.now) result ≡ value_at (map data_of values.entry.now) name.now }
{
    let number = place_number(name)?;
    values.get(number)
}

// Appends the segments to a text, with placeholders filled.
fn write_segments(
    alloc: Global,
    made: &mut Text,
    segments: &[Segment<'_>],
    values: &[Value],
) -> Result<Result<(), OperationRefusal>, AllocError>
    ensures { IfOk result
        (λ r. Appends made.old (flat_map (text_of_filled_segment (map data_of values.now)) (map segment_data segments.now))
        made.new r) }
{
    let _within = made.as_str();
    for segment in segments {
        if let Err(refusal) = write_segment(alloc, made, *segment, values)? {
            return Ok(Err(refusal));
        }
    }
    Ok(Ok(()))
}

fn write_segment(
    alloc: Global,
    made: &mut Text,
    segment: Segment<'_>,
    values: &[Value],
) -> Result<Result<(), OperationRefusal>, AllocError>
    ensures { IfOk result (λ r. Appends made.old (text_of_filled_segment (map data_of values.now) (segment_data segment.entry))
        made.new r) }
{
    match segment {
        Segment::Text(text) => made.push(alloc, text),
        Segment::Place(name) => match value_at(name, values) {
            Some(value) => write(alloc, made, value),
            None => made.push(alloc, ""),
        },
    }
}
