//! The first line of a bench file: in which format the file is, and the numbers that stand there.
ghost use Rattle.std.specs.Prelude.{◌≡◌, ◌≤◌, ◌<◌, ◌+◌, ◌^◌, ◌&&◌, IfOk, IfSome, nat_le, option_map};
ghost use Rattle.ssa_model.specs.definitions.BenchText.{head_of};
ghost use Rattle.ssa_model.specs.definitions.Json.{member_at};
ghost use Rattle.ssa_model.specs.definitions.Limits.{most_past};
ghost use Rattle.ssa_model.specs.definitions.BenchOfStates.{given_if, head_in, is_written_as, number_in};
ghost use Rattle.ssa_model.specs.definitions.BenchOfFile.{file_head};
ghost use Rattle.ssa_model.specs.definitions.BenchOfRecords.{counts_in, format_in, record_format};
ghost use Rattle.ssa_json.specs.View.{view};
ghost use Rattle.ssa_file.specs.Heads.{IsFew, counts_view, depth_within, head_view, place_view};
ghost use Rattle.ssa_file.specs.Recording.{format_view};

use crate::recording::{RecordFormat, put_number, record_head};
use ssa_json::value::{Json, Scalar};
use ssa_lines::written::is_text_of;
use ssa_members::Members;
use ssa_reverse::depth::Depth;
use std::alloc::{AllocError, Global};

// The most commands of a bench file of whole states.
const MOST_COMMANDS: usize = 1_000;

/// The place of the present state in a bench file of whole states, and how many states it has.
#[derive(Clone, Copy, Debug, PartialEq, Eq)]
pub struct StatePlace {
    pub place: usize,
    pub states: usize,
}

/// The format of a bench file of records, the depth of its bench, and how many commands it has: those that can be undone, and
/// those that can be redone.
#[derive(Clone, Copy, Debug, PartialEq, Eq)]
pub struct RecordCounts {
    pub format: RecordFormat,
    pub depth: Depth,
    pub past: usize,
    pub future: usize,
}

/// What the first line of a bench file says, by the file's format.
#[derive(Clone, Copy, Debug, PartialEq, Eq)]
pub enum FileHead {
    /// Format 1: all states, each as its object.
    States(StatePlace),
    /// Formats 2 to 4: the present object, and records that lead to the other states.
    Records(RecordCounts),
}

// The member's number, where it is one and no less than 0.
fn number_in(value: &Json, name: &str) -> Option<usize>
    ensures is { result ≡ number_in (member_at name.now (view value.now)) }
    ensures small { IfSome result (λ n. n < 2 ^ 63) }
{
    match value.member(name) {
        Some(Json::Scalar(Scalar::Int(number))) => usize::try_from(*number).ok(),
        _ => None,
    }
}

// Whether the value is written as another one.
fn is_written_as(alloc: Global, value: &Json, other: &Json) -> Result<bool, AllocError>
    ensures { IfOk result (λ same. same ≡ is_written_as (view other.now) (view value.now)) }
{
    let text = value.to_text(alloc)?;
    is_text_of(alloc, other, &text)
}

// The value of the first line of a file of whole states.
fn state_head(alloc: Global, place: usize, states: usize) -> Result<Json, AllocError>
    requires place { place < 2 ^ 63 }
    requires states { states < 2 ^ 63 }
    ensures { IfOk result (λ v. view v ≡ head_of place states) }
{
    let mut members = Members::new(alloc);
    put_number(alloc, &mut members, "states", states)?;
    put_number(alloc, &mut members, "place", place)?;
    put_number(alloc, &mut members, "format", 1)?;
    Ok(Json::Object(members))
}

// The place that the value of a first line says, where it is written so: that of one of the states, of which there are no
// more than 1,001.
fn state_place(alloc: Global, value: &Json) -> Result<Option<StatePlace>, AllocError>
    ensures is { IfOk result (λ o. option_map place_view o ≡ head_in (view value.now)) }
    ensures few { IfOk result (λ o. IfSome o (λ p. (p.place < p.states) × (p.states ≤ most_past + 1))) }
{
    let Some(place) = number_in(value, "place") else {
        return Ok(None);
    };
    let Some(states) = number_in(value, "states") else {
        return Ok(None);
    };
    if place >= states || states > MOST_COMMANDS + 1 {
        return Ok(None);
    }
    let written = state_head(alloc, place, states)?;
    if is_written_as(alloc, value, &written)? {
        Ok(Some(StatePlace { place, states }))
    } else {
        Ok(None)
    }
}

// The format of records whose number this is.
fn format_of(number: usize) -> Option<RecordFormat>
    ensures { option_map format_view result ≡ record_format number }
{
    match number {
        2 => Some(RecordFormat::Records),
        3 => Some(RecordFormat::Parts),
        4 => Some(RecordFormat::Depths),
        _ => None,
    }
}

// The format of records that a first line says.
fn format_in(value: &Json) -> Option<RecordFormat>
    ensures { option_map format_view result ≡ format_in (view value.now) }
{
    format_of(number_in(value, "format")?)
}

// The depth of this number, where a bench may be so deep.
fn depth_of(number: usize) -> Option<Depth>
    ensures { result ≡ given_if (nat_le 1 number && nat_le number most_past) number }
{
    let number = u16::try_from(number).ok()?;
    Depth::new(number)
}

// The depth that a first line of the format says, where a bench may be so deep: the greatest in a format that does not tell
// of it.
fn depth_in(value: &Json, format: RecordFormat) -> Option<Depth>
    ensures { result ≡ depth_within (format_view format) (view value.now) }
{
    match format {
        RecordFormat::Records | RecordFormat::Parts => Some(Depth::greatest()),
        RecordFormat::Depths => depth_of(number_in(value, "depth")?),
    }
}

/// The format, the depth and the counts that the value of a first line says, where it is written so: no more commands in all
/// than the depth, which is 1,000 in formats that do not tell of it.
pub fn record_counts(alloc: Global, value: &Json) -> Result<Option<RecordCounts>, AllocError>
    ensures is { IfOk result (λ o. option_map counts_view o ≡ counts_in (view value.now)) }
    ensures few { IfOk result (λ o. IfSome o (λ c. c.past + c.future ≤ c.depth)) }
{
    let Some(format) = format_in(value) else {
        return Ok(None);
    };
    let Some(depth) = depth_in(value, format) else {
        return Ok(None);
    };
    let Some(past) = number_in(value, "past") else {
        return Ok(None);
    };
    let Some(future) = number_in(value, "future") else {
        return Ok(None);
    };
    if past + future > depth.number() {
        return Ok(None);
    }
    let written = record_head(alloc, format, &depth, past, future)?;
    if is_written_as(alloc, value, &written)? {
        Ok(Some(RecordCounts {
            format,
            depth,
            past,
            future,
        }))
    } else {
        Ok(None)
    }
}

/// What the value of a first line says, none where it is written as that of no format.
pub fn file_head(alloc: Global, value: &Json) -> Result<Option<FileHead>, AllocError>
    ensures is { IfOk result (λ o. option_map head_view o ≡ file_head (view value.now)) }
    ensures few { IfOk result (λ o. IfSome o IsFew) }
{
    if let Some(place) = state_place(alloc, value)? {
        return Ok(Some(FileHead::States(place)));
    }
    match record_counts(alloc, value)? {
        Some(counts) => Ok(Some(FileHead::Records(counts))),
        None => Ok(None),
    }
}
