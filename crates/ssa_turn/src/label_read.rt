//! The command that a value says, as a bench file tells of each state but the first.
ghost use Rattle.std.specs.Prelude.{◌≡◌, ◌&&◌, IfOk, option_map, codes};
ghost use Rattle.ssa_model.specs.definitions.History.{applied, is_manager_name, updated};
ghost use Rattle.ssa_model.specs.definitions.BenchOfStates.{given_if, label_in};
ghost use Rattle.ssa_json.specs.Readings.{readings};
ghost use Rattle.ssa_json.specs.View.{view};
ghost use Rattle.ssa_turn.specs.Histories.{label_view};
ghost use Rattle.ssa_turn.specs.LabelReading.{MomentIn, said_actor, said_text, said_truth};
ghost use Rattle.ssa_path.specs.Subresources.{part_view};
ghost use Rattle.ssa_model.specs.definitions.Commands.{subresource_in};
ghost use Rattle.ssa_model.specs.definitions.Json.{member_at};

use crate::label::Label;
use ssa_json::moment::Moment;
use ssa_json::text::is_same_text;
use ssa_json::value::{Json, Scalar};
use ssa_merge::names::is_manager_name;
use ssa_path::part::Part;
use std::alloc::{AllocError, Global};

// The member's text, the empty one where it is no text.
fn text_in<'a>(value: &'a Json, name: &str) -> &'a str
    ensures { result.now ≡ said_text name.now (view value.now) }
{
    match value.member(name) {
        Some(found) => match found.as_text() {
            Some(text) => text,
            None => "",
        },
        None => "",
    }
}

// The member's truth value, false where it is none.
fn truth_in(value: &Json, name: &str) -> bool
    ensures { result ≡ said_truth name.now (view value.now) }
{
    match value.member(name) {
        Some(Json::Scalar(Scalar::Bool(truth))) => *truth,
        _ => false,
    }
}

// The member's moment, where it is one.
fn moment_in(value: &Json) -> Option<Moment>
    ensures { MomentIn result (said_text (codes "at") (view value.now)) }
{
    match Moment::read(text_in(value, "at")) {
        Ok(at) => Some(at),
        Err(_) => None,
    }
}

// The part of a value with a `subresource`, and of one without.
fn part_in(value: &Json) -> Part
    ensures { part_view result ≡ subresource_in (member_at (codes "subresource") (view value.now)) }
{
    match value.member("subresource") {
        Some(_) => Part::Status,
        None => Part::Main,
    }
}

// An Apply, where its name and its moment are ones.
fn applied_in(alloc: Global, value: &Json) -> Result<Option<Label>, AllocError>
    ensures { IfOk result (λ found. option_map label_view found ≡ given_if
        (is_manager_name (said_text (codes "manager") (view value.now)) && readings.moment (said_text (codes "at") (view value.now)))
        (applied (said_actor (view value.now)) (said_truth (codes "force") (view value.now)) (said_text (codes "at") (view value.now)))) }
{
    let who = text_in(value, "manager");
    if !is_manager_name(who) {
        return Ok(None);
    }
    let Some(at) = moment_in(value) else {
        return Ok(None);
    };
    let force = truth_in(value, "force");
    let who = String::from_str(alloc, who)?;
    let part = part_in(value);
    Ok(Some(Label::Apply {
        at,
        force,
        who,
        part,
    }))
}

// An Update, likewise.
fn updated_in(alloc: Global, value: &Json) -> Result<Option<Label>, AllocError>
    ensures { IfOk result (λ found. option_map label_view found ≡ given_if
        (is_manager_name (said_text (codes "manager") (view value.now)) && readings.moment (said_text (codes "at") (view value.now)))
        (updated (said_actor (view value.now)) (said_text (codes "at") (view value.now)))) }
{
    let who = text_in(value, "manager");
    if !is_manager_name(who) {
        return Ok(None);
    }
    let Some(at) = moment_in(value) else {
        return Ok(None);
    };
    let who = String::from_str(alloc, who)?;
    let part = part_in(value);
    Ok(Some(Label::Update { at, who, part }))
}

impl Label {
    /// The label that a value says by its members, none where its manager's name or its moment isn't one.
    ///
    /// A word other than `apply` and `update` is taken as `strip`, and members that the command hasn't
    /// are not looked at: whether the value is the label's own is seen by `to_json`.
    pub fn from_json(alloc: Global, value: &Json) -> Result<Option<Label>, AllocError>
        ensures { IfOk result (λ found. option_map label_view found ≡ label_in readings (view value.now)) }
    {
        let word = text_in(value, "do");
        if is_same_text(word, "apply") {
            return applied_in(alloc, value);
        }
        if is_same_text(word, "update") {
            return updated_in(alloc, value);
        }
        Ok(Some(Label::Strip))
    }
}
