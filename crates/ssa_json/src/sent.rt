//! JSON values as serde's data.
ghost use Rattle.std.specs.Prelude.{◌≡◌, OnOk, true};
ghost use Rattle.serde.specs.Event.{Logs, text as text_event};
ghost use Rattle.serde_json.specs.Events.{SendsValue, number_event};
ghost use Rattle.serde_json.specs.Data.{array, object};
ghost use Rattle.serde_json.specs.Find.{of_integer};
ghost use Rattle.ssa_json.specs.Sent.{Sends};
ghost use Rattle.ssa_json.specs.View.{view, scalar_view, items_view, members_view};
ghost use Rattle.ssa_json.specs.Writable.{has_rising_names, has_utf8, is_utf8_scalar, items_have_rising_names, items_have_utf8, members_have_utf8, members_rise};
ghost use Rattle.ssa_json.specs.Written.{data_of, scalar_data, items_data, members_data, is_narrow, is_narrow_scalar, is_narrow_whole, items_narrow, members_narrow};

use crate::value::{Json, Scalar};
use serde::{Described, Serialize, Serializer};
use ssa_members::Members;

impl Described for Json {
    ghost writes = { λ v. Sends (view v) };
}

impl Serialize for Json {
    fn serialize<S: Serializer>(&self, out: &mut S) -> Result<(), S::Error> {
        send(self, out)
    }
}

// Sends a whole number.
fn send_whole<S: Serializer>(number: i64, out: &mut S) -> Result<(), S::Error>
    ensures sends { OnOk result (Logs (S.written out.old) (S.written out.new) (number_event (of_integer number))) }
    ensures narrow { is_narrow_whole number ≡ true }
{
    if number >= 0 {
        out.u64(number as u64)
    } else {
        out.i64(number)
    }
}

// Sends a scalar.
fn send_scalar<S: Serializer>(scalar: &Scalar, out: &mut S) -> Result<(), S::Error>
    ensures sends { OnOk result (SendsValue (scalar_data (scalar_view scalar.now)) (S.written out.old) (S.written out.new)) }
    ensures narrow { OnOk result (is_narrow_scalar (scalar_view scalar.now) ≡ true) }
    ensures texts { OnOk result (is_utf8_scalar (scalar_view scalar.now) ≡ true) }
{
    match scalar {
        Scalar::Text(string) => out.str(string.as_str()),
        Scalar::Int(number) => send_whole(*number, out),
        Scalar::Bool(truth) => out.bool(*truth),
    }
}

// Sends a value.
#[cycle(send)]
fn send<S: Serializer>(value: &Json, out: &mut S) -> Result<(), S::Error>
    ensures sends { OnOk result (SendsValue (data_of (view value.now)) (S.written out.old) (S.written out.new)) }
    ensures narrow { OnOk result (is_narrow (view value.now) ≡ true) }
    ensures texts { OnOk result (has_utf8 (view value.now) ≡ true) }
    ensures names { OnOk result (has_rising_names (view value.now) ≡ true) }
{
    match value {
        Json::Scalar(scalar) => send_scalar(scalar, out),
        Json::List(items) => send_items(items, out),
        Json::Object(members) => send_members(members, out),
    }
}

// Sends the items of a list, between its marks.
#[cycle(send)]
fn send_items<S: Serializer>(items: &Vec<Json>, out: &mut S) -> Result<(), S::Error>
    ensures sends { OnOk result (SendsValue (array (items_data (items_view items.now.items))) (S.written out.old) (S.written out.new)) }
    ensures narrow { OnOk result (items_narrow (items_view items.now.items) ≡ true) }
    ensures texts { OnOk result (items_have_utf8 (items_view items.now.items) ≡ true) }
    ensures names { OnOk result (items_have_rising_names (items_view items.now.items) ≡ true) }
{
    out.begin_seq(Some(items.len()))?;
    for item in items {
        send(item, out)?;
    }
    out.end_seq()
}

// Sends the members of an object, between its marks.
#[cycle(send)]
fn send_members<S: Serializer>(members: &Members<Json>, out: &mut S) -> Result<(), S::Error>
    ensures sends { OnOk result (SendsValue (object (members_data (members_view members.now.entries))) (S.written out.old) (S.written out.new)) }
    ensures narrow { OnOk result (members_narrow (members_view members.now.entries) ≡ true) }
    ensures texts { OnOk result (members_have_utf8 (members_view members.now.entries) ≡ true) }
    ensures names { OnOk result (members_rise (members_view members.now.entries) ≡ true) }
{
    out.begin_map(Some(members.len()))?;
    for (key, member) in members.entries() {
        out.key(key.as_str())?;
        send(member, out)?;
    }
    out.end_map()
}
