//! The shape of a request's body: which members may be there, and of which kind.

ghost use Rattle.std.specs.Prelude.{◌≡◌};
ghost use Rattle.serde_json.specs.View.{view, items_view};
ghost use Rattle.ps_lines.specs.Shapes.{all_items};
ghost use Rattle.ps_lines.specs.BodyShapes.{is_position as is_position_shape, may_have_positions as positions_may_be_there, may_have_object as object_may_be_there, may_have_truth as truth_may_be_there, may_have_true as true_may_be_there, is_body as is_body_shape};

use crate::shapes::{has_text, may_have_text};
use serde_json::Value as Json;

pub fn is_body(json: &Json) -> bool
    ensures { result ≡ is_body_shape (view json.now) }
{
    json.is_object()
        && may_have_positions(json, "buckets")
        && may_have_text(json, "client_id")
        && may_have_object(json, "parameters")
        && may_have_true(json, "raw_data")
        && may_have_truth(json, "include_checksum")
}

fn may_have_positions(json: &Json, name: &str) -> bool
    ensures { result ≡ positions_may_be_there name.now (view json.now) }
{
    let Some(json) = json.get(name) else {
        return true;
    };
    if json.is_null() {
        return true;
    }
    match json.as_array() {
        Some(list) => are_positions(list.as_slice()),
        None => false,
    }
}

fn are_positions(list: &[Json]) -> bool
    ensures { result ≡ all_items is_position_shape (items_view list.now) }
{
    'positions: for json in list {
        if !is_position(json) {
            return false;
        }
    }
    true
}

fn is_position(json: &Json) -> bool
    ensures { result ≡ is_position_shape (view json.now) }
{
    has_text(json, "after") && has_text(json, "name")
}

fn may_have_object(json: &Json, name: &str) -> bool
    ensures { result ≡ object_may_be_there name.now (view json.now) }
{
    match json.get(name) {
        None => true,
        Some(json) => json.is_null() || json.is_object(),
    }
}

fn may_have_truth(json: &Json, name: &str) -> bool
    ensures { result ≡ truth_may_be_there name.now (view json.now) }
{
    match json.get(name) {
        None => true,
        Some(json) => json.is_null() || json.is_boolean(),
    }
}

fn may_have_true(json: &Json, name: &str) -> bool
    ensures { result ≡ true_may_be_there name.now (view json.now) }
{
    match json.get(name) {
        None => true,
        Some(json) => json.is_null() || json.as_bool().unwrap_or(false),
    }
}
