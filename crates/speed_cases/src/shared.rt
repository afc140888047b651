//! What several measurements begin with.

ghost use Rattle.std.specs.Prelude.{◌≡◌, ◌<◌, IfOk};
ghost use Rattle.ps_bucket_log.specs.Ops.{id_of};

use ps_bucket_log::{Key, Op};
use ps_checksum::Sum;
use ps_data::{Memory, OpId, Text};
use ps_definitions::Rules;
use ps_rules::read_rules;
use ps_sql_eval::Asker;
use std::alloc::Global;

/// A text of some fifty bytes.
pub(crate) const TITLE: &str = "a title of some fifty bytes, as a task may have one";

/// The rules of the to-do example.
pub(crate) const TO_DO: &str =
    "bucket_definitions:\n  user_lists:\n    parameters: SELECT request.user_id() AS user_id\n    data:\n      - SELECT * FROM lists WHERE owner_id = bucket.user_id\n  list_todos:\n    parameters: SELECT id AS list_id FROM lists WHERE owner_id = request.user_id()\n    data:\n      - SELECT id, list_id, upper(title) AS title, done FROM todos\n        WHERE list_id = bucket.list_id\n  global:\n    data:\n      - SELECT id, name FROM settings AS options\n";

// Adds a part so many times.
fn push_all(text: &mut String, part: &str, count: u32) -> Result<(), Memory> {
    'parts: for _ in 0..count {
        text.push_str(part)?;
    }
    Ok(())
}

/// A query whose condition has so many of two parts around it.
pub(crate) fn nested(
    alloc: Global,
    front: &str,
    inner: &str,
    around: (&str, &str),
    count: u32,
) -> Result<Text, Memory> {
    let mut query = String::from_str(alloc, front)?;
    push_all(&mut query, around.0, count)?;
    query.push_str(inner)?;
    push_all(&mut query, around.1, count)?;
    Ok(Text::from_string(query))
}

/// The rules of a text, if it is such a text and there is memory.
pub(crate) fn rules_of(alloc: Global, text: &str) -> Option<Rules> {
    if 4294967295 <= text.len() {
        return None;
    }
    read_rules(alloc, text.as_bytes()).ok()
}

/// An asker without claims.
pub(crate) fn asker(alloc: Global, user: Text) -> Result<Asker, Memory> {
    Ok(Asker {
        user,
        payload: Text::from_str(alloc, "{}")?,
        parameters: Text::from_str(alloc, "{}")?,
        client: None,
    })
}

/// A PUT of a row of about 100 bytes.
pub(crate) fn put(alloc: Global, id: u64, row: u64) -> Result<Op, Memory>
    ensures { IfOk result (λ op. id_of op ≡ id) }
{
    let content = format!(in alloc;
        "{{\"id\":\"r{row}\",\"owner\":\"ann\",\"title\":\"{TITLE}\"}}"
    )?;
    let name = format!(in alloc; "r{row}")?;
    let subkey = format!(in alloc; "1/items/r{row}")?;
    Ok(Op::Put {
        id: OpId(id),
        key: Key {
            kind: Text::from_str(alloc, "items")?,
            id: Text::from_string(name),
            subkey: Text::from_string(subkey),
        },
        content: Text::from_string(content),
        sum: Sum(4294967295),
    })
}
