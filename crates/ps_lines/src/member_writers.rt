//! Members of JSON objects, written straight behind what a writer holds.

ghost use Rattle.std.specs.Prelude.{◌<◌, ◌^◌, ◌∷◌, [], OnOk};
ghost use Rattle.json.specs.Token.{begin_object, key as key_token};
ghost use Rattle.serde_json.specs.Data.{number, string, boolean, unsigned};
ghost use Rattle.ps_lines.specs.Tokens.{member_tokens, members_tokens, Adds};
ghost use Rattle.ps_lines.specs.Writing.{decimal_json, upload_member, list_json};

use json::Writer;
use ps_checksum::Sum;
use ps_data::{Memory, Text};

// Begins an object with a member whose value is still to be written.
pub fn begin_member(writer: &mut Writer, name: &str) -> Result<(), Memory>
    ensures { OnOk result (Adds writer.old writer.new (begin_object ∷ key_token name.now ∷ [])) }
{
    writer.begin_object()?;
    writer.key(name)?;
    Ok(())
}

pub fn write_text(writer: &mut Writer, name: &str, text: &Text) -> Result<(), Memory>
    ensures { OnOk result (Adds writer.old writer.new (member_tokens (name.now, string text.now))) }
{
    write_word(writer, name, text.as_str())
}

pub fn write_word(writer: &mut Writer, name: &str, word: &str) -> Result<(), Memory>
    ensures { OnOk result (Adds writer.old writer.new (member_tokens (name.now, string word.now))) }
{
    writer.key(name)?;
    writer.string(word)?;
    Ok(())
}

pub fn write_number(writer: &mut Writer, name: &str, n: u64) -> Result<(), Memory>
    ensures value { OnOk result (Adds writer.old writer.new (member_tokens (name.now, number (unsigned n)))) }
    ensures fits { n < 2 ^ 64 }
{
    writer.key(name)?;
    writer.u64(n)?;
    Ok(())
}

// A sum as a number, which has 32 bits.
pub fn write_sum(writer: &mut Writer, name: &str, sum: Sum) -> Result<(), Memory>
    ensures value { OnOk result (Adds writer.old writer.new (member_tokens (name.now, number (unsigned sum.0)))) }
    ensures fits { sum.0 < 2 ^ 32 }
{
    write_number(writer, name, u64::from(sum.0))
}

pub fn write_priority(writer: &mut Writer, name: &str, priority: u8) -> Result<(), Memory>
    ensures { OnOk result (Adds writer.old writer.new (member_tokens (name.now, number (unsigned priority)))) }
{
    write_number(writer, name, u64::from(priority))
}

// A number as its decimal text.
pub fn write_decimal(writer: &mut Writer, name: &str, n: u64) -> Result<(), Memory>
    ensures { OnOk result (Adds writer.old writer.new (member_tokens (name.now, decimal_json n))) }
{
    writer.key(name)?;
    writer.quoted_u64(n)?;
    Ok(())
}

pub fn write_flag(writer: &mut Writer, name: &str, flag: bool) -> Result<(), Memory>
    ensures { OnOk result (Adds writer.old writer.new (member_tokens (name.now, boolean flag))) }
{
    writer.key(name)?;
    writer.boolean(flag)?;
    Ok(())
}

// The client's newest upload, left out where there is none.
pub fn write_upload(writer: &mut Writer, number: Option<u64>) -> Result<(), Memory>
    ensures { OnOk result (Adds writer.old writer.new (members_tokens (upload_member number))) }
{
    match number {
        None => Ok(()),
        Some(number) => write_decimal(writer, "write_checkpoint", number),
    }
}

pub fn write_texts(writer: &mut Writer, name: &str, texts: &[Text]) -> Result<(), Memory>
    ensures { OnOk result (Adds writer.old writer.new (member_tokens (name.now, list_json string texts.now))) }
{
    writer.key(name)?;
    writer.begin_array()?;
    'texts: for text in texts {
        writer.string(text.as_str())?;
    }
    writer.end_array()?;
    Ok(())
}
