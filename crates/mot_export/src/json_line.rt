//! Lines of JSON, each an object.
ghost use Rattle.std.specs.Prelude.{◌≡◌, ◌∷◌, ◌++◌, IfOk, IsUtf8, OnOk, [], flat_map};
ghost use Rattle.json.specs.Token.{string};
ghost use Rattle.mot_export.specs.Json.{json_line, maybe_count, member_tokens, members_of};
ghost use Rattle.mot_export.specs.Json.{value_token};

use json::Writer;
use std::alloc::AllocError;
use std::str::from_utf8;

/// What a member of an object is.
#[derive(Clone, Copy)]
pub enum JsonValue<'a> {
    /// A number.
    Count(u64),
    /// A text.
    Text(&'a str),
    /// True or false.
    Flag(bool),
    /// Nothing: `null`.
    Absent,
}

impl<'a> JsonValue<'a> {
    /// The number, if there is one.
    pub fn maybe(number: Option<u64>) -> JsonValue<'a>
        ensures { value_token result ≡ maybe_count number }
    {
        match number {
            Some(number) => JsonValue::Count(number),
            None => JsonValue::Absent,
        }
    }

    /// The text of these bytes.
    pub fn of_bytes(bytes: &'a [u8]) -> JsonValue<'a>
        requires { IsUtf8 bytes.now }
        ensures { value_token result ≡ string bytes.now }
    {
        match from_utf8(bytes) {
            Ok(text) => JsonValue::Text(text),
            Err(_) => JsonValue::Absent,
        }
    }
}

/// Adds a line to a text: an object with these members, in their order.
pub fn add_json_line(
    text: Vec<u8>,
    members: &[(&str, JsonValue<'_>)],
) -> Result<Vec<u8>, AllocError>
    ensures { IfOk result
        (λ added. added.items ≡ text.items ++ json_line (members_of members.now)) }
{
    let mut writer = Writer::new(text);
    writer.begin_object()?;
    add_members(&mut writer, members)?;
    writer.end_object()?;
    let mut added = writer.into_inner();
    added.push(b'\n')?;
    Ok(added)
}

/// Writes the members of an object.
fn add_members(writer: &mut Writer, members: &[(&str, JsonValue<'_>)]) -> Result<(), AllocError>
    ensures before { writer.new.before ≡ writer.old.before }
    ensures tokens { OnOk result (writer.new.tokens
        ≡ writer.old.tokens ++ flat_map member_tokens (members_of members.now)) }
{
    for (name, value) in members {
        writer.key(name)?;
        match *value {
            JsonValue::Count(number) => writer.u64(number)?,
            JsonValue::Text(text) => writer.string(text)?,
            JsonValue::Flag(flag) => writer.boolean(flag)?,
            JsonValue::Absent => writer.null()?,
        }
    }
    Ok(())
}
