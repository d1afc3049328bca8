ghost use Rattle.std.specs.Prelude.{◌≡◌, ◌↔◌, ◌++◌, [], ◌∷◌, IsTrue, OnOk, codes, encode_utf8};
ghost use Rattle.odd_tree.specs.Markup.{escaped_value, escaped_value_char, escaped_text, escaped_text_char};

use odd_text::{NoMemory, Text};

/// Puts the XML declaration, on a line of its own.
pub fn add_declaration(out: &mut Text) -> Result<(), NoMemory>
    ensures ok { OnOk result (out.new ≡ out.old ++ codes "<?xml version=\"1.0\" encoding=\"UTF-8\"?>\n") }
{
    out.push_str("<?xml version=\"1.0\" encoding=\"UTF-8\"?>\n")
}

/// Begins a start tag or an empty tag.
pub fn begin_tag(out: &mut Text, name: &str) -> Result<(), NoMemory>
    ensures ok { OnOk result (out.new ≡ out.old ++ (codes "<" ++ name.now)) }
{
    out.push_str("<")?;
    out.push_str(name)
}

/// Puts an attribute into the tag that was begun, with its value escaped.
pub fn add_attribute(out: &mut Text, name: &str, value: &str) -> Result<(), NoMemory>
    ensures ok { OnOk result (out.new ≡ out.old ++ (codes " " ++ name.now ++ codes "=\"" ++ escaped_value value.now ++ codes "\"")) }
{
    out.push_str(" ")?;
    out.push_str(name)?;
    out.push_str("=\"")?;
    add_escaped_value(out, value)?;
    out.push_str("\"")
}

/// Ends a start tag.
pub fn end_start_tag(out: &mut Text) -> Result<(), NoMemory>
    ensures ok { OnOk result (out.new ≡ out.old ++ codes ">\n") }
{
    out.push_str(">\n")
}

/// Ends an empty tag.
pub fn end_empty_tag(out: &mut Text) -> Result<(), NoMemory>
    ensures ok { OnOk result (out.new ≡ out.old ++ codes "/>\n") }
{
    out.push_str("/>\n")
}

/// Puts an end tag.
pub fn add_end_tag(out: &mut Text, name: &str) -> Result<(), NoMemory>
    ensures ok { OnOk result (out.new ≡ out.old ++ (codes "</" ++ name.now ++ codes ">\n")) }
{
    out.push_str("</")?;
    out.push_str(name)?;
    out.push_str(">\n")
}

/// Puts the value of an attribute, with a reference in place of each character that a parser would change or take for markup.
pub fn add_escaped_value(out: &mut Text, value: &str) -> Result<(), NoMemory>
    ensures ok { OnOk result (out.new ≡ out.old ++ escaped_value value.now) }
{
    if value.bytes().all(is_plain_in_value) {
        return out.push_str(value);
    }
    for c in value.chars() {
        add_value_character(out, c)?;
    }
    Ok(())
}

/// Puts the text of an element, with a reference in place of each character that a parser would change or take for markup.
pub fn add_escaped_text(out: &mut Text, text: &str) -> Result<(), NoMemory>
    ensures ok { OnOk result (out.new ≡ out.old ++ escaped_text text.now) }
{
    if text.bytes().all(is_plain_in_text) {
        return out.push_str(text);
    }
    for c in text.chars() {
        add_text_character(out, c)?;
    }
    Ok(())
}

// Whether a byte of a value is put as itself: a value of such bytes alone is put at once, which is faster. What has to be
// a reference is ASCII, and so one byte.
fn is_plain_in_value(byte: u8) -> bool
    ensures { IsTrue result ↔ (escaped_value_char byte ≡ byte ∷ []) }
{
    !matches!(byte, b'"' | b'\t' | b'\n') && is_plain_in_text(byte)
}

// The same for a byte of a text.
fn is_plain_in_text(byte: u8) -> bool
    ensures { IsTrue result ↔ (escaped_text_char byte ≡ byte ∷ []) }
{
    !matches!(byte, b'&' | b'<' | b'>' | b'\r')
}

// A quote would end the value, and a parser turns a tab or a line feed into a space.
fn add_value_character(out: &mut Text, c: char) -> Result<(), NoMemory>
    ensures ok { OnOk result (out.new ≡ out.old ++ escaped_value (encode_utf8 c)) }
{
    match c {
        '"' => out.push_str("&quot;"),
        '\t' => out.push_str("&#9;"),
        '\n' => out.push_str("&#10;"),
        _ => add_text_character(out, c),
    }
}

// A parser turns a carriage return into a line feed, and `>` is escaped for the sake of `]]>`.
fn add_text_character(out: &mut Text, c: char) -> Result<(), NoMemory>
    ensures ok { OnOk result (out.new ≡ out.old ++ escaped_text (encode_utf8 c)) }
{
    match c {
        '&' => out.push_str("&amp;"),
        '<' => out.push_str("&lt;"),
        '>' => out.push_str("&gt;"),
        '\r' => out.push_str("&#13;"),
        _ => out.push(c),
    }
}
