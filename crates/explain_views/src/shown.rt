//! Texts of the input in a drawing: what stands between the tags of XML.
ghost use Rattle.std.specs.Prelude.{◌≡◌, ◌++◌, flat_map};
ghost use Rattle.std.specs.Str.{is_utf8};
ghost use Rattle.explain_views.specs.Shown as model;

use growing_text::Text;

/// Writes a byte of a text: what would begin a tag or an entity by its name, and a blank for what no such text may have.
#[tactic(auto, unfolding(crate::specs::Shown::shown_byte))]
fn put_byte(text: &mut Text, byte: u8)
    ensures { text.new ≡ text.old ++ model.shown_byte byte }
{
    match byte {
        b'&' => text.say("&amp;"),
        b'<' => text.say("&lt;"),
        b'>' => text.say("&gt;"),
        b'"' => text.say("&quot;"),
        0..=31 => text.say(" "),
        _ => text.bytes([byte].as_slice()),
    }
}

/// Writes a byte, and a question mark for what is not ASCII.
#[tactic(auto, unfolding(crate::specs::Shown::plain_byte))]
fn put_plain_byte(text: &mut Text, byte: u8)
    ensures { text.new ≡ text.old ++ model.plain_byte byte }
{
    if byte < 128 {
        put_byte(text, byte);
    } else {
        text.say("?");
    }
}

/// Writes all bytes of a text.
fn put_all(text: &mut Text, bytes: &[u8])
    ensures { text.new ≡ text.old ++ flat_map model.shown_byte bytes.now }
{
    for byte in bytes {
        put_byte(text, *byte);
    }
}

/// Writes the ASCII of a text.
fn put_all_plain(text: &mut Text, bytes: &[u8])
    ensures { text.new ≡ text.old ++ flat_map model.plain_byte bytes.now }
{
    for byte in bytes {
        put_plain_byte(text, *byte);
    }
}

/// Whether bytes are a text in UTF-8.
fn is_text(bytes: &[u8]) -> bool
    ensures { result ≡ is_utf8 bytes.now }
{
    match str::from_utf8(bytes) {
        Ok(_) => true,
        Err(_) => false,
    }
}

/// Writes a text of the input so that no byte of it begins a tag; one that is no text in UTF-8 keeps its ASCII alone.
#[tactic(auto, unfolding(crate::specs::Shown::shown_text))]
pub fn put_shown(text: &mut Text, bytes: &[u8])
    ensures { text.new ≡ text.old ++ model.shown_text bytes.now }
{
    if is_text(bytes) {
        put_all(text, bytes);
    } else {
        put_all_plain(text, bytes);
    }
}
