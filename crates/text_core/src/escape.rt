//! Escapes for texts that others chose, so that they can neither end a text nor reach a terminal. Each is a function of one
//! byte (`specs/Escape.antt`). `Part` calls these.
ghost use Rattle.std.specs.Prelude.{◌≡◌, ◌+◌, ◌<◌, ◌≤◌, ◌++◌, OnOk, IsTrue, map};
ghost use Rattle.std.specs.List.{flat_map};
ghost use Rattle.text_core.specs.Escape.{hex_digit, inert, inert_byte, is_literal, is_marked, is_plain, literal, literal_byte};
ghost use Rattle.text_core.specs.Escape.{noted, prints};

use std::alloc::AllocError;

/// Adds a text so that it is inert in an element or an attribute of SVG and in a quoted string of DOT: the bytes that would
/// end the text are written as character references, as `&#60;`, and the backslash and each byte that doesn't print as in a
/// Rust literal, as `\x07`, with a reference for the backslash.
pub(crate) fn push_inert(out: &mut Vec<u8>, text: &[u8]) -> Result<(), AllocError>
    ensures added { OnOk result (out.new.items ≡ out.old.items ++ inert text.now) }
{
    for byte in text {
        push_inert_byte(out, *byte)?;
    }
    Ok(())
}

/// Adds one byte of such a text.
pub fn push_inert_byte(out: &mut Vec<u8>, byte: u8) -> Result<(), AllocError>
    ensures added { OnOk result (out.new.items ≡ out.old.items ++ inert_byte byte) }
{
    if is_plain(byte) {
        out.push(byte)?;
    } else if is_marked(byte) {
        let reference = [b'&', b'#', b'0' + byte / 10, b'0' + byte % 10, b';'];
        out.extend_from_slice(&reference)?;
    } else {
        let hex = [
            b'&',
            b'#',
            b'9',
            b'2',
            b';',
            b'x',
            hex_digit(byte / 16),
            hex_digit(byte % 16),
        ];
        out.extend_from_slice(&hex)?;
    }
    Ok(())
}

/// Adds a text with `\xNN` for each byte that doesn't print, and for the backslash.
pub(crate) fn push_literal(out: &mut Vec<u8>, text: &[u8]) -> Result<(), AllocError>
    ensures added { OnOk result (out.new.items ≡ out.old.items ++ literal text.now) }
{
    for byte in text {
        push_literal_byte(out, *byte)?;
    }
    Ok(())
}

fn push_literal_byte(out: &mut Vec<u8>, byte: u8) -> Result<(), AllocError>
    ensures added { OnOk result (out.new.items ≡ out.old.items ++ literal_byte byte) }
{
    if is_literal(byte) {
        out.push(byte)?;
    } else {
        let hex = [b'\\', b'x', hex_digit(byte / 16), hex_digit(byte % 16)];
        out.extend_from_slice(&hex)?;
    }
    Ok(())
}

/// Adds a text with `?` for each byte that doesn't print.
pub(crate) fn push_noted(out: &mut Vec<u8>, text: &[u8]) -> Result<(), AllocError>
    ensures added { OnOk result (out.new.items ≡ out.old.items ++ map noted text.now) }
{
    for byte in text {
        out.push(noted(*byte))?;
    }
    Ok(())
}

fn noted(byte: u8) -> u8
    ensures { result ≡ noted byte }
{
    if prints(byte) { byte } else { b'?' }
}

/// Whether the byte is a printable character of ASCII.
fn prints(byte: u8) -> bool
    ensures { result ≡ prints byte }
{
    (32..127).contains(&byte)
}

/// Whether the byte is written unchanged in a text with `\xNN`.
fn is_literal(byte: u8) -> bool
    ensures { result ≡ is_literal byte }
{
    prints(byte) && byte != b'\\'
}

/// Whether the byte is written unchanged in an inert text.
fn is_plain(byte: u8) -> bool
    ensures { result ≡ is_plain byte }
{
    is_literal(byte) && !is_marked(byte)
}

/// Whether the byte would end a text or start markup.
fn is_marked(byte: u8) -> bool
    ensures marked { result ≡ is_marked byte }
    ensures two { IsTrue result → byte < 100 }
{
    matches!(byte, b'"' | b'&' | b'\'' | b'<' | b'>')
}

fn hex_digit(digit: u8) -> u8
    requires { digit < 16 }
    ensures { result ≡ hex_digit digit }
{
    if digit < 10 {
        b'0' + digit
    } else {
        b'a' + (digit - 10)
    }
}
