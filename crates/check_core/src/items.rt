//! The items of a TAP test as the lines that a check without `--tap` writes, for those who see only standard error, as the log of
//! a build system.
ghost use Rattle.std.specs.Prelude.{◌≡◌, ◌⊎◌, IfErr};
ghost use Rattle.point_core.specs.declared.refusal.Refusal.TheVariants.{Write as WriteFault, Memory};

use crate::reporting::SLIP;
use line_core::{first_line, strip_prefix};
use point_core::Refusal;
use report_core::write_whole;
use std::alloc::{AllocError, Global};
use std::io::Write;

/// Writes a line for each item of a script's test, all by one write.
pub(crate) fn report_items<W: Write>(
    alloc: Global,
    name: &str,
    items: &[u8],
    errors: &mut W,
) -> Result<(), Refusal>
    ensures refusals { IfErr result (λ refusal. (refusal ≡ WriteFault) ⊎ (refusal ≡ Memory)) }
{
    let mut text = Vec::new(alloc);
    push_lines(name, items, &mut text)?;
    write_whole(errors, text.as_slice())
}

fn push_lines(name: &str, items: &[u8], text: &mut Vec<u8>) -> Result<(), AllocError> {
    let mut rest = items;
    for _ in 0..items.len() {
        let Some((line, more)) = first_line(rest) else {
            break;
        };
        push_member(name, line, text)?;
        rest = more;
    }
    Ok(())
}

/// A member of an item is a part of its line. The first begins the line, and the last ends it.
fn push_member(name: &str, member: &[u8], text: &mut Vec<u8>) -> Result<(), AllocError> {
    if let Some(number) = strip_prefix(member, b"    - line: ") {
        return push_all(&[name.as_bytes(), b":", shown_number(number), b": "], text);
    }
    if let Some(command) = strip_prefix(member, b"      command: ") {
        return push_all(&[shown_command(unquoted(command)), b": "], text);
    }
    if let Some(line) = strip_prefix(member, b"      expected: ") {
        return push_all(&[b"expected ", shown(line, b"nothing more"), b", "], text);
    }
    if let Some(line) = strip_prefix(member, b"      came: ") {
        return push_all(&[b"came ", shown(line, b"nothing"), b"\n"], text);
    }
    match strip_prefix(member, b"      slip: ") {
        Some(note) => push_all(&[unquoted(note), SLIP.as_bytes(), b"\n"], text),
        None => Ok(()),
    }
}

fn push_all(parts: &[&[u8]], text: &mut Vec<u8>) -> Result<(), AllocError> {
    for part in parts {
        text.extend_from_slice(part)?;
    }
    Ok(())
}

/// A difference before the first command is reported at line 1.
fn shown_number(number: &[u8]) -> &[u8] {
    if number == b"0".as_slice() {
        b"1"
    } else {
        number
    }
}

fn shown_command(command: &[u8]) -> &[u8] {
    if command.is_empty() {
        b"before the first command"
    } else {
        command
    }
}

fn shown<'a>(line: &'a [u8], nothing: &'static [u8]) -> &'a [u8] {
    if line == b"null".as_slice() {
        nothing
    } else {
        line
    }
}

fn unquoted(text: &[u8]) -> &[u8] {
    match text {
        [b'"', inner @ .., b'"'] => inner,
        _ => text,
    }
}
