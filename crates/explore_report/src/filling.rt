//! `filled`: a line in one round of a `#repeat`, with the number of the round in place of each `$`. `line.rt` asks for it.
ghost use Rattle.std.specs.Prelude.{◌≡◌, ◌++◌, IfOk, OnOk};
ghost use Rattle.explore_report.specs.declared.filling.Held.TheVariants.{Round};
ghost use Rattle.explore_report.specs.Filling.{byte_text, continued, filled, grown, held_after, held_anew, held_text, text_at_byte};

use crate::cause::GROWING;
use std::alloc::{AllocError, Global};
use text_core::{Part, push_parts};

/// The front of a note on the round that is read, and not yet written.
#[derive(Clone, Copy)]
pub(crate) enum Held {
    Nothing,
    /// `$`, the round.
    Round,
    /// `$$`, a `$` for the `#repeat` inside.
    Dollar,
    /// `$+`, with no digit yet.
    Plus,
    /// `$+K`, the sum of the round and K.
    Sum(u32),
}

/// A line in that round.
pub(crate) fn filled(alloc: Global, round: u32, line: &[u8]) -> Result<Vec<u8>, AllocError>
    ensures text { IfOk result (λ text. text.items ≡ filled round line.now) }
{
    let mut text = Vec::new(alloc);
    let mut held = Held::Nothing;
    for byte in line {
        push_byte(round, &held, *byte, &mut text)?;
        held = held.after(*byte);
    }
    push_held(round, &held, &mut text)?;
    Ok(text)
}

fn push_byte(round: u32, held: &Held, byte: u8, text: &mut Vec<u8>) -> Result<(), AllocError>
    ensures pushed { OnOk result (text.new.items ≡ text.old.items ++ text_at_byte round held.now byte) }
{
    if held.continued(byte).is_some() {
        return Ok(());
    }
    push_held(round, held, text)?;
    push_plain(byte, text)?;
    Ok(())
}

/// A byte that continues nothing is text, but for a `$`.
fn push_plain(byte: u8, text: &mut Vec<u8>) -> Result<(), AllocError>
    ensures pushed { OnOk result (text.new.items ≡ text.old.items ++ byte_text byte) }
{
    if byte != b'$' {
        text.push(byte)?;
    }
    Ok(())
}

fn push_held(round: u32, held: &Held, text: &mut Vec<u8>) -> Result<(), AllocError>
    ensures pushed { OnOk result (text.new.items ≡ text.old.items ++ held_text round held.now) }
{
    match held {
        Held::Nothing => Ok(()),
        Held::Round => push_parts(text, &[Part::Number(u64::from(round))]),
        Held::Dollar => push_parts(text, &[Part::Text("$")]),
        Held::Plus => push_parts(text, &[Part::Number(u64::from(round)), Part::Text("+")]),
        Held::Sum(more) => push_parts(text, &[Part::Number(u64::from(round) + u64::from(*more))]),
    }
}

impl Held {
    /// What is held after another byte.
    fn after(&self, byte: u8) -> Held
        ensures { result ≡ held_after self.now byte }
    {
        match self.continued(byte) {
            Some(held) => held,
            None => held_anew(byte),
        }
    }

    /// What is held with the byte, if the byte continues the held text.
    fn continued(&self, byte: u8) -> Option<Held>
        ensures { result ≡ continued self.now byte }
    {
        match self {
            Held::Nothing | Held::Dollar => None,
            Held::Round => continued_round(byte),
            Held::Plus => Some(Held::Sum(grown(0, byte)?)),
            Held::Sum(more) => Some(Held::Sum(grown(*more, byte)?)),
        }
    }
}

fn continued_round(byte: u8) -> Option<Held>
    ensures { result ≡ continued Round byte }
{
    match byte {
        b'$' => Some(Held::Dollar),
        b'+' => Some(Held::Plus),
        _ => None,
    }
}

/// What a byte that continues nothing begins.
fn held_anew(byte: u8) -> Held
    ensures { result ≡ held_anew byte }
{
    if byte == b'$' {
        Held::Round
    } else {
        Held::Nothing
    }
}

/// The number with the byte as one more digit, if the byte is a digit and the number isn't too great.
pub(crate) fn grown(number: u32, byte: u8) -> Option<u32>
    ensures { result ≡ grown number byte }
{
    if byte.is_ascii_digit() && number < GROWING {
        Some(number * 10 + u32::from(byte - b'0'))
    } else {
        None
    }
}
