//! The turns of a plan: the lines of its script, where those of a `#repeat` come once in each round. `PlanScript::read` asks for them.
//!
//! A `#repeat` that can't be made stays among the turns, and `mark_of` refuses it.
ghost use Rattle.std.specs.Prelude.{◌≡◌, ◌+◌, ◌++◌, IfOk, OnOk, drop, map, take};
ghost use Rattle.explore_report.specs.Rounds.{allowed, number_from, number_said, rounds_said};
ghost use Rattle.explore_report.specs.Lines.{texts_of};
ghost use Rattle.explore_report.specs.Turns.{begins_block, block_at, block_of, end_from, ends_block, in_block, in_round, made_at, made_once, numbered, open_below, room_below, rounds_made, rounds_of, turns_of, word_of};

use crate::cause::{PLAN_ROUNDS, REPEATED_LINES};
use crate::context::one_more;
use crate::filling::grown;
use crate::mark::{ATOMIC, END, IF, REPEAT};
use crate::sections::text_at;
use crate::turn::Turn;
use crate::words::{first_word, words_after};
use line_core::without_spaces;
use std::alloc::{AllocError, Global};

/// The lines between a `#repeat` and its `#end`.
#[derive(Clone, Copy)]
pub(crate) struct Block {
    pub rounds: u32,
    /// How many turns are in it.
    pub length: usize,
    /// How many turns its rounds are together.
    pub made: usize,
}

/// The turns of a plan whose script has these lines. A `#repeat` may be in one other, so they are unrolled twice.
pub(crate) fn turns_of(alloc: Global, lines: &[&[u8]]) -> Result<Vec<Turn>, AllocError>
    ensures turns { IfOk result (λ turns. turns.items ≡ turns_of (texts_of lines.now)) }
{
    let read = numbered(alloc, lines.len())?;
    let outer = made_once(alloc, lines, read.as_slice())?;
    let turns = made_once(alloc, lines, outer.as_slice())?;
    Ok(turns)
}

/// The first lines of a script, in no `#repeat`.
fn numbered(alloc: Global, count: usize) -> Result<Vec<Turn>, AllocError>
    ensures turns { IfOk result (λ turns. turns.items ≡ numbered count) }
{
    let mut turns = Vec::new(alloc);
    for above in 0..count {
        turns.push(Turn {
            number: above + 1,
            outer: 0,
            inner: 0,
        })?;
    }
    Ok(turns)
}

/// The turns with each outermost `#repeat` made.
fn made_once(alloc: Global, lines: &[&[u8]], turns: &[Turn]) -> Result<Vec<Turn>, AllocError>
    ensures turns { IfOk result (λ made. made.items ≡ made_once (texts_of lines.now) turns.now) }
{
    let mut made = Vec::new(alloc);
    let mut room = REPEATED_LINES;
    let mut rest = turns;
    while let Some((turn, below)) = rest.split_first() {
        let block = block_at(lines, room, turn, below);
        push_made(&block, turn, below, &mut made)?;
        room = room_below(room, &block);
        rest = below_block(&block, below);
    }
    Ok(made)
}

/// Appends the turns that a turn makes: itself, or the rounds of its block.
fn push_made(
    block: &Option<Block>,
    turn: &Turn,
    below: &[Turn],
    made: &mut Vec<Turn>,
) -> Result<(), AllocError>
    ensures pushed { OnOk result (made.new.items ≡ made.old.items ++ made_at block.now turn.now below.now) }
{
    match block {
        None => made.push(*turn)?,
        Some(block) => push_rounds(block.rounds, first(below, block.length), made)?,
    }
    Ok(())
}

fn push_rounds(rounds: u32, body: &[Turn], made: &mut Vec<Turn>) -> Result<(), AllocError>
    ensures pushed { OnOk result (made.new.items ≡ made.old.items ++ rounds_made body.now rounds) }
{
    for done in 0..rounds {
        push_round(done + 1, body, made)?;
    }
    Ok(())
}

fn push_round(round: u32, body: &[Turn], made: &mut Vec<Turn>) -> Result<(), AllocError>
    ensures pushed { OnOk result (made.new.items ≡ made.old.items ++ map (in_round round) body.now) }
{
    for turn in body {
        made.push(turn.in_round(round))?;
    }
    Ok(())
}

/// How many more turns can be made below a turn.
fn room_below(room: usize, block: &Option<Block>) -> usize
    ensures { result ≡ room_below room block.now }
{
    match block {
        None => room,
        Some(block) => room.saturating_sub(block.made),
    }
}

/// The turns that do not belong to the block.
fn below_block<'a>(block: &Option<Block>, below: &'a [Turn]) -> &'a [Turn]
    ensures rest { result.now ≡ drop (in_block block.now) below.now }
{
    match block {
        None => below,
        Some(block) => past(below, block.length),
    }
}

/// The turns below the turn at `place`.
fn past(turns: &[Turn], place: usize) -> &[Turn]
    ensures rest { result.now ≡ drop (place + 1) turns.now }
{
    if place < turns.len() {
        &turns[place + 1..]
    } else {
        &[]
    }
}

/// The first `count` turns, or all if there are fewer.
fn first(turns: &[Turn], count: usize) -> &[Turn]
    ensures first { result.now ≡ take count turns.now }
{
    turns.get(..count).unwrap_or(turns)
}

/// The block that a turn begins, if it is a `#repeat` with an `#end` among the turns below.
fn block_at(lines: &[&[u8]], room: usize, turn: &Turn, below: &[Turn]) -> Option<Block>
    ensures block { result ≡ block_at (texts_of lines.now) room turn.now below.now }
{
    let rounds = rounds_of(text_at(lines, turn.number))?;
    let length = end_of(lines, below)?;
    block_of(room, rounds, length)
}

/// The block, if it makes no more turns than there is room for.
fn block_of(room: usize, rounds: u32, length: usize) -> Option<Block>
    ensures block { result ≡ block_of room rounds length }
{
    let made = length.checked_mul(rounds as usize)?;
    if made <= room {
        Some(Block {
            rounds,
            length,
            made,
        })
    } else {
        None
    }
}

/// The place of the `#end` of a block that begins directly above the turns.
fn end_of(lines: &[&[u8]], turns: &[Turn]) -> Option<usize>
    ensures place { result ≡ end_from (texts_of lines.now) 0 0 turns.now }
{
    let mut depth: usize = 0;
    for (place, turn) in turns.iter().enumerate() {
        let line = text_at(lines, turn.number);
        if ends_block(line) && depth == 0 {
            return Some(place);
        }
        depth = open_below(line, depth);
    }
    None
}

/// How many blocks are open below a line.
fn open_below(line: &[u8], depth: usize) -> usize
    ensures { result ≡ open_below line.now depth }
{
    if ends_block(line) {
        return depth.saturating_sub(1);
    }
    if begins_block(line) {
        return one_more(depth);
    }
    depth
}

fn begins_block(line: &[u8]) -> bool
    ensures { result ≡ begins_block line.now }
{
    let word = word_of(line);
    word == IF || word == ATOMIC || word == REPEAT
}

fn ends_block(line: &[u8]) -> bool
    ensures { result ≡ ends_block line.now }
{
    word_of(line) == END
}

/// The word that a line begins with.
fn word_of(line: &[u8]) -> &[u8]
    ensures word { result.now ≡ word_of line.now }
{
    first_word(without_spaces(line))
}

/// The rounds of a line that is a `#repeat`.
fn rounds_of(line: &[u8]) -> Option<u32>
    ensures rounds { result ≡ rounds_of line.now }
{
    if word_of(line) == REPEAT {
        rounds_said(words_after(without_spaces(line)))
    } else {
        None
    }
}

/// The rounds that the words behind `#repeat` say.
pub(crate) fn rounds_said(words: &[u8]) -> Option<u32>
    ensures rounds { result ≡ rounds_said words.now }
{
    number_said(PLAN_ROUNDS, words)
}

/// The number that the words are, if they are one from 1 to that one.
pub(crate) fn number_said(most: u32, words: &[u8]) -> Option<u32>
    ensures number { result ≡ number_said most words.now }
{
    if words_after(words).is_empty() {
        allowed(most, number(first_word(words))?)
    } else {
        None
    }
}

fn allowed(most: u32, number: u32) -> Option<u32>
    ensures { result ≡ allowed most number }
{
    if 1 <= number && number <= most {
        Some(number)
    } else {
        None
    }
}

/// The number that digits spell.
fn number(digits: &[u8]) -> Option<u32>
    ensures number { result ≡ number_from 0 digits.now }
{
    let mut number: u32 = 0;
    for byte in digits {
        number = grown(number, *byte)?;
    }
    Some(number)
}
