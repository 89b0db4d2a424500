//! The command of a line. The command's word chooses a function, which reads the words after it as operands, and returns none
//! if a word is missing, too many or malformed. The table of commands has the same rows.
ghost use Rattle.std.specs.Prelude.{◌≡◌, None, Some, if◌then◌else◌, option_map};
ghost use Rattle.command_core.specs.declared.command.Command.{Command};
ghost use Rattle.line_core.specs.Following.{IsMadeOf, one_name, one_number, name_and_number, two_names_and_number};
ghost use Rattle.line_core.specs.Following.{three_names, two_names_number_and_usage, two_names_and_flags, name_and_usage};
ghost use Rattle.line_core.specs.Table.{command_from};
ghost use Rattle.line_core.specs.Words.{are_none, words_of};

use crate::number::number;
use crate::usages::{flags, usage};
use crate::words::{first_word, four, is, one, three, two};
use command_core::Command;
use point_core::Name;

/// The command of a line, given its first word and the bytes after it, if they fit a row of the table. The commands
/// that are most frequent in scripts are compared first.
pub(crate) fn command(word: &[u8], rest: &[u8]) -> Option<Command>
    ensures command { result ≡ command_from word.now (words_of rest.now) }
{
    match word {
        _ if is(word, "close") => named(rest, Command::Close),
        _ if is(word, "merge") => merge(rest),
        _ if is(word, "fence") => fence(rest),
        _ if is(word, "wait") => named(rest, Command::Wait),
        _ if is(word, "inc") => inc(rest),
        _ if is(word, "watch") => watch(rest),
        _ if is(word, "add") => add(rest),
        _ if is(word, "import") => import(rest),
        _ if is(word, "export") => export(rest),
        _ if is(word, "test") => test(rest),
        _ if is(word, "value") => named(rest, Command::Value),
        _ if is(word, "timeline") => named(rest, Command::Timeline),
        _ if is(word, "buffer") => named(rest, Command::Buffer),
        _ if is(word, "info") => named(rest, Command::Info),
        _ if is(word, "show") => named(rest, Command::Show),
        _ if is(word, "trim") => named(rest, Command::Trim),
        _ if is(word, "unwatch") => unwatch(rest),
        _ if is(word, "shut") => named(rest, Command::Shut),
        _ if is(word, "report") => report(rest),
        _ => None,
    }
}

/// The command that `make` makes of a name, if that is the only operand.
fn named<F: FnOnce(Name) -> Command>(rest: &[u8], make: F) -> Option<Command>
    requires callable { F.IsAlwaysCallable make }
    ensures made { IsMadeOf (F.post make) (one_name (words_of rest.now)) result }
{
    let name = Name::read(one(rest)?)?;
    Some(make(name))
}

fn inc(rest: &[u8]) -> Option<Command>
    ensures command { result ≡ option_map (λ w. Command.Inc w.0 w.1) (name_and_number (words_of rest.now)) }
{
    let (timeline, n) = two(rest)?;
    Some(Command::Inc(Name::read(timeline)?, number(n)?))
}

fn watch(rest: &[u8]) -> Option<Command>
    ensures command { result ≡ option_map (λ w. Command.Watch w.0 w.1) (name_and_number (words_of rest.now)) }
{
    let (file, cookie) = two(rest)?;
    Some(Command::Watch(Name::read(file)?, number(cookie)?))
}

fn unwatch(rest: &[u8]) -> Option<Command>
    ensures command { result ≡ option_map Command.Unwatch (one_number (words_of rest.now)) }
{
    let cookie = one(rest)?;
    Some(Command::Unwatch(number(cookie)?))
}

fn fence(rest: &[u8]) -> Option<Command>
    ensures command { result ≡ option_map (λ w. Command.Fence w.0 w.1 w.2) (two_names_and_number (words_of rest.now)) }
{
    let (file, timeline, point) = three(rest)?;
    Some(Command::Fence(Name::read(file)?, Name::read(timeline)?, number(point)?))
}

fn merge(rest: &[u8]) -> Option<Command>
    ensures command { result ≡ option_map (λ w. Command.Merge w.0 w.1 w.2) (three_names (words_of rest.now)) }
{
    let (file, first, second) = three(rest)?;
    Some(Command::Merge(Name::read(file)?, Name::read(first)?, Name::read(second)?))
}

fn add(rest: &[u8]) -> Option<Command>
    ensures command { result ≡ option_map (λ w. Command.Add w.0 w.1 w.2 w.3) (two_names_number_and_usage (words_of rest.now)) }
{
    let (buffer, timeline, point, usage_word) = four(rest)?;
    Some(Command::Add(
        Name::read(buffer)?,
        Name::read(timeline)?,
        number(point)?,
        usage(usage_word)?,
    ))
}

fn import(rest: &[u8]) -> Option<Command>
    ensures command { result ≡ option_map (λ w. Command.Import w.0 w.1 w.2) (two_names_and_flags (words_of rest.now)) }
{
    let (buffer, file, access) = three(rest)?;
    Some(Command::Import(Name::read(buffer)?, Name::read(file)?, flags(access)?))
}

fn export(rest: &[u8]) -> Option<Command>
    ensures command { result ≡ option_map (λ w. Command.Export w.0 w.1 w.2) (two_names_and_flags (words_of rest.now)) }
{
    let (file, buffer, access) = three(rest)?;
    Some(Command::Export(Name::read(file)?, Name::read(buffer)?, flags(access)?))
}

fn test(rest: &[u8]) -> Option<Command>
    ensures command { result ≡ option_map (λ w. Command.Test w.0 w.1) (name_and_usage (words_of rest.now)) }
{
    let (buffer, usage_word) = two(rest)?;
    Some(Command::Test(Name::read(buffer)?, usage(usage_word)?))
}

fn report(rest: &[u8]) -> Option<Command>
    ensures command { result ≡ if are_none (words_of rest.now) then Some Command.Report else None }
{
    first_word(rest).is_none().then_some(Command::Report)
}
