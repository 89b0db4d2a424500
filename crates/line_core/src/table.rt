//! The table of commands: the word of each, and the operands that follow it in a line. `explain` names wrong words by
//! it, and `command.rt` is proved to agree with it.
ghost use Rattle.std.specs.Prelude.{◌≡◌, map, option_map};
ghost use Rattle.line_core.specs.Table.{form_at, forms, matches, form_of};

use crate::number::is_number;
use crate::usages::{is_flags, is_usage};
use point_core::Name;

/// A row of the table: a command's word, and the words that follow it, in order.
#[derive(Debug)]
pub struct CommandForm {
    pub word: &'static str,
    pub operands: &'static [Operand],
}

/// The kind of an operand, a word after the command's.
#[derive(Clone, Copy, Debug, PartialEq, Eq)]
pub enum Operand {
    Name,
    Number,
    Usage,
    Flags,
}

/// A row: `form!(word, operands..)`.
macro_rules! form {
    ($word:literal $(, $operand:ident)*) => {
        CommandForm {
            word: $word,
            operands: &[$(Operand::$operand),*],
        }
    };
}

static COMMANDS: &[CommandForm] = &[
    form!("timeline", Name),
    form!("inc", Name, Number),
    form!("value", Name),
    form!("shut", Name),
    form!("fence", Name, Name, Number),
    form!("merge", Name, Name, Name),
    form!("close", Name),
    form!("wait", Name),
    form!("info", Name),
    form!("buffer", Name),
    form!("add", Name, Name, Number, Usage),
    form!("import", Name, Name, Flags),
    form!("export", Name, Name, Flags),
    form!("test", Name, Usage),
    form!("trim", Name),
    form!("watch", Name, Number),
    form!("unwatch", Number),
    form!("show", Name),
    form!("report"),
];

/// The table, a row for each command.
pub fn commands() -> &'static [CommandForm]
    ensures forms { map form_of result.now ≡ forms }
{
    COMMANDS
}

/// The row of a command's word, or none if the word is no command's.
pub fn command_form(word: &[u8]) -> Option<&'static CommandForm>
    ensures form { option_map (λ form. form_of form.now) result ≡ form_at forms word.now }
{
    for form in commands() {
        if word == form.word.as_bytes() {
            return Some(form);
        }
    }
    None
}

impl Operand {
    /// Whether the word is well-formed for this operand.
    pub fn matches(self, word: &[u8]) -> bool
        ensures matches { result ≡ matches self word.now }
    {
        match self {
            Operand::Name => Name::read(word).is_some(),
            Operand::Number => is_number(word),
            Operand::Usage => is_usage(word),
            Operand::Flags => is_flags(word),
        }
    }
}
