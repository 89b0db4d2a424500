//! Sentences for an operand that does not parse, and for a missing one, with the form of each command.

use line_core::Operand;

/// The commands with their operands, as the help lists them.
static FORMS: &[&str] = &[
    "timeline T",
    "inc T N",
    "value T",
    "shut T",
    "fence F T P",
    "merge F A B",
    "close F",
    "wait F",
    "info F",
    "buffer B",
    "add B T P U",
    "import B F FLAGS",
    "export F B FLAGS",
    "test B U",
    "trim B",
    "watch F COOKIE",
    "unwatch COOKIE",
    "show B",
    "report",
];

/// A command with its operands, as the help lists it; nothing for a word that is no command.
pub(crate) fn form_of(command: &[u8]) -> &'static str {
    for form in FORMS {
        if is_form(form, command) {
            return form;
        }
    }
    ""
}

fn is_form(form: &str, command: &[u8]) -> bool {
    match form.as_bytes().strip_prefix(command) {
        Some(operands) => operands.is_empty() || operands.starts_with(b" "),
        None => false,
    }
}

/// The sentence for a word that does not match the operand.
pub(crate) fn mismatch(operand: Operand, word: &[u8]) -> &'static str {
    match (operand, has_capital(word)) {
        (Operand::Name, _) => "not a name: a name has 1 to 31 letters, digits, _, . or -",
        (Operand::Number, _) => "not a number of 1 to 20 digits, up to 18446744073709551615",
        (Operand::Usage, false) => "not a usage: kernel, write, read or bookkeep",
        (Operand::Usage, true) => "not a usage: kernel, write, read or bookkeep, in lower case",
        (Operand::Flags, false) => "not flags: read, write or rw",
        (Operand::Flags, true) => "not flags: read, write or rw, in lower case",
    }
}

fn has_capital(word: &[u8]) -> bool {
    word.iter().any(|byte| byte.is_ascii_uppercase())
}

/// The sentence for an operand that is missing at the end of a line.
pub(crate) fn absence(operand: Operand) -> &'static str {
    match operand {
        Operand::Name => "a name is missing",
        Operand::Number => "a number is missing",
        Operand::Usage => "a usage is missing: kernel, write, read or bookkeep",
        Operand::Flags => "flags are missing: read, write or rw",
    }
}
