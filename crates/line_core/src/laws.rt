//! Theorems about all scripts: each law is the contract of a function with an empty body.
ghost use Rattle.std.specs.Prelude.{◌≡◌, List, ℕ, map, None, Some, is_some};
ghost use Rattle.std.specs.List.{IsDistinct};
ghost use Rattle.std.specs.Str.{bytes_eq};
ghost use Rattle.command_core.specs.declared.command.Command.{Command};
ghost use Rattle.command_core.specs.Names.{word_of};
ghost use Rattle.line_core.specs.declared.line.TheConstants.{LINE_BYTES};
ghost use Rattle.line_core.specs.declared.number.TheConstants.{DIGITS};
ghost use Rattle.line_core.specs.declared.script.TheConstants.{SCRIPT_BYTES};
ghost use Rattle.line_core.specs.Table.{Form, command_from, fit, form_at, forms};

/// The limits of a script, as numbers.
pub fn limits_of_a_script()
    ensures line { LINE_BYTES ≡ 256 }
    ensures script { SCRIPT_BYTES ≡ 1048576 }
    ensures digits { DIGITS ≡ 20 }
{}

/// A line is a command exactly if its first word has a row in the table, and the other words fit that row: one word for
/// each operand, which matches it.
pub fn a_command_is_a_word_and_its_operands()
    ensures unknown { (word : List ℕ) → (words : List (List ℕ)) →
        form_at forms word ≡ None → command_from word words ≡ None }
    ensures known { (word : List ℕ) → (words : List (List ℕ)) → (form : Form) →
        form_at forms word ≡ Some form → is_some (command_from word words) ≡ fit form.operands words }
{}

/// A command's line begins with the command's own word, so the order in which words are compared doesn't matter.
pub fn a_command_has_the_word_of_its_line()
    ensures word { (word : List ℕ) (words : List (List ℕ)) (command : Command) →
        command_from word words ≡ Some command → word_of command ≡ word }
{}

/// No word has two rows in the table, so the order of the rows doesn't matter.
pub fn a_word_has_one_row()
    ensures distinct { IsDistinct bytes_eq (map (λ (form : Form). form.word) forms) }
{}
