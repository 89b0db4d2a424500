//! `ColorChoice`: the option `--color`, and whether output is coloured.
ghost use Rattle.std.specs.Prelude.{◌≡◌};
ghost use Rattle.fencectl_core.specs.Color.{choice_named, is_on};

use point_core::Refusal;

/// The option that says whether output is coloured.
const COLOR: &str = "--color";

/// When output is coloured, as clap's `ColorChoice`.
#[derive(Clone, Copy)]
pub(crate) enum ColorChoice {
    /// At a terminal, unless the environment asks for none.
    Auto,
    Always,
    Never,
}

impl ColorChoice {
    /// Whether a stream is coloured: whether it is a terminal, and whether the environment asks for no colour.
    pub(crate) fn is_on(self, terminal: bool, plain: bool) -> bool
        ensures { result ≡ is_on self terminal plain }
    {
        match self {
            ColorChoice::Auto => terminal && !plain,
            ColorChoice::Always => true,
            ColorChoice::Never => false,
        }
    }
}

/// Which streams are coloured.
#[derive(Clone, Copy)]
pub(crate) struct Colors {
    pub output: bool,
    pub errors: bool,
}

fn choice_named(value: &str) -> Option<ColorChoice>
    ensures { result ≡ choice_named value.now }
{
    if value == "auto" {
        Some(ColorChoice::Auto)
    } else if value == "always" {
        Some(ColorChoice::Always)
    } else if value == "never" {
        Some(ColorChoice::Never)
    } else {
        None
    }
}

/// Takes the options `--color WHEN` and `--color=WHEN` out of the words of a command line, wherever they come before a word
/// `--`, and gives the last of them. `None` if a value is none of `auto`, `always` and `never`, which is then reported.
///
/// Fails with `Write` if that could not be printed.
pub(crate) fn take_color(
    rt: &impl Eprint,
    words: &mut Vec<String>,
) -> Result<Option<ColorChoice>, Refusal> {
    let mut choice = ColorChoice::Auto;
    for _ in 0..words.len() {
        let Some(place) = place_of_color(words.as_slice()) else {
            break;
        };
        match take_choice(words, place) {
            Some(taken) => choice = taken,
            None => {
                report_no_choice(rt)?;
                return Ok(None);
            }
        }
    }
    Ok(Some(choice))
}

fn report_no_choice(rt: &impl Eprint) -> Result<(), Refusal> {
    eprintln!(rt;
        "error: invalid value for '--color <WHEN>'\n  [possible values: auto, always, never]\n\nFor more information, try '--help'."
    ).map_err(|_| Refusal::Write)
}

/// The index of the first `--color` option.
fn place_of_color(words: &[String]) -> Option<usize> {
    for (place, word) in words.iter().enumerate() {
        let word = word.as_str();
        if word == "--" {
            return None;
        }
        if word == COLOR || word.starts_with("--color=") {
            return Some(place);
        }
    }
    None
}

/// Takes the option at that place, and its value if that is a word of its own.
fn take_choice(words: &mut Vec<String>, place: usize) -> Option<ColorChoice> {
    let word = take_word(words, place)?;
    match word.as_str().strip_prefix("--color=") {
        Some(value) => choice_named(value),
        None => {
            let value = take_word(words, place)?;
            choice_named(value.as_str())
        }
    }
}

fn take_word(words: &mut Vec<String>, place: usize) -> Option<String> {
    if place < words.len() {
        Some(words.remove(place))
    } else {
        None
    }
}
