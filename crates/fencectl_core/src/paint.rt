//! Colours help and errors as clap does, whose own colours need a terminal library.
use std::alloc::{AllocError, Global};

const HEADING: &str = "\x1b[1m\x1b[4m";

const ERROR: &str = "\x1b[1m\x1b[31m";

const PLAIN: &str = "\x1b[0m";

/// The most words of a heading.
const HEADING_WORDS: usize = 2;

/// The text with its headings underlined and in bold, and with `error:` in red.
pub(crate) fn painted(alloc: Global, text: &str) -> Result<String, AllocError> {
    let mut painted = String::new(alloc);
    for line in text.lines() {
        paint_line(line, &mut painted)?;
        painted.push_str("\n")?;
    }
    Ok(painted)
}

fn paint_line(line: &str, painted: &mut String) -> Result<(), AllocError> {
    if let Some(rest) = line.strip_prefix("error:") {
        return paint(ERROR, "error:", rest, painted);
    }
    if let Some(rest) = line.strip_prefix("Usage:") {
        return paint(HEADING, "Usage:", rest, painted);
    }
    if is_heading(line) {
        return paint(HEADING, line, "", painted);
    }
    painted.push_str(line)
}

/// A few words and a colon, which begin the line.
fn is_heading(line: &str) -> bool {
    let mut words: usize = 0;
    for _ in line.split(' ') {
        words = words.saturating_add(1);
    }
    line.ends_with(':') && words <= HEADING_WORDS
}

fn paint(color: &str, text: &str, rest: &str, painted: &mut String) -> Result<(), AllocError> {
    painted.push_str(color)?;
    painted.push_str(text)?;
    painted.push_str(PLAIN)?;
    painted.push_str(rest)
}
