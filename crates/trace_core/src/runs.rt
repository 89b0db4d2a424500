//! Runs of bytes of one class, from either end. The readers of records take columns apart with them.
ghost use Rattle.std.specs.Prelude.{◌≡◌, ◌+◌, ◌≤◌, length, take, drop};
ghost use Rattle.std.specs.List.{prefix_len, suffix_len};
ghost use Rattle.trace_core.specs.Runs.{is_of};

/// Classes of bytes.
#[derive(Clone, Copy)]
pub(crate) enum Class {
    Digit,
    Blank,
    /// Any but the blank.
    Dark,
    /// Any but the colon.
    Word,
    /// The bytes between the parentheses of a thread's group: blanks, dashes and digits.
    Group,
}

fn is_of(class: Class, byte: u8) -> bool
    ensures { result ≡ is_of class byte }
{
    match class {
        Class::Digit => byte.is_ascii_digit(),
        Class::Blank => byte == b' ',
        Class::Dark => byte != b' ',
        Class::Word => byte != b':',
        Class::Group => byte == b' ' || byte == b'-' || byte.is_ascii_digit(),
    }
}

/// How many bytes of the class come first.
pub(crate) fn run(bytes: &[u8], class: Class) -> usize
    ensures count { result ≡ prefix_len (is_of class) bytes.now }
    ensures within { result ≤ length bytes.now }
{
    for (count, byte) in bytes.iter().enumerate() {
        if !is_of(class, *byte) {
            return count;
        }
    }
    bytes.len()
}

/// How many bytes come before the bytes of the class at the end.
pub(crate) fn before_run(bytes: &[u8], class: Class) -> usize
    ensures count { result + suffix_len (is_of class) bytes.now ≡ length bytes.now }
{
    let mut count = bytes.len();
    while count > 0 && is_of(class, bytes[count - 1]) {
        count -= 1;
    }
    count
}

/// The bytes after the run of the class at the beginning.
pub(crate) fn without_run(bytes: &[u8], class: Class) -> &[u8]
    ensures rest { result.now ≡ drop (prefix_len (is_of class) bytes.now) bytes.now }
{
    &bytes[run(bytes, class)..]
}

/// The bytes of the class that come first, and the rest.
pub(crate) fn split_run(bytes: &[u8], class: Class) -> (&[u8], &[u8])
    ensures front { result.0.now ≡ take (prefix_len (is_of class) bytes.now) bytes.now }
    ensures rest { result.1.now ≡ drop (prefix_len (is_of class) bytes.now) bytes.now }
{
    bytes.split_at(run(bytes, class))
}
