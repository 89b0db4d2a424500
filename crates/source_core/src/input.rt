//! `Input`: standard input or a file, as an argument names it; and `Source`: an input that is opened for reading. Errors of
//! the system are reported here, with the file's name. `fencectl` reads scripts and traces by it.
ghost use Rattle.std.specs.Prelude.{◌≡◌, IfOk, IfErr, Some};
ghost use Rattle.point_core.specs.declared.refusal.Refusal.TheVariants.{Read as ReadFault};
ghost use Rattle.source_core.specs.Input.{file_named, file_of};
ghost use Rattle.source_core.specs.Source.{HasUnread, bytes_of};

use point_core::Refusal;
use std::io::Read;
use std::rt::Files;
use std::{fs, io};

/// The argument that names standard input.
pub const STANDARD_INPUT: &str = "-";

/// The system's error number for a folder in the place of a file.
const EISDIR: i32 = 21;

/// Where a script or a trace comes from.
#[derive(Clone, Copy)]
pub enum Input<'a> {
    StandardInput,
    /// A file with this name.
    File(&'a str),
}

impl<'a> Input<'a> {
    /// The input that an argument names.
    pub fn named(name: &'a str) -> Input<'a>
        ensures { file_of result ≡ file_named (Some name.entry.now) }
    {
        if name == STANDARD_INPUT {
            Input::StandardInput
        } else {
            Input::File(name)
        }
    }
}

/// The reader of an input. If a file can't be opened or read, the reason is reported on standard error, with its name.
#[derive(Drop)]
pub enum Source<'r, 'a, R: Files, S> {
    StandardInput(S),
    File {
        rt: &'r R,
        name: &'a str,
        file: R::File,
    },
}

impl<'r, 'a, R: Files + Eprint, S: Read + Drop> Source<'r, 'a, R, S> {
    /// Opens an input.
    ///
    /// Fails with `Read` if it can't be opened, or if it is a folder: then the reason is reported.
    pub fn open(
        rt: &'r R,
        input: Input<'a>,
        standard_input: S,
    ) -> Result<Source<'r, 'a, R, S>, Refusal>
        ensures unread { IfOk result (λ source. HasUnread R.File.remaining S.remaining (file_of input.entry) standard_input
            (bytes_of R.File.remaining S.remaining source)) }
        ensures refusal { IfErr result (λ e. e ≡ ReadFault) }
    {
        match input {
            Input::StandardInput => Ok(Source::StandardInput(standard_input)),
            Input::File(name) => match reported(rt, name, open_file(rt, name)) {
                Ok(file) => Ok(Source::File { rt, name, file }),
                Err(_) => Err(Refusal::Read),
            },
        }
    }
}

impl<'r, 'a, R: Files + Eprint, S: Read + Drop> Read for Source<'r, 'a, R, S> {
    ghost use Rattle.source_core.specs.Source.{bytes_of};

    ghost remaining = { bytes_of R.File.remaining S.remaining };

    fn read(&mut self, buf: &mut [u8]) -> io::Result<usize> {
        match self {
            Source::StandardInput(reader) => reader.read(buf),
            Source::File { rt, name, file } => reported(*rt, *name, file.read(buf)),
        }
    }
}

/// Opens a file. The system opens a folder too, and refuses only its reading.
fn open_file<R: Files>(rt: &R, name: &str) -> io::Result<R::File> {
    if is_folder(rt, name) {
        return Err(io::Error::from_raw_os_error(EISDIR));
    }
    fs::open(rt, name)
}

fn is_folder(rt: &impl Files, name: &str) -> bool {
    match fs::metadata(rt, name) {
        Ok(found) => found.is_dir(),
        Err(_) => false,
    }
}

/// The result of a call on a file. If the call failed, the name and the system's reason are reported.
pub fn reported<T: Drop>(rt: &impl Eprint, name: &str, given: io::Result<T>) -> io::Result<T>
    ensures same { result ≡ given }
{
    if let Err(error) = &given {
        // A failed write is ignored: the line of the fault follows.
        let _ = eprintln!(rt; "fencectl: {name}: {error}");
    }
    given
}
