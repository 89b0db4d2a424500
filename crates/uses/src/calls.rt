//! `Calls`: which calls are left out, and how many were made. It prints the answer of each.
ghost use Rattle.std.specs.Prelude.{◌<◌, [], ◌∷◌};
ghost use Rattle.point_core.specs.Name.{IsName};

use point_core::{Context, Name, Point, Reach, Refusal};
use std::fmt::Debug;
use std::io::Read;
use syncfile_core::SyncFile;

/// A bound on the number of calls.
const MOST: usize = 256;

const LEFT_OUT: u8 = b'x';

#[derive(Drop)]
pub(crate) struct Calls {
    marks: [u8; MOST],
    // the number of the next call
    number: usize,
    /// Whether the marks could not be read, or an answer could not be printed.
    pub(crate) failed: bool,
}

impl Calls {
    /// Reads which calls are left out.
    pub(crate) fn read<R: Read>(reader: &mut R) -> Calls {
        let mut marks = [0; MOST];
        let failed = reader.read(&mut marks).is_err();
        Calls {
            marks,
            number: 0,
            failed,
        }
    }

    /// Fails with Memory if the next call is left out.
    pub(crate) fn allow(&self) -> Result<(), Refusal> {
        match self.marks.get(self.number) {
            Some(&LEFT_OUT) => Err(Refusal::Memory),
            _ => Ok(()),
        }
    }

    /// Whether the next call is made. One that is left out is answered Memory.
    pub(crate) fn allows(&mut self, rt: &HostRuntime, call: &str) -> bool {
        let allowed = self.allow();
        if allowed.is_err() {
            self.tell(rt, call, &allowed);
        }
        allowed.is_ok()
    }

    /// Prints the answer of a call.
    pub(crate) fn tell<A: Debug>(&mut self, rt: &HostRuntime, call: &str, answer: &A) {
        self.number = self.number.saturating_add(1);
        self.failed |= println!(rt; "{call}: {answer:?}").is_err();
    }

    /// Prints whether a call has made an object.
    pub(crate) fn tell_made<A>(
        &mut self,
        rt: &HostRuntime,
        call: &str,
        answer: &Result<A, Refusal>,
    ) {
        let made: Result<(), Refusal> = match answer {
            Ok(_) => Ok(()),
            Err(refusal) => Err(*refusal),
        };
        self.tell(rt, call, &made);
    }
}

/// A name of one letter.
pub(crate) fn name(letter: u8) -> Name
    requires letter { IsName (letter ∷ []) }
{
    Name::read(&[letter]).unwrap()
}

/// A point of the context at an index.
pub(crate) fn point(place: usize, value: u64) -> Point
    requires few { place < 3 }
{
    let ctx = Context::at(place);
    Point { ctx, value }
}

/// The reach with this value of the first context.
pub(crate) fn reach_at(value: u64) -> Reach {
    let mut reach = Reach::zero();
    reach.raise_to(point(0, value));
    reach
}

/// Makes a file of one point.
pub(crate) fn plain(
    rt: &HostRuntime,
    calls: &mut Calls,
    point: Point,
) -> Result<SyncFile, Refusal> {
    let made = match calls.allow() {
        Ok(()) => SyncFile::plain(rt.alloc(), name(b'f'), point),
        Err(refusal) => Err(refusal),
    };
    calls.tell_made(rt, "SyncFile::plain", &made);
    made
}
