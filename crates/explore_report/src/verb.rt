//! `Verb`: what a note says of a client's access to a buffer: which access begins, or that it ends. `mark.rt` reads it.
ghost use Rattle.std.specs.Prelude.{◌≡◌};
ghost use Rattle.explore_report.specs.Accesses.{is_done, is_write};

/// What a note says of an access to a buffer.
#[derive(Clone, Copy)]
pub enum Verb {
    /// `#reads B`: the client reads B from the line above on.
    Reads,
    /// `#writes B`: the client writes B from the line above on.
    Writes,
    /// `#done B`: the access ends with the line above.
    Done,
}

impl Verb {
    pub(crate) fn is_done(self) -> bool
        ensures { result ≡ is_done self }
    {
        matches!(self, Verb::Done)
    }

    pub(crate) fn is_write(self) -> bool
        ensures { result ≡ is_write self }
    {
        matches!(self, Verb::Writes)
    }
}
