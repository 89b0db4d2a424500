//! `Gate`: the caller's hook before and after each act. Tests order the acts of threads with it; `OpenGate` orders
//! nothing.
ghost use Rattle.std.specs.Prelude.{◌≡◌, true};

/// Is called before and after every act of every client. Clients are numbered from 1, and the acts of each from 0.
pub trait Gate: Sync {
    /// Before an act. If it is false, the client ends there with `TimedOut`.
    fn enter(&self, client: usize, act: usize) -> bool;

    /// Called after every act, refused ones included.
    fn leave(&self, client: usize, act: usize);
}

/// A gate that is always open.
#[derive(Clone, Copy, Debug)]
pub struct OpenGate;

impl Gate for OpenGate {
    /// True at once.
    fn enter(&self, _client: usize, _act: usize) -> bool
        ensures open { result ≡ true }
    {
        true
    }

    /// Does nothing.
    fn leave(&self, _client: usize, _act: usize) {}
}
