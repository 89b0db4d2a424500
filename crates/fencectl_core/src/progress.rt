//! `Progress`: what is said on standard error while a plan is explored, if that is a terminal: how far the search has come, and each
//! finding as it comes, so that an interrupt loses none. A search that is soon over says nothing. `exploring.rt` asks after each
//! level.

use explore_core::Found;
use std::env;
use std::io::{IsTerminal, Write};
use std::time::Instant;

/// How long a search says nothing, and how long after that until it says more, in milliseconds.
const SILENT: u64 = 500;

const AGAIN: u64 = 250;

/// Milliseconds of a second.
const SECOND: u64 = 1_000;

/// Erases the line of a terminal, and begins it again.
const ERASE: &str = "\r\x1b[K";

/// How far a search has come.
#[derive(Drop)]
pub(crate) struct Progress {
    // the beginning; none if nothing is to be said
    start: Option<Instant>,
    // when more is said, in milliseconds since then
    next: u64,
    levels: usize,
}

impl Progress {
    /// A search begins. Nothing is said of it if standard error is no terminal that can erase a line, or if there is no clock.
    pub(crate) fn begin(rt: &HostRuntime) -> Progress {
        let start = if can_erase(rt) {
            Instant::now(rt).ok()
        } else {
            None
        };
        Progress {
            start,
            next: SILENT,
            levels: 0,
        }
    }

    /// Counts a level. Gives how many milliseconds have passed, if something is to be said now.
    pub(crate) fn due(&mut self, rt: &HostRuntime) -> Option<u64> {
        self.levels = self.levels.saturating_add(1);
        let passed = self.passed(rt)?;
        if passed < self.next {
            return None;
        }
        self.next = passed.saturating_add(AGAIN);
        Some(passed)
    }

    fn passed(&self, rt: &HostRuntime) -> Option<u64> {
        let start = self.start.as_ref()?;
        let passed = start.elapsed(rt).ok()?;
        let seconds = passed.as_secs().saturating_mul(SECOND);
        Some(seconds.saturating_add(u64::from(passed.subsec_millis())))
    }

    /// Says what was found since the last time, and, on a line that the next time erases, how far the search has come. A failed write
    /// doesn't affect the search.
    pub(crate) fn tell(
        &self,
        rt: &HostRuntime,
        passed: u64,
        news: &[u8],
        findings: usize,
        found: &Found,
    ) {
        let levels = self.levels;
        let states = found.states;
        let rate = rate_of(states as u64, passed);
        let _ = eprint!(rt; "{ERASE}");
        let _ = rt.stderr().write_all(news);
        let _ = eprint!(rt;
            "level {levels}: {states} states, {rate} a second; findings so far: {findings}"
        );
    }

    /// Erases the line.
    pub(crate) fn end(&self, rt: &HostRuntime) {
        if self.next > SILENT {
            let _ = eprint!(rt; "{ERASE}");
        }
    }
}

fn rate_of(count: u64, milliseconds: u64) -> u64 {
    count.saturating_mul(SECOND) / milliseconds.max(1)
}

/// Whether standard error is a terminal that can erase a line.
fn can_erase(rt: &HostRuntime) -> bool {
    let is_dumb = match env::var(rt, "TERM") {
        Ok(value) => value.as_str() == "dumb",
        Err(_) => false,
    };
    rt.stderr().is_terminal() && !is_dumb
}
