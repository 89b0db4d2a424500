//! `Book`: the line that made each name and cookie, for explanations. Whoever runs a script enters each accepted line.
ghost use Rattle.std.specs.Prelude.{◌≡◌, IfErr};
ghost use Rattle.point_core.specs.declared.refusal.Refusal.TheVariants.{Memory};

use command_core::{Command, Space};
use desk_core::Desk;
use point_core::{Name, Refusal};
use std::alloc::Global;
use std::collections::HashMap;

/// The cookies that the map may hold beyond twice those of pending watches, before stale ones are purged.
const SPARE_COOKIES: usize = 64;

/// The lines that made the names and cookies in use, and those that closed timelines.
///
/// A cookie is kept for a while after its watch has fired or was removed, and gets the line of its new watch when it is
/// registered again. Cookies without a watch are purged once the book holds `SPARE_COOKIES` more than twice the watches that
/// were pending at the last purge.
#[derive(Drop)]
pub struct Book {
    timelines: HashMap<Name, u32>,
    closings: HashMap<Name, u32>,
    files: HashMap<Name, u32>,
    buffers: HashMap<Name, u32>,
    cookies: HashMap<u64, u32>,
    // At this many cookies, those without a watch are purged first.
    room: usize,
}

impl Book {
    /// A book without lines. Does not allocate.
    pub fn new(alloc: Global) -> Book {
        Book {
            timelines: HashMap::new(alloc),
            closings: HashMap::new(alloc),
            files: HashMap::new(alloc),
            buffers: HashMap::new(alloc),
            cookies: HashMap::new(alloc),
            room: SPARE_COOKIES,
        }
    }

    /// Enters the name or cookie that an accepted command made, and takes out the one that it closed. `desk` has just run the
    /// command.
    pub fn enter(&mut self, line: u32, command: &Command, desk: &Desk) -> Result<(), Refusal>
        ensures refusals { IfErr result (λ refusal. refusal ≡ Memory) }
    {
        match command {
            Command::Watch(_, cookie) => self.enter_cookie(line, *cookie, desk),
            _ => self.enter_names(line, command),
        }
    }

    fn enter_names(&mut self, line: u32, command: &Command) -> Result<(), Refusal>
        ensures refusals { IfErr result (λ refusal. refusal ≡ Memory) }
    {
        match command.closed() {
            Some((Space::Timeline, name)) => self.enter_closing(line, &name),
            Some((Space::File, name)) => {
                self.forget_file(&name);
                Ok(())
            }
            _ => self.enter_made(line, command),
        }
    }

    fn enter_made(&mut self, line: u32, command: &Command) -> Result<(), Refusal>
        ensures refusals { IfErr result (λ refusal. refusal ≡ Memory) }
    {
        let Some((space, name)) = command.made() else {
            return Ok(());
        };
        match space {
            Space::Timeline => self.timelines.insert(name, line),
            Space::File => self.files.insert(name, line),
            Space::Buffer => self.buffers.insert(name, line),
        }
        .map_err(|_| Refusal::Memory)?;
        Ok(())
    }

    fn enter_closing(&mut self, line: u32, timeline: &Name) -> Result<(), Refusal>
        ensures refusals { IfErr result (λ refusal. refusal ≡ Memory) }
    {
        self.closings
            .insert(*timeline, line)
            .map_err(|_| Refusal::Memory)?;
        Ok(())
    }

    fn enter_cookie(&mut self, line: u32, cookie: u64, desk: &Desk) -> Result<(), Refusal>
        ensures refusals { IfErr result (λ refusal. refusal ≡ Memory) }
    {
        if self.cookies.len() >= self.room {
            self.forget_cookies(desk);
        }
        let entered = self.cookies.insert(cookie, line);
        entered.map_err(|_| Refusal::Memory)?;
        Ok(())
    }

    /// Takes out the cookies whose watch is no longer pending.
    fn forget_cookies(&mut self, desk: &Desk) {
        self.cookies.retain(|cookie, _| desk.has_watch(*cookie));
        let pending = self.cookies.len();
        self.room = pending.saturating_mul(2).saturating_add(SPARE_COOKIES);
    }

    fn forget_file(&mut self, file: &Name) {
        self.files.remove(file);
    }

    /// The line that made the name.
    pub(crate) fn line_of(&self, space: Space, name: &Name) -> Option<u32> {
        let lines = match space {
            Space::Timeline => &self.timelines,
            Space::File => &self.files,
            Space::Buffer => &self.buffers,
        };
        lines.get(name).copied()
    }

    /// The line that closed the timeline.
    pub(crate) fn line_of_closing(&self, timeline: &Name) -> Option<u32> {
        self.closings.get(timeline).copied()
    }

    /// The line that registered the cookie last.
    pub(crate) fn line_of_cookie(&self, cookie: u64) -> Option<u32> {
        self.cookies.get(&cookie).copied()
    }
}
