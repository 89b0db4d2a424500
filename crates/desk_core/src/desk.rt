//! `Desk`: one command in, one answer out. Files, buffers and the desk's own watches have only points of timelines that
//! were made, and the watches know the timelines' values; `step` keeps that. `run` and `script_core` call `step`.
ghost use Rattle.std.specs.Prelude.{◌≡◌, ◌≢◌, ◌↔◌, false, ◌≤◌, List, ℕ, [], length, map, option_copied, option_map, IsTrue, IsSome, IfSome, IsOk, IfOk, IfErr, OnErr, OnOk};
ghost use Rattle.command_core.specs.declared.command.Command.{Command};

use crate::info::fence_rows;
use crate::report;
use command_core::{Answer, Command, Info, Report};
use dmabuf_core::Buffers;
use fence_core::Watches;
use point_core::{Context, Items, Name, Point, Refusal, Status, TimelineRow, TopRow, Usage};
use std::alloc::Global;
use std::marker::Model;
use syncfile_core::Files;
use timeline_core::Timelines;

/// All timelines, files, buffers and watches of a service. A desk keeps for each file the points that were pending when the
/// file was made, for each buffer a table of bounded size, and for each watch the points that its file listed. It answers as
/// if it kept all that was ever put into them.
#[derive(Drop)]
pub struct Desk {
    alloc: Global,
    timelines: Timelines,
    files: Files,
    buffers: Buffers,
    watches: Watches,
}

impl Model for Desk {
    ghost use Rattle.desk_core.specs.theorem.Desk.{DeskState};
    ghost use Rattle.desk_core.specs.Keeping.{IsOfItsTimelines};

    ghost Value = { DeskState };

    ghost view = { λ d. record { timelines = d.timelines; files = d.files; buffers = d.buffers; watches = d.watches } };

    ghost invariant = { λ d.
        IsOfItsTimelines (record { timelines = d.timelines; files = d.files; buffers = d.buffers; watches = d.watches }) };
}

impl Desk {
    ghost use Rattle.desk_core.specs.theorem.Answer.{OnRefused, takes_memory};
    ghost use Rattle.point_core.specs.Clocks.{status_at};
    ghost use Rattle.timeline_core.specs.Timeline.{has_timeline, name_at, clocks_of, reach_of, value_of, rows_of as timeline_rows};
    ghost use Rattle.resv_core.specs.Resv.{rows_of as table_rows};
    ghost use Rattle.syncfile_core.specs.SyncFile.{File, file_at};
    ghost use Rattle.point_core.specs.Refusal.{IsRefusedFor};
    ghost use Rattle.syncfile_core.specs.Files.{names_of as file_names, HasDistinctNames};
    ghost use Rattle.dmabuf_core.specs.Buffers.{has_buffer, cause_without, entries_of, names_of as buffer_names};
    ghost use Rattle.fence_core.specs.Watches.{has_watch};
    ghost use Rattle.desk_core.specs.theorem.History.{history_after};
    ghost use Rattle.desk_core.specs.theorem.Desk.{HasHistory, Answers};
    ghost use Rattle.desk_core.specs.Keeping.{cause_of, fires_kept, IsDone};

    /// A desk without timelines, files, buffers and watches. It takes no memory yet, so it is never refused.
    pub fn new(alloc: Global) -> Result<Desk, Refusal>
        ensures taken { IsOk result }
        ensures empty { IfOk result (λ desk. HasHistory desk []) }
    {
        Ok(Desk {
            alloc,
            timelines: Timelines::new(alloc).unwrap(),
            files: Files::new(alloc).unwrap(),
            buffers: Buffers::new(alloc).unwrap(),
            watches: Watches::new(alloc).unwrap(),
        })
    }

    /// Empties the desk in its place, as a new one is. The next timelines and files reuse the memory of these.
    pub fn clear(&mut self)
        ensures empty { HasHistory self.new [] }
    {
        self.timelines.clear();
        self.files.clear();
        self.buffers.clear();
        self.watches = Watches::new(self.alloc).unwrap();
    }

    /// The answer of one command: the first refusal whose cause holds, else what the command gives. `Memory` comes
    /// last, when a growth was really refused; a command that keeps nothing new and reports no list never answers it,
    /// and `inc` and `shut` only when they fire a watch. A refused command changes nothing, and fires none.
    #[inline(always)]
    pub fn step(&mut self, command: Command) -> Answer
        ensures answer { Answers self.old command result }
        ensures stands { (history : List Command) →
            HasHistory self.old history → HasHistory self.new (history_after history command result) }
        ensures unchanged { OnRefused result (self.new ≡ self.old) }
    {
        match self.outcome(&command) {
            Ok(answer) => answer,
            Err(refusal) => Answer::Refused(refusal),
        }
    }

    // Inlined into each caller, as `step` is: a caller that makes a known command, as the calls for C do, keeps one arm of it.
    #[inline(always)]
    fn outcome(&mut self, command: &Command) -> Result<Answer, Refusal>
        ensures refused { IsRefusedFor (cause_of self.old command.now) result }
        ensures sure { takes_memory (fires_kept self.old) command.now ≡ false → IfErr result (λ e. e ≢ Refusal.Memory) }
        ensures done { IfOk result (λ given. IsDone self.old command.now given self.new) }
        ensures unchanged { OnErr result (self.new ≡ self.old) }
    {
        match command {
            Command::Timeline(name) => self.timeline(name),
            Command::Inc(name, n) => self.inc(name, *n),
            Command::Value(name) => self.value(name),
            Command::Shut(name) => self.shut(name),
            Command::Fence(name, timeline, value) => self.fence(name, timeline, *value),
            Command::Merge(name, first, second) => self.merge(name, first, second),
            Command::Close(name) => self.close(name),
            Command::Wait(name) => self.wait(name),
            Command::Info(name) => self.info(name),
            Command::Buffer(name) => self.buffer(name),
            Command::Add(name, timeline, value, usage) => self.add(name, timeline, *value, *usage),
            Command::Import(name, file, flags) => self.import(name, file, *flags),
            Command::Export(name, buffer, flags) => self.export(name, buffer, *flags),
            Command::Test(name, usage) => self.test(name, *usage),
            Command::Trim(name) => self.trim(name),
            Command::Watch(name, cookie) => self.watch(name, *cookie),
            Command::Unwatch(cookie) => Ok(self.unwatch(*cookie)),
            Command::Show(name) => self.show(name),
            Command::Report => self.report(),
        }
    }

    /// The value of the timeline of that name.
    pub fn timeline_value(&self, timeline: &Name) -> Option<u64>
        ensures found { IsSome result ↔ IsTrue (has_timeline self.now.timelines timeline.now) }
        ensures value { IfSome result (λ value. value ≡ value_of self.now.timelines timeline.now) }
    {
        self.timelines.value(timeline).ok()
    }

    /// The name of the timeline of that context.
    pub fn timeline_name(&self, ctx: Context) -> Option<Name>
        ensures { result ≡ name_at self.now.timelines ctx }
    {
        self.timelines.name(ctx)
    }

    /// The status of a point.
    pub fn point_status(&self, point: Point) -> Status
        ensures { result ≡ status_at (clocks_of self.now.timelines) point }
    {
        self.timelines.as_clocks().status(point)
    }

    /// The points that the file of that name lists.
    pub fn file_points(&self, file: &Name) -> Option<&[Point]>
        ensures points { option_copied result ≡ option_map (λ (f : File). f.points) (file_at self.now.files file.now) }
    {
        let file = self.files.get(file)?;
        Some(file.points.as_slice())
    }

    /// Whether there is a buffer of that name.
    pub fn has_buffer(&self, buffer: &Name) -> bool
        ensures { result ≡ has_buffer self.now.buffers buffer.now }
    {
        self.buffers.has(buffer)
    }

    /// A row for each timeline, by context.
    pub fn timeline_rows(&self) -> Result<Vec<TimelineRow>, Refusal>
        ensures rows { IfOk result (λ rows. rows.items ≡ timeline_rows self.now.timelines) }
        ensures memory { IfErr result (λ e. e ≡ Refusal.Memory) }
    {
        self.timelines.rows()
    }

    /// The names of the files, in order of making.
    pub fn file_names(&self) -> Result<Vec<Name>, Refusal>
        ensures names { IfOk result (λ names. names.items ≡ file_names self.now.files) }
        ensures distinct { HasDistinctNames self.now.files }
        ensures memory { IfErr result (λ e. e ≡ Refusal.Memory) }
    {
        self.files.names()
    }

    /// The names of the buffers, in order of making.
    pub fn buffer_names(&self) -> Result<Vec<Name>, Refusal>
        ensures names { IfOk result (λ names. names.items ≡ buffer_names self.now.buffers) }
        ensures memory { IfErr result (λ e. e ≡ Refusal.Memory) }
    {
        self.buffers.names()
    }

    /// The pending tops of a buffer, as `show` lists them, with the numbers of their contexts.
    ///
    /// Fails with `NoEntry`, then with `Memory`.
    pub fn buffer_rows(&self, buffer: &Name) -> Result<Vec<TopRow>, Refusal>
        ensures refused { IsRefusedFor (cause_without self.now.buffers buffer.now) result }
        ensures rows { IfOk result (λ r. r.items ≡ table_rows (entries_of self.now.buffers buffer.now) (reach_of self.now.timelines)) }
    {
        self.buffers.table(buffer, self.timelines.as_reach())
    }

    /// Whether a watch of that cookie is pending.
    pub fn has_watch(&self, cookie: u64) -> bool
        ensures { result ≡ has_watch self.now.watches cookie }
    {
        matches!(self.watches.free(cookie), Err(Refusal::Exists))
    }

    /// Why a watch for which the caller has no memory is refused: the first refusal whose cause holds, else `Memory`.
    ///
    /// Does not allocate.
    pub fn watch_refusal(&self, file: &Name, cookie: u64) -> Refusal
        ensures { Answers self.now (Command.Watch file.now cookie) (Answer.Refused result) }
    {
        match self.watchable(file, cookie) {
            Ok(()) => Refusal::Memory,
            Err(cause) => cause,
        }
    }

    fn timeline(&mut self, name: &Name) -> Result<Answer, Refusal>
        ensures refused { IsRefusedFor (cause_of self.old (Command.Timeline name.now)) result }
        ensures done { IfOk result (λ given. IsDone self.old (Command.Timeline name.now) given self.new) }
        ensures unchanged { OnErr result (self.new ≡ self.old) }
    {
        let ctx = self.timelines.create(*name)?;
        Ok(Answer::Value(u64::from(ctx.number())))
    }

    fn inc(&mut self, name: &Name, n: u64) -> Result<Answer, Refusal>
        ensures refused { IsRefusedFor (cause_of self.old (Command.Inc name.now n)) result }
        ensures sure { fires_kept self.old (Command.Inc name.now n) ≡ false → IfErr result (λ e. e ≢ Refusal.Memory) }
        ensures done { IfOk result (λ given. IsDone self.old (Command.Inc name.now n) given self.new) }
        ensures unchanged { OnErr result (self.new ≡ self.old) }
    {
        let Point { ctx, value } = self.timelines.next(name, n)?;
        let fired = self.watches.after_inc(Point { ctx, value })?;
        self.timelines.raise_to(Point { ctx, value });
        Ok(Answer::Raised(value, Items::of(fired)))
    }

    // For the command. Callers of the crate ask `timeline_value`, which answers none where this fails with NoEntry.
    fn value(&self, name: &Name) -> Result<Answer, Refusal>
        ensures refused { IsRefusedFor (cause_of self.now (Command.Value name.now)) result }
        ensures sure { IfErr result (λ e. e ≢ Refusal.Memory) }
        ensures done { IfOk result (λ given. IsDone self.now (Command.Value name.now) given self.now) }
    {
        let value = self.timelines.value(name)?;
        Ok(Answer::Value(value))
    }

    // The watches fire first, at the greatest value, since only that step can still fail.
    fn shut(&mut self, name: &Name) -> Result<Answer, Refusal>
        ensures refused { IsRefusedFor (cause_of self.old (Command.Shut name.now)) result }
        ensures sure { fires_kept self.old (Command.Shut name.now) ≡ false → IfErr result (λ e. e ≢ Refusal.Memory) }
        ensures done { IfOk result (λ given. IsDone self.old (Command.Shut name.now) given self.new) }
        ensures unchanged { OnErr result (self.new ≡ self.old) }
    {
        let Point { ctx, value: kept } = self.timelines.current(name)?;
        let last = u64::MAX;
        let fired = self.watches.after_inc(Point { ctx, value: last })?;
        self.timelines.close(ctx);
        Ok(Answer::Raised(kept, Items::of(fired)))
    }

    fn fence(&mut self, name: &Name, timeline: &Name, value: u64) -> Result<Answer, Refusal>
        ensures refused { IsRefusedFor (cause_of self.old (Command.Fence name.now timeline.now value)) result }
        ensures done { IfOk result (λ given. IsDone self.old (Command.Fence name.now timeline.now value) given self.new) }
        ensures unchanged { OnErr result (self.new ≡ self.old) }
    {
        let ctx = self.timelines.context(timeline).ok_or(Refusal::NoEntry)?;
        if self.timelines.as_clocks().closed(ctx) {
            self.files.free(name)?;
            return Err(Refusal::Cancelled);
        }
        self.files.create(*name, Point { ctx, value })?;
        Ok(Answer::Done)
    }

    fn merge(&mut self, name: &Name, first: &Name, second: &Name) -> Result<Answer, Refusal>
        ensures refused { IsRefusedFor (cause_of self.old (Command.Merge name.now first.now second.now)) result }
        ensures done { IfOk result (λ given. IsDone self.old (Command.Merge name.now first.now second.now) given self.new) }
        ensures unchanged { OnErr result (self.new ≡ self.old) }
    {
        let reach = self.timelines.as_reach();
        self.files.merge_reached(*name, first, second, reach)?;
        Ok(Answer::Done)
    }

    fn close(&mut self, name: &Name) -> Result<Answer, Refusal>
        ensures refused { IsRefusedFor (cause_of self.old (Command.Close name.now)) result }
        ensures sure { IfErr result (λ e. e ≢ Refusal.Memory) }
        ensures done { IfOk result (λ given. IsDone self.old (Command.Close name.now) given self.new) }
        ensures unchanged { OnErr result (self.new ≡ self.old) }
    {
        self.files.close(name)?;
        Ok(Answer::Done)
    }

    fn wait(&self, name: &Name) -> Result<Answer, Refusal>
        ensures refused { IsRefusedFor (cause_of self.now (Command.Wait name.now)) result }
        ensures sure { IfErr result (λ e. e ≢ Refusal.Memory) }
        ensures done { IfOk result (λ given. IsDone self.now (Command.Wait name.now) given self.now) }
    {
        let clocks = self.timelines.as_clocks();
        if self.files.status(name, clocks)?.is_signalled() {
            Ok(Answer::Done)
        } else {
            Err(Refusal::TimedOut)
        }
    }

    fn info(&self, name: &Name) -> Result<Answer, Refusal>
        ensures refused { IsRefusedFor (cause_of self.now (Command.Info name.now)) result }
        ensures done { IfOk result (λ given. IsDone self.now (Command.Info name.now) given self.now) }
    {
        let file = self.files.get(name).ok_or(Refusal::NoEntry)?;
        let points = file.points.as_slice();
        let status = self.timelines.as_clocks().common_status(points);
        let fences = Items::of(fence_rows(self.alloc, points, &self.timelines)?);
        Ok(Answer::Info(Info {
            name: *name,
            status,
            fences,
        }))
    }

    fn buffer(&mut self, name: &Name) -> Result<Answer, Refusal>
        ensures refused { IsRefusedFor (cause_of self.old (Command.Buffer name.now)) result }
        ensures done { IfOk result (λ given. IsDone self.old (Command.Buffer name.now) given self.new) }
        ensures unchanged { OnErr result (self.new ≡ self.old) }
    {
        self.buffers.create(*name)?;
        Ok(Answer::Done)
    }

    fn add(
        &mut self,
        name: &Name,
        timeline: &Name,
        value: u64,
        usage: Usage,
    ) -> Result<Answer, Refusal>
        ensures refused { IsRefusedFor (cause_of self.old (Command.Add name.now timeline.now value usage)) result }
        ensures done { IfOk result (λ given. IsDone self.old (Command.Add name.now timeline.now value usage) given self.new) }
        ensures unchanged { OnErr result (self.new ≡ self.old) }
    {
        let ctx = self.timelines.context(timeline).ok_or(Refusal::NoEntry)?;
        let reach = self.timelines.as_reach();
        self.buffers.add(name, Point { ctx, value }, usage, reach)?;
        Ok(Answer::Done)
    }

    fn import(&mut self, name: &Name, file: &Name, flags: u32) -> Result<Answer, Refusal>
        ensures refused { IsRefusedFor (cause_of self.old (Command.Import name.now file.now flags)) result }
        ensures done { IfOk result (λ given. IsDone self.old (Command.Import name.now file.now flags) given self.new) }
        ensures unchanged { OnErr result (self.new ≡ self.old) }
    {
        let file = self.files.get(file).ok_or(Refusal::NoEntry)?;
        let reach = self.timelines.as_reach();
        self.buffers.import(name, file, flags, reach)?;
        Ok(Answer::Done)
    }

    fn export(&mut self, name: &Name, buffer: &Name, flags: u32) -> Result<Answer, Refusal>
        ensures refused { IsRefusedFor (cause_of self.old (Command.Export name.now buffer.now flags)) result }
        ensures done { IfOk result (λ given. IsDone self.old (Command.Export name.now buffer.now flags) given self.new) }
        ensures unchanged { OnErr result (self.new ≡ self.old) }
    {
        let latest = self.buffers.latest(buffer, flags)?;
        let reach = self.timelines.as_reach();
        self.files.adopt_latest(*name, latest, reach)?;
        Ok(Answer::Done)
    }

    fn test(&self, name: &Name, usage: Usage) -> Result<Answer, Refusal>
        ensures refused { IsRefusedFor (cause_of self.now (Command.Test name.now usage)) result }
        ensures sure { IfErr result (λ e. e ≢ Refusal.Memory) }
        ensures done { IfOk result (λ given. IsDone self.now (Command.Test name.now usage) given self.now) }
    {
        let signalled = self.buffers.test(name, usage, self.timelines.as_reach())?;
        Ok(Answer::Value(u64::from(signalled)))
    }

    fn trim(&mut self, name: &Name) -> Result<Answer, Refusal>
        ensures refused { IsRefusedFor (cause_of self.old (Command.Trim name.now)) result }
        ensures sure { IfErr result (λ e. e ≢ Refusal.Memory) }
        ensures done { IfOk result (λ given. IsDone self.old (Command.Trim name.now) given self.new) }
        ensures unchanged { OnErr result (self.new ≡ self.old) }
    {
        self.buffers.trim(name, self.timelines.as_reach())?;
        Ok(Answer::Done)
    }

    fn watch(&mut self, name: &Name, cookie: u64) -> Result<Answer, Refusal>
        ensures refused { IsRefusedFor (cause_of self.old (Command.Watch name.now cookie)) result }
        ensures done { IfOk result (λ given. IsDone self.old (Command.Watch name.now cookie) given self.new) }
        ensures unchanged { OnErr result (self.new ≡ self.old) }
    {
        let file = self.files.get(name).ok_or(Refusal::NoEntry)?;
        self.watches.watch(cookie, file.points.as_slice())?;
        Ok(Answer::Done)
    }

    // Whether a watch of the file of that name may be registered under the cookie.
    fn watchable(&self, name: &Name, cookie: u64) -> Result<(), Refusal>
        ensures refused { IsRefusedFor (cause_of self.now (Command.Watch name.now cookie)) result }
        ensures sure { IfErr result (λ e. e ≢ Refusal.Memory) }
    {
        let status = self.files.status(name, self.timelines.as_clocks())?;
        self.watches.free(cookie)?;
        if status.is_signalled() {
            return Err(Refusal::Signalled);
        }
        Ok(())
    }

    fn unwatch(&mut self, cookie: u64) -> Answer
        ensures done { IsDone self.old (Command.Unwatch cookie) result self.new }
    {
        Answer::Value(u64::from(self.watches.remove(cookie)))
    }

    fn show(&self, name: &Name) -> Result<Answer, Refusal>
        ensures refused { IsRefusedFor (cause_of self.now (Command.Show name.now)) result }
        ensures done { IfOk result (λ given. IsDone self.now (Command.Show name.now) given self.now) }
    {
        let tops = self.buffers.table(name, self.timelines.as_reach())?;
        let rows = report::show_rows(self.alloc, &tops, &self.timelines)?;
        Ok(Answer::Show(Items::of(rows)))
    }

    fn report(&self) -> Result<Answer, Refusal>
        ensures refused { IsRefusedFor (cause_of self.now Command.Report) result }
        ensures done { IfOk result (λ given. IsDone self.now Command.Report given self.now) }
    {
        let clocks = self.timelines.as_clocks();
        let timelines = Items::of(self.timelines.rows()?);
        let files = Items::of(report::file_rows(self.alloc, &self.files, clocks)?);
        let buffers = report::buffer_rows(self.alloc, &self.buffers, &self.timelines)?;
        Ok(Answer::Report(Report {
            timelines,
            files,
            buffers: Items::of(buffers),
        }))
    }
}
