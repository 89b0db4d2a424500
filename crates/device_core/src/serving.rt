//! `serve`: one request in, one answer out.
ghost use Rattle.std.specs.Prelude.{◌≡◌, List, OnOk, OnErr};
ghost use Rattle.device_core.specs.declared.request.Request.{Request as Asked};
ghost use Rattle.device_core.specs.theorem.State.{objects_of};
ghost use Rattle.device_core.specs.theorem.Request.{IsAnswer, after};
ghost use Rattle.device_core.specs.theorem.History.{HasHistory, history_after};
ghost use Rattle.device_core.specs.theorem.Memory.{AreTrimmed};
ghost use Rattle.device_core.specs.theorem.Requests.{Has32Bits, Have32Bits};
ghost use Rattle.device_core.specs.theorem.Answered.{IsAnswered};

use crate::device::Device;
use crate::errno::Errno;
use crate::request::{Reply, Request};

impl Device {
    /// The answer to one request: the first error whose cause holds, else the result. `NoMemory` comes last, and only
    /// if an allocation really failed; `Status`, `IsSignalled` and `Test` never fail with it, and an increment or a
    /// closing only if it wakes a file. A refused request changes nothing.
    #[inline(always)]
    pub fn serve(&mut self, request: Request) -> Result<Reply, Errno>
        ensures answer { IsAnswer (objects_of self.old) request result }
        ensures done { OnOk result (objects_of self.new ≡ after (objects_of self.old) request) }
        ensures stands { (history : List Asked) →
            HasHistory self.old history → HasHistory self.new (history_after history request result) }
        ensures told { (history : List Asked) →
            HasHistory self.old history → Have32Bits history → IsAnswered history request result }
        ensures trimmed { (history : List Asked) →
            HasHistory self.old history → AreTrimmed self.new (history_after history request result) }
        ensures small { Has32Bits request }
        ensures unchanged { OnErr result (self.new ≡ self.old) }
    {
        self.answer_to(request)
    }

    #[inline(always)]
    fn answer_to(&mut self, request: Request) -> Result<Reply, Errno>
        ensures answer { IsAnswer (objects_of self.old) request result }
        ensures done { OnOk result (objects_of self.new ≡ after (objects_of self.old) request) }
        ensures small { Has32Bits request }
        ensures unchanged { OnErr result (self.new ≡ self.old) }
    {
        match request {
            Request::Open(name) => Ok(Reply::Number(self.open(name)?)),
            Request::Fence(timeline, point, now) => Ok(Reply::Number(self.fence(
                timeline, point, now,
            )?)),
            Request::Inc(timeline, n, now) => Ok(Reply::Woken(self.inc(timeline, n, now)?)),
            Request::Merge(a, b, name) => Ok(Reply::Number(self.merge(a, b, name)?)),
            Request::Status(file) => Ok(Reply::Status(self.status(file)?)),
            Request::IsSignalled(file) => Ok(Reply::Signalled(self.is_signalled(file)?)),
            Request::Info(file) => Ok(Reply::Info(self.info(file)?)),
            Request::Close(number, now) => Ok(Reply::Woken(self.close(number, now)?)),
            Request::Buffer(now) => Ok(Reply::Number(self.buffer(now)?)),
            Request::Export(buffer, flags) => Ok(Reply::Number(self.export(buffer, flags)?)),
            Request::Import(buffer, file, flags) => {
                self.import(buffer, file, flags)?;
                Ok(Reply::Done)
            }
            Request::Test(buffer, usage) => Ok(Reply::Signalled(self.test(buffer, usage)?)),
        }
    }
}
