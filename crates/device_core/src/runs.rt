//! `run`: a list of requests on a new device. Its contract is this crate's main theorem.
ghost use Rattle.std.specs.Prelude.{◌≡◌, [], IfOk, IfErr};
ghost use Rattle.device_core.specs.declared.errno.Errno.TheVariants.{NoMemory};
ghost use Rattle.device_core.specs.theorem.History.{AreAnswers, HasHistory, history_of};
ghost use Rattle.device_core.specs.theorem.Memory.{AreTrimmed, KeepsWhatIsAlive};
ghost use Rattle.device_core.specs.theorem.Answered.{AreAnswered};
ghost use Rattle.device_core.specs.theorem.Headline.{ReportsSums, ReportsWhatWasPut, ReportsBuffers, ReportsFences, ReportsNumbers, ReportsEachWaking};

use crate::device::Device;
use crate::errno::Errno;
use crate::request::{Reply, Request};
use std::alloc::Global;

/// Serves the requests one after another on a new device. Returns the device and one answer for each request.
///
/// Fails only with `NoMemory`, if the list of answers can't be allocated.
pub fn run(
    alloc: Global,
    requests: &[Request],
) -> Result<(Device, Vec<Result<Reply, Errno>>), Errno>
    ensures answers { IfOk result (λ r. AreAnswers [] requests.now r.1.items) }
    ensures told { IfOk result (λ r. AreAnswered [] requests.now r.1.items) }
    ensures stands { IfOk result (λ r. HasHistory r.0 (history_of [] requests.now r.1.items)) }
    ensures sums { IfOk result (λ r. ReportsSums r.0 (history_of [] requests.now r.1.items)) }
    ensures files { IfOk result (λ r. ReportsWhatWasPut r.0 (history_of [] requests.now r.1.items)) }
    ensures buffers { IfOk result (λ r. ReportsBuffers r.0 (history_of [] requests.now r.1.items)) }
    ensures fences { IfOk result (λ r. ReportsFences r.0 (history_of [] requests.now r.1.items)) }
    ensures numbers { IfOk result (λ r. ReportsNumbers r.0 r.1.items) }
    ensures wakings { IfOk result (λ r. ReportsEachWaking r.0 (history_of [] requests.now r.1.items) r.1.items) }
    ensures kept { IfOk result (λ r. KeepsWhatIsAlive r.0) }
    ensures trimmed { IfOk result (λ r. AreTrimmed r.0 (history_of [] requests.now r.1.items)) }
    ensures memory { IfErr result (λ e. e ≡ NoMemory) }
{
    let Ok(mut answers) = Vec::with_capacity(alloc, requests.len()) else {
        return Err(Errno::NoMemory);
    };
    let mut device = Device::new(alloc);
    for request in requests {
        answers.push_reserved(device.serve(*request));
    }
    // for the proof: what the device keeps
    let _sizes = device.table_sizes();
    Ok((device, answers))
}
