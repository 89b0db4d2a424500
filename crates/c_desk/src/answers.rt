//! Stores an answer into the out-parameters of a C call. Parameters for which an answer has no value keep their old
//! ones.
ghost use Rattle.std.specs.Prelude.{◌≡◌};
ghost use Rattle.c_desk.specs.Reported.{StoresInfo, StoresReport, StoresTable};
ghost use Rattle.c_desk.specs.Call.{number_of, number_of_answer, reported_or, yes_or};

use crate::rows::{CBufferRow, CFenceRow, CFileRow, CShowRow, CTimelineRow, RowCounts, put};
use command_core::Answer;
use point_core::Refusal;

/// 0, or the refusal's number.
#[inline(always)]
pub fn number(answer: &Answer) -> i32
    ensures { result ≡ number_of_answer answer.now }
{
    match answer {
        Answer::Refused(refusal) => refused(*refusal),
        _ => 0,
    }
}

/// The refusal's number.
#[inline(always)]
pub fn refused(refusal: Refusal) -> i32
    ensures { result ≡ number_of refusal }
{
    i32::from(refusal.number())
}

/// Stores the answer's number, if it has one.
#[inline(always)]
pub fn store(answer: &Answer, value: &mut u64)
    ensures { value.new ≡ reported_or answer.now value.old }
{
    if let Answer::Value(number) | Answer::Raised(number, _) = answer {
        *value = *number;
    }
}

/// Stores 1 for yes and 0 for no, if the answer is one of these.
#[inline(always)]
pub fn store_if(answer: &Answer, yes: &mut i32)
    ensures { yes.new ≡ yes_or answer.now yes.old }
{
    if let Answer::Value(number) = answer {
        *yes = i32::from(*number == 1);
    }
}

/// Stores file information, as many fences as there is room for, if the answer is one.
pub fn store_info(answer: &Answer, status: &mut i32, rows: &mut [CFenceRow], count: &mut usize)
    ensures { StoresInfo answer.now status.old status.new rows.old rows.new count.old count.new }
{
    if let Answer::Info(info) = answer {
        let fences = info.fences.as_slice();
        *status = info.status.number();
        *count = fences.len();
        put(fences, rows);
    }
}

/// Stores a buffer's table, as many rows as there is room for, if the answer is one.
pub fn store_table(answer: &Answer, rows: &mut [CShowRow], count: &mut usize)
    ensures { StoresTable answer.now rows.old rows.new count.old count.new }
{
    if let Answer::Show(table) = answer {
        let table = table.as_slice();
        *count = table.len();
        put(table, rows);
    }
}

/// Stores a report, as many rows as there is room for, if the answer is one.
pub fn store_report(
    answer: &Answer,
    timelines: &mut [CTimelineRow],
    files: &mut [CFileRow],
    buffers: &mut [CBufferRow],
    counts: &mut RowCounts,
)
    ensures { StoresReport answer.now timelines.old timelines.new files.old files.new
        buffers.old buffers.new counts.old counts.new }
{
    if let Answer::Report(report) = answer {
        let (all_timelines, all_files) = (report.timelines.as_slice(), report.files.as_slice());
        let all_buffers = report.buffers.as_slice();
        *counts = RowCounts {
            timelines: all_timelines.len(),
            files: all_files.len(),
            buffers: all_buffers.len(),
        };
        put(all_timelines, timelines);
        put(all_files, files);
        put(all_buffers, buffers);
    }
}
