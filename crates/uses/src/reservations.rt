//! Calls on a reservation.
ghost use Rattle.std.specs.Prelude.{◌≤◌};

use crate::calls::{Calls, point, reach_at};
use point_core::{Point, Reach, Usage};
use resv_core::Resv;

pub(crate) fn make_calls(rt: &HostRuntime, calls: &mut Calls) {
    if let Ok(mut resv) = Resv::new(rt.alloc()) {
        add_and_list(rt, calls, &mut resv);
        drop(resv);
    }
}

fn add_and_list(rt: &HostRuntime, calls: &mut Calls, resv: &mut Resv) {
    reserve(rt, calls, resv, 2);
    add(rt, calls, resv, point(0, 9), Usage::Read);
    reserve(rt, calls, resv, 1);
    add(rt, calls, resv, point(0, 5), Usage::Kernel);
    collect(rt, calls, resv, Usage::Write, 0);
    collect(rt, calls, resv, Usage::Read, 0);
    collect(rt, calls, resv, Usage::Read, 9);
    if calls.allows(rt, "table") {
        calls.tell(rt, "table", &resv.table(&Reach::zero()));
    }
    calls.tell(rt, "test", &resv.test(Usage::Write, &reach_at(5)));
    calls.tell(rt, "test", &resv.test(Usage::Read, &reach_at(5)));
}

fn reserve(rt: &HostRuntime, calls: &mut Calls, resv: &mut Resv, places: usize)
    requires few { places ≤ 2 }
{
    if calls.allows(rt, "reserve") {
        let reserved = resv.reserve(places, &Reach::zero());
        calls.tell(rt, "reserve", &reserved);
    }
}

/// Adds a fence, if there is room for it.
fn add(rt: &HostRuntime, calls: &mut Calls, resv: &mut Resv, point: Point, usage: Usage) {
    let has_room = resv.room() > 0;
    if has_room {
        resv.add(point, usage, &Reach::zero());
    }
    calls.tell(rt, "add", &has_room);
}

fn collect(rt: &HostRuntime, calls: &mut Calls, resv: &Resv, usage: Usage, value: u64) {
    if calls.allows(rt, "collect") {
        let points = resv.collect(usage, &reach_at(value));
        calls.tell(rt, "collect", &points);
    }
}
