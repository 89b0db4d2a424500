//! Calls of `timeline_core`, on two timelines.
use crate::calls::{Calls, name};
use point_core::{Context, Name, Point, Reach, Refusal};
use timeline_core::Timelines;

pub(crate) fn make_calls(rt: &HostRuntime, calls: &mut Calls) {
    if let Ok(mut timelines) = Timelines::new(rt.alloc()) {
        name_and_advance(rt, calls, &mut timelines);
        drop(timelines);
    }
}

/// Makes two timelines and refuses a third of a known name, raises the second, looks at both, and closes the second.
fn name_and_advance(rt: &HostRuntime, calls: &mut Calls, timelines: &mut Timelines) {
    let (a, b, z) = (name(b'a'), name(b'b'), name(b'z'));
    create(rt, calls, timelines, a);
    create(rt, calls, timelines, b);
    create(rt, calls, timelines, a);
    calls.tell(rt, "inc", &timelines.inc(&b, 3));
    calls.tell(rt, "inc", &timelines.inc(&z, 1));
    calls.tell(rt, "value", &timelines.value(&b));
    show(rt, calls, timelines, &b);
    if calls.allows(rt, "rows") {
        calls.tell(rt, "rows", &timelines.rows());
    }
    shut(rt, calls, timelines, &b);
}

fn create(rt: &HostRuntime, calls: &mut Calls, timelines: &mut Timelines, timeline: Name) {
    if calls.allows(rt, "create") {
        let context = timelines.create(timeline);
        calls.tell(rt, "create", &context);
    }
}

/// The reach of both timelines, the context of one by its name, and the names of three contexts.
fn show(rt: &HostRuntime, calls: &mut Calls, timelines: &Timelines, timeline: &Name) {
    let reach = timelines.reach();
    calls.tell(rt, "reach", &[reach.at(0), reach.at(1), reach.at(2)]);
    calls.tell(rt, "context", &timelines.context(timeline));
    for place in 0..3 {
        match timelines.name(Context::at(place)) {
            Some(name) => calls.tell(rt, "name", &name.as_bytes()),
            None => calls.tell(rt, "name", &Refusal::NoEntry),
        }
    }
}

/// The reach after one more increment, before and after the timeline is closed. A closed one keeps its value, and is never
/// incremented.
fn shut(rt: &HostRuntime, calls: &mut Calls, timelines: &mut Timelines, timeline: &Name) {
    raised(rt, calls, timelines, timeline);
    calls.tell(rt, "shut", &timelines.shut(timeline));
    calls.tell(rt, "shut", &timelines.shut(timeline));
    calls.tell(rt, "inc", &timelines.inc(timeline, 1));
    calls.tell(rt, "value", &timelines.value(timeline));
    raised(rt, calls, timelines, timeline);
    copies(rt, calls, timelines);
}

/// The status of a point of the first timeline before and after its clock closes, and the joined reach of that closed
/// context and of both timelines.
fn copies(rt: &HostRuntime, calls: &mut Calls, timelines: &Timelines) {
    let ctx = Context::at(0);
    let clocks = timelines.clocks();
    let open = clocks.status(late_point(ctx));
    calls.tell(rt, "clocks", &open);
    let shut = clocks.shut(ctx).status(late_point(ctx));
    calls.tell(rt, "Clocks::shut", &shut);
    let closed = Reach::zero().shut(ctx);
    calls.tell(rt, "Reach::shut", &[closed.at(0), closed.at(1)]);
    let joined = closed.joined(&timelines.reach());
    calls.tell(rt, "joined", &[joined.at(0), joined.at(1)]);
}

/// A point that its timeline has not reached.
fn late_point(ctx: Context) -> Point {
    Point { ctx, value: 7 }
}

fn raised(rt: &HostRuntime, calls: &mut Calls, timelines: &Timelines, timeline: &Name) {
    if let Some(ctx) = timelines.context(timeline) {
        match timelines.reach().raised(ctx, 1) {
            Some(reach) => calls.tell(rt, "raised", &reach.get(ctx)),
            None => calls.tell(rt, "raised", &Refusal::Overflow),
        }
    }
}
