//! A caller of the libraries, to read and copy: it steps a desk through a frame and reads its answers, and it merges
//! sync files while a timeline runs on another thread.
mod frame;
mod running;

use crate::calls::Calls;
use crate::example::frame::draw;
use crate::example::running::merge_beside_a_driver;
use std::thread::Threads;

pub(crate) fn make_calls(rt: &HostRuntime, threads: &impl Threads, calls: &mut Calls) {
    if calls.allows(rt, "draw") {
        let frames = draw(rt.alloc());
        calls.tell(rt, "draw", &frames);
    }
    if calls.allows(rt, "merge_beside_a_driver") {
        let pending = merge_beside_a_driver(threads, rt.alloc());
        calls.tell(rt, "merge_beside_a_driver", &pending);
    }
}
