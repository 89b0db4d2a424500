//! Tests of the callbacks of one fence.
use crate::tests::values::holds;
use fence_core::{CALLBACKS, CallbackList};
use point_core::{LimitKind, Refusal};
use std::process::Abort;

const LAST: u64 = CALLBACKS as u64;

/// Adds a callback, and checks the answer.
fn add(rt: &impl Abort, list: &mut CallbackList, cookie: u64, wanted: Result<(), Refusal>) {
    holds(rt, list.add(cookie) == wanted);
}

/// Adds as many callbacks as there can be, with the cookies from 1 on.
fn fill(rt: &impl Abort, list: &mut CallbackList) {
    for cookie in 1..=LAST {
        add(rt, list, cookie, Ok(()));
    }
    add(rt, list, 5, Err(Refusal::Exists));
    add(rt, list, LAST + 1, Err(Refusal::Limit(LimitKind::Watches)));
}

/// Checks that the cookies are those from 1 on.
fn check(rt: &impl Abort, cookies: &[u64]) {
    holds(rt, cookies.len() == CALLBACKS);
    let mut wanted = 0u64;
    for cookie in cookies {
        wanted = wanted.saturating_add(1);
        holds(rt, *cookie == wanted);
    }
}

/// Takes the callbacks; they can't be taken again.
fn take(rt: &impl Abort, list: &mut CallbackList) {
    check(rt, list.take().as_slice());
    add(rt, list, 5, Err(Refusal::Signalled));
    holds(rt, list.take().is_empty());
}

#[test]
fn as_many_callbacks_as_there_can_be(rt: HostRuntime) {
    holds(&rt, CALLBACKS == 4096);
    let mut list = CallbackList::new(rt.alloc()).expect(&rt, "a list");
    fill(&rt, &mut list);
    take(&rt, &mut list);
}
