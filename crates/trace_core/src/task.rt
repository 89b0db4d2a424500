//! `TaskName`: the name of a task, of the kernel's fixed length, so that a wait is a `Copy` value.
ghost use Rattle.std.specs.Prelude.{◌≡◌, ◌==◌, position};
ghost use Rattle.trace_core.specs.Task.{before_zero, task_name};

/// The bytes that a task's name has at most in a trace.
pub const TASK_BYTES: usize = 16;

/// The name of a task.
#[derive(Clone, Copy)]
pub struct TaskName {
    bytes: [u8; TASK_BYTES],
}

impl TaskName {
    /// The name, cut to `TASK_BYTES` bytes, and at a 0.
    pub fn new(name: &[u8]) -> TaskName {
        let mut bytes = [0; TASK_BYTES];
        for (place, byte) in name.iter().enumerate() {
            if place < TASK_BYTES {
                bytes[place] = *byte;
            }
        }
        TaskName { bytes }
    }

    /// The bytes of the name.
    pub fn as_bytes(&self) -> &[u8]
        ensures name { result.now ≡ task_name self.now }
    {
        before_zero(&self.bytes)
    }
}

/// The bytes up to a 0.
fn before_zero(bytes: &[u8]) -> &[u8]
    ensures before { result.now ≡ before_zero bytes.now }
{
    let count = first_zero(bytes).unwrap_or(bytes.len());
    &bytes[..count]
}

fn first_zero(bytes: &[u8]) -> Option<usize>
    ensures place { result ≡ position (λ byte. byte == 0) bytes.now }
{
    bytes.iter().position(|byte| *byte == 0)
}
