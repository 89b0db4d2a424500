//! `Command`: one parsed line of a script, its first word, and the names that it makes, closes and looks up. `line_core`
//! makes it, `desk_core` executes it, and `reason_core` explains refusals with its names.
ghost use Rattle.std.specs.Prelude.{◌≡◌};
ghost use Rattle.command_core.specs.Names.{closed_by, looked_up_by, made_by, needed_open_by, word_of};

use point_core::{Name, Usage};

/// A command, with the words of its line in a script. Timelines, files and buffers have separate name spaces.
#[derive(Clone, Copy, Debug, PartialEq, Eq)]
pub enum Command {
    /// `timeline T`: makes a timeline at 0, as libsync's `sw_sync_timeline_create`.
    Timeline(Name),
    /// `inc T N`: adds N to a timeline's value, as libsync's `sw_sync_timeline_inc`, and reports the callbacks that it fires.
    /// Past the greatest u64 it is refused, while the kernel's 32-bit value wraps.
    Inc(Name, u64),
    /// `value T`: reads a timeline's value.
    Value(Name),
    /// `shut T`: closes timeline T, as the close of a sw_sync timeline's descriptor, and reports the callbacks that
    /// this fires. Its pending points are cancelled, and it keeps its value and its name.
    Shut(Name),
    /// `fence F T P`: makes file F of point P on timeline T, as libsync's `sw_sync_fence_create`.
    Fence(Name, Name, u64),
    /// `merge F A B`: makes file F of files A and B, as libsync's `sync_merge`.
    Merge(Name, Name, Name),
    /// `close F`: closes file F, whose name is free again, as the close of a sync file's last descriptor. Files that
    /// were merged from F keep its fences.
    Close(Name),
    /// `wait F`: one check whether file F is signalled, as libsync's `sync_wait` with a timeout of 0.
    Wait(Name),
    /// `info F`: file information, as libsync's `sync_file_info`.
    Info(Name),
    /// `buffer B`: makes buffer B, which is never removed: the kernel's dma-buf with its reservation.
    Buffer(Name),
    /// `add B T P U`: adds a fence of point P on timeline T to buffer B, with usage U, as Linux's `dma_resv_add_fence`.
    Add(Name, Name, u64, Usage),
    /// `import B F FLAGS`: adds the fences of file F to buffer B, as Linux's `DMA_BUF_IOCTL_IMPORT_SYNC_FILE`.
    Import(Name, Name, u32),
    /// `export F B FLAGS`: makes file F of the fences that an access to buffer B has to wait for, as Linux's
    /// `DMA_BUF_IOCTL_EXPORT_SYNC_FILE`.
    Export(Name, Name, u32),
    /// `test B U`: one check whether each fence of buffer B of usage U or a stronger one is signalled, as Linux's
    /// `dma_resv_test_signaled`.
    Test(Name, Usage),
    /// `trim B`: drops from buffer B the fences that no access needs to wait for. The kernel has no such call.
    Trim(Name),
    /// `watch F COOKIE`: registers a callback on the present fence of file F, as Linux's `dma_fence_add_callback`.
    /// Closing F or reusing its name does not affect the callback.
    Watch(Name, u64),
    /// `unwatch COOKIE`: removes the callback of that cookie, as Linux's `dma_fence_remove_callback`.
    Unwatch(u64),
    /// `show B`: the table of buffer B, as Linux's debugfs lists a buffer's reservation.
    Show(Name),
    /// `report`: all timelines, files and buffers.
    Report,
}

/// The kind of object that a name is for: each kind has its own name space.
#[derive(Clone, Copy, Debug, PartialEq, Eq)]
pub enum Space {
    Timeline,
    File,
    Buffer,
}

impl Command {
    /// The first word of its line in a script.
    pub fn word(&self) -> &'static str
        ensures { result.now ≡ word_of self.now }
    {
        match self {
            Command::Timeline(_) => "timeline",
            Command::Inc(_, _) => "inc",
            Command::Value(_) => "value",
            Command::Shut(_) => "shut",
            Command::Fence(_, _, _) => "fence",
            Command::Merge(_, _, _) => "merge",
            Command::Close(_) => "close",
            Command::Wait(_) => "wait",
            Command::Info(_) => "info",
            Command::Buffer(_) => "buffer",
            Command::Add(_, _, _, _) => "add",
            Command::Import(_, _, _) => "import",
            Command::Export(_, _, _) => "export",
            Command::Test(_, _) => "test",
            Command::Trim(_) => "trim",
            Command::Watch(_, _) => "watch",
            Command::Unwatch(_) => "unwatch",
            Command::Show(_) => "show",
            Command::Report => "report",
        }
    }

    /// The name that it makes, if it is accepted. None for a command that makes no object; a watch has no name.
    pub fn made(&self) -> Option<(Space, Name)>
        ensures { result ≡ made_by self.now }
    {
        match self {
            Command::Timeline(name) => Some((Space::Timeline, *name)),
            Command::Fence(name, _, _) => Some((Space::File, *name)),
            Command::Merge(name, _, _) => Some((Space::File, *name)),
            Command::Export(name, _, _) => Some((Space::File, *name)),
            Command::Buffer(name) => Some((Space::Buffer, *name)),
            _ => None,
        }
    }

    /// The name that it closes, if it is accepted, or none. A file's name is free again; a timeline keeps its name.
    pub fn closed(&self) -> Option<(Space, Name)>
        ensures { result ≡ closed_by self.now }
    {
        match self {
            Command::Shut(name) => Some((Space::Timeline, *name)),
            Command::Close(name) => Some((Space::File, *name)),
            _ => None,
        }
    }

    /// The names that it looks up, in the order in which they are reported as missing. None in place of a name that it
    /// doesn't have.
    pub fn looked_up(&self) -> [Option<(Space, Name)>; 2]
        ensures { result ≡ looked_up_by self.now }
    {
        match self {
            Command::Timeline(_) => [None, None],
            Command::Inc(name, _) => [Some((Space::Timeline, *name)), None],
            Command::Value(name) => [Some((Space::Timeline, *name)), None],
            Command::Shut(name) => [Some((Space::Timeline, *name)), None],
            Command::Fence(_, name, _) => [Some((Space::Timeline, *name)), None],
            Command::Merge(_, first, second) => {
                [Some((Space::File, *first)), Some((Space::File, *second))]
            }
            Command::Close(name) => [Some((Space::File, *name)), None],
            Command::Wait(name) => [Some((Space::File, *name)), None],
            Command::Info(name) => [Some((Space::File, *name)), None],
            Command::Buffer(_) => [None, None],
            Command::Add(name, timeline, _, _) => [
                Some((Space::Buffer, *name)),
                Some((Space::Timeline, *timeline)),
            ],
            Command::Import(name, file, _) => {
                [Some((Space::Buffer, *name)), Some((Space::File, *file))]
            }
            Command::Export(_, name, _) => [Some((Space::Buffer, *name)), None],
            Command::Test(name, _) => [Some((Space::Buffer, *name)), None],
            Command::Trim(name) => [Some((Space::Buffer, *name)), None],
            Command::Watch(name, _) => [Some((Space::File, *name)), None],
            Command::Unwatch(_) => [None, None],
            Command::Show(name) => [Some((Space::Buffer, *name)), None],
            Command::Report => [None, None],
        }
    }

    /// The timeline that must be open for it, or none: the other commands accept a closed timeline too.
    pub fn needs_open(&self) -> Option<Name>
        ensures { result ≡ needed_open_by self.now }
    {
        match self {
            Command::Inc(name, _) => Some(*name),
            Command::Shut(name) => Some(*name),
            Command::Fence(_, name, _) => Some(*name),
            _ => None,
        }
    }
}
