//! The name of a file without one of its own, as Linux's `sync_file_get_name` makes it from a fence.
ghost use Rattle.std.specs.Prelude.{◌≡◌, ◌++◌, ◌+◌, ◌≤◌, [], decimal, length};
ghost use Rattle.device_core.specs.declared.naming.TheConstants.{NUMBER_BYTES, KERNEL_NAME_BYTES};
ghost use Rattle.device_core.specs.declared.text.TheConstants.{TEXT_BYTES};
ghost use Rattle.device_core.specs.theorem.Names.{as_text, file_name, kernel_name as kernel_name_of};

use crate::file::File;
use crate::text::{TEXT_BYTES, Text};
use itoa::write_digits;
use std::marker::Model;

/// The most digits of a number of 64 bits.
const NUMBER_BYTES: usize = 20;

/// The most bytes of a name before it is cut: two texts and two numbers, with a byte between.
const KERNEL_NAME_BYTES: usize = 2 * (TEXT_BYTES + 1) + 2 * NUMBER_BYTES;

const _: () = prove!(NUMBER_BYTES == 20);

const _: () = prove!(KERNEL_NAME_BYTES == 106);

/// A name before it is cut. Each part is put before the parts that are there.
#[derive(Drop)]
struct UncutName {
    bytes: [u8; KERNEL_NAME_BYTES],
    start: usize,
}

impl Model for UncutName {
    ghost use Rattle.std.specs.Prelude.{◌≤◌, List, ℕ, drop};
    ghost use Rattle.device_core.specs.declared.naming.TheConstants.{KERNEL_NAME_BYTES};

    ghost Value = { List ℕ };

    ghost view = { λ l. drop l.start l.bytes };

    ghost invariant = { λ l. l.start ≤ KERNEL_NAME_BYTES };
}

impl UncutName {
    fn new() -> UncutName
        ensures { result ≡ [] }
    {
        UncutName {
            bytes: [0; KERNEL_NAME_BYTES],
            start: KERNEL_NAME_BYTES,
        }
    }

    fn put_text(&mut self, text: &[u8])
        requires { length self.old + length text.now ≤ KERNEL_NAME_BYTES }
        ensures text { self.new ≡ text.now ++ self.old }
        ensures len { length self.new ≡ length self.old + length text.now }
    {
        let start = self.start - text.len();
        self.bytes[start..self.start].copy_from_slice(text);
        self.start = start;
    }

    fn put_number(&mut self, number: u64)
        requires { length self.old + NUMBER_BYTES ≤ KERNEL_NAME_BYTES }
        ensures text { self.new ≡ decimal number ++ self.old }
        ensures len { length self.new ≤ length self.old + NUMBER_BYTES }
    {
        self.start = write_digits(number, &mut self.bytes, self.start);
    }

    fn as_bytes(&self) -> &[u8]
        ensures { result.now ≡ self.now }
    {
        &self.bytes[self.start..]
    }
}

/// The name of a fence of this driver, as Linux's `sync_file_get_name` writes it.
fn kernel_name(driver: &[u8], timeline: &[u8], context: u64, point: u64) -> Text
    requires driver { length driver.now ≤ TEXT_BYTES }
    requires timeline { length timeline.now ≤ TEXT_BYTES }
    ensures { result ≡ as_text (kernel_name_of driver.now timeline.now context point) }
{
    let mut name = UncutName::new();
    name.put_number(point);
    name.put_text(b"-");
    name.put_number(context);
    name.put_text(timeline);
    name.put_text(b"-");
    name.put_text(driver);
    Text::of(name.as_bytes())
}

/// The name of the file with this number: the name that it was given, or if that is empty its fence's, as Linux's
/// `sync_file_get_name`. Several fences are an array; its context, which the kernel counts on, is the number of the
/// file here.
pub(crate) fn name_of(number: u64, file: &File) -> Text
    ensures { result ≡ as_text (file_name number file.now) }
{
    let given = file.name.as_bytes();
    if !given.is_empty() {
        return Text::of(given);
    }
    match file.fences.as_slice() {
        [] => kernel_name(b"stub", b"stub", 0, 0),
        [fence] => {
            let point = u64::from(fence.point);
            kernel_name(b"sw_sync", fence.name.as_bytes(), fence.timeline, point)
        }
        _ => kernel_name(b"dma_fence_array", b"unbound", number, 1),
    }
}
