//! Reports the fault that ends a run, as `fencectl: NUMBER NAME`.
ghost use Rattle.std.specs.Prelude.{◌≡◌, OnOk, OnErr};
ghost use Rattle.std.specs.Io.KnownBytes.{Appends};
ghost use Rattle.report_core.specs.Bytes.{AppendsFront};
ghost use Rattle.fencectl_core.specs.Fault.{fault_text};

use itoa::Buffer;
use point_core::Refusal;
use report_core::write_whole;
use std::io::Write;

/// The status of a fault: the command line was wrong, or reading, writing or memory failed.
pub const FAULT: u8 = 2;

/// Writes `fencectl: NUMBER NAME` and a line feed, whatever becomes of the write, and gives the status of a fault. If
/// a write fails, a prefix of the line is written.
pub fn tell_fault<W: Write>(refusal: &Refusal, writer: &mut W) -> u8
    ensures status { result ≡ 2 }
    ensures written { AppendsFront (W.contents writer.old) (W.contents writer.new) (fault_text refusal.now) }
{
    let _ = write_fault(*refusal, writer);
    FAULT
}

/// Fails with Write after a prefix of the line.
fn write_fault<W: Write>(refusal: Refusal, writer: &mut W) -> Result<(), Refusal>
    ensures ok { OnOk result (Appends (W.contents writer.old) (W.contents writer.new) (fault_text refusal)) }
    ensures err { OnErr result
        (AppendsFront (W.contents writer.old) (W.contents writer.new) (fault_text refusal)) }
{
    let mut number = Buffer::new();
    write_whole(writer, b"fencectl: ")?;
    write_whole(writer, number.format(refusal.number()).as_bytes())?;
    write_whole(writer, b" ")?;
    write_whole(writer, refusal.name().as_bytes())?;
    write_whole(writer, b"\n")?;
    Ok(())
}
