//! Writes bytes until all are written, and buffers output: text is collected up to `WRITE_BYTES` before it is written.
ghost use Rattle.std.specs.Prelude.{◌≡◌, ◌++◌, ◌<◌, [], Err, List, ℕ, OnOk, OnErr, length};
ghost use Rattle.std.specs.Io.KnownBytes.{Appends};
ghost use Rattle.point_core.specs.declared.refusal.Refusal.TheVariants.{Write};
ghost use Rattle.report_core.specs.declared.writing.TheConstants.{WRITE_BYTES};
ghost use Rattle.report_core.specs.Bytes.{AppendsFront};

use point_core::Refusal;
use std::io::Write;

/// Output is collected up to this many bytes before it is written.
pub const WRITE_BYTES: usize = 8192;

const _: () = prove!(WRITE_BYTES == 8192);

/// Writes all of the bytes.
///
/// Fails with Write after a prefix of the bytes was written: a write failed or took no byte. An interrupted write
/// counts as failed.
pub fn write_whole<W: Write>(writer: &mut W, bytes: &[u8]) -> Result<(), Refusal>
    ensures ok { OnOk result (Appends (W.contents writer.old) (W.contents writer.new) bytes.now) }
    ensures refused { OnErr result (result ≡ Err Write) }
    ensures err { OnErr result (AppendsFront (W.contents writer.old) (W.contents writer.new) bytes.now) }
{
    let mut rest = bytes;
    while !rest.is_empty() {
        match writer.write(rest) {
            Ok(0) | Err(_) => return Err(Refusal::Write),
            Ok(count) => rest = &rest[count..],
        }
    }
    Ok(())
}

/// Writes the output if it has `WRITE_BYTES` or more, and clears it.
///
/// Fails as `write_whole`; a prefix was then written, and the output still holds all of its bytes.
pub fn write_many<W: Write>(writer: &mut W, out: &mut Vec<u8>) -> Result<(), Refusal>
    ensures ok { OnOk result ((written : List ℕ) × (out.old.items ≡ written ++ out.new.items)
        × Appends (W.contents writer.old) (W.contents writer.new) written) }
    ensures few { OnOk result (length out.new.items < WRITE_BYTES) }
    ensures refused { OnErr result (result ≡ Err Write) }
    ensures err { OnErr result (AppendsFront (W.contents writer.old) (W.contents writer.new) out.old.items) }
{
    if out.len() >= WRITE_BYTES {
        write_out(writer, out)?;
    }
    Ok(())
}

/// Writes the output, and clears it. Without output there is no write.
///
/// Fails as `write_many`.
pub fn write_out<W: Write>(writer: &mut W, out: &mut Vec<u8>) -> Result<(), Refusal>
    ensures ok { OnOk result ((written : List ℕ) × (out.old.items ≡ written ++ out.new.items)
        × Appends (W.contents writer.old) (W.contents writer.new) written) }
    ensures none { OnOk result (out.new.items ≡ []) }
    ensures refused { OnErr result (result ≡ Err Write) }
    ensures err { OnErr result (AppendsFront (W.contents writer.old) (W.contents writer.new) out.old.items) }
{
    write_whole(writer, out)?;
    out.clear();
    Ok(())
}
