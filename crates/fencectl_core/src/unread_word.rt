//! Reports a command line that is not UTF-8. `script_runner` calls it too.
ghost use Rattle.std.specs.Prelude.{◌≡◌, ◌⊎◌, IfErr, IfOk};
ghost use Rattle.point_core.specs.declared.refusal.Refusal.TheVariants.{Write as WriteFault, Memory};

use crate::fault::FAULT;
use point_core::Refusal;
use std::io;

/// Reports that the words of the command line could not be read, which is wrong usage if one is not UTF-8.
///
/// Fails with `Memory` if there was no memory for them, and with `Write` if the report could not be printed.
pub fn report_unread_word(rt: &impl Eprint, error: io::Error) -> Result<u8, Refusal>
    ensures status { IfOk result (λ status. status ≡ 2) }
    ensures refusals { IfErr result (λ refusal. (refusal ≡ WriteFault) ⊎ (refusal ≡ Memory)) }
{
    if error.kind() == io::ErrorKind::OutOfMemory {
        return Err(Refusal::Memory);
    }
    eprintln!(rt;
        "error: a command-line argument is not valid UTF-8\n\nFor more information, try '--help'."
    ).map_err(|_| Refusal::Write)?;
    Ok(FAULT)
}
