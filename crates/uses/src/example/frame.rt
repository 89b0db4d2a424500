//! One frame of a compositor, on a desk: all of the service on one thread.
ghost use Rattle.std.specs.Prelude.{◌≡◌, ◌↔◌, List, [], ◌∷◌, ◌++◌, true, IfOk, OnOk};
ghost use Rattle.command_core.specs.declared.command.Command.{Command};
ghost use Rattle.desk_core.specs.theorem.Answer.{is_signalled};
ghost use Rattle.desk_core.specs.theorem.Desk.{HasHistory};
ghost use Rattle.desk_core.specs.theorem.History.{world_of};

use command_core::{Answer, Command};
use desk_core::Desk;
use point_core::{Name, Refusal, Usage};
use std::alloc::Global;

/// The state of a frame at a refresh of the display.
#[derive(Clone, Copy, Debug)]
pub enum Frame {
    /// It is drawn, and may be shown.
    Shown,
    /// Its buffer may not be read yet.
    Late,
}

/// The sync flag of a read, as `DMA_BUF_SYNC_READ`.
const READ: u32 = 1;

/// A renderer draws a frame into a buffer, and a display asks whether it may show it: once before the renderer's job
/// ends, and once after it.
pub fn draw(alloc: Global) -> Result<(Frame, Frame), Refusal>
    ensures { IfOk result (λ frames. (frames.0 ≡ Frame.Late) × (frames.1 ≡ Frame.Shown)) }
{
    let mut desk = Desk::new(alloc)?;
    let frames = draw_on(&mut desk);
    drop(desk);
    frames
}

/// Takes the desk by reference, so that nothing is dropped when it ends early, which keeps its proof short.
fn draw_on(desk: &mut Desk) -> Result<(Frame, Frame), Refusal>
    requires { HasHistory desk.old [] }
    ensures { IfOk result (λ frames. (frames.0 ≡ Frame.Late) × (frames.1 ≡ Frame.Shown)) }
{
    let gpu = name(b"gpu")?;
    let buffer = name(b"buffer")?;
    let drawn = name(b"drawn")?;
    accept(desk, Command::Timeline(gpu))?;
    accept(desk, Command::Buffer(buffer))?;
    // The renderer's job writes the buffer, and ends at point 1 of its timeline.
    accept(desk, Command::Add(buffer, gpu, 1, Usage::Write))?;
    // The display gets a file of the fences for which a reader has to wait.
    accept(desk, Command::Export(drawn, buffer, READ))?;
    let early = refresh(desk, drawn)?;
    // The job ends.
    accept(desk, Command::Inc(gpu, 1))?;
    Ok((early, refresh(desk, drawn)?))
}

/// Shows a frame if its file is signalled: after any commands, exactly if all points that were ever put into the file
/// are reached.
fn refresh(desk: &mut Desk, file: Name) -> Result<Frame, Refusal>
    ensures shown { (history : List Command) → HasHistory desk.old history →
        IfOk result (λ frame. (frame ≡ Frame.Shown) ↔ (is_signalled (world_of history) file ≡ true)) }
    ensures late { result ≡ Ok Frame.Late → desk.new ≡ desk.old }
{
    match desk.step(Command::Wait(file)) {
        Answer::Refused(Refusal::TimedOut) => Ok(Frame::Late),
        Answer::Refused(refusal) => Err(refusal),
        _ => Ok(Frame::Shown),
    }
}

/// Steps the desk. Fails if the answer is a refusal; any other answer is accepted.
fn accept(desk: &mut Desk, command: Command) -> Result<(), Refusal>
    ensures { OnOk result ((history : List Command) →
        HasHistory desk.old history → HasHistory desk.new (history ++ command ∷ [])) }
{
    match desk.step(command) {
        Answer::Refused(refusal) => Err(refusal),
        _ => Ok(()),
    }
}

fn name(bytes: &[u8]) -> Result<Name, Refusal>
    ensures { IfOk result (λ name. name ≡ bytes.now) }
{
    Name::read(bytes).ok_or(Refusal::Syntax)
}
