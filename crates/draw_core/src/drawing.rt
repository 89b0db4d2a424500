//! `Drawing`: a recorded run and its picture. `fencectl draw` writes it as SVG.
ghost use Rattle.std.specs.Prelude.{◌≡◌, IfErr, IfOk};
ghost use Rattle.point_core.specs.declared.refusal.Refusal.TheVariants.{Memory};
ghost use Rattle.line_core.specs.Script.{script_of};
ghost use Rattle.draw_core.specs.Refused.{HasRefused, drawing_refused};

use crate::fitting::last_lines;
use crate::note::Explain;
use crate::run::Run;
use crate::window::Window;
use picture_core::{History, Picture, picture_of, svg_text};
use point_core::Refusal;
use std::alloc::Global;

/// A run of a script, and its picture.
#[derive(Drop)]
pub struct Drawing {
    run: Run,
    picture: Picture,
}

impl Drawing {
    /// Runs the lines of a script up to the window's last, and draws those in the window, one column for each that has
    /// an answer. Refused lines are drawn too, with an explanation by `reasons`.
    ///
    /// Fails only with `Memory`.
    pub fn of<X: Explain>(
        alloc: Global,
        script: &[u8],
        window: &Window,
        reasons: &mut X,
    ) -> Result<Drawing, Refusal>
        ensures memory { IfErr result (λ e. e ≡ Memory) }
        ensures refused { IfOk result (λ drawing. HasRefused window.now (script_of script.now) (drawing_refused drawing)) }
    {
        let run = Run::of(alloc, script, window, reasons)?;
        let picture = picture_of(alloc, run.history())?;
        Ok(Drawing { run, picture })
    }

    /// Draws the last lines of a script, as many as fit into a picture of that width in pixels.
    ///
    /// Fails only with `Memory`.
    pub fn of_last<X: Explain>(
        alloc: Global,
        script: &[u8],
        width: u64,
        reasons: &mut X,
    ) -> Result<Drawing, Refusal>
        ensures memory { IfErr result (λ e. e ≡ Memory) }
    {
        let window = last_lines(alloc, script, width)?;
        Drawing::of(alloc, script, &window, reasons)
    }

    /// The recorded history.
    pub fn history(&self) -> &History
        ensures { result.now ≡ self.now.run.history }
    {
        self.run.history()
    }

    /// The picture as a complete SVG document.
    ///
    /// Fails only with `Memory`.
    pub fn svg(&self, alloc: Global) -> Result<Vec<u8>, Refusal>
        ensures memory { IfErr result (λ e. e ≡ Memory) }
    {
        svg_text(alloc, &self.picture, self.run.history())
    }
}
