//! `Span` and `Stage`: a window of a trace's time, and where a reading is: before the window, within it or past it.
//! A stage never goes back, though times may: `Stage::after` upholds that, and `reading` calls it once for each event.
ghost use Rattle.std.specs.Prelude.{◌≡◌, ◌≤◌, ◌^◌, ◌-◌, IfSome, option_map};
ghost use Rattle.trace_core.specs.Window.{is_over, span_of, stage_after, time_or, within};

use crate::number::time_spelled;

/// A window of a trace's time, in microseconds, both ends within.
#[derive(Clone, Copy)]
pub struct Span {
    pub from: u64,
    pub to: u64,
}

impl Span {
    /// The window between two times in seconds, each with up to six decimals, or from the beginning or up to the end where none is
    /// given. None where a text is no time, or the window would end before it begins.
    pub fn read(from: Option<&str>, to: Option<&str>) -> Option<Span>
        ensures read { result ≡ span_of (time_or 0 (option_map (λ t. t.now) from.entry))
            (time_or (2 ^ 64 - 1) (option_map (λ t. t.now) to.entry)) }
        ensures order { IfSome result (λ span. span.from ≤ span.to) }
    {
        let from = time_or(from, 0)?;
        let to = time_or(to, u64::MAX)?;
        if from <= to {
            Some(Span { from, to })
        } else {
            None
        }
    }
}

/// The time that a text spells, or the other one where there is none.
fn time_or(text: Option<&str>, other: u64) -> Option<u64>
    ensures time { result ≡ time_or other (option_map (λ t. t.now) text.entry) }
{
    match text {
        Some(text) => time_spelled(text.as_bytes()),
        None => Some(other),
    }
}

/// Where a reading of a trace is: before its window, within it or after it.
#[derive(Clone, Copy, PartialEq, Eq)]
pub enum Stage {
    Before,
    Within,
    After,
}

impl Stage {
    /// The stage after an event at `time`. Times may step back, but a window that began stays open, and a window that ended is
    /// over.
    #[tactic(auto, unfolding(crate::specs::Window::stage_after))]
    pub fn after(self, span: Span, time: u64) -> Stage
        ensures { result ≡ stage_after span time self }
    {
        match self {
            Stage::Before => {
                if time < span.from {
                    Stage::Before
                } else {
                    within(span, time)
                }
            }
            Stage::Within => within(span, time),
            Stage::After => Stage::After,
        }
    }

    /// Whether the window is over.
    pub(crate) fn is_over(self) -> bool
        ensures { result ≡ is_over self }
    {
        matches!(self, Stage::After)
    }
}

/// Window state after an event at `time`.
fn within(span: Span, time: u64) -> Stage
    ensures { result ≡ within span time }
{
    if time > span.to {
        Stage::After
    } else {
        Stage::Within
    }
}
