//! `Cause`: why a script is no plan. `mistake.rt` finds it, and `fencectl` writes it behind the line's number.
use thiserror::Error;

/// The most clients of a plan.
pub const PLAN_CLIENTS: usize = 32;

/// The number of the last client, from 0.
pub(crate) const LAST_CLIENT: usize = PLAN_CLIENTS - 1;

/// The most lines that the clients of a plan have together.
pub const PLAN_LINES: usize = 16_384;

/// The most rounds of a `#repeat`.
pub const PLAN_ROUNDS: u32 = 1024;

/// The most lines that the outer `#repeat` of a plan make together, and so the inner ones.
pub const REPEATED_LINES: usize = 65_536;

/// The greatest number of a `#turn`.
pub(crate) const PLAN_TURNS: u32 = 999_999_999;

/// A number of a `#repeat`, of `$+K`, or of a `#turn` has room for a digit while it is below this one.
pub(crate) const GROWING: u32 = 100_000_000;

/// Why a script is no plan, so that nothing of it is explored.
#[derive(Clone, Copy, Debug, Error)]
pub enum Cause {
    #[error("the line is not a command; fencectl explain says why")]
    NoCommand,
    #[error("there is no such directive, only #client, #finally, #await, #once, #mark, #after, #turn, #if, #else, #atomic, \
        #end, #repeat, #reads, #writes and #done; a note has a space after its #")]
    NoDirective,
    #[error("a blank after the # makes this a note; #client, #finally and #await have none")]
    BlankFollows,
    #[error("#client, #mark and #after take one name of 1 to {0} letters, digits, _, . and -")]
    NoName(usize),
    #[error("#reads, #writes and #done take one name of 1 to {0} letters, digits, _, . and -")]
    NoBuffer(usize),
    #[error("#finally, #await, #once, #else, #atomic and #end take no words")]
    WordFollows,
    #[error("#turn takes a number from 1 to {0}")]
    NoTurn(u32),
    #[error("#if takes the first line of an answer")]
    NoText,
    #[error("#repeat takes a number from 1 to {0}")]
    NoRounds(u32),
    #[error("#repeat needs its #end, can be in one other #repeat, and makes {0} lines at most with the others")]
    NotRepeated(usize),
    #[error("there is already a client with this name")]
    NameTaken,
    #[error("a plan can have {0} clients")]
    Clients(usize),
    #[error("the clients can have {0} lines together")]
    Lines(usize),
    #[error("no client can follow #finally")]
    ClientBelowFinally,
    #[error("there is already a #finally")]
    FinallyTwice,
    #[error("#await, #once, #mark, #after and #turn are only allowed in a client's section")]
    AwaitOutside,
    #[error("a command of the client has to follow #await directly")]
    AwaitsNothing,
    #[error("a wait of the client has to follow #once directly")]
    ChecksNothing,
    #[error("a command of the client has to follow #mark, #after and #turn, with only notes on it between")]
    NotesNothing,
    #[error("a line can have one #after and one #turn")]
    NotedTwice,
    #[error("there is already a mark with this name")]
    MarkTaken,
    #[error("there is no #mark with this name")]
    NoMark,
    #[error("the marked line is the client's own")]
    OwnMark,
    #[error("#if, #else, #atomic and #end are only allowed in a client's section")]
    BranchOutside,
    #[error("a command of the client has to be directly above #if")]
    IfBelowNothing,
    #[error("there is no #if around this #else, or an #atomic is between them")]
    ElseOfNothing,
    #[error("a command of the client has to be between #if and #else")]
    ElseBelowIf,
    #[error("there is already an #else of this #if")]
    ElseTwice,
    #[error("there is no #if, #atomic or #repeat above it that this could end")]
    EndsNothing,
    #[error("an #if or #atomic has no #end in its client's section")]
    NotEnded,
    #[error("an #atomic can't be in another one")]
    AtomicInside,
    #[error("a command of the client has to be between #atomic and #end")]
    JoinsNothing,
    #[error("only the first line of an #atomic can wait, since no other client goes before its #end")]
    WaitsInside,
    #[error("#reads, #writes and #done are only allowed in a client's section")]
    AccessOutside,
    #[error("the access has no #done below, in its client's section and its part of a branch, before another access to the buffer")]
    NotDone,
    #[error("a command of the client has to be between #reads or #writes and #done")]
    AccessesNothing,
    #[error("the client does not access this buffer here")]
    DoneNothing,
    #[error("there is no command above it whose answer this could be")]
    ExpectsNothing,
    #[error("report is only allowed above the first client; its rows are in the order of making, which schedules change")]
    Report,
    #[error("watch is only allowed below #finally, since schedules would change the order of callbacks")]
    Watch,
    #[error("a plan can have {0} bytes")]
    Bytes(usize),
    #[error("the plan has no client; #client NAME begins the lines of one")]
    NoClient,
}
