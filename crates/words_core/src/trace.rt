//! Steps and views: the ghost history of a seat. Only contracts use these types, and only proofs have values of them.
use crate::words::Sizes;
use std::collections::LinkedList;

/// The kind of a step.
pub enum StepKind {
    /// Reads the word.
    Load,
    /// Adds the operand to the word.
    Add,
    /// Sets the word from 0 to 1.
    Won,
    /// Finds that the word was set.
    Lost,
    /// Raises the word to the operand, if it is less.
    Raise,
    /// Reads an entry of the board.
    Shown,
    /// Sets the mark of a context from 0 to the operand.
    Shut,
}

/// One step of a seat on one word.
pub struct Step {
    pub kind: StepKind,
    pub word: u64,
    pub operand: u64,
    /// The value that a read found, or that a change left. It is 0 for a word that is set once.
    pub value: u64,
}

/// What a seat knows and has done. A seat with no parts is spent.
pub struct View {
    /// The number of words of each kind.
    pub sizes: Sizes,
    pub parts: u64,
    /// The steps that its parent knew when it was parted.
    pub start: LinkedList<Step>,
    /// Its own steps.
    pub trace: LinkedList<Step>,
}
