//! What the calls on a book hand out.
use hx_base::{Refusal, Task};
use std::marker::PhantomData;

/// A book that wasn't opened: why, and what it was given.
#[derive(Drop)]
pub struct Back<Src, S> {
    pub refusal: Refusal,
    pub inputs: Vec<Src>,
    pub store: S,
}

/// A task that a worker holds, with the source of its input where it is a map or a split.
#[derive(Drop)]
pub struct Claimed<Src> {
    pub task: Task,
    pub source: Option<Src>,
}

/// What a worker gets when it asks for a task.
#[derive(Drop)]
pub enum Claim<Src> {
    /// A task.
    Take(Claimed<Src>),
    /// None is ready, and another worker holds one.
    Idle,
    /// A refusal is kept.
    Stopped,
    /// All tasks are recorded.
    Done,
}

/// That a task is recorded in the journal of a job, at this place.
#[derive(Drop)]
pub struct Receipt<J> {
    pub number: u64,
    pub task: Task,
    pub of: PhantomData<J>,
}

/// A refusal that is kept, with its task's number.
#[derive(Clone, Copy, Debug, PartialEq, Eq)]
pub struct Kept {
    pub number: u32,
    pub refusal: Refusal,
}

/// An import that came to its end: why it was refused, or how many rows, partitions and rows of margins there are; and what
/// the book was given.
#[derive(Drop)]
pub struct Closed<Src, S> {
    pub refusal: Option<Refusal>,
    pub rows: u64,
    pub partitions: u32,
    pub margin: u64,
    pub inputs: Vec<Src>,
    pub store: S,
}
