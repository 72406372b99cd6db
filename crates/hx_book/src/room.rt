//! The room in which a book hands its sources back.
ghost use Rattle.std.specs.Prelude.{◌≡◌, ◌≤◌, [], ℕ, IfOk, None, Some, length, map, slice_get, vec_capacity};

use crate::job::Job;
use std::alloc::{AllocError, Global};
use std::marker::PhantomData;

/// An empty list with the room for as many sources as a job has inputs, or places of sources.
#[derive(Drop)]
pub(crate) struct Room<J: Job, X> {
    list: Vec<X>,
    of: PhantomData<J>,
    ghost empty: { list.items ≡ [] },
    ghost wide: { length J.of.origins ≤ vec_capacity list },
}

impl<J: Job, X: Drop> Room<J, X> {
    /// Takes the room.
    pub(crate) fn new(alloc: Global, count: usize) -> Result<Room<J, X>, AllocError>
        requires { length J.of.origins ≤ count }
    {
        let list = Vec::with_capacity(alloc, count)?;
        Ok(Room {
            list,
            of: PhantomData,
        })
    }
}

/// All sources, out of their places. It takes no memory.
pub(crate) fn gather<J: Job, Src: Drop>(room: Room<J, Src>, homes: Vec<Option<Src>>) -> Vec<Src>
    requires count { length homes.items ≡ length J.of.origins }
    requires whole { (n : ℕ) → slice_get homes.items n ≡ Some None → ⊥ }
    ensures { map Some result.items ≡ homes.items }
{
    let mut list = room.list;
    for home in homes {
        match home {
            Some(source) => list.push_reserved(source),
            None => {}
        }
    }
    list
}

/// All sources, each in its place. It takes no memory.
pub(crate) fn house<J: Job, Src: Drop>(
    room: Room<J, Option<Src>>,
    inputs: Vec<Src>,
) -> Vec<Option<Src>>
    requires { length inputs.items ≡ length J.of.origins }
    ensures { result.items ≡ map Some inputs.items }
{
    let mut list = room.list;
    for source in inputs {
        list.push_reserved(Some(source));
    }
    list
}
