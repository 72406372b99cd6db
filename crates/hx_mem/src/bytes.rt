ghost use Rattle.std.specs.Prelude.{◌≡◌, ◌++◌, [], length, take, OnOk, OnErr, IfOk};
ghost use Rattle.hx_outside.specs.Folders.{set_at};

use crate::dice::Dice;
use std::alloc::{AllocError, Global};
use std::marker::Model;

/// Bytes, seen as their list.
#[derive(Drop)]
pub struct Bytes {
    items: Vec<u8>,
}

impl Model for Bytes {
    ghost use Rattle.std.specs.Prelude.{ℕ, List};

    ghost Value = { List ℕ };

    ghost view = { λ bytes. bytes.items.items };
}

impl Bytes {
    pub fn new(alloc: Global) -> Bytes
        ensures { result ≡ [] }
    {
        Bytes {
            items: Vec::new(alloc),
        }
    }

    pub fn copied(alloc: Global, bytes: &[u8]) -> Result<Bytes, AllocError>
        ensures { IfOk result (λ copy. copy ≡ bytes.now) }
    {
        Ok(Bytes {
            items: bytes.to_vec(alloc)?,
        })
    }

    pub fn as_slice(&self) -> &[u8]
        ensures { result.now ≡ self.now }
    {
        self.items.as_slice()
    }

    /// How many bytes there are.
    pub fn len(&self) -> u64
        ensures { result ≡ length self.now }
    {
        self.items.len() as u64
    }

    /// Adds bytes at the end.
    pub fn append(&mut self, bytes: &[u8]) -> Result<(), AllocError>
        ensures ok { OnOk result (self.new ≡ self.old ++ bytes.now) }
        ensures err { OnErr result (self.new ≡ self.old) }
    {
        self.items.extend_from_slice(bytes)
    }

    /// Sets one byte, where there is that place.
    pub fn set(&mut self, at: u64, value: u8)
        ensures { self.new ≡ set_at at value self.old }
    {
        if at < self.items.len() as u64 {
            self.items[at as usize] = value;
        }
    }

    /// Leaves the first bytes, as many as are said.
    pub fn cut(&mut self, len: u64)
        ensures { self.new ≡ take len self.old }
    {
        if len < self.items.len() as u64 {
            self.items.truncate(len as usize);
        }
    }

    /// Leaves the bytes from a place on as they are, or puts others in their place.
    pub fn stir(&mut self, dice: &mut Dice, from: u64)
        ensures front { take from self.new ≡ take from self.old }
        ensures long { length self.new ≡ length self.old }
    {
        if dice.is_first() {
            return;
        }
        for at in from..self.items.len() as u64 {
            self.items[at as usize] = dice.byte(self.items[at as usize]);
        }
    }
}
