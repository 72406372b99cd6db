ghost use Rattle.std.specs.Prelude.{◌≡◌, ◌+◌, ◌*◌, ◌<◌, ◌≤◌, ◌^◌, ◌++◌, [], length, OnOk, IfSome};
ghost use Rattle.std.specs.Option.{option_map, option_or};
ghost use Rattle.hx_pqread.specs.Levels.{IsWithin};
ghost use Rattle.hx_pqread.specs.Numbers.{size, numbers_at};
ghost use Rattle.hx_pqread.specs.Keeping.{Keeps};

use crate::levels::Told;
use crate::numbers::push_numbers;
use std::alloc::{AllocError, Global};

/// What is kept of a column's values.
#[derive(Drop)]
pub struct Kept {
    /// The numbers of the values that are there.
    pub numbers: Vec<i64>,
    /// How many values there are, with those that are absent.
    pub count: u64,
    /// The row of the first absent value, from 1.
    pub absent: Option<u64>,
}

impl Kept {
    /// What is kept of no values.
    pub fn new(alloc: Global) -> Kept
        ensures { Keeps [] result }
    {
        Kept {
            numbers: Vec::new(alloc),
            count: 0,
            absent: None,
        }
    }

    /// Keeps the values of a page, of which its levels say this, and of which those that are there have these numbers.
    pub fn keep(&mut self, told: Told, is_wide: bool, numbers: &[u8]) -> Result<(), AllocError>
        requires within { IsWithin told }
        requires few { self.old.count + told.count < 2 ^ 64 }
        requires whole { told.given * size is_wide ≤ length numbers.now }
        ensures numbers { OnOk result (self.new.numbers.items ≡ self.old.numbers.items ++ numbers_at is_wide told.given numbers.now) }
        ensures count { OnOk result (self.new.count ≡ self.old.count + told.count) }
        ensures absent { OnOk result (self.new.absent ≡ option_or self.old.absent (option_map (λ index. self.old.count + index + 1) told.absent)) }
    {
        push_numbers(&mut self.numbers, is_wide, told.given, numbers)?;
        if self.absent.is_none() {
            if let Some(index) = told.absent {
                self.absent = Some(self.count + index as u64 + 1);
            }
        }
        self.count += told.count as u64;
        Ok(())
    }
}
