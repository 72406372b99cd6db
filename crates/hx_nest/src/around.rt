//! The pixels round a pixel, as a short ascending list.
ghost use Rattle.std.specs.Prelude.{◌≡◌, ◌↔◌, ◌+◌, ◌<◌, ◌≤◌, [], Contains, IsTrue, length, slice_index, take};
ghost use Rattle.std.specs.List.{insert, AllWithin};
ghost use Rattle.hx_nest.specs.Lists.{Ascends, Adds};

use std::marker::Model;

/// At most eight pixels, ascending. It is seen as the list of their numbers.
#[derive(Debug, Drop)]
pub struct Around {
    pixels: [u64; 8],
    count: u8,
}

impl Model for Around {
    ghost use Rattle.std.specs.Prelude.{List, ℕ, take, ◌≤◌};

    ghost Value = { List ℕ };

    ghost view = { λ around. take around.count around.pixels };

    ghost invariant = { λ around. around.count ≤ 8 };
}

// How many of the ascending pixels are below one.
fn index_of(pixels: &[u64], pixel: u64) -> usize
    requires { Ascends pixels.now }
    ensures within { result ≤ length pixels.now }
    ensures before { AllWithin (λ other. other < pixel) pixels.now 0 result }
    ensures after { AllWithin (λ other. pixel ≤ other) pixels.now result (length pixels.now) }
{
    pixels.partition_point(|&other| other < pixel)
}

// Puts a pixel at a index of the first ones, and those from there on one index later.
fn put_at(pixels: &mut [u64; 8], count: usize, index: usize, pixel: u64)
    requires room { count < 8 }
    requires index { index ≤ count }
    ensures { take (count + 1) pixels.new ≡ insert (take count pixels.old) index pixel }
{
    pixels[count] = pixel;
    pixels[index..count + 1].rotate_right(1);
}

impl Around {
    pub(crate) fn new() -> Around
        ensures { result ≡ [] }
    {
        Around {
            pixels: [0; 8],
            count: 0,
        }
    }

    // Puts a pixel at its index, if it isn't there already.
    pub(crate) fn insert(&mut self, pixel: u64)
        requires ascending { Ascends self.old }
        requires room { length self.old < 8 }
        ensures { Adds pixel self.old self.new }
    {
        let count = self.count as usize;
        let index = index_of(&self.pixels[..count], pixel);
        if index == count || self.pixels[index] != pixel {
            put_at(&mut self.pixels, count, index, pixel);
            self.count += 1;
        }
    }

    // Whether a pixel is one of them.
    pub(crate) fn contains(&self, pixel: u64) -> bool
        ensures { IsTrue result ↔ Contains self.now pixel }
    {
        self.pixels[..self.count as usize].contains(&pixel)
    }

    /// How many pixels there are.
    pub fn count(&self) -> u8
        ensures value { result ≡ length self.now }
        ensures range { result ≤ 8 }
    {
        self.count
    }

    /// One of them, from 0.
    pub fn get(&self, i: u8) -> u64
        requires { i < length self.now }
        ensures { result ≡ slice_index self.now i }
    {
        self.pixels[i as usize]
    }
}
