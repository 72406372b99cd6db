ghost use Rattle.std.specs.Prelude.{◌≡◌, ◌↔◌, ◌+◌, ◌-◌, ◌<◌, ◌≤◌, ◌^◌, pos, ◌≤ℤ◌};
ghost use Rattle.std.specs.Prelude.{length, IfOk, IfSome, IsTrue, FitsSigned};
ghost use Rattle.std.specs.Int.{w16, w32};
ghost use Rattle.hx_thrift.specs.Texts.{Text, Answers, Moves, Passes, rest_of};
ghost use Rattle.hx_thrift.specs.Kinds.{IsKind, is_kind, part_kind, is_id, unzigzag, max_zigzag};
ghost use Rattle.hx_thrift.specs.Reading.{byte_at, bytes_at, varint_at, number_at, int_at, binary_at};
ghost use Rattle.hx_thrift.specs.Reading.{own_id_at, id_at, field_at, size_at, list_at, elements_at};
ghost use Rattle.hx_thrift.specs.Reading.{struct_at, sequence_at, pair_at, pairs_at, map_at, leaf_at, value_at};

use crate::header::{Field, ListHead};
use crate::kind::{I16, I32, MAP, STRUCT};
use crate::refusal::ThriftRefusal;
use std::marker::Model;

// The greatest length of a binary, and size of a list, set or map.
const MAX_SIZE: u64 = 0x7fff_ffff;

// The greatest tenth group of a varint: nine groups have 63 bits.
const LAST_GROUP: u8 = 1;

/// A reader over the bytes from a place on, for instance of a file.
///
/// A call that refuses leaves it where it stood. No call takes memory.
#[derive(Drop)]
pub struct Reader<'a> {
    ahead: &'a [u8],
    at: u64,
}

impl<'a> Model for Reader<'a> {
    ghost Value = { Text };

    ghost view = { λ reader. record { at = reader.at; bytes = reader.ahead.now } };

    ghost invariant = { λ reader. reader.at + length reader.ahead.now < 2 ^ 64 };
}

impl<'a> Reader<'a> {
    /// Reads from `bytes`, the first of which stands at the place `base`.
    pub fn new(bytes: &'a [u8], base: u64) -> Reader<'a>
        requires { base + length bytes.now < 2 ^ 64 }
        ensures { result ≡ record { at = base; bytes = bytes.now } }
    {
        Reader {
            ahead: bytes,
            at: base,
        }
    }

    /// The place of the next byte.
    pub fn place(&self) -> u64
        ensures { result ≡ self.now.at }
    {
        self.at
    }

    /// How many bytes are left.
    pub fn remaining(&self) -> usize
        ensures { result ≡ length self.now.bytes }
    {
        self.ahead.len()
    }

    /// Another reader that stands at the same place. Reading from one doesn't move the other.
    pub fn fork(&self) -> Reader<'a>
        ensures { result ≡ self.now }
    {
        Reader {
            ahead: self.ahead,
            at: self.at,
        }
    }

    // The next byte, of an item that begins at `start`, and the reader behind it.
    fn peek_byte(&self, start: u64) -> Result<(u8, Reader<'a>), ThriftRefusal>
        ensures { Answers (λ x. (x.0, x.1)) result (byte_at start self.now) }
    {
        match self.ahead {
            [] => Err(ThriftRefusal::Short { at: start }),
            [byte, ahead @ ..] => Ok((
                *byte,
                Reader {
                    ahead,
                    at: self.at + 1,
                },
            )),
        }
    }

    // The next `len` bytes, of an item that begins at `start`, and the reader behind them.
    fn peek_bytes(&self, start: u64, len: usize) -> Result<(&'a [u8], Reader<'a>), ThriftRefusal>
        ensures { Answers (λ x. (x.0.now, x.1)) result (bytes_at start len self.now) }
    {
        if self.ahead.len() < len {
            return Err(ThriftRefusal::Short { at: start });
        }
        let (bytes, ahead) = self.ahead.split_at(len);
        Ok((
            bytes,
            Reader {
                ahead,
                at: self.at + len as u64,
            },
        ))
    }

    // At most ten groups of seven bits, the least first, that make a number below 2^64, and the reader behind them.
    // The like for other items follow.
    fn peek_varint(&self) -> Result<(u64, Reader<'a>), ThriftRefusal>
        ensures { Answers (λ x. (x.0, x.1)) result (varint_at self.now) }
    {
        let mut number: u64 = 0;
        let mut scale: u64 = 1;
        let mut ahead = self.fork();
        for _ in 0..9u8 {
            let (group, rest) = ahead.peek_byte(self.at)?;
            number += (group % 128) as u64 * scale;
            if group < 128 {
                return Ok((number, rest));
            }
            scale *= 128;
            ahead = rest;
        }
        let (group, rest) = ahead.peek_byte(self.at)?;
        if group <= LAST_GROUP {
            Ok((number + group as u64 * scale, rest))
        } else {
            Err(ThriftRefusal::Overlong { at: self.at })
        }
    }

    // A varint up to `most`.
    #[tactic(auto, unfolding(crate::specs::Reading::number_at))]
    fn peek_number(&self, most: u64) -> Result<(u64, Reader<'a>), ThriftRefusal>
        ensures range { IfOk result (λ x. x.0 ≤ most) }
        ensures value { Answers (λ x. (x.0, x.1)) result (number_at most self.now) }
    {
        let (number, rest) = self.peek_varint()?;
        if number <= most {
            Ok((number, rest))
        } else {
            Err(ThriftRefusal::Overlong { at: self.at })
        }
    }

    // The id that stands behind a header.
    #[tactic(auto, unfolding(crate::specs::Reading::own_id_at))]
    fn peek_own_id(&self) -> Result<(i16, Reader<'a>), ThriftRefusal>
        ensures range { IfOk result (λ x. pos 0 ≤ℤ x.0) }
        ensures value { Answers (λ x. (x.0, x.1)) result (own_id_at self.now) }
    {
        let (number, rest) = self.peek_varint()?;
        let id = signed(number);
        if is_id(id) {
            Ok((id as i16, rest))
        } else {
            Err(ThriftRefusal::Overlong { at: self.at })
        }
    }

    // The id of the header at `start`, by its step from the last one or, where that is 0, of its own.
    #[tactic(auto, unfolding(crate::specs::Reading::id_at))]
    fn peek_id(&self, start: u64, last: i16, step: u8) -> Result<(i16, Reader<'a>), ThriftRefusal>
        ensures range { IfOk result (λ x. pos 0 ≤ℤ x.0) }
        ensures value { Answers (λ x. (x.0, x.1)) result (id_at start last step self.now) }
    {
        if step == 0 {
            return self.peek_own_id();
        }
        let id = i64::from(last) + i64::from(step);
        if is_id(id) {
            Ok((id as i16, self.fork()))
        } else {
            Err(ThriftRefusal::Overlong { at: start })
        }
    }

    // The size that a list's header gives, or that follows where the header says 15.
    fn peek_size(&self, short: u8) -> Result<(u32, Reader<'a>), ThriftRefusal>
        requires { short < 16 }
        ensures range { IfOk result (λ x. x.0 < 2 ^ 31) }
        ensures value { Answers (λ x. (x.0, x.1)) result (size_at short self.now) }
    {
        if short == 15 {
            let (size, rest) = self.peek_number(MAX_SIZE)?;
            Ok((size as u32, rest))
        } else {
            Ok((u32::from(short), self.fork()))
        }
    }

    /// Reads a varint: at most ten groups of seven bits, the least first, that make a number below 2^64.
    pub fn varint(&mut self) -> Result<u64, ThriftRefusal>
        ensures { Moves (λ number. number) self.old self.new result (varint_at self.old) }
    {
        let (number, rest) = self.peek_varint()?;
        *self = rest;
        Ok(number)
    }

    /// Reads the header of the field behind the one with the id `last`, which is 0 at the start of a struct.
    /// The answer is `None` exactly at a stop.
    ///
    /// An id out of 0 to 32767 is Overlong: named by the header where it is a step from the last one, and by its own
    /// first byte where it follows.
    #[tactic(auto, unfolding(crate::specs::Reading::field_at))]
    pub fn field(&mut self, last: i16) -> Result<Option<Field>, ThriftRefusal>
        ensures id { IfOk result (λ found. IfSome found (λ field. pos 0 ≤ℤ field.id)) }
        ensures kind { IfOk result (λ found. IfSome found (λ field. IsKind field.kind)) }
        ensures value { Moves (λ found. found) self.old self.new result (field_at last self.old) }
    {
        let (first, rest) = self.peek_byte(self.at)?;
        if first == 0 {
            *self = rest;
            return Ok(None);
        }
        let kind = first % 16;
        if !is_kind(kind) {
            return Err(ThriftRefusal::BadType { at: self.at });
        }
        let (id, rest) = rest.peek_id(self.at, last, first / 16)?;
        *self = rest;
        Ok(Some(Field { id, kind }))
    }

    /// Reads a number of the kind 4, 5 or 6 (i16, i32 or i64).
    #[tactic(auto, unfolding(crate::specs::Reading::int_at))]
    pub fn int(&mut self, kind: u8) -> Result<i64, ThriftRefusal>
        requires { (4 ≤ kind) × (kind ≤ 6) }
        ensures i16 { kind ≡ 4 → IfOk result (FitsSigned w16) }
        ensures i32 { kind ≡ 5 → IfOk result (FitsSigned w32) }
        ensures value { Moves (λ number. number) self.old self.new result (int_at kind self.old) }
    {
        let (number, rest) = self.peek_number(max_zigzag(kind))?;
        *self = rest;
        Ok(signed(number))
    }

    /// Reads a binary: its length and so many bytes.
    #[tactic(auto, unfolding(crate::specs::Reading::binary_at))]
    pub fn binary(&mut self) -> Result<&'a [u8], ThriftRefusal>
        ensures length { IfOk result (λ bytes. length bytes.now < 2 ^ 31) }
        ensures value { Moves (λ bytes. bytes.now) self.old self.new result (binary_at self.old) }
    {
        let (len, rest) = self.peek_number(MAX_SIZE)?;
        let (bytes, rest) = rest.peek_bytes(self.at, len as usize)?;
        *self = rest;
        Ok(bytes)
    }

    /// Reads the header of a list or set. The elements follow; a flag among them takes a byte.
    #[tactic(auto, unfolding(crate::specs::Reading::list_at))]
    pub fn list(&mut self) -> Result<ListHead, ThriftRefusal>
        ensures kind { IfOk result (λ head. IsKind head.kind) }
        ensures size { IfOk result (λ head. head.size < 2 ^ 31) }
        ensures value { Moves (λ head. head) self.old self.new result (list_at self.old) }
    {
        let (first, rest) = self.peek_byte(self.at)?;
        let kind = first % 16;
        if !is_kind(kind) {
            return Err(ThriftRefusal::BadType { at: self.at });
        }
        let (size, rest) = rest.peek_size(first / 16)?;
        *self = rest;
        Ok(ListHead { kind, size })
    }

    /// Passes over a value of the kind, as it stands in a field inside `depth` containers, in time linear in its bytes.
    /// A flag has none.
    ///
    /// A container inside 32 containers is TooDeep before anything of it is read.
    pub fn skip(&mut self, kind: u8, depth: u32) -> Result<(), ThriftRefusal>
        requires kind { IsKind kind }
        requires depth { depth ≤ 32 }
        ensures { Passes self.old self.new result (value_at (32 - depth) kind self.old) }
    {
        *self = self.after_value(kind, 32 - depth)?;
        Ok(())
    }

    // The reader behind a value with at most `levels` containers inside each other. The like for its parts follow.
    #[cycle(after_value)]
    fn after_value(&self, kind: u8, levels: u32) -> Result<Reader<'a>, ThriftRefusal>
        ensures { Answers (λ reader. reader) result (rest_of (value_at levels kind self.now)) }
    {
        if kind < 9 {
            return self.after_leaf(kind);
        }
        if levels == 0 {
            return Err(ThriftRefusal::TooDeep { at: self.at });
        }
        match kind {
            STRUCT => self.after_struct(levels - 1),
            MAP => self.after_map(levels - 1),
            _ => self.after_sequence(levels - 1),
        }
    }

    #[tactic(auto, unfolding(crate::specs::Reading::leaf_at))]
    fn after_leaf(&self, kind: u8) -> Result<Reader<'a>, ThriftRefusal>
        requires { kind < 9 }
        ensures { Answers (λ reader. reader) result (rest_of (leaf_at kind self.now)) }
    {
        let mut ahead = self.fork();
        match kind {
            0..=2 => {}
            3 => ahead = self.peek_bytes(self.at, 1)?.1,
            4..=6 => {
                ahead.int(kind)?;
            }
            7 => ahead = self.peek_bytes(self.at, 8)?.1,
            _ => {
                ahead.binary()?;
            }
        }
        Ok(ahead)
    }

    #[cycle(after_value)]
    fn after_struct(&self, levels: u32) -> Result<Reader<'a>, ThriftRefusal>
        ensures { Answers (λ reader. reader) result (rest_of (struct_at (value_at levels) self.now)) }
    {
        let mut ahead = self.fork();
        let mut last = 0;
        for _ in 0..self.ahead.len() {
            match ahead.field(last)? {
                None => return Ok(ahead),
                Some(field) => {
                    ahead = ahead.after_value(field.kind, levels)?;
                    last = field.id;
                }
            }
        }
        Err(ThriftRefusal::Short { at: ahead.at })
    }

    #[cycle(after_value)]
    fn after_sequence(&self, levels: u32) -> Result<Reader<'a>, ThriftRefusal>
        ensures { Answers (λ reader. reader) result (rest_of (sequence_at (value_at levels) self.now)) }
    {
        let mut ahead = self.fork();
        let head = ahead.list()?;
        ahead.after_elements(part_kind(head.kind), head.size, levels)
    }

    #[cycle(after_value)]
    fn after_elements(&self, kind: u8, size: u32, levels: u32) -> Result<Reader<'a>, ThriftRefusal>
        ensures { Answers (λ reader. reader) result
            (rest_of (elements_at (value_at levels kind) size self.now)) }
    {
        let mut ahead = self.fork();
        for _ in 0..size {
            ahead = ahead.after_value(kind, levels)?;
        }
        Ok(ahead)
    }

    #[cycle(after_value)]
    #[tactic(auto, unfolding(crate::specs::Reading::map_at))]
    fn after_map(&self, levels: u32) -> Result<Reader<'a>, ThriftRefusal>
        ensures { Answers (λ reader. reader) result (rest_of (map_at (value_at levels) self.now)) }
    {
        let (size, ahead) = self.peek_number(MAX_SIZE)?;
        if size == 0 {
            Ok(ahead)
        } else {
            ahead.after_kinds(size as u32, levels)
        }
    }

    #[cycle(after_value)]
    #[tactic(auto, unfolding(crate::specs::Reading::pairs_at))]
    fn after_kinds(&self, size: u32, levels: u32) -> Result<Reader<'a>, ThriftRefusal>
        ensures { Answers (λ reader. reader) result (rest_of (pairs_at (value_at levels) size self.now)) }
    {
        let (kinds, ahead) = self.peek_byte(self.at)?;
        let key = kinds / 16;
        let value = kinds % 16;
        if is_kind(key) && is_kind(value) {
            ahead.after_pairs(key, value, size, levels)
        } else {
            Err(ThriftRefusal::BadType { at: self.at })
        }
    }

    #[cycle(after_value)]
    fn after_pairs(
        &self,
        key: u8,
        value: u8,
        size: u32,
        levels: u32,
    ) -> Result<Reader<'a>, ThriftRefusal>
        ensures { Answers (λ reader. reader) result
            (rest_of (elements_at (pair_at (value_at levels) key value) size self.now)) }
    {
        let mut ahead = self.fork();
        for _ in 0..size {
            ahead = ahead.after_pair(key, value, levels)?;
        }
        Ok(ahead)
    }

    #[cycle(after_value)]
    fn after_pair(&self, key: u8, value: u8, levels: u32) -> Result<Reader<'a>, ThriftRefusal>
        ensures { Answers (λ reader. reader) result
            (rest_of (pair_at (value_at levels) key value self.now)) }
    {
        let ahead = self.after_value(part_kind(key), levels)?;
        ahead.after_value(part_kind(value), levels)
    }
}

// A flag that is a part of a list, set or map takes a byte, as an i8 does.
fn part_kind(kind: u8) -> u8
    ensures { result ≡ part_kind kind }
{
    if kind <= 2 { 3 } else { kind }
}

fn is_kind(kind: u8) -> bool
    ensures test { result ≡ is_kind kind }
    ensures range { IsTrue result ↔ IsKind kind }
{
    1 <= kind && kind <= 12
}

fn is_id(id: i64) -> bool
    ensures { result ≡ is_id id }
{
    0 <= id && id <= 32767
}

// The signed number that a zigzag number stands for.
fn signed(number: u64) -> i64
    ensures { result ≡ unzigzag number }
{
    let half = (number / 2) as i64;
    if number % 2 == 0 { half } else { -half - 1 }
}

// The greatest zigzag number of an i16, an i32 and an i64.
fn max_zigzag(kind: u8) -> u64
    ensures { result ≡ max_zigzag kind }
{
    match kind {
        I16 => 0xffff,
        I32 => 0xffff_ffff,
        _ => u64::MAX,
    }
}
