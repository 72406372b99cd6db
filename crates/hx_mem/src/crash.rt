//! What a crash leaves of a store's files: its calls are made again, each torn as it may be.
ghost use Rattle.std.specs.Prelude.{◌≡◌, ◌≢◌, ◌+◌, ◌⊎◌, ◌++◌, ◌∷◌, [], List, Some, true, false, length, IfOk, OnOk};
ghost use Rattle.hx_outside.specs.Folders.{Folder, Grown, Cut, Flipped, MayAppend, MaySetByte, MayCut, MayRename, MayRemove, renamed, removed};
ghost use Rattle.hx_mem.specs.Files.{folder_of};
ghost use Rattle.hx_mem.specs.declared.change.Call as Calls;
ghost use Rattle.hx_mem.specs.Logs.{AreImages, IsBound, IsImage, MayBecome, effect_if};

use crate::bytes::Bytes;
use crate::change::{Call, Change};
use crate::dice::Dice;
use crate::files::{File, copy, has_same, len_in, put_in, rename_in, size_in, take_in};
use std::alloc::{AllocError, Global};

// A file while bytes are appended that read as so many: it has some of them, or others in their place.
fn torn_append(
    alloc: Global,
    dice: &mut Dice,
    old: Option<Bytes>,
    size: u64,
    bytes: &[u8],
) -> Result<Bytes, AllocError>
    ensures { IfOk result (λ torn. Grown (size + length bytes.now) old (Some torn)) }
{
    let mut torn = old.unwrap_or(Bytes::new(alloc));
    let from = torn.len();
    let end = size.saturating_add(bytes.len() as u64);
    let room = end.saturating_sub(from).min(bytes.len() as u64);
    let len = room - dice.draw(room.saturating_add(1));
    torn.append(&bytes[..len as usize])?;
    torn.stir(dice, from);
    Ok(torn)
}

// A file while it is cut: it has some of the bytes past the cut, or others in their place.
fn torn_cut(dice: &mut Dice, bytes: &mut Bytes, len: u64)
    ensures { Cut len bytes.old bytes.new }
{
    let past = bytes.len().saturating_sub(len);
    bytes.cut(len.saturating_add(dice.draw(past.saturating_add(1))));
    bytes.stir(dice, len);
}

// A file while a byte is set: it has that byte, or another.
fn torn_byte(dice: &mut Dice, bytes: &mut Bytes, at: u64, value: u8)
    ensures { Flipped at bytes.old bytes.new }
{
    if dice.is_first() {
        bytes.set(at, value);
    } else {
        bytes.set(at, dice.byte(value));
    }
}

fn tear_append(
    alloc: Global,
    dice: &mut Dice,
    name: &[u8],
    bytes: &[u8],
    reads: &[File],
    image: &mut Vec<File>,
) -> Result<(), AllocError>
    ensures { OnOk result (MayAppend name.now bytes.now (folder_of reads.now) (folder_of image.old.items) (folder_of image.new.items)) }
{
    let old = take_in(image, name);
    let torn = torn_append(alloc, dice, old, size_in(reads, name), bytes)?;
    put_in(alloc, image, name, torn)?;
    Ok(())
}

fn tear_byte(
    alloc: Global,
    dice: &mut Dice,
    name: &[u8],
    at: u64,
    value: u8,
    reads: &[File],
    image: &mut Vec<File>,
) -> Result<(), AllocError>
    ensures { OnOk result (MaySetByte name.now at (folder_of reads.now) (folder_of image.old.items) (folder_of image.new.items)) }
{
    if at >= size_in(reads, name) {
        return Ok(());
    }
    let Some(mut bytes) = take_in(image, name) else {
        return Ok(());
    };
    torn_byte(dice, &mut bytes, at, value);
    put_in(alloc, image, name, bytes)?;
    Ok(())
}

fn tear_cut(
    alloc: Global,
    dice: &mut Dice,
    name: &[u8],
    len: u64,
    reads: &[File],
    image: &mut Vec<File>,
) -> Result<(), AllocError>
    ensures { OnOk result (MayCut name.now len (folder_of reads.now) (folder_of image.old.items) (folder_of image.new.items)) }
{
    if len >= size_in(reads, name) {
        return Ok(());
    }
    let Some(mut bytes) = take_in(image, name) else {
        return Ok(());
    };
    torn_cut(dice, &mut bytes, len);
    put_in(alloc, image, name, bytes)?;
    Ok(())
}

// A rename that was done in the image or not, if its file is there at all.
fn tear_rename(
    alloc: Global,
    does: bool,
    from: &[u8],
    to: &[u8],
    reads: &[File],
    image: &mut Vec<File>,
) -> Result<(), AllocError>
    ensures may { OnOk result (MayRename from.now to.now (folder_of reads.now) (folder_of image.old.items) (folder_of image.new.items)) }
    ensures does { OnOk result (does ≡ true → folder_of image.old.items from.now ≡ folder_of reads.now from.now → folder_of image.new.items ≡ renamed from.now to.now (folder_of image.old.items)) }
{
    if !does || len_in(reads, from).is_none() {
        return Ok(());
    }
    rename_in(alloc, image, from, to)?;
    Ok(())
}

fn tear_remove(does: bool, name: &[u8], image: &mut Vec<File>)
    ensures may { MayRemove name.now (folder_of image.old.items) (folder_of image.new.items) }
    ensures does { does ≡ true → folder_of image.new.items ≡ removed name.now (folder_of image.old.items) }
{
    if does {
        take_in(image, name);
    }
}

// Whether a rename or remove is done in an image. It is where it was done and the file was stable.
fn is_due(happens: bool, done: bool, free: bool) -> bool
    ensures { done ≡ true → free ≡ false → result ≡ true }
{
    happens || done && !free
}

// Makes of an image what a crash in the call may. It answers false where the image is none any more: a sync was done,
// and the image hasn't the file as it reads. `free` says that the file that the call names wasn't stable.
fn tear(
    alloc: Global,
    dice: &mut Dice,
    call: &Call,
    free: bool,
    reads: &[File],
    image: &mut Vec<File>,
) -> Result<bool, AllocError>
    ensures fits { IfOk result (λ fits. fits ≡ true → MayBecome call.now.done call.now.change (IsBound free call.now.change (folder_of reads.now) (folder_of image.old.items)) (folder_of reads.now) (folder_of image.old.items) (folder_of image.new.items)) }
    ensures starts_over { IfOk result (λ fits. fits ≡ false → effect_if call.now.done call.now.change (folder_of reads.now) ≡ folder_of reads.now) }
{
    let happens = dice.is_first() == call.done;
    match &call.change {
        Change::Put { .. } => {
            if call.done {
                call.change.apply(alloc, image)?;
            }
        }
        Change::Append { name, bytes } => {
            if happens {
                tear_append(alloc, dice, name.as_slice(), bytes.as_slice(), reads, image)?;
            }
        }
        Change::SetByte { name, at, value } => {
            if happens {
                tear_byte(alloc, dice, name.as_slice(), *at, *value, reads, image)?;
            }
        }
        Change::Cut { name, len } => {
            if happens {
                tear_cut(alloc, dice, name.as_slice(), *len, reads, image)?;
            }
        }
        Change::Sync { name } => {
            return Ok(!call.done || has_same(image, reads, name.as_slice()));
        }
        Change::Rename { from, to } => {
            let does = is_due(happens, call.done, free);
            tear_rename(alloc, does, from.as_slice(), to.as_slice(), reads, image)?;
        }
        Change::Remove { name } => {
            tear_remove(is_due(happens, call.done, free), name.as_slice(), image);
        }
    }
    Ok(true)
}

// Whether one of two images hasn't the file as it reads, so that it isn't stable.
fn is_free(name: &[u8], reads: &[File], image: &[File], other: &[File]) -> bool
    ensures { result ≡ true → (folder_of image.now name.now ≢ folder_of reads.now name.now) ⊎ (folder_of other.now name.now ≢ folder_of reads.now name.now) }
{
    !has_same(image, reads, name) || !has_same(other, reads, name)
}

// Keeps an image, or gives what was read in its place.
fn keep(alloc: Global, fits: bool, reads: &[File], image: &mut Vec<File>) -> Result<(), AllocError>
    ensures kept { OnOk result (fits ≡ true → folder_of image.new.items ≡ folder_of image.old.items) }
    ensures over { OnOk result (fits ≡ false → folder_of image.new.items ≡ folder_of reads.now) }
{
    if !fits {
        *image = copy(alloc, reads)?;
    }
    Ok(())
}

// Goes one call on with an image. One that is none any more starts over as what was read.
fn pass(
    alloc: Global,
    dice: &mut Dice,
    call: &Call,
    free: bool,
    reads: &[File],
    image: &mut Vec<File>,
) -> Result<(), AllocError>
    ensures { OnOk result (MayBecome call.now.done call.now.change (IsBound free call.now.change (folder_of reads.now) (folder_of image.old.items)) (folder_of reads.now) (folder_of image.old.items) (folder_of image.new.items)
        ⊎ (folder_of image.new.items ≡ effect_if call.now.done call.now.change (folder_of reads.now))) }
{
    let fits = tear(alloc, dice, call, free, reads, image)?;
    keep(alloc, fits, reads, image)?;
    Ok(())
}

// Goes one call on with what was read.
fn redo(alloc: Global, call: &Call, reads: &mut Vec<File>) -> Result<(), AllocError>
    ensures { OnOk result (folder_of reads.new.items ≡ effect_if call.now.done call.now.change (folder_of reads.old.items)) }
{
    if call.done {
        call.change.apply(alloc, reads)?;
    }
    Ok(())
}

// Goes one call on, with what was read and two images.
fn follow(
    alloc: Global,
    dice: &mut Dice,
    losing: &mut Dice,
    call: &Call,
    reads: &mut Vec<File>,
    image: &mut Vec<File>,
    other: &mut Vec<File>,
) -> Result<(), AllocError>
    ensures { OnOk result ((log : List Calls.Call) (start : Folder) → AreImages log start (folder_of reads.old.items) (folder_of image.old.items) (folder_of other.old.items)
        → AreImages (log ++ call.now ∷ []) start (folder_of reads.new.items) (folder_of image.new.items) (folder_of other.new.items)) }
{
    let free = is_free(call.change.name(), reads, image, other);
    pass(alloc, dice, call, free, reads, image)?;
    pass(alloc, losing, call, free, reads, other)?;
    redo(alloc, call, reads)?;
    Ok(())
}

/// One of the folders that a crash after these calls may leave. The choice 0 gives what was read.
pub fn image_of(
    alloc: Global,
    log: &[Call],
    start: &[File],
    choice: u64,
) -> Result<Vec<File>, AllocError>
    ensures { IfOk result (λ image. IsImage log.now (folder_of start.now) (folder_of image.items)) }
{
    let mut reads = copy(alloc, start)?;
    let mut image = copy(alloc, start)?;
    let mut other = copy(alloc, start)?;
    let mut dice = Dice::new(choice);
    let mut losing = Dice::new(u64::MAX);
    for at in 0..log.len() {
        follow(
            alloc,
            &mut dice,
            &mut losing,
            &log[at],
            &mut reads,
            &mut image,
            &mut other,
        )?;
    }
    Ok(image)
}
