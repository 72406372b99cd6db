//! The commands that use a folder: a catalogue imported, its work files removed, two catalogues matched.
ghost use Rattle.std.specs.Prelude.{◌≡◌, ◌≤◌, ◌+◌, [], List, ℕ, IfErr, IfOk, None, length, map, string_bytes, vec_capacity};
ghost use Rattle.hx_base.specs.Limits.{most_inputs};
ghost use Rattle.hx_base.specs.Names.{IsName};
ghost use Rattle.hx_inputs.specs.Inputs.{too_long};
ghost use Rattle.hx_inputs.specs.Sources.{Tell};
ghost use Rattle.hx_words.specs.Requests.{IsImportRequest, IsMatchRequest, word_from_end};
ghost use Rattle.hx_words.specs.Words.{Clean, Import, Match};
ghost use Rattle.hx_cli.specs.Asked.{query_of, settings_of};
ghost use Rattle.hx_cli.specs.FirstRefusal.{IsCleanRefusal, IsLaterRefusal, IsRefusalOfFolder, ShowsFor};
ghost use Rattle.hx_cli.specs.FolderTexts.{clean_line};
ghost use Rattle.hx_cli.specs.Leaves.{LeavesCleaned};
ghost use Rattle.hx_cli.specs.Runs.{Answers, IsCleanCause, IsTextOr, refusal_in};

use crate::folder_lines::{clean_line, import_line, matched_line, room_for_line};
use crate::names::{name_at, word_at};
use hx_base::{Name, Refusal, Settings};
use hx_book::Closed;
use hx_import::{clean, import_one};
use hx_outside::{Source, Store};
use hx_xmatch::{Matched, Query, match_one};
use std::alloc::{AllocError, Global};

/// What an action answers, with what it was given.
#[derive(Drop)]
pub struct Acted<Src, S> {
    pub answer: Result<Vec<u8>, Refusal>,
    pub inputs: Vec<Src>,
    pub store: S,
}

/// How rows are cut into partitions and margins.
#[derive(Clone, Copy, Debug, PartialEq, Eq)]
pub struct Cut {
    pub lowest: u8,
    pub highest: u8,
    pub threshold: u64,
    pub margin_order: u8,
}

// A line, where nothing was refused.
fn text_or(refusal: Option<Refusal>, line: Vec<u8>) -> Result<Vec<u8>, Refusal>
    ensures { IsTextOr refusal line.items result }
{
    match refusal {
        None => Ok(line),
        Some(refusal) => Err(refusal),
    }
}

// What an import takes memory for before it begins.
#[derive(Drop)]
struct Begun {
    settings: Settings,
    line: Vec<u8>,
}

fn begin_import(
    alloc: Global,
    words: &[String],
    place: usize,
    cut: Cut,
) -> Result<Begun, AllocError>
    requires least { 1 ≤ place }
    requires within { place ≤ length words.now }
    requires named { IsName (word_from_end (map string_bytes words.now) place) }
    ensures settings { IfOk result (λ begun. begun.settings ≡
        settings_of cut.lowest cut.highest cut.threshold cut.margin_order (word_from_end (map string_bytes words.now) place)) }
    ensures empty { IfOk result (λ begun. begun.line.items ≡ []) }
    ensures wide { IfOk result (λ begun. 192 ≤ vec_capacity begun.line) }
{
    let name = name_at(alloc, words, place)?;
    let line = room_for_line(alloc)?;
    let settings = Settings {
        name,
        lowest: cut.lowest,
        highest: cut.highest,
        threshold: cut.threshold,
        margin_order: cut.margin_order,
    };
    Ok(Begun { settings, line })
}

/// Imports the inputs' rows as a catalogue, whose name stands before the inputs' names.
pub fn import<Src: Source, S: Store>(
    alloc: Global,
    words: &[String],
    cut: Cut,
    inputs: Vec<Src>,
    store: S,
) -> Acted<Src, S>
    requires within { length inputs.items + 1 ≤ length words.now }
    requires request { IsImportRequest cut.lowest cut.highest cut.threshold cut.margin_order
        (word_from_end (map string_bytes words.now) (length inputs.items + 1)) (map Src.source.label inputs.items) }
    requires few { length inputs.items ≤ most_inputs }
    requires short { (bytes : List (List ℕ)) → Tell Src.source inputs.items bytes → too_long bytes ≡ None }
    ensures { let names = map Src.source.label inputs.items in
        let command = Import cut.lowest cut.highest cut.threshold cut.margin_order
        (word_from_end (map string_bytes words.now) (length inputs.items + 1)) names in
        Answers Src.source S.disk command (IsLaterRefusal command) (IsRefusalOfFolder command)
        inputs.items result.inputs.items store result.store result.answer }
{
    let place = inputs.len() + 1;
    let Begun { settings, line } = match begin_import(alloc, words, place, cut) {
        Ok(begun) => begun,
        Err(_) => {
            return Acted {
                answer: Err(Refusal::Memory),
                inputs,
                store,
            };
        }
    };
    let Closed {
        refusal,
        rows,
        partitions,
        margin,
        inputs,
        store,
    } = import_one(alloc, settings, inputs, store);
    let line = import_line(line, word_at(words, place), rows, partitions, margin);
    let answer = text_or(refusal, line);
    Acted {
        answer,
        inputs,
        store,
    }
}

/// Removes the work files of a catalogue, whose name is the last word.
pub fn clean_folder<S: Store>(
    alloc: Global,
    words: &[String],
    store: &mut S,
) -> Result<Vec<u8>, Refusal>
    requires within { 1 ≤ length words.now }
    requires named { IsName (word_from_end (map string_bytes words.now) 1) }
    ensures text { IfOk result (λ text. text.items ≡ clean_line (word_from_end (map string_bytes words.now) 1)) }
    ensures first { let name = word_from_end (map string_bytes words.now) 1 in
        S.disk.tells store.old → ShowsFor (Clean name) (IsCleanRefusal name (S.disk.reads store.old)) result }
    ensures leaves { let name = word_from_end (map string_bytes words.now) 1 in
        S.disk.tells store.old → LeavesCleaned S.disk store.old store.new name (refusal_in result) }
    ensures cause { let name = word_from_end (map string_bytes words.now) 1 in
        IfErr result (IsCleanCause S.disk store.old store.new name) }
    ensures later { S.disk.faults store.old ≤ S.disk.faults store.new }
{
    let name = name_at(alloc, words, 1)?;
    let line = clean_line(room_for_line(alloc)?, name.as_str());
    clean(alloc, store, &name)?;
    Ok(line)
}

// What a match takes memory for before it begins.
#[derive(Drop)]
struct Asked {
    query: Query,
    line: Vec<u8>,
}

fn ask(alloc: Global, words: &[String], radius: u64) -> Result<Asked, AllocError>
    requires within { 4 ≤ length words.now }
    requires request { let ws = map string_bytes words.now in
        IsMatchRequest (word_from_end ws 4) (word_from_end ws 3) radius (word_from_end ws 1) }
    ensures query { let ws = map string_bytes words.now in
        IfOk result (λ asked. asked.query ≡ query_of (word_from_end ws 4) (word_from_end ws 3) radius (word_from_end ws 1)) }
    ensures empty { IfOk result (λ asked. asked.line.items ≡ []) }
    ensures wide { IfOk result (λ asked. 192 ≤ vec_capacity asked.line) }
{
    let left = name_at(alloc, words, 4)?;
    let right = name_at(alloc, words, 3)?;
    let output = name_at(alloc, words, 1)?;
    let line = room_for_line(alloc)?;
    let query = Query {
        left,
        right,
        radius,
        output,
    };
    Ok(Asked { query, line })
}

/// Matches two catalogues, whose names stand before the radius, into the file of the last word.
pub fn match_catalogues<Src: Source, S: Store>(
    alloc: Global,
    words: &[String],
    radius: u64,
    inputs: Vec<Src>,
    store: S,
) -> Acted<Src, S>
    requires within { 4 ≤ length words.now }
    requires request { let ws = map string_bytes words.now in
        IsMatchRequest (word_from_end ws 4) (word_from_end ws 3) radius (word_from_end ws 1) }
    ensures { let ws = map string_bytes words.now in
        let command = Match (word_from_end ws 4) (word_from_end ws 3) radius (word_from_end ws 1) in
        Answers Src.source S.disk command (IsLaterRefusal command) (IsRefusalOfFolder command)
        inputs.items result.inputs.items store result.store result.answer }
{
    let Asked { query, line } = match ask(alloc, words, radius) {
        Ok(asked) => asked,
        Err(_) => {
            return Acted {
                answer: Err(Refusal::Memory),
                inputs,
                store,
            };
        }
    };
    let Matched {
        refusal,
        rows,
        matched,
        store,
    } = match_one(alloc, query, store);
    let line = matched_line(line, word_at(words, 4), word_at(words, 3), rows, matched);
    let answer = text_or(refusal, line);
    Acted {
        answer,
        inputs,
        store,
    }
}
