//! The top call: a command line, done over its inputs.
ghost use Rattle.std.specs.Prelude.{◌≡◌, ◌≢◌, ◌<◌, ◌≤◌, ◌↔◌, ◌⊎◌, List, ℕ, Err, IfErr, IfOk, IfSome, IsOkAnd, None, Some, length, map, string_bytes};
ghost use Rattle.hx_base.specs.Limits.{most_inputs};
ghost use Rattle.hx_base.specs.Refusals.{status_after};
ghost use Rattle.hx_base.specs.declared.refusal.Refusal.TheVariants.{Memory, SinkFault, TooMany, Usage};
ghost use Rattle.hx_outside.specs.Faults.{HasFailed};
ghost use Rattle.hx_inputs.specs.Inputs.{IsAfterLengths};
ghost use Rattle.hx_inputs.specs.Sources.{NoneRose, SameSources, Tell};
ghost use Rattle.hx_cli.specs.Asked.{Premises};
ghost use Rattle.hx_cli.specs.FirstRefusal.{IsEarlyRefusal, IsExactFor, IsFirstRefusal};
ghost use Rattle.hx_cli.specs.Leaves.{Leaves, work_refusal};
ghost use Rattle.hx_cli.specs.Runs.{Answers, Decides, Gains, IsCaused, IsOutput, IsTooMany, IsUsage, Prints, StoreIsStill};
ghost use Rattle.hx_words.specs.Requests.{IsSound, command_of};
ghost use Rattle.hx_words.specs.Words.{AreInputNames, Command, HasNoMeaning, Means};

use crate::commands::act;
use crate::folders::Acted;
use hx_base::Refusal;
use hx_catalog::{answers_are_one, lists_have_one_reading, properties_have_one_reading};
use hx_inputs::check_inputs;
use hx_journal::damage_is_exact;
use hx_outside::{Sink, Source, Store};
use hx_words::{Action, request_of};
use std::alloc::Global;

/// How a run ended, with what was handed in.
#[derive(Drop)]
pub struct Ran<Src, S> {
    /// 0, or the refusal's status.
    pub status: u8,
    pub refusal: Option<Refusal>,
    /// The inputs in their order.
    pub inputs: Vec<Src>,
    pub store: S,
}

// What an action gives.
fn answer<Src: Source, S: Store>(
    alloc: Global,
    words: &[String],
    action: Action,
    mut inputs: Vec<Src>,
    store: S,
) -> Acted<Src, S>
    requires means { Means (map string_bytes words.now) (command_of action (map string_bytes words.now) (map Src.source.label inputs.items)) }
    requires sound { IsSound action (map string_bytes words.now) (map Src.source.label inputs.items) }
    ensures answers { let command = command_of action (map string_bytes words.now) (map Src.source.label inputs.items) in
        Answers Src.source S.disk command (IsFirstRefusal command) (IsEarlyRefusal command)
        inputs.items result.inputs.items store result.store result.answer }
    ensures in_turn { (bytes : List (List ℕ)) → Tell Src.source inputs.items bytes →
        IfErr result.answer (IsAfterLengths bytes) }
    ensures many { most_inputs < length inputs.items → IsTooMany inputs.items store result.store result.answer }
{
    match check_inputs(&mut inputs) {
        Ok(()) => act(alloc, words, action, inputs, store),
        Err(refusal) => Acted {
            answer: Err(refusal),
            inputs,
            store,
        },
    }
}

// What a line asks for.
fn answer_line<Src: Source, S: Store>(
    alloc: Global,
    words: &[String],
    inputs: Vec<Src>,
    store: S,
) -> Acted<Src, S>
    requires { AreInputNames (map string_bytes words.now) (map Src.source.label inputs.items) }
    ensures answers { (command : Command) → Means (map string_bytes words.now) command →
        Answers Src.source S.disk command (IsFirstRefusal command) (IsEarlyRefusal command)
        inputs.items result.inputs.items store result.store result.answer }
    ensures usage { HasNoMeaning (map string_bytes words.now) → IsUsage inputs.items result.inputs.items store result.store result.answer }
    ensures meant { HasNoMeaning (map string_bytes words.now) ⊎ ((command : Command) × Means (map string_bytes words.now) command) }
    ensures in_turn { (bytes : List (List ℕ)) → Tell Src.source inputs.items bytes →
        IfErr result.answer (IsAfterLengths bytes) }
    ensures many { most_inputs < length inputs.items → IsTooMany inputs.items store result.store result.answer }
{
    match request_of(words) {
        None => Acted {
            answer: Err(Refusal::Usage),
            inputs,
            store,
        },
        Some(request) => answer(alloc, words, request.action, inputs, store),
    }
}

// Writes the text of an answer, whole.
fn print<O: Sink>(out: &mut O, answered: Result<Vec<u8>, Refusal>) -> Option<Refusal>
    requires { answered ≢ Err SinkFault }
    ensures outcome { Prints answered result }
    ensures output { IfSome (O.sink.written out.old) (λ before.
        Gains (λ text. IsOkAnd answered (λ t. text ≡ t.items)) before (O.sink.written out.new) result) }
    ensures cause { result ≡ Some SinkFault → HasFailed O.sink.faults out.old out.new }
    ensures sink { O.sink.faults out.old ≤ O.sink.faults out.new }
{
    match answered {
        Ok(text) => match out.write(text.as_slice()) {
            Ok(()) => None,
            Err(_) => Some(Refusal::SinkFault),
        },
        Err(refusal) => Some(refusal),
    }
}

fn status_of(refusal: Option<Refusal>) -> u8
    ensures { result ≡ status_after refusal }
{
    match refusal {
        None => 0,
        Some(refusal) => refusal.status(),
    }
}

/// Does what the words after the program's name ask for, over the inputs that they name and a folder, and writes the
/// text to the sink. It always returns, and takes one worker whatever the words say.
pub fn run_plain<Src: Source, S: Store, O: Sink>(
    alloc: Global,
    words: &[String],
    inputs: Vec<Src>,
    store: S,
    out: &mut O,
) -> Ran<Src, S>
    // The inputs' names are the file words of the line.
    requires { AreInputNames (map string_bytes words.now) (map Src.source.label inputs.items) }

    // The inputs come back in their order, each with its name and bytes, and no count fell.
    ensures inputs { SameSources Src.source inputs.items result.inputs.items }

    ensures status { result.status ≡ status_after result.refusal }

    // Usage exactly where the words have no meaning.
    ensures usage { (result.refusal ≡ Some Usage) ↔ HasNoMeaning (map string_bytes words.now) }

    // More inputs than there may be are refused before anything else is done.
    ensures many { most_inputs < length inputs.items →
        result.refusal ≡ Some (TooMany 1 (length inputs.items) most_inputs) }

    // Where the sources tell and the premises hold: each refusal of a line that has a meaning exactly where it comes
    // first. A command that only reads has no premises.
    ensures first { let names = map Src.source.label inputs.items in
        (bytes : List (List ℕ)) (command : Command) → Tell Src.source inputs.items bytes →
        Means (map string_bytes words.now) command → Premises S.disk store command names bytes →
        IsExactFor command result.refusal (IsFirstRefusal command names bytes (S.disk.reads store)) }

    // Where the sources and the store tell, whatever stands in the folder: the refusals that no rows decide.
    ensures decided { let names = map Src.source.label inputs.items in
        (bytes : List (List ℕ)) (command : Command) → Tell Src.source inputs.items bytes →
        Means (map string_bytes words.now) command → S.disk.tells store →
        Decides command result.refusal (IsEarlyRefusal command names bytes (S.disk.reads store)) }

    // Where the sources tell: a fault of an input is answered only where no input before it is too long, and want of
    // memory only where none is.
    ensures in_turn { (bytes : List (List ℕ)) → Tell Src.source inputs.items bytes →
        IfSome result.refusal (IsAfterLengths bytes) }

    // Where the sources tell, the premises hold, no refusal comes first and no count rose, only want of memory is
    // refused.
    ensures complete { let names = map Src.source.label inputs.items in
        (bytes : List (List ℕ)) (command : Command) → Tell Src.source inputs.items bytes →
        Means (map string_bytes words.now) command → Premises S.disk store command names bytes →
        IsFirstRefusal command names bytes (S.disk.reads store) None →
        NoneRose Src.source inputs.items result.inputs.items →
        StoreIsStill command (HasFailed S.disk.faults store result.store) →
        (HasFailed O.sink.faults out.old out.new → ⊥) →
        (result.refusal ≡ None) ⊎ (result.refusal ≡ Some Memory) }

    // Each refusal has its cause.
    ensures cause { IfSome result.refusal
        (IsCaused Src.source S.disk (map string_bytes words.now) inputs.items result.inputs.items store result.store
        (HasFailed O.sink.faults out.old out.new)) }

    // Where the sink tells: it has gained the text, or a front of it where it failed, or nothing.
    ensures output { let names = map Src.source.label inputs.items in
        let IsText = λ (text : List ℕ). (bytes : List (List ℕ)) → Tell Src.source inputs.items bytes →
        IsOutput S.disk store (map string_bytes words.now) names bytes text in
        IfSome (O.sink.written out.old) (λ before.
        Gains IsText before (O.sink.written out.new) result.refusal) }

    // The sink's count did not fall, nor did the store's.
    ensures sink { O.sink.faults out.old ≤ O.sink.faults out.new }
    ensures faults { S.disk.faults store ≤ S.disk.faults result.store }

    // What is left in the folder; and a line that has no meaning leaves the store as it was.
    ensures store { (command : Command) → Means (map string_bytes words.now) command →
        Leaves S.disk store result.store command (map Src.source.label inputs.items) (Tell Src.source inputs.items) (work_refusal result.refusal) }
    ensures untouched { HasNoMeaning (map string_bytes words.now) → result.store ≡ store }
    ensures too_many { most_inputs < length inputs.items → result.store ≡ store }
{
    answers_are_one();
    lists_have_one_reading();
    properties_have_one_reading();
    damage_is_exact(&[]);
    let Acted {
        answer,
        inputs,
        store,
    } = answer_line(alloc, words, inputs, store);
    let refusal = print(out, answer);
    Ran {
        status: status_of(refusal),
        refusal,
        inputs,
        store,
    }
}
