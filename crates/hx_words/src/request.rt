//! The words of the command line.
ghost use Rattle.std.specs.Prelude.{◌≡◌, ◌≢◌, ◌≤◌, ◌<◌, ◌*◌, ◌^◌, ◌∷◌, [], ℕ, All, IfSome, MatchOption, IsTrue, ◌↔◌, codes, length, map, string_bytes, drop, List};
ghost use Rattle.hx_base.specs.FileWords.{IsFileWord};
ghost use Rattle.hx_words.specs.Options.{InRange, kept, number_of};
ghost use Rattle.hx_words.specs.Requests.{AreNameAndFiles, IsRequest};
ghost use Rattle.hx_words.specs.Words.{AreFiles, HasNoMeaning, IsAroundLine, IsCleanLine, IsHistogramLine, IsImportLine, IsMatchLine, IsPlanLine, most_radius};
ghost use Rattle.hx_words.specs.declared.options.OptionName.{OptionName};
ghost use Rattle.hx_words.specs.declared.options.OptionName.TheVariants.{Highest, Lowest, MarginOrder, Threshold};

use crate::number::{order, pixel, radius};
use crate::options::{OptionName, Options, read_options};
use hx_base::{is_file_word, is_name};

/// A command with its values.
#[derive(Clone, Copy, Debug, PartialEq, Eq)]
pub enum Action {
    /// The rows in each pixel of an order.
    Histogram {
        order: u8,
    },
    /// The partitions of orders from the lowest to the highest, with at most so many rows each.
    Plan {
        lowest: u8,
        highest: u8,
        threshold: u64,
    },
    /// The pixels that touch a pixel of an order.
    Around {
        order: u8,
        pixel: u64,
    },
    /// A catalogue of the inputs' rows, with its margins. The word before the inputs' names is its name.
    Import {
        lowest: u8,
        highest: u8,
        threshold: u64,
        margin_order: u8,
    },
    /// The work files of an import removed. The last word is the catalogue's name.
    Clean,
    /// The match of two catalogues within a chord, in 10^-9. The last four words are the names of the left and the
    /// right catalogue, the radius and the output's name.
    Match {
        radius: u64,
    },
}

/// What a line asks for.
#[derive(Clone, Copy, Debug, PartialEq, Eq)]
pub struct Request {
    pub action: Action,
    /// The index of the first word that names an input. All later ones do.
    pub files: usize,
}

const IMPORT_OPTIONS: &[OptionName] = &[
    OptionName::Lowest,
    OptionName::Highest,
    OptionName::Threshold,
    OptionName::MarginOrder,
];

const PLAN_OPTIONS: &[OptionName] = &[
    OptionName::Lowest,
    OptionName::Highest,
    OptionName::Threshold,
];

// Whether each word may name an input.
fn are_file_words(words: &[String]) -> bool
    ensures { IsTrue result ↔ All (λ word. IsFileWord (string_bytes word)) words.now }
{
    words.iter().all(|word| is_file_word(word.as_str()))
}

// Whether the words name inputs, at least one.
fn are_files(words: &[String]) -> bool
    ensures { IsTrue result ↔ AreFiles (map string_bytes words.now) }
{
    !words.is_empty() && are_file_words(words)
}

// The request of a line `histogram K FILE...`, by the words behind the command.
fn histogram(line: &[String]) -> Option<Request>
    ensures { let words = codes "histogram" ∷ map string_bytes line.now in
        MatchOption result ((k : ℕ) (files : List (List ℕ)) → IsHistogramLine words k files → ⊥) (IsRequest words) }
{
    let [order_word, files @ ..] = line else {
        return None;
    };
    if !are_files(files) {
        return None;
    }
    let order = order(order_word.as_str())?;
    Some(Request {
        action: Action::Histogram { order },
        files: 2,
    })
}

// What the options of a plan ask for, where the lowest order isn't above the highest.
fn plan_of(options: Options) -> Option<Action>
    requires { (name : OptionName) → IfSome (kept options name) (InRange name) }
    ensures { let lowest = number_of options Lowest in
        let highest = number_of options Highest in
        MatchOption result (highest < lowest)
        (λ action. (lowest ≤ highest) × (action ≡ Action.Plan lowest highest (number_of options Threshold))) }
{
    let lowest = options.number(OptionName::Lowest);
    let highest = options.number(OptionName::Highest);
    if lowest > highest {
        return None;
    }
    Some(Action::Plan {
        lowest: lowest as u8,
        highest: highest as u8,
        threshold: options.number(OptionName::Threshold),
    })
}

// The request of a line `plan [OPTION]... FILE...`, by the words behind the command.
fn plan(line: &[String]) -> Option<Request>
    ensures { let words = codes "plan" ∷ map string_bytes line.now in
        MatchOption result
        ((lowest highest threshold : ℕ) (files : List (List ℕ)) → IsPlanLine words lowest highest threshold files → ⊥)
        (IsRequest words) }
{
    let (options, count) = read_options(PLAN_OPTIONS, Options::none(), line)?;
    if !are_files(&line[count..]) {
        return None;
    }
    let action = plan_of(options)?;
    Some(Request {
        action,
        files: count + 1,
    })
}

// The request of a line `around K P`, by the words behind the command.
fn around(line: &[String]) -> Option<Request>
    ensures { let words = codes "around" ∷ map string_bytes line.now in
        MatchOption result ((k p : ℕ) → IsAroundLine words k p → ⊥) (IsRequest words) }
{
    let [order_word, pixel_word] = line else {
        return None;
    };
    let order = order(order_word.as_str())?;
    let pixel = pixel(order, pixel_word.as_str())?;
    Some(Request {
        action: Action::Around { order, pixel },
        files: 3,
    })
}

// What the options of an import ask for, where the lowest order isn't above the highest and margins are cut finer.
fn import_of(options: Options) -> Option<Action>
    requires { (name : OptionName) → IfSome (kept options name) (InRange name) }
    ensures { let lowest = number_of options Lowest in
        let highest = number_of options Highest in
        let margin_order = number_of options MarginOrder in
        MatchOption result (lowest ≤ highest → highest < margin_order → ⊥)
        (λ action. (lowest ≤ highest) × (highest < margin_order) ×
        (action ≡ Action.Import lowest highest (number_of options Threshold) margin_order)) }
{
    let lowest = options.number(OptionName::Lowest);
    let highest = options.number(OptionName::Highest);
    let margin_order = options.number(OptionName::MarginOrder);
    if lowest > highest || highest >= margin_order {
        return None;
    }
    Some(Action::Import {
        lowest: lowest as u8,
        highest: highest as u8,
        threshold: options.number(OptionName::Threshold),
        margin_order: margin_order as u8,
    })
}

// Whether the words are a catalogue's name and the names of inputs, at least one.
fn are_name_and_files(words: &[String]) -> bool
    ensures { IsTrue result ↔ AreNameAndFiles (map string_bytes words.now) }
{
    let [name, files @ ..] = words else {
        return false;
    };
    is_name(name.as_str()) && are_files(files)
}

// The request of a line `import [OPTION]... NAME FILE...`, by the words behind the command.
fn import(line: &[String]) -> Option<Request>
    ensures { let words = codes "import" ∷ map string_bytes line.now in
        MatchOption result
        ((lowest highest threshold margin_order : ℕ) (name : List ℕ) (files : List (List ℕ)) →
        IsImportLine words lowest highest threshold margin_order name files → ⊥)
        (IsRequest words) }
{
    let (options, count) = read_options(IMPORT_OPTIONS, Options::none(), line)?;
    if !are_name_and_files(&line[count..]) {
        return None;
    }
    let action = import_of(options)?;
    Some(Request {
        action,
        files: count + 2,
    })
}

// The request of a line `clean NAME`, by the words behind the command.
fn clean(line: &[String]) -> Option<Request>
    ensures { let words = codes "clean" ∷ map string_bytes line.now in
        MatchOption result ((name : List ℕ) → IsCleanLine words name → ⊥) (IsRequest words) }
{
    let [name] = line else {
        return None;
    };
    if !is_name(name.as_str()) {
        return None;
    }
    Some(Request {
        action: Action::Clean,
        files: 2,
    })
}

// The request of a line `xmatch LEFT RIGHT RADIUS OUT`, by the words behind the command.
fn xmatch(line: &[String]) -> Option<Request>
    ensures { let words = codes "xmatch" ∷ map string_bytes line.now in
        MatchOption result
        ((left right : List ℕ) (radius : ℕ) (output : List ℕ) → IsMatchLine words left right radius output → ⊥)
        (IsRequest words) }
{
    let [left, right, radius_word, output] = line else {
        return None;
    };
    if !is_name(left.as_str()) || !is_name(right.as_str()) || !is_name(output.as_str()) {
        return None;
    }
    let radius = radius(radius_word.as_str())?;
    Some(Request {
        action: Action::Match { radius },
        files: 5,
    })
}

/// What the words of a line ask for, if they have a meaning.
pub fn request_of(words: &[String]) -> Option<Request>
    ensures { MatchOption result (HasNoMeaning (map string_bytes words.now)) (IsRequest (map string_bytes words.now)) }
{
    let [command, line @ ..] = words else {
        return None;
    };
    match command.as_str() {
        "histogram" => histogram(line),
        "plan" => plan(line),
        "around" => around(line),
        "import" => import(line),
        "clean" => clean(line),
        "xmatch" => xmatch(line),
        _ => None,
    }
}
