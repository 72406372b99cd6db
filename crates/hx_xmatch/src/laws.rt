//! The laws on which the cross-match rests.
ghost use Rattle.std.specs.Prelude.{◌≡◌, ◌↔◌, ℕ, List, None, Option, Some, Contains, length};
ghost use Rattle.hx_base.specs.Coverage.{IsCutInto, NoneTooNear};
ghost use Rattle.hx_base.specs.Nearest.{IsNearest};
ghost use Rattle.hx_base.specs.declared.pixel.Pixel.{Pixel};
ghost use Rattle.hx_base.specs.declared.refusal.Refusal.{Refusal};
ghost use Rattle.hx_base.specs.declared.row.Row.{Row};
ghost use Rattle.hx_base.specs.declared.settings.Settings.{Settings};
ghost use Rattle.hx_catalog.specs.Catalogues.{HasList, IsFinished};
ghost use Rattle.hx_outside.specs.Folders.{Folder};
ghost use Rattle.hx_xmatch.specs.MatchText.{match_text, matched_rows, nearest_of};
ghost use Rattle.hx_xmatch.specs.Outcomes.{AnswersExactly, IsAsked, IsMatchRefusal, radius2};
ghost use Rattle.hx_xmatch.specs.Reads.{ReadsAll};
ghost use Rattle.hx_xmatch.specs.declared.query.Query.{Query};

use hx_catalog::{
    answers_are_one, catalogues_are_cut, catalogues_are_read, lists_have_one_reading,
};

/// The match of a row is the one row of a list that is within the radius and before which no other row within it comes,
/// or none where no row is within it.
pub fn matches_are_nearest()
    ensures { (from : Row) (r2 : ℕ) (rows : List Row) (found : Option Row) → IsNearest from r2 rows found ↔ (found ≡ nearest_of from r2 rows) }
{}

/// Where no pair of boxes is too near, the match of a left row among the rows that the search for it reads is its match
/// among all right rows.
pub fn match_of_what_is_read()
    ensures { (parts : List Pixel) (margin_order r2 : ℕ) (left right rows : List Row) (row : Row) →
        IsCutInto right parts margin_order → NoneTooNear parts margin_order r2 left right → Contains left row →
        ReadsAll parts margin_order right row rows → nearest_of row r2 rows ≡ nearest_of row r2 right }
{}

/// Over a folder with finished catalogues of both names the text that is asked for is the match text of their rows, and its
/// numbers are those of its lines and of its lines with a match; there is one only where no pair of pixels is too near; and
/// a match is refused by the least such pair, or by a fault of the store or want of memory.
pub fn finished_catalogues_are_matched()
    ensures text { (folder : Folder) (query : Query) (left_settings right_settings : Settings) (left right : List Row) →
        IsFinished folder query.left left_settings left → IsFinished folder query.right right_settings right →
        (text : List ℕ) (rows matched : ℕ) → IsAsked folder query text rows matched →
        (text ≡ match_text (radius2 query) right left) × (rows ≡ length left) × (matched ≡ matched_rows (radius2 query) right left) }
    ensures covered { (folder : Folder) (query : Query) (left_settings right_settings : Settings) (left right : List Row) →
        IsFinished folder query.left left_settings left → IsFinished folder query.right right_settings right →
        (parts : List Pixel) → HasList folder query.right parts → (text : List ℕ) (rows matched : ℕ) → IsAsked folder query text rows matched →
        AnswersExactly parts right_settings.margin_order (radius2 query) left right None }
    ensures refused { (folder : Folder) (query : Query) (left_settings right_settings : Settings) (left right : List Row) →
        IsFinished folder query.left left_settings left → IsFinished folder query.right right_settings right →
        (parts : List Pixel) → HasList folder query.right parts → (given : Refusal) → IsMatchRefusal folder query given →
        AnswersExactly parts right_settings.margin_order (radius2 query) left right (Some given) }
{
    answers_are_one();
    catalogues_are_read();
    catalogues_are_cut();
    lists_have_one_reading();
}
