ghost use Rattle.hx_pqmeta.specs.Files.{FindsTheFooter};
ghost use Rattle.hx_pqmeta.specs.Writing.{SpellsPageHeaders, KeepsPageHeaders, ReadsPageHeaders, BoundsPageHeaders, BoundsFooters, ReadsFooters};

use hx_thrift::{reading_is_spelling, writing_is_spelling};

/// A file has a footer exactly where it is a mark, pages, the footer, its length and a mark.
pub fn footers_are_framed()
    ensures { FindsTheFooter }
{}

/// The bytes that are written for the header of a data page with levels spell its fields, which are the header's; and
/// at every place of a file the header is read from them. They are at most 385.
pub fn page_headers_read_back()
    ensures spelled { SpellsPageHeaders }
    ensures fields { KeepsPageHeaders }
    ensures read { ReadsPageHeaders }
    ensures bound { BoundsPageHeaders }
{
    writing_is_spelling();
    reading_is_spelling();
}

/// The length of the bytes that are written for a footer has room in four bytes, and behind a mark and pages they make
/// a file that has this footer.
pub fn footers_read_back()
    ensures bound { BoundsFooters }
    ensures read { ReadsFooters }
{
    writing_is_spelling();
    reading_is_spelling();
}
