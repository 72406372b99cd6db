ghost use Rattle.std.specs.Prelude.{◌≡◌, IfOk, length};
ghost use Rattle.hx_rows.specs.Csv.{column_of, columns_of};
ghost use Rattle.hx_rows.specs.Headers.{named_columns};

use crate::fault::Fault;
use crate::fields::Fields;
use hx_base::column_names;

/// The indices of the five columns in the header, and how many columns there are.
#[derive(Clone, Copy, Debug, PartialEq, Eq)]
pub(crate) struct Header {
    pub(crate) hp: usize,
    pub(crate) id: usize,
    pub(crate) x: usize,
    pub(crate) y: usize,
    pub(crate) z: usize,
    pub(crate) width: usize,
}

// The index of a name that the header has exactly once.
fn column_of<F: Fields>(header: &F, name: &[u8]) -> Result<usize, Fault>
    ensures { result ≡ column_of (F.fields header.now) name.now }
{
    let mut found = None;
    for column in 0..header.count() {
        if name == header.at(column) {
            if found.is_some() {
                return Err(Fault::Header);
            }
            found = Some(column);
        }
    }
    found.ok_or(Fault::Header)
}

impl Header {
    /// The columns that a header record names.
    #[tactic(auto, unfolding(crate::specs::Csv::columns_of))]
    pub(crate) fn of<F: Fields>(header: &F) -> Result<Header, Fault>
        ensures columns { named_columns result ≡ columns_of (F.fields header.now) }
        ensures width { IfOk result (λ found. found.width ≡ length (F.fields header.now)) }
    {
        let [hp, id, x, y, z] = column_names();
        let hp = column_of(header, hp.as_bytes())?;
        let id = column_of(header, id.as_bytes())?;
        let x = column_of(header, x.as_bytes())?;
        let y = column_of(header, y.as_bytes())?;
        let z = column_of(header, z.as_bytes())?;
        Ok(Header {
            hp,
            id,
            x,
            y,
            z,
            width: header.count(),
        })
    }
}
