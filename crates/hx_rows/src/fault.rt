ghost use Rattle.std.specs.Prelude.{◌≡◌};
ghost use Rattle.hx_rows.specs.Rows.{fault_number};

use hx_base::RowFault;

/// What is wrong with a header or with a row.
#[derive(Clone, Copy, Debug, PartialEq, Eq)]
pub enum Fault {
    /// There is no header record, or it has one of the five names not exactly once.
    Header,
    /// A record has another number of fields than the header.
    Length,
    /// A row's values are no row.
    Row(RowFault),
    /// The row's number is above 1099511627776.
    RowNumber,
}

impl From<RowFault> for Fault {
    ghost use Rattle.hx_rows.specs.declared.fault.Fault.TheVariants.{Row};

    ghost from_gives = { λ row fault. fault ≡ Row row };

    fn from(fault: RowFault) -> Fault {
        Fault::Row(fault)
    }
}

impl Fault {
    /// The number by which a refusal tells it.
    pub fn number(&self) -> u8
        ensures { result ≡ fault_number self.now }
    {
        match self {
            Fault::Header => 1,
            Fault::Length => 2,
            Fault::Row(fault) => fault.number(),
            Fault::RowNumber => 21,
        }
    }
}
