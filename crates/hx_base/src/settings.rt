ghost use Rattle.std.specs.Prelude.{◌≡◌, ◌↔◌, IfOk, IsTrue};
ghost use Rattle.hx_base.specs.Limits.{FitsLimits};

use crate::Name;
use crate::limits::{HIGHEST_MARGIN_ORDER, HIGHEST_ORDER, MOST_IN_PARTITION};
use std::alloc::AllocError;

/// What an import is asked for: its name and how its rows are cut into partitions.
#[derive(Drop)]
pub struct Settings {
    /// The catalogue's name.
    pub name: Name,
    /// The lowest order of a partition.
    pub lowest: u8,
    /// The highest order of a partition.
    pub highest: u8,
    /// How many rows a partition has at most.
    pub threshold: u64,
    /// The order of the pixels by which margins are cut.
    pub margin_order: u8,
}

impl Settings {
    /// The same settings.
    pub fn copy(&self) -> Result<Settings, AllocError>
        ensures { IfOk result (λ copy. copy ≡ self.now) }
    {
        Ok(Settings {
            name: self.name.copy()?,
            lowest: self.lowest,
            highest: self.highest,
            threshold: self.threshold,
            margin_order: self.margin_order,
        })
    }

    /// Whether the orders and the threshold are within their limits: `lowest <= highest <= 20`, `highest <
    /// margin_order <= 24`, and a threshold from 1 to 1000000.
    pub fn fits(&self) -> bool
        ensures { IsTrue result ↔ FitsLimits self.now }
    {
        let orders = self.lowest <= self.highest && self.highest <= HIGHEST_ORDER;
        let margin = self.highest < self.margin_order && self.margin_order <= HIGHEST_MARGIN_ORDER;
        let threshold = 1 <= self.threshold && self.threshold <= MOST_IN_PARTITION;
        orders && margin && threshold
    }
}

#[cfg(test)]
mod tests {
    use super::*;
    use std::test::Fail;

    #[test]
    fn limits(rt: HostRuntime) -> Result<(), Fail> {
        let cases = [
            (0, 7, 1_000_000, 10, true),
            (0, 0, 1, 1, true),
            (20, 20, 1, 24, true),
            (20, 20, 1, 21, true),
            (8, 7, 1, 10, false),
            (0, 21, 1, 24, false),
            (0, 3, 1, 3, false),
            (0, 3, 1, 25, false),
            (0, 3, 0, 10, false),
            (0, 3, 1_000_001, 10, false),
        ];
        for (lowest, highest, threshold, margin_order, fits) in cases {
            let name = Name::new(rt.alloc(), "t")?.ok_or("no name")?;
            let settings = Settings {
                name,
                lowest,
                highest,
                threshold,
                margin_order,
            };
            assert_eq!(rt;
                settings.fits(),
                fits,
                "{lowest} {highest} {threshold} {margin_order}"
            );
            let copy = settings.copy()?;
            assert_eq!(rt; copy.name.as_str(), "t");
            assert_eq!(rt;
                (copy.lowest, copy.highest, copy.threshold, copy.margin_order),
                (lowest, highest, threshold, margin_order)
            );
        }
        Ok(())
    }
}
