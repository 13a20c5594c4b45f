//! Which neighbours of a cell are counted.

ghost use Rattle.std.specs.Prelude.{◌≡◌, ◌++◌, OnOk};

use ca_plane::{Memory, Neighbourhood, Nine};

/// Which of a cell's neighbours a rule counts (Golly Help, QuickLife).
#[derive(Clone, Copy, Debug, PartialEq, Eq)]
pub enum Hood {
    /// All eight cells round it.
    Moore,
    /// The four cells that share a side with it: north, west, east and south (written `V`).
    VonNeumann,
    /// Six cells: all but the north-east and the south-west one (written `H`).
    Hex,
}

impl Hood {
    ghost use Rattle.ca_rule.specs.Counts.{most_of};
    ghost use Rattle.ca_rule.specs.Masks.{neighbourhood_of};
    ghost use Rattle.ca_rule.specs.Next.{neighbour_count};
    ghost use Rattle.ca_rule.specs.Spelling.{suffix_of};

    /// How many neighbours are counted.
    pub(crate) fn most(self) -> u8
        ensures { result ≡ most_of self }
    {
        match self {
            Hood::Moore => 8,
            Hood::VonNeumann => 4,
            Hood::Hex => 6,
        }
    }

    /// The neighbourhood that is counted.
    pub(crate) fn neighbourhood(self) -> Neighbourhood
        ensures { result ≡ neighbourhood_of self }
    {
        match self {
            Hood::Moore => Neighbourhood::Moore,
            Hood::VonNeumann => Neighbourhood::VonNeumann,
            Hood::Hex => Neighbourhood::Hexagonal,
        }
    }

    /// The sum of the counted neighbours of the middle of nine cells.
    pub fn sum(self, nine: &Nine) -> u16
        ensures { result ≡ neighbour_count self nine.now }
    {
        let [nw, n, ne, w, _, e, sw, s, se] = nine.map(u16::from);
        match self {
            Hood::Moore => nw + n + ne + w + e + sw + s + se,
            Hood::VonNeumann => n + w + e + s,
            Hood::Hex => nw + n + w + e + s + se,
        }
    }

    /// Appends the suffix that is printed.
    pub(crate) fn push_suffix(self, out: &mut Vec<u8>) -> Result<(), Memory>
        ensures { OnOk result (out.new.items ≡ out.old.items ++ suffix_of self) }
    {
        match self {
            Hood::Moore => {}
            Hood::VonNeumann => out.push(b'V')?,
            Hood::Hex => out.push(b'H')?,
        }
        Ok(())
    }
}
