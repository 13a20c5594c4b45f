//! The places that the slots of a transition take, slot by slot.

ghost use Rattle.std.specs.Prelude.{◌≡◌, ◌==◌, ◌<◌, ◌≤◌, ◌+◌, [], ◌∷◌, ◌++◌, length, take, get_or, slice_index, remove};
ghost use Rattle.std.specs.List.{list_any};
ghost use Rattle.ca_rule.specs.TableOrders.{ring};

use crate::table::neighbourhood::Neighbourhood;
use ca_plane::Nine;

/// Places among nine cells: those that the first slots have taken, and those that are free, in the order of
/// the ring.
#[derive(Clone, Copy)]
pub(crate) struct Choice {
    taken: [u8; 9],
    taken_count: usize,
    free: [u8; 8],
    free_count: usize,
    ghost few_free: { free_count ≤ 8 },
    ghost few: { taken_count + free_count ≤ 9 },
}

impl Choice {
    ghost use Rattle.ca_rule.specs.inner.TableChoice.{taken_of, free_of};

    /// The centre is taken, by the first slot, and the ring is free.
    pub(crate) fn of_ring(neighbourhood: Neighbourhood) -> Choice
        ensures taken { taken_of result ≡ 4 ∷ [] }
        ensures free { free_of result ≡ ring neighbourhood }
    {
        let (free, free_count) = match neighbourhood {
            Neighbourhood::VonNeumann => ([1, 5, 7, 3, 0, 0, 0, 0], 4),
            Neighbourhood::Moore => ([1, 2, 5, 8, 7, 6, 3, 0], 8),
            Neighbourhood::Hexagonal => ([1, 5, 8, 7, 3, 0, 0, 0], 6),
            Neighbourhood::OneDimensional => ([3, 5, 0, 0, 0, 0, 0, 0], 2),
        };
        Choice {
            taken: [4, 0, 0, 0, 0, 0, 0, 0, 0],
            taken_count: 1,
            free,
            free_count,
        }
    }

    /// The places that are taken, in the order of the slots.
    pub(crate) fn taken_places(&self) -> &[u8]
        ensures { result.now ≡ taken_of self.now }
    {
        &self.taken[..self.taken_count]
    }

    /// The places that are free, in the order of the ring.
    pub(crate) fn free_places(&self) -> &[u8]
        ensures { result.now ≡ free_of self.now }
    {
        &self.free[..self.free_count]
    }

    /// How many places are free.
    pub(crate) fn free_count(&self) -> usize
        ensures count { result ≡ self.now.free_count }
        ensures length { result ≡ length (free_of self.now) }
    {
        self.free_count
    }

    /// Whether the cell at that free place is equal to the cell at a free place before it.
    pub(crate) fn repeats(&self, at: usize, nine: &Nine) -> bool
        requires { at < self.now.free_count }
        ensures { result
            ≡ list_any (λ p. slice_index nine.now p == slice_index nine.now (get_or (free_of self.now) at 0))
            (take at (free_of self.now)) }
    {
        let cell = cell_at(nine, self.free[at]);
        has_cell(&self.free[..at], cell, nine)
    }

    /// The next slot takes one of the free places.
    pub(crate) fn with(self, at: usize) -> Choice
        requires { at < self.free_count }
        ensures taken { taken_of result ≡ taken_of self ++ get_or (free_of self) at 0 ∷ [] }
        ensures free { free_of result ≡ remove (free_of self) at }
        ensures count { result.free_count + 1 ≡ self.free_count }
    {
        let mut taken = self.taken;
        taken[self.taken_count] = self.free[at];
        let mut free = self.free;
        free[at..].rotate_left(1);
        Choice {
            taken,
            taken_count: self.taken_count + 1,
            free,
            free_count: self.free_count - 1,
        }
    }
}

/// The cell at a place among nine.
pub(crate) fn cell_at(nine: &Nine, place: u8) -> u8
    ensures { result ≡ slice_index nine.now place }
{
    nine.get(usize::from(place)).copied().unwrap_or(0)
}

/// Whether the cell is at one of the places.
fn has_cell(places: &[u8], cell: u8, nine: &Nine) -> bool
    ensures { result ≡ list_any (λ p. slice_index nine.now p == cell) places.now }
{
    places.iter().any(|place| cell_at(nine, *place) == cell)
}
