//! Where the slots of a transition take their cells.

ghost use Rattle.std.specs.Prelude.{◌≡◌, ◌≢◌, ◌∷◌, map};
ghost use Rattle.ca_rule.specs.TableOrders.{ring};
ghost use Rattle.ca_rule.specs.inner.TablePlaces.{ArePlacesOf};
ghost use Rattle.ca_rule.specs.declared.table.neighbourhood.Neighbourhood.TheVariants.{VonNeumann, Moore, Hexagonal};
ghost use Rattle.ca_rule.specs.declared.table.neighbourhood.Neighbourhood.TheVariants.{OneDimensional};
ghost use Rattle.ca_rule.specs.declared.table.neighbourhood.Symmetry.TheVariants.{Permute};

use crate::table::neighbourhood::{Neighbourhood, Symmetry};

/// In which orders the slots of a transition take their cells.
#[derive(Clone, Copy)]
pub(crate) enum Orders {
    /// In these, each given by the places of the slots' cells.
    Listed(&'static [&'static [u8]]),
    /// In every order of the neighbourhood's ring.
    Every(Neighbourhood),
}

impl Orders {
    ghost use Rattle.std.specs.Prelude.{◌≡◌, true};
    ghost use Rattle.std.specs.List.{list_all};
    ghost use Rattle.ca_rule.specs.inner.TablePlaces.{begins_at_centre, ArePlacesOf};
    ghost use Rattle.ca_rule.specs.inner.TableSearch.{placements_of};

    /// The orders of a symmetry of the neighbourhood.
    #[tactic(auto, using(crate::proofs::RingOrders::every_order_placed))]
    pub(crate) fn of(neighbourhood: Neighbourhood, symmetry: Symmetry) -> Orders
        ensures placements { ArePlacesOf neighbourhood symmetry (placements_of result) }
        ensures centred { list_all begins_at_centre (placements_of result) ≡ true }
    {
        match symmetry {
            Symmetry::Permute => Orders::Every(neighbourhood),
            _ => Orders::Listed(placements(neighbourhood, symmetry)),
        }
    }
}

/// The places of the slots' cells where the ring's cells are taken as they are.
pub(crate) fn as_it_stands(neighbourhood: Neighbourhood) -> &'static [u8]
    ensures { result.now ≡ 4 ∷ ring neighbourhood }
{
    match neighbourhood {
        Neighbourhood::VonNeumann => FOUR[0],
        Neighbourhood::Moore => EIGHT[0],
        Neighbourhood::Hexagonal => SIX[0],
        Neighbourhood::OneDimensional => &[4, 3, 5],
    }
}

/// For each order of the symmetry, except `permute`: the places of the slots' cells among nine, the centre's
/// first. A symmetry that the neighbourhood doesn't have has none.
pub(crate) fn placements(
    neighbourhood: Neighbourhood,
    symmetry: Symmetry,
) -> &'static [&'static [u8]]
    ensures { symmetry ≢ Permute → ArePlacesOf neighbourhood symmetry (map (λ p. p.now) result.now) }
{
    match neighbourhood {
        Neighbourhood::VonNeumann => placements_of_four(symmetry),
        Neighbourhood::Moore => placements_of_eight(symmetry),
        Neighbourhood::Hexagonal => placements_of_six(symmetry),
        Neighbourhood::OneDimensional => placements_of_two(symmetry),
    }
}

/// The places round a ring of four, the centre's first, in each turned or mirrored order, the least first.
const FOUR: [&[u8]; 8] = [
    &[4, 1, 5, 7, 3],
    &[4, 1, 3, 7, 5],
    &[4, 5, 1, 3, 7],
    &[4, 5, 7, 3, 1],
    &[4, 7, 5, 1, 3],
    &[4, 7, 3, 1, 5],
    &[4, 3, 1, 5, 7],
    &[4, 3, 7, 5, 1],
];

/// Those round a ring of four.
fn placements_of_four(symmetry: Symmetry) -> &'static [&'static [u8]]
    ensures { symmetry ≢ Permute → ArePlacesOf VonNeumann symmetry (map (λ p. p.now) result.now) }
{
    match symmetry {
        Symmetry::Identity => &[FOUR[0]],
        Symmetry::Rotate4 => &[FOUR[0], FOUR[3], FOUR[5], FOUR[6]],
        Symmetry::Rotate4Reflect => &FOUR,
        Symmetry::ReflectHorizontal => &[FOUR[0], FOUR[1]],
        _ => &[],
    }
}

/// The places round a ring of eight, the centre's first, in each turned or mirrored order, the least first.
const EIGHT: [&[u8]; 16] = [
    &[4, 1, 2, 5, 8, 7, 6, 3, 0],
    &[4, 1, 0, 3, 6, 7, 8, 5, 2],
    &[4, 2, 1, 0, 3, 6, 7, 8, 5],
    &[4, 2, 5, 8, 7, 6, 3, 0, 1],
    &[4, 5, 2, 1, 0, 3, 6, 7, 8],
    &[4, 5, 8, 7, 6, 3, 0, 1, 2],
    &[4, 8, 5, 2, 1, 0, 3, 6, 7],
    &[4, 8, 7, 6, 3, 0, 1, 2, 5],
    &[4, 7, 8, 5, 2, 1, 0, 3, 6],
    &[4, 7, 6, 3, 0, 1, 2, 5, 8],
    &[4, 6, 7, 8, 5, 2, 1, 0, 3],
    &[4, 6, 3, 0, 1, 2, 5, 8, 7],
    &[4, 3, 6, 7, 8, 5, 2, 1, 0],
    &[4, 3, 0, 1, 2, 5, 8, 7, 6],
    &[4, 0, 1, 2, 5, 8, 7, 6, 3],
    &[4, 0, 3, 6, 7, 8, 5, 2, 1],
];

/// Those round a ring of eight.
fn placements_of_eight(symmetry: Symmetry) -> &'static [&'static [u8]]
    ensures { symmetry ≢ Permute → ArePlacesOf Moore symmetry (map (λ p. p.now) result.now) }
{
    match symmetry {
        Symmetry::Identity => &[EIGHT[0]],
        Symmetry::Rotate4 => &[EIGHT[0], EIGHT[5], EIGHT[9], EIGHT[13]],
        Symmetry::Rotate4Reflect => &[
            EIGHT[0], EIGHT[1], EIGHT[4], EIGHT[5], EIGHT[8], EIGHT[9], EIGHT[12], EIGHT[13],
        ],
        Symmetry::ReflectHorizontal => &[EIGHT[0], EIGHT[1]],
        Symmetry::Rotate8 => &[
            EIGHT[0], EIGHT[3], EIGHT[5], EIGHT[7], EIGHT[9], EIGHT[11], EIGHT[13], EIGHT[14],
        ],
        Symmetry::Rotate8Reflect => &EIGHT,
        _ => &[],
    }
}

/// The places round a ring of six, the centre's first, in each turned or mirrored order, the least first.
const SIX: [&[u8]; 12] = [
    &[4, 1, 5, 8, 7, 3, 0],
    &[4, 1, 0, 3, 7, 8, 5],
    &[4, 5, 1, 0, 3, 7, 8],
    &[4, 5, 8, 7, 3, 0, 1],
    &[4, 8, 5, 1, 0, 3, 7],
    &[4, 8, 7, 3, 0, 1, 5],
    &[4, 7, 8, 5, 1, 0, 3],
    &[4, 7, 3, 0, 1, 5, 8],
    &[4, 3, 7, 8, 5, 1, 0],
    &[4, 3, 0, 1, 5, 8, 7],
    &[4, 0, 1, 5, 8, 7, 3],
    &[4, 0, 3, 7, 8, 5, 1],
];

/// Those round a ring of six.
fn placements_of_six(symmetry: Symmetry) -> &'static [&'static [u8]]
    ensures { symmetry ≢ Permute → ArePlacesOf Hexagonal symmetry (map (λ p. p.now) result.now) }
{
    match symmetry {
        Symmetry::Identity => &[SIX[0]],
        Symmetry::Rotate2 => &[SIX[0], SIX[7]],
        Symmetry::Rotate3 => &[SIX[0], SIX[5], SIX[9]],
        Symmetry::Rotate6 => &[SIX[0], SIX[3], SIX[5], SIX[7], SIX[9], SIX[10]],
        Symmetry::Rotate6Reflect => &SIX,
        _ => &[],
    }
}

/// Those of two cells.
fn placements_of_two(symmetry: Symmetry) -> &'static [&'static [u8]]
    ensures { symmetry ≢ Permute → ArePlacesOf OneDimensional symmetry (map (λ p. p.now) result.now) }
{
    match symmetry {
        Symmetry::Identity => &[&[4, 3, 5]],
        Symmetry::Reflect => &[&[4, 3, 5], &[4, 5, 3]],
        _ => &[],
    }
}
