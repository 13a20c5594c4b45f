//! Worked examples of the definitions.

ghost use Rattle.std.specs.Prelude.{[], ◌∷◌, codes};
ghost use Rattle.ca_apgcode.specs.Representation.{IsCode};

/// The codes of well known patterns. Their cells are written as columns from the west, each of them a binary
/// number with the northern cell as 1.
pub fn worked_examples()
    // xs4_33, the block
    ensures block { IsCode (record { height = 2; columns = 3 ∷ 3 ∷ [] }) (codes "33") }
    // xs6_696, the beehive
    ensures beehive { IsCode (record { height = 4; columns = 6 ∷ 9 ∷ 6 ∷ [] }) (codes "696") }
    // xs5_253, the boat
    ensures boat { IsCode (record { height = 3; columns = 2 ∷ 5 ∷ 3 ∷ [] }) (codes "253") }
    // xq4_153, the glider
    ensures glider { IsCode (record { height = 3; columns = 1 ∷ 5 ∷ 3 ∷ [] }) (codes "153") }
    // xq4_6frc, the lightweight spaceship
    ensures lightweight { IsCode (record { height = 5; columns = 6 ∷ 15 ∷ 27 ∷ 12 ∷ [] }) (codes "6frc") }
    // xp15_4r4z4r4, the pentadecathlon
    ensures pentadecathlon { IsCode (record { height = 10; columns = 132 ∷ 891 ∷ 132 ∷ [] }) (codes "4r4z4r4") }
    // one, two, three and four columns without cells
    ensures gaps { IsCode (record {
      height = 1;
      columns
          = 1 ∷ 0 ∷ 1 ∷ 0 ∷ 0 ∷ 1 ∷ 0 ∷ 0 ∷ 0 ∷ 1 ∷ 0 ∷ 0 ∷ 0 ∷ 0 ∷ 1 ∷ [];
    }) (codes "101w1x1y01") }
{}
