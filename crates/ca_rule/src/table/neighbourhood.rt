//! The neighbourhoods of rule tables, and their symmetries.

/// Which neighbours of a cell a rule table looks at (Golly Help, File Formats: rule tables).
#[derive(Clone, Copy, Debug, PartialEq, Eq)]
pub enum Neighbourhood {
    /// North, east, south and west (written `vonNeumann`).
    VonNeumann,
    /// All eight, from the north clockwise (written `Moore`).
    Moore,
    /// All but the north-east and the south-west one, from the north clockwise (written `hexagonal`).
    Hexagonal,
    /// West and east (written `oneDimensional`).
    OneDimensional,
}

/// In which orders a transition may take the neighbours (Golly Help, File Formats: rule tables).
#[derive(Clone, Copy, Debug, PartialEq, Eq)]
pub enum Symmetry {
    /// As they are (written `none`).
    Identity,
    /// Turned by quarters (written `rotate4`).
    Rotate4,
    /// Turned by quarters, and mirrored (written `rotate4reflect`).
    Rotate4Reflect,
    /// With east and west exchanged (written `reflect_horizontal`).
    ReflectHorizontal,
    /// Turned by eighths (written `rotate8`).
    Rotate8,
    /// Turned by eighths, and mirrored (written `rotate8reflect`).
    Rotate8Reflect,
    /// Turned by halves (written `rotate2`).
    Rotate2,
    /// Turned by thirds (written `rotate3`).
    Rotate3,
    /// Turned by sixths (written `rotate6`).
    Rotate6,
    /// Turned by sixths, and mirrored (written `rotate6reflect`).
    Rotate6Reflect,
    /// With east and west exchanged, where there are no others (written `reflect`).
    Reflect,
    /// In every order (written `permute`).
    Permute,
}
