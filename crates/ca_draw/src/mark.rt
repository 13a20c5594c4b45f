//! What is drawn of one square, and its letters and greys.

ghost use Rattle.std.specs.Prelude.{◌≡◌};
ghost use Rattle.ca_draw.specs.Marks.{state_mark, live_mark, state_letter, state_grey, mark_letter, mark_grey};

/// What is drawn of a square of cells.
#[derive(Clone, Copy, Drop)]
pub(crate) enum Mark {
    /// No cell of it is live.
    Dead,
    /// Some cell of it is live.
    Live,
    /// Its one cell has this state, which isn't 0.
    State(u8),
}

impl Mark {
    /// That of a cell whose state is shown.
    pub(crate) fn of_state(state: u8) -> Mark
        ensures { result ≡ state_mark state }
    {
        if state == 0 {
            return Mark::Dead;
        }
        Mark::State(state)
    }

    /// That of a square that shows whether a cell of it is live.
    pub(crate) fn of_live(live: bool) -> Mark
        ensures { result ≡ live_mark live }
    {
        if live {
            return Mark::Live;
        }
        Mark::Dead
    }

    /// The character that is drawn.
    pub(crate) fn letter(self) -> u8
        ensures { result ≡ mark_letter self }
    {
        match self {
            Mark::Dead => b'.',
            Mark::Live => b'o',
            Mark::State(state) => state_letter(state),
        }
    }

    /// The grey that is drawn, where `states` states are told apart.
    pub(crate) fn grey(self, states: u16) -> u8
        ensures { result ≡ mark_grey states self }
    {
        match self {
            Mark::Dead => 255,
            Mark::Live => 0,
            Mark::State(state) => state_grey(state, states),
        }
    }
}

// The letter of a state.
fn state_letter(state: u8) -> u8
    ensures { result ≡ state_letter state }
{
    if state < 25 {
        return 64 + state;
    }
    if state < 49 {
        return 72 + state;
    }
    b'*'
}

// The grey of a state.
fn state_grey(state: u8, states: u16) -> u8
    ensures { result ≡ state_grey states state }
{
    let above_1 = u32::from(state.saturating_sub(1));
    let steps = u32::from(states.max(2) - 1);
    (255 * above_1 / steps).min(254) as u8
}
