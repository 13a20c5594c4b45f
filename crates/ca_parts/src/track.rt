//! How parts that come back move along one axis, and whether they keep clear of each other there.

ghost use Rattle.std.specs.Prelude.{ℕ, ◌^◌, ◌≡◌, ◌≤◌, ◌↔◌, pos, ◌+ℤ◌, ◌-ℤ◌, ◌*ℤ◌, ◌≤ℤ◌, ◌⊎◌, IsTrue, IsFalse, IsNone, IfSome};
ghost use Rattle.ca_parts.specs.Phases.{IsShortStep};
ghost use Rattle.ca_parts.specs.inner.Apart.{IsShort};
ghost use Rattle.ca_parts.specs.inner.Tracks.{IsTrack, IsLongWay, IsWide, IsLengthOf, way};
ghost use Rattle.ca_parts.specs.Partings.{length_of};
ghost use Rattle.ca_parts.specs.inner.Tracks.{LiesBefore, KeepsBefore, AreClear, GoesNoFaster, GoAlike};

/// What the planes of one period cover of an axis, and the step by which the part is moved along it after each
/// period.
#[derive(Clone, Copy)]
pub(crate) struct Track {
    pub(crate) first: i64,
    pub(crate) last: i64,
    pub(crate) step: i64,
    pub(crate) period: u64,
}

impl Track {
    /// The way along the axis after n generations.
    pub(crate) fn way(self, n: u64) -> i128
        requires { IsTrack self }
        ensures value { result ≡ way self n }
        ensures long { IsLongWay result }
    {
        times(n / self.period, self.step)
    }

    // Where the track begins after n generations.
    fn first_after(self, n: u64) -> i128
        requires { IsTrack self }
        ensures value { result ≡ self.first +ℤ way self n }
        ensures wide { IsWide result }
    {
        i128::from(self.first) + self.way(n)
    }

    // Where it ends then.
    fn last_after(self, n: u64) -> i128
        requires { IsTrack self }
        ensures value { result ≡ self.last +ℤ way self n }
        ensures wide { IsWide result }
    {
        i128::from(self.last) + self.way(n)
    }

    // Whether after n generations the track ends at least that far before the other one begins.
    fn lies_before(self, other: Track, n: u64, gap: i128) -> bool
        requires one { IsTrack self }
        requires other { IsTrack other }
        requires some { pos 0 ≤ℤ gap }
        requires most { gap ≤ℤ pos (2 ^ 64) }
        ensures { IsTrue result ↔ LiesBefore self other n gap }
    {
        self.last_after(n) + gap <= other.first_after(n)
    }

    // Whether the part goes forward no faster than the other, over the same time.
    fn goes_no_faster(self, other: Track) -> bool
        requires one { IsTrack self }
        requires other { IsTrack other }
        ensures { IsTrue result ↔ GoesNoFaster self other }
    {
        times(other.period, self.step) <= times(self.period, other.step)
    }

    // Whether the track ends before the other one begins, 3 cells further at least, after n generations and more.
    fn stays_before(self, other: Track, n: u64) -> bool
        requires one { IsTrack self }
        requires other { IsTrack other }
        ensures kept { IsTrue result ↔ KeepsBefore self other n }
        ensures clear { IsTrue result → (k : ℕ) → n ≤ k → LiesBefore self other k (pos 3) }
    {
        self.goes_no_faster(other)
            && self.lies_before(other, n, length_of(self.step) + length_of(other.step) + 3)
    }
}

// The step, gone that many times.
fn times(count: u64, step: i64) -> i128
    requires { IsShortStep step }
    ensures value { result ≡ pos count *ℤ step }
    ensures long { IsLongWay result }
{
    i128::from(count) * i128::from(step)
}

// How long the step is, forward or back.
fn length_of(step: i64) -> i128
    requires { IsShortStep step }
    ensures value { result ≡ length_of step }
    ensures bounds { IsLengthOf step result }
{
    i128::from(step).abs()
}

// Whether no window of three cells sees both after n generations.
fn are_clear(one: Track, other: Track, n: u64) -> bool
    requires one { IsTrack one }
    requires other { IsTrack other }
    ensures clear { IsTrue result → AreClear one other n }
    ensures near { IsFalse result → IsShort (way one n -ℤ way other n) }
{
    one.lies_before(other, n, 3) || other.lies_before(one, n, 3)
}

/// The way from the other track to the first after n generations, where some window of three cells sees both.
pub(crate) fn way_between(one: Track, other: Track, n: u64) -> Option<i128>
    requires one { IsTrack one }
    requires other { IsTrack other }
    ensures none { IsNone result → AreClear one other n }
    ensures way { IfSome result (λ d. d ≡ way one n -ℤ way other n) }
    ensures short { IfSome result IsShort }
{
    if are_clear(one, other, n) {
        return None;
    }
    Some(one.way(n) - other.way(n))
}

/// Whether it is known at once that none ever does, after n generations and more.
pub(crate) fn stay_clear(one: Track, other: Track, n: u64) -> bool
    requires one { IsTrack one }
    requires other { IsTrack other }
    ensures kept { IsTrue result ↔ KeepsBefore one other n ⊎ KeepsBefore other one n }
    ensures clear { IsTrue result → (k : ℕ) → n ≤ k → AreClear one other k }
{
    one.stays_before(other, n) || other.stays_before(one, n)
}

/// Whether both go the same way over the same time.
pub(crate) fn go_alike(one: Track, other: Track) -> bool
    requires one { IsTrack one }
    requires other { IsTrack other }
    ensures alike { IsTrue result ↔ GoAlike one other }
{
    one.goes_no_faster(other) && other.goes_no_faster(one)
}
