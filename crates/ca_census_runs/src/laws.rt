//! Laws of the lines on a census, over the definitions alone.

ghost use Rattle.std.specs.Prelude.{◌≡◌, ℕ, List};
ghost use Rattle.ca_census.specs.declared.census.Census.{Census};
ghost use Rattle.ca_census_runs.specs.declared.task.CensusTask.{CensusTask};
ghost use Rattle.ca_census_runs.specs.Prelude.{AreCensusLines};

/// A census has one text: the task, the name and the census determine the lines on it.
pub fn one_text()
    ensures { (task : CensusTask) (name : List ℕ) (census : Census) (one two : List ℕ)
        → AreCensusLines task name census one → AreCensusLines task name census two → one ≡ two }
{}
