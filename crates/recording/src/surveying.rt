// Counting the good and the bad signals of a recording.
ghost use Rattle.recording.specs.Surveying.{Surveyed};
ghost use Rattle.recording.specs.Laws.{CountsOnce, CountsSignals};

use crate::counts::Survey;
use crate::finding::{MARKER_TUI, find};
use signal::reading::SIGNAL_TUI;
use signal::tape::Recording;
use training::refusals::TrainingRefusal;

// How many signals of a recording are good, and how many bad: finds and reads from place 0 on, until no marker is left.
pub fn survey(recording: &[u8]) -> Result<Survey, TrainingRefusal>
    ensures answer { Surveyed recording.now result }
    ensures only { CountsOnce recording.now result }
    ensures signals { CountsSignals recording.now result }
{
    let whole = Recording::new(recording)?;
    let mut survey = Survey::default();
    let mut place = 0;
    // How far a turn goes on depends on what it read, so there is no range of places to go over.
    while let Ok(start) = find(recording, place) {
        if whole.read(start).is_ok() {
            survey.good += 1;
            place = start + SIGNAL_TUI;
        } else {
            survey.bad += 1;
            place = start + MARKER_TUI;
        }
    }
    Ok(survey)
}
