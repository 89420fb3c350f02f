// Finding the first marker from a place on.
ghost use Rattle.recording.specs.Finding.{Found};

use signal::tape::Recording;
use training::refusals::TrainingRefusal;

// How many TUI a marker has.
pub const MARKER_TUI: usize = 32;

// Their levels: sixteen high, then sixteen low. A list, since the search goes over the bits of a marker; a reading of a
// signal looks at its two runs.
const MARKER: [bool; MARKER_TUI] = [
    true, true, true, true, true, true, true, true, true, true, true, true, true, true, true, true,
    false, false, false, false, false, false, false, false, false, false, false, false, false,
    false, false, false,
];

// The first place at or after `start` where a marker stands.
pub fn find(recording: &[u8], start: usize) -> Result<usize, TrainingRefusal>
    ensures { Found recording.now start result }
{
    let recording = Recording::new(recording)?;
    let end = recording.tui_count();
    let mut place = start;
    // By place: at the first TUI that differs from the marker the label goes on with the next place.
    let found = 'search: loop {
        // A marker does not fit any more: the test takes no sum with `place`, which may be as large as a usize gets.
        if end < MARKER_TUI || place > end - MARKER_TUI {
            return Err(TrainingRefusal::NothingFound { place: start });
        }
        for (k, level) in MARKER.iter().enumerate() {
            if recording.level_at(place + k) != *level {
                place += 1;
                continue 'search;
            }
        }
        break 'search place;
    };
    Ok(found)
}
