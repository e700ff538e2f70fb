ghost use Rattle.protox_run.specs.Laws.{DoneAlone, DoneOnce, NoSetAlone, OthersStay, WrittenOrOpen};

use protox_compile::opens_once;
use protox_file::sets_are_read_once;

/// A run that comes to status 0 comes to no refusal, and what it writes and prints is determined by the words, the disk
/// and the input. So status 0 comes exactly where nothing is refused, want of memory and faults aside.
pub fn done_is_determined()
    ensures alone { DoneAlone }
    ensures once { DoneOnce }
    // A set that is asked for and is none is told before any file.
    ensures set { NoSetAlone }
{
    opens_once();
    sets_are_read_once();
}

/// What a run of status 3 or 4 leaves, over a disk, an input and an out that tell: each key of the disk as it was, but for
/// those of the paths of `-o` and `--wire`; and each of these as it was, or with the bytes that are written there where all is
/// done, or open since its own write was refused.
pub fn stopped_run_leaves()
    ensures others { OthersStay }
    ensures own { WrittenOrOpen }
{}
