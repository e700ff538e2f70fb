//! Why a program is stopped, and what err is told of it.

ghost use Rattle.std.specs.Prelude.{◌≡◌, ◌∷◌, []};
ghost use Rattle.protox_io.specs.Count.{Rose};
ghost use Rattle.protox_io.specs.Sink.{Says, SinkRefuses};
ghost use Rattle.protox_run.specs.Outcome.{error_line};
ghost use Rattle.protox_run.specs.Told.{Lasts};
ghost use Rattle.protox_sets.specs.Stops.{stop_status, stop_line};

use pbx_wire::Text;
use protox_io::Sink;
use protox_run::say;

/// Why a program is stopped.
#[derive(Debug, Drop)]
pub enum Stop {
    /// The words are of another number or form than the program takes: status 2.
    Usage,
    /// What the words name is refused, with this line: status 1.
    Refused(Text),
    /// Something outside failed, with this line: status 3.
    Broken(Text),
    /// Memory ran out: status 4.
    NoMemory,
}

/// Says on err why the program is stopped, and gives its status. `usage` is the line of how it is called.
pub fn report<E: Sink>(err: &mut E, usage: &str, stop: &Stop) -> u8
    ensures status { result ≡ stop_status stop.now }
    ensures said { Says (E.output err.old).tells (SinkRefuses (Rose (E.count err.old) (E.count err.new)) (E.output err.new).short) (E.output err.old).held
        (E.output err.new).held (error_line (stop_line usage.now stop.now ∷ [])) }
    ensures lasts { Lasts (E.output err.old).tells (E.output err.new).tells (E.count err.old) (E.count err.new) }
{
    let (status, line) = match stop {
        Stop::Usage => (2, usage),
        Stop::Refused(line) => (1, line.as_str()),
        Stop::Broken(line) => (3, line.as_str()),
        Stop::NoMemory => (4, "out of memory"),
    };
    say(err, line);
    status
}
