ghost use Rattle.std.specs.Prelude.{◌≡◌, ◌≤◌, ◌<◌, ◌++◌, IsTrue, IfOk, OnErr, IfErr, length, take};
ghost use Rattle.protox_io.specs.Count.{Count, Rose, Later};
ghost use Rattle.protox_io.specs.Read.{Input};
ghost use Rattle.protox_io.specs.Sink.{Output, RefusesFor};

use thiserror::Error;

/// A source failed. Its count of faults rose, or stands at its end.
#[derive(Clone, Copy, Debug, PartialEq, Eq, Error)]
#[error("the source failed")]
pub struct Failed;

/// Why a sink refused bytes.
#[derive(Clone, Copy, Debug, PartialEq, Eq, Error)]
pub enum SinkError {
    /// The sink failed. Its count of faults rose, or stands at its end.
    #[error("the sink failed")]
    Failed,
    /// Memory ran out, which is no fault of the sink.
    #[error("out of memory")]
    NoMemory,
}

/// Bytes that come one after another, as a standard input.
pub trait Source {
    /// Whether it tells what it holds, and the bytes that are left.
    ghost input: { Self → Input };

    /// How often it has failed.
    ghost count: { Self → Count };

    /// Moves the next bytes to the front of the buffer, and says how many: at least one, unless none is left or the
    /// buffer is empty. A refused call leaves the bytes of the source as they were.
    fn read(&mut self, buf: &mut [u8]) -> Result<usize, Failed>
        ensures within { IfOk result (λ n. n ≤ length buf.new) }
        ensures told { IsTrue (input self.old).tells → IfOk result (λ n. (input self.old).left ≡ take n buf.new ++ (input self.new).left) }
        ensures some { IsTrue (input self.old).tells → IfOk result (λ n. 0 < length buf.old → 0 < length (input self.old).left → 0 < n) }
        ensures refused { IsTrue (input self.old).tells → OnErr result ((input self.new).left ≡ (input self.old).left) }
        ensures cause { OnErr result (Rose (count self.old) (count self.new)) }
        ensures later { Later (count self.old) (count self.new) }
        ensures keeps_tells { (input self.new).tells ≡ (input self.old).tells };

    /// Whether the count of faults stands at its end, so that a further fault does not raise it.
    fn spent(&self) -> bool
        ensures { result ≡ (count self.now).spent };
}

/// A place to which bytes go one after another, as a standard output.
pub trait Sink {
    /// Whether it tells what it holds, the bytes that were written, and whether it has refused bytes for want of memory,
    /// which stays so.
    ghost output: { Self → Output };

    /// How often it has failed.
    ghost count: { Self → Count };

    /// Takes the first of these bytes, and says how many: at least one, unless there are none. A refused call takes none.
    fn write(&mut self, bytes: &[u8]) -> Result<usize, SinkError>
        ensures within { IfOk result (λ n. n ≤ length bytes.now) }
        ensures some { IfOk result (λ n. 0 < length bytes.now → 0 < n) }
        ensures told { IsTrue (output self.old).tells → IfOk result (λ n. (output self.new).held ≡ (output self.old).held ++ take n bytes.now) }
        ensures refused { IsTrue (output self.old).tells → OnErr result ((output self.new).held ≡ (output self.old).held) }
        ensures cause { IfErr result (RefusesFor (Rose (count self.old) (count self.new)) (IsTrue (output self.new).short)) }
        ensures later { Later (count self.old) (count self.new) }
        ensures short { IsTrue (output self.old).short → IsTrue (output self.new).short }
        ensures keeps_tells { (output self.new).tells ≡ (output self.old).tells };

    /// Whether the count of faults stands at its end, so that a further fault does not raise it.
    fn spent(&self) -> bool
        ensures { result ≡ (count self.now).spent };
}
