ghost use Rattle.std.specs.List.{flat_map};
ghost use Rattle.std.specs.Prelude.{◌≡◌, ◌≤◌, IsTrue, IfErr};
ghost use Rattle.protox_io.specs.Count.{Rose, Later};
ghost use Rattle.protox_io.specs.Sink.{RefusesFor, Appends, Prints};

use crate::{Sink, SinkError};

/// Writes all the bytes, unless a write is refused. Then the first of them may stand in the sink. It takes no memory of
/// its own: `NoMemory` is the sink's answer.
pub fn write_all<K: Sink>(sink: &mut K, bytes: &[u8]) -> Result<(), SinkError>
    ensures told { IsTrue (K.output sink.old).tells → Appends (K.output sink.old).held (K.output sink.new).held (Prints bytes.now result) }
    ensures cause { IfErr result (RefusesFor (Rose (K.count sink.old) (K.count sink.new)) (IsTrue (K.output sink.new).short)) }
    ensures later { Later (K.count sink.old) (K.count sink.new) }
    ensures keeps_tells { (K.output sink.new).tells ≡ (K.output sink.old).tells }
{
    let mut rest = bytes;
    while !rest.is_empty() {
        let n = sink.write(rest)?;
        rest = &rest[n..];
    }
    Ok(())
}

/// Writes the pieces in a row, unless a write is refused. Then the first bytes of the row may stand in the sink. It takes
/// no memory of its own, so that a line can be said when memory has run out.
pub fn write_pieces<K: Sink>(sink: &mut K, pieces: &[&[u8]]) -> Result<(), SinkError>
    ensures told { IsTrue (K.output sink.old).tells → Appends (K.output sink.old).held (K.output sink.new).held (Prints (flat_map (λ p. p.now) pieces.now) result) }
    ensures cause { IfErr result (RefusesFor (Rose (K.count sink.old) (K.count sink.new)) (IsTrue (K.output sink.new).short)) }
    ensures later { Later (K.count sink.old) (K.count sink.new) }
    ensures keeps_tells { (K.output sink.new).tells ≡ (K.output sink.old).tells }
{
    for piece in pieces {
        match write_all(sink, piece) {
            Ok(()) => {}
            Err(error) => return Err(error),
        }
    }
    Ok(())
}
