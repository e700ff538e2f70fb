//! What holds of the built-in files as files of a pool.
#![tactic(auto)]

ghost use Rattle.pbx_wkt_laws.specs.Laws.{FilesAreLinked};

/// Linking the built-in files, one behind another, breaks no rule and leaves their records as they are. A law
/// that callers use in their proofs; it has no body.
pub fn files_are_linked()
    ensures { FilesAreLinked }
{}
