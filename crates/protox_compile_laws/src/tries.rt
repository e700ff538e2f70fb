// Laws that callers use in their proofs. They have no body, but that they call laws.
ghost use Rattle.protox_compile_laws.specs.Retry.{BeginsTries, AcceptedAtLast, RefusedAtLast, ReportedAtLast};

use protox_file_sources::looked_up_once;

/// Where opening a path is refused for a fault of reading or for want of memory and is tried again, over a resolver that tells its
/// files: the last try leaves what a single opening from the files before the first try does, where it is accepted, and else is refused by
/// the same fault of the walk, or by a fault that may pass; what refused tries leave is the front of what that opening finishes.
pub fn tries_are_one()
    ensures begins { BeginsTries }
    ensures accepted { AcceptedAtLast }
    ensures refused { RefusedAtLast }
    ensures reported { ReportedAtLast }
{
    looked_up_once();
}
