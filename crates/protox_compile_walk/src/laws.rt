ghost use Rattle.protox_compile_walk.specs.Again.{AcceptedAskFor, ClosesAgain};
ghost use Rattle.protox_compile_walk.specs.Laws.{RootsAreNames, KnownAreRoots, OpeningAgainMarks, ClosedAreOrdered};
ghost use Rattle.protox_compile_walk.specs.Laws.{OpensOnce, ClosesOnce, OpensByAll, RefusesByAll, ClosesByAll, StopsByAll};
ghost use Rattle.protox_compile_walk.specs.Order.{ClosesInPostOrder, ClosesAtEachDepth, ClosesDistinct, ClosesWithin};

use protox_file_sources::looked_up_once;

/// The name that a path asks for names itself; where a resolver knows the path by such a name, the path asks for this name.
/// Each of paths that are accepted asks for a name.
pub fn roots_name_themselves()
    ensures roots { RootsAreNames }
    ensures known { KnownAreRoots }
    ensures asked { AcceptedAskFor }
{}

/// What openings finish, from nothing on, is in order, each file once and behind its imports, and its records are a pool,
/// whether they were accepted or not.
pub fn closed_are_ordered()
    ensures { ClosedAreOrdered }
{}

/// Opening a path whose name is finished changes the mark of that name alone, to opened, or is refused and changes nothing.
pub fn opening_again_marks()
    ensures { OpeningAgainMarks }
{}

/// Over a resolver that tells and keeps its files, what opening paths comes to is one thing at most: look-ups that answer
/// all that it asks for lead to the same.
pub fn opens_once()
    ensures path { OpensOnce }
    ensures paths { ClosesOnce }
{
    looked_up_once();
}

/// What `open_file` and `open_files` say by some look-ups holds by each that leave no name out.
pub fn opens_by_all()
    ensures opens { OpensByAll }
    ensures refuses { RefusesByAll }
    ensures closes { ClosesByAll }
    ensures stops { StopsByAll }
{
    looked_up_once();
}

/// The walk over records that link to the finished ones is the walk: where paths were opened from nothing, the names that they
/// ask for open to the same files again, with the same records and marks in the same order, without the paths that they were
/// read from.
pub fn closes_again()
    ensures { ClosesAgain }
{}

/// Behind the files that were finished before, accepted paths finish files in the depth-first post-order of their names: each behind
/// its imports, in the order of the paths and of the imports. The order follows from the names that the paths ask for and from what
/// each name imports alone, and a greater depth does not change it. No name comes to stand twice, and the files come to be no more
/// than the limit.
pub fn closure_is_post_order()
    ensures order { ClosesInPostOrder }
    ensures depth { ClosesAtEachDepth }
    ensures once { ClosesDistinct }
    ensures limit { ClosesWithin }
{}
