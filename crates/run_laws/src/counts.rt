//! How many items count in a run, by the step table alone: for every plan and whatever the words hold.

ghost use Rattle.run_laws.specs.Counted.{RanksFall, AllRanksFall, FirstRanks, FewInnerItems, FewCounted};

/// An event lowers the rank of its thread by what its item counts, and touches no other thread's. So it does with the
/// sum of all ranks, which is at most 20 for each thread and 8 more when a rendezvous begins.
pub fn ranks_fall()
    ensures one { RanksFall }
    ensures together { AllRanksFall }
    ensures first { FirstRanks }
{}

/// No thread makes more than 2 for each thread, and 8, steps inside the handler that nobody else sees.
pub fn no_thread_makes_many_inner_items()
    ensures { FewInnerItems }
{}

/// At most 20 items for each thread, and 8, are none of Poll, Idle, Latched and Ordinary.
pub fn few_items_count()
    ensures { FewCounted }
{}
