//! The tables of a load.

ghost use Rattle.std.specs.Prelude.{◌≡◌, []};

use arrayvec::ArrayVec;
use ctl_words::Plan;
use patch_pool::PatchId;
use uc_select::CoreFacts;

/// What a load finds for each group, and its plan. A function pays for the size of its locals and results, so these
/// tables are made once, and lent to each load, which fills them anew as far as the machine has groups and threads.
#[derive(Drop)]
pub struct LoadTables {
    /// What the cores of a group are, where it takes part.
    pub cores: ArrayVec<Option<CoreFacts>, 256>,
    /// The entry that a group is offered.
    pub offers: ArrayVec<Option<u32>, 256>,
    /// The patch that was put for it.
    pub places: ArrayVec<Option<PatchId>, 256>,
    pub plan: Plan,
}

impl LoadTables {
    /// Tables of no load.
    pub fn new() -> LoadTables
        ensures cores { result.cores.items ≡ [] }
        ensures offers { result.offers.items ≡ [] }
        ensures places { result.places.items ≡ [] }
        ensures plan { result.plan.threads ≡ 0 }
    {
        LoadTables {
            cores: ArrayVec::new(),
            offers: ArrayVec::new(),
            places: ArrayVec::new(),
            plan: Plan {
                threads: 0,
                kind: ArrayVec::new(),
                group: ArrayVec::new(),
                primary: ArrayVec::new(),
                offer: ArrayVec::new(),
                refuse: ArrayVec::new(),
                rev0: ArrayVec::new(),
                patience: 0,
            },
        }
    }
}
