//! A plan once more.

ghost use Rattle.std.specs.Prelude.{◌≡◌};
ghost use Rattle.ctl_table.specs.Copies.{IsCopy};

use arrayvec::ArrayVec;
use ctl_words::Plan;

/// The same plan once more. It takes no memory. Its tables are filled where they stand, since each has 256 places.
pub fn copied(plan: &Plan) -> Plan
    ensures { IsCopy plan.now result }
{
    let mut copy = Plan {
        threads: plan.threads,
        kind: ArrayVec::new(),
        group: ArrayVec::new(),
        primary: ArrayVec::new(),
        offer: ArrayVec::new(),
        refuse: ArrayVec::new(),
        rev0: ArrayVec::new(),
        patience: plan.patience,
    };
    copy_table(&plan.kind, &mut copy.kind);
    copy_table(&plan.group, &mut copy.group);
    copy_table(&plan.primary, &mut copy.primary);
    copy_table(&plan.offer, &mut copy.offer);
    copy_table(&plan.refuse, &mut copy.refuse);
    copy_table(&plan.rev0, &mut copy.rev0);
    copy
}

/// Gives a table the entries of another. What it held is let go.
fn copy_table<T: Copy + Default>(table: &ArrayVec<T, 256>, copy: &mut ArrayVec<T, 256>)
    ensures { copy.new.items ≡ table.now.items }
{
    copy.clear();
    for entry in table.as_slice() {
        copy.push(*entry);
    }
}
