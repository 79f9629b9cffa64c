//! The entry that a core is offered.
ghost use Rattle.std.specs.Prelude.{◌≡◌, ◌<◌, ◌≤◌, ◌↔◌, IsTrue, None, length, take, slice_index_or};
ghost use Rattle.entry_model.specs.Selection.{Admissible, IsOffer};
ghost use Rattle.uc_catalog.specs.Contents.{entry_at};
ghost use Rattle.uc_select.specs.Offers.{IsOfferAt, AreOffers};

use crate::fit::{fits, is_safe};
use arrayvec::ArrayVec;
use entry_model::CoreFacts;
use uc_catalog::Catalog;

/// Whether an entry of a revision above the core's is admissible.
fn is_admissible(catalog: &Catalog, i: u32, core: &CoreFacts, force: bool) -> bool
    requires entry { i < length catalog.now.entries }
    requires above { core.now.rev < (entry_at catalog.now i).facts.rev }
    ensures { IsTrue result ↔ Admissible (entry_at catalog.now i) core.now force }
{
    if force && !is_safe(catalog, i, core.rev) {
        return false;
    }
    fits(catalog, i, core)
}

/// The number of the entry that a core is offered: the first of the greatest revision among those that fit it and whose
/// revision is above its own, and with `force` are safe at its own; none where there is no such entry.
pub fn offer(catalog: &Catalog, core: &CoreFacts, force: bool) -> Option<u32>
    ensures { IsOffer catalog.now.entries core.now force result }
{
    let mut best = None;
    let mut best_rev = core.rev;
    for i in 0..catalog.len() {
        let rev = catalog.entry(i).rev;
        if rev > best_rev && is_admissible(catalog, i, core, force) {
            best = Some(i);
            best_rev = rev;
        }
    }
    best
}

/// The offer of a core, where there is one.
fn offer_at(catalog: &Catalog, core: &Option<CoreFacts>, force: bool) -> Option<u32>
    ensures { IsOfferAt catalog.now.entries core.now force result }
{
    match core {
        Some(core) => offer(catalog, core, force),
        None => None,
    }
}

/// The place of the first core that is equal to the one at a place: that place itself, where none before it is.
fn first_equal(cores: &[Option<CoreFacts>], place: usize) -> usize
    requires { place < length cores.now }
    ensures before { result ≤ place }
    ensures equal { slice_index_or cores.now result None ≡ slice_index_or cores.now place None }
{
    'cores: for earlier in 0..place {
        if cores[earlier] == cores[place] {
            return earlier;
        }
    }
    place
}

/// The offer of the core at a place, where those before it have theirs: that of the first equal one.
fn offer_in_turn(
    catalog: &Catalog,
    cores: &[Option<CoreFacts>],
    offers: &[Option<u32>],
    place: usize,
    force: bool,
) -> Option<u32>
    requires place { place < length cores.now }
    requires before { AreOffers catalog.now.entries (take place cores.now) force offers.now }
    ensures { IsOfferAt catalog.now.entries (slice_index_or cores.now place None) force result }
{
    let first = first_equal(cores, place);
    if first < place {
        offers[first]
    } else {
        offer_at(catalog, &cores[place], force)
    }
}

/// The offers of at most 256 cores, place by place; none where there is no core. The entries are passed over once for
/// each of the different cores.
pub fn offers(
    catalog: &Catalog,
    cores: &[Option<CoreFacts>],
    force: bool,
) -> ArrayVec<Option<u32>, 256>
    requires { length cores.now ≤ 256 }
    ensures { AreOffers catalog.now.entries cores.now force result.items }
{
    let mut offers = ArrayVec::new();
    fill_offers(catalog, cores, force, &mut offers);
    offers
}

/// The same, into a list that is lent: what it held is let go. Who asks often clears and moves no list of 256 places so.
pub fn fill_offers(
    catalog: &Catalog,
    cores: &[Option<CoreFacts>],
    force: bool,
    offers: &mut ArrayVec<Option<u32>, 256>,
)
    requires { length cores.now ≤ 256 }
    ensures { AreOffers catalog.now.entries cores.now force offers.new.items }
{
    offers.clear();
    'cores: for place in 0..cores.len() {
        let offer = offer_in_turn(catalog, cores, offers.as_slice(), place, force);
        offers.push(offer);
    }
}
