//! The patches of a file, as they come.
ghost use Rattle.std.specs.Prelude.{◌≡◌, [], take, vec_len, OnOk, IfOk};
ghost use Rattle.amd_file.specs.Listing.{with_last, with_listed, grouped};

use crate::container::{AmdContainer, AmdPatch, Patches};
use crate::part::{AmdHead, AmdPart};
use std::alloc::{AllocError, Global};

/// A patch, and the head of the container that it stands in.
#[derive(Clone, Copy, Debug)]
pub struct Listed {
    pub head: AmdHead,
    /// It is the container's first patch.
    pub first: bool,
    pub patch: AmdPatch,
}

/// The patches that came so far.
#[derive(Debug, Drop)]
pub struct Listing {
    pub patches: Vec<Listed>,
    /// The head of the last container.
    pub head: AmdHead,
    /// None of its patches came.
    pub fresh: bool,
}

impl Listing {
    ghost use Rattle.std.specs.Prelude.{List};
    ghost use Rattle.amd_file.specs.declared.part.AmdPart.{AmdPart as Part};
    ghost use Rattle.amd_file.specs.Listings.{IsListing, IsAdded};

    /// No patches.
    pub fn new(alloc: Global) -> Listing
        ensures { IsListing [] result }
    {
        Listing {
            patches: Vec::new(alloc),
            head: AmdHead {
                start: 0,
                table_len: 0,
            },
            fresh: true,
        }
    }

    /// Adds what came. The patches before stay, also where memory runs out.
    pub fn add(&mut self, part: AmdPart) -> Result<(), AllocError>
        ensures ok { OnOk result ((told : List Part) → IsListing told self.old → IsAdded told part self.new) }
        ensures before { take (vec_len self.old.patches) self.new.patches.items ≡ self.old.patches.items }
    {
        match part {
            AmdPart::Container(head) => {
                self.head = head;
                self.fresh = true;
                Ok(())
            }
            AmdPart::Patch(patch) => {
                self.patches.push(Listed {
                    head: self.head,
                    first: self.fresh,
                    patch,
                })?;
                self.fresh = false;
                Ok(())
            }
            _ => Ok(()),
        }
    }
}

/// Adds a patch to a container that is the last.
fn add_to_last(containers: &mut Vec<AmdContainer>, patch: AmdPatch) -> Result<(), AllocError>
    ensures { OnOk result (containers.new.items ≡ with_last containers.old.items patch) }
{
    if containers.is_empty() {
        return Ok(());
    }
    let last = containers.len() - 1;
    let container = &mut containers[last];
    container.patches.push(patch)?;
    Ok(())
}

/// Adds a patch and, where it is the first of its container, the container.
fn add_listed(
    alloc: Global,
    containers: &mut Vec<AmdContainer>,
    listed: &Listed,
) -> Result<(), AllocError>
    ensures { OnOk result (containers.new.items ≡ with_listed containers.old.items listed.now) }
{
    if listed.first {
        containers.push(AmdContainer {
            start: listed.head.start,
            table_len: listed.head.table_len,
            patches: Patches::new(alloc),
        })?;
    }
    add_to_last(containers, listed.patch)
}

/// The containers that have a patch, each with its patches.
pub fn containers_of(alloc: Global, patches: &[Listed]) -> Result<Vec<AmdContainer>, AllocError>
    ensures { IfOk result (λ containers. containers.items ≡ grouped [] patches.now) }
{
    let mut containers = Vec::new(alloc);
    for listed in patches {
        add_listed(alloc, &mut containers, listed)?;
    }
    Ok(containers)
}
