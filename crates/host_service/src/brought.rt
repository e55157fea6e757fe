//! The shelves.
ghost use Rattle.std.specs.Prelude.{◌≡◌, IfOk, replicate};
ghost use Rattle.client_plays.specs.Has.{shelves_told};
ghost use Rattle.host_service.specs.Brought.{folder_shelves};

use fw_base::NoMemory;
use outer_traits::FolderShelf;
use std::rt::HostRuntime;

/// How many clients a campaign has at most, each with a shelf of its own.
const SHELVES: u32 = 16;

/// The shelves, all over one folder.
pub fn shelves_over(
    host: &HostRuntime,
    folder: &str,
) -> Result<Vec<FolderShelf<HostRuntime>>, NoMemory>
    ensures { IfOk result (λ shelves. shelves_told (⟦<FolderShelf<HostRuntime> as outer_traits::Shelf>⟧).files (⟦<FolderShelf<HostRuntime> as outer_traits::Shelf>⟧).faults shelves.items ≡ folder_shelves) }
{
    let shelves = new_shelves(host, folder)?;
    Ok(shelves)
}

// So many, none of which has met a fault.
fn new_shelves(host: &HostRuntime, folder: &str) -> Result<Vec<FolderShelf<HostRuntime>>, NoMemory>
    ensures { IfOk result (λ shelves. shelves.items ≡ replicate 16 0) }
{
    let mut shelves = Vec::new(host.alloc());
    for _ in 0..SHELVES {
        shelves.push(new_shelf(host, folder)?)?;
    }
    Ok(shelves)
}

fn new_shelf(host: &HostRuntime, folder: &str) -> Result<FolderShelf<HostRuntime>, NoMemory>
    ensures { IfOk result (λ shelf. shelf ≡ 0) }
{
    let folder = String::from_str(host.alloc(), folder)?;
    Ok(FolderShelf::new(host.clone()?, folder))
}
