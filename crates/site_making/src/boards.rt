//! The boards of a generated site.
ghost use Rattle.std.specs.Prelude.{◌≡◌, ◌≤◌, IfOk, map};
ghost use Rattle.std.specs.List.{range_with_len};
ghost use Rattle.site_making.specs.Made.{made_board, made_faults};

use crate::sheets::made_sheet;
use crate::words::FIRST_IMAGE;
use emulated_boards::{BoardFault, PlannedFault};
use fw_base::{Listed, NoMemory};
use site_types::SiteBoard;
use std::alloc::Global;

/// The boards, from number 1 on.
pub(crate) fn made_boards(alloc: Global, boards: u32) -> Result<Listed<SiteBoard>, NoMemory>
    requires { boards ≤ 256 }
    ensures { IfOk result (λ made. made ≡ map made_board (range_with_len 1 boards)) }
{
    let mut made = Vec::new(alloc);
    for board in 1..boards + 1 {
        made.push(made_board(alloc, board)?)?;
    }
    Ok(Listed::of(made))
}

fn made_board(alloc: Global, board: u32) -> Result<SiteBoard, NoMemory>
    requires { board ≤ 256 }
    ensures { IfOk result (λ made. made ≡ made_board board) }
{
    Ok(SiteBoard {
        sheet: made_sheet(alloc, board)?,
        image: Listed::of(Vec::from_slice(alloc, FIRST_IMAGE)?),
        faults: made_faults(alloc, board)?,
    })
}

/// The first call of each fifth board fails.
fn made_faults(alloc: Global, board: u32) -> Result<Listed<PlannedFault>, NoMemory>
    ensures { IfOk result (λ faults. faults ≡ made_faults board) }
{
    let mut faults = Vec::new(alloc);
    if board % 5 == 0 {
        faults.push(PlannedFault {
            call: 1,
            fault: BoardFault::Failed,
        })?;
    }
    Ok(Listed::of(faults))
}
