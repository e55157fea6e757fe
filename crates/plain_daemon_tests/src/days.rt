//! Boots of one house, with one install asked for in each: two of an install that is done at once, three of one that
//! is put off.
ghost use Rattle.std.specs.Prelude.{◌≤◌};

use crate::driver::{Day, Deed, Morning, play};
use crate::left::Left;
use crate::requests::{Wish, wished, wished_offline};
use crate::scenes::{PLAIN, Scene};
use crate::told::{Start, Told, start_of, told_in};
use std::alloc::Global;
use std::process::Abort;
use std::sync::Wait;
use std::test::Fail;
use std::thread::Threads;

/// The first boot of a house, as nothing is planned for it.
pub const FIRST: Morning = Morning {
    time: 1000,
    limit: None,
    absent: None,
};

/// The second boot.
pub const SECOND: Morning = Morning {
    time: 2000,
    ..FIRST
};

/// The third boot.
const THIRD: Morning = Morning {
    time: 3000,
    ..FIRST
};

/// How the boots began, what the install was answered in each, and what is left.
#[derive(Clone, Copy, Debug, PartialEq, Eq)]
pub struct TwoDays {
    pub starts: [Start; 2],
    pub told: [Told; 2],
    pub left: Left,
}

/// Plays an install in each of two boots, the first of which has this limit, over a keeper whose calls of these
/// numbers fail; a change whose commit failed is kept or not.
pub fn two_days<R: Abort + Threads + Wait + Sync>(
    rt: &R,
    alloc: Global,
    scene: &Scene,
    failing: &[(u32, bool)],
    limit: Option<u32>,
    wish: Wish,
) -> Result<TwoDays, Fail>
    requires { scene.now.pool ≤ 16384 }
{
    let install = [Deed::Install(wished("t1", wish)?)];
    let morning = Morning { limit, ..FIRST };
    let days: [Day; 2] = [(morning, &install), (SECOND, &install)];
    let (log, left) = play(rt, alloc, scene, Vec::new(alloc), failing, &days)?;
    let log = log.items();
    Ok(TwoDays {
        starts: [start_of(log, 1), start_of(log, 2)],
        told: [told_in(log, 1, 0), told_in(log, 2, 0)],
        left,
    })
}

/// The same of three boots, in each of which the install is to be put off.
#[derive(Clone, Copy, Debug, PartialEq, Eq)]
pub struct ThreeDays {
    pub starts: [Start; 3],
    pub told: [Told; 3],
    pub left: Left,
}

/// Plays an install that is put off in each of three boots, in the second of which a board may be absent, over a
/// keeper whose calls of these numbers fail; a change whose commit failed is kept or not.
pub fn three_days<R: Abort + Threads + Wait + Sync>(
    rt: &R,
    alloc: Global,
    failing: &[(u32, bool)],
    absent: Option<u32>,
    wish: Wish,
) -> Result<ThreeDays, Fail> {
    let install = [Deed::Install(wished_offline("t1", wish)?)];
    let morning = Morning { absent, ..SECOND };
    let days: [Day; 3] = [(FIRST, &install), (morning, &install), (THIRD, &install)];
    let (log, left) = play(rt, alloc, &PLAIN, Vec::new(alloc), failing, &days)?;
    let log = log.items();
    Ok(ThreeDays {
        starts: [start_of(log, 1), start_of(log, 2), start_of(log, 3)],
        told: [told_in(log, 1, 0), told_in(log, 2, 0), told_in(log, 3, 0)],
        left,
    })
}
