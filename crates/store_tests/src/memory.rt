//! A keeper in memory whose calls fail.
use crate::campaigns::{Asked, document, run};
use history_keeper::{KeeperPlan, MemoryKeeper};
use std::alloc::Global;
use std::sync::Wait;
use std::test::Fail;
use std::thread::Threads;

/// How often the write of the board began where this call fails, with its change kept or lost; or nothing, where the
/// status is another one.
fn begun_at<R: Threads + Wait + Sync>(
    rt: &R,
    alloc: Global,
    document: &str,
    plan: KeeperPlan,
) -> Result<Option<usize>, Fail> {
    let mut plans = Vec::new(alloc);
    plans.push(plan)?;
    let keeper = MemoryKeeper::new(Vec::new(alloc), plans);
    let (left, _keeper) = run(rt, alloc, document, keeper)?;
    if left.status.as_str() == "history failed" {
        Ok(Some(left.begun))
    } else {
        Ok(None)
    }
}

/// A request that comes three times, over two boots. Whichever call of the keeper fails, the write of the board begins
/// once at most.
#[test]
fn each_call_of_the_keeper_fails(rt: HostRuntime) -> Result<(), Fail> {
    let alloc = rt.alloc();
    let text = document(alloc, Asked::Repeated)?;
    for call in 1..6 {
        for keep in [false, true] {
            let begun = begun_at(&rt, alloc, &text, KeeperPlan { call, keep })?;
            assert!(rt;
                matches!(begun, Some(0 | 1)),
                "call {call}, kept {keep}: {begun:?}"
            );
        }
    }
    Ok(())
}
