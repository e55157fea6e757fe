//! Calls of the keeper that fail: a doubtful commit is kept or lost.
use crate::days::two_days;
use crate::requests::Wish;
use crate::scenes::PLAIN;
use crate::told::{Start, Told, Why};
use history_keeper::RowState;
use std::test::Fail;
use update_log::Stored;

/// A plan of the calls that fail, and of those whose change is there after the next reopening; how the two boots
/// begin; what the install is answered in each; and how many writes began and ended.
type Case = (&'static [(u32, bool)], [Start; 2], [Told; 2], usize);

/// The install was done, and the store of that is in doubt.
const IN_DOUBT: Told = Told::Finished {
    entry: 1,
    state: RowState::Success,
    stored: Stored::Fault,
};

const WELL: [Start; 2] = [Start::Well; 2];

const UNSTORED: Told = Told::Refused(Why::KeeperFault);

const DONE: Told = Told::Finished {
    entry: 1,
    state: RowState::Success,
    stored: Stored::Yes,
};

const SUCCESS: Told = Told::Kept {
    entry: 1,
    state: RowState::Success,
};

const FAILED: Told = Told::Kept {
    entry: 1,
    state: RowState::Failed,
};

const NOT_FIRST: [Start; 2] = [Start::KeeperFault, Start::Well];

const NOT_SECOND: [Start; 2] = [Start::Well, Start::KeeperFault];

/// The calls of the keeper are the load of the first boot, the commits of the claim and of the finish, and the
/// reopening and the load of the second boot. Where the first claim is in doubt, calls 3 and 4 are those of the
/// second boot, and 5 is the commit of its judgement or of its claim.
const CASES: [Case; 18] = [
    (&[], WELL, [DONE, SUCCESS], 1),
    (&[(1, false)], NOT_FIRST, [Told::Off, DONE], 1),
    (&[(1, true)], NOT_FIRST, [Told::Off, DONE], 1),
    (&[(2, false)], WELL, [UNSTORED, DONE], 1),
    (&[(2, true)], WELL, [UNSTORED, FAILED], 0),
    (&[(3, false)], WELL, [IN_DOUBT, SUCCESS], 1),
    (&[(3, true)], WELL, [IN_DOUBT, SUCCESS], 1),
    (&[(4, false)], NOT_SECOND, [DONE, Told::Off], 1),
    (&[(4, true)], NOT_SECOND, [DONE, Told::Off], 1),
    (&[(5, false)], NOT_SECOND, [DONE, Told::Off], 1),
    (&[(5, true)], NOT_SECOND, [DONE, Told::Off], 1),
    (&[(6, false)], WELL, [DONE, SUCCESS], 1),
    (&[(6, true)], WELL, [DONE, SUCCESS], 1),
    (
        &[(2, true), (3, false)],
        NOT_SECOND,
        [UNSTORED, Told::Off],
        0,
    ),
    (&[(2, true), (5, false)], WELL, [UNSTORED, Told::Off], 0),
    (&[(2, true), (5, true)], WELL, [UNSTORED, Told::Off], 0),
    (&[(2, false), (5, false)], WELL, [UNSTORED, UNSTORED], 0),
    (&[(2, false), (6, true)], WELL, [UNSTORED, IN_DOUBT], 1),
];

/// Each call of the keeper fails in turn, and the change of a commit is kept or lost; the next boot finds which.
#[test]
fn a_doubtful_commit_is_kept_or_lost(rt: HostRuntime) -> Result<(), Fail> {
    for (failing, starts, told, writes) in CASES {
        let days = two_days(&rt, rt.alloc(), &PLAIN, failing, None, Wish::Newer)?;
        assert_eq!(rt; days.starts, starts, "{failing:?}");
        assert_eq!(rt; days.told, told, "{failing:?}");
        assert_eq!(rt;
            (days.left.began, days.left.ended),
            (writes, writes),
            "{failing:?}"
        );
    }
    Ok(())
}
