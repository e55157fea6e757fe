//! Starting the boards.
ghost use Rattle.std.specs.Prelude.{◌≡◌, ◌≤◌, [], length, vec_len, vec_capacity};
ghost use Rattle.update_log.specs.Legal.{is_absent};
ghost use Rattle.daemon_core.specs.Booting.{AllCanStart, AllStarted, CanBeStarted, Started};

use crate::place::BoardPlace;
use emulated_boards::Mark;
use update_log::{BoardSeen, BootPlan, Told};

/// Starts each board as the plan has it, absent or not, and lists what each shows then with the marks that
/// weren't told. Takes no memory.
pub(crate) fn start_all(places: &mut [BoardPlace], plan: &BootPlan, listed: &mut Vec<BoardSeen>)
    requires each { AllCanStart places.old }
    requires few { length places.old ≤ 256 }
    requires empty { listed.old.items ≡ [] }
    requires room { length places.old ≤ vec_capacity listed.old }
    ensures { AllStarted plan.now places.old places.new listed.new.items }
{
    for place in places.iter_mut() {
        let number = listed.len() as u32;
        let seen = start(place, number, is_absent(plan, number));
        listed.push_reserved(seen);
    }
}

fn start(place: &mut BoardPlace, number: u32, absent: bool) -> BoardSeen
    requires { CanBeStarted place.old }
    ensures { Started absent number place.old place.new result }
{
    let mut board = place.board.take().unwrap();
    let told = place.told;
    board.boot(absent);
    let seen = board.view();
    let marks = board.marks();
    let untold = told_of(&marks[told..]);
    place.told = marks.len();
    place.board = Some(board);
    BoardSeen {
        board: number,
        seen,
        untold,
    }
}

fn told_of(marks: &[Mark]) -> Told
    requires { length marks.now ≤ 2 }
    ensures { result ≡ marks.now }
{
    if marks.is_empty() {
        return Told::none();
    }
    if marks.len() == 1 {
        return Told::one(marks[0]);
    }
    Told::two(marks[0], marks[1])
}

fn is_absent(plan: &BootPlan, number: u32) -> bool
    ensures { result ≡ is_absent plan.now number }
{
    plan.absent.items().iter().any(|absent| *absent == number)
}
