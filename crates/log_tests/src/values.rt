//! The small values of the log, once each.
use emulated_boards::Mark;
use fw_facts::Seen;
use update_log::{Op, Told, TraceStep, TraceSteps};

const OPS: [Op; 6] = [
    Op::Prepare,
    Op::Detach,
    Op::Write,
    Op::Attach,
    Op::Reload,
    Op::Cleanup,
];

/// The first steps, so many.
fn with_steps(count: usize) -> TraceSteps {
    let mut steps = TraceSteps::none();
    for op in OPS.iter().take(count) {
        let step = TraceStep {
            op: *op,
            outcome: Ok(()),
            seen: Seen::Gone,
        };
        if steps.items().len() < 6 {
            steps.push(step);
        }
    }
    steps
}

/// Whether they are the first steps, so many, in their order.
fn are_first(steps: &[TraceStep], count: usize) -> bool {
    steps.len() == count
        && steps
            .iter()
            .zip(OPS.iter())
            .all(|(step, op)| step.op == *op)
}

#[test]
fn steps_come_back_in_order(rt: HostRuntime) {
    for count in 0..7 {
        let steps = with_steps(count);
        assert!(rt; are_first(steps.items(), count), "{count} steps");
    }
}

#[test]
fn no_mark_is_told_or_one(rt: HostRuntime) {
    assert!(rt; Told::none().is_empty());
    assert!(rt; !Told::one(Mark::Entered).is_empty());
}

#[test]
fn two_marks_come_back_in_order(rt: HostRuntime) {
    let (first, second) = Told::two(Mark::Entered, Mark::Left).parts();
    assert!(rt; first == Some(Mark::Entered));
    assert!(rt; second == Some(Mark::Left));
}
