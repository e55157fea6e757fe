//! Two clients of one daemon, used from one thread.
use crate::days::Plan;
use crate::scenes::{Scene, refused};
use outer_traits::{Gate, NoGate};
use requirements::{Unmet, UnmetCause};
use std::sync::atomic::{AtomicU32, Ordering};
use std::test::Fail;
use update_log::Refusal;

#[test]
fn a_required_device_is_in_use(rt: HostRuntime) -> Result<(), Fail> {
    let scene = Scene {
        plan: Plan::AsksWhileClaimed,
        wants_parent: true,
        pool: 16,
        second: "usb2",
    };
    let unmet = Unmet {
        index: 0,
        cause: UnmetCause::DeviceInUse { entry: 1 },
    };
    match refused(&rt, rt.alloc(), &scene, &NoGate)? {
        Refusal::Unmet(found) => assert!(rt; found == unmet),
        _ => panic!(rt; "another refusal"),
    }
    Ok(())
}

#[test]
fn a_board_that_is_being_updated_is_busy(rt: HostRuntime) -> Result<(), Fail> {
    let scene = Scene {
        plan: Plan::AsksWhileClaimed,
        wants_parent: false,
        pool: 16,
        second: "usb1",
    };
    match refused(&rt, rt.alloc(), &scene, &NoGate)? {
        Refusal::Busy { entry } => assert!(rt; entry == 1),
        _ => panic!(rt; "another refusal"),
    }
    Ok(())
}

#[test]
fn a_pool_of_one_block_has_no_room_for_a_second_payload(rt: HostRuntime) -> Result<(), Fail> {
    let scene = Scene {
        plan: Plan::AsksWhileClaimed,
        wants_parent: false,
        pool: 1,
        second: "usb2",
    };
    match refused(&rt, rt.alloc(), &scene, &NoGate)? {
        Refusal::NoRoom { need, free } => assert!(rt; need == 1 && free == 0),
        _ => panic!(rt; "another refusal"),
    }
    Ok(())
}

#[test]
fn a_hold_that_is_given_up_makes_room_for_another(rt: HostRuntime) -> Result<(), Fail> {
    let scene = Scene {
        plan: Plan::AsksWhileHeld,
        wants_parent: false,
        pool: 1,
        second: "usb2",
    };
    match refused(&rt, rt.alloc(), &scene, &NoGate)? {
        Refusal::NoRoom { need, free } => assert!(rt; need == 1 && free == 0),
        _ => panic!(rt; "another refusal"),
    }
    Ok(())
}

/// Notes the steps at which it was called, as the digits of a number.
#[derive(Drop)]
struct Digits {
    noted: AtomicU32,
}

impl Gate for Digits {
    fn at(&self, client: u32, entry: u32, op: u8) {
        let before = self.noted.load(Ordering::SeqCst);
        let digit = if client == 1 && entry == 1 {
            u32::from(op)
        } else {
            9
        };
        self.noted.store(
            before.wrapping_mul(10).wrapping_add(digit),
            Ordering::SeqCst,
        );
    }
}

#[test]
fn the_gate_is_asked_before_each_step(rt: HostRuntime) -> Result<(), Fail> {
    let gate = Digits {
        noted: AtomicU32::new(0),
    };
    let scene = Scene {
        plan: Plan::AsksWhileClaimed,
        wants_parent: false,
        pool: 16,
        second: "usb1",
    };
    let _refusal = refused(&rt, rt.alloc(), &scene, &gate)?;
    assert_eq!(rt; gate.noted.load(Ordering::SeqCst), 1356);
    Ok(())
}
