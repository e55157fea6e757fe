//! The daemon's state, and every call that changes it.
//!
//! A house is the plain state: the facts, what stands for the log, the boards at home, the pool and the
//! keeper of the history. Each call puts at most one event behind the log. Its type keeps that the log is
//! legal, that the boards fit it, and that the keeper has its rows (`specs/House.antt`); the clients' turns
//! go round exactly these calls.
#![tactic(auto)]

pub mod booting;
pub mod claimed;
mod comparing;
pub mod fetched;
pub mod finished;
pub mod hold;
pub mod house;
mod house_log;
pub mod judged;
pub mod making;
pub mod off;
pub mod parts;
mod pending;
pub mod place;
mod ports;
mod reading;
pub mod resumed;
mod settling;
mod standing;
mod starting;
pub mod stop;

pub use booting::BootStop;
pub use claimed::{ClaimStop, Claimed, Taken};
pub use fetched::Fetched;
pub use finished::{FinishStop, Finished};
pub use hold::{Asked, Hold, Ticket};
pub use house::House;
pub use judged::{DeviceRow, Judged, Settling, Standing};
pub use making::RefusedHouse;
pub use off::Off;
pub use parts::{HomeBoards, HouseParts};
pub use resumed::ResumeStop;
pub use stop::Stop;
