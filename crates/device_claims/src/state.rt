//! The states.
ghost use Rattle.device_claims.specs.Limits.{Limits, begun, ready, loose, flashed, joined, reloaded, closed};

use crate::claim::Claim;

/// How far the claims in a state have come. A state has no value: it stands in the type of a claim.
pub trait State {
    ghost limits: { Limits };
}

/// Nothing was done.
pub enum BegunState {}

impl State for BegunState {
    ghost limits = { begun };
}

/// Prepare has ended.
pub enum ReadyState {}

impl State for ReadyState {
    ghost limits = { ready };
}

/// The detach has ended, where one was wanted.
pub enum LooseState {}

impl State for LooseState {
    ghost limits = { loose };
}

/// The write has ended, where one was wanted.
pub enum FlashedState {}

impl State for FlashedState {
    ghost limits = { flashed };
}

/// The attach has ended, where one was wanted.
pub enum JoinedState {}

impl State for JoinedState {
    ghost limits = { joined };
}

/// The reload has ended.
pub enum ReloadedState {}

impl State for ReloadedState {
    ghost limits = { reloaded };
}

/// The cleanup has ended.
pub enum ClosedState {}

impl State for ClosedState {
    ghost limits = { closed };
}

pub type Begun = Claim<BegunState>;

pub type Ready = Claim<ReadyState>;

pub type Loose = Claim<LooseState>;

pub type Flashed = Claim<FlashedState>;

pub type Joined = Claim<JoinedState>;

pub type Reloaded = Claim<ReloadedState>;

pub type Closed = Claim<ClosedState>;
