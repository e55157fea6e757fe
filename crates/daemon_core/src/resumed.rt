//! What a resumption answers that is stopped.
use crate::fetched::Fetched;
use crate::hold::Ticket;
use crate::stop::Stop;

/// The resumption was stopped: the hold comes back, where one came in. It must be spent.
pub struct ResumeStop {
    pub stop: Stop,
    pub held: Option<(Ticket, Fetched)>,
}
