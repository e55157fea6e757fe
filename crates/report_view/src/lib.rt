//! The viewer: the text of a report as one page of HTML.
//!
//! The page is a function of the text (`specs/Pages.antt`): the frame's head with a tally, one mark for each event in
//! the report's order, and then the lanes, the table of requests and entries, and the lines that are none of a
//! report. `write_page` writes exactly that.
#![tactic(auto)]

pub mod drawn;
mod entries;
mod event;
mod frame;
mod html;
mod lanes;
mod line;
mod marks;
mod page;
mod pieces;
mod reading;
mod row;
mod spans;
mod table;
pub mod view;
mod words;

pub use drawn::{Drawn, Finding, ViewStop};
pub use view::write_page;
