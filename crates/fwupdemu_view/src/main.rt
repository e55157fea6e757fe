//! The viewer's program: reads a report from standard input, writes its page to standard output, and says on
//! standard error what is amiss with the report.
#![tactic(auto)]

use outer_traits::{ReadSource, WriteSink};
use report_view::{Drawn, Finding, ViewStop, write_page};
use std::process::ExitCode;
use std::rt::{HostRuntime, Runtime};
use std::{env, io};

/// The exit status for words on the command line, of which there are none to give.
const USAGE: u8 = 2;

/// The exit status for a report that isn't one throughout, whose page is written all the same.
const BAD_REPORT: u8 = 3;

/// Whether words stand behind the program's name. Where they can't be read, they count as some.
fn has_words<R: Runtime>(rt: &R) -> bool {
    match env::args(rt) {
        Ok(args) => args.skip(1).next().is_some(),
        Err(_) => true,
    }
}

/// Writes the page, with the real input and output.
fn draw<R: Runtime + AllocGlobal>(rt: &R) -> Result<Drawn, ViewStop> {
    let mut source = ReadSource::new(rt.reader());
    let mut sink = WriteSink::new(io::writer(rt));
    write_page(rt.alloc(), &mut source, &mut sink)
}

fn status_of_stop(stop: ViewStop) -> u8 {
    match stop {
        ViewStop::TooLong => BAD_REPORT,
        ViewStop::SourceFault => 4,
        ViewStop::SinkFault => 5,
        ViewStop::NoMemory => 6,
    }
}

fn status_of_finding(finding: Finding) -> u8 {
    match finding {
        Finding::Whole | Finding::CutOff { .. } => 0,
        Finding::Unread { .. }
        | Finding::Untitled
        | Finding::Trailing
        | Finding::Miscounted { .. } => BAD_REPORT,
    }
}

fn main(rt: HostRuntime) -> ExitCode {
    // Where standard error fails too, the exit status still tells.
    if has_words(&rt) {
        let _ = eprintln!(rt; "usage: fwupdemu-view <REPORT >PAGE.html");
        return ExitCode::from(USAGE);
    }
    match draw(&rt) {
        Ok(drawn) => {
            let finding = drawn.finding();
            if !matches!(finding, Finding::Whole) {
                let _ = eprintln!(rt; "fwupdemu-view: {finding}");
            }
            ExitCode::from(status_of_finding(finding))
        }
        Err(stop) => {
            let _ = eprintln!(rt; "fwupdemu-view: {stop}");
            ExitCode::from(status_of_stop(stop))
        }
    }
}
