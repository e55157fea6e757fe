//! The request that a row makes which was put off.
ghost use Rattle.std.specs.Prelude.{◌≡◌, ◌<◌};
ghost use Rattle.update_log.specs.Legal.{flags_of_number, has_digit, request_of_row};

use device_list::Selector;
use history_keeper::Row;
use update_log::{InstallFlags, Request};

/// The request that the row makes.
pub fn request_of_row(row: &Row) -> Request
    ensures { result ≡ request_of_row row.now }
{
    Request {
        tag: row.tag,
        device: Selector::Id(row.device),
        version: row.version_new,
        flags: flags_of_number(row.flags),
        retry_of: row.retry_of,
    }
}

// The flags of a row's number: its binary digits 1, 2 and 4 count.
fn flags_of_number(number: u8) -> InstallFlags
    ensures { result ≡ flags_of_number number }
{
    InstallFlags {
        offline: has_digit(1, number),
        allow_reinstall: has_digit(2, number),
        allow_older: has_digit(4, number),
    }
}

fn has_digit(digit: u8, number: u8) -> bool
    requires { 0 < digit }
    ensures { result ≡ has_digit digit number }
{
    number / digit % 2 == 1
}
