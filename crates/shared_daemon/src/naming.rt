//! The name of a daemon.
ghost use Rattle.shared_daemon.specs.Names.{Name, no_name};

use std::marker::Brand;

/// What no turn changes: the facts, what each first image shows, the faults that are planned for each board,
/// the rows before the log, how many boots there were, the log as the daemon began, and of the keeper what it
/// told at first. Each call of a program picks a name; a house behind the lock keeps it.
pub trait Naming {
    ghost name: { Name };
}

impl Naming for Brand {
    ghost name = { no_name };
}
