//! Logs that are legal, and logs that aren't, shown by computation.
ghost use Rattle.update_log.specs.Examples.{InstallIsLegal, TornWriteIsLegal, OfflineInstallIsLegal, UnhashedIsNot, GoneOnIsNot, TrustedIsNot};
ghost use Rattle.update_log.specs.WorkedAnswers.{NeedsReboot, NeedsBootloader, InDoubt, SharedId, AreRefused, AreTriedAgain};

/// The log of a whole install, and it is legal.
pub fn install_is_legal()
    ensures { InstallIsLegal }
{}

/// So is a write that a power cut tore, and the judgement of it after the next boot.
pub fn torn_write_is_legal()
    ensures { TornWriteIsLegal }
{}

/// So is an install that was put off, and refused at the next boot.
pub fn offline_install_is_legal()
    ensures { OfflineInstallIsLegal }
{}

/// This log takes a payload with another digest, and isn't legal.
pub fn unhashed_payload_is_not()
    ensures { UnhashedIsNot }
{}

/// In this one a begun entry goes on after a restart: it isn't legal.
pub fn begun_goes_on_is_not()
    ensures { GoneOnIsNot }
{}

/// In this one a torn write is judged a success: it isn't legal.
pub fn torn_success_is_not()
    ensures { TrustedIsNot }
{}

/// What is decided and found of small logs: with a device that needs a reboot or its boot loader,
/// with a change in doubt, with boards that share an ID, of what is refused, and of installs that are
/// tried again.
pub fn worked_answers()
    ensures needs_reboot { NeedsReboot }
    ensures needs_bootloader { NeedsBootloader }
    ensures in_doubt { InDoubt }
    ensures shared_id { SharedId }
    ensures refused { AreRefused }
    ensures tried_again { AreTriedAgain }
{}
