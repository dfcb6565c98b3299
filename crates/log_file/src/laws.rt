//! Laws of logs. Each function does nothing: its contract is the law.

ghost use Rattle.log_file.specs.Laws.{SpelledHasNoFault, FaultlessSpellsOne, NoSpellingBeginsAnother, FaultStays, NoFaultPassedOver};

/// Bytes that spell a log have no fault.
pub fn spelled_has_no_fault()
    ensures { SpelledHasNoFault }
{}

/// Bytes without a fault spell exactly one log.
pub fn faultless_spells_one()
    ensures { FaultlessSpellsOne }
{}

/// No spelling of a log begins another, and one log has one spelling.
pub fn no_spelling_begins_another()
    ensures { NoSpellingBeginsAnother }
{}

/// A first fault other than Truncated stays, however the bytes go on.
pub fn fault_stays()
    ensures { FaultStays }
{}

/// Bytes that a reader of records took without a fault have no fault but Truncated: the reader answers
/// every other fault in the call whose bytes settle it. And no log has more bytes.
pub fn no_fault_passed_over()
    ensures { NoFaultPassedOver }
{}
