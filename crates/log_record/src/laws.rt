//! Laws of the texts. Each function does nothing: its contract is the law.

ghost use Rattle.log_record.specs.Laws.{OneRecordALine, NoLineIsAnothers, NoRecordIsLong};

/// At most one record has a given line.
#[tactic(auto, using(crate::proofs::Lines::record_once))]
pub fn one_record_a_line()
    ensures { OneRecordALine }
{}

/// No line is two of these: a record's, a header, an end line.
#[tactic(auto, using(crate::proofs::Lines::record_no_header, crate::proofs::Lines::record_no_end, crate::proofs::Lines::header_no_end))]
pub fn no_line_is_anothers()
    ensures { NoLineIsAnothers }
{}

/// The line of a record in range has at most 80 bytes in a log of format 1, and 96 in one of format 2.
#[tactic(auto, using(crate::proofs::Lines::record_short))]
pub fn no_record_is_long()
    ensures { NoRecordIsLong }
{}
