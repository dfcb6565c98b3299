//! Laws of the texts. Each function does nothing: its contract is the law.

ghost use Rattle.core_program.specs.Answers.{IsProgramFault, IsSetFault};
ghost use Rattle.core_program.specs.declared.format.ProgramFormat.{ProgramFormat};
ghost use Rattle.core_program.specs.TextLaws.{PrintedIsRead, SpelledSetIsRead, AtMostOneFault};

/// No two programs have the same text, and a program's text has no fault in its format but lack
/// of memory: `parse` gives back what `print` wrote.
pub fn printed_is_read()
    ensures { PrintedIsRead }
{}

/// No two sets have the same text, whatever their formats, and a set's text has no fault but lack of memory.
pub fn spelled_set_is_read()
    ensures { SpelledSetIsRead }
{}

/// Bytes have at most one fault as a program's text in a format, and at most one as a set's text, lack of memory aside.
pub fn one_fault()
    ensures program { (format : ProgramFormat) → AtMostOneFault (IsProgramFault format) }
    ensures set { AtMostOneFault IsSetFault }
{}
