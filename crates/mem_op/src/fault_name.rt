//! The one table of the numbers and names of all faults. Every text of a fault cites it.
use std::fmt;
use std::fmt::Display;

/// A fault's number and name, as users see them.
#[derive(Clone, Copy, Debug, PartialEq, Eq)]
pub enum FaultName {
    /// An address above 65,535.
    AddrRange,
    /// A core above 63.
    CoreRange,
    /// An index above 1,048,575.
    IndexRange,
    /// A stamp above 281,474,976,710,656.
    StampLimit,
    /// A rank above 4,294,967,295.
    RankLimit,
    /// A number of the configuration, or of a call, out of its range.
    BadConfig,
    /// A line of a program that has no instruction, or is missing.
    BadProgramLine,
    /// An instruction after 4,096 instructions.
    TooLong,
    /// A `jz` past the end of its program.
    SkipPastEnd,
    /// A growth was refused.
    OutOfMemory,
    /// A core gives back a line that it doesn't own.
    NotOwner,
    /// A slice's history has 1,048,576 entries.
    HistoryFull,
    /// A core's transcript has no room for one operation more.
    TranscriptFull,
    /// A reply that the core didn't ask for.
    BadReply,
    /// A swap in a log of format 1.
    SwapInFormatOne,
    /// Line 1 of a log isn't a header.
    BadHeader,
    /// A later line of a log is neither a record nor its end.
    BadLine,
    /// A number of a log out of its range.
    OutOfRange,
    /// A core's operation after 1,048,576 operations.
    TooMany,
    /// The end line's number isn't the number of records.
    CountDiffers,
    /// A byte after the end line.
    TrailingBytes,
    /// The bytes end before the end line does.
    Truncated,
    /// The header is that of another core, or of another number of cores.
    WrongCore,
    /// A read failed.
    Read,
    /// A write failed.
    Write,
    /// A run took more turns, or an operation more rounds, than it may.
    GaveUp,
    /// A run was stopped: its pace said so.
    Stopped,
    /// The host refused a thread.
    Spawn,
    /// What a core and a slice recorded doesn't agree.
    Audit,
    /// A line of a schedule that has no command.
    BadScheduleLine,
    /// A line of a litmus test that isn't as it should be.
    BadLitmusLine,
    /// A line of a trace that isn't as it should be.
    BadTraceLine,
    /// A line of a certificate that doesn't hold.
    BadCertificate,
    /// A search that gave up.
    Undecided,
}

impl Display for FaultName {
    ghost use Rattle.std.specs.Prelude.{Some};
    ghost use Rattle.mem_op.specs.Names.{name_text};

    ghost output = { λ name. Some (name_text name) };

    fn fmt<W: fmt::Write>(&self, f: &mut fmt::Formatter<W>) -> fmt::Result {
        f.write_str(match self {
            FaultName::AddrRange => "1 AddrRange",
            FaultName::CoreRange => "2 CoreRange",
            FaultName::IndexRange => "3 IndexRange",
            FaultName::StampLimit => "4 StampLimit",
            FaultName::RankLimit => "5 RankLimit",
            FaultName::BadConfig => "6 BadConfig",
            FaultName::BadProgramLine => "7 BadLine",
            FaultName::TooLong => "8 TooLong",
            FaultName::SkipPastEnd => "9 SkipPastEnd",
            FaultName::OutOfMemory => "10 OutOfMemory",
            FaultName::NotOwner => "11 NotOwner",
            FaultName::HistoryFull => "12 HistoryFull",
            FaultName::TranscriptFull => "13 TranscriptFull",
            FaultName::BadReply => "14 BadReply",
            FaultName::SwapInFormatOne => "15 SwapInFormat1",
            FaultName::BadHeader => "20 BadHeader",
            FaultName::BadLine => "21 BadLine",
            FaultName::OutOfRange => "22 OutOfRange",
            FaultName::TooMany => "23 TooMany",
            FaultName::CountDiffers => "24 CountDiffers",
            FaultName::TrailingBytes => "25 TrailingBytes",
            FaultName::Truncated => "26 Truncated",
            FaultName::WrongCore => "27 WrongCore",
            FaultName::Read => "28 Read",
            FaultName::Write => "29 Write",
            FaultName::GaveUp => "30 GaveUp",
            FaultName::Stopped => "31 Stopped",
            FaultName::Spawn => "32 Spawn",
            FaultName::Audit => "33 Audit",
            FaultName::BadScheduleLine => "40 BadScheduleLine",
            FaultName::BadLitmusLine => "41 BadLitmusLine",
            FaultName::BadTraceLine => "42 BadTraceLine",
            FaultName::BadCertificate => "43 BadCertificate",
            FaultName::Undecided => "44 Undecided",
        })
    }
}
