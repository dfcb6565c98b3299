//! The finding of a search, in numbers and bytes.

ghost use Rattle.std.specs.Prelude.{◌≡◌};
ghost use Rattle.tardis_c.specs.Found.{finding_status, finding_told, nothing_found, text_of, with_text};

use super::finding::Finding;
use super::operations_fault::OperationsFault;

const _: () = prove!(size_of::<TardisFinding>() == 32);

/// The finding of a search, besides the status. A field that the answer doesn't have is 0.
#[repr(C)]
#[derive(Clone, Copy)]
pub struct TardisFinding {
    /// With a yes or a no: how many bytes its text has.
    pub length: u64,
    /// If an operation isn't valid: its core.
    pub core: u64,
    /// If an operation isn't valid: its index.
    pub index: u64,
    /// With a refusal: its number.
    pub number: u32,
}

/// All fields are 0.
const NOTHING: TardisFinding = TardisFinding {
    length: 0,
    core: 0,
    index: 0,
    number: 0,
};

/// A finding with this number, and otherwise 0.
pub(crate) fn numbered(number: u32) -> TardisFinding
    ensures { result ≡ record nothing_found { number = number } }
{
    TardisFinding { number, ..NOTHING }
}

/// The status of a finding, or of a fault.
pub(crate) fn finding_status(answer: &Result<Finding, OperationsFault>) -> u8
    ensures { result ≡ finding_status answer.now }
{
    match answer {
        Ok(Finding::Order(_)) => 0,
        Ok(Finding::Refutation(_)) => 1,
        Ok(Finding::Undecided) | Err(OperationsFault::OutOfMemory) => 4,
        Err(OperationsFault::TooMany { .. }) | Err(OperationsFault::OutOfRange { .. }) => 2,
    }
}

/// A finding or a fault, besides its status.
pub(crate) fn finding_told(answer: &Result<Finding, OperationsFault>) -> TardisFinding
    ensures { result ≡ finding_told answer.now }
{
    match answer {
        Ok(Finding::Order(text)) | Ok(Finding::Refutation(text)) => TardisFinding {
            length: text.len() as u64,
            ..NOTHING
        },
        Ok(Finding::Undecided) => numbered(44),
        Err(OperationsFault::OutOfMemory) => numbered(10),
        Err(OperationsFault::TooMany { core }) => TardisFinding {
            core: *core as u64,
            index: 1_048_576,
            number: 23,
            ..NOTHING
        },
        Err(OperationsFault::OutOfRange { core, index }) => TardisFinding {
            core: *core as u64,
            index: *index as u64,
            number: 22,
            ..NOTHING
        },
    }
}

/// The bytes of the text in the finding; none without a text.
fn text_of(answer: &Result<Finding, OperationsFault>) -> &[u8]
    ensures { result.now ≡ text_of answer.now }
{
    match answer {
        Ok(Finding::Order(text)) | Ok(Finding::Refutation(text)) => text.as_bytes(),
        Ok(Finding::Undecided) | Err(_) => b"",
    }
}

/// Puts the text in the finding at the front of a buffer, if it has room for the text.
pub(crate) fn put_text(answer: &Result<Finding, OperationsFault>, buffer: &mut [u8])
    ensures { buffer.new ≡ with_text (text_of answer.now) buffer.old }
{
    let text = text_of(answer);
    if text.len() <= buffer.len() {
        buffer[..text.len()].copy_from_slice(text);
    }
}
