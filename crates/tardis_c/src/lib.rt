//! The judge for programs in other languages: a static library with the functions of `embed/tardis.h`.
#![tactic(auto)]

mod checking;
mod cutting;
mod finding;
mod in_numbers;
mod operations;
mod operations_fault;
mod searching;
mod tardis_access;
mod tardis_finding;
mod tardis_operation;
mod tardis_verdict;

pub use checking::{tardis_check, tardis_check_operations};
pub use finding::Finding;
pub use operations_fault::OperationsFault;
pub use searching::tardis_search_operations;
pub use tardis_access::TardisAccess;
pub use tardis_finding::TardisFinding;
pub use tardis_operation::TardisOperation;
pub use tardis_verdict::TardisVerdict;
