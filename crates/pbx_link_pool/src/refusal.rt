// Why a pool refuses a file.
use pbx_link_rules::Breach;

/// Why a pool refuses a file.
#[derive(Drop)]
pub enum Refusal {
    /// The first rule of linking that the file's record breaks, and where.
    Breach(Breach),
    /// Memory runs out, or an index is above those of 31 bits.
    NoMemory,
}
