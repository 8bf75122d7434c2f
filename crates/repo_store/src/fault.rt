//! Why a file is not opened.
use dobj_model::Id;

/// Why a file is not opened as a store's.
#[derive(Debug, Drop)]
pub enum StoreFault {
    /// The file begins with no header of a store, or ends before its version byte.
    NotAStore,
    /// The file has another version.
    Version {
        /// Its version byte.
        byte: u8,
    },
    /// The file is damaged here: no whole record begins at this gate, or the body that begins here is that of no
    /// change.
    Damaged {
        /// The place, in bytes from the beginning of the file.
        place: u64,
    },
    /// An object isn't sound; this is the least identifier of such an object.
    Unsound {
        /// The identifier.
        id: Id,
    },
    /// The disk failed.
    DiskFault,
    /// An allocation was refused.
    Memory,
}
