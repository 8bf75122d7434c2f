//! What is kept of a password.

use doip_json::Str;

// The salt, and the SHA-256 of the salt's bytes followed by the password's. It has no `Debug`, so that nothing of it is
// printed.
#[derive(Drop)]
pub(crate) struct Secret {
    pub(crate) salt: Str,
    pub(crate) hash: [u8; 32],
}
