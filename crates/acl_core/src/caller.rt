//! Who calls.
ghost use Rattle.std.specs.Prelude.{◌≡◌, ◌++◌, codes, nat_eq, Some, None, IfOk, IfErr, option_map, option_and_then, if◌then◌else◌};
ghost use Rattle.std.specs.Cmp.Lexicographic.{pointwise};
ghost use Rattle.sha2.specs.Sha256.{sha256};
ghost use Rattle.doip_json.specs.Meaning.{value_of};
ghost use Rattle.acl_core.specs.declared.fault.AuthFault.TheVariants.{NotAuthentic};
ghost use Rattle.acl_core.specs.Known.{account_of};
ghost use Rattle.acl_core.specs.Caller.{caller_in, is_admin, IsShort};

use crate::accounts::Accounts;
use crate::fault::AuthFault;
use crate::reading::string_of;
use doip_json::{Json, Str};
use sha2::{Digest, Sha256};
use std::alloc::Global;

/// Who calls.
#[derive(Debug, Drop)]
pub enum Caller {
    /// Nobody who is known.
    Anonymous,
    /// An account.
    Known {
        /// Its identifier.
        id: Str,
        /// Whether it is the admin's.
        admin: bool,
    },
}

/// The caller whom an authentication names.
///
/// Without an authentication the caller is anonymous. Else it is an object with the strings `username`, the identifier
/// of an account, and `password`, for which the SHA-256 of the salt's bytes followed by the password's is the account's
/// hash. Other keys are ignored.
///
/// # Errors
/// `NotAuthentic` exactly if it isn't so; which part is wrong isn't told. `Memory` comes only if an allocation was
/// refused.
///
/// The hash is compared to its end, also after a byte that differs, and nothing of the password is kept.
pub fn caller_of(
    alloc: Global,
    accounts: &Accounts,
    authentication: Option<&Json>,
) -> Result<Caller, AuthFault>
    ensures caller { IfOk result (λ caller.
        caller_in accounts.now (option_map (λ v. value_of v.now) authentication.entry) ≡ Some caller) }
    ensures short { IfOk result IsShort }
    ensures refused { IfErr result (λ fault. fault ≡ NotAuthentic
        → caller_in accounts.now (option_map (λ v. value_of v.now) authentication.entry) ≡ None) }
{
    let Some(value) = authentication else {
        return Ok(Caller::Anonymous);
    };
    let Some(id) = string_of(value, "username") else {
        return Err(AuthFault::NotAuthentic);
    };
    let Some(password) = string_of(value, "password") else {
        return Err(AuthFault::NotAuthentic);
    };
    if !accounts.has(id, password) {
        return Err(AuthFault::NotAuthentic);
    }
    Ok(Caller::Known {
        id: Str::of(alloc, id)?,
        admin: accounts.is_admin(id),
    })
}

// The SHA-256 of the salt's bytes followed by the password's.
pub(crate) fn digest_of(salt: &str, password: &str) -> [u8; 32]
    ensures { result ≡ sha256 (salt.now ++ password.now) }
{
    let mut hasher = Sha256::new();
    hasher.update(salt.as_bytes());
    hasher.update(password.as_bytes());
    hasher.finalize()
}

// Whether the digests are equal. It goes to the end, also after a byte that differs.
pub(crate) fn is_equal(a: &[u8; 32], b: &[u8; 32]) -> bool
    ensures { result ≡ pointwise nat_eq a.now b.now }
{
    let mut equal = true;
    for i in 0..32 {
        equal &= a[i] == b[i];
    }
    equal
}
