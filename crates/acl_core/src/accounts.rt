//! The accounts of a repository.

use crate::caller::{digest_of, is_equal};
use crate::secret::Secret;
use doip_json::Str;
use indexmap::IndexMap;
use std::alloc::Global;
use std::marker::Model;

/// The accounts, looked up by their identifiers in constant time, and the identifier of the admin. It has no `Debug`.
/// Each identifier has 1 to 255 bytes, since accounts come only from a file, or there are none.
#[derive(Drop)]
pub struct Accounts {
    table: IndexMap<String, Secret>,
    admin: Option<Str>,
}

impl Model for Accounts {
    ghost use Rattle.acl_core.specs.Known.{Known, known, AreNamed};
    ghost use Rattle.acl_core.specs.Table.{accounts_in};

    ghost Value = { Known };

    ghost view = { λ a. known (accounts_in a.table.entries) a.admin };

    ghost invariant = { λ a. AreNamed (accounts_in a.table.entries) };
}

impl Accounts {
    ghost use Rattle.std.specs.Prelude.{◌≡◌, [], None, false, IsTrue};
    ghost use Rattle.std.specs.Option.{option_map_or};
    ghost use Rattle.dobj_model.specs.Name.{IsName};
    ghost use Rattle.acl_core.specs.Known.{known, account_of, AreNamed};
    ghost use Rattle.acl_core.specs.Caller.{is_password, is_admin};
    ghost use Rattle.acl_core.specs.Table.{table_accounts};

    /// No accounts, and no admin, for a repository without an accounts file: whoever gives a name and a password is
    /// refused. It takes no memory.
    pub fn none(alloc: Global) -> Accounts
        ensures { result ≡ known [] None }
    {
        Accounts {
            table: IndexMap::new(alloc),
            admin: None,
        }
    }

    pub(crate) fn of(table: IndexMap<String, Secret>, admin: Option<Str>) -> Accounts
        requires { AreNamed (table_accounts table) }
        ensures { result ≡ known (table_accounts table) admin }
    {
        Accounts { table, admin }
    }

    // Whether there is an account of the identifier, and the password is its own.
    pub(crate) fn has(&self, id: &str, password: &str) -> bool
        ensures same { result
            ≡ option_map_or (λ a. is_password a password.now) (account_of id.now self.now.accounts) false }
        ensures named { IsTrue result → IsName id.now }
    {
        match self.table.get(id) {
            Some(secret) => is_equal(&digest_of(secret.salt.get(), password), &secret.hash),
            None => false,
        }
    }

    // Whether the identifier is the admin's.
    pub(crate) fn is_admin(&self, id: &str) -> bool
        ensures { result ≡ is_admin self.now.admin id.now }
    {
        match &self.admin {
            Some(admin) => id == admin.get(),
            None => false,
        }
    }
}
