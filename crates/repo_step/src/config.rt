//! How a repository is set up.
ghost use Rattle.std.specs.Prelude.{◌≡◌, ◌≤◌, length, IfOk};
ghost use Rattle.doip_json.specs.Text.{text_of};
ghost use Rattle.repo_state.specs.Types.{plain_lists, no_lists};
ghost use Rattle.repo_step.specs.Information as about;

use crate::hello::information;
use crate::lists::{no_lists, plain_lists};
use acl_core::{Accounts, TypeLists};
use base_core::Bytes;
use dobj_model::Id;
use doip_json::{Str, text};
use std::alloc::{AllocError, Global};

/// How a repository is set up, with what is made of that once: the information that Hello returns, and the lists of the
/// built-in type.
#[derive(Drop)]
pub struct Config {
    /// The service's own identifier.
    pub service: Id,
    /// What the identifiers that the service makes begin with: at most 200 bytes.
    pub prefix: Str,
    /// The address that Hello reports.
    pub address: Str,
    /// The port that Hello reports: 1 to 65,535.
    pub port: u16,
    /// The accounts.
    pub accounts: Accounts,
    pub(crate) information: Bytes,
    pub(crate) plain: TypeLists,
    pub(crate) nothing: TypeLists,
    pub ghost short: { length prefix ≤ 200 },
    pub ghost usable: { (1 ≤ port) × (port ≤ 65535) },
    pub ghost informs: { information ≡ text_of (about.information service address port) },
    pub ghost lists: { plain ≡ plain_lists },
    pub ghost no_list: { nothing ≡ no_lists },
}

impl Config {
    /// A repository that is set up so.
    pub fn new(
        alloc: Global,
        service: Id,
        prefix: Str,
        address: Str,
        port: u16,
        accounts: Accounts,
    ) -> Result<Config, AllocError>
        requires prefix { length prefix ≤ 200 }
        requires port { (1 ≤ port) × (port ≤ 65535) }
        ensures service { IfOk result (λ config. config.service ≡ service) }
        ensures prefix { IfOk result (λ config. config.prefix ≡ prefix) }
        ensures address { IfOk result (λ config. config.address ≡ address) }
        ensures port { IfOk result (λ config. config.port ≡ port) }
        ensures accounts { IfOk result (λ config. config.accounts ≡ accounts) }
    {
        let value = information(alloc, service.get(), address.get(), port)?;
        let information = text(alloc, &value)?;
        let plain = plain_lists(alloc)?;
        let nothing = no_lists(alloc);
        Ok(Config {
            service,
            prefix,
            address,
            port,
            accounts,
            information,
            plain,
            nothing,
        })
    }
}
