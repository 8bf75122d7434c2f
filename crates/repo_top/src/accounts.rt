//! The accounts of a repository.
ghost use Rattle.std.specs.Prelude.{◌≡◌, Some, IfOk, IfErr};
ghost use Rattle.std.specs.Option.{option_copied};
ghost use Rattle.repo_top.specs.AccountsFile.{AreAccounts, AsksForFile, HasFileReason};

use crate::NoSession;
use acl_core::{Accounts, AccountsFault, accounts_of};
use doip_json::Str;
use link_core::{Host, HostFault};
use std::alloc::Global;

/// One byte more than an accounts file may have, so that a longer file is seen to be longer.
const ASKED: u64 = 1_048_577;

/// The accounts that the file at the path lists, or none without a path. The file is read once.
pub(crate) fn accounts_in<H: Host>(
    alloc: Global,
    path: Option<&str>,
    host: &mut H,
) -> Result<Accounts, NoSession>
    ensures accounts { IfOk result
        (AreAccounts (option_copied path.entry) (H.state host.old).holds) }
    ensures cause { IfErr result (HasFileReason (option_copied path.entry) (H.state host.old).holds
        (H.state host.old).faults (H.state host.new).faults) }
    ensures host { AsksForFile (option_copied path.entry) (H.state host.old) (H.state host.new) }
{
    match path {
        None => Ok(Accounts::none(alloc)),
        Some(path) => accounts_at(alloc, path, host),
    }
}

// The accounts that the file at the path lists. The path is copied first, so that a file that is refused is named.
fn accounts_at<H: Host>(alloc: Global, path: &str, host: &mut H) -> Result<Accounts, NoSession>
    ensures accounts { IfOk result (AreAccounts (Some path.now) (H.state host.old).holds) }
    ensures cause { IfErr result (HasFileReason (Some path.now) (H.state host.old).holds
        (H.state host.old).faults (H.state host.new).faults) }
    ensures host { AsksForFile (Some path.now) (H.state host.old) (H.state host.new) }
{
    let Ok(name) = Str::of(alloc, path) else {
        return Err(NoSession::Memory);
    };
    let bytes = match host.file(path, ASKED) {
        Ok(bytes) => bytes,
        Err(HostFault::Failed) => return Err(NoSession::Host),
        Err(HostFault::Memory) => return Err(NoSession::Memory),
    };
    match accounts_of(alloc, bytes.get()) {
        Ok(accounts) => Ok(accounts),
        Err(AccountsFault::Refused) => Err(NoSession::File { path: name }),
        Err(AccountsFault::Memory) => Err(NoSession::Memory),
    }
}
