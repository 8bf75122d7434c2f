//! The start of `answer`: its accounts, its disk and its store.
ghost use Rattle.std.specs.Prelude.{◌≡◌, ◌≤◌, [], min, option_map, IfOk, IfErr, None};
ghost use Rattle.std.specs.Option.{ForSome, option_copied};
ghost use Rattle.ext_ops.specs.Offered.{Offered, offered};
ghost use Rattle.doip_segment.specs.Decoding.{Took};
ghost use Rattle.repo_step.specs.Setting.{setting_of};
ghost use Rattle.repo_store.specs.Opening.{Opens};
ghost use Rattle.repo_store.specs.Store.{clock_in, planner_in, seen_of};
ghost use Rattle.command_line.specs.Command.{IsService, answer_in, prefix_of};
ghost use Rattle.repo_top.specs.AccountsFile.{AreAccounts, AsksForFile, HasFileReason};
ghost use Rattle.repo_top.specs.Start.{AsksForStore, HasNoStart, HasStarted, IsInBounds, IsRefusedAs, IsSetUp, faults_of, reason_of_host, reason_of_store};

use crate::NoSession;
use crate::accounts::accounts_in;
use acl_core::Accounts;
use command_line::{AnswerArguments, prefix_of};
use disk_core::Disk;
use dobj_model::Id;
use doip_json::Str;
use doip_segment::{Decoder, Limits};
use ext_ops::Extensions;
use link_core::{Clock, Host, HostFault};
use repo_step::Config;
use repo_store::{NotOpened, Planner, Service, Store, StoreFault};
use session_core::Reader;
use std::alloc::{AllocError, Global};
use std::snapshot::Snapshot;

/// The most bytes of a JSON segment, unless the limit on requests is lower.
const JSON_LIMIT: u32 = 1_048_576;

// All that a session needs before it has a store and a link: how the repository is set up, and the memory for requests.
#[derive(Drop)]
struct Prepared {
    config: Config,
    reader: Reader,
    decoder: Decoder,
}

// How the command sets up a repository with these accounts.
fn config_of(
    alloc: Global,
    arguments: &AnswerArguments<'_>,
    accounts: Accounts,
) -> Result<Config, AllocError>
    requires service { IsService arguments.now.service.now }
    requires port { (1 ≤ arguments.now.port) × (arguments.now.port ≤ 65535) }
    ensures service { IfOk result (λ config. config.service ≡ arguments.now.service.now) }
    ensures prefix { IfOk result (λ config. config.prefix ≡ prefix_of arguments.now.service.now) }
    ensures address { IfOk result (λ config. config.address ≡ arguments.now.address.now) }
    ensures port { IfOk result (λ config. config.port ≡ arguments.now.port) }
    ensures accounts { IfOk result (λ config. config.accounts ≡ accounts) }
{
    let Some(service) = Id::of(alloc, arguments.service)? else {
        unreachable!()
    };
    let prefix = Str::of(alloc, prefix_of(arguments.service))?;
    let address = Str::of(alloc, arguments.address)?;
    Config::new(alloc, service, prefix, address, arguments.port, accounts)
}

// Takes all the memory that a session needs beside that of its store and its replies.
fn prepare(
    alloc: Global,
    arguments: &AnswerArguments<'_>,
    accounts: Accounts,
) -> Result<Prepared, AllocError>
    requires { IsInBounds (answer_in arguments.now) }
    ensures service { IfOk result (λ p. p.config.service ≡ arguments.now.service.now) }
    ensures prefix { IfOk result (λ p. p.config.prefix ≡ prefix_of arguments.now.service.now) }
    ensures address { IfOk result (λ p. p.config.address ≡ arguments.now.address.now) }
    ensures port { IfOk result (λ p. p.config.port ≡ arguments.now.port) }
    ensures accounts { IfOk result (λ p. p.config.accounts ≡ accounts) }
    ensures total { IfOk result (λ p. p.decoder.limits.total ≡ arguments.now.request) }
    ensures json { IfOk result (λ p. p.decoder.limits.json ≡ min arguments.now.request 1048576) }
    ensures held { IfOk result (λ p. p.reader ≡ []) }
    ensures took { IfOk result (λ p. Took p.decoder []) }
    ensures place { IfOk result (λ p. p.decoder.taken ≡ 0) }
{
    let total = arguments.request;
    let limits = Limits {
        json: total.min(JSON_LIMIT),
        total,
    };
    let config = config_of(alloc, arguments, accounts)?;
    let reader = Reader::new(alloc)?;
    let decoder = Decoder::new(alloc, limits)?;
    Ok(Prepared {
        config,
        reader,
        decoder,
    })
}

// Reads the accounts, and prepares a session with them.
fn prepare_with_accounts<H: Host>(
    alloc: Global,
    arguments: &AnswerArguments<'_>,
    host: &mut H,
) -> Result<Prepared, NoSession>
    requires { IsInBounds (answer_in arguments.now) }
    ensures set_up { IfOk result (λ p. (offers : Offered) → IsSetUp (answer_in arguments.now)
        (H.state host.old).holds offers (setting_of p.config offers) p.decoder.limits) }
    ensures held { IfOk result (λ p. p.reader ≡ []) }
    ensures took { IfOk result (λ p. Took p.decoder []) }
    ensures place { IfOk result (λ p. p.decoder.taken ≡ 0) }
    ensures cause { IfErr result (HasFileReason (answer_in arguments.now).accounts (H.state host.old).holds
        (H.state host.old).faults (H.state host.new).faults) }
    ensures host { AsksForFile (answer_in arguments.now).accounts (H.state host.old) (H.state host.new) }
{
    let accounts = match accounts_in(alloc, arguments.accounts, host) {
        Ok(accounts) => accounts,
        Err(reason) => return Err(reason),
    };
    match prepare(alloc, arguments, accounts) {
        Ok(prepared) => Ok(prepared),
        Err(AllocError) => Err(NoSession::Memory),
    }
}

// The disk of the file at the path, if there is a path.
fn disk_at<H: Host>(path: Option<&str>, host: &mut H) -> Result<Option<H::Disk>, HostFault>
    ensures { AsksForStore H.Disk.state (option_copied path.entry) (H.state host.old) (H.state host.new) result }
{
    match path {
        None => Ok(None),
        Some(path) => match host.disk(path) {
            Ok(disk) => Ok(Some(disk)),
            Err(fault) => Err(fault),
        },
    }
}

// The disk as it is now, for contracts alone.
fn snapshot_of<D>(disk: &Option<D>) -> Option<Snapshot<D>>
    ensures { option_map (λ s. s.value) result ≡ disk.now }
{
    match disk {
        Some(disk) => Some(Snapshot::of(disk)),
        None => None,
    }
}

// How often the disk has failed, if there is one.
fn fault_count<D: Disk>(disk: &Option<D>) -> u64
    ensures { result ≡ faults_of D.state disk.now }
{
    match disk {
        Some(disk) => disk.fault_count(),
        None => 0,
    }
}

// Why there is no session over a disk, with this count of faults, whose file was not opened.
fn reason_of_store(count: u64, fault: StoreFault) -> NoSession
    ensures { result ≡ reason_of_store count fault }
{
    match fault {
        StoreFault::DiskFault => NoSession::Disk { count },
        StoreFault::Memory => NoSession::Memory,
        fault => NoSession::Store(fault),
    }
}

// Why there is no session with a host that handed nothing out.
pub(crate) fn reason_of_host(fault: HostFault) -> NoSession
    ensures { result ≡ reason_of_host fault }
{
    match fault {
        HostFault::Failed => NoSession::Host,
        HostFault::Memory => NoSession::Memory,
    }
}

// Opens a store over the disk, or without one. A refusal hands the disk back.
fn open_store<D: Disk, C: Clock + Drop, P: Planner + Drop>(
    alloc: Global,
    disk: Option<D>,
    planner: P,
    clock: C,
) -> Result<Store<D, C, P>, (Option<D>, NoSession)>
    ensures opened { IfOk result (λ store. Opens disk (seen_of C.given store).journal
        (seen_of C.given store).contents) }
    ensures not_closed { IfOk result (λ store. (seen_of C.given store).closed ≡ None) }
    ensures planner { IfOk result (λ store. planner_in store ≡ planner) }
    ensures clock { IfOk result (λ store. clock_in store ≡ clock) }
    ensures refused { IfErr result (λ refusal. IsRefusedAs D.state disk refusal.0 refusal.1) }
{
    match Store::open(alloc, disk, planner, clock) {
        Ok(store) => Ok(store),
        Err(NotOpened { disk, fault, .. }) => {
            let reason = reason_of_store(fault_count(&disk), fault);
            Err((disk, reason))
        }
    }
}

/// All that a session needs before it has a link.
#[derive(Drop)]
pub(crate) struct Started<D: Disk, C: Clock, P: Planner> {
    pub(crate) reader: Reader,
    pub(crate) decoder: Decoder,
    pub(crate) store: Store<D, C, P>,
    /// The disk as the host handed it out, for contracts alone: it has no bytes.
    pub(crate) opened: Option<Snapshot<D>>,
}

/// Why there is no store, and the disk that the host handed out, if it did.
#[derive(Drop)]
pub(crate) struct NotStarted<D> {
    pub(crate) reason: NoSession,
    pub(crate) opened: Option<Snapshot<D>>,
    pub(crate) disk: Option<D>,
}

/// Reads the accounts, takes the memory of a session, and opens the file of the store, in this order, if the arguments
/// name them.
///
/// # Errors
/// The first reason in this order. The disk is handed back as it was.
pub(crate) fn start<H: Host>(
    alloc: Global,
    arguments: &AnswerArguments<'_>,
    host: &mut H,
    extensions: Extensions,
) -> Result<Started<H::Disk, H::Clock, Service>, NotStarted<H::Disk>>
where
    H::Disk: Drop,
    H::Clock: Drop,
    requires { IsInBounds (answer_in arguments.now) }
    ensures started { IfOk result (λ s. HasStarted {g = H.Disk.Disk} (answer_in arguments.now)
        (offered extensions.operations extensions.hooks) (H.state host.old) (H.state host.new)
        (option_map (λ o. o.value) s.opened) (seen_of H.Clock.given s.store)
        (setting_of (planner_in s.store).config
        (offered (planner_in s.store).extensions.operations (planner_in s.store).extensions.hooks)) s.decoder.limits) }
    ensures held { IfOk result (λ s. s.reader ≡ []) }
    ensures took { IfOk result (λ s. Took s.decoder []) }
    ensures place { IfOk result (λ s. s.decoder.taken ≡ 0) }
    ensures unused { IfOk result (λ s. ForSome (H.Clock.given (clock_in s.store)) (λ times. times ≡ [])) }
    ensures no_start { IfErr result (λ e. HasNoStart H.Disk.state (answer_in arguments.now) (H.state host.old)
        (H.state host.new) (option_map (λ o. o.value) e.opened) e.disk e.reason) }
{
    let prepared = match prepare_with_accounts(alloc, arguments, host) {
        Ok(prepared) => prepared,
        Err(reason) => return Err(NotStarted {
            reason,
            opened: None,
            disk: None,
        }),
    };
    let disk = match disk_at(arguments.store, host) {
        Ok(disk) => disk,
        Err(fault) => return Err(NotStarted {
            reason: reason_of_host(fault),
            opened: None,
            disk: None,
        }),
    };
    let Prepared {
        config,
        reader,
        decoder,
    } = prepared;
    let opened = snapshot_of(&disk);
    let clock = host.clock();
    match open_store(alloc, disk, Service { config, extensions }, clock) {
        Ok(store) => Ok(Started {
            reader,
            decoder,
            store,
            opened,
        }),
        Err((disk, reason)) => Err(NotStarted {
            reason,
            opened,
            disk,
        }),
    }
}
