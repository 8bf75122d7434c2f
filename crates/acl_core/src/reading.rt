//! Reading an accounts file.
ghost use Rattle.std.specs.Prelude.{◌≡◌, [], ◌∷◌, ◌++◌, true, not, codes, Some, None, string_bytes, IfOk, IfErr, option_map, option_and_then};
ghost use Rattle.doip_json.specs.Value.{values_from};
ghost use Rattle.doip_json.specs.Meaning.{value_of};
ghost use Rattle.acl_core.specs.File.{string_at, is_reserved, id_in, hash_in, account_in, each_in, has_id, unless_repeated, admin_among, listed, known_in, file_known};
ghost use Rattle.acl_core.specs.declared.fault.AccountsFault.TheVariants.{Refused};
ghost use Rattle.doip_json.specs.Look.{field_of};
ghost use Rattle.acl_core.specs.Table.{account_kept, table_accounts};

use crate::accounts::Accounts;
use crate::fault::AccountsFault;
use crate::secret::Secret;
use doip_json::{Json, JsonList, Str, get, read};
use hex::FromHex;
use indexmap::IndexMap;
use std::alloc::{AllocError, Global};

const MOST_BYTES: usize = 1_048_576;

const MOST_ACCOUNTS: usize = 1_000;

const DEPTH: u8 = 64;

/// The string at the key.
pub(crate) fn string_of<'a>(value: &'a Json, key: &str) -> Option<&'a str>
    ensures { option_map (λ text. text.now) result ≡ string_at key.now (value_of value.now) }
{
    match get(value, key) {
        Some(Json::Text(text)) => Some(text.get()),
        _ => None,
    }
}

fn is_word(id: &str) -> bool
    ensures { result ≡ is_reserved id.now }
{
    match id {
        "public" | "authenticated" | "creator" | "self" | "anonymous" => true,
        _ => false,
    }
}

fn id_of(value: &Json) -> Option<&str>
    ensures { option_map (λ id. id.now) result ≡ id_in (value_of value.now) }
{
    let id = string_of(value, "id")?;
    if !id.is_empty() && id.len() <= 255 && !is_word(id) {
        Some(id)
    } else {
        None
    }
}

fn hash_of(value: &Json) -> Option<[u8; 32]>
    ensures { result ≡ hash_in (value_of value.now) }
{
    let digits = string_of(value, "hash")?;
    match <[u8; 32] as FromHex>::from_hex(digits) {
        Ok(hash) => Some(hash),
        Err(_) => None,
    }
}

fn account_of(alloc: Global, value: &Json) -> Result<Option<(String, Secret)>, AllocError>
    ensures { IfOk result (λ found. option_map account_kept found ≡ account_in (value_of value.now)) }
{
    let Some(id) = id_of(value) else {
        return Ok(None);
    };
    let Some(salt) = string_of(value, "salt") else {
        return Ok(None);
    };
    let Some(hash) = hash_of(value) else {
        return Ok(None);
    };
    let id = String::from_str(alloc, id)?;
    let salt = Str::of(alloc, salt)?;
    Ok(Some((id, Secret { salt, hash })))
}

// Adds the account, unless its identifier is there.
fn add(table: &mut IndexMap<String, Secret>, id: String, secret: Secret) -> Result<bool, AllocError>
    ensures fresh { IfOk result (λ fresh. not fresh ≡ has_id (string_bytes id) (table_accounts table.old)) }
    ensures added { IfOk result (λ fresh. fresh ≡ true
        → table_accounts table.new ≡ table_accounts table.old ++ account_kept (id, secret) ∷ []) }
{
    match table.insert(id, secret)? {
        Some(_) => Ok(false),
        None => Ok(true),
    }
}

// The accounts of the items, if each is one and none is there twice.
fn table_of(alloc: Global, items: &JsonList) -> Result<Option<IndexMap<String, Secret>>, AllocError>
    ensures { IfOk result (λ found. option_map table_accounts found
        ≡ option_and_then unless_repeated (each_in (values_from items.now))) }
{
    let mut table = IndexMap::new(alloc);
    for i in 0..items.len() {
        let Some((id, secret)) = account_of(alloc, items.item(i))? else {
            return Ok(None);
        };
        if !add(&mut table, id, secret)? {
            return Ok(None);
        }
    }
    Ok(Some(table))
}

// The admin, if it is absent, null, or one of the accounts.
fn admin_of(
    alloc: Global,
    value: &Json,
    table: &IndexMap<String, Secret>,
) -> Result<Option<Option<Str>>, AllocError>
    ensures { IfOk result (λ found.
        found ≡ admin_among (table_accounts table.now) (field_of (codes "admin") (value_of value.now))) }
{
    match get(value, "admin") {
        None => Ok(Some(None)),
        Some(Json::Null) => Ok(Some(None)),
        Some(Json::Text(id)) => if table.contains_key(id.get()) {
            Ok(Some(Some(Str::of(alloc, id.get())?)))
        } else {
            Ok(None)
        },
        Some(_) => Ok(None),
    }
}

// The accounts that the value lists.
fn listed_of(alloc: Global, value: &Json) -> Result<Option<IndexMap<String, Secret>>, AllocError>
    ensures { IfOk result (λ found.
        option_map table_accounts found ≡ listed (field_of (codes "accounts") (value_of value.now))) }
{
    match get(value, "accounts") {
        Some(Json::Items(items)) => if items.len() <= MOST_ACCOUNTS {
            table_of(alloc, items)
        } else {
            Ok(None)
        },
        _ => Ok(None),
    }
}

fn known_of(alloc: Global, value: &Json) -> Result<Option<Accounts>, AllocError>
    ensures { IfOk result (λ found. found ≡ known_in (value_of value.now)) }
{
    let Some(table) = listed_of(alloc, value)? else {
        return Ok(None);
    };
    let Some(admin) = admin_of(alloc, value, &table)? else {
        return Ok(None);
    };
    Ok(Some(Accounts::of(table, admin)))
}

/// The accounts that a file lists.
///
/// The file is a JSON object of at most 1,048,576 bytes, nested at most 64 deep, with `accounts`, an array of at most
/// 1,000 objects, each with `id` (a string of 1 to 255 bytes, none of `public`, `authenticated`, `creator`, `self` and
/// `anonymous`), `salt` (a string) and `hash` (64 hexadecimal digits of either case, the SHA-256 of the salt's bytes
/// followed by the password's); and `admin`, absent, null, or the identifier of one of the accounts. Identifiers
/// differ. Other keys are ignored.
///
/// # Errors
/// `Refused` exactly if the file is not as said here; which part is wrong isn't told. `Memory` comes only if an
/// allocation was refused.
pub fn accounts_of(alloc: Global, bytes: &[u8]) -> Result<Accounts, AccountsFault>
    ensures accounts { IfOk result (λ accounts. file_known bytes.now ≡ Some accounts) }
    ensures refused { IfErr result (λ fault. fault ≡ Refused → file_known bytes.now ≡ None) }
{
    if bytes.len() > MOST_BYTES {
        return Err(AccountsFault::Refused);
    }
    match read(alloc, bytes, DEPTH) {
        Ok(value) => match known_of(alloc, &value)? {
            Some(accounts) => Ok(accounts),
            None => Err(AccountsFault::Refused),
        },
        Err(fault) => match fault.text_fault() {
            Some(_) => Err(AccountsFault::Refused),
            None => Err(AccountsFault::Memory),
        },
    }
}
