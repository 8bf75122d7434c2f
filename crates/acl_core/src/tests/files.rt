//! Accounts files: what is read, and what is refused.

use crate::{AccountsFault, accounts_of};
use std::alloc::Global;
use std::test::Fail;

// The SHA-256 of `abc`, an example of FIPS 180-4, but for its last two digits.
const MOST_DIGITS: &str = "ba7816bf8f01cfea414140de5dae2223b00361a396177a9cb410ff61f20015";

// The helpers return `None` if anything fails.

// Whether the file has the outcome that is told.
fn is_outcome(alloc: Global, text: &str, told: &str) -> bool {
    match accounts_of(alloc, text.as_bytes()) {
        Ok(_) => told == "read",
        Err(AccountsFault::Refused) => told == "refused",
        Err(AccountsFault::Memory) => false,
    }
}

// The text so many times.
fn repeated(alloc: Global, text: &str, times: usize) -> Option<String> {
    let mut all = String::new(alloc);
    for _ in 0..times {
        all.push_str(text).ok()?;
    }
    Some(all)
}

// A file of the account `a` and this one, whose hashes end in these digits, and of this admin.
fn file(alloc: Global, id: &str, digits: &str, admin: &str) -> Option<String> {
    let text = format!(in alloc;
        "{{\"admin\":{admin},\"accounts\":[{{\"id\":\"a\",\"salt\":\"\",\"hash\":\"{MOST_DIGITS}{digits}\"}},\
        {{\"id\":\"{id}\",\"salt\":\"\",\"hash\":\"{MOST_DIGITS}{digits}\"}}]}}"
    );
    text.ok()
}

// The identifier, the last digits and the admin of a file, and its outcome.
const FILES: &str = r#"b|ad|null => read
b|AD|"b" => read
a|ad|null => refused
b|ad|"c" => refused
b|ad|7 => refused
b|a|null => refused
b|ad0|null => refused
b|ag|null => refused
|ad|null => refused
public|ad|null => refused
authenticated|ad|null => refused
creator|ad|null => refused
self|ad|null => refused
anonymous|ad|null => refused"#;

fn is_file(alloc: Global, row: &str) -> Option<bool> {
    let (parts, told) = row.split_once(" => ")?;
    let (id, rest) = parts.split_once('|')?;
    let (digits, admin) = rest.split_once('|')?;
    let text = file(alloc, id, digits, admin)?;
    Some(is_outcome(alloc, text.as_str(), told))
}

#[test]
fn files_of_accounts_are_read_or_refused(rt: HostRuntime) -> Result<(), Fail> {
    for row in FILES.split('\n') {
        let holds = is_file(rt.alloc(), row);
        assert!(rt; holds.unwrap_or(false), "{row}");
    }
    Ok(())
}

// Files of one account, each of whose properties is a string, and other values; and their outcome.
const TEXTS: &str =
    r#"{"more":0,"accounts":[{"id":"a","salt":"","hash":"ba7816bf8f01cfea414140de5dae2223b00361a396177a9cb410ff61f20015ad","more":0}]} => read
{"more":0,"accounts":[{"salt":"","hash":"ba7816bf8f01cfea414140de5dae2223b00361a396177a9cb410ff61f20015ad","more":0}]} => refused
{"more":0,"accounts":[{"id":7,"salt":"","hash":"ba7816bf8f01cfea414140de5dae2223b00361a396177a9cb410ff61f20015ad","more":0}]} => refused
{"more":0,"accounts":[{"id":"a","hash":"ba7816bf8f01cfea414140de5dae2223b00361a396177a9cb410ff61f20015ad","more":0}]} => refused
{"more":0,"accounts":[{"id":"a","salt":null,"hash":"ba7816bf8f01cfea414140de5dae2223b00361a396177a9cb410ff61f20015ad","more":0}]} => refused
{"more":0,"accounts":[{"id":"a","salt":"","more":0}]} => refused
{"more":0,"accounts":[{"id":"a","salt":"","hash":7,"more":0}]} => refused
 => refused
[] => refused
{} => refused
null => refused
{"accounts":{}} => refused
{"accounts":[7]} => refused
{"accounts":[{}]} => refused
{"accounts":[] => refused"#;

fn is_text(alloc: Global, row: &str) -> Option<bool> {
    let (text, told) = row.split_once(" => ")?;
    Some(is_outcome(alloc, text, told))
}

#[test]
fn each_property_of_an_account_is_a_string(rt: HostRuntime) -> Result<(), Fail> {
    for row in TEXTS.split('\n') {
        let holds = is_text(rt.alloc(), row);
        assert!(rt; holds.unwrap_or(false), "{row}");
    }
    Ok(())
}

// A file of an account whose identifier has so many bytes.
fn named(alloc: Global, bytes: usize) -> Option<String> {
    let id = repeated(alloc, "b", bytes)?;
    file(alloc, id.as_str(), "ad", "null")
}

// A file of so many accounts.
fn many(alloc: Global, count: usize) -> Option<String> {
    let mut text = String::from_str(alloc, "{\"accounts\":[").ok()?;
    let mut parting = "";
    for number in 0..count {
        let account = format!(in alloc;
            "{parting}{{\"id\":\"{number}\",\"salt\":\"\",\"hash\":\"{MOST_DIGITS}ad\"}}"
        );
        text.push_str(account.ok()?.as_str()).ok()?;
        parting = ",";
    }
    text.push_str("]}").ok()?;
    Some(text)
}

// A file with no accounts, nested so deep.
fn nested(alloc: Global, depth: usize) -> Option<String> {
    let opening = repeated(alloc, "[", depth.saturating_sub(1))?;
    let closing = repeated(alloc, "]", depth.saturating_sub(1))?;
    format!(in alloc; "{{\"accounts\":[],\"more\":{opening}{closing}}}").ok()
}

// A file with no accounts, of so many bytes.
fn long(alloc: Global, bytes: usize) -> Option<String> {
    let blanks = repeated(alloc, " ", bytes.saturating_sub(15))?;
    format!(in alloc; "{{\"accounts\":[]}}{blanks}").ok()
}

// A file of this size, which is of an identifier, of accounts, of the depth or of the whole.
fn sized(alloc: Global, what: &str, size: usize) -> Option<String> {
    match what {
        "an identifier" => named(alloc, size),
        "accounts" => many(alloc, size),
        "depth" => nested(alloc, size),
        _ => long(alloc, size),
    }
}

// Whether a file is read at this size and refused past it.
fn is_limit(alloc: Global, what: &str, size: usize) -> Option<bool> {
    let last = sized(alloc, what, size)?;
    let past = sized(alloc, what, size.saturating_add(1))?;
    Some(is_outcome(alloc, last.as_str(), "read") && is_outcome(alloc, past.as_str(), "refused"))
}

#[test]
fn each_limit_is_kept(rt: HostRuntime) -> Result<(), Fail> {
    let rows = [
        ("an identifier", 255),
        ("accounts", 1_000),
        ("depth", 64),
        ("bytes", 1_048_576),
    ];
    for row in &rows {
        let holds = is_limit(rt.alloc(), row.0, row.1);
        assert!(rt; holds.unwrap_or(false), "{}", row.0);
    }
    Ok(())
}
