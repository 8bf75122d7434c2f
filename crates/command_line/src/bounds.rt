//! What the commands do, and the bounds and the defaults of what they are given. The help lines say the bounds.

/// What each command does.
pub(crate) const ANSWER_ABOUT: &str = "Answers the messages on standard input";

pub(crate) const INIT_ABOUT: &str = "Makes a file that holds an empty repository";

pub(crate) const CHECK_ABOUT: &str = "Checks a file that holds a repository";

pub(crate) const COMPACT_ABOUT: &str =
    "Writes the repository's objects anew, without its past changes";

pub(crate) const MIGRATE_ABOUT: &str = "Brings a file of format 1 over to format 2";

/// The most bytes that a service's identifier has, and its prefix.
pub(crate) const LONGEST_SERVICE: usize = 255;

pub(crate) const LONGEST_PREFIX: usize = 200;

pub(crate) const SERVICE_HELP: &str =
    "The service's identifier, of 1 to 255 bytes, at most 200 before its first '/'";

/// The address that Hello reports.
pub(crate) const ADDRESS: &str = "127.0.0.1";

pub(crate) const ADDRESS_HELP: &str = "The address that Hello reports";

/// The port that Hello reports.
pub(crate) const LEAST_PORT: u32 = 1;

pub(crate) const GREATEST_PORT: u32 = 65_535;

pub(crate) const PORT: &str = "9000";

pub(crate) const PORT_HELP: &str = "The port that Hello reports, from 1 to 65535";

/// The most bytes of a request.
pub(crate) const LEAST_REQUEST: u32 = 64;

pub(crate) const GREATEST_REQUEST: u32 = 16_777_216;

pub(crate) const REQUEST: &str = "16777216";

pub(crate) const REQUEST_HELP: &str = "The most bytes of a request, from 64 to 16777216";

/// The bytes of each of a store's two areas.
pub(crate) const LEAST_AREA: u32 = 64;

pub(crate) const GREATEST_AREA: u32 = 268_435_456;

pub(crate) const AREA: &str = "268435456";

pub(crate) const AREA_HELP: &str =
    "The bytes of each of the file's two areas, from 64 to 268435456";

/// The files that a command is given.
pub(crate) const ACCOUNTS_HELP: &str = "The file with the accounts; without it there are none";

pub(crate) const STORE_HELP: &str =
    "The file that holds the repository; without it the repository is in memory";

pub(crate) const FILE_HELP: &str = "The file that holds the repository";
