//! Which answer a closure gives.

/// Which answer an extended operation gives. What each is, `ext` of `specs/Extended.antt` says.
#[derive(Clone, Copy, Debug, PartialEq, Eq, Drop)]
pub enum ExtCode {
    /// The SHA-256 of an element's bytes.
    Digest,
    /// The value at a JSON pointer into the content.
    Pick,
}

/// What a write hook makes of content. What each is, `hook` of `specs/Hook.antt` says.
#[derive(Clone, Copy, Debug, PartialEq, Eq, Drop)]
pub enum HookCode {
    /// Strings directly under a key, without the white bytes at their ends.
    Trim,
    /// The number of keys, at the key `count`.
    Count,
}
