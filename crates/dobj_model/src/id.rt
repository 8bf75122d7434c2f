//! The identifier of an object, an element or a service.
ghost use Rattle.std.specs.Prelude.{◌≡◌, IfOk, IsUtf8, nat_eq};
ghost use Rattle.std.specs.Hash as fed;
ghost use Rattle.std.specs.Cmp.Lexicographic.{pointwise};
ghost use Rattle.std.specs.Cmp.Rules.{comparing, hashing};
ghost use Rattle.std.proofs.Common.{rules};
ghost use Rattle.dobj_model.specs.Name.{IsName, IsNameOf};

use doip_json::Str;
use std::alloc::{AllocError, Global};
use std::hash::{Hash, Hasher};
use std::marker::Model;

/// The most bytes of a name.
pub(crate) const LONGEST: usize = 255;

/// An identifier, seen as its text of 1 to 255 bytes. It is a key of a table.
#[derive(Debug, Drop)]
pub struct Id {
    text: Str,
}

impl Model for Id {
    ghost use Rattle.std.specs.Prelude.{List, ℕ};
    ghost use Rattle.dobj_model.specs.Name.{IsName};

    ghost Value = { List ℕ };

    ghost view = { λ i. i.text };

    ghost invariant = { λ i. IsName i.text };
}

impl Id {
    /// The identifier that the text spells, `None` exactly when it has no byte or more than 255. It copies the text.
    pub fn of(alloc: Global, text: &str) -> Result<Option<Id>, AllocError>
        ensures { IfOk result (IsNameOf text.now) }
    {
        if text.is_empty() || text.len() > LONGEST {
            return Ok(None);
        }
        Ok(Some(Id {
            text: Str::of(alloc, text)?,
        }))
    }

    /// The same with no copy.
    pub fn from_text(text: Str) -> Option<Id>
        ensures { IsNameOf text result }
    {
        let length = text.get().len();
        if length == 0 || length > LONGEST {
            return None;
        }
        Some(Id { text })
    }

    /// The text, with no copy.
    pub fn into_text(self) -> Str
        ensures text { result ≡ self }
        ensures name { IsName self }
    {
        let Id { text } = self;
        text
    }

    /// The text.
    pub fn get(&self) -> &str
        ensures text { result.now ≡ self.now }
        ensures name { IsName self.now }
        ensures utf8 { IsUtf8 self.now }
    {
        self.text.get()
    }
}

impl PartialEq for Id {
    ghost eq = { pointwise nat_eq };

    ghost laws = { Prim.search (comparing, rules) };

    fn eq(&self, other: &Id) -> bool {
        self.text.get() == other.text.get()
    }
}

impl Eq for Id {
    ghost laws = { Prim.search (comparing, rules) };
}

impl Hash for Id {
    ghost hash_input = { λ i. fed.str i };

    ghost respects_eq = { Prim.search (hashing, rules) };

    fn hash<H: Hasher>(&self, state: &mut H) {
        self.text.get().hash(state)
    }
}

#[cfg(test)]
mod tests {
    use super::*;
    use std::test::Fail;

    #[test]
    fn an_identifier_has_1_to_255_bytes(rt: HostRuntime) -> Result<(), Fail> {
        let alloc = rt.alloc();
        let mut long = String::new(alloc);
        for _ in 0..255 {
            long.push('x')?;
        }
        let whole = Id::of(alloc, long.as_str())?.ok_or("refused")?;
        assert_eq!(rt; whole.get(), long.as_str());
        long.push('x')?;
        assert!(rt; Id::of(alloc, long.as_str())?.is_none());
        assert!(rt; Id::of(alloc, "")?.is_none());
        Ok(())
    }
}
