//! The name of an object's type.
ghost use Rattle.std.specs.Prelude.{◌≡◌, IfOk, IsUtf8};
ghost use Rattle.dobj_model.specs.Name.{IsName, IsNameOf};

use crate::id::LONGEST;
use doip_json::Str;
use std::alloc::{AllocError, Global};
use std::marker::Model;

/// The name of an object's type, seen as its text of 1 to 255 bytes.
#[derive(Debug, Drop)]
pub struct TypeName {
    text: Str,
}

impl Model for TypeName {
    ghost use Rattle.std.specs.Prelude.{List, ℕ};
    ghost use Rattle.dobj_model.specs.Name.{IsName};

    ghost Value = { List ℕ };

    ghost view = { λ t. t.text };

    ghost invariant = { λ t. IsName t.text };
}

impl TypeName {
    /// The type name that the text spells, `None` exactly when it has no byte or more than 255. It copies the text.
    pub fn of(alloc: Global, text: &str) -> Result<Option<TypeName>, AllocError>
        ensures { IfOk result (IsNameOf text.now) }
    {
        if text.is_empty() || text.len() > LONGEST {
            return Ok(None);
        }
        Ok(Some(TypeName {
            text: Str::of(alloc, text)?,
        }))
    }

    /// The same with no copy.
    pub fn from_text(text: Str) -> Option<TypeName>
        ensures { IsNameOf text result }
    {
        let length = text.get().len();
        if length == 0 || length > LONGEST {
            return None;
        }
        Some(TypeName { text })
    }

    /// The text, with no copy.
    pub fn into_text(self) -> Str
        ensures text { result ≡ self }
        ensures name { IsName self }
    {
        let TypeName { text } = self;
        text
    }

    /// The text.
    pub fn get(&self) -> &str
        ensures text { result.now ≡ self.now }
        ensures name { IsName self.now }
        ensures utf8 { IsUtf8 self.now }
    {
        self.text.get()
    }
}
