//! Write hooks as closures.
ghost use Rattle.std.specs.Prelude.{◌≡◌, IfOk};
ghost use Rattle.std.specs.Coded.{codes};
ghost use Rattle.std.specs.Result.{ForOk};
ghost use Rattle.doip_json.specs.Stored.{value_code};
ghost use Rattle.doip_json.specs.Meaning.{value_of};
ghost use Rattle.ext_ops.specs.Hook.{content_of, hook};

use crate::answer::HookAnswer;
use crate::code::HookCode;
use dobj_model::Id;
use doip_json::Json;
use std::alloc::AllocError;

/// A write hook. Whoever makes one proves that its closure gives the answer of the code for every content, or is out of
/// memory.
#[derive(Drop)]
pub struct WriteHook {
    /// What it makes of content.
    pub code: HookCode,
    /// The name by which a type object names it.
    pub name: Id,
    /// The closure.
    pub call: Box<dyn Fn(&Json) -> Result<HookAnswer, AllocError> + Send>,
    ghost callable: { IsAlwaysCallable call },
    ghost answers: { (content : _) → (given : _) → post call content given
        → ForOk given (λ answer. content_of answer ≡ hook code (value_of content.now)) } by { Prim.hlevel (value_code, codes) },
}

// A hook without its name.
#[derive(Drop)]
pub(crate) struct Changing {
    pub(crate) code: HookCode,
    pub(crate) call: Box<dyn Fn(&Json) -> Result<HookAnswer, AllocError> + Send>,
    ghost callable: { IsAlwaysCallable call },
    ghost answers: { (content : _) → (given : _) → post call content given
        → ForOk given (λ answer. content_of answer ≡ hook code (value_of content.now)) } by { Prim.hlevel (value_code, codes) },
}

impl Changing {
    // What the closure makes of content.
    pub(crate) fn run(&self, content: &Json) -> Result<HookAnswer, AllocError>
        ensures { IfOk result (λ answer. content_of answer ≡ hook self.now.code (value_of content.now)) }
    {
        (self.call)(content)
    }
}
