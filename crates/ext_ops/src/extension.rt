//! Extended operations as closures.
ghost use Rattle.std.specs.Prelude.{◌≡◌, IfOk};
ghost use Rattle.std.specs.Coded.{codes};
ghost use Rattle.std.specs.Result.{ForOk};
ghost use Rattle.doip_json.specs.Stored.{value_code};
ghost use Rattle.ext_ops.specs.Extended.{answer_of, ext};

use crate::answer::ExtAnswer;
use crate::code::ExtCode;
use dobj_model::{Id, Object};
use doip_json::JsonMap;
use std::alloc::AllocError;

/// An extended operation. Whoever makes one proves that its closure gives the answer of the code for every object and
/// arguments, or is out of memory.
#[derive(Drop)]
pub struct Extension {
    /// Which answer it gives.
    pub code: ExtCode,
    /// The identifier of the operation.
    pub operation: Id,
    /// The closure.
    pub call: Box<dyn Fn(&Object, &JsonMap) -> Result<ExtAnswer, AllocError> + Send>,
    ghost callable: { IsAlwaysCallable call },
    ghost answers: { (object : _) → (arguments : _) → (given : _) → post call object arguments given
        → ForOk given (λ answer. answer_of answer ≡ ext code object.now arguments.now) } by { Prim.hlevel (value_code, codes) },
}

// An extension without the identifier of its operation.
#[derive(Drop)]
pub(crate) struct Answering {
    pub(crate) code: ExtCode,
    pub(crate) call: Box<dyn Fn(&Object, &JsonMap) -> Result<ExtAnswer, AllocError> + Send>,
    ghost callable: { IsAlwaysCallable call },
    ghost answers: { (object : _) → (arguments : _) → (given : _) → post call object arguments given
        → ForOk given (λ answer. answer_of answer ≡ ext code object.now arguments.now) } by { Prim.hlevel (value_code, codes) },
}

impl Answering {
    // What the closure answers.
    pub(crate) fn run(&self, object: &Object, arguments: &JsonMap) -> Result<ExtAnswer, AllocError>
        ensures { IfOk result (λ answer. answer_of answer ≡ ext self.now.code object.now arguments.now) }
    {
        (self.call)(object, arguments)
    }
}
