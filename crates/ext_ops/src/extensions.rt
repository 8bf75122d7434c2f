//! The extensions and hooks of a repository.
ghost use Rattle.std.specs.Prelude.{◌≡◌, ◌≢◌, ◌↔◌, [], ◌∷◌, ◌++◌, map, IsSome, IfOk, IfErr, OnOk, OnErr, option_map};
ghost use Rattle.std.specs.Result.{IsErrOf};
ghost use Rattle.std.specs.Map.{values_of};
ghost use Rattle.doip_json.specs.Meaning.{value_of};
ghost use Rattle.ext_ops.specs.declared.fault.ExtFault.TheVariants.{Twice, Memory};
ghost use Rattle.ext_ops.specs.Extended.{answer_of, ext};
ghost use Rattle.ext_ops.specs.Hook.{content_of, hook};
ghost use Rattle.ext_ops.specs.Offered.{code_at};

use crate::answer::{ExtAnswer, HookAnswer};
use crate::code::{ExtCode, HookCode};
use crate::extension::{Answering, Extension};
use crate::fault::ExtFault;
use crate::names::Names;
use crate::write_hook::{Changing, WriteHook};
use dobj_model::Object;
use doip_json::{Json, JsonMap};
use std::alloc::{AllocError, Global};

/// The extensions and the hooks of a repository, looked up by their names in constant time.
///
/// A contract sees the fields `operations` and `hooks` as lists of names and codes.
#[derive(Drop)]
pub struct Extensions {
    /// The operations and the codes of their extensions, in the order in which they were added.
    pub operations: Names<ExtCode>,
    /// The names and the codes of the hooks, in the order in which they were added.
    pub hooks: Names<HookCode>,
    // The closures, in the same order.
    answering: Vec<Answering>,
    changing: Vec<Changing>,
    ghost operations_kept: { map (λ a. a.code) answering.items ≡ values_of operations },
    ghost hooks_kept: { map (λ h. h.code) changing.items ≡ values_of hooks },
}

impl Extensions {
    /// No extensions and no hooks. It takes no memory.
    pub fn none(alloc: Global) -> Extensions
        ensures operations { result.operations ≡ [] }
        ensures hooks { result.hooks ≡ [] }
    {
        Extensions {
            operations: Names::none(alloc),
            hooks: Names::none(alloc),
            answering: Vec::new(alloc),
            changing: Vec::new(alloc),
        }
    }

    /// Adds an extension after the others. Its operation may be one that the repository has itself; whether it is ever
    /// called is the caller's.
    ///
    /// # Errors
    /// `Twice` with the operation exactly if there is an extension of this operation. `Memory` comes only if an
    /// allocation was refused. Then the extension is dropped, and the others stay.
    pub fn add(&mut self, extension: Extension) -> Result<(), ExtFault>
        ensures added { OnOk result
            (self.new.operations ≡ self.old.operations ++ (extension.operation, extension.code) ∷ []) }
        ensures hooks { self.new.hooks ≡ self.old.hooks }

        ensures twice { IsErrOf result (Twice extension.operation)
            ↔ IsSome (code_at extension.operation self.old.operations) }
        ensures other { IfErr result (λ fault. fault ≢ Memory → fault ≡ Twice extension.operation) }
        ensures err { OnErr result (self.new.operations ≡ self.old.operations) }
    {
        let Extension {
            code,
            operation,
            call,
        } = extension;
        if self.operations.code(operation.get()).is_some() {
            return Err(ExtFault::Twice { operation });
        }
        if self.answering.push(Answering { code, call }).is_err() {
            return Err(ExtFault::Memory);
        }
        match self.operations.push(operation, code) {
            Ok(()) => Ok(()),
            Err(fault) => {
                self.answering.pop();
                Err(ExtFault::from(fault))
            }
        }
    }

    /// The operations that have an extension, in the order in which they were added.
    pub fn operations(&self) -> &Names<ExtCode>
        ensures { result.now ≡ self.now.operations }
    {
        &self.operations
    }

    /// What the extension of an operation answers on an object and arguments; `None` exactly when no extension has the
    /// operation.
    pub fn call(
        &self,
        operation: &str,
        object: &Object,
        arguments: &JsonMap,
    ) -> Result<Option<ExtAnswer>, AllocError>
        ensures { IfOk result (λ answer. option_map answer_of answer
            ≡ option_map (λ code. ext code object.now arguments.now) (code_at operation.now self.now.operations)) }
    {
        let Some(place) = self.operations.place_of(operation) else {
            return Ok(None);
        };
        let answer = self.answering[place].run(object, arguments)?;
        Ok(Some(answer))
    }

    /// Adds a hook after the others.
    ///
    /// # Errors
    /// `Twice` with the name exactly if there is a hook of this name. `Memory` comes only if an allocation was refused.
    /// Then the hook is dropped, and the others stay.
    pub fn add_hook(&mut self, hook: WriteHook) -> Result<(), ExtFault>
        ensures added { OnOk result (self.new.hooks ≡ self.old.hooks ++ (hook.name, hook.code) ∷ []) }
        ensures operations { self.new.operations ≡ self.old.operations }

        ensures twice { IsErrOf result (Twice hook.name) ↔ IsSome (code_at hook.name self.old.hooks) }
        ensures other { IfErr result (λ fault. fault ≢ Memory → fault ≡ Twice hook.name) }
        ensures err { OnErr result (self.new.hooks ≡ self.old.hooks) }
    {
        let WriteHook { code, name, call } = hook;
        if self.hooks.code(name.get()).is_some() {
            return Err(ExtFault::Twice { operation: name });
        }
        if self.changing.push(Changing { code, call }).is_err() {
            return Err(ExtFault::Memory);
        }
        match self.hooks.push(name, code) {
            Ok(()) => Ok(()),
            Err(fault) => {
                self.changing.pop();
                Err(ExtFault::from(fault))
            }
        }
    }

    /// What the hook of a name makes of content; `None` exactly when no hook has the name.
    pub fn hook(&self, name: &str, content: &Json) -> Result<Option<HookAnswer>, AllocError>
        ensures { IfOk result (λ answer. option_map content_of answer
            ≡ option_map (λ code. hook code (value_of content.now)) (code_at name.now self.now.hooks)) }
    {
        let Some(place) = self.hooks.place_of(name) else {
            return Ok(None);
        };
        let answer = self.changing[place].run(content)?;
        Ok(Some(answer))
    }
}
