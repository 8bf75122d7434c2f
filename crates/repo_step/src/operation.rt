//! The operations, and their identifiers.
ghost use Rattle.std.specs.Prelude.{◌≡◌};
ghost use Rattle.repo_step.specs.Setting.{Setting};
ghost use Rattle.repo_step.specs.operations.Names as names;

use ext_ops::{ExtCode, Extensions};

/// An operation of the repository.
#[derive(Clone, Copy, Debug, PartialEq, Eq)]
pub enum Operation {
    /// Returns the service's information.
    Hello,
    /// Lists what the target offers.
    ListOperations,
    /// Makes an object.
    Create,
    /// Returns an object, or an element of it.
    Retrieve,
    /// Replaces attributes and elements of an object.
    Update,
    /// Removes an object.
    Delete,
    /// What an extension answers on an object.
    Extended(ExtCode),
}

/// The operation that an identifier names: a basic one, or an extension's that isn't reserved.
pub(crate) fn operation_in(extensions: &Extensions, name: &str) -> Option<Operation>
    ensures { (setting : Setting) → setting.extensions.operations ≡ extensions.now.operations
        → result ≡ names.operation_in setting name.now }
{
    match basic_operation(name) {
        Some(operation) => Some(operation),
        None => extended_operation(extensions, name),
    }
}

// The basic operation of an identifier.
fn basic_operation(name: &str) -> Option<Operation>
    ensures { result ≡ names.basic_operation name.now }
{
    match name {
        "0.DOIP/Op.Hello" => Some(Operation::Hello),
        "0.DOIP/Op.ListOperations" => Some(Operation::ListOperations),
        "0.DOIP/Op.Create" => Some(Operation::Create),
        "0.DOIP/Op.Retrieve" => Some(Operation::Retrieve),
        "0.DOIP/Op.Update" => Some(Operation::Update),
        "0.DOIP/Op.Delete" => Some(Operation::Delete),
        _ => None,
    }
}

// The operation of an extension, unless its identifier is reserved.
fn extended_operation(extensions: &Extensions, name: &str) -> Option<Operation>
    ensures { (setting : Setting) → setting.extensions.operations ≡ extensions.now.operations
        → result ≡ names.extended_operation setting name.now }
{
    if is_reserved(name) {
        return None;
    }
    match extensions.operations().code(name) {
        Some(code) => Some(Operation::Extended(*code)),
        None => None,
    }
}

/// Whether no extension is reached under the identifier: it is one of DOIP 2.0, or that of the list of changes.
pub(crate) fn is_reserved(name: &str) -> bool
    ensures { result ≡ names.is_reserved name.now }
{
    match name {
        "0.DOIP/Op.Hello" => true,
        "0.DOIP/Op.ListOperations" => true,
        "0.DOIP/Op.Create" => true,
        "0.DOIP/Op.Retrieve" => true,
        "0.DOIP/Op.Update" => true,
        "0.DOIP/Op.Delete" => true,
        "0.DOIP/Op.Search" => true,
        "ext/Op.Changes" => true,
        _ => false,
    }
}
