//! Refusals, with the status and the message of each.
ghost use Rattle.std.specs.Prelude.{◌≡◌, ◌++◌, codes, IfOk, Ok, string_bytes};
ghost use Rattle.repo_step.specs.Refusals.{HasWords};
ghost use Rattle.repo_step.specs.Refusals as spec;
ghost use Rattle.repo_step.specs.Chain as chain;

use dobj_draft::{ObjectFault, ObjectField};
use dobj_model::{Id, TypeName};
use doip_json::{Str, TextFault};
use doip_message::{FieldName, Status, Why};
use std::alloc::{AllocError, Global};

/// Why a request is refused, in the order of the table of refusals.
#[derive(Debug, Drop)]
pub enum Refusal {
    /// The message is no request, for this first fault.
    Invalid {
        why: Why,
    },
    /// The credentials are wrong.
    AuthenticationRefused,
    /// No operation has this identifier.
    OperationUnknown,
    /// The target is neither the service nor an object.
    TargetUnknown,
    /// The operation isn't offered on this target.
    NotOffered,
    /// An anonymous caller has no right.
    AuthenticationNeeded,
    /// A known caller has no right.
    NotPermitted,
    /// The argument `element` names no element.
    ArgumentElement,
    /// The input is no object, for this first fault.
    BadInput {
        fault: ObjectFault,
    },
    /// The input has no type.
    TypeMissing,
    /// The type isn't known.
    TypeUnknown {
        name: TypeName,
    },
    /// No bytes came for this element.
    NoBytes {
        id: Id,
    },
    /// The input of an update has another identifier.
    OtherId,
    /// The input of an update has another type.
    OtherType,
    /// The identifier is the service's or an object's.
    InUse,
    /// No number is left for an identifier.
    CounterSpent,
    /// The extension refuses, for this reason.
    ByExtension {
        reason: Str,
    },
    /// There are as many objects as there may be.
    TooManyObjects,
    /// The object was changed as often as it may be.
    LastRevision,
    /// There is no number for the change.
    TooManyChanges,
    /// The area has no room for the record of the change.
    AreaFull {
        /// The bytes that are used.
        used: u64,
        /// The bytes that the record asks for.
        asked: u64,
    },
}

/// Why a step has no output.
#[derive(Debug, Drop)]
pub enum Stop {
    /// The request is refused.
    Refused(Refusal),
    /// Out of memory.
    Memory,
}

impl From<AllocError> for Stop {
    ghost use Rattle.repo_step.specs.declared.refusal.Stop.TheVariants.{Memory};

    ghost from_gives = { λ e stop. stop ≡ Memory };

    fn from(_: AllocError) -> Stop {
        Stop::Memory
    }
}

impl From<Refusal> for Stop {
    ghost use Rattle.repo_step.specs.declared.refusal.Stop.TheVariants.{Refused};

    ghost from_gives = { λ refusal stop. stop ≡ Refused refusal };

    fn from(refusal: Refusal) -> Stop {
        Stop::Refused(refusal)
    }
}

impl Refusal {
    /// The status.
    pub fn status(&self) -> Status
        ensures { result ≡ spec.refusal_status self.now }
    {
        match self {
            Refusal::AuthenticationRefused | Refusal::AuthenticationNeeded => {
                Status::NotAuthenticated
            }
            Refusal::NotPermitted => Status::NotPermitted,
            Refusal::OperationUnknown | Refusal::NotOffered => Status::Declined,
            Refusal::TargetUnknown => Status::Unknown,
            Refusal::InUse => Status::InUse,
            _ => Status::Invalid,
        }
    }

    /// The message.
    pub fn message(&self, alloc: Global) -> Result<String, AllocError>
        ensures { IfOk result (λ text. string_bytes text ≡ spec.refusal_message self.now) }
    {
        match self {
            Refusal::Invalid { why } => fault_message(alloc, *why),
            Refusal::BadInput { fault } => input_message(alloc, fault),
            Refusal::TypeUnknown { name } => joined(alloc, "type unknown: ", name.get()),
            Refusal::NoBytes { id } => joined(alloc, "input: no bytes for ", id.get()),
            Refusal::ByExtension { reason } => joined(alloc, "extension: ", reason.get()),
            Refusal::AreaFull { used, asked } => {
                format!(in alloc; "limit: area, {} used, {} asked", *used, *asked)
            }
            other => String::from_str(alloc, other.words()),
        }
    }

    // The message of a refusal that always has the same, and nothing for any other.
    fn words(&self) -> &'static str
        ensures { HasWords self.now result.now }
    {
        match self {
            Refusal::AuthenticationRefused => "authentication refused",
            Refusal::OperationUnknown => "operation unknown",
            Refusal::TargetUnknown => "target unknown",
            Refusal::NotOffered => "operation not offered here",
            Refusal::AuthenticationNeeded => "authentication needed",
            Refusal::NotPermitted => "not permitted",
            Refusal::ArgumentElement => "argument: element",
            Refusal::TypeMissing => "input: type",
            Refusal::OtherId => "input: id",
            Refusal::OtherType => "type cannot change",
            Refusal::InUse => "identifier in use",
            Refusal::CounterSpent => "limit: counter",
            Refusal::TooManyObjects => "limit: objects",
            Refusal::LastRevision => "limit: revision",
            Refusal::TooManyChanges => "limit: changes",
            _ => "",
        }
    }
}

/// Refuses unless it holds.
pub(crate) fn unless(holds: bool, refusal: Refusal) -> Result<(), Refusal>
    ensures { result ≡ chain.unless holds refusal (Ok tt) }
{
    if holds { Ok(()) } else { Err(refusal) }
}

// One text after another.
fn joined(alloc: Global, first: &str, second: &str) -> Result<String, AllocError>
    ensures { IfOk result (λ text. string_bytes text ≡ first.now ++ second.now) }
{
    let mut text = String::from_str(alloc, first)?;
    text.push_str(second)?;
    Ok(text)
}

// Why a message is no request.
fn fault_message(alloc: Global, why: Why) -> Result<String, AllocError>
    ensures { IfOk result (λ text. string_bytes text ≡ spec.fault_message why) }
{
    match why {
        Why::NoSegment => String::from_str(alloc, "no segment"),
        Why::FirstIsBytes => String::from_str(alloc, "first segment is bytes"),
        Why::Json(fault) => joined(alloc, "first segment: ", text_message(fault)),
        Why::NotTable => String::from_str(alloc, "first segment: not an object"),
        Why::Field { name } => String::from_str(alloc, field_message(name)),
        Why::TwoInputs => String::from_str(alloc, "input twice"),
        // No refusal is made of this.
        Why::Memory => Ok(String::new(alloc)),
    }
}

// What is wrong with a text.
fn text_message(fault: TextFault) -> &'static str
    ensures { result.now ≡ spec.text_message fault }
{
    match fault {
        TextFault::NotJson => "not JSON",
        TextFault::TooDeep => "nested too deep",
        TextFault::NotWhole => "number is not whole",
    }
}

// Which property of a request is wrong.
fn field_message(name: FieldName) -> &'static str
    ensures { result.now ≡ spec.field_message name }
{
    match name {
        FieldName::RequestId => "field: requestId",
        FieldName::TargetId => "field: targetId",
        FieldName::OperationId => "field: operationId",
        FieldName::Attributes => "field: attributes",
        FieldName::Status => "field: status",
    }
}

// What is wrong with an input.
fn input_message(alloc: Global, fault: &ObjectFault) -> Result<String, AllocError>
    ensures { IfOk result (λ text. string_bytes text ≡ codes "input: " ++ spec.input_message fault.now) }
{
    match fault {
        ObjectFault::Missing => String::from_str(alloc, "input: missing"),
        ObjectFault::Segment { number } => format!(in alloc; "input: segment {}", *number),
        ObjectFault::Json { number, fault } => {
            format!(in alloc; "input: segment {}: {}", *number, text_message(*fault))
        }
        ObjectFault::NotObject => String::from_str(alloc, "input: not an object"),
        ObjectFault::Signatures => String::from_str(alloc, "input: signatures"),
        ObjectFault::BadField { name } => joined(alloc, "input: ", property_message(*name)),
        ObjectFault::TooMany => String::from_str(alloc, "input: too many elements"),
        ObjectFault::TwiceElement { id } => joined(alloc, "input: element twice ", id.get()),
        ObjectFault::Stranger { id } => joined(alloc, "input: stranger ", id.get()),
        // No refusal is made of this.
        ObjectFault::Memory => String::from_str(alloc, "input: "),
    }
}

// Which property of an object is wrong.
fn property_message(name: ObjectField) -> &'static str
    ensures { result.now ≡ spec.property_message name }
{
    match name {
        ObjectField::Id => "id",
        ObjectField::Type => "type",
        ObjectField::Attributes => "attributes",
        ObjectField::Acl => "acl",
        ObjectField::Elements => "elements",
        ObjectField::ElementId => "element id",
        ObjectField::ElementType => "element type",
        ObjectField::ElementAttributes => "element attributes",
    }
}
