// Reads the letters and operands of one operator.
#![tactic(auto, unfolding(definition::specs::Operators::opened, definition::specs::Enums::number, definition::specs::Enums::operator, definition::specs::Enums::leaf, definition::specs::Enums::about, definition::specs::Enums::nominal_kind, definition::specs::Enums::subject, definition::specs::Enums::constraint, operator_names::specs::Fixed::fixed, operator_names::specs::Fixed::fixed_names))]

ghost use Rattle.std.specs.Prelude.{◌≡◌, ◌≢◌, ◌≤◌, length};
ghost use Rattle.definition.specs.Operators as Op;
ghost use Rattle.definition.specs.Enums as Enums;
ghost use Rattle.operator_names.specs.Fixed.{fixed};
ghost use Rattle.operator_letters.specs.Operands.{generic_param_letters, archetype_letters, variable_letters, accessor_late, on_target, any_byte, witness_letters, name_if_any};
ghost use Rattle.definition.specs.declared.Operator.TheVariants as Operator;
ghost use Rattle.operator_operands.specs.OperatorReads.{ReadsOperator};
ghost use Rattle.operator_letters.specs.OperatorsRead.{ReadsSubject, Begins};

use definition::{
    About, Accessor, Constraint, Leaf, NominalKind, Operator, Param, Refusal, Subject,
};
use operator_names::Name;
use operator_operands::signatures::generic_signature;
use operator_operands::standard_types::standard;
use text_cursor::Reader;

// What a requirement constrains, before the parameter is read.
#[derive(Clone, Copy)]
enum Target {
    Param,
    Stack,
    Member,
}

// Kept: that the reader is not past the text's end is required (by `subject`, `requiring`,
// `variable` and others) where the next byte may be left: the new place is then the old one, and is
// promised to be inside.

// Operators that consist of letters only

// Kept: one function for each table of letters. They share the reading of the letter and the last
// arm, and a function over their tables would be longer than these two lines.

// `XM` and any byte
fn any_byte(text: &mut Reader) -> Result<Operator, Refusal>
    ensures { ReadsOperator any_byte text.old text.new result }
{
    text.next()?;
    Ok(Operator::Metatype)
}

// `X`
fn special_type(text: &mut Reader) -> Result<Operator, Refusal>
    ensures { ReadsOperator (Op.choose_then Op.special_types) text.old text.new result }
{
    match text.next()? {
        b'E' | b'B' | b'C' | b'A' | b'K' | b'f' | b'L' | b'U' => Ok(Operator::FunctionType),
        b'l' => Ok(Operator::Leaf(Leaf::StandardNominal(
            NominalKind::Protocol,
            Name::AnyObject as usize,
        ))),
        b'M' => any_byte(text),
        b'p' => Ok(Operator::Metatype),
        _ => Err(Refusal::Spelling),
    }
}

// `Y`
fn async_type(text: &mut Reader) -> Result<Operator, Refusal>
    ensures { ReadsOperator (Op.choose Op.async_types) text.old text.new result }
{
    match text.next()? {
        b'a' => Ok(Operator::Leaf(Leaf::Async)),
        _ => Err(Refusal::Spelling),
    }
}

// `f`
fn function_entity(text: &mut Reader) -> Result<Operator, Refusal>
    ensures { ReadsOperator (Op.choose Op.function_entities) text.old text.new result }
{
    match text.next()? {
        b'C' => Ok(Operator::Initializer(true)),
        b'c' => Ok(Operator::Initializer(false)),
        b'D' => Ok(Operator::Deinitializer(true)),
        b'd' => Ok(Operator::Deinitializer(false)),
        b'i' => Ok(Operator::VariableInitializer),
        b'e' => Ok(Operator::Record(About::Context, Name::IvarInitializer as usize)),
        b'E' => Ok(Operator::Record(About::Context, Name::IvarDestroyer as usize)),
        _ => Err(Refusal::Spelling),
    }
}

// `MX`
fn context_descriptor(text: &mut Reader) -> Result<Operator, Refusal>
    ensures { ReadsOperator (Op.choose Op.context_descriptors) text.old text.new result }
{
    match text.next()? {
        b'M' => Ok(Operator::Record(About::Context, Name::ModuleDescriptor as usize)),
        b'E' => Ok(Operator::Record(About::Context, Name::ExtensionDescriptor as usize)),
        b'X' => Ok(Operator::Record(About::Context, Name::AnonymousDescriptor as usize)),
        _ => Err(Refusal::Spelling),
    }
}

// `M`
fn metatype_record(text: &mut Reader) -> Result<Operator, Refusal>
    ensures { ReadsOperator (Op.choose_then Op.metatype_records) text.old text.new result }
{
    match text.next()? {
        b'a' => Ok(Operator::Record(About::Type, Name::TypeMetadataAccessor as usize)),
        b'f' => Ok(Operator::Record(About::Type, Name::FullTypeMetadata as usize)),
        b'm' => Ok(Operator::Record(About::Type, Name::Metaclass as usize)),
        b'n' => Ok(Operator::Record(About::Type, Name::NominalTypeDescriptor as usize)),
        b'F' => Ok(Operator::Record(
            About::Type,
            Name::ReflectionMetadataFieldDescriptor as usize,
        )),
        b'B' => Ok(Operator::Record(
            About::Type,
            Name::ReflectionMetadataBuiltinDescriptor as usize,
        )),
        b'S' => Ok(Operator::Record(
            About::Type,
            Name::ReflectionMetadataSuperclassDescriptor as usize,
        )),
        b'A' => Ok(Operator::Record(
            About::Type,
            Name::ReflectionMetadataAssocTypeDescriptor as usize,
        )),
        b'p' => Ok(Operator::Record(About::Protocol, Name::ProtocolDescriptor as usize)),
        b'c' => Ok(Operator::Record(
            About::Conformance,
            Name::ProtocolConformanceDescriptor as usize,
        )),
        b'V' => Ok(Operator::Record(About::Entity, Name::PropertyDescriptor as usize)),
        b'K' => Ok(Operator::Record(About::Anything, Name::MetadataInstantiationCache as usize)),
        b'L' => Ok(Operator::Record(About::Type, Name::LazyCacheVariableForTypeMetadata as usize)),
        b'i' => Ok(Operator::Record(
            About::Type,
            Name::TypeMetadataInstantiationFunction as usize,
        )),
        b'I' => Ok(Operator::Record(About::Type, Name::TypeMetadataInstantiationCache as usize)),
        b'l' => Ok(Operator::Record(
            About::Type,
            Name::TypeMetadataSingletonInitializationCache as usize,
        )),
        b'r' => Ok(Operator::Record(About::Type, Name::TypeMetadataCompletionFunction as usize)),
        b'P' => Ok(Operator::Record(About::Type, Name::GenericTypeMetadataPattern as usize)),
        b'd' => Ok(Operator::Record(
            About::Type,
            Name::DemanglingCacheVariableForTypeMetadata as usize,
        )),
        b'R' => Ok(Operator::Record(About::Type, Name::MangledNameRefForTypeMetadata as usize)),
        b'X' => context_descriptor(text),
        _ => Err(Refusal::Spelling),
    }
}

// `Wv`
fn field_offset(text: &mut Reader) -> Result<Operator, Refusal>
    ensures { ReadsOperator (Op.choose Op.field_offsets) text.old text.new result }
{
    match text.next()? {
        b'd' => Ok(Operator::Record(About::Entity, Name::DirectFieldOffset as usize)),
        b'i' => Ok(Operator::Record(About::Entity, Name::IndirectFieldOffset as usize)),
        _ => Err(Refusal::Spelling),
    }
}

// `W`
fn witness(text: &mut Reader) -> Result<Operator, Refusal>
    ensures { ReadsOperator (Op.choose_then Op.witnesses) text.old text.new result }
{
    match text.next()? {
        b'V' => Ok(Operator::Record(About::Type, Name::ValueWitnessTable as usize)),
        b'v' => field_offset(text),
        b'l' => Ok(Operator::LazyWitness(Name::LazyProtocolWitnessTableAccessor as usize)),
        b'L' => Ok(Operator::LazyWitness(Name::LazyProtocolWitnessTableCacheVariable as usize)),
        b'P' => Ok(Operator::Record(About::Conformance, Name::ProtocolWitnessTable as usize)),
        b'p' => Ok(Operator::Record(
            About::Conformance,
            Name::ProtocolWitnessTablePattern as usize,
        )),
        b'a' => Ok(Operator::Record(
            About::Conformance,
            Name::ProtocolWitnessTableAccessor as usize,
        )),
        b'S' => Ok(Operator::Record(
            About::Conformance,
            Name::ProtocolSelfConformanceWitnessTable as usize,
        )),
        _ => Err(Refusal::Spelling),
    }
}

// `TY`
fn suspend_resume(text: &mut Reader) -> Result<Operator, Refusal>
    ensures { ReadsOperator Op.suspend_resume text.old text.new result }
{
    Ok(Operator::SuspendResume(text.index()?))
}

// `T`
fn thunk(text: &mut Reader) -> Result<Operator, Refusal>
    ensures { ReadsOperator (Op.choose_then Op.thunks) text.old text.new result }
{
    match text.next()? {
        b'W' => Ok(Operator::ProtocolWitness),
        b'L' => Ok(Operator::Record(
            About::Protocol,
            Name::ProtocolRequirementsBaseDescriptor as usize,
        )),
        b'S' => Ok(Operator::Record(
            About::Protocol,
            Name::ProtocolSelfConformanceDescriptor as usize,
        )),
        b'l' => Ok(Operator::AssociatedType),
        b'n' => Ok(Operator::AssociatedConformance),
        b'Y' => suspend_resume(text),
        b'q' => Ok(Operator::Record(About::Entity, Name::MethodDescriptor as usize)),
        b'u' => Ok(Operator::Record(About::Entity, Name::AsyncFunctionPointer as usize)),
        b'j' => Ok(Operator::Record(About::Entity, Name::DispatchThunk as usize)),
        b'V' => Ok(Operator::Record(About::Entity, Name::VtableThunk as usize)),
        b'o' => Ok(Operator::Record(About::Entity, Name::ObjC as usize)),
        b'O' => Ok(Operator::Record(About::Entity, Name::NonObjC as usize)),
        b'D' => Ok(Operator::Record(About::Entity, Name::DynamicallyReplaceableFunction as usize)),
        b'I' => Ok(Operator::Record(About::Entity, Name::DynamicallyReplaceableVariable as usize)),
        b'X' => Ok(Operator::Record(About::Entity, Name::DynamicallyReplaceableKey as usize)),
        b'm' => Ok(Operator::Record(About::Entity, Name::Merged as usize)),
        _ => Err(Refusal::Spelling),
    }
}

// Generic parameters

// `q`
fn generic_param(text: &mut Reader) -> Result<Operator, Refusal>
    ensures { ReadsOperator generic_param_letters text.old text.new result }
{
    Ok(Operator::Leaf(Leaf::GenericParam(text.generic_param_index()?)))
}

// `Q`
fn archetype(text: &mut Reader) -> Result<Operator, Refusal>
    ensures { ReadsOperator archetype_letters text.old text.new result }
{
    let param = match text.next()? {
        b'z' => Param { depth: 0, index: 0 },
        b'y' => Param {
            depth: 0,
            index: text.index_plus_one()?,
        },
        b'd' => text.depth_and_index()?,
        _ => return Err(Refusal::Spelling),
    };
    Ok(Operator::Archetype(param))
}

// `R`: requirements

// Reads the subject of a requirement.
fn subject(text: &mut Reader, target: Target) -> Result<Subject, Refusal>
    requires { text.old.at ≤ length text.old.text.now }
    ensures { ReadsSubject (on_target target) text.old text.new result }
{
    match target {
        Target::Param => Ok(Subject::OfParam(text.generic_param_index()?)),
        Target::Stack => Ok(Subject::OfStack),
        Target::Member => Ok(Subject::OfMember(text.generic_param_index()?)),
    }
}

fn requiring(text: &mut Reader, target: Target, constraint: Constraint) -> Result<Operator, Refusal>
    requires { text.old.at ≤ length text.old.text.now }
    ensures { ReadsOperator (Op.requiring (on_target target) (Enums.constraint constraint)) text.old text.new result }
{
    Ok(Operator::Requirement(subject(text, target)?, constraint))
}

// Reads the subject and the letter of a layout, which is judged late.
fn requiring_layout(text: &mut Reader, target: Target) -> Result<Operator, Refusal>
    requires { text.old.at ≤ length text.old.text.now }
    ensures { ReadsOperator (Op.requiring_layout (on_target target)) text.old text.new result }
{
    let subject = subject(text, target)?;
    let valid = text.next_if_any() == Some(b'C');
    Ok(Operator::Requirement(subject, Constraint::Layout(valid)))
}

fn requirement(text: &mut Reader) -> Result<Operator, Refusal>
    ensures { ReadsOperator Op.requirement_letters text.old text.new result }
{
    let start = *text;
    match text.next()? {
        b'p' => requiring(text, Target::Member, Constraint::Conforms),
        b'Q' => requiring(text, Target::Stack, Constraint::Conforms),
        b'b' => requiring(text, Target::Param, Constraint::Superclass),
        b'B' => requiring(text, Target::Stack, Constraint::Superclass),
        b'c' => requiring(text, Target::Member, Constraint::Superclass),
        b's' => requiring(text, Target::Param, Constraint::SameType),
        b'S' => requiring(text, Target::Stack, Constraint::SameType),
        b't' => requiring(text, Target::Member, Constraint::SameType),
        b'l' => requiring_layout(text, Target::Param),
        b'L' => requiring_layout(text, Target::Stack),
        b'm' => requiring_layout(text, Target::Member),
        b'P' | b'C' | b'T' | b'M' => Err(Refusal::Spelling),
        _ => {
            // The letter is the first of the parameter's index.
            *text = start;
            requiring(text, Target::Param, Constraint::Conforms)
        }
    }
}

// `v`: the letter is judged late

fn accessor_of(b: u8) -> Accessor
    ensures { Enums.operator fixed (Operator.Variable result) ≡ accessor_late b }
{
    match b {
        b'p' => Accessor::Itself,
        b'g' => Accessor::Named(Name::Getter as usize),
        b's' => Accessor::Named(Name::Setter as usize),
        b'M' => Accessor::Named(Name::Modify as usize),
        b'r' => Accessor::Named(Name::Read as usize),
        b'm' => Accessor::Named(Name::MaterializeForSet as usize),
        b'w' => Accessor::Named(Name::WillSet as usize),
        b'W' => Accessor::Named(Name::DidSet as usize),
        b'G' => Accessor::Named(Name::UnsafeAddressor as usize),
        b'a' => Accessor::Named(Name::UnsafeMutableAddressor as usize),
        b'l' => Accessor::Named(Name::ModifyCoroutine as usize),
        _ => Accessor::Broken,
    }
}

fn variable(text: &mut Reader) -> Result<Operator, Refusal>
    requires { text.old.at ≤ length text.old.text.now }
    ensures { ReadsOperator variable_letters text.old text.new result }
{
    let accessor = match text.next_if_any() {
        Some(b) => accessor_of(b),
        None => Accessor::Broken,
    };
    Ok(Operator::Variable(accessor))
}

// `w`: value witnesses

// The name of a witness, given by both letters.
fn witness_name(a: u8, b: u8) -> Option<usize>
    ensures { name_if_any result ≡ witness_letters a b }
{
    Some(match (a, b) {
        (b'a', b'l') => Name::AllocateBuffer as usize,
        (b'c', b'a') => Name::AssignWithCopy as usize,
        (b'c', b'p') => Name::InitializeWithCopy as usize,
        (b't', b'a') => Name::AssignWithTake as usize,
        (b't', b'k') => Name::InitializeWithTake as usize,
        (b't', b'T') => Name::InitializeArrayWithTakeBackToFront as usize,
        (b'd', b'e') => Name::DeallocateBuffer as usize,
        (b'x', b'x') => Name::Destroy as usize,
        (b'x', b's') => Name::StoreExtraInhabitant as usize,
        (b'x', b'g') => Name::GetExtraInhabitantIndex as usize,
        (b'X', b'X') => Name::DestroyBuffer as usize,
        (b'X', b'x') => Name::DestroyArray as usize,
        (b'C', b'P') => Name::InitializeBufferWithCopyOfBuffer as usize,
        (b'C', b'p') => Name::InitializeBufferWithCopy as usize,
        (b'C', b'c') => Name::InitializeArrayWithCopy as usize,
        (b'T', b'k') => Name::InitializeBufferWithTake as usize,
        (b'T', b'K') => Name::InitializeBufferWithTakeOfBuffer as usize,
        (b'T', b't') => Name::InitializeArrayWithTakeFrontToBack as usize,
        (b'p', b'r') => Name::ProjectBuffer as usize,
        (b'u', b'g') => Name::GetEnumTag as usize,
        (b'u', b'p') => Name::DestructiveProjectEnumData as usize,
        (b'u', b'i') => Name::DestructiveInjectEnumTag as usize,
        (b'e', b't') => Name::GetEnumTagSinglePayload as usize,
        (b's', b't') => Name::StoreEnumTagSinglePayload as usize,
        _ => return None,
    })
}

fn value_witness(text: &mut Reader) -> Result<Operator, Refusal>
    ensures { ReadsOperator Op.value_witness_letters text.old text.new result }
{
    let a = text.next()?;
    let b = text.next()?;
    let name = witness_name(a, b).ok_or(Refusal::Spelling)?;
    Ok(Operator::ValueWitness(name))
}

// An operator

// Reads what follows the first letter of an operator other than `A`.
fn operator_of(text: &mut Reader, b: u8) -> Result<Operator, Refusal>
    requires inside { text.old.at ≤ length text.old.text.now }
    requires other { b ≢ 65 }
    ensures { ReadsOperator (Op.operator b) text.old text.new result }
{
    let op = match b {
        b'C' => Operator::Nominal(NominalKind::Class),
        b'V' => Operator::Nominal(NominalKind::Struct),
        b'O' => Operator::Nominal(NominalKind::Enum),
        b'P' => Operator::Nominal(NominalKind::Protocol),
        b'a' => Operator::Nominal(NominalKind::TypeAlias),
        b'S' => return standard(text),
        b's' => Operator::Leaf(Leaf::Module(Name::Swift as usize)),
        b'y' => Operator::Leaf(Leaf::EmptyList),
        b'_' => Operator::Leaf(Leaf::FirstElementMarker),
        b'd' => Operator::Leaf(Leaf::VariadicMarker),
        b'K' => Operator::Leaf(Leaf::Throws),
        b't' => Operator::Tuple,
        b'c' => Operator::FunctionType,
        b'X' => return special_type(text),
        b'Y' => return async_type(text),
        b'x' => Operator::Leaf(Leaf::GenericParam(Param { depth: 0, index: 0 })),
        b'q' => return generic_param(text),
        b'Q' => return archetype(text),
        b'z' => Operator::InOut,
        b'm' => Operator::Metatype,
        b'p' => Operator::ProtocolList,
        b'G' => Operator::BoundGeneric,
        b'R' => return requirement(text),
        b'l' => Operator::GenericSignature(1),
        b'r' => return generic_signature(text),
        b'F' => Operator::PlainFunction,
        b'v' => return variable(text),
        b'f' => return function_entity(text),
        b'Z' => Operator::Static,
        b'M' => return metatype_record(text),
        b'N' => Operator::Record(About::Type, Name::TypeMetadata as usize),
        b'W' => return witness(text),
        b'w' => return value_witness(text),
        b'T' => return thunk(text),
        _ => return Err(Refusal::Spelling),
    };
    Ok(op)
}

// Reads an operator other than `A`. The run takes the letter `A` before it, whose items are
// performed one by one, so here it is refused like a letter that no operator begins with.
pub fn other_operator(text: &mut Reader) -> Result<Operator, Refusal>
    ensures { Begins text.old text.new result }
{
    let b = text.next()?;
    if b == b'A' {
        return Err(Refusal::Spelling);
    }
    operator_of(text, b)
}
