// The types that contracts name. The meaning of each of their cases is in specs/Enums.antt.
#![tactic(auto)]

ghost use Rattle.std.specs.Prelude.{◌≡◌};

// The refusals 1 to 12 of document 01, "How each operation refuses". `refusal as usize` is the
// number.
#[derive(Clone, Copy, Debug, PartialEq, Eq)]
pub enum Refusal {
    Ceiling = 1,
    Workspace,
    Length,
    Encoding,
    Prefix,
    Steps,
    Charge,
    Nesting,
    Spelling,
    Stack,
    Leftover,
    Output,
}

// The number of turns of `run`, the sum of all charges, and the number of wraps.
#[derive(Clone, Copy, Debug, PartialEq, Eq)]
pub struct Counts {
    pub steps: usize,
    pub total: usize,
    pub wraps: usize,
}

// What is known of a text that is accepted: its counts, and how many elements are written.
#[derive(Clone, Copy, Debug, PartialEq, Eq)]
pub struct Accepted {
    pub counts: Counts,
    pub length: usize,
}

// A refusal, and the place of the text that it names.
#[derive(Clone, Copy, Debug, PartialEq, Eq)]
pub struct Refused {
    pub refusal: Refusal,
    pub place: usize,
}

impl Refused {
    // The refusals whose place is the start of the text: 1, 2, 3, 5 and 12.
    pub fn at_start(refusal: Refusal) -> Refused
        ensures { result ≡ record { refusal = refusal; place = 0 } }
    {
        Refused { refusal, place: 0 }
    }
}

// The answer of a call.
pub type Answer = Result<Accepted, Refused>;

#[derive(Clone, Copy)]
pub enum NominalKind {
    Class,
    Struct,
    Enum,
    Protocol,
    TypeAlias,
}

// The depth and the index of a generic parameter.
#[derive(Clone, Copy)]
pub struct Param {
    pub depth: usize,
    pub index: usize,
}

// The operators and their operands. A number that represents a name is its index among the fixed
// names.

// A node that is pushed as it is.
#[derive(Clone, Copy)]
pub enum Leaf {
    Module(usize),
    StandardNominal(NominalKind, usize),
    GenericParam(Param),
    EmptyList,
    FirstElementMarker,
    VariadicMarker,
    Throws,
    Async,
}

// What a requirement constrains: a parameter, a type on the stack, a member type of a parameter.
#[derive(Clone, Copy)]
pub enum Subject {
    OfParam(Param),
    OfStack,
    OfMember(Param),
}

// The kind of constraint. For a layout, whether its letter is valid: this is judged after the
// stack.
#[derive(Clone, Copy)]
pub enum Constraint {
    Conforms,
    Superclass,
    SameType,
    Layout(bool),
}

// The letter of `v`: the variable itself, an accessor, or a letter that is refused after the stack.
// Kept: an operand has three meanings here; as a `Result<Option<usize>, Refusal>` it would be read
// as a step that failed, but such an operator is performed.
#[derive(Clone, Copy)]
pub enum Accessor {
    Itself,
    Named(usize),
    Broken,
}

// The subject of a record.
#[derive(Clone, Copy)]
pub enum About {
    Type,
    Entity,
    Context,
    Protocol,
    Conformance,
    Anything,
}

// One operator other than `A`, whose letters are read and performed one by one.
#[derive(Clone, Copy)]
pub enum Operator {
    Nominal(NominalKind),
    Leaf(Leaf),
    // `S`: the number of copies, and the leaf.
    Standard(usize, Leaf),
    Optional(usize),
    Tuple,
    FunctionType,
    ProtocolList,
    BoundGeneric,
    InOut,
    Metatype,
    Archetype(Param),
    Requirement(Subject, Constraint),
    GenericSignature(usize),
    PlainFunction,
    Variable(Accessor),
    Initializer(bool),
    Deinitializer(bool),
    VariableInitializer,
    Static,
    Record(About, usize),
    // `TY`: the record that has a number in its text.
    SuspendResume(usize),
    LazyWitness(usize),
    ValueWitness(usize),
    ProtocolWitness,
    AssociatedType,
    AssociatedConformance,
}
