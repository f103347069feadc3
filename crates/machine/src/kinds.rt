// Kinds, and the groups that operators ask for.
ghost use Rattle.std.specs.Prelude.{◌≡◌};
ghost use Rattle.definition.specs.Enums as Enums;
ghost use Rattle.definition.specs.Kind as K;
ghost use Rattle.definition.specs.Node as Node;
ghost use Rattle.machine.specs.Kinds.{kind_of};
ghost use Rattle.machine.specs.Wanted.{want_of};

use definition::NominalKind;

// The kinds of nodes. `kind as u32` is the number of a kind, which workspaces and output slices
// hold.
#[derive(Clone, Copy, PartialEq, Eq)]
pub enum Kind {
    Identifier,
    Module,
    Class,
    Struct,
    Enum,
    Protocol,
    TypeAlias,
    GenericParam,
    DependentMember,
    Tuple,
    FunctionType,
    GenericType,
    GenericSignature,
    ConformanceRequirement,
    SameTypeRequirement,
    ProtocolList,
    Metatype,
    InOut,
    BoundGeneric,
    Function,
    Variable,
    Accessor,
    Initializer,
    Deinitializer,
    VariableInitializer,
    Static,
    Record,
    Conformance,
    ProtocolWitness,
    ValueWitness,
    EmptyList,
    FirstElementMarker,
    VariadicMarker,
    Throws,
    Async,
}

impl Kind {
    // Returns the number of a kind.
    pub fn code(self) -> u32
        ensures { result ≡ kind_of self }
    {
        self as u32
    }
}

impl From<NominalKind> for Kind {
    ghost from_gives = { λ k kind. kind_of kind ≡ Node.nominal_kind (Enums.nominal_kind k) };

    #[tactic(auto, unfolding(definition::specs::Node::nominal_kind, definition::specs::Enums::nominal_kind))]
    fn from(k: NominalKind) -> Kind {
        match k {
            NominalKind::Class => Kind::Class,
            NominalKind::Struct => Kind::Struct,
            NominalKind::Enum => Kind::Enum,
            NominalKind::Protocol => Kind::Protocol,
            NominalKind::TypeAlias => Kind::TypeAlias,
        }
    }
}

// The kinds that can be wanted on top of the stack.
#[derive(Clone, Copy)]
pub enum Want {
    Anything,
    Type,
    Entity,
    Protocol,
    Requirement,
    Identifier,
    Kind(Kind),
}

// Kept: the functions below take the number of a kind, since workspaces are numbers by the C
// interface and may hold any.

pub fn is_entity(kind: u32) -> bool
    ensures { result ≡ K.is_entity kind }
{
    (Kind::Function as u32..=Kind::Static as u32).contains(&kind)
}

pub fn is_context(kind: u32) -> bool
    ensures { result ≡ K.is_context kind }
{
    (Kind::Module as u32..=Kind::TypeAlias as u32).contains(&kind) || is_entity(kind)
}

pub fn is_type(kind: u32) -> bool
    ensures { result ≡ K.is_type kind }
{
    (Kind::Class as u32..=Kind::GenericType as u32).contains(&kind)
        || (Kind::ProtocolList as u32..=Kind::BoundGeneric as u32).contains(&kind)
}

pub fn is_requirement(kind: u32) -> bool
    ensures { result ≡ K.is_requirement kind }
{
    kind == Kind::ConformanceRequirement as u32 || kind == Kind::SameTypeRequirement as u32
}

// Whether a kind is one that is wanted.
pub fn wanted(want: Want, kind: u32) -> bool
    ensures { result ≡ want_of want kind }
{
    match want {
        Want::Anything => true,
        Want::Type => is_type(kind),
        Want::Entity => is_entity(kind),
        Want::Protocol => kind == Kind::Protocol as u32,
        Want::Requirement => is_requirement(kind),
        Want::Identifier => kind == Kind::Identifier as u32,
        Want::Kind(k) => kind == k as u32,
    }
}
