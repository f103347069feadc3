// The rules of the shape check as a table: what the row of each operator takes and leaves.
#![tactic(auto, unfolding(crate::specs::Table::opened))]

ghost use Rattle.std.specs.Prelude.{◌≡◌, true, false};
ghost use Rattle.machine.specs.Kinds.{kind_of};
ghost use Rattle.check_rows.specs.Table.{nominal, RowOf, LeafRow, AboutRow, RequirementRow, Requires};

use check_entries::Take;
use definition::{About, Accessor, Constraint, Leaf, NominalKind, Operator, Subject};
use machine::kinds::{Kind, Want};

// What an operator takes, and what it leaves: a node of a kind, with its own number of nodes,
// whether it has the count of what was taken, whether it is remembered, and how many copies of it
// are charged and pushed. `None`: it is pushed once and not charged.
//
// Kept: two flags, each a question of its own, as in the definition's `Leaves`. `counted` and
// `remembered` below set one each, since rows with `true, false` as arguments would say less.
#[derive(Clone, Copy)]
pub struct Row {
    pub takes: &'static [Take],
    pub kind: Kind,
    pub own: u32,
    pub counted: bool,
    pub remembered: bool,
    pub copies: Option<usize>,
}

impl Row {
    // Returns a row that leaves a node with no count, which is not remembered and is pushed once.
    fn plain(takes: &'static [Take], kind: Kind, own: u32) -> Self
        ensures { result ≡ record { takes = takes.entry; kind = kind; own = own; counted = false; remembered = false; copies = None } }
    {
        Row {
            takes,
            kind,
            own,
            counted: false,
            remembered: false,
            copies: None,
        }
    }

    // Returns such a row whose node has the count of what was taken.
    fn counted(takes: &'static [Take], kind: Kind, own: u32) -> Self
        ensures { result ≡ record { takes = takes.entry; kind = kind; own = own; counted = true; remembered = false; copies = None } }
    {
        Row {
            counted: true,
            ..Row::plain(takes, kind, own)
        }
    }

    // Returns such a row whose node is remembered.
    fn remembered(takes: &'static [Take], kind: Kind, own: u32) -> Self
        ensures { result ≡ record { takes = takes.entry; kind = kind; own = own; counted = false; remembered = true; copies = None } }
    {
        Row {
            remembered: true,
            ..Row::plain(takes, kind, own)
        }
    }
}

const TYPE: Take = Take::Node(Want::Type);

const ENTITY: Take = Take::Node(Want::Entity);

// Returns what a requirement takes: its subject, and what its subject is required to be.
fn requirement_takes(s: Subject, c: Constraint) -> &'static [Take]
    ensures { Requires s c result.now }
{
    match (s, c) {
        (Subject::OfParam(_), Constraint::Conforms) => &[Take::Protocol],
        (Subject::OfParam(_), Constraint::Superclass | Constraint::SameType) => &[TYPE],
        (Subject::OfParam(_), Constraint::Layout(true)) => &[],
        (Subject::OfParam(_), Constraint::Layout(false)) => &[Take::Refuses],
        (Subject::OfStack, Constraint::Conforms) => &[TYPE, Take::Protocol],
        (Subject::OfStack, Constraint::Superclass | Constraint::SameType) => &[TYPE, TYPE],
        (Subject::OfStack, Constraint::Layout(true)) => &[TYPE],
        (Subject::OfStack, Constraint::Layout(false)) => &[TYPE, Take::Refuses],
        (Subject::OfMember(_), Constraint::Conforms) => {
            &[Take::Qualifier, Take::Name, Take::Protocol]
        }
        (Subject::OfMember(_), Constraint::Superclass | Constraint::SameType) => {
            &[Take::Qualifier, Take::Name, TYPE]
        }
        (Subject::OfMember(_), Constraint::Layout(true)) => &[Take::Qualifier, Take::Name],
        (Subject::OfMember(_), Constraint::Layout(false)) => {
            &[Take::Qualifier, Take::Name, Take::Refuses]
        }
    }
}

fn requirement_row(s: Subject, c: Constraint) -> Row
    ensures { RequirementRow s c result }
{
    let own = match s {
        Subject::OfParam(_) => 1,
        Subject::OfStack => 0,
        Subject::OfMember(_) => 2,
    };
    let (kind, nodes) = match c {
        Constraint::Conforms | Constraint::Superclass => (Kind::ConformanceRequirement, 1),
        Constraint::SameType => (Kind::SameTypeRequirement, 1),
        Constraint::Layout(_) => (Kind::ConformanceRequirement, 3),
    };
    Row::plain(requirement_takes(s, c), kind, nodes + own)
}

// Returns the row of a leaf, which takes nothing.
fn leaf_row(l: Leaf, copies: Option<usize>) -> Row
    ensures { LeafRow l copies result }
{
    let (kind, own) = match l {
        Leaf::Module(_) => (Kind::Module, 1),
        Leaf::StandardNominal(k, _) => (Kind::from(k), 2),
        Leaf::GenericParam(_) => (Kind::GenericParam, 1),
        Leaf::EmptyList => (Kind::EmptyList, 1),
        Leaf::FirstElementMarker => (Kind::FirstElementMarker, 1),
        Leaf::VariadicMarker => (Kind::VariadicMarker, 1),
        Leaf::Throws => (Kind::Throws, 1),
        Leaf::Async => (Kind::Async, 1),
    };
    Row {
        copies,
        ..Row::plain(&[], kind, own)
    }
}

fn variable_row(a: Accessor) -> Row
    ensures { RowOf (Operator.Variable a) result }
{
    match a {
        Accessor::Itself => Row::plain(
            &[
                TYPE,
                Take::Signature,
                Take::UnderSignature,
                Take::Marker(Kind::EmptyList),
                Take::Name,
                Take::Context,
            ],
            Kind::Variable,
            1,
        ),
        Accessor::Named(_) => Row::plain(
            &[
                TYPE,
                Take::Signature,
                Take::UnderSignature,
                Take::Marker(Kind::EmptyList),
                Take::Name,
                Take::Context,
            ],
            Kind::Accessor,
            2,
        ),
        Accessor::Broken => Row::plain(
            &[
                TYPE,
                Take::Signature,
                Take::UnderSignature,
                Take::Marker(Kind::EmptyList),
                Take::Name,
                Take::Context,
                Take::Refuses,
            ],
            Kind::Variable,
            1,
        ),
    }
}

fn record_row(a: About) -> Row
    ensures { AboutRow a result }
{
    match a {
        About::Type => Row::plain(&[TYPE], Kind::Record, 1),
        About::Entity => Row::plain(&[ENTITY], Kind::Record, 1),
        About::Context => Row::plain(&[Take::Context], Kind::Record, 1),
        About::Protocol => Row::plain(&[Take::Protocol], Kind::Record, 1),
        About::Conformance => Row::plain(&[Take::Context, Take::Protocol, TYPE], Kind::Record, 2),
        About::Anything => Row::plain(&[Take::Node(Want::Anything)], Kind::Record, 1),
    }
}

// Returns the row of an operator.
pub fn row_of(op: Operator) -> Row
    ensures { RowOf op result }
{
    match op {
        Operator::Nominal(k) => Row::remembered(&[Take::Name, Take::Context], Kind::from(k), 1),
        Operator::Leaf(l) => leaf_row(l, None),
        Operator::Standard(n, l) => leaf_row(l, Some(n)),
        Operator::Optional(n) => Row {
            copies: Some(n),
            ..Row::remembered(&[Take::Wraps, TYPE], Kind::BoundGeneric, 3)
        },
        Operator::Tuple => Row::counted(&[Take::Wraps, Take::Elements], Kind::Tuple, 1),
        Operator::FunctionType => Row::counted(
            &[
                Take::Wraps,
                Take::Marker(Kind::Throws),
                Take::Marker(Kind::Async),
                Take::Params,
                Take::Result,
            ],
            Kind::FunctionType,
            1,
        ),
        Operator::ProtocolList => {
            Row::counted(&[Take::Wraps, Take::Members], Kind::ProtocolList, 1)
        }
        Operator::BoundGeneric => {
            Row::remembered(&[Take::Wraps, Take::Arguments, TYPE], Kind::BoundGeneric, 1)
        }
        Operator::InOut => Row::plain(&[Take::Wraps, TYPE], Kind::InOut, 1),
        Operator::Metatype => Row::plain(&[Take::Wraps, TYPE], Kind::Metatype, 1),
        Operator::Archetype(_) => {
            Row::remembered(&[Take::Qualifier, Take::Name], Kind::DependentMember, 2)
        }
        Operator::Requirement(s, c) => requirement_row(s, c),
        Operator::GenericSignature(_) => {
            Row::plain(&[Take::Requirements], Kind::GenericSignature, 1)
        }
        Operator::PlainFunction => Row::plain(
            &[
                Take::Signature,
                Take::Wraps,
                Take::Marker(Kind::Throws),
                Take::Marker(Kind::Async),
                Take::Params,
                Take::Result,
                Take::UnderSignature,
                Take::Labels,
                Take::Name,
                Take::Context,
            ],
            Kind::Function,
            2,
        ),
        Operator::Variable(a) => variable_row(a),
        Operator::Initializer(_) => Row::plain(
            &[
                Take::Signature,
                Take::LabelledType,
                Take::UnderSignature,
                Take::Labels,
                Take::Context,
            ],
            Kind::Initializer,
            1,
        ),
        Operator::Deinitializer(_) => Row::plain(&[Take::Context], Kind::Deinitializer, 1),
        Operator::VariableInitializer => Row::plain(
            &[Take::Node(Want::Kind(Kind::Variable))],
            Kind::VariableInitializer,
            1,
        ),
        Operator::Static => Row::plain(&[ENTITY], Kind::Static, 1),
        Operator::Record(a, _) => record_row(a),
        Operator::SuspendResume(_) => record_row(About::Entity),
        Operator::LazyWitness(_) => Row::plain(
            &[
                Take::Context,
                Take::Protocol,
                TYPE,
                TYPE,
                Take::PrintedAhead,
            ],
            Kind::Record,
            2,
        ),
        Operator::ValueWitness(_) => Row::plain(&[TYPE], Kind::ValueWitness, 1),
        Operator::ProtocolWitness => Row::plain(
            &[ENTITY, Take::Context, Take::Protocol, TYPE],
            Kind::ProtocolWitness,
            2,
        ),
        Operator::AssociatedType => Row::plain(&[Take::Protocol, Take::Name], Kind::Record, 2),
        Operator::AssociatedConformance => Row::plain(
            &[
                Take::Protocol,
                Take::Marker(Kind::FirstElementMarker),
                Take::Qualifier,
                Take::Name,
                TYPE,
                Take::PrintedAhead,
            ],
            Kind::Record,
            2,
        ),
    }
}
