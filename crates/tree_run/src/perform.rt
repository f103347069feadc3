// The effect of one operator on the records, given by its letters: every operator except `A`.
ghost use Rattle.definition.specs.Enums as Enums;
ghost use Rattle.definition.specs.Perform as R;
ghost use Rattle.definition.specs.declared.Operator.TheVariants as Operators;
ghost use Rattle.tree_records.specs.Trees.{Stays, Has};
ghost use Rattle.tree_nodes.specs.Gives.{full_spare};
ghost use Rattle.tree_nodes.specs.Trees.{Operates};

use definition::{Operator, Refusal};
use tree_records::Trees;

// Pushes a function type.
fn function_type(trees: &mut Trees) -> Result<(), Refusal>
    requires { Has trees.old full_spare }
    ensures stays { Stays trees.old trees.new }
    ensures operates { Operates (λ fixed. R.perform trees.old.n (Enums.operator fixed Operators.FunctionType)) trees.old trees.new result }
{
    let place = tree_nodes::build::function_type(trees)?;
    trees.push(place);
    Ok(())
}

// Performs one operator other than `A`.
pub fn perform(trees: &mut Trees, op: Operator) -> Result<(), Refusal>
    requires { Has trees.old full_spare }
    ensures stays { Stays trees.old trees.new }
    ensures operates { Operates (λ fixed. R.perform trees.old.n (Enums.operator fixed op)) trees.old trees.new result }
{
    match op {
        Operator::Nominal(kind) => tree_types::nominal(trees, kind),
        Operator::Leaf(l) => {
            tree_copies::push_leaf(trees, l);
            Ok(())
        }
        Operator::Standard(repeat, l) => tree_copies::standard(trees, repeat, l),
        Operator::Optional(repeat) => tree_copies::optional(trees, repeat),
        Operator::Tuple => tree_types::tuple(trees),
        Operator::FunctionType => function_type(trees),
        Operator::ProtocolList => tree_types::protocol_list(trees),
        Operator::BoundGeneric => tree_types::bound_generic(trees),
        Operator::InOut => tree_wrappers::in_out(trees),
        Operator::Metatype => tree_wrappers::metatype(trees),
        Operator::Archetype(p) => tree_types::archetype(trees, p),
        Operator::Requirement(on, constraint) => {
            tree_requirements::requirement(trees, on, constraint)
        }
        Operator::GenericSignature(params) => tree_types::generic_signature(trees, params),
        Operator::PlainFunction => tree_entities::plain_function(trees),
        Operator::Variable(accessor) => tree_entities::variable(trees, accessor),
        Operator::Initializer(allocating) => tree_entities::initializer(trees, allocating),
        Operator::Deinitializer(deallocating) => tree_entities::deinitializer(trees, deallocating),
        Operator::VariableInitializer => tree_wrappers::variable_initializer(trees),
        Operator::Static => tree_wrappers::static_member(trees),
        Operator::Record(about, name) => tree_witnesses::record_of(trees, about, name),
        Operator::SuspendResume(i) => tree_witnesses::suspend_resume(trees, i),
        Operator::LazyWitness(name) => tree_witnesses::lazy_witness(trees, name),
        Operator::ValueWitness(name) => tree_entities::value_witness(trees, name),
        Operator::ProtocolWitness => tree_witnesses::protocol_witness(trees),
        Operator::AssociatedType => tree_witnesses::associated_type(trees),
        Operator::AssociatedConformance => tree_witnesses::associated_conformance(trees),
    }
}
