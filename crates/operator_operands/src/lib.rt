// What follows the first letter of an operator.
#![tactic(auto, unfolding(definition::specs::Operators::opened, definition::specs::Enums::number, definition::specs::Enums::operator, definition::specs::Enums::leaf, definition::specs::Enums::nominal_kind, operator_names::specs::Fixed::fixed, operator_names::specs::Fixed::fixed_names))]

// What follows `r`.
pub mod signatures;
// What follows `S`.
pub mod standard_types;
