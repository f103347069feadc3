// The form of a record, with its sugar, and the row of pieces that is printed for it.
#![tactic(auto)]

ghost use Rattle.std.specs.Prelude.{◌≡◌, ◌+◌, ◌*◌, ◌≤◌, length};
ghost use Rattle.definition.proofs.PrintEquations.{is_nominal};
ghost use Rattle.tree_records.specs.Lies.{at as field_of};
ghost use Rattle.print_names.specs.Naming.{Some, Alone, naming_of};
ghost use Rattle.print_labels.specs.RowTexts.{Prints, zero_or, record_form};
ghost use Rattle.print_forms.specs.Forms.{Standard, Sugars, FormIs, Rowed, sugar_number};

use machine::kinds::Kind;
use operator_names::Name;
use print_names::fields::{
    ARGUMENT_COUNT, BASE, CONTEXT, COUNT, DEALLOCATING, KIND, NAME, REQUIREMENT_COUNT, VARIABLE,
    WORDS,
};
use print_names::{Source, named_is};

// The sugar of a generic type.
#[derive(Clone, Copy)]
enum Sugar {
    Optional,
    Array,
    Dictionary,
}

// The form of a record is its kind, or one of these, which some kinds have besides: a deinitializer
// that deallocates, a signature with requirements, a protocol list with members, a type with sugar,
// and an accessor of a variable.
const DEALLOCATES: usize = 35;

const WITH_REQUIREMENTS: usize = 40;

const WITH_MEMBERS: usize = 41;

const OPTIONAL_SUGAR: usize = 42;

const ARRAY_SUGAR: usize = 43;

const DICTIONARY_SUGAR: usize = 44;

const OF_VARIABLE: usize = 45;

// A record of words has a form besides for each form of its words past 0. The last is that of a
// number.
const RECORDS: usize = 35;

const WORD_FORMS: usize = 4;

const NUMBERED: usize = 39;

// Whether a kind is one of the kinds of nominal types.
// Kept: a range of kinds, as `is_entity` of `machine`; what they share is `contains`.
fn is_nominal(kind: usize) -> bool
    ensures { result ≡ is_nominal kind }
{
    (Kind::Class as usize..=Kind::TypeAlias as usize).contains(&kind)
}

// Whether a base is the standard type of a name: a nominal type of that name in a module named
// Swift.
fn standard(from: &Source, place: usize, n: usize, name: &[u8]) -> bool
    requires inside { 8 * place + 8 ≤ length from.now.ws.now }
    requires some { Some (Prints (naming_of from.now) from.now.ws.now place) }
    requires alone { Alone n name.now }
    ensures { Standard (naming_of from.now) from.now.ws.now place name.now result }
{
    let kind = from.field(place, KIND);
    if !is_nominal(kind) {
        return false;
    }
    let own = from.field(place, NAME);
    if !named_is(from, own, n, name) {
        return false;
    }
    let context = from.field(place, CONTEXT);
    let outer = from.field(context, KIND);
    if outer != Kind::Module as usize {
        return false;
    }
    let module = from.field(context, NAME);
    named_is(from, module, Name::Swift as usize, b"Swift")
}

// The sugar of a generic type, if it has any.
fn sugar_of(from: &Source, place: usize) -> Option<Sugar>
    requires inside { 8 * place + 8 ≤ length from.now.ws.now }
    requires some { Some (Prints (naming_of from.now) from.now.ws.now place) }
    requires bound { field_of from.now.ws.now place 0 ≡ 18 }
    ensures { Sugars (naming_of from.now) from.now.ws.now place (sugar_number result) }
{
    let base = from.field(place, BASE);
    let count = from.field(place, ARGUMENT_COUNT);
    if count == 1 {
        if standard(from, base, Name::Optional as usize, b"Optional") {
            return Some(Sugar::Optional);
        }
        if standard(from, base, Name::Array as usize, b"Array") {
            return Some(Sugar::Array);
        }
        return None;
    }
    if count == 2 {
        if standard(from, base, Name::Dictionary as usize, b"Dictionary") {
            return Some(Sugar::Dictionary);
        }
        return None;
    }
    None
}

// Returns `zero` if n is 0, and `other` if it is not.
fn zero_or(n: usize, zero: usize, other: usize) -> usize
    ensures { result ≡ zero_or n zero other }
{
    if n == 0 {
        return zero;
    }
    other
}

// The form of a record of words: fixed, of a lazy witness, of an associated conformance, or with a
// number.
fn record_form(words: usize) -> usize
    ensures { result ≡ record_form words }
{
    if words == 0 {
        return Kind::Record as usize;
    }
    if words < WORD_FORMS {
        return RECORDS + words;
    }
    NUMBERED
}

// The form of a record that is printed.
fn form(from: &Source, place: usize) -> usize
    requires inside { 8 * place + 8 ≤ length from.now.ws.now }
    requires some { Some (Prints (naming_of from.now) from.now.ws.now place) }
    ensures { FormIs (naming_of from.now) from.now.ws.now place result }
{
    let kind = from.field(place, KIND);
    // Most records: their form is their kind.
    if kind < Kind::GenericSignature as usize {
        return kind;
    }
    if kind == Kind::GenericSignature as usize {
        let requirements = from.field(place, REQUIREMENT_COUNT);
        return zero_or(
            requirements,
            Kind::GenericSignature as usize,
            WITH_REQUIREMENTS,
        );
    }
    if kind == Kind::ProtocolList as usize {
        let members = from.field(place, COUNT);
        return zero_or(members, Kind::ProtocolList as usize, WITH_MEMBERS);
    }
    if kind == Kind::BoundGeneric as usize {
        return match sugar_of(from, place) {
            None => Kind::BoundGeneric as usize,
            Some(Sugar::Optional) => OPTIONAL_SUGAR,
            Some(Sugar::Array) => ARRAY_SUGAR,
            Some(Sugar::Dictionary) => DICTIONARY_SUGAR,
        };
    }
    if kind == Kind::Accessor as usize {
        let variable = from.field(place, VARIABLE);
        let below = from.field(variable, KIND);
        if below == Kind::Variable as usize {
            return OF_VARIABLE;
        }
        return Kind::Accessor as usize;
    }
    if kind == Kind::Deinitializer as usize {
        let deallocating = from.field(place, DEALLOCATING);
        return zero_or(deallocating, Kind::Deinitializer as usize, DEALLOCATES);
    }
    if kind == Kind::Record as usize {
        let words = from.field(place, WORDS);
        return record_form(words);
    }
    kind
}

// The rows by form. Each two hexadecimal digits are the code of a piece; the last two digits are
// the first piece. 0b to 0f: a name. 13 to 17: a child. 18 to 29: see specs/RowTexts.antt of
// `print_labels`. 40 and above: a fixed text. 80 and above: a piece of the record in field 4.
static ROWS: [usize; 46] = [
    // Identifier
    0xb,
    // Module
    0xb,
    // Nominal, of five kinds
    0xb4014,
    0xb4014,
    0xb4014,
    0xb4014,
    0xb4014,
    // GenericParam
    0x1a,
    // DependentMember
    0xb4014,
    // Tuple
    0x472046,
    // FunctionType
    0x145a1829,
    // GenericType
    0x1413,
    // GenericSignature with no requirements
    0x491948,
    // ConformanceRequirement
    0x144113,
    // SameTypeRequirement
    0x144313,
    // ProtocolList with no members
    0x59,
    // Metatype
    0x4e13,
    // InOut
    0x134f,
    // BoundGeneric without sugar
    0x49244813,
    // Function
    0x280b4014,
    // Variable
    0x15420b4014,
    // Accessor of no variable
    0xb4014,
    // Initializer
    0x281b4014,
    // Deinitializer
    0x604014,
    // VariableInitializer
    0x1350,
    // Static
    0x1351,
    // Record with fixed words
    0x140d,
    // Conformance
    0x1552144213,
    // ProtocolWitness
    0x14541353,
    // ValueWitness
    0x14550b,
    // EmptyList
    0x58,
    // the four markers
    0,
    0,
    0,
    0,
    // Deinitializer that deallocates
    0x5f4014,
    // LazyWitness
    0x1656150c,
    // AssociatedConformance with no qualifier
    0x17410c401557,
    // Record with a number in its words
    0x141c,
    // AssociatedConformance with a qualifier
    0x17410c4023401557,
    // GenericSignature with requirements
    0x49224d1948,
    // ProtocolList with members
    0x21,
    // Optional
    0x4c24,
    // Array
    0x4b244a,
    // Dictionary
    0x4b254a,
    // Accessor of a variable
    0x95420b408b4094,
];

// The row of a record.
pub fn row_of(from: &Source, place: usize) -> usize
    requires inside { 8 * place + 8 ≤ length from.now.ws.now }
    requires some { Some (Prints (naming_of from.now) from.now.ws.now place) }
    ensures { Rowed (naming_of from.now) from.now.ws.now place result }
{
    let f = form(from, place);
    ROWS[f]
}
