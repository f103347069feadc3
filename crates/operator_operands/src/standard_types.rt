// `S`: standard types and modules.
ghost use Rattle.std.specs.Prelude.{◌≡◌, ◌==◌, position};
ghost use Rattle.definition.specs.Base.{pick};
ghost use Rattle.definition.specs.Operators as Op;
ghost use Rattle.operator_operands.specs.Standard.{entry, repeated};
ghost use Rattle.operator_operands.specs.OperatorReads.{ReadsOperator};

use definition::{Leaf, NominalKind, Operator, Refusal};
use machine::budget::Budget;
use operator_names::Name;
use text_cursor::Reader;

// The standard types: how many there are, their letters, their kinds and their names. What stands at
// one place belongs to one type.
const STANDARD_TYPES: usize = 48;

static STANDARD_LETTERS: [u8; STANDARD_TYPES] =
    *b"aAbDdfhIiJNnOPpRrSsuVvWwqBEeFGHjKkLlMmQTtUXxYyZz";

static STANDARD_KINDS: [NominalKind; STANDARD_TYPES] = [
    NominalKind::Struct,
    NominalKind::Struct,
    NominalKind::Struct,
    NominalKind::Struct,
    NominalKind::Struct,
    NominalKind::Struct,
    NominalKind::Struct,
    NominalKind::Struct,
    NominalKind::Struct,
    NominalKind::Struct,
    NominalKind::Struct,
    NominalKind::Struct,
    NominalKind::Struct,
    NominalKind::Struct,
    NominalKind::Struct,
    NominalKind::Struct,
    NominalKind::Struct,
    NominalKind::Struct,
    NominalKind::Struct,
    NominalKind::Struct,
    NominalKind::Struct,
    NominalKind::Struct,
    NominalKind::Struct,
    NominalKind::Struct,
    NominalKind::Enum,
    NominalKind::Protocol,
    NominalKind::Protocol,
    NominalKind::Protocol,
    NominalKind::Protocol,
    NominalKind::Protocol,
    NominalKind::Protocol,
    NominalKind::Protocol,
    NominalKind::Protocol,
    NominalKind::Protocol,
    NominalKind::Protocol,
    NominalKind::Protocol,
    NominalKind::Protocol,
    NominalKind::Protocol,
    NominalKind::Protocol,
    NominalKind::Protocol,
    NominalKind::Protocol,
    NominalKind::Protocol,
    NominalKind::Protocol,
    NominalKind::Protocol,
    NominalKind::Protocol,
    NominalKind::Protocol,
    NominalKind::Protocol,
    NominalKind::Protocol,
];

static STANDARD_NAMES: [Name; STANDARD_TYPES] = [
    Name::Array,
    Name::AutoreleasingUnsafeMutablePointer,
    Name::Bool,
    Name::Dictionary,
    Name::Double,
    Name::Float,
    Name::Set,
    Name::DefaultIndices,
    Name::Int,
    Name::Character,
    Name::ClosedRange,
    Name::Range,
    Name::ObjectIdentifier,
    Name::UnsafePointer,
    Name::UnsafeMutablePointer,
    Name::UnsafeBufferPointer,
    Name::UnsafeMutableBufferPointer,
    Name::String,
    Name::Substring,
    Name::UInt,
    Name::UnsafeRawPointer,
    Name::UnsafeMutableRawPointer,
    Name::UnsafeRawBufferPointer,
    Name::UnsafeMutableRawBufferPointer,
    Name::Optional,
    Name::BinaryFloatingPoint,
    Name::Encodable,
    Name::Decodable,
    Name::FloatingPoint,
    Name::RandomNumberGenerator,
    Name::Hashable,
    Name::Numeric,
    Name::BidirectionalCollection,
    Name::RandomAccessCollection,
    Name::Comparable,
    Name::Collection,
    Name::MutableCollection,
    Name::RangeReplaceableCollection,
    Name::Equatable,
    Name::Sequence,
    Name::IteratorProtocol,
    Name::UnsignedInteger,
    Name::RangeExpression,
    Name::Strideable,
    Name::RawRepresentable,
    Name::StringProtocol,
    Name::SignedInteger,
    Name::BinaryInteger,
];

// Returns the place of a letter among letters.
fn place_of(letters: &[u8], b: u8) -> Option<usize>
    ensures { result ≡ position (λ x. x == b) letters.now }
{
    letters.iter().position(|x| *x == b)
}

// The standard type of a letter: its kind, and the number of its name.
fn standard_type(b: u8) -> Option<(NominalKind, usize)>
    ensures { entry result ≡ pick b Op.standard_types }
{
    let i = place_of(&STANDARD_LETTERS, b)?;
    Some((STANDARD_KINDS[i], STANDARD_NAMES[i] as usize))
}

// Checks the count and reads the letter after it.
fn repeated(text: &mut Reader, repeat: usize) -> Result<Operator, Refusal>
    ensures { ReadsOperator (repeated repeat) text.old text.new result }
{
    if repeat == 0 || Budget::MOST_STEPS < repeat {
        return Err(Refusal::Spelling);
    }
    match text.next()? {
        b'g' => Ok(Operator::Optional(repeat)),
        b'o' => Ok(Operator::Standard(repeat, Leaf::Module(Name::C as usize))),
        b'C' => Ok(Operator::Standard(repeat, Leaf::Module(Name::CSynthesized as usize))),
        b => {
            let (kind, name) = standard_type(b).ok_or(Refusal::Spelling)?;
            Ok(Operator::Standard(repeat, Leaf::StandardNominal(kind, name)))
        }
    }
}

// Reads what follows `S`: a count, or none for one copy, and a letter.
pub fn standard(text: &mut Reader) -> Result<Operator, Refusal>
    ensures { ReadsOperator Op.standard_letters text.old text.new result }
{
    if !text.peek_is_digit() {
        return repeated(text, 1);
    }
    let repeat = text.natural()?;
    repeated(text, repeat)
}
