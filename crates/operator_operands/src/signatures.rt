// `r`: the counts of a generic signature.
ghost use Rattle.operator_operands.specs.Counts.{signature_letters, count, ReadsCount};
ghost use Rattle.operator_operands.specs.OperatorReads.{ReadsOperator};

use definition::{Operator, Refusal};
use machine::budget::Budget;
use text_cursor::Reader;

// Reads the next count after `r`, or the `l` that ends the counts.
fn count(text: &mut Reader) -> Result<Option<usize>, Refusal>
    ensures { ReadsCount count text.old text.new result }
{
    if text.next_if(b'l') {
        return Ok(None);
    }
    if text.next_if(b'z') {
        return Ok(Some(0));
    }
    Ok(Some(text.index_plus_one()?))
}

// Reads what follows `r`: counts, and the `l` that ends them.
pub fn generic_signature(text: &mut Reader) -> Result<Operator, Refusal>
    ensures { ReadsOperator signature_letters text.old text.new result }
{
    let mut params = 0;
    for _ in 0..Budget::MOST_WRAPS {
        let Some(n) = count(text)? else {
            return Ok(Operator::GenericSignature(params));
        };
        params = n;
    }
    if text.next_if(b'l') {
        return Ok(Operator::GenericSignature(params));
    }
    Err(Refusal::Nesting)
}
