// What a row of the shape check takes from the stack.
#![tactic(auto)]

// Lists of entries.
pub mod lists;
// What is summed up of the entries that were taken.
pub mod sums;

ghost use Rattle.check_entries.specs.Means.{take_of};
ghost use Rattle.check_takes.specs.Takes.{grows, Ready, Takes};

use crate::lists::{Arguments, Elements, Members, Requirements, gather, labels};
use crate::sums::Taken;
use check_entries::{Entries, Take};
use definition::Refusal;
use machine::kinds::{Kind, Want};

// Performs one take of a row, and returns all that was taken.
pub fn take_one(entries: &mut Entries, taken: Taken, take: Take) -> Result<Taken, Refusal>
    requires { Ready (grows (take_of take)) entries.old taken }
    ensures { Takes (take_of take) entries.old taken entries.new result }
{
    match take {
        Take::Wraps => {
            entries.wrap()?;
            Ok(taken)
        }
        Take::Node(want) => Ok(taken.add(entries.pop_if(want)?)),
        Take::Name => {
            entries.pop_name()?;
            Ok(taken)
        }
        Take::Context => Ok(taken.add(entries.context()?)),
        Take::Protocol => Ok(taken.add(entries.protocol()?)),
        Take::Marker(kind) => {
            entries.took(Want::Kind(kind));
            Ok(taken)
        }
        Take::Qualifier => {
            entries.took(Want::Protocol);
            Ok(taken)
        }
        Take::Params => Ok(taken.add_params(entries.side()?)),
        Take::Result => Ok(taken.add(entries.side()?)),
        Take::LabelledType => Ok(taken.add_labelled(entries.pop_if(Want::Type)?)),
        Take::Labels => {
            if entries.took(Want::Kind(Kind::EmptyList)) {
                return Ok(taken);
            }
            labels(entries, taken.count)?;
            Ok(taken)
        }
        Take::Signature => match entries.try_take(Want::Kind(Kind::GenericSignature)) {
            Some(signature) => Ok(taken.sign(signature)),
            None => Ok(taken),
        },
        Take::UnderSignature => {
            if !taken.signed {
                return Ok(taken);
            }
            entries.wrap()?;
            Ok(taken)
        }
        Take::Elements => {
            if entries.took(Want::Kind(Kind::EmptyList)) {
                return Ok(taken);
            }
            gather::<Elements>(entries, taken)
        }
        Take::Members => {
            if entries.took(Want::Kind(Kind::EmptyList)) {
                return Ok(taken);
            }
            gather::<Members>(entries, taken)
        }
        Take::Arguments => gather::<Arguments>(entries, taken),
        Take::Requirements => gather::<Requirements>(entries, taken),
        Take::Refuses => Err(Refusal::Spelling),
        Take::PrintedAhead => Ok(taken.printed_ahead()),
    }
}
