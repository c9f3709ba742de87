//! What schedules are evaluated by beside their problem.
ghost use Rattle.std.specs.Prelude.{◌≡◌, false, IfErr, IfOk, option_map};
ghost use Rattle.tf_options.specs.Matched.{IsToldInstead, given_of};
ghost use Rattle.tf_options.specs.Understood.{AreAidsBy, IsOrderBy, aids_fault, input_fault};
ghost use Rattle.tf_options.specs.Understood.{is_standard_input, rating_fault};

use crate::options::steps_in;
use crate::wrong::Wrong;
use clap::ArgMatches;
use tf_asked::aids::Aids;
use tf_asked::options::OrderSource;

// The fault of a text of orders or pieces that is standard input, where the instance is that too.
fn input_fault(orders: &OrderSource<'_>) -> Option<&'static str>
    ensures { option_map (λ fault. fault.now) result ≡ input_fault orders.now }
{
    match orders {
        OrderSource::Named { name, .. } if *name == "-" => {
            Some("INPUT and --orders cannot both be standard input")
        }
        OrderSource::Drawn(name, _) if *name == "-" => {
            Some("INPUT and --schedule cannot both be standard input")
        }
        _ => None,
    }
}

/// Whether the text that is named so is standard input.
pub(crate) fn is_standard_input(given: &ArgMatches<'_>, name: &str) -> bool
    ensures { result ≡ is_standard_input (given_of given.now) name.now }
{
    match given.get_str(name) {
        Some(word) => word == "-",
        None => false,
    }
}

/// The text of a bound and the steps of the search for prices, where they are given. The instance
/// and the answer cannot be standard input beside the text.
pub(crate) fn aids_in<'a>(given: &ArgMatches<'a>) -> Result<Aids<'a>, Wrong>
    ensures given { IfOk result (AreAidsBy (given_of given.now)) }
    ensures fault { IfErr result (IsToldInstead false (aids_fault (given_of given.now))) }
{
    if is_standard_input(given, "bound")
        && (is_standard_input(given, "ANSWER") || is_standard_input(given, "INPUT"))
    {
        return Err(Wrong::Unfit("--bound and INPUT or ANSWER cannot both be standard input"));
    }
    Ok(Aids {
        bound: given.get_str("bound"),
        steps: steps_in(given)?,
    })
}

/// The same beside orders or pieces. Of the texts of the instance, of these and of the bound one at
/// most can be standard input.
pub(crate) fn rating_aids_in<'a>(
    given: &ArgMatches<'a>,
    orders: &OrderSource<'_>,
) -> Result<Aids<'a>, Wrong>
    requires { IsOrderBy (given_of given.now) orders.now }
    ensures given { IfOk result (AreAidsBy (given_of given.now)) }
    ensures fault { IfErr result (IsToldInstead false (rating_fault (given_of given.now))) }
{
    let is_input = is_standard_input(given, "INPUT");
    let fault = input_fault(orders);
    if is_input && let Some(fault) = fault {
        return Err(Wrong::Unfit(fault));
    }
    if is_standard_input(given, "bound") && (is_input || fault.is_some()) {
        return Err(Wrong::Unfit("--bound and another text cannot both be standard input"));
    }
    Ok(Aids {
        bound: given.get_str("bound"),
        steps: steps_in(given)?,
    })
}
