ghost use Rattle.std.specs.Prelude.{◌≡◌, map, IfOk, IsTrue, All};
ghost use Rattle.charge_model.specs.Rules.{IsChargeList};
ghost use Rattle.charge_model.specs.GroundList.{lists_of};
ghost use Rattle.ground_entries.specs.Seen.{seen};

use certificate_check::{check, check_within};
use certificate_model::{CertRefusal, CloseWhy, EntryWhy, Token};
use charge_model::{Deciding, Mark};
use charge_state::{Charges, read_charges};
use ground_entries::{Entry, list_of};
use potential_problem::Problem;
use potential_table::read_table;
use sidb_units::{MAX_ENTRIES, Memory};
use std::alloc::Global;
use token_sinks::{Certificate, TokenSink, Tokens};
use window_model::Window;

/// Two neighbours along a row: one of them negative, whichever.
pub const TWO: &str = "sidb-table 1\nsites 2\nbase 3\nmu -320000000000 -910000000000\n\
     class 620124254312 620124254313\npair 0 1 0\nend\n";

/// Two sites with a wide span: no list is certainly valid.
pub const WIDE: &str =
    "sidb-table 1\nsites 2\nbase 3\nmu -2 -590000000002\nclass 1 3\npair 0 1 0\nend\n";

/// Four sites with two lists that are certainly valid, one higher by 10^-12 V than the other.
pub const FOUR: &str = "sidb-table 1\nsites 4\nbase 3\nmu -50 -1000\n\
     class 100 100\nclass 12 12\nclass 10 10\nclass 11 11\n\
     pair 0 1 0\npair 0 2 1\npair 0 3 2\npair 1 2 3\npair 1 3 1\npair 2 3 0\nend\n";

/// The same with a wide span, so that either may be the lower one.
pub const EITHER: &str = "sidb-table 1\nsites 4\nbase 3\nmu -50 -1000\n\
     class 100 100\nclass 12 12\nclass 9 11\nclass 10 10\n\
     pair 0 1 0\npair 0 2 1\npair 0 3 2\npair 1 2 3\npair 1 3 1\npair 2 3 0\nend\n";

/// The tokens of two neighbours, worked by hand.
pub const TOKENS: [Token; 10] = [
    Token::Node,
    Token::Node,
    Token::Site(0),
    Token::Listed(0),
    Token::Site(1),
    Token::Node,
    Token::Listed(1),
    Token::Site(0),
    Token::Site(0),
    Token::Site(0),
];

/// The tokens of the four sites within a window of 1, worked by hand.
pub const WINDOW_TOKENS: [Token; 22] = [
    Token::Node,
    Token::Node,
    Token::Site(0),
    Token::Node,
    Token::Energy(0),
    Token::Node,
    Token::Listed(0),
    Token::Site(2),
    Token::Site(2),
    Token::Site(2),
    Token::Site(1),
    Token::Node,
    Token::Node,
    Token::Node,
    Token::Site(2),
    Token::Listed(1),
    Token::Site(3),
    Token::Energy(0),
    Token::Site(2),
    Token::Site(0),
    Token::Site(0),
    Token::Site(0),
];

/// An entry as a row writes it.
#[derive(Clone, Copy)]
pub struct Line {
    pub charges: &'static str,
    pub mark: Mark,
}

/// A certain entry.
pub fn certain(charges: &'static str) -> Line {
    Line {
        charges,
        mark: Mark::Certain,
    }
}

/// An unresolved entry.
pub fn unresolved(charges: &'static str, deciding: Deciding) -> Line {
    Line {
        charges,
        mark: Mark::Unresolved(deciding),
    }
}

/// Whether a list has a charge for each site, in base 3.
#[tactic(auto, using(crate::proofs::Lists::of_three))]
fn is_list(problem: &Problem, charges: &Charges) -> bool
    ensures { IsTrue result → IsChargeList problem.now charges.now }
{
    problem.base() == 3 && charges.len() == problem.sites()
}

/// Adds an entry.
fn add_entry(
    problem: &Problem,
    entries: &mut Vec<Entry>,
    charges: &Charges,
    mark: Mark,
) -> Result<(), Memory>
    requires { All (IsChargeList problem.now) (lists_of (map seen entries.old.items)) }
    ensures { All (IsChargeList problem.now) (lists_of (map seen entries.new.items)) }
{
    if is_list(problem, charges) {
        entries.push(Entry {
            charges: charges.copy(),
            mark,
        })?;
    }
    Ok(())
}

/// The entries of these lines.
pub fn listed(alloc: Global, problem: &Problem, lines: &[Line]) -> Result<Vec<Entry>, Memory>
    ensures { IfOk result (λ v. All (IsChargeList problem.now) (lists_of (map seen v.items))) }
{
    let mut entries = Vec::new(alloc);
    for line in lines {
        if let Ok(charges) = read_charges(line.charges.as_bytes()) {
            add_entry(problem, &mut entries, &charges, line.mark)?;
        }
    }
    Ok(entries)
}

/// These tokens.
pub fn given(alloc: Global, tokens: &[Token]) -> Result<Tokens, Memory> {
    let mut all = Tokens::new(alloc)?;
    for token in tokens {
        if all.len() < 100 && all.token(*token).is_err() {
            return Err(Memory);
        }
    }
    Ok(all)
}

/// What a certificate within a window is answered.
pub fn answer(
    alloc: Global,
    table: &str,
    window: Window,
    lines: &[Line],
    tokens: &[Token],
) -> Result<Result<(), CertRefusal>, Memory> {
    let Ok(problem) = read_table(alloc, table.as_bytes()) else {
        return Err(Memory);
    };
    answer_on(alloc, &problem, window, lines, tokens)
}

/// The same of a problem.
fn answer_on(
    alloc: Global,
    problem: &Problem,
    window: Window,
    lines: &[Line],
    tokens: &[Token],
) -> Result<Result<(), CertRefusal>, Memory> {
    let entries = listed(alloc, problem, lines)?;
    if entries.len() > MAX_ENTRIES {
        return Err(Memory);
    }
    let list = list_of(entries);
    let tokens = given(alloc, tokens)?;
    match check_within(alloc, problem, window, &list, &tokens) {
        Ok(same) => {
            if same.len() == list.len() {
                Ok(Ok(()))
            } else {
                Err(Memory)
            }
        }
        Err(refusal) => Ok(Err(refusal)),
    }
}

/// How many entries the top call finds in the certificate of two neighbours.
pub fn checked(alloc: Global) -> Result<Result<usize, CertRefusal>, Memory> {
    let Ok(problem) = read_table(alloc, TWO.as_bytes()) else {
        return Err(Memory);
    };
    let entries = listed(alloc, &problem, &[certain("-0"), certain("0-")])?;
    if entries.len() > MAX_ENTRIES {
        return Err(Memory);
    }
    let certificate = Certificate {
        problem,
        list: list_of(entries),
        tokens: given(alloc, &TOKENS)?,
    };
    match check(alloc, &certificate) {
        Ok(list) => Ok(Ok(list.len())),
        Err(refusal) => Ok(Err(refusal)),
    }
}

/// A refused token.
pub fn closed(k: u64, why: CloseWhy) -> Result<(), CertRefusal> {
    Err(CertRefusal::Close(k, why))
}

/// A refused entry.
pub fn refused(j: usize, why: EntryWhy) -> Result<(), CertRefusal> {
    Err(CertRefusal::Entry(j, why))
}
