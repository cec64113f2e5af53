ghost use Rattle.std.specs.Prelude.{◌≡◌, ◌≤◌, ◌≤ℤ◌, pos, unsigned_abs, length, IfOk, All};
ghost use Rattle.charge_model.specs.Rules.{IsChargeList};
ghost use Rattle.charge_model.specs.GroundList.{lists_of};
ghost use Rattle.std.specs.List.{AllZip};
ghost use Rattle.occupation.specs.Rounding.{share_lo};
ghost use Rattle.occupation.specs.Sums.{AreFromOne, FromOne, IsShareBy};
ghost use Rattle.occupation.specs.Shares.{AreRoundedShares, EncloseShares, IsPartOfWhole};

use crate::energies::energies_of;
use crate::laws::{rounded_shares_are_parts, rounded_shares_enclose_the_intervals};
use crate::sums::{Factors, all_sums};
use crate::{MAX_KT, MIN_KT, ONE, WHOLE};
use ground_entries::GroundList;
use potential_problem::Problem;
use sidb_units::Memory;
use std::alloc::Global;

/// The share of an entry among the entries of a list, at least `lo` and at most `hi`, in 10^-9.
#[derive(Clone, Copy, PartialEq, Eq, Debug)]
pub struct Share {
    pub lo: i64,
    pub hi: i64,
}

/// The lower end of a share, by the upper sum.
fn lower_end(total: Option<u128>) -> u128
    requires { FromOne total }
    ensures value { result ≡ share_lo total }
    ensures within { result ≤ WHOLE }
{
    match total {
        None => 0,
        Some(total) => WHOLE * ONE / total,
    }
}

/// The share by both sums.
fn share_of(sums: Factors) -> Share
    requires lower { ONE ≤ sums.lower }
    requires upper { FromOne sums.upper }
    ensures { IsShareBy sums result }
{
    let most = (WHOLE * ONE).div_ceil(sums.lower);
    Share {
        lo: lower_end(sums.upper) as i64,
        hi: WHOLE.min(most) as i64,
    }
}

/// The shares by the sums of each entry, in order.
fn shares_of(alloc: Global, sums: &[Factors]) -> Result<Vec<Share>, Memory>
    requires { All AreFromOne sums.now }
    ensures { IfOk result (λ v. AllZip IsShareBy sums.now v.items) }
{
    let mut shares = Vec::with_capacity(alloc, sums.len())?;
    for sum in sums {
        shares.push(share_of(*sum))?;
    }
    Ok(shares)
}

/// The shares of the entries of a list among each other, in order, where kT is `kt`, in 10^-12 V
/// times the elementary charge.
pub fn occupation(
    alloc: Global,
    problem: &Problem,
    list: &GroundList,
    kt: i64,
) -> Result<Vec<Share>, Memory>
    requires entries { All (IsChargeList problem.now) (lists_of list.now) }
    requires least { MIN_KT ≤ℤ kt }
    requires greatest { kt ≤ℤ MAX_KT }
    ensures rule { IfOk result (λ shares.
        AreRoundedShares problem.now (unsigned_abs kt) (lists_of list.now) shares.items) }
    ensures encloses { IfOk result (λ shares.
        EncloseShares problem.now (unsigned_abs kt) (lists_of list.now) shares.items) }
    ensures parts { IfOk result (λ shares. All IsPartOfWhole shares.items) }
{
    rounded_shares_enclose_the_intervals();
    rounded_shares_are_parts();
    let _few = list.len();
    let energies = energies_of(alloc, problem, list)?;
    let sums = all_sums(alloc, problem, &energies, kt.unsigned_abs())?;
    let shares = shares_of(alloc, &sums)?;
    Ok(shares)
}
