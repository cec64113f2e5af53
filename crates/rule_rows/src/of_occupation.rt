ghost use Rattle.std.specs.Prelude.{◌≡◌, ◌≤ℤ◌, pos, [], ◌∷◌, IfOk};
ghost use Rattle.charge_model.specs.declared.charge.Charge.TheVariants.{Neg, Neutral};
ghost use Rattle.charge_model.specs.declared.TheConstants.{MAX_POTENTIAL};
ghost use Rattle.charge_model.specs.GroundList.{lists_of};

use charge_state::{Charge, Charges};
use fixed_enclosure::{Span, span_between};
use ground_entries::{Entry, GroundList, Mark, list_of};
use occupation::{MAX_KT, MIN_KT, Share, occupation};
use potential_problem::{Levels, Problem, problem_with};
use sidb_units::Memory;
use std::alloc::Global;
use std::test::Fail;

/// Two sites and the fixed charge 1, of which the first site has this potential and the second none.
fn beside_fixed(alloc: Global, near: Span) -> Result<Problem, Memory>
    requires least { pos 0 ≤ℤ near.lo }
    requires greatest { near.hi ≤ℤ MAX_POTENTIAL }
    ensures sites { IfOk result (λ p. p.sites ≡ 2) }
    ensures base { IfOk result (λ p. p.base ≡ 2) }
{
    let spans = [span_between(0, 0), near];
    let levels = Levels {
        base: 2,
        mu_minus: 0,
        mu_plus: 0,
    };
    problem_with(alloc, 2, &[0], &[1], &[1, 0], &spans, &levels)
}

/// An entry of two sites.
fn entry(first: Charge, second: Charge) -> Entry
    ensures { result.charges ≡ first ∷ second ∷ [] }
{
    let mut charges = Charges::empty();
    charges.push(first);
    charges.push(second);
    Entry {
        charges,
        mark: Mark::Certain,
    }
}

/// The lists of one electron.
fn one_electron(alloc: Global) -> Result<GroundList, Memory>
    ensures { IfOk result (λ list. lists_of list
        ≡ (Neg ∷ Neutral ∷ []) ∷ (Neutral ∷ Neg ∷ []) ∷ []) }
{
    let mut entries = Vec::new(alloc);
    entries.push(entry(Charge::Neg, Charge::Neutral))?;
    entries.push(entry(Charge::Neutral, Charge::Neg))?;
    Ok(list_of(entries))
}

/// The shares of two entries of the same energy, and of two whose energies are one unit apart.
#[test]
fn two_entries(rt: HostRuntime) -> Result<(), Fail> {
    let list = one_electron(rt.alloc())?;
    let equal = beside_fixed(rt.alloc(), span_between(0, 0))?;
    let shares = occupation(rt.alloc(), &equal, &list, MAX_KT)?;
    assert_eq!(rt;
        shares.as_slice(),
        [
            share(500_000_000, 500_000_000),
            share(500_000_000, 500_000_000)
        ]
        .as_slice()
    );
    let apart = beside_fixed(rt.alloc(), span_between(1, 1))?;
    let shares = occupation(rt.alloc(), &apart, &list, MIN_KT)?;
    assert_eq!(rt;
        shares.as_slice(),
        [
            share(500_000_000, 500_000_001),
            share(499_999_999, 500_000_000)
        ]
        .as_slice()
    );
    Ok(())
}

/// The share from `lo` to `hi`.
fn share(lo: i64, hi: i64) -> Share {
    Share { lo, hi }
}
