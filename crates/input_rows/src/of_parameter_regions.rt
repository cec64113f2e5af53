use model_params::{Params, params_of};
use parameter_regions::{are_corners, rectangle_between, region_problem};
use potential_problem::span_between;
use sidb_layout::{Site, layout_of};
use std::test::Fail;

/// The preset parameters at this permittivity, in 10^-4, and screening length, in 10^-4 nm.
fn preset_at(eps: i64, lam: i64) -> Result<Params, Fail> {
    let (depth, gap) = (320_000_000_000, 590_000_000_000);
    Ok(params_of(14_399_645, eps, lam, depth, gap, 3).ok_or("range")?)
}

/// Three neighbours along a row, over a rectangle: one class of neighbours, one of the outer two.
/// Each lower end is the potential at the weakest corner, rounded down, each upper end that at the
/// strongest, rounded up; both were worked by decimals of 60 digits.
#[test]
fn spans_hold_the_corners(rt: HostRuntime) -> Result<(), Fail> {
    let sites = [0, 1, 2].map(|n| Site { n, m: 0, l: 0 });
    let layout = layout_of(rt.alloc(), sites.as_slice())?;
    let (weakest, strongest) = (preset_at(57_000, 49_000)?, preset_at(55_000, 51_000)?);
    if !are_corners(&weakest, &strongest) {
        return Err("corners".into());
    }
    let rectangle = rectangle_between(weakest, strongest);
    let problem = region_problem(rt.alloc(), &layout, &rectangle)?;
    let spans = [
        span_between(608_290_731_267, 632_350_769_995),
        span_between(281_220_319_309, 293_243_393_228),
    ];
    assert_eq!(rt; problem.spans(), spans.as_slice());
    assert_eq!(rt; problem.pair_classes(), [0, 1, 0].as_slice());
    Ok(())
}
