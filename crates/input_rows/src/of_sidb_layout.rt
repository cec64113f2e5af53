use sidb_layout::{Fix, Site, default_lattice, layout_with, without};
use std::test::Fail;

/// A place from its three numbers.
fn at(n: i64, m: i64, l: i64) -> Site {
    Site { n, m, l }
}

// Of four sites in reverse row order the second and the third are left out.
#[test]
fn sites_are_left_out(rt: HostRuntime) -> Result<(), Fail> {
    let sites = [at(0, 1, 0), at(-3, 0, 1), at(2, 0, 0), at(0, 0, 0)];
    let fix = Fix {
        site: at(5, 0, 0),
        charge: -2,
    };
    let layout = layout_with(rt.alloc(), sites.as_slice(), [fix].as_slice())?;
    let left = without(rt.alloc(), &layout, [1, 2].as_slice())?;
    assert_eq!(rt; (left.len(), left.fixes()), (2, 1));
    assert_eq!(rt; left.site(0), at(0, 0, 0));
    assert_eq!(rt; left.site(1), at(0, 1, 0));
    assert!(rt; left.lattice() == default_lattice());
    Ok(())
}
