ghost use Rattle.std.specs.Prelude.{◌≡◌, ◌≤◌, ◌+◌, ◌^◌, ◌<◌, pos, IfOk};
ghost use Rattle.charge_model.specs.declared.TheConstants.{MAX_SITES};
ghost use Rattle.task_gen.specs.Generator.{column_after, drawn, next_state, site_by, sites_for_number, state_after};

use sidb_layout::Site;
use sidb_units::Memory;
use std::alloc::Global;

/// The state behind a state.
#[tactic(auto, unfolding(crate::specs::Generator::next_state))]
fn next_state(state: u64) -> u64
    ensures { result ≡ next_state state }
{
    state
        .wrapping_mul(6_364_136_223_846_793_005)
        .wrapping_add(1_442_695_040_888_963_407)
}

/// What is drawn where a state is reached.
fn drawn(state: u64) -> u64
    ensures value { result ≡ drawn state }
    ensures within { result < 2 ^ 31 }
{
    state / 8_589_934_592
}

/// A site, the column that it stands in, and the state behind its draws.
#[derive(Clone, Copy)]
struct DrawnSite {
    site: Site,
    column: u64,
    state: u64,
}

/// The next site.
fn site_after(state: u64, column: u64) -> DrawnSite
    requires { column ≤ 704 }
    ensures site { result.site ≡ site_by state column }
    ensures column { result.column ≡ column_after state column }
    ensures near { result.column ≤ column + 11 }
    ensures state { result.state ≡ state_after state }
{
    let first = next_state(state);
    let second = next_state(first);
    let third = next_state(second);
    let column = column + (drawn(first) % 8 + 4);
    DrawnSite {
        site: Site {
            n: column as i64,
            m: (drawn(second) % 3) as i64,
            l: (drawn(third) % 2) as i64,
        },
        column,
        state: third,
    }
}

/// The sites that a number generates. For each site three draws are taken: the first, modulo 8, and
/// 4 more is how far it stands behind the column before; the second, modulo 3, is its row; the
/// third, modulo 2, its atom.
pub fn generated_sites(alloc: Global, number: u64, count: u64) -> Result<Vec<Site>, Memory>
    requires { count ≤ MAX_SITES }
    ensures { IfOk result (λ sites. sites.items ≡ sites_for_number number count) }
{
    let mut sites = Vec::new(alloc);
    let mut column = 0;
    let mut state = number;
    for i in 0..count {
        let next = site_after(state, column);
        sites.push(next.site)?;
        column = next.column;
        state = next.state;
    }
    Ok(sites)
}
