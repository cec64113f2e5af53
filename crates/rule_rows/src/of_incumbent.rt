use crate::problems::{apart, neighbours, wide_pair};
use incumbent::certain_energy;
use std::test::Fail;

/// Neighbours alternate, in base 2 the middle one is negative alone; no list of the pair is certain.
#[test]
fn least_energies_of_few_sites(rt: HostRuntime) -> Result<(), Fail> {
    let alloc = rt.alloc();
    let alternating = neighbours(alloc, 3)?;
    assert_eq!(rt;
        certain_energy(alloc, &alternating)?,
        Some(-953_107_708_684)
    );
    let middle_alone = neighbours(alloc, 2)?;
    assert_eq!(rt; certain_energy(alloc, &middle_alone)?, Some(0));
    let left = apart(alloc)?;
    assert_eq!(rt; certain_energy(alloc, &left)?, Some(50));
    let wide = wide_pair(alloc)?;
    assert_eq!(rt; certain_energy(alloc, &wide)?, None);
    Ok(())
}
