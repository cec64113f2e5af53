use sidb_units::print_dec;
use std::test::Fail;

#[test]
fn decimals_are_printed(rt: HostRuntime) -> Result<(), Fail> {
    for (value, places, want) in [(56_000, 4, "5.6000"), (5, 2, "0.05"), (7, 0, "7")] {
        let text = print_dec(rt.alloc(), value, places)?;
        assert_eq!(rt; text.as_str(), want);
    }
    Ok(())
}
