use boot_keeper::{BootFault, FileKeeper, MemKeeper, next_boot};
use std::fs;
use std::test::Fail;

// Three boots in a row, with one failing call at the second: a number that is torn under a closed gate
// counts for nothing, and one whose gate was opened counts although the call failed.
#[test]
fn boots_rise(rt: HostRuntime) -> Result<(), Fail> {
    let fault = Err(BootFault::KeeperFault);
    let rows = [
        (99, [Ok(1), Ok(2), Ok(3)]),
        (6, [Ok(1), fault, Ok(2)]),
        (7, [Ok(1), fault, Ok(3)]),
    ];
    for (failing, want) in rows {
        let mut keeper = MemKeeper::new(rt.alloc(), &[failing])?;
        let got = [
            next_boot(&mut keeper),
            next_boot(&mut keeper),
            next_boot(&mut keeper),
        ];
        assert_eq!(rt; got, want, "where call {failing} fails");
    }
    Ok(())
}

// A file that is not there is made; one that was cut is refused, and never begun again.
#[test]
fn boots_of_a_file(rt: HostRuntime) -> Result<(), Fail> {
    let _ = fs::remove_file(&rt, "spdm.boot");
    assert_eq!(rt; next_boot(&mut FileKeeper::new(&rt)), Ok(1));
    let mut keeper = FileKeeper::new(&rt);
    assert_eq!(rt; next_boot(&mut keeper), Ok(2));
    assert_eq!(rt; next_boot(&mut keeper), Ok(3));
    fs::write(&rt, "spdm.boot", "cut")?;
    assert_eq!(rt;
        next_boot(&mut FileKeeper::new(&rt)),
        Err(BootFault::KeeperFault)
    );
    fs::remove_file(&rt, "spdm.boot")?;
    Ok(())
}
