//! Texts of generated scripts.
use mk_gen::generate;
use mk_script::{Script, print};
use std::test::*;

const WITHOUT_TXNS: &str = "meerkat 1\n\
         size 1\n\
         client c1 0 1\n";

const SMALL: &str = "meerkat 1\n\
         size 1\n\
         client c1 0 1\n\
         client c2 1 2\n\
         txn c1 1000 r:k2 c:k2=add(1)\n\
         txn c2 2000 w:k3=1813784697 w:k3=2629966899 w:k1=2424464043 r:k1\n\
         txn c1 3000 r:k2 r:k0 r:k2 r:k0\n\
         txn c2 4000 r:k1\n\
         txn c1 5000 r:k2 c:k2=add(1) w:k0=2294697965\n";

const GREATEST_NUMBER: &str = "meerkat 1\n\
         size 1\n\
         client c1 0 1\n\
         client c2 1 2\n\
         client c3 2 0\n\
         txn c1 1000 w:k0=1916827069 c:k0=add(1)\n\
         txn c2 2000 r:k4 r:k1\n\
         txn c3 3000 c:k5=add(1) w:k2=1888970678 r:k2 r:k2\n\
         txn c1 4000 w:k6=439430129 r:k3\n";

// The first and the last lines of a large script.
const LARGE_FIRST: &str = "meerkat 1\n\
         size 1\n\
         client c1 0 1\n\
         client c2 1 2\n";

const LARGE_LAST: &str = "txn c63 4095000 w:k254=1501794449 c:k62=add(1) w:k62=3831642898\n\
         txn c64 4096000 w:k191=323297561 r:k255 c:k191=add(1)\n";

/// Whether the text of a script begins and ends so.
fn has_text(rt: &HostRuntime, script: &Script, first: &str, last: &str) -> Result<bool, Fail> {
    let text = print(rt.alloc(), script)?;
    Ok(text.starts_with(first.as_bytes()) && text.ends_with(last.as_bytes()))
}

#[test]
fn small_scripts(rt: HostRuntime) -> Result<(), Fail> {
    let script = generate(rt.alloc(), 1, 2, 5, 4)?;
    assert!(rt; has_text(&rt, &script, SMALL, SMALL)?);
    let script = generate(rt.alloc(), 18446744073709551615, 3, 4, 7)?;
    assert!(rt; has_text(&rt, &script, GREATEST_NUMBER, GREATEST_NUMBER)?);
    Ok(())
}

#[test]
fn no_transactions_and_most_of_them(rt: HostRuntime) -> Result<(), Fail> {
    let script = generate(rt.alloc(), 1, 1, 0, 1)?;
    assert!(rt; has_text(&rt, &script, WITHOUT_TXNS, WITHOUT_TXNS)?);
    let script = generate(rt.alloc(), 1, 64, 4096, 256)?;
    assert!(rt; has_text(&rt, &script, LARGE_FIRST, LARGE_LAST)?);
    Ok(())
}
