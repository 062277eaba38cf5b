//! Names by number.
use mk_names::*;
use std::test::*;

#[test]
fn numbers_are_first_places(rt: HostRuntime) -> Result<(), Fail> {
    let mut names = Names::with_limit(rt.alloc(), 2);
    let cases = [
        ("b", Ok(0)),
        ("a", Ok(1)),
        ("b", Ok(0)),
        ("A", Err(NameError::BadName)),
        ("c", Err(NameError::Full)),
    ];
    for (name, answer) in cases {
        assert!(rt; names.intern(name) == answer);
    }
    assert!(rt; names.find("a") == Some(1) && names.find("c").is_none());
    Ok(())
}

// As many names as a script has keys, and one more.
#[test]
fn names_up_to_the_limit(rt: HostRuntime) -> Result<(), Fail> {
    let mut names = Names::new(rt.alloc());
    for n in 0u32..256 {
        let name = format!(in rt.alloc(); "k{n}")?;
        assert!(rt; names.intern(name.as_str()) == Ok(n));
    }
    assert!(rt; names.intern("k256") == Err(NameError::Full));
    let copied = names.copy()?;
    assert!(rt; copied.len() == 256 && copied.name(255) == Some("k255"));
    Ok(())
}
