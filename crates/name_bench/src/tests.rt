use crate::rounds::run;
use crate::words::{Size, size_of};
use std::test::Fail;

#[test]
fn each_look_up_finds_the_file(rt: HostRuntime) -> Result<(), Fail> {
    assert_eq!(rt; run(rt.alloc(), 200, 3), Ok(600));
    Ok(())
}

#[test]
fn two_numbers(rt: HostRuntime) -> Result<(), Fail> {
    let alloc = rt.alloc();
    let words = vec![in alloc;
        String::from_str(alloc, "500")?,
        String::from_str(alloc, "800")?,
    ]?;
    let size = Size {
        names: 500,
        rounds: 800,
    };
    assert_eq!(rt; size_of(words.as_slice()), Some(size));
    assert_eq!(rt; size_of(&words.as_slice()[1..]), None);
    Ok(())
}
