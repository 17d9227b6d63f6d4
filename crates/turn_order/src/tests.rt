use crate::{mix, pick};

#[test]
fn scattered_words(rt: HostRuntime) {
    assert_eq!(rt; mix(7, 8), 2476628477891077985);
    assert_eq!(rt;
        mix(18446744073709551615, 18446744073709551615),
        13029008266876403067
    );
    assert_eq!(rt; pick(7, 0, 3), 0);
    assert_eq!(rt; pick(0, 0, 4294967295), 1564374505);
}
